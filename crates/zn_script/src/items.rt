// The items of a format: words in any order, each at most once.
ghost use Rattle.std.specs.Prelude.{◌≡◌, ◌<◌, ◌≤◌, length, IfOk, IfSome};
ghost use Rattle.zn_lines.specs.declared.limits.TheConstants.{LINE_LIMIT};
ghost use Rattle.std.specs.Option.{option_map};
ghost use Rattle.zn_lines.specs.Lines.{plain_format};
ghost use Rattle.zn_lines.specs.Words.{next};
ghost use Rattle.zn_lines.specs.Grammar.{text_item_of, item_of, with_item, item_after, items_on};
ghost use Rattle.zn_script.specs.Gives.{Gives};
ghost use Rattle.zn_script.specs.Items.{item_meant, format_meant, IsShort, IsShortItem};
ghost use Rattle.zn_script.specs.Places.{left_at, IsPlaceIn};

use crate::FormatWords;
use crate::words::{text_after, word_end};

/// One thing that a format is asked for.
#[derive(Clone, Copy)]
enum FormatItem<'a> {
    Force,
    Label(&'a str),
    Uuid(&'a str),
    Features(&'a str),
}

/// The item with a text that a word is: the first whose key fits.
#[tactic(auto, unfolding(zn_lines::specs::Grammar::text_item_of))]
fn text_item_of(word: &[u8]) -> Option<FormatItem<'_>>
    requires { length word.now ≤ LINE_LIMIT }
    ensures value { option_map item_meant result ≡ text_item_of word.now }
    ensures short { IfSome result IsShortItem }
{
    if let Some(label) = text_after(word, b"label=") {
        Some(FormatItem::Label(label))
    } else if let Some(uuid) = text_after(word, b"uuid=") {
        Some(FormatItem::Uuid(uuid))
    } else if let Some(features) = text_after(word, b"features=") {
        Some(FormatItem::Features(features))
    } else {
        None
    }
}

/// The item that a word is.
#[tactic(auto, unfolding(zn_lines::specs::Grammar::item_of))]
fn item_of(word: &[u8]) -> Option<FormatItem<'_>>
    requires { length word.now ≤ LINE_LIMIT }
    ensures value { option_map item_meant result ≡ item_of word.now }
    ensures short { IfSome result IsShortItem }
{
    if word == b"force".as_slice() {
        Some(FormatItem::Force)
    } else {
        text_item_of(word)
    }
}

/// The words with one item more, unless they have one of its kind.
#[tactic(auto, unfolding(zn_lines::specs::Grammar::with_item))]
fn with_item<'a>(found: FormatWords<'a>, item: FormatItem<'a>) -> Option<FormatWords<'a>>
    requires found { IsShort found.features }
    requires item { IsShortItem item }
    ensures value { option_map format_meant result ≡ with_item (format_meant found.entry) (item_meant item.entry) }
    ensures short { IfSome result (λ words. IsShort words.features) }
{
    match item {
        FormatItem::Force if !found.force => Some(FormatWords {
            force: true,
            ..found
        }),
        FormatItem::Label(text) if found.label.is_none() => Some(FormatWords {
            label: Some(text),
            ..found
        }),
        FormatItem::Uuid(text) if found.uuid.is_none() => Some(FormatWords {
            uuid: Some(text),
            ..found
        }),
        FormatItem::Features(text) if found.features.is_none() => Some(FormatWords {
            features: Some(text),
            ..found
        }),
        _ => None,
    }
}

/// The words with the item that a word is.
fn item_after<'a>(found: FormatWords<'a>, word: &'a [u8]) -> Option<FormatWords<'a>>
    requires found { IsShort found.features }
    requires word { length word.now ≤ LINE_LIMIT }
    ensures value { option_map format_meant result ≡ item_after (format_meant found.entry) word.now }
    ensures short { IfSome result (λ words. IsShort words.features) }
{
    with_item(found, item_of(word)?)
}

/// The words with the item at a place, and the place of the word after it.
fn item_at<'a>(
    line: &'a [u8],
    at: usize,
    found: FormatWords<'a>,
) -> Result<(FormatWords<'a>, usize), u32>
    requires place { IsPlaceIn line.now at }
    requires found { IsShort found.features }
    ensures gives { Gives (λ x. (format_meant x.0, left_at line.now x.1)) result
        (next (item_after (format_meant found.entry)) (left_at line.now at)) }
    ensures place { IfOk result (λ x. IsPlaceIn line.now x.1) }
    ensures later { IfOk result (λ x. at < x.1) }
    ensures short { IfOk result (λ x. IsShort x.0.features) }
{
    if at > line.len() {
        return Err(at as u32);
    }
    let end = word_end(line, at);
    match item_after(found, &line[at..end]) {
        Some(more) => Ok((more, end + 1)),
        None => Err((at + 1) as u32),
    }
}

/// What all words from a place on ask a format for.
pub fn items_at(line: &[u8], at: usize) -> Result<FormatWords<'_>, u32>
    requires { IsPlaceIn line.now at }
    ensures gives { Gives format_meant result
        (items_on plain_format (left_at line.now at).column (left_at line.now at).words) }
    ensures short { IfOk result (λ words. IsShort words.features) }
{
    let mut found = FormatWords {
        force: false,
        label: None,
        uuid: None,
        features: None,
    };
    let mut place = at;
    while place <= line.len() {
        let (more, end) = item_at(line, place, found)?;
        found = more;
        place = end;
    }
    Ok(found)
}
