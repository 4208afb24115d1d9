// The items of an option text, one after another.
ghost use Rattle.std.specs.Prelude.{◌≡◌, ◌<◌, ◌≤◌, ◌+◌, ◌^◌, length, position, MatchOption, Result};
ghost use Rattle.std.specs.List.{slice_split};
ghost use Rattle.zn_model.specs.Options.{Item as ItemMeant, is_comma, items_of, placed_from, value_behind, each_item};
ghost use Rattle.zn_model.specs.declared.answers.OptError.{OptError as OptErrorMeant};
ghost use Rattle.zn_opts.specs.Items.{item_meant, item_between, IsBehind};

use zn_model::OptError;

/// A part of an option text, and the byte place where it begins.
#[derive(Clone, Copy)]
pub struct Item<'a> {
    pub place: u32,
    pub text: &'a [u8],
}

/// What the items so far ask for, which one item more may add to.
pub trait Given: Copy {
    ghost step: { Self → ItemMeant → Result Self OptErrorMeant };

    /// What is given with this item too.
    fn with_item(self, item: Item<'_>) -> Result<Self, OptError>
        requires { item.place + length item.text.now < 2 ^ 32 }
        ensures { result ≡ step self (item_meant item.entry) };
}

/// Where the first comma is.
fn comma_at(bytes: &[u8]) -> Option<usize>
    ensures { result ≡ position is_comma bytes.now }
{
    bytes.iter().position(|b| *b == b',')
}

/// What stands behind a name and `=`, which the item begins with.
pub fn value_behind<'a>(item: Item<'a>, name: &[u8]) -> Option<Item<'a>>
    requires { item.place + length item.text.now < 2 ^ 32 }
    ensures { MatchOption result (value_behind name.now item.entry.text.now ≡ None)
        (λ value. IsBehind name.now (item_meant item.entry) (item_meant value)) }
{
    if !item.text.starts_with(name) {
        return None;
    }
    let place = item.place + name.len() as u32;
    let text = &item.text[name.len()..];
    Some(Item { place, text })
}

/// What is given with the item that stands between two places of a text too.
fn with_item_at<G: Given>(given: G, text: &[u8], at: usize, end: usize) -> Result<G, OptError>
    requires short { length text.now < 2 ^ 32 }
    requires order { at ≤ end }
    requires within { end ≤ length text.now }
    ensures { result ≡ G.step given (item_between text.now at end) }
{
    let item = Item {
        place: at as u32,
        text: &text[at..end],
    };
    given.with_item(item)
}

/// What the items of a text that is not empty ask for, or the first that is faulty.
fn with_items<G: Given>(given: G, text: &[u8]) -> Result<G, OptError>
    requires { length text.now < 2 ^ 32 }
    ensures { result ≡ each_item G.step given (placed_from 0 (slice_split is_comma text.now)) }
{
    let mut given = given;
    let mut at = 0;
    while let Some(len) = comma_at(&text[at..]) {
        given = with_item_at(given, text, at, at + len)?;
        at += len + 1;
    }
    with_item_at(given, text, at, text.len())
}

/// What all items of a text ask for, or the first that is faulty.
pub fn with_text<G: Given>(given: G, text: &[u8]) -> Result<G, OptError>
    requires { length text.now < 2 ^ 32 }
    ensures { result ≡ each_item G.step given (items_of text.now) }
{
    if text.is_empty() {
        return Ok(given);
    }
    with_items(given, text)
}
