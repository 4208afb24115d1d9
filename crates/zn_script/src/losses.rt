// The words of a loss of power: `done`, a byte that is filled in, and the cuts of zones.
ghost use Rattle.std.specs.Prelude.{◌≡◌, ◌≤◌, ◌<◌, [], ◌∷◌, ◌++◌, List, ℕ, length, position};
ghost use Rattle.std.specs.Prelude.{IsTrue, IfOk, IfSome, MatchOption, option_map, if◌then◌else◌, Some, None, Ok};
ghost use Rattle.std.specs.List.{list_any};
ghost use Rattle.zn_truth.specs.declared.ZoneNo.{ZoneNo};
ghost use Rattle.zn_truth.specs.declared.limits.TheConstants.{MAX_CUTS};
ghost use Rattle.zn_lines.specs.Words.{next, optional};
ghost use Rattle.zn_lines.specs.Grammar.{done_in, byte_of, fill_of, is_colon, cut_of, cut_after, cuts_on};
ghost use Rattle.zn_script.specs.Cuts.{cut_meant, is_beyond, cuts_meant, AreCutWords};
ghost use Rattle.zn_script.specs.Gives.{Gives};
ghost use Rattle.zn_script.specs.Places.{left_at, IsPlaceIn};

use crate::data::hex_worth;
use crate::words::{after_key, number_in, word_end};
use zn_truth::{Cuts, MAX_CUTS, ZoneNo};

/// Whether a word is `done`.
#[tactic(auto, unfolding(zn_lines::specs::Grammar::done_in))]
fn is_done(word: &[u8]) -> bool
    ensures { (if result then Some tt else None) ≡ done_in word.now }
{
    word == b"done".as_slice()
}

/// Whether `done` stands at a place, and the place of the word after it.
pub fn done_at(line: &[u8], at: usize) -> (bool, usize)
    requires { IsPlaceIn line.now at }
    ensures gives { optional done_in (left_at line.now at)
        ≡ Ok ((if result.0 then Some tt else None), left_at line.now result.1) }
    ensures place { IsPlaceIn line.now result.1 }
{
    if at > line.len() {
        return (false, at);
    }
    let end = word_end(line, at);
    if is_done(&line[at..end]) {
        (true, end + 1)
    } else {
        (false, at)
    }
}

/// The byte that two hexadecimal digits are.
#[tactic(auto, unfolding(zn_lines::specs::Grammar::byte_of))]
fn byte_of(word: &[u8]) -> Option<u8>
    ensures { result ≡ byte_of word.now }
{
    match word {
        [high, low] => {
            let high = hex_worth(*high)?;
            let low = hex_worth(*low)?;
            Some(high * 16 + low)
        }
        _ => None,
    }
}

/// The byte that a word lets a loss fill in.
fn fill_of(word: &[u8]) -> Option<u8>
    ensures { result ≡ fill_of word.now }
{
    byte_of(after_key(word, b"fill=")?)
}

/// The byte at a place that is filled in, if its key is there, and the place of the word after it.
pub fn fill_at(line: &[u8], at: usize) -> (Option<u8>, usize)
    requires { IsPlaceIn line.now at }
    ensures gives { optional fill_of (left_at line.now at) ≡ Ok (result.0, left_at line.now result.1) }
    ensures place { IsPlaceIn line.now result.1 }
{
    if at > line.len() {
        return (None, at);
    }
    let end = word_end(line, at);
    match fill_of(&line[at..end]) {
        Some(byte) => (Some(byte), end + 1),
        None => (None, at),
    }
}

/// A zone's number, and the blocks that it is cut to.
#[derive(Clone, Copy)]
struct Cut {
    zone: u64,
    blocks: u32,
}

/// The place of the first colon.
fn colon_at(bytes: &[u8]) -> Option<usize>
    ensures place { result ≡ position is_colon bytes.now }
    ensures within { IfSome result (λ i. i < length bytes.now) }
{
    bytes.iter().position(|b| *b == b':')
}

/// The cut that a word is.
fn cut_of(word: &[u8]) -> Option<Cut>
    ensures { option_map cut_meant result ≡ cut_of word.now }
{
    let colon = colon_at(word)?;
    let zone = number_in(&word[..colon], u64::MAX)?;
    let blocks = number_in(&word[colon + 1..], u32::MAX as u64)?;
    Some(Cut {
        zone,
        blocks: blocks as u32,
    })
}

/// The cut that a word is, behind so many others: there are at most 64.
fn cut_after(word: &[u8], count: u32) -> Option<Cut>
    ensures value { (found : List (ZoneNo × ℕ)) → length found ≡ count
        → option_map (λ cut. found ++ cut_meant cut ∷ []) result ≡ cut_after found word.now }
    ensures room { IfSome result (λ _. count < MAX_CUTS) }
{
    let cut = cut_of(word)?;
    if count < MAX_CUTS { Some(cut) } else { None }
}

/// The cut at a place, behind so many others, and the place of the word after it.
fn cut_at(line: &[u8], at: usize, count: u32) -> Result<(Cut, usize), u32>
    requires { IsPlaceIn line.now at }
    ensures gives { (found : List (ZoneNo × ℕ)) → length found ≡ count
        → Gives (λ x. (found ++ cut_meant x.0 ∷ [], left_at line.now x.1)) result
        (next (cut_after found) (left_at line.now at)) }
    ensures place { IfOk result (λ x. IsPlaceIn line.now x.1) }
    ensures later { IfOk result (λ x. at < x.1) }
    ensures room { IfOk result (λ x. count < MAX_CUTS) }
{
    if at > line.len() {
        return Err(at as u32);
    }
    let end = word_end(line, at);
    match cut_after(&line[at..end], count) {
        Some(cut) => Ok((cut, end + 1)),
        None => Err((at + 1) as u32),
    }
}

/// All words from a place on, which are cuts.
pub fn cuts_at(line: &[u8], at: usize) -> Result<&[u8], u32>
    requires { IsPlaceIn line.now at }
    ensures gives { Gives (λ words. cuts_meant words.now) result
        (cuts_on [] (left_at line.now at).column (left_at line.now at).words) }
    ensures fit { IfOk result (λ words. AreCutWords words.now) }
{
    let mut place = at;
    let mut count = 0u32;
    while place <= line.len() {
        let (_, end) = cut_at(line, place, count)?;
        count += 1;
        place = end;
    }
    Ok(&line[at.min(line.len())..])
}

/// The cuts that words name; none where one of them names a zone by a number of more than 32 bits, which no device
/// has.
pub fn expand_cuts(words: &[u8]) -> Option<Cuts>
    requires { AreCutWords words.now }
    ensures { MatchOption result
        (IsTrue (list_any is_beyond (cuts_meant words.now)))
        (λ cuts. cuts ≡ cuts_meant words.now) }
{
    let mut cuts = Cuts::new();
    if words.is_empty() {
        return Some(cuts);
    }
    let mut place = 0;
    while place <= words.len() {
        let end = word_end(words, place);
        let cut = cut_of(&words[place..end])?;
        let zone = u32::try_from(cut.zone).ok()?;
        cuts.push(ZoneNo(zone), cut.blocks);
        place = end + 1;
    }
    Some(cuts)
}
