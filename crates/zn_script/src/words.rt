// The words of a line.
ghost use Rattle.std.specs.Prelude.{◌≡◌, ◌≤◌, length, IfOk, IfSome, MatchOption, option_copied, if◌then◌else◌, position};
ghost use Rattle.zn_base.specs.Decimals.{number_in};
ghost use Rattle.zn_lines.specs.Words.{is_blank, next, optional};
ghost use Rattle.zn_lines.specs.Grammar.{path_of, mode_in, kind_in, worse_in, after_key, text_after};
ghost use Rattle.zn_lines.specs.Grammar.{user_after, verb_of};
ghost use Rattle.zn_script.specs.Gives.{Gives};
ghost use Rattle.zn_script.specs.Tables.{named_in};
ghost use Rattle.zn_script.specs.Places.{left_at, IsPlaceIn, NextWord};

use zn_base::parse_number;
use zn_lines::Verb;
use zn_model::Mode;
use zn_truth::{Command, Cond};

/// The word of each verb.
const VERBS: [(&str, Verb); 27] = [
    ("mkfs", Verb::Mkfs),
    ("mount", Verb::Mount),
    ("umount", Verb::Umount),
    ("open", Verb::Open),
    ("close", Verb::Close),
    ("size", Verb::Size),
    ("read", Verb::Read),
    ("write", Verb::Write),
    ("truncate", Verb::Truncate),
    ("sync", Verb::Sync),
    ("stat", Verb::Stat),
    ("list", Verb::List),
    ("attr", Verb::Attr),
    ("create", Verb::Create),
    ("remove", Verb::Remove),
    ("rename", Verb::Rename),
    ("chmod", Verb::Chmod),
    ("chown", Verb::Chown),
    ("fault", Verb::Fault),
    ("turn", Verb::Turn),
    ("submit", Verb::Submit),
    ("complete", Verb::Complete),
    ("reap", Verb::Reap),
    ("zones", Verb::Zones),
    ("power-loss", Verb::PowerLoss),
    ("power-loss-in", Verb::PowerLossIn),
    ("power-on", Verb::PowerOn),
];

/// The word of each mode.
const MODES: [(&str, Mode); 3] = [
    ("r", Mode::READ),
    ("w", Mode::WRITE),
    ("rw", Mode::READ_WRITE),
];

/// The word of each kind of command.
const KINDS: [(&str, Command); 8] = [
    ("read", Command::Read),
    ("write", Command::Write),
    ("reset", Command::Reset),
    ("finish", Command::Finish),
    ("flush", Command::Flush),
    ("open", Command::Open),
    ("close", Command::Close),
    ("report", Command::Report),
];

/// The word of each condition that a zone turns to.
const CONDITIONS: [(&str, Cond); 2] = [("ro", Cond::ReadOnly), ("off", Cond::Offline)];

/// Where the first blank is.
fn blank_at(bytes: &[u8]) -> Option<usize>
    ensures { result ≡ position is_blank bytes.now }
{
    bytes.iter().position(|b| *b == b' ')
}

/// Where the word at a place ends.
pub fn word_end(line: &[u8], at: usize) -> usize
    requires { at ≤ length line.now }
    ensures word { NextWord line.now at result }
    ensures within { result ≤ length line.now }
    ensures later { at ≤ result }
{
    match blank_at(&line[at..]) {
        Some(len) => at + len,
        None => line.len(),
    }
}

/// The decimal number that a word is, if it is at most `max`.
pub fn number_in(word: &[u8], max: u64) -> Option<u64>
    ensures value { result ≡ number_in max word.now }
    ensures small { IfSome result (λ n. n ≤ max) }
{
    parse_number(word, max)
}

/// The number at a place, and the place of the word after it.
pub fn number_at(line: &[u8], at: usize, max: u64) -> Result<(u64, usize), u32>
    requires { IsPlaceIn line.now at }
    ensures gives { Gives (λ x. (x.0, left_at line.now x.1)) result (next (number_in max) (left_at line.now at)) }
    ensures place { IfOk result (λ x. IsPlaceIn line.now x.1) }
    ensures small { IfOk result (λ x. x.0 ≤ max) }
{
    if at > line.len() {
        return Err(at as u32);
    }
    let end = word_end(line, at);
    match number_in(&line[at..end], max) {
        Some(value) => Ok((value, end + 1)),
        None => Err((at + 1) as u32),
    }
}

/// The number at a place that fits 32 bits, and the place of the word after it.
pub fn small_number_at(line: &[u8], at: usize, max: u32) -> Result<(u32, usize), u32>
    requires { IsPlaceIn line.now at }
    ensures gives { Gives (λ x. (x.0, left_at line.now x.1)) result (next (number_in max) (left_at line.now at)) }
    ensures place { IfOk result (λ x. IsPlaceIn line.now x.1) }
    ensures small { IfOk result (λ x. x.0 ≤ max) }
{
    match number_at(line, at, max as u64) {
        Ok((value, at)) => Ok((value as u32, at)),
        Err(column) => Err(column),
    }
}

/// The number at a place, if there is one of at most `max`, and the place of the word after it.
pub fn optional_number_at(line: &[u8], at: usize, max: u32) -> (Option<u32>, usize)
    requires { IsPlaceIn line.now at }
    ensures gives { optional (number_in max) (left_at line.now at) ≡ Ok (result.0, left_at line.now result.1) }
    ensures place { IsPlaceIn line.now result.1 }
{
    if at > line.len() {
        return (None, at);
    }
    let end = word_end(line, at);
    match number_in(&line[at..end], max as u64) {
        Some(number) => (Some(number as u32), end + 1),
        None => (None, at),
    }
}

/// Whether a word is a path: not empty, and of printable bytes.
#[tactic(auto, unfolding(zn_lines::specs::Grammar::path_of))]
fn is_path(word: &[u8]) -> bool
    ensures { (if result then Some word.now else None) ≡ path_of word.now }
{
    !word.is_empty() && word.iter().all(|b| 0x21 <= *b && *b <= 0x7E)
}

/// The path that a word is, which is a text.
fn path_of(word: &[u8]) -> Option<&str>
    ensures value { MatchOption result (path_of word.now ≡ None) (λ path. path_of word.now ≡ Some path.now) }
    ensures short { IfSome result (λ path. length path.now ≤ length word.now) }
{
    if is_path(word) {
        str::from_utf8(word).ok()
    } else {
        None
    }
}

/// The path at a place, and the place of the word after it.
pub fn path_at(line: &[u8], at: usize) -> Result<(&str, usize), u32>
    requires { IsPlaceIn line.now at }
    ensures gives { Gives (λ x. (x.0.now, left_at line.now x.1)) result (next path_of (left_at line.now at)) }
    ensures place { IfOk result (λ x. IsPlaceIn line.now x.1) }
{
    if at > line.len() {
        return Err(at as u32);
    }
    let end = word_end(line, at);
    match path_of(&line[at..end]) {
        Some(path) => Ok((path, end + 1)),
        None => Err((at + 1) as u32),
    }
}

/// The options at a place, if there are some, and the place of the word after them.
pub fn options_at(line: &[u8], at: usize) -> (Option<&str>, usize)
    requires { IsPlaceIn line.now at }
    ensures gives { optional path_of (left_at line.now at) ≡ Ok (option_copied result.0, left_at line.now result.1) }
    ensures place { IsPlaceIn line.now result.1 }
    ensures short { IfSome result.0 (λ text. length text.now ≤ length line.now) }
{
    if at > line.len() {
        return (None, at);
    }
    let end = word_end(line, at);
    match path_of(&line[at..end]) {
        Some(text) => (Some(text), end + 1),
        None => (None, at),
    }
}

/// What stands behind a key, where a word begins with it.
pub fn after_key<'a>(word: &'a [u8], key: &[u8]) -> Option<&'a [u8]>
    ensures value { option_copied result ≡ after_key key.now word.now }
    ensures short { IfSome result (λ rest. length rest.now ≤ length word.now) }
{
    word.strip_prefix(key)
}

/// The text behind a key.
pub fn text_after<'a>(word: &'a [u8], key: &[u8]) -> Option<&'a str>
    ensures value { option_copied result ≡ text_after key.now word.now }
    ensures short { IfSome result (λ text. length text.now ≤ length word.now) }
{
    path_of(after_key(word, key)?)
}

/// The number of a user or a group behind a key.
fn user_after(word: &[u8], key: &[u8]) -> Option<u32>
    ensures { result ≡ user_after key.now word.now }
{
    let digits = after_key(word, key)?;
    let number = number_in(digits, u32::MAX as u64)?;
    Some(number as u32)
}

/// The user or the group at a place, if its key is there, and the place of the word after it.
pub fn user_at(line: &[u8], at: usize, key: &[u8]) -> (Option<u32>, usize)
    requires { IsPlaceIn line.now at }
    ensures gives { optional (user_after key.now) (left_at line.now at) ≡ Ok (result.0, left_at line.now result.1) }
    ensures place { IsPlaceIn line.now result.1 }
{
    if at > line.len() {
        return (None, at);
    }
    let end = word_end(line, at);
    match user_after(&line[at..end], key) {
        Some(id) => (Some(id), end + 1),
        None => (None, at),
    }
}

/// What a word names in a table of words.
fn named<T: Copy>(table: &[(&str, T)], word: &[u8]) -> Option<T>
    ensures { result ≡ named_in (λ e. e.0.now) (λ e. e.1) table.now word.now }
{
    let entry = table.iter().find(|entry| word == entry.0.as_bytes())?;
    Some(entry.1)
}

/// The mode that a word names.
#[tactic(auto, unfolding(crate::specs::Tables::named_in, zn_lines::specs::Grammar::mode_in))]
fn mode_in(word: &[u8]) -> Option<Mode>
    ensures { result ≡ mode_in word.now }
{
    named(&MODES, word)
}

/// The mode at a place, and the place of the word after it.
pub fn mode_at(line: &[u8], at: usize) -> Result<(Mode, usize), u32>
    requires { IsPlaceIn line.now at }
    ensures gives { Gives (λ x. (x.0, left_at line.now x.1)) result (next mode_in (left_at line.now at)) }
    ensures place { IfOk result (λ x. IsPlaceIn line.now x.1) }
{
    if at > line.len() {
        return Err(at as u32);
    }
    let end = word_end(line, at);
    match mode_in(&line[at..end]) {
        Some(mode) => Ok((mode, end + 1)),
        None => Err((at + 1) as u32),
    }
}

/// The kind of command that a word names.
#[tactic(auto, unfolding(crate::specs::Tables::named_in, zn_lines::specs::Grammar::kind_in))]
fn kind_in(word: &[u8]) -> Option<Command>
    ensures { result ≡ kind_in word.now }
{
    named(&KINDS, word)
}

/// The kind of command at a place, and the place of the word after it.
pub fn kind_at(line: &[u8], at: usize) -> Result<(Command, usize), u32>
    requires { IsPlaceIn line.now at }
    ensures gives { Gives (λ x. (x.0, left_at line.now x.1)) result (next kind_in (left_at line.now at)) }
    ensures place { IfOk result (λ x. IsPlaceIn line.now x.1) }
{
    if at > line.len() {
        return Err(at as u32);
    }
    let end = word_end(line, at);
    match kind_in(&line[at..end]) {
        Some(command) => Ok((command, end + 1)),
        None => Err((at + 1) as u32),
    }
}

/// The condition to which a word lets a zone turn.
#[tactic(auto, unfolding(crate::specs::Tables::named_in, zn_lines::specs::Grammar::worse_in))]
fn worse_in(word: &[u8]) -> Option<Cond>
    ensures { result ≡ worse_in word.now }
{
    named(&CONDITIONS, word)
}

/// The condition at a place to which a zone turns, and the place of the word after it.
pub fn worse_at(line: &[u8], at: usize) -> Result<(Cond, usize), u32>
    requires { IsPlaceIn line.now at }
    ensures gives { Gives (λ x. (x.0, left_at line.now x.1)) result (next worse_in (left_at line.now at)) }
    ensures place { IfOk result (λ x. IsPlaceIn line.now x.1) }
{
    if at > line.len() {
        return Err(at as u32);
    }
    let end = word_end(line, at);
    match worse_in(&line[at..end]) {
        Some(to) => Ok((to, end + 1)),
        None => Err((at + 1) as u32),
    }
}

/// The verb that a word names.
#[tactic(auto, unfolding(crate::specs::Tables::named_in, zn_lines::specs::Grammar::verb_of))]
pub fn verb_of(word: &[u8]) -> Option<Verb>
    ensures { result ≡ verb_of word.now }
{
    named(&VERBS, word)
}
