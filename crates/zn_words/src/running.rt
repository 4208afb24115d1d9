// The words of `run`, but for that name.
ghost use Rattle.std.specs.Prelude.{◌≡◌, IfOk, IfSome, IsSome, OnErr, map, option_copied, option_map, string_bytes};
ghost use Rattle.zn_words.specs.Commands.{are_options, are_options_or_none, is_visible, run_by, run_of};
ghost use Rattle.zn_words.specs.CommandsMeant.{IsAccepted, command_meant};
ghost use Rattle.zn_words.specs.Placed.{given_at};

use crate::commands::{Command, MOST_OPTIONS};
use crate::flags::Flag;
use crate::parts::{gives_dir, value_of};
use crate::places::{Places, read};
use std::alloc::{AllocError, Global};

/// Its options.
const FLAGS: [Flag; 1] = [Flag::Options];

/// Whether a byte stands for a character that is no blank.
fn is_visible(byte: u8) -> bool
    ensures { result ≡ is_visible byte }
{
    (0x21..=0x7E).contains(&byte)
}

/// Whether a word may be the options of a mount.
fn are_options(word: &str) -> bool
    ensures { result ≡ are_options word.now }
{
    word.len() <= MOST_OPTIONS && word.as_bytes().iter().all(|byte| is_visible(*byte))
}

/// The same, where options are given.
fn are_options_or_none(word: Option<&str>) -> bool
    ensures { result ≡ are_options_or_none (option_copied word.entry) }
{
    match word {
        Some(word) => are_options(word),
        None => true,
    }
}

/// The command that the words in these places are.
fn asked<'a>(places: Places<'a>) -> Option<Command<'a>>
    ensures asked { option_map command_meant result ≡ run_by (given_at places.entry) }
    ensures within { IfSome result IsAccepted }
{
    if are_options_or_none(places.options) {
        Some(Command::Run(places.dir, places.options))
    } else {
        None
    }
}

/// The command that the words are, if they have its form.
pub fn parse<'a>(alloc: Global, words: &'a [String]) -> Result<Option<Command<'a>>, AllocError>
    ensures asked { IfOk result (λ asked. option_map command_meant asked ≡ run_of (map string_bytes words.now)) }
    ensures memory { OnErr result (IsSome (run_of (map string_bytes words.now))) }
    ensures within { IfOk result (λ asked. IfSome asked IsAccepted) }
{
    if !gives_dir(&FLAGS, words) {
        return Ok(None);
    }
    match read(alloc, "run", &FLAGS, words) {
        Ok(places) => Ok(asked(places)),
        // Other options are a bad command line, for want of memory too.
        Err(error) => {
            if are_options_or_none(value_of(Flag::Options, &FLAGS, words)) {
                Err(error)
            } else {
                Ok(None)
            }
        }
    }
}
