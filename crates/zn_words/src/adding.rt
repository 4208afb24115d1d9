// The words of `add`, but for that name.
ghost use Rattle.std.specs.Prelude.{◌≡◌, ◌∷◌, ℕ, List, true, map, option_map, string_bytes};
ghost use Rattle.std.specs.Prelude.{IfErr, IfOk, IfSome, IsSome, OnErr};
ghost use Rattle.clap.specs.Words.{app_of, kind_of};
ghost use Rattle.zn_keys.specs.Keys.{geometry_asked};
ghost use Rattle.zn_words.specs.Commands.{Add, add_of, are_dir_and_keys};
ghost use Rattle.zn_words.specs.CommandsMeant.{IsAccepted, command_meant};
ghost use Rattle.zn_words.specs.KeyPlaces.{KeysFound, add_app};

use crate::commands;
use crate::values::are_values;
use clap::error::ErrorKind;
use clap::{Arg, ArgMatches, Command, Error};
use std::alloc::{AllocError, Global};
use std::convert::AsStr;
use zn_keys::geometry_of;

/// The place of the directory.
const DIR: &str = "DIR";

/// The place of the keys.
const KEYS: &str = "KEYS";

/// Whether there are a directory and one key or more, all of them values.
fn has_form(words: &[String]) -> bool
    ensures { result ≡ are_dir_and_keys (map string_bytes words.now) }
{
    2 <= words.len() && are_values(words.len(), words)
}

/// The command as `clap` is told it: a text and, behind it, one text or more, and no flag, not even for help.
fn command<'a>(alloc: Global) -> Result<Command<'a>, AllocError>
    ensures { IfOk result (λ command. app_of command ≡ add_app) }
{
    Command::new(alloc, "add")
        .no_binary_name(true)
        .disable_help_flag(true)
        .arg(Arg::new(alloc, DIR).required(true))?
        .arg(Arg::new(alloc, KEYS).required(true).num_args(1..))
}

/// What `clap` finds in words of the form. It takes them whatever they are, and fails for want of memory alone.
fn matches<'a>(alloc: Global, words: &'a [String]) -> Result<ArgMatches<'a>, Error>
    requires { are_dir_and_keys (map string_bytes words.now) ≡ true }
    ensures found { (dir : List ℕ) (keys : List (List ℕ)) → map string_bytes words.now ≡ dir ∷ keys
        → IfOk result (λ matches. KeysFound matches dir keys) }
    ensures memory { IfErr result (λ error. kind_of error ≡ ErrorKind.OutOfMemory) }
{
    command(alloc)?.try_get_matches_from(words)
}

/// The command that a directory and keys are, if these ask for a device.
fn asked<'a, S: AsStr>(dir: &'a str, keys: &[S]) -> Option<commands::Command<'a>>
    ensures asked { option_map command_meant result
        ≡ option_map (Add dir.entry.now) (geometry_asked (map S.text keys.now)) }
    ensures within { IfSome result IsAccepted }
{
    Some(commands::Command::Add(dir, geometry_of(keys)?))
}

/// The command that words of the form are, as they stand in their places.
fn read<'a>(alloc: Global, words: &'a [String]) -> Result<Option<commands::Command<'a>>, AllocError>
    requires { are_dir_and_keys (map string_bytes words.now) ≡ true }
    ensures asked { IfOk result (λ asked. option_map command_meant asked ≡ add_of (map string_bytes words.now)) }
    ensures within { IfOk result (λ asked. IfSome asked IsAccepted) }
{
    let Ok(found) = matches(alloc, words) else {
        return Err(AllocError);
    };
    let dir = found.get_str(DIR).unwrap();
    let keys = found.get_strs(KEYS).unwrap();
    Ok(asked(dir, keys))
}

/// The command that the words are, if they have its form.
pub fn parse<'a>(
    alloc: Global,
    words: &'a [String],
) -> Result<Option<commands::Command<'a>>, AllocError>
    ensures asked { IfOk result (λ asked. option_map command_meant asked ≡ add_of (map string_bytes words.now)) }
    ensures memory { OnErr result (IsSome (add_of (map string_bytes words.now))) }
    ensures within { IfOk result (λ asked. IfSome asked IsAccepted) }
{
    if !has_form(words) {
        return Ok(None);
    }
    match read(alloc, words) {
        Ok(asked) => Ok(asked),
        // Keys that ask for no device are a bad command line, for want of memory too.
        Err(error) => match words {
            [dir, keys @ ..] => match asked(dir.as_str(), keys) {
                Some(_) => Err(error),
                None => Ok(None),
            },
            [] => Ok(None),
        },
    }
}
