// The words of a command on a directory, in their places.
ghost use Rattle.std.specs.Prelude.{◌≡◌, [], IfErr, IfOk, IsSome, Some, false, map, string_bytes};
ghost use Rattle.clap.specs.Words.{app_of, kind_of, rule_of, with_rule};
ghost use Rattle.zn_words.specs.Parts.{Given, given_in};
ghost use Rattle.zn_words.specs.Clap.{dir_command, flag_rule};
ghost use Rattle.zn_words.specs.Found.{Found};
ghost use Rattle.zn_words.specs.Placed.{given_at};

use crate::flags::Flag;
use clap::error::ErrorKind;
use clap::{Arg, ArgAction, ArgMatches, Command, Error};
use std::alloc::{AllocError, Global};

/// The place of the directory.
const DIR: &str = "DIR";

/// What stands in the places of a directory and options.
#[derive(Clone, Copy)]
pub struct Places<'a> {
    pub dir: &'a str,
    pub force: bool,
    pub label: Option<&'a str>,
    pub uuid: Option<&'a str>,
    pub options: Option<&'a str>,
}

/// An option as `clap` is told it: by its letter, and under its word.
fn flag_arg<'a>(alloc: Global, flag: Flag) -> Arg<'a>
    ensures rule { rule_of result ≡ flag_rule flag }
    ensures local { result.global ≡ false }
{
    let action = if flag.takes_value() {
        ArgAction::Set
    } else {
        ArgAction::SetTrue
    };
    let word: &'a str = flag.word();
    Arg::new(alloc, word).short(flag.letter()).action(action)
}

/// A command on a directory as `clap` is told it, without options and without a flag for help.
fn bare_command<'a>(alloc: Global, name: &'a str) -> Result<Command<'a>, AllocError>
    ensures { IfOk result (λ command. app_of command ≡ dir_command name.entry.now []) }
{
    Command::new(alloc, name)
        .no_binary_name(true)
        .disable_help_flag(true)
        .arg(Arg::new(alloc, DIR).required(true))
}

/// The command with an option more.
fn with_flag<'a>(alloc: Global, command: Command<'a>, flag: Flag) -> Result<Command<'a>, AllocError>
    ensures { IfOk result (λ more. app_of more ≡ with_rule (app_of command.entry) (flag_rule flag)) }
{
    command.arg(flag_arg(alloc, flag))
}

/// A command on a directory, with these options.
fn command<'a>(alloc: Global, name: &'a str, flags: &[Flag]) -> Result<Command<'a>, AllocError>
    ensures { IfOk result (λ command. app_of command ≡ dir_command name.entry.now flags.now) }
{
    let mut command = bare_command(alloc, name)?;
    for flag in flags {
        command = with_flag(alloc, command, *flag)?;
    }
    Ok(command)
}

/// What `clap` finds in words that give a directory and options. It takes them all, and fails for want of memory
/// alone.
fn matches<'a>(
    alloc: Global,
    name: &'a str,
    flags: &[Flag],
    words: &'a [String],
) -> Result<ArgMatches<'a>, Error>
    requires { IsSome (given_in flags.now (map string_bytes words.now)) }
    ensures found { (given : Given) → given_in flags.now (map string_bytes words.now) ≡ Some given
        → IfOk result (λ found. Found found given) }
    ensures memory { IfErr result (λ error. kind_of error ≡ ErrorKind.OutOfMemory) }
{
    command(alloc, name, flags)?.try_get_matches_from(words)
}

/// Reads words that give a directory and options into their places.
pub fn read<'a>(
    alloc: Global,
    name: &'a str,
    flags: &[Flag],
    words: &'a [String],
) -> Result<Places<'a>, AllocError>
    requires { IsSome (given_in flags.now (map string_bytes words.now)) }
    ensures { IfOk result (λ places. Some (given_at places) ≡ given_in flags.now (map string_bytes words.now)) }
{
    let Ok(found) = matches(alloc, name, flags, words) else {
        return Err(AllocError);
    };
    Ok(Places {
        dir: found.get_str(DIR).unwrap(),
        force: found.get_flag(Flag::Force.word()),
        label: found.get_str(Flag::Label.word()),
        uuid: found.get_str(Flag::Uuid.word()),
        options: found.get_str(Flag::Options.word()),
    })
}
