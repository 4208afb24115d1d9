// What the words of a command line ask for.
ghost use Rattle.std.specs.Prelude.{◌≡◌, IfOk, IfSome, IsSome, OnErr, map, option_map, string_bytes};
ghost use Rattle.zn_words.specs.Churning.{churn_of};
ghost use Rattle.zn_words.specs.Commands.{command_of, dir_asked, dir_in, from_seed, in_memory, is_in_memory};
ghost use Rattle.zn_words.specs.CommandsMeant.{IsAccepted, command_meant};
ghost use Rattle.zn_words.specs.Scratch.{scratch_of};

use crate::churning::{self, Churn};
use crate::{adding, formatting, running, scratch as in_memory};
use std::alloc::{AllocError, Global};
use zn_files::Text;
use zn_lines::Scratch;
use zn_model::FormatOpts;
use zn_stand::Geometry;
use zn_super::Label;

/// The most bytes of the options of `run`: behind `mount` and a blank they fit a line.
pub const MOST_OPTIONS: usize = 65_530;

/// What a format is asked for: whether a formatted device is formatted again, a label, which may be empty, an
/// identifier, where one is given, and features.
#[derive(Clone, Copy, Debug, PartialEq, Eq)]
pub struct Format {
    pub force: bool,
    pub label: Label,
    pub uuid: Option<[u8; 16]>,
    pub opts: FormatOpts,
}

/// What a command line asks for. The first text of a command is the directory that it works on, and one without a text
/// has none.
#[derive(Clone, Copy, Debug, PartialEq, Eq)]
pub enum Command<'a> {
    /// A script is run on a new device in memory.
    Scratch(Scratch),
    /// The lines of a script are made from a seed.
    Churn(Churn),
    /// A device is made in an empty directory.
    Add(&'a str, Geometry),
    /// The device in a directory is formatted.
    Mkfs(&'a str, Format),
    /// A script is run on the device in a directory, which is mounted first where options are given.
    Run(&'a str, Option<&'a str>),
}

/// The words of `scratch` as a command.
fn scratch<'a>(alloc: Global, words: &'a [String]) -> Result<Option<Command<'a>>, AllocError>
    ensures asked { IfOk result
        (λ asked. option_map command_meant asked ≡ in_memory (scratch_of (map string_bytes words.now))) }
    ensures memory { OnErr result (IsSome (scratch_of (map string_bytes words.now))) }
    ensures within { IfOk result (λ asked. IfSome asked IsAccepted) }
{
    match in_memory::parse(alloc, words)? {
        Some(scratch) => Ok(Some(Command::Scratch(scratch))),
        None => Ok(None),
    }
}

/// The words of `churn` as a command.
fn generated<'a>(alloc: Global, words: &'a [String]) -> Result<Option<Command<'a>>, AllocError>
    ensures asked { IfOk result
        (λ asked. option_map command_meant asked ≡ from_seed (churn_of (map string_bytes words.now))) }
    ensures memory { OnErr result (IsSome (churn_of (map string_bytes words.now))) }
    ensures within { IfOk result (λ asked. IfSome asked IsAccepted) }
{
    match churning::parse(alloc, words)? {
        Some(churn) => Ok(Some(Command::Churn(churn))),
        None => Ok(None),
    }
}

/// What words ask for, if they are a command line. The first one names the command, and each command reads the others
/// itself. Want of memory is told only of words that are a command line.
#[tactic(auto, unfolding(crate::specs::Commands::command_of, zn_lines::specs::Scratch::command_of))]
pub fn parse<'a>(alloc: Global, words: &'a [String]) -> Result<Option<Command<'a>>, AllocError>
    ensures asked { IfOk result (λ asked. option_map command_meant asked ≡ command_of (map string_bytes words.now)) }
    ensures memory { OnErr result (IsSome (command_of (map string_bytes words.now))) }
    ensures within { IfOk result (λ asked. IfSome asked IsAccepted) }
{
    let [name, words @ ..] = words else {
        return Ok(None);
    };
    match name.as_str() {
        "scratch" => scratch(alloc, words),
        "add" => adding::parse(alloc, words),
        "mkfs" => formatting::parse(alloc, words),
        "run" => running::parse(alloc, words),
        "churn" => generated(alloc, words),
        _ => Ok(None),
    }
}

/// The directory that a command works on.
fn dir_in<'a>(command: &Command<'a>) -> Option<&'a str>
    ensures { option_map (λ s. s.now) result ≡ dir_in (command_meant command.now) }
{
    match command {
        Command::Scratch(_) | Command::Churn(_) => None,
        Command::Add(dir, _) | Command::Mkfs(dir, _) | Command::Run(dir, _) => Some(*dir),
    }
}

/// Whether the first word is that of a command that works on no directory.
fn is_in_memory(words: &[String]) -> bool
    ensures { result ≡ is_in_memory (map string_bytes words.now) }
{
    match words {
        [name, ..] => name.as_str() == "scratch" || name.as_str() == "churn",
        [] => false,
    }
}

/// A copy of the directory that words name, if they are a command line that works on one. Want of memory is told only
/// of words that name one.
#[tactic(auto, using(crate::proofs::Dirs::in_memory_names_none, crate::proofs::Dirs::others_name_one))]
pub fn dir_of(alloc: Global, words: &[String]) -> Result<Option<Text>, AllocError>
    ensures dir { IfOk result (λ dir. dir ≡ dir_asked (map string_bytes words.now)) }
    ensures memory { OnErr result (IsSome (dir_asked (map string_bytes words.now))) }
{
    if is_in_memory(words) {
        return Ok(None);
    }
    let dir = match parse(alloc, words) {
        Ok(Some(command)) => dir_in(&command),
        Ok(None) => None,
        Err(error) => return Err(error),
    };
    match dir {
        Some(dir) => Ok(Some(Text::new(alloc, dir.as_bytes())?)),
        None => Ok(None),
    }
}
