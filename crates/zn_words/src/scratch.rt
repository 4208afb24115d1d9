// The words of `scratch`, but for that name.
ghost use Rattle.std.specs.Prelude.{◌≡◌, IfErr, IfNone, IfOk, IfSome, IsSome, OnErr, map, string_bytes, true};
ghost use Rattle.clap.specs.Words.{app_of, kind_of};
ghost use Rattle.zn_lines.specs.Scratch.{is_scratch};
ghost use Rattle.zn_words.specs.CommandsMeant.{IsWithin};
ghost use Rattle.zn_words.specs.Scratch.{are_values, found_at, scratch_app, scratch_of, words_at};

use crate::values::{are_values, number};
use clap::error::ErrorKind;
use clap::{Arg, ArgMatches, Command, Error};
use std::alloc::{AllocError, Global};
use zn_lines::{SCRATCH_BLOCKS, Scratch};
use zn_truth::{MAX_BLOCKS, MAX_ZONES};

/// The words in their places.
#[derive(Clone, Copy)]
struct Places<'a> {
    zones: &'a str,
    conv: &'a str,
    blocks: &'a str,
}

/// Whether it has a zone, at least as many zones as conventional ones, zones of 2 blocks or more, and at most
/// 65,536 blocks in all.
fn is_accepted(scratch: Scratch) -> bool
    ensures { result ≡ is_scratch scratch }
{
    1 <= scratch.zones
        && scratch.conv <= scratch.zones
        && 2 <= scratch.blocks
        && scratch.zones as u64 * scratch.blocks as u64 <= SCRATCH_BLOCKS as u64
}

/// The device that the words in these places ask for.
fn asked(places: Places<'_>) -> Option<Scratch>
    ensures asked { result ≡ scratch_of (words_at places.entry) }
    ensures within { IfSome result (λ s. IsWithin s) }
{
    let scratch = Scratch {
        zones: number(places.zones.as_bytes(), MAX_ZONES)?,
        conv: number(places.conv.as_bytes(), MAX_ZONES)?,
        blocks: number(places.blocks.as_bytes(), MAX_BLOCKS)?,
    };
    is_accepted(scratch).then_some(scratch)
}

/// The command as `clap` is told it: three texts, each in its place, and no flag, not even for help.
fn command<'a>(alloc: Global) -> Result<Command<'a>, AllocError>
    ensures { IfOk result (λ command. app_of command ≡ scratch_app) }
{
    Command::new(alloc, "scratch")
        .no_binary_name(true)
        .disable_help_flag(true)
        .arg(Arg::new(alloc, "ZONES").required(true))?
        .arg(Arg::new(alloc, "CONV").required(true))?
        .arg(Arg::new(alloc, "BLOCKS").required(true))
}

/// What `clap` finds in three values. It takes them whatever they are, and fails for want of memory alone.
fn matches<'a>(alloc: Global, words: &'a [String]) -> Result<ArgMatches<'a>, Error>
    requires { are_values 3 (map string_bytes words.now) ≡ true }
    ensures found { IfOk result (λ matches. found_at matches ≡ map Some (map string_bytes words.now)) }
    ensures memory { IfErr result (λ error. kind_of error ≡ ErrorKind.OutOfMemory) }
{
    command(alloc)?.try_get_matches_from(words)
}

/// Reads three values into their places.
fn read<'a>(alloc: Global, words: &'a [String]) -> Result<Places<'a>, AllocError>
    requires { are_values 3 (map string_bytes words.now) ≡ true }
    ensures { IfOk result (λ places. words_at places ≡ map string_bytes words.now) }
{
    let Ok(found) = matches(alloc, words) else {
        return Err(AllocError);
    };
    Ok(Places {
        zones: found.get_str("ZONES").unwrap(),
        conv: found.get_str("CONV").unwrap(),
        blocks: found.get_str("BLOCKS").unwrap(),
    })
}

/// The words in the order in which they stand, which is that of their places.
fn in_order(words: &[String]) -> Option<Places<'_>>
    ensures some { IfSome result (λ places. words_at places ≡ map string_bytes words.now) }
    ensures none { IfNone result (scratch_of (map string_bytes words.now) ≡ None) }
{
    let [zones, conv, blocks] = words else {
        return None;
    };
    Some(Places {
        zones: zones.as_str(),
        conv: conv.as_str(),
        blocks: blocks.as_str(),
    })
}

/// The device that the words ask for, if they are three numbers within the limits.
pub fn parse(alloc: Global, words: &[String]) -> Result<Option<Scratch>, AllocError>
    ensures asked { IfOk result (λ asked. asked ≡ scratch_of (map string_bytes words.now)) }
    ensures memory { OnErr result (IsSome (scratch_of (map string_bytes words.now))) }
    ensures within { IfOk result (λ asked. IfSome asked (λ s. IsWithin s)) }
{
    if !are_values(3, words) {
        return Ok(None);
    }
    match read(alloc, words) {
        Ok(places) => Ok(asked(places)),
        // Values that ask for no device are a bad command line, for want of memory too.
        Err(_) => match in_order(words).and_then(asked) {
            Some(_) => Err(AllocError),
            None => Ok(None),
        },
    }
}
