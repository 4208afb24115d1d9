// The words of `churn`, but for that name.
ghost use Rattle.std.specs.Prelude.{◌≡◌, ◌≤◌, IfErr, IfNone, IfOk, IfSome, IsSome, OnErr, map, string_bytes, true};
ghost use Rattle.clap.specs.Words.{app_of, kind_of};
ghost use Rattle.zn_words.specs.Churning.{churn_app, churn_of, found_at, words_at};
ghost use Rattle.zn_words.specs.Scratch.{are_values};

use crate::values::{are_values, number};
use clap::error::ErrorKind;
use clap::{Arg, ArgMatches, Command, Error};
use std::alloc::{AllocError, Global};
use zn_base::parse_number;
use zn_gen::MOST_STEPS;

/// The script that is asked for: the seed from which it is made, and how many steps it has.
#[derive(Clone, Copy, Debug, PartialEq, Eq)]
pub struct Churn {
    pub seed: u64,
    pub steps: u32,
}

/// The words in their places.
#[derive(Clone, Copy)]
struct Places<'a> {
    seed: &'a str,
    steps: &'a str,
}

/// The script that the words in these places ask for.
fn asked(places: Places<'_>) -> Option<Churn>
    ensures asked { result ≡ churn_of (words_at places.entry) }
    ensures within { IfSome result (λ c. c.steps ≤ MOST_STEPS) }
{
    Some(Churn {
        seed: parse_number(places.seed.as_bytes(), u64::MAX)?,
        steps: number(places.steps.as_bytes(), MOST_STEPS)?,
    })
}

/// The command as `clap` is told it: two texts, each in its place, and no flag, not even for help.
fn command<'a>(alloc: Global) -> Result<Command<'a>, AllocError>
    ensures { IfOk result (λ command. app_of command ≡ churn_app) }
{
    Command::new(alloc, "churn")
        .no_binary_name(true)
        .disable_help_flag(true)
        .arg(Arg::new(alloc, "SEED").required(true))?
        .arg(Arg::new(alloc, "STEPS").required(true))
}

/// What `clap` finds in two values. It takes them whatever they are, and fails for want of memory alone.
fn matches<'a>(alloc: Global, words: &'a [String]) -> Result<ArgMatches<'a>, Error>
    requires { are_values 2 (map string_bytes words.now) ≡ true }
    ensures found { IfOk result (λ matches. found_at matches ≡ map Some (map string_bytes words.now)) }
    ensures memory { IfErr result (λ error. kind_of error ≡ ErrorKind.OutOfMemory) }
{
    command(alloc)?.try_get_matches_from(words)
}

/// Reads two values into their places.
fn read<'a>(alloc: Global, words: &'a [String]) -> Result<Places<'a>, AllocError>
    requires { are_values 2 (map string_bytes words.now) ≡ true }
    ensures { IfOk result (λ places. words_at places ≡ map string_bytes words.now) }
{
    let Ok(found) = matches(alloc, words) else {
        return Err(AllocError);
    };
    Ok(Places {
        seed: found.get_str("SEED").unwrap(),
        steps: found.get_str("STEPS").unwrap(),
    })
}

/// The words in the order in which they stand, which is that of their places.
fn in_order(words: &[String]) -> Option<Places<'_>>
    ensures some { IfSome result (λ places. words_at places ≡ map string_bytes words.now) }
    ensures none { IfNone result (churn_of (map string_bytes words.now) ≡ None) }
{
    let [seed, steps] = words else {
        return None;
    };
    Some(Places {
        seed: seed.as_str(),
        steps: steps.as_str(),
    })
}

/// The script that the words ask for, if they are two numbers within the limits.
pub fn parse(alloc: Global, words: &[String]) -> Result<Option<Churn>, AllocError>
    ensures asked { IfOk result (λ asked. asked ≡ churn_of (map string_bytes words.now)) }
    ensures memory { OnErr result (IsSome (churn_of (map string_bytes words.now))) }
    ensures within { IfOk result (λ asked. IfSome asked (λ c. c.steps ≤ MOST_STEPS)) }
{
    if !are_values(2, words) {
        return Ok(None);
    }
    match read(alloc, words) {
        Ok(places) => Ok(asked(places)),
        // Values that ask for no script are a bad command line, for want of memory too.
        Err(_) => match in_order(words).and_then(asked) {
            Some(_) => Err(AllocError),
            None => Ok(None),
        },
    }
}
