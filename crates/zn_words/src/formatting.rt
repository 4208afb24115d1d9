// The words of `mkfs`, but for that name.
ghost use Rattle.std.specs.Prelude.{◌≡◌, ◌≤◌, IfOk, IfSome, IsSome, OnErr};
ghost use Rattle.std.specs.Prelude.{map, option_copied, option_map, string_bytes};
ghost use Rattle.zn_model.specs.Options.{format_options};
ghost use Rattle.zn_words.specs.Commands.{accepted, features_in, format_by, label_in, mkfs_of, uuid_in};
ghost use Rattle.zn_words.specs.CommandsMeant.{IsAccepted, command_meant, format_meant};

use crate::commands::{Command, Format};
use crate::flags::Flag;
use crate::parts::{gives_dir, value_of};
use crate::places::read;
use std::alloc::{AllocError, Global};
use uuid::Uuid;
use zn_model::FormatOpts;
use zn_opts::format_opts;
use zn_super::Label;

/// Its options.
const FLAGS: [Flag; 4] = [Flag::Force, Flag::Label, Flag::Uuid, Flag::Options];

/// The label that a word is; without one, the empty label.
fn label_in(word: Option<&str>) -> Option<Label>
    ensures { result ≡ label_in (option_copied word.entry) }
{
    match word {
        Some(word) => Label::new(word.as_bytes()),
        None => Some(Label::empty()),
    }
}

/// The identifier that a word is. There may be none, but not one that can't be read.
fn uuid_in(word: Option<&str>) -> Option<Option<[u8; 16]>>
    ensures { result ≡ uuid_in (option_copied word.entry) }
{
    match word {
        Some(word) => match Uuid::parse_str(word) {
            Ok(uuid) => Some(Some(uuid.into_bytes())),
            Err(_) => None,
        },
        None => Some(None),
    }
}

/// The features that a text asks for. One of more bytes than 32 bits count, as its places must be, has an item that is
/// none.
fn features_of(text: &[u8]) -> Option<FormatOpts>
    ensures value { result ≡ accepted (format_options text.now) }
    ensures small { IfSome result (λ opts. opts.perm ≤ 0o777) }
{
    if text.len() > u32::MAX as usize {
        return None;
    }
    format_opts(text).ok()
}

/// The features that a word asks for; without one, those of a format that is told nothing.
fn features_in(word: Option<&str>) -> Option<FormatOpts>
    ensures value { result ≡ features_in (option_copied word.entry) }
    ensures small { IfSome result (λ opts. opts.perm ≤ 0o777) }
{
    match word {
        Some(word) => features_of(word.as_bytes()),
        None => features_of(b""),
    }
}

/// What a format is asked for by these words, if each of them can be read.
fn format_by(
    force: bool,
    label: Option<&str>,
    uuid: Option<&str>,
    features: Option<&str>,
) -> Option<Format>
    ensures asked { option_map format_meant result
        ≡ format_by force (option_copied label.entry) (option_copied uuid.entry) (option_copied features.entry) }
    ensures small { IfSome result (λ format. format.opts.perm ≤ 0o777) }
{
    Some(Format {
        force,
        label: label_in(label)?,
        uuid: uuid_in(uuid)?,
        opts: features_in(features)?,
    })
}

/// The command that the words are, if they have its form.
pub fn parse<'a>(alloc: Global, words: &'a [String]) -> Result<Option<Command<'a>>, AllocError>
    ensures asked { IfOk result (λ asked. option_map command_meant asked ≡ mkfs_of (map string_bytes words.now)) }
    ensures memory { OnErr result (IsSome (mkfs_of (map string_bytes words.now))) }
    ensures within { IfOk result (λ asked. IfSome asked IsAccepted) }
{
    if !gives_dir(&FLAGS, words) {
        return Ok(None);
    }
    match read(alloc, "mkfs", &FLAGS, words) {
        Ok(places) => {
            match format_by(places.force, places.label, places.uuid, places.options) {
                Some(format) => Ok(Some(Command::Mkfs(places.dir, format))),
                None => Ok(None),
            }
        }
        // Other values are a bad command line, for want of memory too.
        Err(error) => {
            let label = value_of(Flag::Label, &FLAGS, words);
            let uuid = value_of(Flag::Uuid, &FLAGS, words);
            let features = value_of(Flag::Options, &FLAGS, words);
            match format_by(false, label, uuid, features) {
                Some(_) => Err(error),
                None => Ok(None),
            }
        }
    }
}
