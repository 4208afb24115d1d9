// The line that formats a device.
ghost use Rattle.std.specs.Prelude.{◌≡◌, ◌≤◌, ℕ, List, Option, option_copied, false, IfOk, IsSome};
ghost use Rattle.zn_lines.specs.Lines.{Mkfs};
ghost use Rattle.zn_lines.specs.Session.{line_now, label_in, uuid_in, features_in};
ghost use Rattle.zn_lines.specs.Table.{no_numbers};
ghost use Rattle.zn_script.specs.Items.{IsShort, format_meant};
ghost use Rattle.zn_session.specs.SessionState.{bare_held, held_by, AreNumbered};
ghost use Rattle.zn_session.specs.Replies.{Kept};
ghost use Rattle.zn_session.specs.Steps.{Means};

use crate::held::Held;
use crate::replies::Reply;
use std::alloc::Global;
use uuid::{Builder, Uuid};
use zn_device::Zoned;
use zn_mkfs::format;
use zn_model::{FormatOpts, Handle, OptError};
use zn_opts::format_opts;
use zn_script::FormatWords;
use zn_super::Label;

/// The label that a text is; no text is the empty one.
fn label_in(text: Option<&str>) -> Option<Label>
    ensures { result ≡ label_in (option_copied text.entry) }
{
    match text {
        Some(text) => Label::new(text.as_bytes()),
        None => Some(Label::empty()),
    }
}

/// The identifier that a text is; without a text, the one of version 4 that sixteen bytes make.
fn uuid_in(text: Option<&str>, entropy: &[u8; 16]) -> Option<[u8; 16]>
    ensures { result ≡ uuid_in (option_copied text.entry) entropy.now }
{
    match text {
        Some(text) => match Uuid::parse_str(text) {
            Ok(uuid) => Some(uuid.into_bytes()),
            Err(_) => None,
        },
        None => {
            let uuid = Builder::from_random_bytes(*entropy).into_uuid();
            Some(uuid.into_bytes())
        }
    }
}

/// The features that a text asks for. No text is as an empty one.
fn features_in(text: Option<&str>) -> Result<FormatOpts, OptError>
    requires { IsShort text }
    ensures value { result ≡ features_in (option_copied text.entry) }
    ensures small { IfOk result (λ opts. opts.perm ≤ 0o777) }
{
    match text {
        Some(text) => format_opts(text.as_bytes()),
        None => format_opts(b""),
    }
}

/// Formats a bare device. The label, then the identifier, then the features are read before any command.
fn format_bare<D: Zoned>(
    alloc: Global,
    dev: &mut D,
    entropy: &[u8; 16],
    words: &FormatWords<'_>,
) -> Reply<'static>
    requires short { IsShort words.now.features }
    requires unspoilt { (D.state dev.old).spoilt ≡ false }
    ensures { (kept : Kept) (numbers : List (Option Handle)) → numbers ≡ no_numbers
        → Means line_now (Mkfs (format_meant words.now)) result kept entropy.now
        (bare_held (D.state dev.old)) (bare_held (D.state dev.new)) numbers numbers }
{
    let Some(label) = label_in(words.label) else {
        return Reply::BadLabel;
    };
    let Some(uuid) = uuid_in(words.uuid, entropy) else {
        return Reply::BadUuid;
    };
    let opts = match features_in(words.features) {
        Ok(opts) => opts,
        Err(error) => return Reply::OptionRefused(error),
    };
    match format(alloc, dev, &label, &opts, uuid, words.force) {
        Ok(()) => Reply::Done,
        Err(error) => Reply::FormatRefused(error),
    }
}

/// Formats the device, where nothing is mounted.
pub fn mkfs<D: Zoned + Drop>(
    alloc: Global,
    held: &mut Option<Held<D>>,
    entropy: &[u8; 16],
    words: &FormatWords<'_>,
) -> Reply<'static>
    requires short { IsShort words.now.features }
    requires there { IsSome held.old }
    requires unspoilt { (held_by D.state held.old).device.spoilt ≡ false }
    ensures means { (kept : Kept) (numbers : List (Option Handle))
        → AreNumbered (held_by D.state held.old) numbers
        → Means line_now (Mkfs (format_meant words.now)) result kept entropy.now
        (held_by D.state held.old) (held_by D.state held.new) numbers numbers }
    ensures there { IsSome held.new }
{
    match held {
        Some(Held::Bare(dev)) => format_bare(alloc, dev, entropy, words),
        Some(Held::Mounted(_)) => Reply::AlreadyMounted,
        None => Reply::AlreadyMounted,
    }
}
