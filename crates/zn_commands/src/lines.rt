// The last line of a command on a directory.
ghost use Rattle.std.specs.Prelude.{◌≡◌, ◌≢◌};
ghost use Rattle.zn_model.specs.ZoneTexts.{cond_name};
ghost use Rattle.zn_lines.specs.ReplyTexts.{error_text};
ghost use Rattle.zn_run.specs.Headline.{Closed};
ghost use Rattle.zn_stand.specs.AtRest.{BadZoneFile, MissingFile};
ghost use Rattle.zn_commands.specs.Lines.{cause_name, open_status, open_line, add_status, add_line};
ghost use Rattle.zn_commands.specs.Lines.{format_status, format_line};

use zn_backing::{CreateError, OpenError, zone_name};
use zn_base::{Part, Sink};
use zn_model::FormatError;
use zn_run::{Status, end_broken, end_by, end_starved};
use zn_truth::{Cond, Kind, ZoneNo};

/// Ends a command whose directory has no file of this zone.
fn end_missing<K: Sink>(sink: &mut K, kind: Kind, z: ZoneNo) -> Status
    ensures { Closed result Status.Directory (error_text (cause_name (MissingFile kind z.0)))
        (K.state sink.old) (K.state sink.new) }
{
    let mut text = [0; 10];
    let name = zone_name(kind, z, &mut text).as_bytes();
    end_by(
        sink,
        &[
            Part::Text(b"error missing-file "),
            Part::Text(name),
            Part::Text(b"\n"),
        ],
        Status::Directory,
    )
}

/// Ends a command in whose directory the file of this zone has this length in bytes, which doesn't fit.
fn end_misfit<K: Sink>(sink: &mut K, kind: Kind, z: ZoneNo, len: u64) -> Status
    ensures { Closed result Status.Directory (error_text (cause_name (BadZoneFile kind z.0 len)))
        (K.state sink.old) (K.state sink.new) }
{
    let mut text = [0; 10];
    let name = zone_name(kind, z, &mut text).as_bytes();
    end_by(
        sink,
        &[
            Part::Text(b"error bad-zone-file "),
            Part::Text(name),
            Part::Text(b" "),
            Part::Number(len),
            Part::Text(b"\n"),
        ],
        Status::Directory,
    )
}

/// Ends a command whose directory isn't opened as a device: `Directory` and the cause, `HostFault` where a call on a
/// file failed, `Memory` where memory was wanting, or `WriteFault` where the sink failed in the line that tells it.
pub fn end_shut<K: Sink>(sink: &mut K, why: &OpenError) -> Status
    ensures { Closed result (open_status why.now) (open_line why.now) (K.state sink.old) (K.state sink.new) }
{
    match why {
        OpenError::NotADevice => end_by(
            sink,
            &[Part::Text(b"error not-a-device\n")],
            Status::Directory,
        ),
        OpenError::BadGeometry(line) => end_by(
            sink,
            &[
                Part::Text(b"error bad-geometry "),
                Part::Number(*line as u64),
                Part::Text(b"\n"),
            ],
            Status::Directory,
        ),
        OpenError::MissingFile(kind, z) => end_missing(sink, *kind, *z),
        OpenError::BadZoneFile(kind, z, len) => end_misfit(sink, *kind, *z, *len),
        OpenError::ExtraName(name) => end_by(
            sink,
            &[
                Part::Text(b"error extra-name "),
                Part::Text(name.as_bytes()),
                Part::Text(b"\n"),
            ],
            Status::Directory,
        ),
        OpenError::TooManyActive(count) => end_by(
            sink,
            &[
                Part::Text(b"error too-many-active "),
                Part::Number(*count as u64),
                Part::Text(b"\n"),
            ],
            Status::Directory,
        ),
        OpenError::Fault => end_broken(sink, 0),
        OpenError::Memory => end_starved(sink),
    }
}

/// Ends the making of a device that failed.
fn end_unmade<K: Sink>(sink: &mut K, why: &CreateError) -> Status
    requires { why.now ≢ CreateError.BadGeometry }
    ensures { Closed result (add_status (Err why.now)) (add_line (Err why.now)) (K.state sink.old) (K.state sink.new) }
{
    match why {
        CreateError::BadGeometry => unreachable!(),
        CreateError::Exists(name) => end_by(
            sink,
            &[
                Part::Text(b"error not-empty "),
                Part::Text(name.as_bytes()),
                Part::Text(b"\n"),
            ],
            Status::Directory,
        ),
        CreateError::Fault => end_broken(sink, 0),
        CreateError::Memory => end_starved(sink),
    }
}

/// Ends the making of a device within the limits.
pub(crate) fn end_add<K: Sink>(sink: &mut K, outcome: &Result<(), CreateError>) -> Status
    requires { outcome.now ≢ Err CreateError.BadGeometry }
    ensures { Closed result (add_status outcome.now) (add_line outcome.now) (K.state sink.old) (K.state sink.new) }
{
    match outcome {
        Ok(()) => end_by(sink, &[Part::Text(b"ok\n")], Status::Done),
        Err(why) => end_unmade(sink, why),
    }
}

/// The name of the condition of a zone.
fn cond_text(cond: Cond) -> &'static [u8]
    ensures { result.now ≡ cond_name cond }
{
    match cond {
        Cond::Good => b"good",
        Cond::ReadOnly => b"read-only",
        Cond::Offline => b"offline",
    }
}

/// Ends a format that failed.
fn end_unformatted<K: Sink>(sink: &mut K, why: &FormatError) -> Status
    requires faultless { why.now ≢ FormatError.IoError }
    requires powered { why.now ≢ FormatError.PowerLost }
    ensures { Closed result (format_status (Err why.now)) (format_line (Err why.now))
        (K.state sink.old) (K.state sink.new) }
{
    match why {
        FormatError::AlreadyFormatted => end_by(
            sink,
            &[Part::Text(b"error already-formatted\n")],
            Status::Directory,
        ),
        FormatError::BadZone0(cond) => end_by(
            sink,
            &[
                Part::Text(b"error bad-zone0 "),
                Part::Text(cond_text(*cond)),
                Part::Text(b"\n"),
            ],
            Status::Directory,
        ),
        FormatError::IoError | FormatError::PowerLost => unreachable!(),
        FormatError::Broken => end_broken(sink, 0),
        FormatError::Memory => end_starved(sink),
    }
}

/// Ends the format of a device in a directory, which has power and no faults of its own.
pub(crate) fn end_format<K: Sink>(sink: &mut K, reply: &Result<(), FormatError>) -> Status
    requires faultless { reply.now ≢ Err FormatError.IoError }
    requires powered { reply.now ≢ Err FormatError.PowerLost }
    ensures { Closed result (format_status reply.now) (format_line reply.now) (K.state sink.old) (K.state sink.new) }
{
    match reply {
        Ok(()) => end_by(sink, &[Part::Text(b"ok\n")], Status::Done),
        Err(why) => end_unformatted(sink, why),
    }
}
