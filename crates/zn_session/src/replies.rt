// Replies, as texts.
ghost use Rattle.std.specs.Prelude.{◌≡◌, ◌≤◌, ◌<◌, ◌^◌, ◌+◌, ◌++◌, ◌%◌, length};
ghost use Rattle.zn_base.specs.States.{Writes};
ghost use Rattle.zn_base.specs.Texts.{◌⧺◌};
ghost use Rattle.zn_model.specs.declared.answers.FormatError.TheVariants.{BadZone0};
ghost use Rattle.zn_model.specs.declared.answers.MountError.TheVariants.{NotFormatted};
ghost use Rattle.zn_lines.specs.ReplyTexts.{mount_error_name, format_error_name, option_error_name, inject_error_name};
ghost use Rattle.zn_lines.specs.ReplyTexts.{refusal_name, outcome_name, error_text, ok_text, number_text, read_text};
ghost use Rattle.zn_lines.specs.ReplyTexts.{done_text, stat_text};
ghost use Rattle.zn_lines.specs.ReplyTexts.{file_text, directory_text, octal_text, name_line, list_text, attr_text};
ghost use Rattle.std.specs.Fmt.{decimal};
ghost use Rattle.zn_model.specs.declared.limits.TheConstants.{MOST_BYTES};
ghost use Rattle.zn_model.specs.ZoneFiles.{names_to};
ghost use Rattle.zn_session.specs.Replies.{kept_in, text_of, front_text, told_line, told_zones, IsWritable};
ghost use Rattle.zn_session.specs.Replies.{directory_names};

use crate::room::{Room, ZoneTold};
use zn_base::{Part, Sink, WriteFault, write_all, write_parts};
use zn_model::{Attr, Done, FormatError, MountError, OptError, Outcome, Refusal, Stat, Why};
use zn_report::zone_line;
use zn_runs::RunBuffer;
use zn_truth::{Cond, InjectError, ZoneNo};

/// What a line is answered.
#[derive(Clone, Copy)]
pub enum Reply<'a> {
    /// No volume is mounted.
    NotMounted,
    /// A volume is mounted already.
    AlreadyMounted,
    /// The number of an open has a handle already.
    HandleInUse,
    /// The label of a format is none.
    BadLabel,
    /// The identifier of a format is none.
    BadUuid,
    /// A call on the volume was refused.
    Refused(Refusal),
    /// The options of a format or of a mount are faulty.
    OptionRefused(OptError),
    FormatRefused(FormatError),
    MountRefused(MountError),
    /// A fault, a turn of a zone or a loss of power was refused.
    InjectRefused(InjectError),
    Done,
    Number(u64),
    /// So many bytes at the front of those that the session keeps.
    Bytes(usize),
    /// How the request that was reaped ended.
    Reaped(Done),
    /// What is told of the file or directory of a path.
    Told(&'a str, Stat),
    /// The directories that exist: `cnv` and `seq`.
    Directories(bool, bool),
    /// The names of so many files: `0`, `1` and so on.
    Names(u32),
    Attributes(Attr),
    /// What the session keeps of the zones of a report.
    Zones,
}

/// The name of a refusal.
fn refusal_text(refusal: Refusal) -> &'static [u8]
    ensures { result.now ≡ refusal_name refusal }
{
    match refusal {
        Refusal::NoSuchFile => b"no-such-file",
        Refusal::NotAllowed => b"not-allowed",
        Refusal::Denied => b"denied",
        Refusal::FileOffline => b"file-offline",
        Refusal::FileReadOnly => b"file-read-only",
        Refusal::FsReadOnly => b"fs-read-only",
        Refusal::BadHandle => b"bad-handle",
        Refusal::BadMode => b"bad-mode",
        Refusal::TooManyHandles => b"too-many-handles",
        Refusal::TooManyWriters => b"too-many-writers",
        Refusal::TooManyActive => b"too-many-active",
        Refusal::TooManyOpen => b"too-many-open",
        Refusal::Unaligned => b"unaligned",
        Refusal::TooBig => b"too-big",
        Refusal::BadOffset => b"bad-offset",
        Refusal::Busy => b"busy",
        Refusal::QueueFull => b"queue-full",
        Refusal::PoolEmpty => b"pool-empty",
        Refusal::NothingQueued => b"nothing-queued",
        Refusal::NothingDone => b"nothing-done",
        Refusal::IoError => b"io-error",
        Refusal::PowerLost => b"power-lost",
        Refusal::Broken => b"broken",
        Refusal::Memory => b"memory",
    }
}

/// The name of what refuses a fault, a turn of a zone or a loss of power.
fn inject_error_text(error: InjectError) -> &'static [u8]
    ensures { result.now ≡ inject_error_name error }
{
    match error {
        InjectError::BadFault => b"bad-fault",
        InjectError::TooManyFaults => b"too-many-faults",
        InjectError::PowerLost => b"power-lost",
        InjectError::Broken => b"broken",
        InjectError::Memory => b"memory",
    }
}

fn write_error<K: Sink>(sink: &mut K, name: &[u8]) -> Result<(), WriteFault>
    ensures { Writes result (error_text name.now) (K.state sink.old) (K.state sink.new) }
{
    write_parts(
        sink,
        &[Part::Text(b"error "), Part::Text(name), Part::Text(b"\n")],
    )
}

/// Writes an error whose name ends in a number.
fn write_error_at<K: Sink>(sink: &mut K, name: &[u8], place: u32) -> Result<(), WriteFault>
    ensures { Writes result (error_text (name.now ⧺ decimal place)) (K.state sink.old) (K.state sink.new) }
{
    write_parts(
        sink,
        &[
            Part::Text(b"error "),
            Part::Text(name),
            Part::Number(place as u64),
            Part::Text(b"\n"),
        ],
    )
}

/// Writes what is wrong with an option, and where.
fn write_option_error<K: Sink>(sink: &mut K, error: &OptError) -> Result<(), WriteFault>
    ensures { Writes result (error_text (option_error_name error.now)) (K.state sink.old) (K.state sink.new) }
{
    match error {
        OptError::UnknownOption(place) => write_error_at(sink, b"unknown-option ", *place),
        OptError::Repeated(place) => write_error_at(sink, b"repeated-option ", *place),
        OptError::BadValue(place) => write_error_at(sink, b"bad-value ", *place),
    }
}

/// Writes why a device isn't formatted.
fn write_unformatted<K: Sink>(sink: &mut K, why: &Why) -> Result<(), WriteFault>
    ensures { Writes result (error_text (mount_error_name (NotFormatted why.now))) (K.state sink.old) (K.state sink.new) }
{
    match why {
        Why::BadMagic => write_error(sink, b"not-formatted bad-magic"),
        Why::CopiesDiffer(place) => {
            write_error_at(sink, b"not-formatted copies-differ ", *place)
        }
        Why::BadVersion(version) => write_error_at(sink, b"not-formatted bad-version ", *version),
        Why::BadField(place) => write_error_at(sink, b"not-formatted bad-field ", *place),
        Why::Zone0NotFull => write_error(sink, b"not-formatted zone0-not-full"),
        Why::Zone0Offline => write_error(sink, b"not-formatted zone0-offline"),
    }
}

/// Writes why a mount failed.
fn write_mount_error<K: Sink>(sink: &mut K, error: &MountError) -> Result<(), WriteFault>
    ensures { Writes result (error_text (mount_error_name error.now)) (K.state sink.old) (K.state sink.new) }
{
    match error {
        MountError::NotFormatted(why) => write_unformatted(sink, why),
        MountError::IoError => write_error(sink, b"io-error"),
        MountError::PowerLost => write_error(sink, b"power-lost"),
        MountError::Broken => write_error(sink, b"broken"),
        MountError::Memory => write_error(sink, b"memory"),
    }
}

/// Writes the condition for which zone 0 can't be formatted.
fn write_bad_zone<K: Sink>(sink: &mut K, cond: &Cond) -> Result<(), WriteFault>
    ensures { Writes result (error_text (format_error_name (BadZone0 cond.now))) (K.state sink.old) (K.state sink.new) }
{
    match cond {
        Cond::Good => write_error(sink, b"bad-zone0 good"),
        Cond::ReadOnly => write_error(sink, b"bad-zone0 read-only"),
        Cond::Offline => write_error(sink, b"bad-zone0 offline"),
    }
}

/// Writes why a format failed.
fn write_format_error<K: Sink>(sink: &mut K, error: &FormatError) -> Result<(), WriteFault>
    ensures { Writes result (error_text (format_error_name error.now)) (K.state sink.old) (K.state sink.new) }
{
    match error {
        FormatError::AlreadyFormatted => write_error(sink, b"already-formatted"),
        FormatError::BadZone0(cond) => write_bad_zone(sink, cond),
        FormatError::IoError => write_error(sink, b"io-error"),
        FormatError::PowerLost => write_error(sink, b"power-lost"),
        FormatError::Broken => write_error(sink, b"broken"),
        FormatError::Memory => write_error(sink, b"memory"),
    }
}

fn write_count<K: Sink>(sink: &mut K, count: u64) -> Result<(), WriteFault>
    ensures { Writes result (number_text count) (K.state sink.old) (K.state sink.new) }
{
    write_parts(
        sink,
        &[Part::Text(b"ok "), Part::Number(count), Part::Text(b"\n")],
    )
}

/// Writes what stands before the bytes of a read.
fn write_front<K: Sink>(sink: &mut K, count: u64) -> Result<(), WriteFault>
    ensures { Writes result (front_text count) (K.state sink.old) (K.state sink.new) }
{
    write_parts(
        sink,
        &[Part::Text(b"ok "), Part::Number(count), Part::Text(b" ")],
    )
}

/// Writes the bytes of a read as runs, behind their number.
fn write_bytes<K: Sink>(sink: &mut K, bytes: &[u8], runs: &mut RunBuffer) -> Result<(), WriteFault>
    requires { length bytes.now ≤ MOST_BYTES }
    ensures { Writes result (read_text bytes.now) (K.state sink.old) (K.state sink.new) }
{
    if bytes.is_empty() {
        return write_all(sink, b"ok 0\n");
    }
    if let Err(fault) = write_front(sink, bytes.len() as u64) {
        return Err(fault);
    }
    match runs.write(sink, bytes) {
        Ok(()) => write_all(sink, b"\n"),
        Err(fault) => Err(fault),
    }
}

/// The name of how a request ended.
fn outcome_text(outcome: Outcome) -> &'static [u8]
    ensures { result.now ≡ outcome_name outcome }
{
    match outcome {
        Outcome::Ok => b"ok",
        Outcome::IoError => b"io-error",
        Outcome::TooManyActive => b"too-many-active",
        Outcome::TooManyOpen => b"too-many-open",
    }
}

/// Writes the ticket of a request, and the name of how it ended.
fn write_ended<K: Sink>(sink: &mut K, done: &Done, name: &[u8]) -> Result<(), WriteFault>
    requires { name.now ≡ outcome_name done.now.outcome }
    ensures { Writes result (done_text done.now) (K.state sink.old) (K.state sink.new) }
{
    write_parts(
        sink,
        &[
            Part::Text(b"ok "),
            Part::Number(done.ticket),
            Part::Text(b" "),
            Part::Text(name),
            Part::Text(b"\n"),
        ],
    )
}

fn write_done<K: Sink>(sink: &mut K, done: &Done) -> Result<(), WriteFault>
    ensures { Writes result (done_text done.now) (K.state sink.old) (K.state sink.new) }
{
    write_ended(sink, done, outcome_text(done.outcome))
}

/// An octal digit of a mode, from its bits upward.
fn octal_digit(bits: u32) -> u8
    ensures { result ≡ 48 + bits % 8 }
{
    b'0' + (bits % 8) as u8
}

/// Writes what is told of a file, with its mode as a text.
fn write_file_of_mode<'a, K: Sink>(
    sink: &mut K,
    path: &'a [u8],
    mode: &'a [u8],
    stat: &Stat,
) -> Result<(), WriteFault>
    requires { mode.now ≡ octal_text stat.now.mode }
    ensures { Writes result (file_text path.now stat.now) (K.state sink.old) (K.state sink.new) }
{
    write_parts(
        sink,
        &[
            Part::Text(b"ok file "),
            Part::Text(path),
            Part::Text(b" zone "),
            Part::Number(stat.zone as u64),
            Part::Text(b" zones "),
            Part::Number(stat.zones as u64),
            Part::Text(b" size "),
            Part::Number(stat.size),
            Part::Text(b" blocks "),
            Part::Number(stat.blocks),
            Part::Text(b" mode "),
            Part::Text(mode),
            Part::Text(b" uid "),
            Part::Number(stat.uid as u64),
            Part::Text(b" gid "),
            Part::Number(stat.gid as u64),
            Part::Text(b" writers "),
            Part::Number(stat.writers as u64),
            Part::Text(b"\n"),
        ],
    )
}

fn write_file<K: Sink>(sink: &mut K, path: &[u8], stat: &Stat) -> Result<(), WriteFault>
    ensures { Writes result (file_text path.now stat.now) (K.state sink.old) (K.state sink.new) }
{
    let mode = [
        octal_digit(stat.mode / 64),
        octal_digit(stat.mode / 8),
        octal_digit(stat.mode),
    ];
    write_file_of_mode(sink, path, &mode, stat)
}

fn write_directory<K: Sink>(sink: &mut K, path: &[u8], stat: &Stat) -> Result<(), WriteFault>
    ensures { Writes result (directory_text path.now stat.now) (K.state sink.old) (K.state sink.new) }
{
    write_parts(
        sink,
        &[
            Part::Text(b"ok dir "),
            Part::Text(path),
            Part::Text(b" size "),
            Part::Number(stat.size),
            Part::Text(b"\n"),
        ],
    )
}

fn write_stat<K: Sink>(sink: &mut K, path: &[u8], stat: &Stat) -> Result<(), WriteFault>
    ensures { Writes result (stat_text path.now stat.now) (K.state sink.old) (K.state sink.new) }
{
    if stat.dir {
        write_directory(sink, path, stat)
    } else {
        write_file(sink, path, stat)
    }
}

/// Writes a number of names, and names that stand on lines of their own.
fn write_named<K: Sink>(sink: &mut K, count: u64, names: &[u8]) -> Result<(), WriteFault>
    ensures { Writes result (number_text count ++ names.now) (K.state sink.old) (K.state sink.new) }
{
    write_parts(
        sink,
        &[
            Part::Text(b"ok "),
            Part::Number(count),
            Part::Text(b"\n"),
            Part::Text(names),
        ],
    )
}

/// Writes the names of the directories that exist, each on a line, behind their number.
fn write_directories<K: Sink>(sink: &mut K, cnv: bool, seq: bool) -> Result<(), WriteFault>
    ensures { Writes result (list_text (directory_names cnv seq)) (K.state sink.old) (K.state sink.new) }
{
    match (cnv, seq) {
        (false, false) => write_named(sink, 0, b""),
        (true, false) => write_named(sink, 1, b"cnv\n"),
        (false, true) => write_named(sink, 1, b"seq\n"),
        (true, true) => write_named(sink, 2, b"cnv\nseq\n"),
    }
}

/// Writes the name of a file, on a line.
fn write_name<K: Sink>(sink: &mut K, name: u32) -> Result<(), WriteFault>
    ensures { Writes result (name_line (decimal name)) (K.state sink.old) (K.state sink.new) }
{
    write_parts(sink, &[Part::Number(name as u64), Part::Text(b"\n")])
}

/// Writes the names of so many files, each on a line, behind their number.
fn write_names<K: Sink>(sink: &mut K, count: u32) -> Result<(), WriteFault>
    ensures { Writes result (list_text (names_to count)) (K.state sink.old) (K.state sink.new) }
{
    if let Err(fault) = write_count(sink, count as u64) {
        return Err(fault);
    }
    for name in 0..count {
        if let Err(fault) = write_name(sink, name) {
            return Err(fault);
        }
    }
    Ok(())
}

fn write_attr<K: Sink>(sink: &mut K, attr: &Attr) -> Result<(), WriteFault>
    ensures { Writes result (attr_text attr.now) (K.state sink.old) (K.state sink.new) }
{
    write_parts(
        sink,
        &[
            Part::Text(b"ok max_wro_seq_files="),
            Part::Number(attr.max_wro as u64),
            Part::Text(b" nr_wro_seq_files="),
            Part::Number(attr.nr_wro as u64),
            Part::Text(b" max_active_seq_files="),
            Part::Number(attr.max_active as u64),
            Part::Text(b" nr_active_seq_files="),
            Part::Number(attr.nr_active as u64),
            Part::Text(b"\n"),
        ],
    )
}

/// Writes the line of a zone, with its number.
fn write_zone<K: Sink>(sink: &mut K, z: u32, zone: &ZoneTold) -> Result<(), WriteFault>
    ensures { Writes result (told_line (z, zone.now)) (K.state sink.old) (K.state sink.new) }
{
    zone_line(
        ZoneNo(z),
        zone.kind,
        &zone.info,
        zone.room,
        zone.place,
        sink,
    )
}

/// Writes the zones of a report, each on a line, behind their number.
fn write_zones<K: Sink>(sink: &mut K, zones: &[ZoneTold]) -> Result<(), WriteFault>
    requires { length zones.now < 2 ^ 32 }
    ensures { Writes result (told_zones zones.now) (K.state sink.old) (K.state sink.new) }
{
    if let Err(fault) = write_count(sink, zones.len() as u64) {
        return Err(fault);
    }
    for (z, zone) in zones.iter().enumerate() {
        if let Err(fault) = write_zone(sink, z as u32, zone) {
            return Err(fault);
        }
    }
    Ok(())
}

/// Writes the text of a reply. The room has the bytes of a read, and the zones of a report.
pub fn write_reply<K: Sink>(
    sink: &mut K,
    reply: &Reply<'_>,
    room: &Room,
    runs: &mut RunBuffer,
) -> Result<(), WriteFault>
    requires { IsWritable reply.now (kept_in room.now) }
    ensures { Writes result (text_of reply.now (kept_in room.now)) (K.state sink.old) (K.state sink.new) }
{
    match reply {
        Reply::NotMounted => write_error(sink, b"not-mounted"),
        Reply::AlreadyMounted => write_error(sink, b"already-mounted"),
        Reply::HandleInUse => write_error(sink, b"handle-in-use"),
        Reply::BadLabel => write_error(sink, b"bad-label"),
        Reply::BadUuid => write_error(sink, b"bad-uuid"),
        Reply::Refused(refusal) => write_error(sink, refusal_text(*refusal)),
        Reply::OptionRefused(error) => write_option_error(sink, error),
        Reply::FormatRefused(error) => write_format_error(sink, error),
        Reply::MountRefused(error) => write_mount_error(sink, error),
        Reply::InjectRefused(error) => write_error(sink, inject_error_text(*error)),
        Reply::Done => write_all(sink, b"ok\n"),
        Reply::Number(number) => write_count(sink, *number),
        Reply::Bytes(count) => write_bytes(sink, &room.bytes[..*count], runs),
        Reply::Reaped(done) => write_done(sink, done),
        Reply::Told(path, stat) => write_stat(sink, path.as_bytes(), stat),
        Reply::Directories(cnv, seq) => write_directories(sink, *cnv, *seq),
        Reply::Names(count) => write_names(sink, *count),
        Reply::Attributes(attr) => write_attr(sink, attr),
        Reply::Zones => write_zones(sink, &room.zones),
    }
}
