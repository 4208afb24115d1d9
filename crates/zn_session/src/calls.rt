// The lines that are calls on a mounted volume.
ghost use Rattle.std.specs.Prelude.{◌≡◌, ◌≤◌, ◌<◌, ◌^◌, ℕ, List, length, take, vec_capacity};
ghost use Rattle.std.specs.Prelude.{false, Option, Some, Ok, IfOk, IsSome, option_map};
ghost use Rattle.zn_lines.specs.declared.limits.TheConstants.{LAST_NUMBER};
ghost use Rattle.zn_model.specs.declared.limits.TheConstants.{MOST_BYTES};
ghost use Rattle.zn_io.specs.declared.reading.TheConstants.{SCRATCH};
ghost use Rattle.zn_lines.specs.Grammar.{data_of};
ghost use Rattle.zn_model.specs.Reading.{read_call};
ghost use Rattle.zn_lines.specs.Lines.{bytes_of, OpenFile, CloseFile, SizeOf, ReadFrom, WriteTo, TruncateTo, SyncFile};
ghost use Rattle.zn_lines.specs.Lines.{SubmitTo, Complete, Reap, StatOf, ListOf, Attributes, Changes};
ghost use Rattle.zn_lines.specs.ReplyTexts.{plain, number_text, read_text, done_text, list_text};
ghost use Rattle.zn_lines.specs.Session.{names_in};
ghost use Rattle.zn_model.specs.ZoneFiles.{listing_of};
ghost use Rattle.zn_script.specs.Data.{CallFits};
ghost use Rattle.zn_script.specs.Meant.{line_meant, runs_meant};
ghost use Rattle.zn_volume.specs.Causes.{CallCause};
ghost use Rattle.zn_volume.specs.Means.{as_read};
ghost use Rattle.zn_volume.specs.VolumeState.{mounted_in};
ghost use Rattle.zn_session.specs.Replies.{Kept, kept_as};
ghost use Rattle.zn_session.specs.declared.room.ZoneTold.{ZoneTold as TheZoneTold};
ghost use Rattle.zn_session.specs.SessionState.{IsNumbered, number_at, used_by};
ghost use Rattle.zn_session.specs.Steps.{IsCall, Answers, IsReplyTo, is_busy_answer};

use crate::replies::Reply;
use zn_device::Zoned;
use zn_io::{SCRATCH, lengthen};
use zn_lines::Change;
use zn_model::{Done, Handle, MOST_BYTES, Mode, Refusal, Who};
use zn_script::{Line, expand};
use zn_volume::Volume;

/// The handle of a number.
fn handle_of(numbers: &[Option<Handle>], number: u32) -> Option<Handle>
    requires { number < length numbers.now }
    ensures { result ≡ number_at numbers.now number }
{
    numbers[number as usize]
}

fn done(answer: Result<(), Refusal>) -> Reply<'static>
    ensures { (kept : Kept) → IsReplyTo plain answer result kept }
{
    match answer {
        Ok(()) => Reply::Done,
        Err(refusal) => Reply::Refused(refusal),
    }
}

fn number(answer: Result<u64, Refusal>) -> Reply<'static>
    ensures { (kept : Kept) → IsReplyTo number_text answer result kept }
{
    match answer {
        Ok(number) => Reply::Number(number),
        Err(refusal) => Reply::Refused(refusal),
    }
}

/// A read that put so many bytes to the front of the buffer.
fn bytes(answer: Result<u64, Refusal>) -> Reply<'static>
    requires { IfOk answer (λ n. n ≤ MOST_BYTES) }
    ensures { (kept : Kept) → MOST_BYTES ≤ length kept.bytes
        → IsReplyTo read_text (as_read answer kept.bytes) result kept }
{
    match answer {
        Ok(count) => Reply::Bytes(count as usize),
        Err(refusal) => Reply::Refused(refusal),
    }
}

/// How the request that was reaped ended.
fn reaped(answer: Result<Done, Refusal>) -> Reply<'static>
    ensures { (kept : Kept) → IsReplyTo done_text answer result kept }
{
    match answer {
        Ok(done) => Reply::Reaped(done),
        Err(refusal) => Reply::Refused(refusal),
    }
}

/// Opens the file of a path by a number that has no handle.
fn open<D: Zoned + Drop>(
    volume: &mut Volume<D>,
    numbers: &mut Vec<Option<Handle>>,
    number: u32,
    path: &str,
    mode: Mode,
    who: Who,
) -> Reply<'static>
    requires number { number ≤ LAST_NUMBER }
    requires unspoilt { volume.old.device.spoilt ≡ false }
    requires few { volume.old.volume.handles.opened < 2 ^ 63 }
    requires numbered { IsNumbered (mounted_in volume.old) numbers.old.items }
    ensures { (kept : Kept) → Answers (OpenFile number path.now mode who) result kept
        volume.old volume.new numbers.old.items numbers.new.items }
{
    if handle_of(numbers, number).is_some() {
        return Reply::HandleInUse;
    }
    match volume.open(path, mode, who) {
        Ok(h) => {
            numbers[number as usize] = Some(h);
            Reply::Done
        }
        Err(refusal) => Reply::Refused(refusal),
    }
}

/// Whether a close was refused since the file is busy.
fn is_busy(answer: &Result<(), Refusal>) -> bool
    ensures { result ≡ is_busy_answer answer.now }
{
    matches!(answer, Err(Refusal::Busy))
}

/// Ends the handle of a number, which is free then, unless the file is busy.
fn close<D: Zoned + Drop>(
    volume: &mut Volume<D>,
    numbers: &mut Vec<Option<Handle>>,
    number: u32,
) -> Reply<'static>
    requires number { number ≤ LAST_NUMBER }
    requires unspoilt { volume.old.device.spoilt ≡ false }
    requires numbered { IsNumbered (mounted_in volume.old) numbers.old.items }
    ensures { (kept : Kept) → Answers (CloseFile number) result kept
        volume.old volume.new numbers.old.items numbers.new.items }
{
    let Some(h) = handle_of(numbers, number) else {
        return Reply::Refused(Refusal::BadHandle);
    };
    let answer = volume.close(h);
    if is_busy(&answer) {
        return done(answer);
    }
    numbers[number as usize] = None;
    done(answer)
}

fn size<D: Zoned + Drop>(
    volume: &Volume<D>,
    numbers: &[Option<Handle>],
    number: u32,
) -> Reply<'static>
    requires number { number ≤ LAST_NUMBER }
    requires unspoilt { volume.now.device.spoilt ≡ false }
    requires numbered { IsNumbered (mounted_in volume.now) numbers.now }
    ensures { (kept : Kept) → Answers (SizeOf number) result kept
        volume.now volume.now numbers.now numbers.now }
{
    match handle_of(numbers, number) {
        None => Reply::Refused(Refusal::BadHandle),
        Some(h) => self::number(volume.size(h)),
    }
}

/// Reads at most `len` bytes of the file of a handle into the front of the buffer.
fn read_into<D: Zoned + Drop>(
    volume: &mut Volume<D>,
    h: Handle,
    offset: u64,
    len: u32,
    buffer: &mut Vec<u8>,
) -> Result<u64, Refusal>
    requires len { len ≤ MOST_BYTES }
    requires room { SCRATCH ≤ vec_capacity buffer.old }
    requires unspoilt { volume.old.device.spoilt ≡ false }
    ensures reply { volume.new.device.spoilt ≡ false
        → as_read result buffer.new.items ≡ (read_call buffer.new.items (mounted_in volume.old) h offset len).reply }
    ensures mounted { volume.new.device.spoilt ≡ false
        → mounted_in volume.new ≡ (read_call buffer.new.items (mounted_in volume.old) h offset len).mounted }
    ensures count { IfOk result (λ n. n ≤ MOST_BYTES) }
    ensures long { MOST_BYTES ≤ length buffer.new.items }
    ensures room { SCRATCH ≤ vec_capacity buffer.new }
    ensures cause { CallCause result volume.old.device volume.new.device }
{
    lengthen(buffer, SCRATCH);
    volume.read_front(h, offset, len, buffer)
}

/// Reads at most `len` bytes into the front of the buffer.
fn read<D: Zoned + Drop>(
    volume: &mut Volume<D>,
    numbers: &[Option<Handle>],
    number: u32,
    offset: u64,
    len: u32,
    buffer: &mut Vec<u8>,
) -> Reply<'static>
    requires number { number ≤ LAST_NUMBER }
    requires len { len ≤ MOST_BYTES }
    requires room { SCRATCH ≤ vec_capacity buffer.old }
    requires unspoilt { volume.old.device.spoilt ≡ false }
    requires numbered { IsNumbered (mounted_in volume.old) numbers.now }
    ensures answers { (zones : List TheZoneTold) → Answers (ReadFrom number offset len) result
        (kept_as buffer.new.items zones) volume.old volume.new numbers.now numbers.now }
    ensures room { SCRATCH ≤ vec_capacity buffer.new }
{
    match handle_of(numbers, number) {
        None => Reply::Refused(Refusal::BadHandle),
        Some(h) => bytes(read_into(volume, h, offset, len, buffer)),
    }
}

/// Puts the bytes that a word of data stands for to the front of the buffer, and answers how many they are.
fn put_data(word: &[u8], buffer: &mut Vec<u8>) -> usize
    requires data { IsSome (data_of word.now) }
    requires room { SCRATCH ≤ vec_capacity buffer.old }
    ensures bytes { take result buffer.new.items ≡ bytes_of (runs_meant word.now) }
    ensures small { result ≤ MOST_BYTES }
    ensures long { MOST_BYTES ≤ length buffer.new.items }
    ensures room { SCRATCH ≤ vec_capacity buffer.new }
{
    lengthen(buffer, MOST_BYTES as usize);
    expand(word, buffer)
}

/// Writes the bytes that a word of data stands for.
fn write<D: Zoned + Drop>(
    volume: &mut Volume<D>,
    numbers: &[Option<Handle>],
    number: u32,
    offset: u64,
    word: &[u8],
    buffer: &mut Vec<u8>,
) -> Reply<'static>
    requires number { number ≤ LAST_NUMBER }
    requires data { IsSome (data_of word.now) }
    requires room { SCRATCH ≤ vec_capacity buffer.old }
    requires unspoilt { volume.old.device.spoilt ≡ false }
    requires numbered { IsNumbered (mounted_in volume.old) numbers.now }
    ensures answers { (zones : List TheZoneTold) → Answers (WriteTo number offset (runs_meant word.now)) result
        (kept_as buffer.new.items zones) volume.old volume.new numbers.now numbers.now }
    ensures room { SCRATCH ≤ vec_capacity buffer.new }
{
    match handle_of(numbers, number) {
        None => Reply::Refused(Refusal::BadHandle),
        Some(h) => {
            let len = put_data(word, buffer);
            done(volume.write(h, offset, &buffer[..len]))
        }
    }
}

/// Truncates the file of a number to a size in bytes.
fn truncate<D: Zoned + Drop>(
    volume: &mut Volume<D>,
    numbers: &[Option<Handle>],
    number: u32,
    size: u64,
) -> Reply<'static>
    requires number { number ≤ LAST_NUMBER }
    requires unspoilt { volume.old.device.spoilt ≡ false }
    requires numbered { IsNumbered (mounted_in volume.old) numbers.now }
    ensures { (kept : Kept) → Answers (TruncateTo number size) result kept
        volume.old volume.new numbers.now numbers.now }
{
    match handle_of(numbers, number) {
        None => Reply::Refused(Refusal::BadHandle),
        Some(h) => done(volume.truncate(h, size)),
    }
}

fn sync<D: Zoned + Drop>(
    volume: &mut Volume<D>,
    numbers: &[Option<Handle>],
    number: u32,
) -> Reply<'static>
    requires number { number ≤ LAST_NUMBER }
    requires unspoilt { volume.old.device.spoilt ≡ false }
    requires numbered { IsNumbered (mounted_in volume.old) numbers.now }
    ensures { (kept : Kept) → Answers (SyncFile number) result kept
        volume.old volume.new numbers.now numbers.now }
{
    match handle_of(numbers, number) {
        None => Reply::Refused(Refusal::BadHandle),
        Some(h) => done(volume.sync(h)),
    }
}

/// Queues a write of the bytes that a word of data stands for.
fn submit<D: Zoned + Drop>(
    volume: &mut Volume<D>,
    numbers: &[Option<Handle>],
    number: u32,
    offset: u64,
    word: &[u8],
    buffer: &mut Vec<u8>,
) -> Reply<'static>
    requires number { number ≤ LAST_NUMBER }
    requires data { IsSome (data_of word.now) }
    requires room { SCRATCH ≤ vec_capacity buffer.old }
    requires unspoilt { volume.old.device.spoilt ≡ false }
    requires few { volume.old.volume.queue.last_ticket < 2 ^ 63 }
    requires numbered { IsNumbered (mounted_in volume.old) numbers.now }
    ensures answers { (zones : List TheZoneTold) → Answers (SubmitTo number offset (runs_meant word.now)) result
        (kept_as buffer.new.items zones) volume.old volume.new numbers.now numbers.now }
    ensures room { SCRATCH ≤ vec_capacity buffer.new }
{
    match handle_of(numbers, number) {
        None => Reply::Refused(Refusal::BadHandle),
        Some(h) => {
            let len = put_data(word, buffer);
            self::number(volume.submit(h, offset, &buffer[..len]))
        }
    }
}

/// Carries out the oldest request.
fn complete<D: Zoned + Drop>(volume: &mut Volume<D>) -> Reply<'static>
    requires unspoilt { volume.old.device.spoilt ≡ false }
    ensures { (kept : Kept) (numbers : List (Option Handle)) → IsNumbered (mounted_in volume.old) numbers
        → Answers Complete result kept volume.old volume.new numbers numbers }
{
    number(volume.complete())
}

/// Takes the outcome of the request that ended first.
fn reap<D: Zoned + Drop>(volume: &mut Volume<D>) -> Reply<'static>
    requires unspoilt { volume.old.device.spoilt ≡ false }
    ensures { (kept : Kept) (numbers : List (Option Handle)) → IsNumbered (mounted_in volume.old) numbers
        → Answers Reap result kept volume.old volume.new numbers numbers }
{
    reaped(volume.reap())
}

fn stat<'a, D: Zoned + Drop>(volume: &Volume<D>, path: &'a str) -> Reply<'a>
    requires unspoilt { volume.now.device.spoilt ≡ false }
    ensures { (kept : Kept) (numbers : List (Option Handle)) → IsNumbered (mounted_in volume.now) numbers
        → Answers (StatOf path.now) result kept volume.now volume.now numbers numbers }
{
    match volume.stat(path) {
        Ok(stat) => Reply::Told(path, stat),
        Err(refusal) => Reply::Refused(refusal),
    }
}

/// The names in a directory, of which there are so many.
fn listing<D: Zoned + Drop>(volume: &Volume<D>, path: &str, entries: u32) -> Reply<'static>
    requires { option_map length (listing_of volume.now.volume.inodes.layout path.now) ≡ Some entries }
    ensures { let names = listing_of volume.now.volume.inodes.layout path.now in
        (kept : Kept) → IsReplyTo (λ (n : ℕ). list_text (names_in names)) (Ok entries) result kept }
{
    if path == "/" {
        let (cnv, seq) = volume.files();
        Reply::Directories(cnv > 0, seq > 0)
    } else {
        Reply::Names(entries)
    }
}

fn list<D: Zoned + Drop>(volume: &Volume<D>, path: &str) -> Reply<'static>
    requires unspoilt { volume.now.device.spoilt ≡ false }
    ensures { (kept : Kept) (numbers : List (Option Handle)) → IsNumbered (mounted_in volume.now) numbers
        → Answers (ListOf path.now) result kept volume.now volume.now numbers numbers }
{
    match volume.entries(path) {
        Ok(entries) => listing(volume, path, entries),
        Err(refusal) => Reply::Refused(refusal),
    }
}

fn attr<D: Zoned + Drop>(volume: &Volume<D>) -> Reply<'static>
    requires unspoilt { volume.now.device.spoilt ≡ false }
    ensures { (kept : Kept) (numbers : List (Option Handle)) → IsNumbered (mounted_in volume.now) numbers
        → Answers Attributes result kept volume.now volume.now numbers numbers }
{
    match volume.attr() {
        Ok(attr) => Reply::Attributes(attr),
        Err(refusal) => Reply::Refused(refusal),
    }
}

fn change<D: Zoned + Drop>(volume: &Volume<D>, change: Change) -> Reply<'static>
    requires unspoilt { volume.now.device.spoilt ≡ false }
    ensures { (kept : Kept) (numbers : List (Option Handle)) → IsNumbered (mounted_in volume.now) numbers
        → Answers (Changes change) result kept volume.now volume.now numbers numbers }
{
    Reply::Refused(volume.change())
}

/// Does what a line asks of a mounted volume.
pub fn answer<'a, D: Zoned + Drop>(
    volume: &mut Volume<D>,
    numbers: &mut Vec<Option<Handle>>,
    buffer: &mut Vec<u8>,
    line: &Line<'a>,
) -> Reply<'a>
    requires call { IsCall line.now }
    requires fits { CallFits line.now }
    requires room { SCRATCH ≤ vec_capacity buffer.old }
    requires unspoilt { volume.old.device.spoilt ≡ false }
    requires few { used_by volume.old.volume < 2 ^ 63 }
    requires numbered { IsNumbered (mounted_in volume.old) numbers.old.items }
    ensures answers { (zones : List TheZoneTold) → Answers (line_meant line.now) result
        (kept_as buffer.new.items zones) volume.old volume.new numbers.old.items numbers.new.items }
    ensures room { SCRATCH ≤ vec_capacity buffer.new }
{
    match *line {
        Line::Open(number, path, mode, who) => open(volume, numbers, number, path, mode, who),
        Line::Close(number) => close(volume, numbers, number),
        Line::Size(number) => size(volume, numbers, number),
        Line::Read(number, offset, len) => read(volume, numbers, number, offset, len, buffer),
        Line::Write(number, offset, word) => write(volume, numbers, number, offset, word, buffer),
        Line::Truncate(number, size) => truncate(volume, numbers, number, size),
        Line::Sync(number) => sync(volume, numbers, number),
        Line::Stat(path) => stat(volume, path),
        Line::List(path) => list(volume, path),
        Line::Attr => attr(volume),
        Line::Change(change) => self::change(volume, change),
        Line::Submit(number, offset, word) => submit(volume, numbers, number, offset, word, buffer),
        Line::Complete => complete(volume),
        Line::Reap => reap(volume),
        // These are no calls.
        Line::Mkfs(_) | Line::Mount(_) | Line::Umount => Reply::AlreadyMounted,
        Line::Zones | Line::Fault(..) | Line::Turn(..) => Reply::AlreadyMounted,
        Line::PowerLoss(..) | Line::PowerLossIn(..) | Line::PowerOn => Reply::AlreadyMounted,
    }
}
