// The table of policies: what a failed call leaves of its file, by the policy of the mount, the condition of the
// file's zone, the call, and the kind of the file. Scripts are made from these four, and what they write from the
// table as it is documented.

use super::carried_out;
use std::alloc::{AllocError, Global};
use std::test::Fail;

#[derive(Clone, Copy)]
enum Policy {
    RemountRo,
    ZoneRo,
    ZoneOffline,
    Repair,
}

/// The condition of the file's zone when the call fails.
#[derive(Clone, Copy)]
enum Cond {
    Good,
    ReadOnly,
    Offline,
}

/// The call that fails.
#[derive(Clone, Copy)]
enum Call {
    Read,
    Write,
    Truncate,
    Sync,
    Open,
    Close,
}

#[derive(Clone, Copy)]
enum Kind {
    Conventional,
    Sequential,
}

#[derive(Clone, Copy)]
struct Failure {
    policy: Policy,
    cond: Cond,
    call: Call,
    kind: Kind,
}

// ---- scripts

fn policy_name(policy: Policy) -> &'static str {
    match policy {
        Policy::RemountRo => "remount-ro",
        Policy::ZoneRo => "zone-ro",
        Policy::ZoneOffline => "zone-offline",
        Policy::Repair => "repair",
    }
}

fn path(kind: Kind) -> &'static str {
    match kind {
        Kind::Conventional => "cnv/0",
        Kind::Sequential => "seq/0",
    }
}

/// The file's zone.
fn zone(kind: Kind) -> u32 {
    match kind {
        Kind::Conventional => 1,
        Kind::Sequential => 2,
    }
}

/// An open or a close gives a command only on a volume with explicit opens, where nobody else writes to the file.
fn opens_zones(call: Call) -> bool {
    matches!(call, Call::Open | Call::Close)
}

fn explicit_option(call: Call) -> &'static str {
    if opens_zones(call) {
        ",explicit-open"
    } else {
        ""
    }
}

fn second_mode(call: Call) -> &'static str {
    if opens_zones(call) { "r" } else { "rw" }
}

/// The number is closed before the open that fails.
fn closed_before(call: Call) -> &'static str {
    match call {
        Call::Open => "close 0\n",
        _ => "",
    }
}

/// The line that turns the zone, if its condition isn't good.
fn turn_line(alloc: Global, failure: Failure) -> Result<String, AllocError> {
    let zone = zone(failure.kind);
    match failure.cond {
        Cond::Good => Ok(String::new(alloc)),
        Cond::ReadOnly => format!(in alloc; "turn {zone} ro\n"),
        Cond::Offline => format!(in alloc; "turn {zone} off\n"),
    }
}

/// The command that the call gives, and how many blocks of it are kept.
fn command(call: Call) -> &'static str {
    match call {
        Call::Read => "read",
        Call::Write => "write 1",
        Call::Truncate => "reset",
        Call::Sync => "flush 1",
        Call::Open => "open",
        Call::Close => "close",
    }
}

/// Whether the condition alone doesn't let the command fail: a read-only zone is read, and a flush is refused by no
/// condition.
fn needs_fault(failure: Failure) -> bool {
    matches!(
        (failure.cond, failure.call),
        (Cond::Good, _) | (Cond::ReadOnly, Call::Read) | (_, Call::Sync)
    )
}

fn fault_line(alloc: Global, failure: Failure) -> Result<String, AllocError> {
    let zone = zone(failure.kind);
    let command = command(failure.call);
    if needs_fault(failure) {
        format!(in alloc; "fault {zone} {command}\n")
    } else {
        Ok(String::new(alloc))
    }
}

/// The call that fails, through number 0.
fn call_line(alloc: Global, failure: Failure) -> Result<String, AllocError> {
    let path = path(failure.kind);
    match failure.call {
        Call::Read => String::from_str(alloc, "read 0 0 16384"),
        Call::Write => String::from_str(alloc, "write 0 8192 62*8192"),
        Call::Truncate => String::from_str(alloc, "truncate 0 0"),
        Call::Sync => String::from_str(alloc, "sync 0"),
        Call::Open => format!(in alloc; "open 0 {path} rw"),
        Call::Close => String::from_str(alloc, "close 0"),
    }
}

/// Where the next write to the file is good, if it may be written still.
fn next_offset(failure: Failure) -> u32 {
    match failure.kind {
        Kind::Conventional => 0,
        Kind::Sequential => fixed(failure).size,
    }
}

/// Two blocks are written, the call fails, and the file is told of, read, written and opened; then another file is
/// written.
fn script(alloc: Global, failure: Failure) -> Result<String, AllocError> {
    let policy = policy_name(failure.policy);
    let explicit = explicit_option(failure.call);
    let path = path(failure.kind);
    let mode = second_mode(failure.call);
    let closed = closed_before(failure.call);
    let turn = turn_line(alloc, failure)?;
    let fault = fault_line(alloc, failure)?;
    let call = call_line(alloc, failure)?;
    let offset = next_offset(failure);
    format!(in alloc;
        "close 0\numount\nmount errors={policy}{explicit}\nopen 0 {path} rw\nopen 1 {path} {mode}\nopen 2 seq/1 w\n\
         write 0 0 61*8192\n{closed}{turn}{fault}{call}\nstat {path}\nread 0 0 16384\nread 1 0 16384\n\
         write 1 {offset} 63*4096\nopen 3 {path} w\nwrite 2 0 64*4096\n"
    )
}

// ---- what they write

/// Bytes of a file: how many there are, and as a reply has them.
#[derive(Clone, Copy)]
struct Contents {
    size: u32,
    data: &'static str,
}

fn bytes(size: u32, data: &'static str) -> Contents {
    Contents { size, data }
}

/// What the file shows before the call.
fn as_it_is(kind: Kind) -> Contents {
    match kind {
        Kind::Conventional => bytes(16384, "61*8192+00*8192"),
        Kind::Sequential => bytes(8192, "61*8192"),
    }
}

/// What a good zone holds after the call: a write was cut short after one block, and a flush kept one block.
fn fixed(failure: Failure) -> Contents {
    match (failure.call, failure.kind) {
        (Call::Write, Kind::Conventional) => bytes(16384, "61*8192+62*4096+00*4096"),
        (Call::Write, Kind::Sequential) => bytes(12288, "61*8192+62*4096"),
        (Call::Sync, Kind::Sequential) => bytes(4096, "61*4096"),
        _ => as_it_is(failure.kind),
    }
}

/// What a file shows: its contents, and whether it may be read, and written.
#[derive(Clone, Copy)]
struct Shown {
    contents: Contents,
    read: bool,
    write: bool,
}

fn showing(contents: Contents, read: bool, write: bool) -> Shown {
    Shown {
        contents,
        read,
        write,
    }
}

/// The table.
fn row(failure: Failure) -> Shown {
    match (failure.policy, failure.cond) {
        (Policy::ZoneOffline, _) => showing(bytes(0, ""), false, false),
        (_, Cond::Offline) => showing(bytes(0, ""), false, false),
        (_, Cond::ReadOnly) => showing(as_it_is(failure.kind), true, false),
        (Policy::RemountRo, Cond::Good) => showing(fixed(failure), true, false),
        (Policy::ZoneRo, Cond::Good) => showing(fixed(failure), true, false),
        (Policy::Repair, Cond::Good) => showing(fixed(failure), true, true),
    }
}

/// Each failure recovers the file but that of a read on a good zone, since the file shows what that holds.
fn recovers(failure: Failure) -> bool {
    !matches!((failure.call, failure.cond), (Call::Read, Cond::Good))
}

fn shown_after(failure: Failure) -> Shown {
    if recovers(failure) {
        row(failure)
    } else {
        showing(as_it_is(failure.kind), true, true)
    }
}

/// Whether the whole file system is read-only after the call.
fn makes_read_only(failure: Failure) -> bool {
    recovers(failure) && matches!(failure.policy, Policy::RemountRo)
}

/// The permissions are 640, without those that the file lost.
fn mode(shown: Shown) -> &'static str {
    match (shown.read, shown.write) {
        (false, _) => "000",
        (true, false) => "440",
        (true, true) => "640",
    }
}

/// Numbers 0 and 1 write to the file, or none does any more.
fn writers(call: Call) -> u32 {
    if opens_zones(call) { 0 } else { 2 }
}

fn stat_reply(alloc: Global, failure: Failure) -> Result<String, AllocError> {
    let path = path(failure.kind);
    let zone = zone(failure.kind);
    let shown = shown_after(failure);
    let size = shown.contents.size;
    let mode = mode(shown);
    let writers = writers(failure.call);
    format!(in alloc;
        "ok file {path} zone {zone} zones 1 size {size} blocks 32 mode {mode} uid 0 gid 0 writers {writers}"
    )
}

fn read_reply(alloc: Global, shown: Shown) -> Result<String, AllocError> {
    let Contents { size, data } = shown.contents;
    if shown.read {
        format!(in alloc; "ok {size} {data}")
    } else {
        String::from_str(alloc, "error file-offline")
    }
}

/// By the number of the call that failed, which has no handle where that opened or closed it.
fn same_read_reply(alloc: Global, failure: Failure) -> Result<String, AllocError> {
    if opens_zones(failure.call) {
        String::from_str(alloc, "error bad-handle")
    } else {
        read_reply(alloc, shown_after(failure))
    }
}

/// What the rights let a write, and an open for writing, answer.
fn change_reply(failure: Failure) -> &'static str {
    let shown = shown_after(failure);
    if makes_read_only(failure) {
        "error fs-read-only"
    } else if !shown.read {
        "error file-offline"
    } else if !shown.write {
        "error file-read-only"
    } else {
        "ok"
    }
}

/// By number 1, which is open for reading alone where opens are explicit.
fn write_reply(failure: Failure) -> &'static str {
    if opens_zones(failure.call) {
        "error bad-mode"
    } else {
        change_reply(failure)
    }
}

fn other_reply(failure: Failure) -> &'static str {
    if makes_read_only(failure) {
        "error fs-read-only"
    } else {
        "ok"
    }
}

/// A line that is there answers `ok`.
fn ok_for(line: &str) -> &'static str {
    if line.is_empty() { "" } else { "ok\n" }
}

fn written(alloc: Global, failure: Failure) -> Result<String, AllocError> {
    let closed = ok_for(closed_before(failure.call));
    let turn = ok_for(&turn_line(alloc, failure)?);
    let fault = ok_for(&fault_line(alloc, failure)?);
    let stat = stat_reply(alloc, failure)?;
    let same = same_read_reply(alloc, failure)?;
    let second = read_reply(alloc, shown_after(failure))?;
    let write = write_reply(failure);
    let open = change_reply(failure);
    let other = other_reply(failure);
    format!(in alloc;
        "ok\nok\nok\nok\nok\nok\nok\n{closed}{turn}{fault}error io-error\n{stat}\n{same}\n{second}\n{write}\n{open}\n{other}\n"
    )
}

// ---- all cases

#[test]
fn files_follow_the_table(rt: HostRuntime) -> Result<(), Fail> {
    for (call, kind) in [
        (Call::Read, Kind::Conventional),
        (Call::Write, Kind::Conventional),
        (Call::Sync, Kind::Conventional),
        (Call::Read, Kind::Sequential),
        (Call::Write, Kind::Sequential),
        (Call::Truncate, Kind::Sequential),
        (Call::Sync, Kind::Sequential),
        (Call::Open, Kind::Sequential),
        (Call::Close, Kind::Sequential),
    ] {
        for policy in [
            Policy::RemountRo,
            Policy::ZoneRo,
            Policy::ZoneOffline,
            Policy::Repair,
        ] {
            for cond in [Cond::Good, Cond::ReadOnly, Cond::Offline] {
                let failure = Failure {
                    policy,
                    cond,
                    call,
                    kind,
                };
                let script = script(rt.alloc(), failure)?;
                let written = written(rt.alloc(), failure)?;
                carried_out(rt, rt.alloc(), "scratch 4 2 4", &script, &written)?;
            }
        }
    }
    Ok(())
}
