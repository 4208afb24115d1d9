// The calls of a record, one after another.
ghost use Rattle.std.specs.Prelude.{OnOk, map, nat_le};
ghost use Rattle.std.specs.List.{take_while};
ghost use Rattle.zn_stand.specs.Directory.{Directory};
ghost use Rattle.zn_stand.specs.Calls.{WriteFrom, SetLength, CreateFile, SyncFile, made};
ghost use Rattle.zn_files.specs.Record.{call_of};
ghost use Rattle.zn_files.specs.Replays.{replayed};
ghost use Rattle.zn_files.specs.Traces.{TracesAll, IsPlaceIn, MayTrace, MayTraceAll};

use crate::record::{Change, Recorded};
use crate::traced::Traced;
use std::alloc::{AllocError, Global};
use std::collections::BTreeMap;

/// The files of a directory, with what a stop may leave of each.
pub type Traces = BTreeMap<String, Traced>;

/// Creates a file, if it isn't there.
fn trace_create(alloc: Global, files: &mut Traces, name: &str) -> Result<(), AllocError>
    ensures { OnOk result ((d : Directory) → TracesAll files.old d
        → TracesAll files.new (made (CreateFile name.now) d)) }
{
    if files.contains_key(name) {
        return Ok(());
    }
    files.insert(String::from_str(alloc, name)?, Traced::new(alloc))?;
    Ok(())
}

/// Writes to a file, if it is there.
fn trace_write(files: &mut Traces, name: &str, at: u64, bytes: &[u8]) -> Result<(), AllocError>
    requires { IsPlaceIn files.old name.now at }
    ensures { OnOk result ((d : Directory) → TracesAll files.old d
        → TracesAll files.new (made (WriteFrom name.now at bytes.now) d)) }
{
    match files.get_mut(name) {
        Some(file) => file.write(at as usize, bytes),
        None => Ok(()),
    }
}

/// Cuts or grows a file, if it is there.
fn trace_resize(files: &mut Traces, name: &str, len: u64) -> Result<(), AllocError>
    ensures { OnOk result ((d : Directory) → TracesAll files.old d
        → TracesAll files.new (made (SetLength name.now len) d)) }
{
    match files.get_mut(name) {
        Some(file) => file.resize(len as usize),
        None => Ok(()),
    }
}

/// Syncs a file, if it is there.
fn trace_sync(alloc: Global, files: &mut Traces, name: &str) -> Result<(), AllocError>
    ensures { OnOk result ((d : Directory) → TracesAll files.old d
        → TracesAll files.new (made (SyncFile name.now) d)) }
{
    match files.get_mut(name) {
        Some(file) => file.sync(alloc),
        None => Ok(()),
    }
}

/// Does a call that was made.
fn trace(alloc: Global, files: &mut Traces, change: &Change) -> Result<(), AllocError>
    requires { MayTrace files.old change.now }
    ensures { OnOk result ((d : Directory) → TracesAll files.old d
        → TracesAll files.new (made (call_of change.now) d)) }
{
    match change {
        Change::Create(name) => trace_create(alloc, files, name.as_str()),
        Change::Write(name, at, bytes) => trace_write(files, name.as_str(), *at, bytes),
        Change::SetLen(name, len) => trace_resize(files, name.as_str(), *len),
        Change::Sync(name) => trace_sync(alloc, files, name.as_str()),
    }
}

/// Does calls that were made.
pub fn trace_all(alloc: Global, files: &mut Traces, changes: &[Change]) -> Result<(), AllocError>
    requires { MayTraceAll files.old (map call_of changes.now) }
    ensures { OnOk result ((d : Directory) → TracesAll files.old d
        → TracesAll files.new (replayed d (map call_of changes.now))) }
{
    for change in changes {
        trace(alloc, files, change)?;
    }
    Ok(())
}

/// Does the calls that were made, up to the first that isn't among so many.
pub fn trace_until(
    alloc: Global,
    files: &mut Traces,
    recorded: &[Recorded],
    calls: u64,
) -> Result<(), AllocError>
    requires { MayTraceAll files.old (map (λ r. call_of r.change) recorded.now) }
    ensures { OnOk result ((d : Directory) → TracesAll files.old d → TracesAll files.new
        (replayed d (map (λ r. call_of r.change) (take_while (λ r. nat_le r.number calls) recorded.now)))) }
{
    for made in recorded {
        if made.number > calls {
            break;
        }
        trace(alloc, files, &made.change)?;
    }
    Ok(())
}
