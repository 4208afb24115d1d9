// The calls that changed a directory in memory.
ghost use Rattle.std.specs.Prelude.{◌≡◌, IfOk};
ghost use Rattle.zn_stand.specs.File.{AreBytes};
ghost use Rattle.zn_stand.specs.Calls.{WriteFrom, SetLength, CreateFile, SyncFile};
ghost use Rattle.zn_files.specs.Record.{call_of};

use std::alloc::{AllocError, Global};

/// A call that changed the directory.
#[derive(Drop)]
pub enum Change {
    Create(String),
    Write(String, u64, Vec<u8>),
    SetLen(String, u64),
    Sync(String),
}

/// The same, with how many calls there were, this one among them.
#[derive(Drop)]
pub struct Recorded {
    pub number: u64,
    pub change: Change,
}

/// The call that creates a file.
pub fn create_call(alloc: Global, name: &str) -> Result<Change, AllocError>
    ensures { IfOk result (λ change. call_of change ≡ CreateFile name.now) }
{
    Ok(Change::Create(String::from_str(alloc, name)?))
}

/// The call that writes these bytes from `at` on; it is kept with a copy of them.
pub fn write_call(alloc: Global, name: &str, at: u64, bytes: &[u8]) -> Result<Change, AllocError>
    ensures call { IfOk result (λ change. call_of change ≡ WriteFrom name.now at bytes.now) }
    ensures bytes { AreBytes bytes.now }
{
    Ok(Change::Write(String::from_str(alloc, name)?, at, bytes.to_vec(alloc)?))
}

/// The call that cuts or grows a file.
pub fn set_len_call(alloc: Global, name: &str, len: u64) -> Result<Change, AllocError>
    ensures { IfOk result (λ change. call_of change ≡ SetLength name.now len) }
{
    Ok(Change::SetLen(String::from_str(alloc, name)?, len))
}

/// The call that syncs a file.
pub fn sync_call(alloc: Global, name: &str) -> Result<Change, AllocError>
    ensures { IfOk result (λ change. call_of change ≡ SyncFile name.now) }
{
    Ok(Change::Sync(String::from_str(alloc, name)?))
}
