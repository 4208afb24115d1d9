// The files of a directory in memory.
ghost use Rattle.std.specs.Prelude.{◌≡◌, ◌-◌, ◌≤◌, ◌++◌, List, ℕ, length, take, replicate, Some, None, OnOk, OnErr};
ghost use Rattle.zn_truth.specs.Orders.{replaced};
ghost use Rattle.zn_files.specs.Stores.{bytes_in, ChangesStored, AddsStored, SameStored};

use crate::bytes::put_bytes;
use std::alloc::{AllocError, Global};
use std::collections::BTreeMap;

/// The bytes of each file, as a read gives them.
pub type Store = BTreeMap<String, Vec<u8>>;

/// Writes bytes to a file from `at` on, if it is there.
pub fn write_stored(files: &mut Store, name: &str, at: u64, bytes: &[u8]) -> Result<(), AllocError>
    requires { (old : List ℕ) → bytes_in files.old name.now ≡ Some old → at ≤ length old }
    ensures ok { OnOk result (ChangesStored files.old files.new name.now (λ old. replaced old at bytes.now)) }
    ensures err { OnErr result (SameStored files.old files.new) }
{
    let Some(file) = files.get_mut(name) else {
        return Ok(());
    };
    put_bytes(file, at as usize, bytes)
}

/// Cuts a file, or grows it with zeros, if it is there.
pub fn resize_stored(files: &mut Store, name: &str, len: u64) -> Result<(), AllocError>
    ensures ok { OnOk result (ChangesStored files.old files.new name.now
        (λ old. take len old ++ replicate (len - length old) 0)) }
    ensures err { OnErr result (SameStored files.old files.new) }
{
    let Some(file) = files.get_mut(name) else {
        return Ok(());
    };
    file.resize(len as usize, 0)
}

/// Puts a file in place, where there is none of this name.
pub fn insert_stored(
    alloc: Global,
    files: &mut Store,
    name: &str,
    bytes: Vec<u8>,
) -> Result<(), AllocError>
    requires { bytes_in files.old name.now ≡ None }
    ensures ok { OnOk result (AddsStored files.old files.new name.now bytes.items) }
    ensures err { OnErr result (SameStored files.old files.new) }
{
    files.insert(String::from_str(alloc, name)?, bytes)?;
    Ok(())
}
