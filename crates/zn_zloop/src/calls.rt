// Calls on the file of a zone.
ghost use Rattle.std.specs.Prelude.{◌≡◌, ◌+◌, ◌≤◌, length, take, drop, Some, IsOk};
ghost use Rattle.std.specs.Option.{option_map};
ghost use Rattle.zn_stand.specs.File.{created, written, resized, synced};
ghost use Rattle.zn_files.specs.States.{directory, WhereTold, MayLeaveInside};
ghost use Rattle.zn_stand.specs.Calls.{SyncFile, SetLength};
ghost use Rattle.zn_stand.specs.History.{LeavesOnly};
ghost use Rattle.zn_zloop.specs.Left.{MayLeaveInResize, MayLeaveInFinish};
ghost use Rattle.zn_zloop.specs.Looked.{Looked};
ghost use Rattle.zn_zloop.specs.Served.{reply_to, IsThere, Served};
ghost use Rattle.zn_zloop.specs.Turned.{IsMissing, IsEmptyFile};

use zn_files::{FileError, Files};
use zn_truth::DevError;

/// What a device answers where its files answer this.
fn reply_to(answer: Result<(), FileError>) -> Result<(), DevError>
    ensures { result ≡ reply_to answer }
{
    match answer {
        Ok(()) => Ok(()),
        Err(FileError::Memory) => Err(DevError::Memory),
        Err(_) => Err(DevError::Broken),
    }
}

/// Syncs a file.
pub fn sync<F: Files>(files: &mut F, name: &str) -> Result<(), DevError>
    requires there { IsThere (F.state files.old) name.now }
    ensures served { Served name.now (λ o p. p ≡ option_map synced o) result (F.state files.old) (F.state files.new) }
    ensures stops { LeavesOnly (F.state files.old).history (F.state files.new).history
        (MayLeaveInside (SyncFile name.now) (directory (F.state files.old))) }
{
    reply_to(files.sync(name))
}

/// Cuts a file to a length, or grows it with zeros.
pub fn resize<F: Files>(files: &mut F, name: &str, len: u64) -> Result<(), DevError>
    requires there { IsThere (F.state files.old) name.now }
    ensures served { Served name.now (λ o p. p ≡ option_map (λ f. resized f len) o) result
        (F.state files.old) (F.state files.new) }
    ensures stops { LeavesOnly (F.state files.old).history (F.state files.new).history
        (MayLeaveInside (SetLength name.now len) (directory (F.state files.old))) }
{
    reply_to(files.set_len(name, len))
}

/// Writes bytes to a file from a place on.
pub fn write<F: Files>(files: &mut F, name: &str, at: u64, bytes: &[u8]) -> Result<(), DevError>
    requires there { IsThere (F.state files.old) name.now }
    requires within { WhereTold (F.state files.old) name.now (λ old. at ≤ length old) }
    ensures { Served name.now (λ o p. p ≡ option_map (λ f. written f at bytes.now) o) result
        (F.state files.old) (F.state files.new) }
{
    reply_to(files.write_at(name, at, bytes))
}

/// Writes bytes to a file from a place on, and syncs it.
pub fn write_through<F: Files>(
    files: &mut F,
    name: &str,
    at: u64,
    bytes: &[u8],
) -> Result<(), DevError>
    requires there { IsThere (F.state files.old) name.now }
    requires within { WhereTold (F.state files.old) name.now (λ old. at ≤ length old) }
    ensures { Served name.now (λ o p. p ≡ option_map (λ f. synced (written f at bytes.now)) o) result
        (F.state files.old) (F.state files.new) }
{
    write(files, name, at, bytes)?;
    sync(files, name)
}

/// Sets the length of a file, and syncs it.
pub fn resize_through<F: Files>(files: &mut F, name: &str, len: u64) -> Result<(), DevError>
    requires there { IsThere (F.state files.old) name.now }
    ensures served { Served name.now (λ o p. p ≡ option_map (λ f. synced (resized f len)) o) result
        (F.state files.old) (F.state files.new) }
    ensures stops { LeavesOnly (F.state files.old).history (F.state files.new).history
        (MayLeaveInResize name.now len (directory (F.state files.old))) }
{
    resize(files, name, len)?;
    sync(files, name)
}

/// Syncs a file, sets its length, and syncs it again.
pub fn finish<F: Files>(files: &mut F, name: &str, len: u64) -> Result<(), DevError>
    requires there { IsThere (F.state files.old) name.now }
    ensures served { Served name.now (λ o p. p ≡ option_map (λ f. synced (resized (synced f) len)) o) result
        (F.state files.old) (F.state files.new) }
    ensures stops { LeavesOnly (F.state files.old).history (F.state files.new).history
        (MayLeaveInFinish name.now len (directory (F.state files.old))) }
{
    sync(files, name)?;
    resize_through(files, name, len)
}

/// Makes an empty file.
fn create<F: Files>(files: &mut F, name: &str) -> Result<(), DevError>
    requires { IsMissing (F.state files.old) name.now }
    ensures { Served name.now (λ o p. p ≡ Some created) result (F.state files.old) (F.state files.new) }
{
    reply_to(files.create(name))
}

/// Makes an empty file, and syncs it.
#[tactic(auto, using(crate::proofs::Marking::made_there, crate::proofs::Marking::made_then))]
pub fn create_through<F: Files>(files: &mut F, name: &str) -> Result<(), DevError>
    requires { IsMissing (F.state files.old) name.now }
    ensures { Served name.now IsEmptyFile result (F.state files.old) (F.state files.new) }
{
    create(files, name)?;
    sync(files, name)
}

/// Reads bytes of a file, as many as fill `out`.
pub fn read<F: Files>(files: &mut F, name: &str, at: u64, out: &mut [u8]) -> Result<(), DevError>
    requires there { IsThere (F.state files.old) name.now }
    requires within { WhereTold (F.state files.old) name.now (λ bytes. at + length out.old ≤ length bytes) }
    ensures looked { Looked result (F.state files.old) (F.state files.new) }
    ensures bytes { WhereTold (F.state files.old) name.now (λ bytes.
        IsOk result → out.new ≡ take (length out.old) (drop at bytes)) }
{
    reply_to(files.read_at(name, at, out))
}
