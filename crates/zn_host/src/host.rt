// A directory of the host as a directory of files, which tells no content.
ghost use Rattle.std.specs.Prelude.{◌≡◌, ◌+◌, ◌≤◌, true, false, length, take, drop, None, Some, IfOk, OnOk};
ghost use Rattle.std.specs.FinMap.{keys};
ghost use Rattle.zn_stand.specs.Directory.{Directory};
ghost use Rattle.zn_stand.specs.Calls.{TellNames, TellLen, ReadFrom, WriteFrom, SetLength, CreateFile, SyncFile};
ghost use Rattle.zn_files.specs.declared.error.FileError.TheVariants.{Missing, Exists};
ghost use Rattle.zn_files.specs.States.{directory, WhereTold, Called};
ghost use Rattle.zn_host.specs.Host.{HostCalled, counted, untold_files};

use crate::folder::Folder;
use std::alloc::Global;
use std::marker::Model;
use zn_files::{FileError, Files, Names, Text};

/// A directory of the host. Before the first call an exclusive advisory lock is taken on it, which is held until the
/// value goes away. Where another holds it, or there is no such directory, each call is a fault.
#[derive(Drop)]
pub struct HostFiles {
    folder: Folder,
    faults: u64,
}

impl Model for HostFiles {
    ghost use Rattle.std.specs.Prelude.{is_some};
    ghost use Rattle.zn_host.specs.Host.{HostState};

    ghost Value = { HostState };

    ghost view = { λ h. record {
      is_locked = is_some h.folder.lock;
      is_listed = h.folder.is_listed;
      is_lost = h.folder.is_lost;
      faults = h.faults;
    } };
}

/// Counts a call that failed or was refused.
fn count<T>(faults: &mut u64, answer: &Result<T, FileError>)
    ensures count { faults.new ≡ counted answer.now faults.old }
    ensures later { faults.old ≤ faults.new }
{
    match answer {
        Ok(_) | Err(FileError::Memory) => {}
        Err(_) => *faults = faults.saturating_add(1),
    }
}

impl HostFiles {
    /// The directory of this path. It takes no memory and touches no file.
    pub fn new(rt: HostRuntime, alloc: Global, path: Text) -> HostFiles
        ensures { result ≡ record { is_locked = false; is_listed = false; is_lost = false; faults = 0 } }
    {
        HostFiles {
            folder: Folder::new(rt, alloc, path),
            faults: 0,
        }
    }
}

#[tactic(auto, using(crate::proofs::HostLaws::called_untold))]
impl Files for HostFiles {
    ghost state = { untold_files };

    ghost is_sound = { λ h d is. absurd (cc is) };

    fn names(&mut self) -> Result<Names, FileError>
        ensures done { Called TellNames result (untold_files self.old) (untold_files self.new) }
        ensures names { (d : Directory) → directory (untold_files self.old) ≡ Some d
            → IfOk result (λ names. names ≡ keys d) }
        ensures host { HostCalled None result self.old self.new }
    {
        let answer = self.folder.names();
        count(&mut self.faults, &answer);
        answer
    }

    fn len(&mut self, name: &str) -> Result<u64, FileError>
        ensures done { Called (TellLen name.now) result (untold_files self.old) (untold_files self.new) }
        ensures len { WhereTold (untold_files self.old) name.now (λ bytes. IfOk result (λ len. len ≡ length bytes)) }
        ensures host { HostCalled (Some Missing) result self.old self.new }
    {
        let answer = self.folder.len(name);
        count(&mut self.faults, &answer);
        answer
    }

    fn read_at(&mut self, name: &str, at: u64, out: &mut [u8]) -> Result<(), FileError>
        requires within { WhereTold (untold_files self.old) name.now (λ bytes. at + length out.old ≤ length bytes) }
        ensures done { Called (ReadFrom name.now at (length out.old)) result
            (untold_files self.old) (untold_files self.new) }
        ensures bytes { WhereTold (untold_files self.old) name.now (λ bytes.
            OnOk result (out.new ≡ take (length out.old) (drop at bytes))) }
        ensures host { HostCalled (Some Missing) result self.old self.new }
    {
        let answer = self.folder.read_at(name, at, out);
        count(&mut self.faults, &answer);
        answer
    }

    fn write_at(&mut self, name: &str, at: u64, bytes: &[u8]) -> Result<(), FileError>
        requires within { WhereTold (untold_files self.old) name.now (λ bytes. at ≤ length bytes) }
        ensures done { Called (WriteFrom name.now at bytes.now) result
            (untold_files self.old) (untold_files self.new) }
        ensures host { HostCalled (Some Missing) result self.old self.new }
    {
        let answer = self.folder.write_at(name, at, bytes);
        count(&mut self.faults, &answer);
        answer
    }

    fn set_len(&mut self, name: &str, len: u64) -> Result<(), FileError>
        ensures done { Called (SetLength name.now len) result (untold_files self.old) (untold_files self.new) }
        ensures host { HostCalled (Some Missing) result self.old self.new }
    {
        let answer = self.folder.set_len(name, len);
        count(&mut self.faults, &answer);
        answer
    }

    fn create(&mut self, name: &str) -> Result<(), FileError>
        ensures done { Called (CreateFile name.now) result (untold_files self.old) (untold_files self.new) }
        ensures host { HostCalled (Some Exists) result self.old self.new }
        ensures listed { OnOk result (self.new.is_listed ≡ false) }
    {
        let answer = self.folder.create(name);
        count(&mut self.faults, &answer);
        answer
    }

    /// Where a file was created since the directory was synced, that is synced too. After a sync that failed no other is
    /// done.
    fn sync(&mut self, name: &str) -> Result<(), FileError>
        ensures done { Called (SyncFile name.now) result (untold_files self.old) (untold_files self.new) }
        ensures host { HostCalled (Some Missing) result self.old self.new }
        ensures listed { OnOk result (self.new.is_listed ≡ true) }
        ensures safe { OnOk result (self.new.is_lost ≡ false) }
    {
        let answer = self.folder.sync(name);
        count(&mut self.faults, &answer);
        answer
    }

    fn faults(&self) -> u64 {
        self.faults
    }
}
