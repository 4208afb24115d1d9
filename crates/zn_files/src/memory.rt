// A directory in memory, whose calls fail by a list, and which keeps each call that changes it.
ghost use Rattle.std.specs.Prelude.{◌≡◌, ◌+◌, ◌<◌, ◌≤◌, ◌++◌, ◌∷◌, [], map, length, take, drop, Some, None, IfOk, OnOk, OnErr};
ghost use Rattle.std.specs.BTreeMap as tree;
ghost use Rattle.std.specs.FinMap.{keys};
ghost use Rattle.std.specs.String.{string_bytes, string_cmp};
ghost use Rattle.zn_stand.specs.Directory.{Directory, contents, rested, IsImageOf};
ghost use Rattle.zn_stand.specs.Calls.{TellNames, TellLen, ReadFrom, WriteFrom, SetLength, CreateFile, SyncFile};
ghost use Rattle.zn_files.specs.Sound.{IsKept, kept_prop, kept_now};
ghost use Rattle.zn_files.specs.Images.{image_by};
ghost use Rattle.zn_files.specs.States.{directory, WhereTold, Called};
ghost use Rattle.zn_files.specs.MemStates.{MemCalled, first, directory_after};

use crate::bytes::read_bytes;
use crate::images::{Choice, image_of};
use crate::record::{Change, Recorded, create_call, set_len_call, sync_call, write_call};
use crate::replay::{trace_all, trace_until};
use crate::store::{Store, insert_stored, resize_stored, write_stored};
use crate::tally::Tally;
use crate::{FileCall, FileError, Files, Names};
use std::alloc::{AllocError, Global};
use std::collections::BTreeMap;

/// A directory in memory. It keeps each call that changed it, so that it knows what a stop after any number of calls
/// may have left.
#[derive(Drop)]
pub struct MemFiles {
    alloc: Global,
    /// The calls that made it what it was at first.
    given: Vec<Change>,
    /// Those that changed it since.
    made: Vec<Recorded>,
    /// What a read gives.
    files: Store,
    tally: Tally,
    ghost sound: { IsKept given.items made.items files } by { kept_prop given.items made.items files },
}

/// The names of all files.
fn names_of(alloc: Global, files: &Store) -> Result<Names, AllocError>
    ensures names { IfOk result (λ names. names ≡ map string_bytes (tree.keys files.now)) }
    ensures order { OnOk result (tree.IsOrdered string_cmp files.now) }
{
    let mut names = Names::new(alloc);
    for name in files.keys() {
        names.push(name.as_str())?;
    }
    Ok(names)
}

impl MemFiles {
    ghost use Rattle.zn_files.specs.Memory.{mem_state};

    /// An empty directory, none of whose calls is to fail. It takes no memory.
    pub fn new(alloc: Global) -> MemFiles
        ensures { mem_state result ≡ record { given = []; made = []; listed = []; calls = 0; faults = 0 } }
    {
        MemFiles {
            alloc,
            given: Vec::new(alloc),
            made: Vec::new(alloc),
            files: BTreeMap::new(alloc),
            tally: Tally::new(alloc),
        }
    }

    /// Lets a call fail: the `nth` of this kind from now on, counted from 1.
    pub fn fail(&mut self, call: FileCall, nth: u64) -> Result<(), AllocError>
        requires { 1 ≤ nth }
        ensures ok { OnOk result (mem_state self.new ≡ record (mem_state self.old) {
          listed = (mem_state self.old).listed ++ (record { call = call; left = nth }) ∷ [];
        }) }
        ensures err { OnErr result (mem_state self.new ≡ mem_state self.old) }
    {
        self.tally.list(call, nth)
    }

    /// How many calls there were, but for those that lacked memory.
    pub fn calls(&self) -> u64
        ensures { result ≡ (mem_state self.now).calls }
    {
        self.tally.calls
    }

    /// What a stop after so many calls may have left, by this choice: a directory that is synced whole, none of whose
    /// calls is to fail.
    pub fn image(&self, calls: u64, choice: Choice) -> Result<MemFiles, AllocError>
        requires { calls ≤ (mem_state self.now).calls }
        ensures fresh { IfOk result (λ image. mem_state image
            ≡ record { given = (mem_state image).given; made = []; listed = []; calls = 0; faults = 0 }) }
        ensures first { IfOk result (λ image.
            first (mem_state image) ≡ rested (image_by choice (directory_after (mem_state self.now) calls))) }
        ensures stop { IfOk result (λ image.
            IsImageOf (directory_after (mem_state self.now) calls) (contents (first (mem_state image)))) }
    {
        let mut files = BTreeMap::new(self.alloc);
        trace_all(self.alloc, &mut files, &self.given)?;
        trace_until(self.alloc, &mut files, &self.made, calls)?;
        image_of(self.alloc, files, choice)
    }
}

impl MemFiles {
    ghost use Rattle.std.specs.FinMap.{insert};
    ghost use Rattle.zn_stand.specs.File.{at_rest};
    ghost use Rattle.zn_stand.specs.Directory.{file_at};
    ghost use Rattle.zn_files.specs.Memory.{mem_state};

    /// Adds a file that was there at first.
    pub(crate) fn give(&mut self, name: &str, bytes: Vec<u8>) -> Result<(), AllocError>
        requires absent { file_at (first (mem_state self.old)) name.now ≡ None }
        requires fresh { (mem_state self.old).made ≡ [] }
        ensures given { OnOk result (first (mem_state self.new)
            ≡ insert (first (mem_state self.old)) name.now (at_rest bytes.items)) }
        ensures same { mem_state self.new ≡ record (mem_state self.old) { given = (mem_state self.new).given } }
    {
        let create = create_call(self.alloc, name)?;
        let write = write_call(self.alloc, name, 0, &bytes)?;
        let sync = sync_call(self.alloc, name)?;
        self.given.reserve(3)?;
        insert_stored(self.alloc, &mut self.files, name, bytes)?;
        self.given.push_reserved(create);
        self.given.push_reserved(write);
        self.given.push_reserved(sync);
        Ok(())
    }
}

impl Files for MemFiles {
    ghost use Rattle.zn_files.specs.Memory.{mem_state, state_of};

    ghost state = { state_of };

    ghost is_sound = { λ m d is. kept_now m.given.items m.made.items m.files d m.sound is };

    fn names(&mut self) -> Result<Names, FileError>
        ensures done { Called TellNames result (state_of self.old) (state_of self.new) }
        ensures names { (d : Directory) → directory (state_of self.old) ≡ Some d
            → IfOk result (λ names. names ≡ keys d) }
        ensures exact { MemCalled TellNames result (mem_state self.old) (mem_state self.new) }
    {
        if self.tally.is_struck(FileCall::Names) {
            return Err(FileError::Fault);
        }
        let names = names_of(self.alloc, &self.files)?;
        self.tally.count(FileCall::Names);
        Ok(names)
    }

    fn len(&mut self, name: &str) -> Result<u64, FileError>
        ensures done { Called (TellLen name.now) result (state_of self.old) (state_of self.new) }
        ensures len { WhereTold (state_of self.old) name.now (λ bytes. IfOk result (λ len. len ≡ length bytes)) }
        ensures exact { MemCalled (TellLen name.now) result (mem_state self.old) (mem_state self.new) }
    {
        if self.tally.is_struck(FileCall::Len) {
            return Err(FileError::Fault);
        }
        self.tally.count(FileCall::Len);
        match self.files.get(name) {
            Some(bytes) => Ok(bytes.len() as u64),
            None => Err(FileError::Missing),
        }
    }

    fn read_at(&mut self, name: &str, at: u64, out: &mut [u8]) -> Result<(), FileError>
        requires within { WhereTold (state_of self.old) name.now (λ bytes. at + length out.old ≤ length bytes) }
        ensures done { Called (ReadFrom name.now at (length out.old)) result (state_of self.old) (state_of self.new) }
        ensures bytes { WhereTold (state_of self.old) name.now (λ bytes.
            OnOk result (out.new ≡ take (length out.old) (drop at bytes))) }
        ensures exact { MemCalled (ReadFrom name.now at (length out.old)) result
            (mem_state self.old) (mem_state self.new) }
    {
        if self.tally.is_struck(FileCall::ReadAt) {
            return Err(FileError::Fault);
        }
        self.tally.count(FileCall::ReadAt);
        match self.files.get(name) {
            Some(bytes) => {
                read_bytes(bytes, at as usize, out);
                Ok(())
            }
            None => Err(FileError::Missing),
        }
    }

    fn write_at(&mut self, name: &str, at: u64, bytes: &[u8]) -> Result<(), FileError>
        requires within { WhereTold (state_of self.old) name.now (λ bytes. at ≤ length bytes) }
        ensures done { Called (WriteFrom name.now at bytes.now) result (state_of self.old) (state_of self.new) }
        ensures exact { MemCalled (WriteFrom name.now at bytes.now) result (mem_state self.old) (mem_state self.new) }
    {
        if self.tally.is_struck(FileCall::WriteAt) {
            return Err(FileError::Fault);
        }
        if !self.files.contains_key(name) {
            self.tally.count(FileCall::WriteAt);
            return Err(FileError::Missing);
        }
        let change = write_call(self.alloc, name, at, bytes)?;
        self.made.reserve(1)?;
        write_stored(&mut self.files, name, at, bytes)?;
        self.tally.count(FileCall::WriteAt);
        self.made.push_reserved(Recorded {
            number: self.tally.calls,
            change,
        });
        Ok(())
    }

    fn set_len(&mut self, name: &str, len: u64) -> Result<(), FileError>
        ensures done { Called (SetLength name.now len) result (state_of self.old) (state_of self.new) }
        ensures exact { MemCalled (SetLength name.now len) result (mem_state self.old) (mem_state self.new) }
    {
        if self.tally.is_struck(FileCall::SetLen) {
            return Err(FileError::Fault);
        }
        if !self.files.contains_key(name) {
            self.tally.count(FileCall::SetLen);
            return Err(FileError::Missing);
        }
        let change = set_len_call(self.alloc, name, len)?;
        self.made.reserve(1)?;
        resize_stored(&mut self.files, name, len)?;
        self.tally.count(FileCall::SetLen);
        self.made.push_reserved(Recorded {
            number: self.tally.calls,
            change,
        });
        Ok(())
    }

    fn create(&mut self, name: &str) -> Result<(), FileError>
        ensures done { Called (CreateFile name.now) result (state_of self.old) (state_of self.new) }
        ensures exact { MemCalled (CreateFile name.now) result (mem_state self.old) (mem_state self.new) }
    {
        if self.tally.is_struck(FileCall::Create) {
            return Err(FileError::Fault);
        }
        if self.files.contains_key(name) {
            self.tally.count(FileCall::Create);
            return Err(FileError::Exists);
        }
        let change = create_call(self.alloc, name)?;
        self.made.reserve(1)?;
        insert_stored(self.alloc, &mut self.files, name, Vec::new(self.alloc))?;
        self.tally.count(FileCall::Create);
        self.made.push_reserved(Recorded {
            number: self.tally.calls,
            change,
        });
        Ok(())
    }

    fn sync(&mut self, name: &str) -> Result<(), FileError>
        ensures done { Called (SyncFile name.now) result (state_of self.old) (state_of self.new) }
        ensures exact { MemCalled (SyncFile name.now) result (mem_state self.old) (mem_state self.new) }
    {
        if self.tally.is_struck(FileCall::Sync) {
            return Err(FileError::Fault);
        }
        if !self.files.contains_key(name) {
            self.tally.count(FileCall::Sync);
            return Err(FileError::Missing);
        }
        let change = sync_call(self.alloc, name)?;
        self.made.reserve(1)?;
        self.tally.count(FileCall::Sync);
        self.made.push_reserved(Recorded {
            number: self.tally.calls,
            change,
        });
        Ok(())
    }

    fn faults(&self) -> u64 {
        self.tally.faults
    }
}
