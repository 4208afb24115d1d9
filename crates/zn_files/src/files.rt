// The trait of a directory of files.
ghost use Rattle.std.specs.Prelude.{◌≡◌, ◌+◌, ◌≤◌, length, take, drop, Some, IfOk, OnOk};
ghost use Rattle.std.specs.FinMap.{keys};
ghost use Rattle.zn_stand.specs.Directory.{Directory, IsSoundDirectory};
ghost use Rattle.zn_stand.specs.Calls.{TellNames, TellLen, ReadFrom, WriteFrom, SetLength, CreateFile, SyncFile};
ghost use Rattle.zn_files.specs.States.{FilesState, directory, WhereTold, Called};

use crate::{FileError, Names};

/// A directory of files, by name. A call whose file isn't there answers `Missing`, and one that creates a file that is
/// there `Exists`. A call that fails, as it may for a cause outside, answers `Fault`, counts it, and may have been done
/// in part. What a stop of the host leaves, at any moment, is known where contents are told.
pub trait Files {
    /// The directory as it is, and as it was.
    ghost state: { Self → FilesState };

    /// The names of all files, in the order of their bytes.
    fn names(&mut self) -> Result<Names, FileError>
        ensures done { Called TellNames result (state self.old) (state self.new) }
        ensures names { (d : Directory) → directory (state self.old) ≡ Some d → IfOk result (λ names. names ≡ keys d) };

    /// The length of a file in bytes.
    fn len(&mut self, name: &str) -> Result<u64, FileError>
        ensures done { Called (TellLen name.now) result (state self.old) (state self.new) }
        ensures len { WhereTold (state self.old) name.now (λ bytes. IfOk result (λ len. len ≡ length bytes)) };

    /// Reads bytes of a file from place `at` on: as many as fill `out`. A file that ends before is a fault.
    fn read_at(&mut self, name: &str, at: u64, out: &mut [u8]) -> Result<(), FileError>
        requires within { WhereTold (state self.old) name.now (λ bytes. at + length out.old ≤ length bytes) }
        ensures done { Called (ReadFrom name.now at (length out.old)) result (state self.old) (state self.new) }
        ensures bytes { WhereTold (state self.old) name.now (λ bytes.
            OnOk result (out.new ≡ take (length out.old) (drop at bytes))) };

    /// Writes bytes to a file from place `at` on, which the file reaches up to. The file grows where it ends before.
    fn write_at(&mut self, name: &str, at: u64, bytes: &[u8]) -> Result<(), FileError>
        requires within { WhereTold (state self.old) name.now (λ bytes. at ≤ length bytes) }
        ensures done { Called (WriteFrom name.now at bytes.now) result (state self.old) (state self.new) };

    /// Cuts a file to a length, or grows it with zeros.
    fn set_len(&mut self, name: &str, len: u64) -> Result<(), FileError>
        ensures done { Called (SetLength name.now len) result (state self.old) (state self.new) };

    /// Makes an empty file.
    fn create(&mut self, name: &str) -> Result<(), FileError>
        ensures done { Called (CreateFile name.now) result (state self.old) (state self.new) };

    /// Makes a file durable, with its length and its bytes.
    fn sync(&mut self, name: &str) -> Result<(), FileError>
        ensures done { Called (SyncFile name.now) result (state self.old) (state self.new) };

    /// How many faults there were. It never falls.
    fn faults(&self) -> u64
        ensures { result ≡ (state self.now).faults };

    /// What a read gives is among what a stop may leave.
    ghost is_sound: { (f : Self) (d : Directory) → directory (state f) ≡ Some d → IsSoundDirectory d };
}
