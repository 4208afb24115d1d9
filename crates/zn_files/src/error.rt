// The calls on a directory, and why one isn't done.
ghost use Rattle.std.specs.Prelude.{◌≡◌};
ghost use Rattle.zn_files.specs.declared.error.FileError.TheVariants.{Memory};

use std::alloc::{AllocError, AllocFailed};

/// Why a call on a directory isn't done.
#[derive(Clone, Copy, Debug, PartialEq, Eq)]
pub enum FileError {
    /// The call failed.
    Fault,
    /// The file isn't there.
    Missing,
    /// The file that is to be created is there.
    Exists,
    Memory,
}

/// The calls on a directory.
#[derive(Clone, Copy, Debug, PartialEq, Eq)]
pub enum FileCall {
    Names,
    Len,
    ReadAt,
    WriteAt,
    SetLen,
    Create,
    Sync,
}

impl From<AllocError> for FileError {
    ghost from_gives = { λ _ e. e ≡ Memory };

    fn from(_: AllocError) -> Self {
        FileError::Memory
    }
}

impl<T: Drop> From<AllocFailed<T>> for FileError {
    ghost from_gives = { λ _ e. e ≡ Memory };

    fn from(_: AllocFailed<T>) -> Self {
        FileError::Memory
    }
}
