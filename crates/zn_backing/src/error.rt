// Why a directory isn't opened as a device, and why none is made in it.
ghost use Rattle.std.specs.Prelude.{◌≡◌};
ghost use Rattle.zn_backing.specs.Failures.{failed, not_made};
ghost use Rattle.zn_backing.specs.declared.error.OpenError.TheVariants.{Memory as NoMemory};
ghost use Rattle.zn_backing.specs.declared.error.CreateError.TheVariants.{Memory as NoRoom};

use std::alloc::{AllocError, AllocFailed};
use zn_files::{FileError, Text};
use zn_truth::{Kind, ZoneNo};

/// Why a directory isn't a zoned device. The first cause is told, in this order.
#[derive(Debug, Drop)]
pub enum OpenError {
    /// There is no file `device`.
    NotADevice,
    /// The line of `device` that isn't of its form, from 1 on; 8 is text behind the lines or too much of it, and 0 a
    /// broken limit.
    BadGeometry(u32),
    /// The zone of this kind and number has no file.
    MissingFile(Kind, ZoneNo),
    /// The file of the zone of this kind and number has this length, in bytes, which doesn't fit.
    BadZoneFile(Kind, ZoneNo, u64),
    /// The first name that isn't the device's, or a marker that isn't empty.
    ExtraName(Text),
    /// So many zones are partly written, and fewer may be active.
    TooManyActive(u32),
    /// A call on a file failed.
    Fault,
    Memory,
}

/// Why no device is made in a directory.
#[derive(Debug, Drop)]
pub enum CreateError {
    /// The geometry breaks a limit.
    BadGeometry,
    /// The directory isn't empty; its first name.
    Exists(Text),
    /// A call on a file failed.
    Fault,
    Memory,
}

impl From<FileError> for OpenError {
    ghost from_gives = { λ fault e. e ≡ failed fault };

    fn from(fault: FileError) -> Self {
        match fault {
            FileError::Memory => OpenError::Memory,
            _ => OpenError::Fault,
        }
    }
}

impl From<AllocError> for OpenError {
    ghost from_gives = { λ _ e. e ≡ NoMemory };

    fn from(_: AllocError) -> Self {
        OpenError::Memory
    }
}

impl<T: Drop> From<AllocFailed<T>> for OpenError {
    ghost from_gives = { λ _ e. e ≡ NoMemory };

    fn from(_: AllocFailed<T>) -> Self {
        OpenError::Memory
    }
}

impl From<FileError> for CreateError {
    ghost from_gives = { λ fault e. e ≡ not_made fault };

    fn from(fault: FileError) -> Self {
        match fault {
            FileError::Memory => CreateError::Memory,
            _ => CreateError::Fault,
        }
    }
}

impl From<AllocError> for CreateError {
    ghost from_gives = { λ _ e. e ≡ NoRoom };

    fn from(_: AllocError) -> Self {
        CreateError::Memory
    }
}
