// What a call may answer.
use zn_truth::Cond;

/// How a request ended.
#[derive(Clone, Copy, Debug, PartialEq, Eq)]
pub enum Outcome {
    Ok,
    IoError,
    TooManyActive,
    TooManyOpen,
}

/// Why a call on a volume did nothing, or did not do all.
#[derive(Clone, Copy, Debug, PartialEq, Eq)]
pub enum Refusal {
    NoSuchFile,
    NotAllowed,
    Denied,
    FileOffline,
    FileReadOnly,
    FsReadOnly,
    BadHandle,
    BadMode,
    TooManyHandles,
    TooManyWriters,
    TooManyActive,
    TooManyOpen,
    Unaligned,
    TooBig,
    BadOffset,
    Busy,
    QueueFull,
    PoolEmpty,
    NothingQueued,
    NothingDone,
    IoError,
    PowerLost,
    Broken,
    Memory,
}

/// Why two blocks are no super block.
#[derive(Clone, Copy, Debug, PartialEq, Eq)]
pub enum SuperError {
    BadMagic,
    /// The first byte at which the copies differ.
    CopiesDiffer(u32),
    /// The version.
    BadVersion(u32),
    /// The byte place of the first field that is out of its form.
    BadField(u32),
}

/// Why a device isn't formatted.
#[derive(Clone, Copy, Debug, PartialEq, Eq)]
pub enum Why {
    BadMagic,
    CopiesDiffer(u32),
    BadVersion(u32),
    BadField(u32),
    /// The super block's zone is sequential and not full.
    Zone0NotFull,
    /// The super block's zone is conventional and offline.
    Zone0Offline,
}

/// Why a mount failed.
#[derive(Clone, Copy, Debug, PartialEq, Eq)]
pub enum MountError {
    NotFormatted(Why),
    IoError,
    PowerLost,
    Broken,
    Memory,
}

/// Why a format failed.
#[derive(Clone, Copy, Debug, PartialEq, Eq)]
pub enum FormatError {
    AlreadyFormatted,
    /// The condition of the super block's zone.
    BadZone0(Cond),
    IoError,
    PowerLost,
    Broken,
    Memory,
}

/// The first item of an option text that is faulty, with the byte place of the item, or of its value.
#[derive(Clone, Copy, Debug, PartialEq, Eq)]
pub enum OptError {
    UnknownOption(u32),
    Repeated(u32),
    BadValue(u32),
}
