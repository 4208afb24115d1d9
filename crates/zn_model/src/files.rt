// Files, what they show, and what a mount or a format is asked for.
use zn_truth::Cond;

/// What a failure does to the rights of a file ("filesystems/zonefs, IO error handling").
#[derive(Clone, Copy, Debug, PartialEq, Eq)]
pub enum Policy {
    /// The whole file system becomes read-only.
    RemountRo,
    /// The file becomes read-only.
    ZoneRo,
    /// The file goes offline.
    ZoneOffline,
    /// The file keeps its rights.
    Repair,
}

/// The zones of a file. The blocks that it has room for follow from them and the shape of the device's zones.
#[derive(Clone, Copy, Debug, PartialEq, Eq)]
pub struct FileZones {
    /// The number of the first zone.
    pub first: u32,
    /// How many zones follow one another from the first on, that one counted.
    pub zones: u32,
    /// Whether they are sequential, and the file is one of `seq`: it is written at its end alone.
    pub seq: bool,
}

/// Where a zone is shown: in the super block's place, in a file of `cnv` or `seq`, or nowhere.
#[derive(Clone, Copy, Debug, PartialEq, Eq)]
pub enum Place {
    Super,
    Cnv(u32),
    Seq(u32),
    Unplaced,
}

/// What a file shows to every handle.
#[derive(Clone, Copy, Debug, PartialEq, Eq)]
pub struct Shown {
    /// In bytes.
    pub size: u64,
    pub may_read: bool,
    pub may_write: bool,
    /// Whether its zone is explicitly open for as long as the file has a writer.
    pub held_open: bool,
}

/// What a mount is asked for.
#[derive(Clone, Copy, Debug, PartialEq, Eq)]
pub struct MountOpts {
    pub policy: Policy,
    pub explicit_open: bool,
}

/// What a format is asked for. `perm` has three octal digits.
#[derive(Clone, Copy, Debug, PartialEq, Eq)]
pub struct FormatOpts {
    pub aggr_cnv: bool,
    pub uid: u32,
    pub gid: u32,
    pub perm: u32,
}

/// What is told of a path. For a directory `size` is its number of entries and the other numbers are 0.
#[derive(Clone, Copy, Debug, PartialEq, Eq)]
pub struct Stat {
    pub dir: bool,
    /// The first zone.
    pub zone: u32,
    pub zones: u32,
    /// In bytes.
    pub size: u64,
    /// The capacity, in units of 512 bytes.
    pub blocks: u64,
    /// Permissions, as three octal digits.
    pub mode: u32,
    pub uid: u32,
    pub gid: u32,
    /// The handles that are open for writing.
    pub writers: u32,
}

/// The attributes of a mounted volume. A limit of 0 is none.
#[derive(Clone, Copy, Debug, PartialEq, Eq)]
pub struct Attr {
    /// The greatest number of sequential files open for writing.
    pub max_wro: u32,
    /// The sequential files that are open for writing.
    pub nr_wro: u32,
    pub max_active: u32,
    /// The sequential files that may be written and are held open or shown partly full.
    pub nr_active: u32,
}

/// Blocks of a file: `blocks` of them from block `from` on, in zones of `room` blocks from zone `first` on.
#[derive(Clone, Copy, Debug, PartialEq, Eq)]
pub struct Area {
    pub first: u32,
    pub room: u32,
    pub from: u32,
    pub blocks: u32,
}

/// The part of an area in one zone: its first block there, the area's blocks before it, and its blocks.
#[derive(Clone, Copy, Debug, PartialEq, Eq)]
pub struct Piece {
    pub zone: u32,
    pub at: u32,
    pub before: u32,
    pub blocks: u32,
}

/// What a report found of a file's zones: the worst condition, and the blocks that they hold.
#[derive(Clone, Copy, Debug, PartialEq, Eq)]
pub struct Found {
    pub cond: Cond,
    pub held: u64,
}
