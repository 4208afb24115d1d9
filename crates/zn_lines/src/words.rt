// What the words of a line, and of the command line, name.

/// The first word of a line.
#[derive(Clone, Copy, Debug, PartialEq, Eq)]
pub enum Verb {
    Mkfs,
    Mount,
    Umount,
    Open,
    Close,
    Size,
    Read,
    Write,
    Truncate,
    Sync,
    Stat,
    List,
    Attr,
    Create,
    Remove,
    Rename,
    Chmod,
    Chown,
    Fault,
    Turn,
    Submit,
    Complete,
    Reap,
    Zones,
    PowerLoss,
    PowerLossIn,
    PowerOn,
}

/// A change of names or attributes, of which none is allowed.
#[derive(Clone, Copy, Debug, PartialEq, Eq)]
pub enum Change {
    Create,
    Remove,
    Rename,
    Chmod,
    Chown,
}

/// The device in memory that the command `scratch` asks for.
#[derive(Clone, Copy, Debug, PartialEq, Eq)]
pub struct Scratch {
    /// How many zones it has.
    pub zones: u32,
    /// How many of them are conventional, from the first on.
    pub conv: u32,
    /// The blocks of each zone.
    pub blocks: u32,
}
