// The sizes that a script, and the command `scratch`, accept.

/// The numbers that a script may call handles by.
pub const MAX_NUMBERS: u32 = 2048;

/// The greatest of them.
pub const LAST_NUMBER: u32 = 2047;

/// The most bytes of a line, without its newline.
pub const LINE_LIMIT: usize = 65536;

/// The most bytes of a script. A line's newline must lie within them.
pub const SCRIPT_LIMIT: usize = 4_294_967_296;

/// The most blocks of all zones of a device in memory: 256 MiB.
pub const SCRATCH_BLOCKS: u32 = 65536;
