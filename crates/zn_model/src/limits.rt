// The sizes that a volume accepts.

/// The most bytes of one call: 1 MiB.
pub const MOST_BYTES: u32 = 1_048_576;

/// The most live handles.
pub const MAX_HANDLES: u32 = 1024;

/// The most requests that wait or are not reaped.
pub const MAX_REQUESTS: u32 = 64;

/// The blocks that all requests that wait may hold together.
pub const POOL_BLOCKS: u32 = 1024;
