// The sizes that are accepted, and when a limit is reached.
ghost use Rattle.std.specs.Prelude.{◌≡◌};
ghost use Rattle.zn_truth.specs.Truth.{is_reached};

/// The bytes of a block.
pub const BLOCK_SIZE: usize = 4096;

/// The most zones of a device.
pub const MAX_ZONES: u32 = 4096;

/// The most blocks of a zone.
pub const MAX_BLOCKS: u32 = 65536;

/// The most cuts of one loss of power.
pub const MAX_CUTS: u32 = 64;

/// The most faults that wait for a command.
pub const MAX_FAULTS: u32 = 64;

/// Whether a count is at a limit, of which 0 is none.
pub fn is_reached(limit: u32, count: usize) -> bool
    ensures { result ≡ is_reached limit count }
{
    limit != 0 && limit as usize <= count
}
