// Handles, and who opens them.
ghost use Rattle.std.specs.Prelude.{⊤, ◌∷◌, [], codes};

use crate::Outcome;
use bitflags::{Flag, Flags, bitflag_items};

/// What a handle is open for: reading, writing or both.
#[derive(Clone, Copy, Debug, PartialEq, Eq)]
pub struct Mode(u8);

bitflag_items! {
    impl Mode: u8 {
        const READ = 1;
        const WRITE = 2;
    }
}

impl Mode {
    /// For reading and writing.
    pub const READ_WRITE: Mode = Mode(3);
}

impl Flags for Mode {
    type Bits = u8;

    ghost exact = { ⊤ };

    ghost table = { (codes "READ", 1) ∷ (codes "WRITE", 2) ∷ [] };

    ghost set_of = { λ m. m.0 };

    fn flags<'a>() -> &'a [Flag<Mode>] {
        Mode::FLAGS
    }

    fn bits(&self) -> u8 {
        self.0
    }

    fn from_bits_retain(bits: u8) -> Mode {
        Mode(bits)
    }
}

/// A handle on a file. Its generation was never used before since the mount; its key may have been.
#[derive(Clone, Copy, Debug, PartialEq, Eq)]
pub struct Handle {
    pub key: u32,
    pub generation: u64,
}

/// Who opens a file, or owns it.
#[derive(Clone, Copy, Debug, PartialEq, Eq)]
pub struct Who {
    pub uid: u32,
    pub gid: u32,
}

/// A request that ended, by its ticket.
#[derive(Clone, Copy, Debug, PartialEq, Eq)]
pub struct Done {
    pub ticket: u64,
    pub outcome: Outcome,
}
