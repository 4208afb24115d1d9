// A place for the reply of one line.
ghost use Rattle.std.specs.Prelude.{◌≡◌, ◌<◌, [], Some, false, length, IfOk};
ghost use Rattle.std.specs.Io.{WritesAtMost};
ghost use Rattle.zn_base.specs.States.{WasWritten};

use std::alloc::Global;
use zn_base::{Sink, WriteFault};

/// A sink that keeps what is written until it is cleared. A write fails only where memory is wanting.
#[derive(Drop)]
pub struct ReplyBuffer {
    bytes: Vec<u8>,
    faults: u64,
}

impl ReplyBuffer {
    pub fn new(alloc: Global) -> ReplyBuffer
        ensures { result.bytes.items ≡ [] }
    {
        ReplyBuffer {
            bytes: Vec::new(alloc),
            faults: 0,
        }
    }

    /// What was written.
    pub fn bytes(&self) -> &[u8]
        ensures { result.now ≡ self.now.bytes.items }
    {
        self.bytes.as_slice()
    }

    /// Forgets what was written. Its memory stays.
    pub fn clear(&mut self)
        ensures { self.new.bytes.items ≡ [] }
    {
        self.bytes.clear();
    }
}

impl Sink for ReplyBuffer {
    ghost state = { λ b. record { written = Some b.bytes.items; held_back = false; faults = b.faults } };

    fn write(&mut self, piece: &[u8]) -> Result<usize, WriteFault>
        ensures bound { WritesAtMost result piece.now }
        ensures some { IfOk result (λ n. 0 < length piece.now → 0 < n) }
        ensures done { WasWritten result piece.now
            (record { written = Some self.old.bytes.items; held_back = false; faults = self.old.faults })
            (record { written = Some self.new.bytes.items; held_back = false; faults = self.new.faults }) }
    {
        match self.bytes.extend_from_slice(piece) {
            Ok(()) => Ok(piece.len()),
            Err(_) => {
                self.faults = self.faults.saturating_add(1);
                Err(WriteFault)
            }
        }
    }

    fn flush(&mut self) -> Result<(), WriteFault> {
        Ok(())
    }

    fn faults(&self) -> u64 {
        self.faults
    }
}
