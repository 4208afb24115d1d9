//! Where a program reads from and writes to, each with a count of its faults; texts that are written whole; what the
//! runs of equal bytes that a reply tells mean; and decimal numbers.
#![tactic(auto)]

mod decimals;
pub mod laws;
pub mod memory;
mod texts;

ghost use Rattle.std.specs.Prelude.{◌≡◌, ◌<◌, [], length, false, IfOk, IsOk};
ghost use Rattle.std.specs.Io.{ReadsAtMost, WritesAtMost};
ghost use Rattle.zn_base.specs.States.{SourceState, SinkState, WasRead, WasWritten, Writes};

pub use decimals::parse_number;
pub use texts::{Part, hex_digit, put, write_all, write_number, write_parts};

/// A read failed.
#[derive(Clone, Copy, Debug, PartialEq, Eq)]
pub struct ReadFault;

/// A write failed.
#[derive(Clone, Copy, Debug, PartialEq, Eq)]
pub struct WriteFault;

/// Bytes to read.
pub trait Source {
    /// The bytes that are left, where they are told, and how often a read has failed.
    ghost state: { Self → SourceState };

    /// Fills a front of the buffer and answers its length, which is 0 only at the end. A read that fails
    /// gives nothing, and the next one goes on from the same place.
    fn read(&mut self, buf: &mut [u8]) -> Result<usize, ReadFault>
        requires { 0 < length buf.old }
        ensures bound { ReadsAtMost result buf.new }
        ensures done { WasRead result buf.new (state self.old) (state self.new) };

    /// How often a read has failed.
    fn faults(&self) -> u64
        ensures { result ≡ (state self.now).faults };
}

/// A place to write to. It may hold back what was written, until it is flushed.
pub trait Sink {
    /// The bytes that were written, where they are told, whether some of them may be held back, and how often a write
    /// has failed.
    ghost state: { Self → SinkState };

    /// Takes a front of the piece and answers its length, which is 0 only for an empty piece. A write that
    /// fails takes nothing.
    fn write(&mut self, piece: &[u8]) -> Result<usize, WriteFault>
        ensures bound { WritesAtMost result piece.now }
        ensures some { IfOk result (λ n. 0 < length piece.now → 0 < n) }
        ensures done { WasWritten result piece.now (state self.old) (state self.new) };

    /// Passes on what is held back. Bytes that were passed on by a flush that fails count as written, like those
    /// that it holds back still.
    fn flush(&mut self) -> Result<(), WriteFault>
        ensures done { Writes result [] (state self.old) (state self.new) }
        ensures passed { IsOk result → (state self.new).held_back ≡ false };

    /// How often a write has failed.
    fn faults(&self) -> u64
        ensures { result ≡ (state self.now).faults };
}

#[cfg(test)]
mod tests;
