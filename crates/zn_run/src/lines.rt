// The lines of a script, one after another.
ghost use Rattle.std.specs.Prelude.{◌≡◌, ◌<◌, ◌+◌, ◌^◌, false, length, MatchOption};
ghost use Rattle.zn_lines.specs.declared.runs.Tail.{Tail};
ghost use Rattle.zn_lines.specs.Transcript.{OneLine, FirstLineEnds};
ghost use Rattle.zn_run.specs.Progress.{HaltMeans};
ghost use Rattle.zn_run.specs.States.{state_of};

use crate::machine::{Machine, Step};
use memchr::memchr;
use zn_base::Sink;
use zn_lines::{Ending, LINE_LIMIT};

/// Where the first line ends.
fn newline_at(bytes: &[u8]) -> Option<usize>
    ensures { MatchOption result (OneLine bytes.now) (FirstLineEnds bytes.now) }
{
    memchr(b'\n', bytes)
}

/// Where the lines of some bytes came to a halt.
pub enum Halt {
    /// All lines that a newline ends are carried out. The rest begins here, with this number.
    Rest(usize, u64),
    /// A line ended the run.
    Ended(Ending),
    /// The host failed in the line with this number.
    Broken(u64),
    SinkFault,
    Memory,
}

/// Carries out the lines that a newline ends.
pub fn carry_out<M: Machine, K: Sink>(
    machine: &mut M,
    script: &[u8],
    first: u64,
    sink: &mut K,
) -> Halt
    requires numbers { first + length script.now < 2 ^ 64 }
    requires few { (M.state machine.old).steps + length script.now < 2 ^ 62 }
    requires goes_on { (M.state machine.old).over ≡ false }
    ensures { (tail : Tail) → HaltMeans result tail first script.now
        (state_of (M.state machine.old) (K.state sink.old)) (state_of (M.state machine.new) (K.state sink.new)) }
{
    let mut at = 0;
    let mut number = first;
    while let Some(len) = newline_at(&script[at..]) {
        if len > LINE_LIMIT {
            return Halt::Ended(Ending::LineTooLong(number));
        }
        match machine.step(&script[at..at + len], sink) {
            Step::Done => {}
            Step::BadLine(column) => return Halt::Ended(Ending::BadLine(number, column)),
            Step::Broken => return Halt::Broken(number),
            Step::SinkFault => return Halt::SinkFault,
            Step::Memory => return Halt::Memory,
        }
        at += len + 1;
        number += 1;
    }
    Halt::Rest(at, number)
}
