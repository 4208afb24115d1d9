// The whole run of a script.
ghost use Rattle.std.specs.Prelude.{◌≡◌, ◌≢◌, ◌<◌, ◌≤◌, ◌+◌, ◌^◌, MatchResult, false, length};
ghost use Rattle.zn_lines.specs.Transcript.{OneLine};
ghost use Rattle.zn_lines.specs.declared.runs.Tail.{Tail};
ghost use Rattle.zn_run.specs.Headline.{Ran, Headline};
ghost use Rattle.zn_run.specs.Progress.{IsKeptRest};
ghost use Rattle.zn_run.specs.Script.{IsNear};
ghost use Rattle.zn_run.specs.States.{run_of, state_of};

use crate::ends::{end_broken, end_by_script, end_done, end_starved, end_unread};
use crate::lines::{Halt, carry_out};
use crate::machine::{Machine, Step};
use crate::script::{BUFFER, read_piece};
use crate::status::Status;
use std::alloc::Global;
use zn_base::{Sink, Source};
use zn_lines::{Ending, LINE_LIMIT, SCRIPT_LIMIT, Tail};

/// Carries out the last line of a script, which no newline ends.
fn run_last_line<M: Machine, K: Sink>(
    machine: &mut M,
    line: &[u8],
    number: u64,
    sink: &mut K,
) -> Status
    requires one { OneLine line.now }
    requires some { 0 < length line.now }
    requires fits { length line.now ≤ LINE_LIMIT }
    requires goes_on { (M.state machine.old).over ≡ false }
    requires few { (M.state machine.old).steps < 2 ^ 62 }
    ensures { Ran result Tail.End number line.now
        (state_of (M.state machine.old) (K.state sink.old)) (state_of (M.state machine.new) (K.state sink.new)) }
{
    match machine.step(line, sink) {
        Step::Done => end_done(sink),
        Step::BadLine(column) => end_by_script(sink, Ending::BadLine(number, column)),
        Step::Broken => end_broken(sink, number),
        Step::SinkFault => Status::WriteFault,
        Step::Memory => end_starved(sink),
    }
}

/// Ends a run by what no newline ends: the last line of a whole script, unless it is empty, and else no line.
fn run_rest<M: Machine, K: Sink>(
    machine: &mut M,
    rest: &[u8],
    number: u64,
    tail: Tail,
    sink: &mut K,
) -> Status
    requires one { OneLine rest.now }
    requires known { tail ≢ Tail.More }
    requires near { IsNear tail rest.now }
    requires goes_on { (M.state machine.old).over ≡ false }
    requires few { (M.state machine.old).steps < 2 ^ 62 }
    ensures { Ran result tail number rest.now
        (state_of (M.state machine.old) (K.state sink.old)) (state_of (M.state machine.new) (K.state sink.new)) }
{
    if rest.len() > LINE_LIMIT {
        return end_by_script(sink, Ending::LineTooLong(number));
    }
    match tail {
        Tail::End if rest.is_empty() => end_done(sink),
        Tail::End => run_last_line(machine, rest, number, sink),
        Tail::Fault => end_unread(sink),
        Tail::Over => end_by_script(sink, Ending::ScriptTooLong(number)),
        Tail::More => unreachable!(),
    }
}

/// Carries out the last bytes that were taken, from the line with this number on.
fn run_last<M: Machine, K: Sink>(
    machine: &mut M,
    bytes: &[u8],
    first: u64,
    tail: Tail,
    sink: &mut K,
) -> Status
    requires known { tail ≢ Tail.More }
    requires near { IsNear tail bytes.now }
    requires numbers { first + length bytes.now < 2 ^ 64 }
    requires goes_on { (M.state machine.old).over ≡ false }
    requires few { (M.state machine.old).steps + length bytes.now < 2 ^ 62 }
    ensures { Ran result tail first bytes.now
        (state_of (M.state machine.old) (K.state sink.old)) (state_of (M.state machine.new) (K.state sink.new)) }
{
    match carry_out(machine, bytes, first, sink) {
        Halt::Rest(at, number) => run_rest(machine, &bytes[at..], number, tail, sink),
        Halt::Ended(ending) => end_by_script(sink, ending),
        Halt::Broken(number) => end_broken(sink, number),
        Halt::SinkFault => Status::WriteFault,
        Halt::Memory => end_starved(sink),
    }
}

/// Carries out the lines that a newline ends, from the line with this number on, where more may follow, and passes on
/// their replies. Answers where the rest begins, which may yet become a line, with its number; or how the run ended.
fn run_lines<M: Machine, K: Sink>(
    machine: &mut M,
    bytes: &[u8],
    first: u64,
    sink: &mut K,
) -> Result<(usize, u64), Status>
    requires near { IsNear Tail.More bytes.now }
    requires numbers { first + length bytes.now < 2 ^ 64 }
    requires goes_on { (M.state machine.old).over ≡ false }
    requires few { (M.state machine.old).steps + length bytes.now < 2 ^ 62 }
    ensures { MatchResult result
        (λ rest. IsKeptRest rest.0 rest.1 first bytes.now
        (state_of (M.state machine.old) (K.state sink.old)) (state_of (M.state machine.new) (K.state sink.new)))
        (λ status. Ran status Tail.More first bytes.now
        (state_of (M.state machine.old) (K.state sink.old)) (state_of (M.state machine.new) (K.state sink.new))) }
{
    match carry_out(machine, bytes, first, sink) {
        Halt::Rest(at, number) => {
            if bytes.len() - at > LINE_LIMIT {
                return Err(end_by_script(sink, Ending::LineTooLong(number)));
            }
            match sink.flush() {
                Ok(()) => Ok((at, number)),
                Err(_) => Err(Status::WriteFault),
            }
        }
        Halt::Ended(ending) => Err(end_by_script(sink, ending)),
        Halt::Broken(number) => Err(end_broken(sink, number)),
        Halt::SinkFault => Err(Status::WriteFault),
        Halt::Memory => Err(end_starved(sink)),
    }
}

/// Carries out a script piece by piece. The buffer keeps what no newline has ended. The next piece is read only when
/// all lines in it are carried out and no reply is held back: who types the lines sees each reply before the next one.
fn run_pieces<M: Machine, S: Source, K: Sink>(
    machine: &mut M,
    source: &mut S,
    sink: &mut K,
    buffer: &mut [u8],
) -> Status
    requires sized { length buffer.old ≡ BUFFER }
    requires goes_on { (M.state machine.old).over ≡ false }
    requires few { (M.state machine.old).steps < 2 ^ 61 }
    ensures { Headline result
        (run_of (M.state machine.old) (S.state source.old) (K.state sink.old))
        (run_of (M.state machine.new) (S.state source.new) (K.state sink.new)) }
{
    let mut kept = 0;
    let mut taken = 0;
    let mut number = 1;
    loop {
        let count = match read_piece(source, buffer, kept, taken) {
            Ok(0) => return run_rest(machine, &buffer[..kept], number, Tail::End, sink),
            Ok(count) => count,
            Err(_) => return run_rest(machine, &buffer[..kept], number, Tail::Fault, sink),
        };
        taken += count;
        let end = kept + count;
        if taken > SCRIPT_LIMIT {
            return run_last(machine, &buffer[..end - 1], number, Tail::Over, sink);
        }
        match run_lines(machine, &buffer[..end], number, sink) {
            Ok((at, next)) => {
                buffer.copy_within(at..end, 0);
                kept = end - at;
                number = next;
            }
            Err(status) => return status,
        }
    }
}

/// Carries out the script that a source gives, piece by piece, and writes the replies and the last line. The buffer of
/// lines is taken before the first line; then no memory is taken.
pub fn run<M: Machine, S: Source, K: Sink>(
    alloc: Global,
    machine: &mut M,
    source: &mut S,
    sink: &mut K,
) -> Status
    requires goes_on { (M.state machine.old).over ≡ false }
    requires few { (M.state machine.old).steps < 2 ^ 61 }
    ensures { Headline result
        (run_of (M.state machine.old) (S.state source.old) (K.state sink.old))
        (run_of (M.state machine.new) (S.state source.new) (K.state sink.new)) }
{
    match vec![in alloc; 0; BUFFER] {
        Ok(mut buffer) => run_pieces(machine, source, sink, &mut buffer),
        Err(_) => end_starved(sink),
    }
}
