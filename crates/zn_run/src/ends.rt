// The last line of a run.
ghost use Rattle.std.specs.Prelude.{ℕ, List, []};
ghost use Rattle.zn_base.specs.Parts.{text_of};
ghost use Rattle.zn_base.specs.States.{SinkState, Writes};
ghost use Rattle.zn_lines.specs.Transcript.{last_line};
ghost use Rattle.zn_run.specs.Endings.{out_of_memory, host_fault};
ghost use Rattle.zn_run.specs.Headline.{Closed};

use crate::status::Status;
use zn_base::{Part, Sink, WriteFault, write_all, write_parts};
use zn_lines::Ending;

/// Writes the last line of a run that ends so.
fn write_last_line<K: Sink>(sink: &mut K, ending: Ending) -> Result<(), WriteFault>
    ensures { Writes result (last_line ending) (K.state sink.old) (K.state sink.new) }
{
    match ending {
        Ending::Finished | Ending::Unread => write_parts(sink, &[]),
        Ending::BadLine(number, column) => write_parts(
            sink,
            &[
                Part::Text(b"script-error "),
                Part::Number(number),
                Part::Text(b" "),
                Part::Number(column as u64),
                Part::Text(b"\n"),
            ],
        ),
        Ending::LineTooLong(number) => write_parts(
            sink,
            &[
                Part::Text(b"line-too-long "),
                Part::Number(number),
                Part::Text(b"\n"),
            ],
        ),
        Ending::ScriptTooLong(number) => write_parts(
            sink,
            &[
                Part::Text(b"script-too-long "),
                Part::Number(number),
                Part::Text(b"\n"),
            ],
        ),
        Ending::ReadFailed => write_parts(sink, &[Part::Text(b"read-fault\n")]),
    }
}

/// Passes on what the sink holds back, once the last line of a run was to be written, and answers the run's status.
fn pass_on<K: Sink>(sink: &mut K, written: Result<(), WriteFault>, status: Status) -> Status
    ensures { (line : List ℕ) (before : SinkState) → Writes written line before (K.state sink.old)
        → Closed result status line before (K.state sink.new) }
{
    match written {
        Ok(()) => {}
        Err(_) => return Status::WriteFault,
    }
    match sink.flush() {
        Ok(()) => status,
        Err(_) => Status::WriteFault,
    }
}

/// Ends a run by this last line and this status.
pub fn end_with<K: Sink>(sink: &mut K, line: &[u8], status: Status) -> Status
    ensures { Closed result status line.now (K.state sink.old) (K.state sink.new) }
{
    let written = write_all(sink, line);
    pass_on(sink, written, status)
}

/// Ends a run by a last line of these parts and this status.
pub fn end_by<K: Sink>(sink: &mut K, parts: &[Part<'_>], status: Status) -> Status
    ensures { Closed result status (text_of parts.now) (K.state sink.old) (K.state sink.new) }
{
    let written = write_parts(sink, parts);
    pass_on(sink, written, status)
}

/// Ends a run that has no last line.
pub fn end_done<K: Sink>(sink: &mut K) -> Status
    ensures { Closed result Status.Done [] (K.state sink.old) (K.state sink.new) }
{
    pass_on(sink, Ok(()), Status::Done)
}

/// Ends a run for want of memory.
pub fn end_starved<K: Sink>(sink: &mut K) -> Status
    ensures { Closed result Status.Memory out_of_memory (K.state sink.old) (K.state sink.new) }
{
    end_with(sink, b"out-of-memory\n", Status::Memory)
}

/// Ends a run by its script.
pub fn end_by_script<K: Sink>(sink: &mut K, ending: Ending) -> Status
    ensures { Closed result Status.Script (last_line ending) (K.state sink.old) (K.state sink.new) }
{
    let written = write_last_line(sink, ending);
    pass_on(sink, written, Status::Script)
}

/// Ends a run whose script could not be read to its end.
pub fn end_unread<K: Sink>(sink: &mut K) -> Status
    ensures { Closed result Status.ReadFault (last_line Ending.ReadFailed) (K.state sink.old) (K.state sink.new) }
{
    let written = write_last_line(sink, Ending::ReadFailed);
    pass_on(sink, written, Status::ReadFault)
}

/// Ends a run in whose line of this number the host failed.
pub fn end_broken<K: Sink>(sink: &mut K, number: u64) -> Status
    ensures { Closed result Status.HostFault (host_fault number) (K.state sink.old) (K.state sink.new) }
{
    let written = write_parts(
        sink,
        &[
            Part::Text(b"host-fault "),
            Part::Number(number),
            Part::Text(b"\n"),
        ],
    );
    pass_on(sink, written, Status::HostFault)
}
