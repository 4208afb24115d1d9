// What carries out the lines of a script.
ghost use Rattle.std.specs.Prelude.{◌≡◌, ◌≤◌, ◌<◌, ◌^◌, false, length};
ghost use Rattle.zn_lines.specs.declared.limits.TheConstants.{LINE_LIMIT};
ghost use Rattle.zn_lines.specs.Grammar.{reading_of};
ghost use Rattle.zn_run.specs.States.{MachineState, state_of};
ghost use Rattle.zn_run.specs.Steps.{Stepped};

use zn_base::Sink;

/// What became of a line.
#[derive(Clone, Copy, Debug, PartialEq, Eq)]
pub enum Step {
    /// Its reply is written, or it has none.
    Done,
    /// It is outside the grammar, at this column. Nothing has happened.
    BadLine(u32),
    /// What the machine works on has failed. Nothing is written.
    Broken,
    /// The sink failed within the reply.
    SinkFault,
    /// There was no memory for it. Nothing is written.
    Memory,
}

/// What carries out lines. After `Broken`, `SinkFault` or `Memory` no line may follow.
pub trait Machine {
    ghost state: { Self → MachineState };

    /// Carries out a line, given without its newline, and writes its reply.
    fn step<K: Sink>(&mut self, line: &[u8], sink: &mut K) -> Step
        requires fits { length line.now ≤ LINE_LIMIT }
        requires goes_on { (state self.old).over ≡ false }
        requires few { (state self.old).steps < 2 ^ 62 }
        ensures { Stepped result (reading_of line.now)
            (state_of (state self.old) (K.state sink.old)) (state_of (state self.new) (K.state sink.new)) };
}
