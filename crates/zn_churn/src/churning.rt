// A script that is made from a seed, carried out line by line.
ghost use Rattle.std.specs.Prelude.{◌≡◌, ◌<◌, ◌≤◌, ◌+◌, ◌-◌, ◌^◌, true, false, MatchResult, IfOk, Ok, length};
ghost use Rattle.zn_gen.specs.Churn.{lines_left};
ghost use Rattle.zn_gen.specs.declared.script.TheConstants.{FILES, MOST_STEPS};
ghost use Rattle.zn_lines.specs.declared.limits.TheConstants.{LINE_LIMIT};
ghost use Rattle.zn_run.specs.Headline.{Closed};
ghost use Rattle.zn_run.specs.States.{state_of};
ghost use Rattle.zn_churn.specs.Churning.{Churns, blocks_told, carried, churned, size_line};
ghost use Rattle.zn_churn.specs.Lines.{GoesOn, IsAnswered, AnswerMeans, HaltMeans, CameTo};
ghost use Rattle.zn_churn.specs.Tally.{nothing, summary_line};

use crate::replies::ReplyBuffer;
use crate::tally::{Tally, count_in};
use std::alloc::Global;
use zn_base::{Part, Sink};
use zn_gen::{Churn, FILES, MOST_LINE};
use zn_lines::Ending;
use zn_run::{Machine, Status, Step, end_broken, end_by, end_by_script, end_starved};
use zn_truth::BLOCK_SIZE;

/// What a script has come to.
#[derive(Clone, Copy)]
struct Outcome {
    /// What its replies add up to.
    tally: Tally,
    /// How many blocks the files have in the end.
    blocks: u64,
}

/// Why no further line is carried out.
enum Halt {
    /// A line is outside the grammar.
    Ended(Ending),
    /// The host failed in the line with this number.
    Broken(u64),
    /// Memory is wanting.
    Starved,
}

/// Carries out the line with this number, whose reply is then in the buffer.
fn answer<M: Machine>(
    machine: &mut M,
    line: &[u8],
    number: u64,
    reply: &mut ReplyBuffer,
) -> Result<(), Halt>
    requires fits { length line.now ≤ LINE_LIMIT }
    requires goes_on { GoesOn (M.state machine.old) }
    requires few { (M.state machine.old).steps < 2 ^ 62 }
    ensures answered { MatchResult result
        (λ _. IsAnswered line.now reply.new.bytes.items (M.state machine.old) (M.state machine.new))
        (λ halt. AnswerMeans halt number line.now (M.state machine.old) (M.state machine.new)) }
    ensures counted { (M.state machine.new).steps ≡ (M.state machine.old).steps + 1 }
{
    reply.clear();
    match machine.step(line, reply) {
        Step::Done => Ok(()),
        Step::BadLine(column) => Err(Halt::Ended(Ending::BadLine(number, column))),
        Step::Broken => Err(Halt::Broken(number)),
        Step::SinkFault | Step::Memory => Err(Halt::Starved),
    }
}

/// Carries out the lines of a script, and answers what their replies add up to.
fn carry_out<M: Machine>(
    machine: &mut M,
    script: &mut Churn,
    reply: &mut ReplyBuffer,
) -> Result<Tally, Halt>
    requires goes_on { GoesOn (M.state machine.old) }
    requires few { (M.state machine.old).steps < 2 ^ 61 }
    requires short { length (lines_left script.old) < 2 ^ 32 - 9 }
    ensures came { let outcome = carried (lines_left script.old) (record { table = (M.state machine.old).table; tally = nothing }) in
        MatchResult result
        (λ tally. CameTo (record { table = (M.state machine.new).table; tally = tally }) outcome (M.state machine.old) (M.state machine.new))
        (λ halt. HaltMeans halt outcome (M.state machine.old) (M.state machine.new)) }
    ensures few { IfOk result (λ tally. tally.lines < 2 ^ 32 - 9) }
    ensures counted { IfOk result (λ tally. (M.state machine.new).steps ≡ (M.state machine.old).steps + tally.lines) }
{
    let mut line = [0; MOST_LINE];
    let mut tally = Tally::nothing();
    while let Some(len) = script.next(&mut line) {
        answer(machine, &line[..len], tally.lines + 1, reply)?;
        tally.count(&line[..len], reply.bytes());
    }
    Ok(tally)
}

/// The line that asks for the size of a handle's file.
fn size_line(handle: u8) -> [u8; 6]
    requires { handle < FILES }
    ensures { result ≡ size_line handle }
{
    [b's', b'i', b'z', b'e', b' ', b'0' + handle]
}

/// How many blocks the files have behind so many lines, by the replies to the lines that ask for their sizes.
fn blocks<M: Machine>(machine: &mut M, lines: u64, reply: &mut ReplyBuffer) -> Result<u64, Halt>
    requires goes_on { GoesOn (M.state machine.old) }
    requires few { (M.state machine.old).steps < 2 ^ 61 + 2 ^ 32 }
    requires short { lines < 2 ^ 32 - 9 }
    ensures { MatchResult result
        (λ blocks. CameTo blocks (Ok (blocks_told (M.state machine.old).table 8 0)) (M.state machine.old) (M.state machine.new))
        (λ halt. HaltMeans halt (Ok (blocks_told (M.state machine.old).table 8 0)) (M.state machine.old) (M.state machine.new)) }
{
    let mut blocks = 0;
    for handle in 0..FILES as u8 {
        let number = lines + 1 + u64::from(handle);
        answer(machine, &size_line(handle), number, reply)?;
        blocks += count_in(reply.bytes()) / BLOCK_SIZE as u64;
    }
    Ok(blocks)
}

/// Carries out a whole script, and answers what it has come to.
fn run_script<M: Machine>(
    alloc: Global,
    machine: &mut M,
    seed: u64,
    steps: u32,
) -> Result<Outcome, Halt>
    requires most { steps ≤ MOST_STEPS }
    requires goes_on { GoesOn (M.state machine.old) }
    requires few { (M.state machine.old).steps < 2 ^ 61 }
    ensures { MatchResult result
        (λ outcome. CameTo (record { tally = outcome.tally; blocks = outcome.blocks })
        (churned seed steps (M.state machine.old).table) (M.state machine.old) (M.state machine.new))
        (λ halt. HaltMeans halt (churned seed steps (M.state machine.old).table) (M.state machine.old) (M.state machine.new)) }
{
    let mut script = Churn::new(seed, steps);
    let mut reply = ReplyBuffer::new(alloc);
    let tally = carry_out(machine, &mut script, &mut reply)?;
    let blocks = blocks(machine, tally.lines, &mut reply)?;
    Ok(Outcome { tally, blocks })
}

/// Ends a run by the summary.
fn end_told<K: Sink>(sink: &mut K, seed: u64, steps: u32, outcome: Outcome) -> Status
    ensures { Closed result Status.Done (summary_line seed steps outcome.tally outcome.blocks)
        (K.state sink.old) (K.state sink.new) }
{
    let Outcome { tally, blocks } = outcome;
    end_by(
        sink,
        &[
            Part::Text(b"churn seed="),
            Part::Number(seed),
            Part::Text(b" steps="),
            Part::Number(u64::from(steps)),
            Part::Text(b" lines="),
            Part::Number(tally.lines),
            Part::Text(b" ok="),
            Part::Number(tally.ok),
            Part::Text(b" errors="),
            Part::Number(tally.errors),
            Part::Text(b" read="),
            Part::Number(tally.read),
            Part::Text(b" blocks="),
            Part::Number(blocks),
            Part::Text(b"\n"),
        ],
        Status::Done,
    )
}

/// Carries out the script that is made from a seed, of so many steps, and writes one line: what its replies add up to,
/// and how many blocks the eight files have in the end.
///
/// No reply is written. The status is `Done` where the sums are told, and `Script` where a line is outside the grammar,
/// which is told by its number and column. It is `Memory` where that is wanting for the reply of a line, since the longest
/// one is kept while the script is carried out, or for what the machine's own lines take; `HostFault` where the host fails
/// in a line; and `WriteFault` where the sink fails in the one line that is written.
pub fn churn<M: Machine, K: Sink>(
    alloc: Global,
    machine: &mut M,
    seed: u64,
    steps: u32,
    sink: &mut K,
) -> Status
    requires most { steps ≤ MOST_STEPS }
    requires goes_on { (M.state machine.old).over ≡ false }
    requires told { (M.state machine.old).table.world.truth.told ≡ true }
    requires few { (M.state machine.old).steps < 2 ^ 61 }
    ensures { Churns seed steps result
        (state_of (M.state machine.old) (K.state sink.old)) (state_of (M.state machine.new) (K.state sink.new)) }
{
    match run_script(alloc, machine, seed, steps) {
        Ok(outcome) => end_told(sink, seed, steps, outcome),
        Err(Halt::Ended(ending)) => end_by_script(sink, ending),
        Err(Halt::Broken(number)) => end_broken(sink, number),
        Err(Halt::Starved) => end_starved(sink),
    }
}
