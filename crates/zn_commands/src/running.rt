// The run of a script on the device that lies in a directory.
ghost use Rattle.std.specs.Prelude.{◌≡◌, ◌≤◌, ◌<◌, ◌^◌, length, false, option_copied, IfOk, IfErr, IfSome};
ghost use Rattle.zn_run.specs.States.{run_of};
ghost use Rattle.zn_files.specs.States.{FilesState};
ghost use Rattle.zn_session.specs.SessionState.{machine_of};
ghost use Rattle.zn_zloop.specs.Opening.{Opened};
ghost use Rattle.zn_commands.specs.LineZero.{line_zero, RunsBehind};
ghost use Rattle.zn_commands.specs.Outside.{outside_of};
ghost use Rattle.zn_commands.specs.Running.{opened_machine, LiesBelow, Runs, RunningCauses, RunsWhole};

use crate::devices::give_back;
use crate::ended::Ended;
use crate::lines::end_shut;
use std::alloc::Global;
use zn_base::{Sink, Source};
use zn_device::{Injects, Zoned};
use zn_fault::Faulty;
use zn_files::Files;
use zn_lines::LINE_LIMIT;
use zn_run::{Status, Step, end_broken, end_starved, run};
use zn_script::Line;
use zn_session::Session;
use zn_zloop::{OpenFail, Zloop};

/// The longest options of a run, in bytes: the line that mounts by them is a line of a script.
pub const MOST_OPTIONS: usize = LINE_LIMIT - 6;

/// Carries out line 0, if there is one, and then the script that the source gives.
fn run_behind<D: Injects + Drop, S: Source, K: Sink>(
    alloc: Global,
    session: &mut Session<D>,
    options: Option<&str>,
    source: &mut S,
    sink: &mut K,
) -> Status
    requires short { IfSome options (λ text. length text.now ≤ MOST_OPTIONS) }
    requires goes_on { session.old.over ≡ false }
    requires few { session.old.steps < 2 ^ 60 }
    ensures { RunsBehind (line_zero (option_copied options.entry)) result
        (run_of (machine_of session.old) (S.state source.old) (K.state sink.old))
        (run_of (machine_of session.new) (S.state source.new) (K.state sink.new)) }
{
    if let Some(text) = options {
        match session.carry_out(&Line::Mount(Some(text)), sink) {
            Step::Done => {}
            Step::Broken => return end_broken(sink, 0),
            Step::SinkFault => return Status::WriteFault,
            Step::Memory => return end_starved(sink),
            Step::BadLine(_) => unreachable!(),
        }
    }
    run(alloc, session, source, sink)
}

/// A session on a device that was opened, or, for want of memory, the device as it was.
fn session_on<F: Files + Drop>(
    alloc: Global,
    device: Zloop<F>,
    entropy: [u8; 16],
) -> Result<Session<Faulty<Zloop<F>>>, Zloop<F>>
    requires unspoilt { (⟦<Zloop<F> as Zoned>⟧.state device).spoilt ≡ false }
    ensures begun { IfOk result (λ s. machine_of s ≡ opened_machine (⟦<Zloop<F> as Zoned>⟧.state device) entropy) }
    ensures same { IfErr result (λ left. ⟦<Zloop<F> as Zoned>⟧.state left ≡ ⟦<Zloop<F> as Zoned>⟧.state device) }
{
    let device = match Faulty::new(alloc, device) {
        Ok(device) => device,
        Err(fail) => return Err(fail.dev),
    };
    match Session::new(alloc, device, entropy) {
        Ok(session) => Ok(session),
        Err(fail) => Err(fail.dev.into_inner()),
    }
}

/// Gives the directory of a session's device back, as it is.
fn files_of<F: Files + Drop>(session: Session<Faulty<Zloop<F>>>) -> F
    ensures { LiesBelow (machine_of session) (F.state result) }
{
    give_back(session.into_device().into_inner())
}

/// Runs a script on a device that was opened.
fn run_opened<F: Files + Drop, S: Source, K: Sink>(
    alloc: Global,
    options: Option<&str>,
    entropy: [u8; 16],
    device: Zloop<F>,
    source: &mut S,
    sink: &mut K,
) -> Ended<F>
    requires short { IfSome options (λ text. length text.now ≤ MOST_OPTIONS) }
    requires unspoilt { (⟦<Zloop<F> as Zoned>⟧.state device).spoilt ≡ false }
    ensures { (old : FilesState) (files : FilesState) → Opened (⟦<Zloop<F> as Zoned>⟧.state device) old files →
        Runs (option_copied options.entry) entropy result.status
        (outside_of old (S.state source.old) (K.state sink.old))
        (outside_of (F.state result.files) (S.state source.new) (K.state sink.new)) }
{
    match session_on(alloc, device, entropy) {
        Ok(mut session) => {
            let status = run_behind(alloc, &mut session, options, source, sink);
            Ended {
                status,
                files: files_of(session),
            }
        }
        Err(device) => Ended {
            status: end_starved(sink),
            files: give_back(device),
        },
    }
}

/// Opens a directory as a device, and runs a script on it.
fn open_and_run<F: Files + Drop, S: Source, K: Sink>(
    alloc: Global,
    options: Option<&str>,
    entropy: [u8; 16],
    files: F,
    source: &mut S,
    sink: &mut K,
) -> Ended<F>
    requires short { IfSome options (λ text. length text.now ≤ MOST_OPTIONS) }
    ensures { Runs (option_copied options.entry) entropy result.status
        (outside_of (F.state files) (S.state source.old) (K.state sink.old))
        (outside_of (F.state result.files) (S.state source.new) (K.state sink.new)) }
{
    match Zloop::open(alloc, files) {
        Ok(device) => run_opened(alloc, options, entropy, device, source, sink),
        Err(OpenFail { files, why }) => {
            let status = end_shut(sink, &why);
            Ended { status, files }
        }
    }
}

/// Runs a script on the device that a directory is. Line 0 mounts it by the options, if some are given.
///
/// The replies of the lines are written, and a last line: `Done` and none where the script was read to its end;
/// `Script` and the line where it ended the run; `Directory` and an `error` line where the directory is no device, of
/// which nothing is read; `HostFault` and the line in which a call on a file failed, which has no reply; `ReadFault`
/// where the script couldn't be read on; `Memory` and `out-of-memory`; and `WriteFault` where the sink failed. The
/// directory is given back as the run left it.
pub fn run_device<F: Files + Drop, S: Source, K: Sink>(
    alloc: Global,
    options: Option<&str>,
    entropy: [u8; 16],
    files: F,
    source: &mut S,
    sink: &mut K,
) -> Ended<F>
    requires short { IfSome options (λ text. length text.now ≤ MOST_OPTIONS) }
    ensures runs { Runs (option_copied options.entry) entropy result.status
        (outside_of (F.state files) (S.state source.old) (K.state sink.old))
        (outside_of (F.state result.files) (S.state source.new) (K.state sink.new)) }
    ensures causes { RunningCauses result.status
        (outside_of (F.state files) (S.state source.old) (K.state sink.old))
        (outside_of (F.state result.files) (S.state source.new) (K.state sink.new)) }
    ensures whole { RunsWhole (option_copied options.entry) entropy result.status
        (outside_of (F.state files) (S.state source.old) (K.state sink.old))
        (outside_of (F.state result.files) (S.state source.new) (K.state sink.new)) }
{
    open_and_run(alloc, options, entropy, files, source, sink)
}
