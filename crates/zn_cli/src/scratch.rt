// The run of a script on a new device in memory.
ghost use Rattle.std.specs.Prelude.{◌≡◌, ◌<◌, ◌^◌, true, false, IfOk};
ghost use Rattle.zn_lines.specs.Scratch.{scratch_lines};
ghost use Rattle.zn_session.specs.SessionState.{machine_of, table_in};
ghost use Rattle.zn_words.specs.CommandsMeant.{IsWithin};
ghost use Rattle.zn_cli.specs.Scratch.{scratch_machine, CarriesOn};
ghost use Rattle.zn_cli.specs.Top.{ScratchRuns, streams_of};

use crate::device::device;
use std::alloc::{AllocError, Global};
use zn_base::{Sink, Source};
use zn_device::MemDevice;
use zn_fault::Faulty;
use zn_lines::Scratch;
use zn_model::{Mode, Who};
use zn_run::{Status, end_starved, run};
use zn_script::{FormatWords, Line};
use zn_session::Session;

/// A device in memory never breaks, and its commands take no memory.
pub(crate) fn never_breaks(session: &Session<Faulty<MemDevice>>)
    ensures whole { session.now.held.device.breaks ≡ 0 }
    ensures memory { session.now.held.device.takes_memory ≡ false }
{
    session.device();
}

/// Formats the device with the defaults, mounts it, and opens `seq/0` by number 0 where that is there. It answers
/// whether all of this was done: not where memory is wanting.
fn begin(session: &mut Session<Faulty<MemDevice>>) -> bool
    requires goes_on { session.old.over ≡ false }
    requires few { session.old.steps < 2 ^ 61 }
    ensures { result ≡ true → (table_in session.old).world.truth.told ≡ true
        → CarriesOn scratch_lines session.old session.new }
{
    let nothing = FormatWords {
        force: false,
        label: None,
        uuid: None,
        features: None,
    };
    let root = Who { uid: 0, gid: 0 };
    if !session.perform(&Line::Mkfs(nothing)) {
        return false;
    }
    if !session.perform(&Line::Mount(None)) {
        return false;
    }
    session.perform(&Line::Open(0, "seq/0", Mode::READ_WRITE, root))
}

/// A session on a new device in memory, formatted and mounted, with `seq/0` open by number 0 where that is there.
pub(crate) fn session(
    alloc: Global,
    scratch: Scratch,
    entropy: [u8; 16],
) -> Result<Session<Faulty<MemDevice>>, AllocError>
    requires { IsWithin scratch }
    ensures { IfOk result (λ s. machine_of s ≡ scratch_machine scratch entropy) }
{
    let device = device(alloc, scratch)?;
    let Ok(mut session) = Session::new(alloc, device, entropy) else {
        return Err(AllocError);
    };
    let begun = begin(&mut session);
    never_breaks(&session);
    session.sound();
    if begun { Ok(session) } else { Err(AllocError) }
}

/// Carries out the script that a source gives, on a new device in memory.
pub fn run_scratch<S: Source, K: Sink>(
    alloc: Global,
    scratch: Scratch,
    entropy: [u8; 16],
    source: &mut S,
    sink: &mut K,
) -> Status
    requires { IsWithin scratch }
    ensures { ScratchRuns scratch entropy result
        (streams_of (S.state source.old) (K.state sink.old)) (streams_of (S.state source.new) (K.state sink.new)) }
{
    match session(alloc, scratch, entropy) {
        Ok(mut session) => {
            let status = run(alloc, &mut session, source, sink);
            never_breaks(&session);
            status
        }
        Err(_) => end_starved(sink),
    }
}
