// What refuses a fault, a turn of condition, or a loss that is to wait.
ghost use Rattle.std.specs.Prelude.{◌≡◌, ◌&&◌, ◌||◌, not, is_some, nat_le};
ghost use Rattle.zn_truth.specs.Inject.{are_bad_cuts, is_bad_fault, is_misplaced, is_done_or_not, manages, may_keep, severity};

use crate::armed::Waiting;
use crate::asked::is_zone;
use crate::cuts::are_bad_cuts;
use zn_device::Zoned;
use zn_truth::{Command, Cond, Cuts, FaultSpec, Kind, ZoneNo};

/// Whether the command manages a zone, which a conventional one doesn't take.
fn manages(command: Command) -> bool
    ensures { result ≡ manages command }
{
    match command {
        Command::Reset | Command::Finish | Command::Open | Command::Close => true,
        Command::Read | Command::Write | Command::Flush | Command::Report => false,
    }
}

/// Whether the command may be done in part.
fn may_keep(command: Command) -> bool
    ensures { result ≡ may_keep command }
{
    match command {
        Command::Write | Command::Flush => true,
        Command::Read
        | Command::Reset
        | Command::Finish
        | Command::Open
        | Command::Close
        | Command::Report => false,
    }
}

/// Whether the command is done or not done where the power goes inside it.
fn is_done_or_not(command: Command) -> bool
    ensures { result ≡ is_done_or_not command }
{
    match command {
        Command::Reset | Command::Finish => true,
        Command::Read
        | Command::Write
        | Command::Flush
        | Command::Open
        | Command::Close
        | Command::Report => false,
    }
}

/// Whether a command of this kind can't come on this zone.
#[tactic(auto, using(zn_truth::proofs::Issuing::kind_is))]
fn is_misplaced<D: Zoned>(dev: &D, z: ZoneNo, command: Command) -> bool
    ensures { result ≡ is_misplaced (D.state dev.now).world.truth z.0 command }
{
    !is_zone(dev, z) || (manages(command) && dev.kind(z) == Kind::Conventional)
}

/// Whether the fault is on a command that can't come on its zone, or keeps blocks of one that isn't done in part.
pub fn is_bad_fault<D: Zoned>(dev: &D, fault: &FaultSpec) -> bool
    ensures { result ≡ is_bad_fault (D.state dev.now).world.truth fault.now }
{
    is_misplaced(dev, fault.zone, fault.command)
        || (fault.keep.is_some() && !may_keep(fault.command))
}

/// Whether a zone of the one condition can't turn to the other.
pub fn is_no_worse(from: Cond, to: Cond) -> bool
    ensures { result ≡ nat_le (severity to) (severity from) }
{
    to <= from
}

/// Whether a loss can't wait for the command: that can't come on the zone, a cut is bad, `done` is said of a command that
/// is neither a reset nor a finish, or a loss waits already.
pub fn is_bad_arm<D: Zoned>(
    dev: &D,
    armed: &Waiting,
    z: ZoneNo,
    command: Command,
    done: bool,
    cuts: &Cuts,
) -> bool
    ensures { let t = (D.state dev.now).world.truth in
        result ≡ (is_misplaced t z.0 command || are_bad_cuts t cuts.now || (done && not (is_done_or_not command))
        || is_some armed.now) }
{
    is_misplaced(dev, z, command)
        || are_bad_cuts(dev, cuts)
        || (done && !is_done_or_not(command))
        || armed.is_some()
}
