// A turn of condition of the device within.
ghost use Rattle.std.specs.Prelude.{◌≡◌, false};
ghost use Rattle.zn_truth.specs.Inject.{turn};
ghost use Rattle.zn_device.specs.Harms.{Injecting};
ghost use Rattle.zn_fault.specs.Turns.{harm_error, harm_reply};

use crate::asked::{info_of, is_zone};
use crate::refused::is_no_worse;
use zn_device::Harm;
use zn_truth::{Cond, DevError, InjectError, ZoneNo};

/// Want of memory by its name, and all else as a break: no harm meets another error.
pub fn harm_error(error: DevError) -> InjectError
    ensures { result ≡ harm_error error }
{
    match error {
        DevError::Memory => InjectError::Memory,
        _ => InjectError::Broken,
    }
}

/// The same of an answer.
fn harm_reply(reply: Result<(), DevError>) -> Result<(), InjectError>
    ensures { result ≡ harm_reply reply }
{
    match reply {
        Ok(()) => Ok(()),
        Err(error) => Err(harm_error(error)),
    }
}

/// Turns a zone to a worse condition.
#[tactic(auto, using(crate::proofs::Turning::past_turn, crate::proofs::Turning::no_worse_turn, crate::proofs::Turning::unasked_turn))]
pub fn turn<D: Harm>(dev: &mut D, z: ZoneNo, to: Cond) -> Result<(), InjectError>
    requires { (D.state dev.old).spoilt ≡ false }
    ensures { Injecting (turn (D.state dev.old).world z.0 to) result (D.state dev.old) (D.state dev.new) }
{
    if !is_zone(dev, z) {
        return Err(InjectError::BadFault);
    }
    let info = match info_of(dev, z) {
        Ok(info) => info,
        Err(error) => return Err(harm_error(error)),
    };
    if is_no_worse(info.cond, to) {
        return Err(InjectError::BadFault);
    }
    harm_reply(dev.turn(z, to))
}
