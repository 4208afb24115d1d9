// What the zones of the device within lose as the power goes.
ghost use Rattle.std.specs.Prelude.{◌≡◌, ◌<◌, min, max, length, false, IfOk, if◌then◌else◌, not};
ghost use Rattle.zn_truth.specs.Power.{lost};
ghost use Rattle.zn_truth.specs.World.{geometry_of};
ghost use Rattle.zn_truth.specs.Obeying.{IsZoneToManage};
ghost use Rattle.zn_device.specs.Harms.{Harmed};
ghost use Rattle.zn_fault.specs.Losses.{lost_at, is_bad_loss};
ghost use Rattle.zn_fault.specs.Strikes.{without_value};

use crate::asked::{clamped, info_of};
use crate::cuts::{cut_of, is_bad_loss};
use zn_device::Harm;
use zn_truth::{DevError, Kind, LossSpec, ZoneNo};

/// A sequential zone is settled at its stated length, or at its durable one.
fn lose_end<D: Harm>(dev: &mut D, z: ZoneNo, loss: &LossSpec) -> Result<(), DevError>
    requires zone { IsZoneToManage (geometry_of (D.state dev.old).world) z.0 }
    requires unspoilt { (D.state dev.old).spoilt ≡ false }
    ensures { Harmed (lost_at (D.state dev.old).world.truth z.0 loss.now) result (D.state dev.old) (D.state dev.new) }
{
    let held = info_of(dev, z)?.held;
    let durable = dev.durable(z);
    let cut = cut_of(&loss.cuts, z).unwrap_or(durable);
    dev.settle(z, durable, clamped(cut, durable, held), loss.fill)
}

/// A zone loses what isn't durable, but for what the loss leaves of it.
fn lose_zone<D: Harm>(dev: &mut D, z: ZoneNo, loss: &LossSpec) -> Result<(), DevError>
    requires zone { z.0 < length (geometry_of (D.state dev.old).world).kinds }
    requires unspoilt { (D.state dev.old).spoilt ≡ false }
    ensures { Harmed (lost_at (D.state dev.old).world.truth z.0 loss.now) result (D.state dev.old) (D.state dev.new) }
{
    match dev.kind(z) {
        Kind::Conventional => dev.scrub(z, loss.fill),
        Kind::Sequential => lose_end(dev, z, loss),
    }
}

/// All zones lose what isn't durable, one after another, and are closed.
pub fn lose_zones<D: Harm>(dev: &mut D, loss: &LossSpec) -> Result<(), DevError>
    requires { (D.state dev.old).spoilt ≡ false }
    ensures { Harmed (lost (D.state dev.old).world.truth loss.now) result (D.state dev.old) (D.state dev.new) }
{
    for z in 0..dev.zones() {
        lose_zone(dev, ZoneNo(z), loss)?;
    }
    dev.rest();
    Ok(())
}

/// The zones lose what isn't durable, unless the loss is refused. Tells whether they did.
pub fn lose<D: Harm>(dev: &mut D, loss: &LossSpec) -> Result<bool, DevError>
    requires { (D.state dev.old).spoilt ≡ false }
    ensures value { IfOk result (λ done. done ≡ not (is_bad_loss (D.state dev.old).world.truth loss.now)) }
    ensures harmed { let t = (D.state dev.old).world.truth in
        Harmed (if is_bad_loss t loss.now then t else lost t loss.now) (without_value result)
        (D.state dev.old) (D.state dev.new) }
{
    if is_bad_loss(dev, loss)? {
        return Ok(false);
    }
    lose_zones(dev, loss)?;
    Ok(true)
}
