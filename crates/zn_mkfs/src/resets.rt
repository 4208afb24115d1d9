// The resets of the other zones.
ghost use Rattle.std.specs.Prelude.{◌≡◌, ◌<◌, length, false};
ghost use Rattle.zn_truth.specs.World.{geometry_of};
ghost use Rattle.zn_device.specs.States.{Ordered};
ghost use Rattle.zn_mkfs.specs.Plans.{is_emptied, reset_of, resets_below};

use crate::looks::is_good;
use zn_device::Zoned;
use zn_truth::{DevError, Kind, ZoneInfo, ZoneNo, ZoneOp};

/// Whether a format resets a zone: a sequential one other than zone 0 that is good.
fn is_emptied<D: Zoned>(dev: &D, infos: &[ZoneInfo], z: u32) -> bool
    requires zones { length infos.now ≡ length (geometry_of (D.state dev.now).world).kinds }
    requires zone { z < length infos.now }
    ensures { result ≡ is_emptied (geometry_of (D.state dev.now).world) infos.now z }
{
    0 < z && matches!(dev.kind(ZoneNo(z)), Kind::Sequential) && is_good(infos[z as usize].cond)
}

/// Resets a zone, if it is such a one.
fn reset_other<D: Zoned>(dev: &mut D, infos: &[ZoneInfo], z: u32) -> Result<(), DevError>
    requires zones { length infos.now ≡ length (geometry_of (D.state dev.old).world).kinds }
    requires zone { z < length infos.now }
    requires unspoilt { (D.state dev.old).spoilt ≡ false }
    ensures done { Ordered (reset_of (geometry_of (D.state dev.old).world) infos.now z) result
        (D.state dev.old) (D.state dev.new) }
{
    if is_emptied(dev, infos, z) {
        dev.manage(ZoneNo(z), ZoneOp::Reset)
    } else {
        Ok(())
    }
}

/// Resets all such zones, in rising order, up to the first reset that fails.
pub(crate) fn reset_others<D: Zoned>(dev: &mut D, infos: &[ZoneInfo]) -> Result<(), DevError>
    requires zones { length infos.now ≡ length (geometry_of (D.state dev.old).world).kinds }
    requires unspoilt { (D.state dev.old).spoilt ≡ false }
    ensures done { Ordered (resets_below (geometry_of (D.state dev.old).world) infos.now (length infos.now)) result
        (D.state dev.old) (D.state dev.new) }
{
    for z in 0..dev.zones() {
        reset_other(dev, infos, z)?;
    }
    Ok(())
}
