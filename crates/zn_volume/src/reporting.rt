// Reports of all zones of a device.
ghost use Rattle.std.specs.Prelude.{◌≡◌, length, false};
ghost use Rattle.zn_truth.specs.World.{geometry_of};
ghost use Rattle.zn_volume.specs.Reports.{as_told, Reports};

use crate::commands::report_zones;
use crate::volume::refusal;
use zn_device::Zoned;
use zn_model::Refusal;
use zn_truth::{DevError, ZoneInfo};

/// A reply of the device, as it is told where no recovery follows.
fn told_alone(reply: Result<(), DevError>) -> Result<(), Refusal>
    ensures { result ≡ as_told reply }
{
    match reply {
        Ok(()) => Ok(()),
        Err(error) => Err(refusal(error)),
    }
}

/// Tells what each zone of a device is, by one report of all zones, mounted or not. It takes no memory. Where it is
/// refused, nothing is said of `out`.
///
/// A failed command is told as `IoError`, `PowerLost`, `Broken` or `Memory`.
pub fn report<D: Zoned>(dev: &mut D, out: &mut [ZoneInfo]) -> Result<(), Refusal>
    requires places { length out.old ≡ length (geometry_of (D.state dev.old).world).kinds }
    requires unspoilt { (D.state dev.old).spoilt ≡ false }
    ensures { Reports result out.new (D.state dev.old) (D.state dev.new) }
{
    told_alone(report_zones(dev, out))
}
