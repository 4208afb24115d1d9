// A device in a directory.
ghost use Rattle.zn_commands.specs.Devices.{LiesIn};

use zn_device::Zoned;
use zn_files::Files;
use zn_zloop::Zloop;

/// The directory of a device, as it is. No call is made on it.
pub fn give_back<F: Files>(device: Zloop<F>) -> F
    ensures { LiesIn (⟦<Zloop<F> as Zoned>⟧.state device) (F.state result) }
{
    device.into_files()
}
