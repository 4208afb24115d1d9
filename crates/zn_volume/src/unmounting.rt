// Unmounts.
ghost use Rattle.std.specs.Prelude.{◌≡◌, Some, None, IfOk, IfErr, OnOk};
ghost use Rattle.zn_model.specs.Mounting.{unmount_refusal as refusal_of_unmount};
ghost use Rattle.zn_volume.specs.VolumeState.{mounted_in};

use crate::volume::Volume;
use zn_device::Zoned;
use zn_model::Refusal;

/// A volume that could not be unmounted, as it was, and why.
#[derive(Drop)]
pub struct UnmountFail<D: Zoned + Drop> {
    pub vol: Volume<D>,
    pub why: Refusal,
}

impl<D: Zoned + Drop> Volume<D> {
    /// What refuses an unmount.
    #[tactic(auto, unfolding(zn_model::specs::Mounting::unmount_refusal))]
    fn unmount_refusal(&self) -> Option<Refusal>
        ensures { result ≡ refusal_of_unmount (mounted_in self.now) }
    {
        if !self.dev.powered() {
            Some(Refusal::PowerLost)
        } else if self.handles.live() > 0 {
            Some(Refusal::Busy)
        } else {
            None
        }
    }

    /// Unmounts a volume, and gives the device back as it is. No command is issued, and outcomes that weren't reaped are
    /// dropped.
    ///
    /// Refused as `PowerLost` without power, and as `Busy` where a handle is open; then the volume stays as it was.
    pub fn unmount(self) -> Result<D, UnmountFail<D>>
        ensures passed { OnOk result (refusal_of_unmount (mounted_in self) ≡ None) }
        ensures device { IfOk result (λ dev. D.state dev ≡ self.device) }
        ensures refused { IfErr result (λ fail. refusal_of_unmount (mounted_in self) ≡ Some fail.why) }
        ensures unchanged { IfErr result (λ fail. fail.vol ≡ self) }
    {
        match self.unmount_refusal() {
            Some(why) => Err(UnmountFail { vol: self, why }),
            None => Ok(self.into_device()),
        }
    }
}
