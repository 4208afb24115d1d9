// A device that doesn't tell its bytes.
ghost use Rattle.zn_truth.proofs.Hushed.{sound_hushed, within_hushed};
ghost use Rattle.zn_device.specs.Quiet.{hushed_state};

use crate::{Injects, Zoned};
use zn_truth::{
    Command, Cond, DevError, FaultSpec, InjectError, Kind, LossSpec, Shape, ZoneInfo, ZoneNo,
    ZoneOp,
};

/// A device that does what the one within does, and doesn't tell its bytes.
#[derive(Drop)]
pub struct Quiet<D: Zoned + Drop> {
    pub dev: D,
}

#[tactic(auto, using(crate::proofs::Quieted::commanded_hushed, zn_truth::proofs::Hushed::geometry_hushed, zn_truth::proofs::Hushed::infos_hushed))]
impl<D: Zoned + Drop> Zoned for Quiet<D> {
    ghost state = { λ q. hushed_state (D.state q.dev) };

    ghost is_sound = { λ q. sound_hushed _ (D.is_sound q.dev) };

    ghost is_within = { λ q. within_hushed _ (D.is_within q.dev) };

    fn zones(&self) -> u32 {
        self.dev.zones()
    }

    fn shape(&self) -> Shape {
        self.dev.shape()
    }

    fn kind(&self, z: ZoneNo) -> Kind {
        self.dev.kind(z)
    }

    fn report(&mut self, first: ZoneNo, out: &mut [ZoneInfo]) -> Result<(), DevError> {
        self.dev.report(first, out)
    }

    fn read(&mut self, z: ZoneNo, at: u32, out: &mut [u8]) -> Result<(), DevError> {
        self.dev.read(z, at, out)
    }

    fn write(&mut self, z: ZoneNo, at: u32, bytes: &[u8]) -> Result<(), DevError> {
        self.dev.write(z, at, bytes)
    }

    fn manage(&mut self, z: ZoneNo, op: ZoneOp) -> Result<(), DevError> {
        self.dev.manage(z, op)
    }

    fn flush(&mut self) -> Result<(), DevError> {
        self.dev.flush()
    }

    fn powered(&self) -> bool {
        self.dev.powered()
    }

    fn faults(&self) -> u64 {
        self.dev.faults()
    }

    fn breaks(&self) -> u64 {
        self.dev.breaks()
    }
}

impl<D: Injects + Drop> Injects for Quiet<D> {
    #[tactic(auto, using(crate::proofs::Quieted::waits_hushed, crate::proofs::Quieted::waiting_hushed))]
    fn inject(&mut self, fault: FaultSpec) -> Result<(), InjectError> {
        self.dev.inject(fault)
    }

    #[tactic(auto, using(crate::proofs::Quieted::turning_hushed))]
    fn turn(&mut self, z: ZoneNo, to: Cond) -> Result<(), InjectError> {
        self.dev.turn(z, to)
    }

    #[tactic(auto, using(crate::proofs::Quieted::losing_hushed))]
    fn lose_power(&mut self, loss: &LossSpec) -> Result<(), InjectError> {
        self.dev.lose_power(loss)
    }

    #[tactic(auto, using(crate::proofs::Quieted::armed_hushed, crate::proofs::Quieted::arming_hushed))]
    fn arm_loss(
        &mut self,
        z: ZoneNo,
        command: Command,
        done: bool,
        loss: &LossSpec,
    ) -> Result<(), InjectError> {
        self.dev.arm_loss(z, command, done, loss)
    }

    #[tactic(auto, using(crate::proofs::Quieted::powering_hushed))]
    fn power_on(&mut self) {
        self.dev.power_on()
    }
}
