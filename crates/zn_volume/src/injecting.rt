// Scripted faults, turns of condition, and losses and return of power on a mounted device.
ghost use Rattle.std.specs.Prelude.{◌≡◌, false};
ghost use Rattle.zn_truth.specs.declared.Armed.{Armed};
ghost use Rattle.zn_truth.specs.Inject.{inject as injected, turn as turned_by, lose_power as lost_by};
ghost use Rattle.zn_truth.specs.Inject.{arm_loss as armed_by, power_on as powered_on};
ghost use Rattle.zn_device.specs.Harms.{Injecting};

use crate::volume::Volume;
use zn_device::Injects;
use zn_truth::{Command, Cond, FaultSpec, InjectError, LossSpec, ZoneNo};

impl<D: Injects + Drop> Volume<D> {
    /// A fault waits for its command, behind those that wait. No command is issued, and no file changes.
    ///
    /// Refused as `BadFault` for a zone that isn't there, for a command that manages zones on a conventional one, and
    /// for blocks that are kept by a command other than a write or a flush; then as `TooManyFaults` where 64 wait.
    pub fn inject(&mut self, fault: FaultSpec) -> Result<(), InjectError>
        ensures reply { result ≡ (injected self.old.device.world fault).reply }
        ensures waits { let world = (injected self.old.device.world fault).world in
            self.new ≡ record self.old { device = record self.old.device { world = world } } }
    {
        self.dev.inject(fault)
    }

    /// A zone turns to a worse condition: all that it holds is durable and it is closed, or, offline, it holds nothing.
    /// No file changes before a command fails on it.
    ///
    /// Refused as `PowerLost` without power, and as `BadFault` for a zone that isn't there, or for a condition that is
    /// no worse. `Broken` and `Memory` are the device's; after these two no call may follow.
    pub fn turn(&mut self, z: ZoneNo, to: Cond) -> Result<(), InjectError>
        requires unspoilt { self.old.device.spoilt ≡ false }
        ensures turned { Injecting (turned_by self.old.device.world z.0 to) result self.old.device self.new.device }
        ensures volume { self.new.volume ≡ self.old.volume }
    {
        self.dev.turn(z, to)
    }

    /// The power goes: each sequential zone is cut to its stated length, or to what of it is durable, and what was not
    /// durable is filled where a byte is given. No file changes; from now on each call is refused as `PowerLost`, but
    /// `change` and `place`.
    ///
    /// Refused as `PowerLost` without power, and as `BadFault` for a cut of a zone that isn't there, is conventional or
    /// is named twice, or to a length that isn't between what is durable and what is held. `Broken` and `Memory` are
    /// the device's, and the power stays on; after these two no call may follow.
    pub fn lose_power(&mut self, loss: &LossSpec) -> Result<(), InjectError>
        requires unspoilt { self.old.device.spoilt ≡ false }
        ensures lost { Injecting (lost_by self.old.device.world loss.now) result self.old.device self.new.device }
        ensures volume { self.new.volume ≡ self.old.volume }
    {
        self.dev.lose_power(loss)
    }

    /// A loss of power waits for a command. No command is issued, and no file changes.
    ///
    /// Refused as `BadFault` for a zone that isn't there, for a command that manages zones on a conventional one, for a
    /// cut of a zone that isn't there, is conventional or is named twice, for a command other than a reset or finish
    /// that is to be carried out first, and where a loss waits already.
    pub fn arm_loss(
        &mut self,
        z: ZoneNo,
        command: Command,
        done: bool,
        loss: &LossSpec,
    ) -> Result<(), InjectError>
        ensures reply { let waits : Armed =
            record { zone = z; command = command; carried_out = done; loss = loss.now } in
            result ≡ (armed_by self.old.device.world waits).reply }
        ensures waits { let waits : Armed =
            record { zone = z; command = command; carried_out = done; loss = loss.now } in
            let world = (armed_by self.old.device.world waits).world in
            self.new ≡ record self.old { device = record self.old.device { world = world } } }
    {
        self.dev.arm_loss(z, command, done, loss)
    }

    /// The power comes back, and nothing else changes; nor does anything where it is on.
    pub fn power_on(&mut self)
        ensures { let device = self.old.device in
            self.new ≡ record self.old { device = record device { world = powered_on device.world } } }
    {
        self.dev.power_on();
    }
}
