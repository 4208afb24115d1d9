// Devices that can be harmed from outside, and devices that are harmed by a script.
ghost use Rattle.std.specs.Prelude.{◌≡◌, ◌<◌, ◌≤◌, length, false};
ghost use Rattle.zn_truth.specs.declared.Kind.TheVariants.{Conventional};
ghost use Rattle.zn_truth.specs.Truth.{zone_at, with_zone, kind_at};
ghost use Rattle.zn_truth.specs.Loss.{turned};
ghost use Rattle.zn_truth.specs.Power.{settled};
ghost use Rattle.zn_truth.specs.World.{calm, geometry_of};
ghost use Rattle.zn_truth.specs.Inject.{severity, inject, turn, lose_power, arm_loss, power_on};
ghost use Rattle.zn_truth.specs.Obeying.{IsZoneToManage};
ghost use Rattle.zn_device.specs.Harms.{Harmed, Injecting, scrubbed, rested};

use crate::Zoned;
use zn_truth::{Command, Cond, DevError, FaultSpec, InjectError, LossSpec, ZoneNo};

/// A device with power and without faults of its own, which can be harmed from outside. Only `Broken` and `Memory`
/// keep a harm from being done; after these two no command may follow.
pub trait Harm: Zoned {
    /// The durable length of a zone, in blocks.
    fn durable(&self, z: ZoneNo) -> u32
        requires { z.0 < length (geometry_of (Self.state self.now).world).kinds }
        ensures { result ≡ (zone_at (Self.state self.now).world.truth z.0).durable };

    /// A zone turns to a worse condition: all that it holds is durable and it is closed, or, offline, it holds nothing.
    fn turn(&mut self, z: ZoneNo, to: Cond) -> Result<(), DevError>
        requires zone { z.0 < length (geometry_of (Self.state self.old).world).kinds }
        requires worse { severity (zone_at (Self.state self.old).world.truth z.0).cond < severity to }
        requires unspoilt { (Self.state self.old).spoilt ≡ false }
        ensures { Harmed (turned (Self.state self.old).world.truth z.0 to) result
            (Self.state self.old) (Self.state self.new) };

    /// A sequential zone holds `len` blocks of those that it held. Where a byte is given, it takes the place of each
    /// byte from block `from` on. All that the zone holds is durable.
    fn settle(&mut self, z: ZoneNo, from: u32, len: u32, fill: Option<u8>) -> Result<(), DevError>
        requires zone { IsZoneToManage (geometry_of (Self.state self.old).world) z.0 }
        requires from { (zone_at (Self.state self.old).world.truth z.0).durable ≤ from }
        requires order { from ≤ len }
        requires len { len ≤ (zone_at (Self.state self.old).world.truth z.0).held }
        requires unspoilt { (Self.state self.old).spoilt ≡ false }
        ensures { let t = (Self.state self.old).world.truth in
            Harmed (with_zone t z.0 (settled (zone_at t z.0) from len fill)) result
            (Self.state self.old) (Self.state self.new) };

    /// Where a byte is given, it takes the place of each byte of the unflushed blocks of a conventional zone. None is
    /// unflushed any more.
    fn scrub(&mut self, z: ZoneNo, fill: Option<u8>) -> Result<(), DevError>
        requires zone { z.0 < length (geometry_of (Self.state self.old).world).kinds }
        requires kind { kind_at (geometry_of (Self.state self.old).world) z.0 ≡ Conventional }
        requires unspoilt { (Self.state self.old).spoilt ≡ false }
        ensures { let t = (Self.state self.old).world.truth in
            Harmed (with_zone t z.0 (scrubbed (zone_at t z.0) fill)) result
            (Self.state self.old) (Self.state self.new) };

    /// No zone is open any more. One that holds nothing is empty.
    fn rest(&mut self)
        requires unspoilt { (Self.state self.old).spoilt ≡ false }
        ensures { let s = Self.state self.old in
            Self.state self.new ≡ record s { world = record s.world { truth = rested s.world.truth } } };

    /// It has power, and nothing waits.
    ghost is_calm: { (d : Self) → (Self.state d).world ≡ calm (Self.state d).world.truth };

    /// It has no faults of its own.
    ghost is_faultless: { (d : Self) → (Self.state d).faults ≡ 0 };
}

/// A device that a script harms.
pub trait Injects: Zoned {
    /// A fault waits for its command, behind those that wait.
    ///
    /// Refused as `BadFault` for a zone that isn't there, for a command that manages zones on a conventional one, and
    /// for blocks that are kept by a command other than a write or a flush; then as `TooManyFaults` where 64 wait.
    /// No command is issued.
    fn inject(&mut self, fault: FaultSpec) -> Result<(), InjectError>
        ensures reply { result ≡ (inject (Self.state self.old).world fault).reply }
        ensures waits { let world = (inject (Self.state self.old).world fault).world in
            Self.state self.new ≡ record (Self.state self.old) { world = world } };

    /// A zone turns to a worse condition: all that it holds is durable and it is closed, or, offline, it holds nothing.
    ///
    /// Refused as `PowerLost` without power, and as `BadFault` for a zone that isn't there, or for a condition that is
    /// no worse. `Broken` and `Memory` are the device's; after these two no command may follow.
    fn turn(&mut self, z: ZoneNo, to: Cond) -> Result<(), InjectError>
        requires unspoilt { (Self.state self.old).spoilt ≡ false }
        ensures { Injecting (turn (Self.state self.old).world z.0 to) result
            (Self.state self.old) (Self.state self.new) };

    /// The power goes: each zone loses what isn't durable, but for what the loss leaves of it, and is closed.
    ///
    /// Refused as `PowerLost` without power, and as `BadFault` for a cut on a zone that isn't there, is conventional or
    /// is named twice, or to a length that isn't between what is durable and what is held. `Broken` and `Memory` are
    /// the device's, and the power then stays on; after these two no command may follow.
    fn lose_power(&mut self, loss: &LossSpec) -> Result<(), InjectError>
        requires unspoilt { (Self.state self.old).spoilt ≡ false }
        ensures { Injecting (lose_power (Self.state self.old).world loss.now) result
            (Self.state self.old) (Self.state self.new) };

    /// A loss of power waits for a command of this kind on the zone, inside which the power then goes. A reset or
    /// finish is carried out before it, if `done` says so. No command is issued.
    ///
    /// Refused as `BadFault` for a zone that isn't there, for a command that manages zones on a conventional one, for
    /// cuts on zones that aren't there, are conventional or are named twice, for `done` with a command other than a
    /// reset or finish, and where a loss waits already.
    fn arm_loss(
        &mut self,
        z: ZoneNo,
        command: Command,
        done: bool,
        loss: &LossSpec,
    ) -> Result<(), InjectError>
        ensures reply { result
            ≡ (arm_loss (Self.state self.old).world
            (record { zone = z; command = command; carried_out = done; loss = loss.now })).reply }
        ensures waits { Self.state self.new
            ≡ record (Self.state self.old) {
              world = (arm_loss (Self.state self.old).world
                  (record { zone = z; command = command; carried_out = done; loss = loss.now })).world;
            } };

    /// The power comes back. Nothing changes where it is on.
    fn power_on(&mut self)
        ensures { let s = Self.state self.old in Self.state self.new ≡ record s { world = power_on s.world } };
}
