// A device with faults and losses of power that a script asked for.
ghost use Rattle.std.specs.Prelude.{◌≡◌, ◌&&◌, [], None, false, true, is_err, MatchOption, IfOk, IfErr};
ghost use Rattle.zn_truth.specs.World.{geometry_of, command_of_op};
ghost use Rattle.zn_fault.specs.FaultState.{faulty_state, inner_state};
ghost use Rattle.zn_fault.specs.Losses.{as_loss};
ghost use Rattle.zn_fault.specs.Strikes.{Spares, Strikes};

use crate::armed::Waiting;
use crate::cuts::copied;
use crate::inside::{lose_in_manage, lose_in_write};
use crate::losing::{lose, lose_zones};
use crate::pending::Pending;
use crate::refused::{is_bad_arm, is_bad_fault};
use crate::struck::{flush_in_part, write_in_part};
use crate::turned::{harm_error, turn};
use std::alloc::{AllocError, Global};
use zn_device::{Harm, Injects, Zoned};
use zn_truth::{
    Armed, Command, Cond, DevError, FaultSpec, InjectError, Kind, LossSpec, Shape, Span, ZoneInfo,
    ZoneNo, ZoneOp,
};

/// A device with faults and losses of power that a script asked for, over one that has none. Only `new` takes memory.
#[derive(Drop)]
pub struct Faulty<D: Harm + Drop> {
    dev: D,
    powered: bool,
    pending: Pending,
    armed: Waiting,
    faults: u64,
}

/// A device around which there was no memory for faults.
#[derive(Drop)]
pub struct FaultyFail<D> {
    pub dev: D,
}

/// The zone alone.
fn one(z: ZoneNo) -> Span
    ensures { result ≡ record { all = false; first = z.0; count = 1 } }
{
    Span {
        all: false,
        first: z.0,
        count: 1,
    }
}

/// All zones, as every flush names them.
fn every() -> Span
    ensures { result ≡ record { all = true; first = 0; count = 0 } }
{
    Span {
        all: true,
        first: 0,
        count: 0,
    }
}

/// The command that manages a zone in this way.
fn command_of_op(op: ZoneOp) -> Command
    ensures { result ≡ command_of_op op }
{
    match op {
        ZoneOp::Open => Command::Open,
        ZoneOp::Close => Command::Close,
        ZoneOp::Reset => Command::Reset,
        ZoneOp::Finish => Command::Finish,
    }
}

/// Room for all that may wait: none does.
fn room(alloc: Global) -> Result<(Pending, Waiting), AllocError>
    ensures { IfOk result (λ room. (room.0 ≡ []) × (room.1 ≡ None)) }
{
    Ok((Pending::new(alloc)?, Waiting::new(alloc)?))
}

impl<D: Harm + Drop> Faulty<D> {
    /// The device around this one: with power, nothing that waits, and no faults counted. It is refused for want of
    /// memory alone, and then the device is given back as it was.
    pub fn new(alloc: Global, dev: D) -> Result<Faulty<D>, FaultyFail<D>>
        ensures made { IfOk result
            (λ f. ⟦<Faulty<D> as Zoned>⟧.state f ≡ faulty_state (D.state dev) true [] None 0) }
        ensures back { IfErr result (λ fail. fail.dev ≡ dev) }
    {
        match room(alloc) {
            Ok((pending, armed)) => Ok(Faulty {
                dev,
                powered: true,
                pending,
                armed,
                faults: 0,
            }),
            Err(_) => Err(FaultyFail { dev }),
        }
    }

    /// The device within, as it is.
    pub fn into_inner(self) -> D
        ensures { D.state result ≡ inner_state (⟦<Faulty<D> as Zoned>⟧.state self) }
    {
        let Faulty { dev, .. } = self;
        dev
    }
}

/// The fault that strikes a command of this kind on these zones, if one waits for it: it is used up, and counted.
fn strike(
    pending: &mut Pending,
    faults: &mut u64,
    command: Command,
    zones: Span,
) -> Option<FaultSpec>
    ensures { MatchOption result (Spares command zones pending.old pending.new faults.old faults.new)
        (λ fault. Strikes command zones fault pending.old pending.new faults.old faults.new) }
{
    let fault = pending.take(command, zones)?;
    *faults = faults.saturating_add(1);
    Some(fault)
}

/// The loss that waited is used up. The power is off, unless the device within broke or lacked memory.
fn go_off(
    powered: &mut bool,
    armed: &mut Waiting,
    reply: Result<(), DevError>,
) -> Result<(), DevError>
    ensures reply { result ≡ as_loss reply }
    ensures powered { powered.new ≡ (powered.old && is_err reply) }
    ensures used { armed.new ≡ None }
{
    armed.clear();
    reply?;
    *powered = false;
    Err(DevError::PowerLost)
}

#[tactic(auto, unfolding(zn_truth::specs::World::geometry_of))]
impl<D: Harm + Drop> Zoned for Faulty<D> {
    ghost state = { λ f. faulty_state (D.Zoned.state f.dev) f.powered f.pending f.armed f.faults };

    ghost is_sound = { λ f. D.Zoned.is_sound f.dev };

    ghost is_within = { λ f. unfold geometry_of in D.Zoned.is_within f.dev };

    fn zones(&self) -> u32 {
        self.dev.zones()
    }

    fn shape(&self) -> Shape {
        self.dev.shape()
    }

    fn kind(&self, z: ZoneNo) -> Kind {
        self.dev.kind(z)
    }

    fn report(&mut self, first: ZoneNo, out: &mut [ZoneInfo]) -> Result<(), DevError> {
        if !self.powered {
            return Err(DevError::PowerLost);
        }
        let zones = Span {
            all: false,
            first: first.0,
            count: out.len() as u32,
        };
        if let Some(armed) = self.armed.met(Command::Report, zones) {
            let reply = lose_zones(&mut self.dev, &armed.loss);
            return go_off(&mut self.powered, &mut self.armed, reply);
        }
        match strike(&mut self.pending, &mut self.faults, Command::Report, zones) {
            None => self.dev.report(first, out),
            Some(_) => Err(DevError::Fault),
        }
    }

    fn read(&mut self, z: ZoneNo, at: u32, out: &mut [u8]) -> Result<(), DevError> {
        if !self.powered {
            return Err(DevError::PowerLost);
        }
        let zones = one(z);
        if let Some(armed) = self.armed.met(Command::Read, zones) {
            let reply = lose_zones(&mut self.dev, &armed.loss);
            return go_off(&mut self.powered, &mut self.armed, reply);
        }
        match strike(&mut self.pending, &mut self.faults, Command::Read, zones) {
            None => self.dev.read(z, at, out),
            Some(_) => Err(DevError::Fault),
        }
    }

    fn write(&mut self, z: ZoneNo, at: u32, bytes: &[u8]) -> Result<(), DevError> {
        if !self.powered {
            return Err(DevError::PowerLost);
        }
        let zones = one(z);
        if let Some(armed) = self.armed.met(Command::Write, zones) {
            let reply = lose_in_write(&mut self.dev, z, at, bytes, armed);
            return go_off(&mut self.powered, &mut self.armed, reply);
        }
        match strike(&mut self.pending, &mut self.faults, Command::Write, zones) {
            None => self.dev.write(z, at, bytes),
            Some(fault) => write_in_part(&mut self.dev, z, at, bytes, fault),
        }
    }

    fn manage(&mut self, z: ZoneNo, op: ZoneOp) -> Result<(), DevError> {
        if !self.powered {
            return Err(DevError::PowerLost);
        }
        let command = command_of_op(op);
        let zones = one(z);
        if let Some(armed) = self.armed.met(command, zones) {
            let reply = lose_in_manage(&mut self.dev, z, op, armed);
            return go_off(&mut self.powered, &mut self.armed, reply);
        }
        match strike(&mut self.pending, &mut self.faults, command, zones) {
            None => self.dev.manage(z, op),
            Some(_) => Err(DevError::Fault),
        }
    }

    fn flush(&mut self) -> Result<(), DevError> {
        if !self.powered {
            return Err(DevError::PowerLost);
        }
        let zones = every();
        if let Some(armed) = self.armed.met(Command::Flush, zones) {
            let reply = lose_zones(&mut self.dev, &armed.loss);
            return go_off(&mut self.powered, &mut self.armed, reply);
        }
        match strike(&mut self.pending, &mut self.faults, Command::Flush, zones) {
            None => self.dev.flush(),
            Some(fault) => flush_in_part(&mut self.dev, fault),
        }
    }

    fn powered(&self) -> bool {
        self.powered
    }

    fn faults(&self) -> u64 {
        self.faults
    }

    fn breaks(&self) -> u64 {
        self.dev.breaks()
    }
}

#[tactic(auto, unfolding(zn_truth::specs::Inject::inject))]
impl<D: Harm + Drop> Injects for Faulty<D> {
    fn inject(&mut self, fault: FaultSpec) -> Result<(), InjectError> {
        if is_bad_fault(&self.dev, &fault) {
            return Err(InjectError::BadFault);
        }
        if self.pending.is_full() {
            return Err(InjectError::TooManyFaults);
        }
        self.pending.push(fault);
        Ok(())
    }

    fn turn(&mut self, z: ZoneNo, to: Cond) -> Result<(), InjectError> {
        if !self.powered {
            return Err(InjectError::PowerLost);
        }
        turn(&mut self.dev, z, to)
    }

    fn lose_power(&mut self, loss: &LossSpec) -> Result<(), InjectError> {
        if !self.powered {
            return Err(InjectError::PowerLost);
        }
        match lose(&mut self.dev, loss) {
            Ok(true) => {
                self.powered = false;
                Ok(())
            }
            Ok(false) => Err(InjectError::BadFault),
            Err(error) => Err(harm_error(error)),
        }
    }

    fn arm_loss(
        &mut self,
        z: ZoneNo,
        command: Command,
        done: bool,
        loss: &LossSpec,
    ) -> Result<(), InjectError> {
        if is_bad_arm(&self.dev, &self.armed, z, command, done, &loss.cuts) {
            return Err(InjectError::BadFault);
        }
        self.armed.arm(Armed {
            zone: z,
            command,
            carried_out: done,
            loss: copied(loss),
        });
        Ok(())
    }

    #[tactic(auto, unfolding(zn_truth::specs::Inject::power_on))]
    fn power_on(&mut self) {
        self.powered = true;
    }
}
