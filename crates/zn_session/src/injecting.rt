// The lines that harm the device, with or without a volume on it.
ghost use Rattle.std.specs.Prelude.{◌≡◌, ◌<◌, ◌^◌, ℕ, List, Option, length, false, Ok, IsSome, MatchOption};
ghost use Rattle.zn_truth.specs.declared.Armed.{Armed};
ghost use Rattle.zn_truth.specs.Inject.{InjectReply, is_zone, inject as injected, turn as turned};
ghost use Rattle.zn_truth.specs.Inject.{lose_power as lost, arm_loss as armed, power_on as powered_on};
ghost use Rattle.zn_lines.specs.Lines.{FaultOn, TurnTo, PowerLoss, PowerLossIn, PowerOn};
ghost use Rattle.zn_lines.specs.Session.{line_now};
ghost use Rattle.zn_script.specs.Cuts.{cuts_meant, AreCutWords};
ghost use Rattle.zn_session.specs.Replies.{Kept, inject_reply};
ghost use Rattle.zn_session.specs.SessionState.{held_by, AreNumbered};
ghost use Rattle.zn_session.specs.Steps.{Harms, Means};

use crate::held::{Held, device, powered};
use crate::replies::Reply;
use zn_device::{Injects, Zoned};
use zn_model::Handle;
use zn_script::expand_cuts;
use zn_truth::{Command, Cond, FaultSpec, InjectError, LossSpec, ZoneNo};

/// The zone of a number, where the device has it.
fn zone_of<D: Zoned + Drop>(held: &Option<Held<D>>, number: u64) -> Option<ZoneNo>
    requires { IsSome held.now }
    ensures zone { let t = (held_by D.state held.now).device.world.truth in
        MatchOption result (is_zone t number ≡ false) (λ zone. zone.0 ≡ number) }
    ensures few { length (held_by D.state held.now).device.world.truth.zones < 2 ^ 32 }
{
    let zones = device(held).zones();
    if number < zones as u64 {
        Some(ZoneNo(number as u32))
    } else {
        None
    }
}

/// The reply to what was done to the device.
fn reply_to(answer: Result<(), InjectError>) -> Reply<'static>
    ensures { result ≡ inject_reply answer }
{
    match answer {
        Ok(()) => Reply::Done,
        Err(error) => Reply::InjectRefused(error),
    }
}

/// A fault waits on the device that is held.
fn inject<D: Injects + Drop>(
    held: &mut Option<Held<D>>,
    fault: FaultSpec,
) -> Result<(), InjectError>
    requires there { IsSome held.old }
    requires unspoilt { (held_by D.state held.old).device.spoilt ≡ false }
    ensures harms { Harms (injected (held_by D.state held.old).device.world fault) result
        (held_by D.state held.old) (held_by D.state held.new) }
    ensures there { IsSome held.new }
{
    match held {
        Some(Held::Bare(dev)) => dev.inject(fault),
        Some(Held::Mounted(volume)) => volume.inject(fault),
        None => unreachable!(),
    }
}

/// A zone of the device that is held turns to a worse condition.
fn turn_zone<D: Injects + Drop>(
    held: &mut Option<Held<D>>,
    zone: ZoneNo,
    to: Cond,
) -> Result<(), InjectError>
    requires there { IsSome held.old }
    requires unspoilt { (held_by D.state held.old).device.spoilt ≡ false }
    ensures harms { Harms (turned (held_by D.state held.old).device.world zone.0 to) result
        (held_by D.state held.old) (held_by D.state held.new) }
    ensures there { IsSome held.new }
{
    match held {
        Some(Held::Bare(dev)) => dev.turn(zone, to),
        Some(Held::Mounted(volume)) => volume.turn(zone, to),
        None => unreachable!(),
    }
}

/// A fault waits for its command. No file changes before that comes.
pub fn fault<D: Injects + Drop>(
    held: &mut Option<Held<D>>,
    number: u64,
    command: Command,
    keep: Option<u32>,
) -> Reply<'static>
    requires there { IsSome held.old }
    requires unspoilt { (held_by D.state held.old).device.spoilt ≡ false }
    ensures means { (kept : Kept) (entropy : List ℕ) (numbers : List (Option Handle))
        → AreNumbered (held_by D.state held.old) numbers
        → Means line_now (FaultOn number command keep) result kept entropy
        (held_by D.state held.old) (held_by D.state held.new) numbers numbers }
    ensures there { IsSome held.new }
{
    match zone_of(held, number) {
        Some(zone) => reply_to(inject(
            held,
            FaultSpec {
                zone,
                command,
                keep,
            },
        )),
        None => Reply::InjectRefused(InjectError::BadFault),
    }
}

/// A zone turns to a worse condition. No file changes before a command fails on it.
pub fn turn<D: Injects + Drop>(held: &mut Option<Held<D>>, number: u64, to: Cond) -> Reply<'static>
    requires there { IsSome held.old }
    requires unspoilt { (held_by D.state held.old).device.spoilt ≡ false }
    ensures means { (kept : Kept) (entropy : List ℕ) (numbers : List (Option Handle))
        → AreNumbered (held_by D.state held.old) numbers
        → Means line_now (TurnTo number to) result kept entropy
        (held_by D.state held.old) (held_by D.state held.new) numbers numbers }
    ensures there { IsSome held.new }
{
    match zone_of(held, number) {
        Some(zone) => reply_to(turn_zone(held, zone, to)),
        None if powered(held) => Reply::InjectRefused(InjectError::BadFault),
        None => Reply::InjectRefused(InjectError::PowerLost),
    }
}

/// The device that is held loses its power.
fn lose_power<D: Injects + Drop>(
    held: &mut Option<Held<D>>,
    loss: &LossSpec,
) -> Result<(), InjectError>
    requires there { IsSome held.old }
    requires unspoilt { (held_by D.state held.old).device.spoilt ≡ false }
    ensures harms { Harms (lost (held_by D.state held.old).device.world loss.now) result
        (held_by D.state held.old) (held_by D.state held.new) }
    ensures there { IsSome held.new }
{
    match held {
        Some(Held::Bare(dev)) => dev.lose_power(loss),
        Some(Held::Mounted(volume)) => volume.lose_power(loss),
        None => unreachable!(),
    }
}

/// A loss of power waits on the device that is held.
fn arm_loss<D: Injects + Drop>(
    held: &mut Option<Held<D>>,
    zone: ZoneNo,
    command: Command,
    done: bool,
    loss: &LossSpec,
) -> Result<(), InjectError>
    requires there { IsSome held.old }
    requires unspoilt { (held_by D.state held.old).device.spoilt ≡ false }
    ensures harms { let waits : Armed =
        record { zone = zone; command = command; carried_out = done; loss = loss.now } in
        Harms (armed (held_by D.state held.old).device.world waits) result
        (held_by D.state held.old) (held_by D.state held.new) }
    ensures there { IsSome held.new }
{
    match held {
        Some(Held::Bare(dev)) => dev.arm_loss(zone, command, done, loss),
        Some(Held::Mounted(volume)) => volume.arm_loss(zone, command, done, loss),
        None => unreachable!(),
    }
}

/// The power of the device that is held comes back.
fn restore_power<D: Injects + Drop>(held: &mut Option<Held<D>>)
    requires there { IsSome held.old }
    requires unspoilt { (held_by D.state held.old).device.spoilt ≡ false }
    ensures harms { Harms (record { reply = Ok tt; world = powered_on (held_by D.state held.old).device.world }) (Ok tt)
        (held_by D.state held.old) (held_by D.state held.new) }
    ensures there { IsSome held.new }
{
    match held {
        Some(Held::Bare(dev)) => dev.power_on(),
        Some(Held::Mounted(volume)) => volume.power_on(),
        None => unreachable!(),
    }
}

/// The power goes, and with it a volume that is mounted. A zone of more than 32 bits is none.
pub fn power_loss<D: Injects + Drop>(
    held: &mut Option<Held<D>>,
    fill: Option<u8>,
    words: &[u8],
) -> Reply<'static>
    requires cuts { AreCutWords words.now }
    requires there { IsSome held.old }
    requires unspoilt { (held_by D.state held.old).device.spoilt ≡ false }
    ensures means { (kept : Kept) (entropy : List ℕ) (numbers : List (Option Handle))
        → AreNumbered (held_by D.state held.old) numbers
        → Means line_now (PowerLoss fill (cuts_meant words.now)) result kept entropy
        (held_by D.state held.old) (held_by D.state held.new) numbers numbers }
    ensures there { IsSome held.new }
{
    match expand_cuts(words) {
        Some(cuts) => reply_to(lose_power(held, &LossSpec { cuts, fill })),
        None if device(held).powered() => Reply::InjectRefused(InjectError::BadFault),
        None => Reply::InjectRefused(InjectError::PowerLost),
    }
}

/// A loss of power waits for a command. A zone of more than 32 bits is none.
pub fn power_loss_in<D: Injects + Drop>(
    held: &mut Option<Held<D>>,
    number: u64,
    command: Command,
    done: bool,
    fill: Option<u8>,
    words: &[u8],
) -> Reply<'static>
    requires cuts { AreCutWords words.now }
    requires there { IsSome held.old }
    requires unspoilt { (held_by D.state held.old).device.spoilt ≡ false }
    ensures means { (kept : Kept) (entropy : List ℕ) (numbers : List (Option Handle))
        → AreNumbered (held_by D.state held.old) numbers
        → Means line_now (PowerLossIn number command done fill (cuts_meant words.now)) result kept entropy
        (held_by D.state held.old) (held_by D.state held.new) numbers numbers }
    ensures there { IsSome held.new }
{
    let Some(zone) = zone_of(held, number) else {
        return Reply::InjectRefused(InjectError::BadFault);
    };
    match expand_cuts(words) {
        Some(cuts) => reply_to(arm_loss(held, zone, command, done, &LossSpec { cuts, fill })),
        None => Reply::InjectRefused(InjectError::BadFault),
    }
}

/// The power comes back, and nothing is mounted. Nothing changes where it is on.
pub fn power_on<D: Injects + Drop>(held: &mut Option<Held<D>>) -> Reply<'static>
    requires there { IsSome held.old }
    requires unspoilt { (held_by D.state held.old).device.spoilt ≡ false }
    ensures means { (kept : Kept) (entropy : List ℕ) (numbers : List (Option Handle))
        → AreNumbered (held_by D.state held.old) numbers
        → Means line_now PowerOn result kept entropy
        (held_by D.state held.old) (held_by D.state held.new) numbers numbers }
    ensures there { IsSome held.new }
{
    restore_power(held);
    Reply::Done
}
