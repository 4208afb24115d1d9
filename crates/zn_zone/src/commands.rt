// What the machine answers to commands, over its list of zones.
ghost use Rattle.std.specs.Prelude.{◌≡◌, ◌+◌, ◌<◌, ◌≤◌, Option, length, OnOk, OnErr, IfErr};
ghost use Rattle.zn_truth.specs.Truth.{room};
ghost use Rattle.zn_zone.specs.declared.ZoneError.{ZoneError};
ghost use Rattle.zn_zone.specs.Table.{cond_of};
ghost use Rattle.zn_zone.specs.Machine.{changing, held_after, machine, state_at, state_in, unless, written, managed, write_refusal, manage_refusal, read_refusal};

use crate::places::take_step;
use crate::states::States;
use crate::table::Step;
use crate::{Raw, ZoneError};
use zn_truth::{Kind, Shape, ZoneOp};

/// What the condition refuses of a command that changes the zone.
fn may_change(raw: Raw) -> Result<(), ZoneError>
    ensures ok { OnOk result ((next : Option ZoneError) → changing (cond_of raw) next ≡ next) }
    ensures err { IfErr result (λ e. (next : Option ZoneError) → changing (cond_of raw) next ≡ Some e) }
{
    match raw {
        Raw::ReadOnly => Err(ZoneError::ReadOnly),
        Raw::Offline => Err(ZoneError::Offline),
        _ => Ok(()),
    }
}

/// Writes at the end of a zone, unless it is refused.
pub fn write_at(
    shape: Shape,
    zones: &mut States,
    z: usize,
    at: u32,
    blocks: u32,
) -> Result<(), ZoneError>
    requires zone { z < length zones.old }
    requires room { at + blocks ≤ room shape (state_in zones.old z).kind }
    ensures reply { result ≡ unless (write_refusal (machine shape zones.old) z at) }
    ensures ok { OnOk result (machine shape zones.new ≡ written (machine shape zones.old) z blocks) }
    ensures err { OnErr result (machine shape zones.new ≡ machine shape zones.old) }
{
    let zone = zones.at(z);
    may_change(zone.raw)?;
    match zone.kind {
        Kind::Conventional => Ok(()),
        Kind::Sequential => {
            if zone.held != at {
                return Err(ZoneError::Unaligned);
            }
            let held = at + blocks;
            let fills = held == shape.zone_capacity;
            take_step(shape, zones, z, Step::Write { fills }, held)
        }
    }
}

/// The blocks that a zone holds after the command.
fn held_after(op: ZoneOp, shape: Shape, held: u32) -> u32
    ensures { result ≡ held_after op shape held }
{
    match op {
        ZoneOp::Open | ZoneOp::Close => held,
        ZoneOp::Reset => 0,
        ZoneOp::Finish => shape.zone_capacity,
    }
}

/// Manages a zone, unless it is refused.
pub fn manage_at(shape: Shape, zones: &mut States, z: usize, op: ZoneOp) -> Result<(), ZoneError>
    requires zone { z < length zones.old }
    ensures reply { result ≡ unless (manage_refusal (machine shape zones.old) z op) }
    ensures ok { OnOk result (machine shape zones.new ≡ managed (machine shape zones.old) z op) }
    ensures err { OnErr result (machine shape zones.new ≡ machine shape zones.old) }
{
    let zone = zones.at(z);
    may_change(zone.raw)?;
    take_step(
        shape,
        zones,
        z,
        Step::of(op, zone.held),
        held_after(op, shape, zone.held),
    )
}

/// Whether blocks of a zone may be read, up to this one.
pub fn read_to(shape: Shape, zones: &States, z: usize, end: u32) -> Result<(), ZoneError>
    requires zone { z < length zones.now }
    ensures { result ≡ unless (read_refusal (machine shape zones.now) z end) }
{
    let zone = zones.at(z);
    if zone.raw == Raw::Offline {
        Err(ZoneError::Offline)
    } else if zone.held < end {
        Err(ZoneError::BeyondWp)
    } else {
        Ok(())
    }
}
