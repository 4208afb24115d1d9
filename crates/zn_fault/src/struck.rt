// What a fault lets the device within do.
ghost use Rattle.std.specs.Prelude.{◌≡◌, ◌/◌, ◌<◌, min, length, unwrap_or, false};
ghost use Rattle.zn_truth.specs.declared.limits.TheConstants.{BLOCK_SIZE};
ghost use Rattle.zn_truth.specs.Orders.{WriteAt, FlushAll};
ghost use Rattle.zn_truth.specs.World.{geometry_of, as_fault, settled_by_flush};
ghost use Rattle.zn_truth.specs.Obeying.{IsWhole, Fits, IsZoneToManage};
ghost use Rattle.zn_device.specs.Harms.{Harmed};
ghost use Rattle.zn_fault.specs.Strikes.{Struck};

use crate::asked::{clamped, info_of, is_zone};
use std::cmp::min;
use zn_device::Harm;
use zn_truth::{BLOCK_SIZE, Cond, DevError, FaultSpec, Kind, ZoneNo};

/// The fault in place of a success.
fn as_fault(reply: Result<(), DevError>) -> Result<(), DevError>
    ensures { result ≡ as_fault reply }
{
    reply?;
    Err(DevError::Fault)
}

/// How many blocks of a write the fault keeps.
fn kept(fault: FaultSpec, bytes: &[u8]) -> usize
    ensures { result ≡ min (unwrap_or fault.keep 0) (length bytes.now / BLOCK_SIZE) }
{
    min(fault.keep.unwrap_or(0) as usize, bytes.len() / BLOCK_SIZE)
}

/// A write that a fault meets: its first blocks are written, as many as the fault keeps.
#[tactic(auto, using(crate::proofs::Striking::none_written, crate::proofs::Faults::nothing_struck))]
pub fn write_in_part<D: Harm>(
    dev: &mut D,
    z: ZoneNo,
    at: u32,
    bytes: &[u8],
    fault: FaultSpec,
) -> Result<(), DevError>
    requires whole { IsWhole bytes.now }
    requires fits { Fits (geometry_of (D.state dev.old).world) z.0 at (length bytes.now / BLOCK_SIZE) }
    requires unspoilt { (D.state dev.old).spoilt ≡ false }
    ensures { Struck (WriteAt z.0 at bytes.now) fault result (D.state dev.old) (D.state dev.new) }
{
    let keep = kept(fault, bytes);
    if keep == 0 {
        return Err(DevError::Fault);
    }
    as_fault(dev.write(z, at, &bytes[..BLOCK_SIZE * keep]))
}

/// A flush that a fault meets settles the sequential zone, if that is good.
#[tactic(auto, using(crate::proofs::Harming::bad_unharmed, crate::proofs::Harming::settle_harmed))]
fn settle_good<D: Harm>(dev: &mut D, z: ZoneNo, keep: u32) -> Result<(), DevError>
    requires zone { IsZoneToManage (geometry_of (D.state dev.old).world) z.0 }
    requires unspoilt { (D.state dev.old).spoilt ≡ false }
    ensures { Harmed (settled_by_flush (D.state dev.old).world.truth z.0 keep) result
        (D.state dev.old) (D.state dev.new) }
{
    let info = info_of(dev, z)?;
    if info.cond != Cond::Good {
        return Ok(());
    }
    let len = clamped(keep, dev.durable(z), info.held);
    dev.settle(z, len, len, None)
}

/// A flush that a fault meets settles the zone, if that is sequential and good.
#[tactic(auto, using(crate::proofs::Harming::past_unharmed, crate::proofs::Harming::conventional_unharmed))]
fn settle_by_flush<D: Harm>(dev: &mut D, z: ZoneNo, keep: u32) -> Result<(), DevError>
    requires unspoilt { (D.state dev.old).spoilt ≡ false }
    ensures { Harmed (settled_by_flush (D.state dev.old).world.truth z.0 keep) result
        (D.state dev.old) (D.state dev.new) }
{
    if !is_zone(dev, z) {
        return Ok(());
    }
    match dev.kind(z) {
        Kind::Conventional => Ok(()),
        Kind::Sequential => settle_good(dev, z, keep),
    }
}

/// A flush that a fault meets makes nothing durable: it settles the fault's zone.
#[tactic(auto, using(crate::proofs::Striking::settled_struck))]
pub fn flush_in_part<D: Harm>(dev: &mut D, fault: FaultSpec) -> Result<(), DevError>
    requires { (D.state dev.old).spoilt ≡ false }
    ensures { Struck FlushAll fault result (D.state dev.old) (D.state dev.new) }
{
    as_fault(settle_by_flush(dev, fault.zone, fault.keep.unwrap_or(0)))
}
