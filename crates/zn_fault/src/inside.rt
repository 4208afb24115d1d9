// Commands to the device within, inside which the power goes.
ghost use Rattle.std.specs.Prelude.{◌≡◌, ◌*◌, ◌/◌, ◌≤◌, min, length, take, None, false};
ghost use Rattle.zn_truth.specs.declared.limits.TheConstants.{BLOCK_SIZE};
ghost use Rattle.zn_truth.specs.Truth.{zone_at, with_zone, is_sequential};
ghost use Rattle.zn_truth.specs.Orders.{WriteAt, Manage, done};
ghost use Rattle.zn_truth.specs.Power.{settled, stored, cut_write, write_during, during};
ghost use Rattle.zn_truth.specs.World.{geometry_of};
ghost use Rattle.zn_truth.specs.Obeying.{IsWhole, Fits, IsZoneToManage};
ghost use Rattle.zn_device.specs.States.{Commanded};
ghost use Rattle.zn_device.specs.Harms.{Harmed};
ghost use Rattle.zn_fault.specs.Losses.{unrefused, lost_inside, filled_with, is_carried_out};

use crate::asked::{clamped, info_of};
use crate::cuts::cut_of;
use crate::losing::lose_zones;
use std::cmp::min;
use zn_device::Harm;
use zn_truth::{Armed, BLOCK_SIZE, DevError, Kind, LossSpec, ZoneNo, ZoneOp};

/// Success in place of a refusal, of which nothing is carried out.
fn unrefused(reply: Result<(), DevError>) -> Result<(), DevError>
    ensures { result ≡ unrefused reply }
{
    match reply {
        Err(DevError::Broken) => Err(DevError::Broken),
        Err(DevError::Memory) => Err(DevError::Memory),
        _ => Ok(()),
    }
}

/// A block of which each byte is this one.
#[tactic(auto, unfolding(crate::specs::Losses::filled_with))]
fn block_of(byte: u8) -> [u8; 4096]
    ensures { result ≡ filled_with 1 byte }
{
    [byte; 4096]
}

/// Writes so many blocks to a sequential zone, each byte of them this one. A write of one block after another does what
/// a write of all does, and takes no memory for them.
fn write_filled<D: Harm>(
    dev: &mut D,
    z: ZoneNo,
    at: u32,
    blocks: u32,
    byte: u8,
) -> Result<(), DevError>
    requires zone { IsZoneToManage (geometry_of (D.state dev.old).world) z.0 }
    requires some { 1 ≤ blocks }
    requires fits { Fits (geometry_of (D.state dev.old).world) z.0 at blocks }
    requires unspoilt { (D.state dev.old).spoilt ≡ false }
    ensures { Commanded (WriteAt z.0 at (filled_with blocks byte)) result (D.state dev.old) (D.state dev.new) }
{
    let block = block_of(byte);
    dev.write(z, at, &block)?;
    for i in 1..blocks {
        dev.write(z, at + i, &block)?;
    }
    Ok(())
}

/// Writes the bytes to a sequential zone, or, where a byte is given, that in place of each.
fn write_stored<D: Harm>(
    dev: &mut D,
    z: ZoneNo,
    at: u32,
    bytes: &[u8],
    fill: Option<u8>,
) -> Result<(), DevError>
    requires zone { IsZoneToManage (geometry_of (D.state dev.old).world) z.0 }
    requires whole { IsWhole bytes.now }
    requires fits { Fits (geometry_of (D.state dev.old).world) z.0 at (length bytes.now / BLOCK_SIZE) }
    requires unspoilt { (D.state dev.old).spoilt ≡ false }
    ensures { Commanded (WriteAt z.0 at (stored fill bytes.now)) result (D.state dev.old) (D.state dev.new) }
{
    match fill {
        None => dev.write(z, at, bytes),
        Some(byte) => write_filled(dev, z, at, (bytes.len() / BLOCK_SIZE) as u32, byte),
    }
}

/// A sequential zone holds what it does, and all of it is durable.
fn settle_whole<D: Harm>(dev: &mut D, z: ZoneNo) -> Result<(), DevError>
    requires zone { IsZoneToManage (geometry_of (D.state dev.old).world) z.0 }
    requires unspoilt { (D.state dev.old).spoilt ≡ false }
    ensures { let t = (D.state dev.old).world.truth in
        Harmed (with_zone t z.0 (settled (zone_at t z.0) (zone_at t z.0).held (zone_at t z.0).held None)) result
        (D.state dev.old) (D.state dev.new) }
{
    let held = info_of(dev, z)?.held;
    dev.settle(z, held, held, None)
}

/// So many blocks, or as many as there are.
fn at_most(blocks: u32, bytes: &[u8]) -> usize
    ensures { result ≡ min blocks (length bytes.now / BLOCK_SIZE) }
{
    min(blocks as usize, bytes.len() / BLOCK_SIZE)
}

/// The first blocks of a write to a sequential zone, so many of them, are carried out, unless they are refused. All
/// that the zone then holds is durable.
fn write_front<D: Harm>(
    dev: &mut D,
    z: ZoneNo,
    at: u32,
    blocks: u32,
    bytes: &[u8],
    fill: Option<u8>,
) -> Result<(), DevError>
    requires zone { IsZoneToManage (geometry_of (D.state dev.old).world) z.0 }
    requires some { 1 ≤ blocks }
    requires whole { IsWhole bytes.now }
    requires fits { Fits (geometry_of (D.state dev.old).world) z.0 at (length bytes.now / BLOCK_SIZE) }
    requires unspoilt { (D.state dev.old).spoilt ≡ false }
    ensures { let t = (done (D.state dev.old).world.truth
        (WriteAt z.0 at (stored fill (take (BLOCK_SIZE * blocks) bytes.now)))).truth in
        Harmed (with_zone t z.0 (settled (zone_at t z.0) (zone_at t z.0).held (zone_at t z.0).held None)) result
        (D.state dev.old) (D.state dev.new) }
{
    let n = at_most(blocks, bytes);
    unrefused(write_stored(dev, z, at, &bytes[..BLOCK_SIZE * n], fill))?;
    settle_whole(dev, z)
}

/// A write to a sequential zone is cut short.
fn cut_write<D: Harm>(
    dev: &mut D,
    z: ZoneNo,
    at: u32,
    bytes: &[u8],
    loss: &LossSpec,
) -> Result<(), DevError>
    requires zone { IsZoneToManage (geometry_of (D.state dev.old).world) z.0 }
    requires whole { IsWhole bytes.now }
    requires fits { Fits (geometry_of (D.state dev.old).world) z.0 at (length bytes.now / BLOCK_SIZE) }
    requires unspoilt { (D.state dev.old).spoilt ≡ false }
    ensures { Harmed (cut_write (D.state dev.old).world.truth z.0 at bytes.now loss.now) result
        (D.state dev.old) (D.state dev.new) }
{
    let held = info_of(dev, z)?.held;
    let durable = dev.durable(z);
    let cut = cut_of(&loss.cuts, z).unwrap_or(durable);
    dev.settle(z, durable, clamped(cut, durable, held), loss.fill)?;
    if cut <= held {
        return Ok(());
    }
    write_front(dev, z, at, cut - held, bytes, loss.fill)
}

/// A write to a sequential zone is cut short, and one to a conventional zone is whole.
fn write_during<D: Harm>(
    dev: &mut D,
    z: ZoneNo,
    at: u32,
    bytes: &[u8],
    loss: &LossSpec,
) -> Result<(), DevError>
    requires whole { IsWhole bytes.now }
    requires fits { Fits (geometry_of (D.state dev.old).world) z.0 at (length bytes.now / BLOCK_SIZE) }
    requires unspoilt { (D.state dev.old).spoilt ≡ false }
    ensures { let t = (D.state dev.old).world.truth in
        Harmed (write_during (is_sequential (zone_at t z.0).kind) t z.0 at bytes.now loss.now) result
        (D.state dev.old) (D.state dev.new) }
{
    match dev.kind(z) {
        Kind::Conventional => unrefused(dev.write(z, at, bytes)),
        Kind::Sequential => cut_write(dev, z, at, bytes, loss),
    }
}

/// The power goes inside a write.
pub fn lose_in_write<D: Harm>(
    dev: &mut D,
    z: ZoneNo,
    at: u32,
    bytes: &[u8],
    armed: &Armed,
) -> Result<(), DevError>
    requires whole { IsWhole bytes.now }
    requires fits { Fits (geometry_of (D.state dev.old).world) z.0 at (length bytes.now / BLOCK_SIZE) }
    requires unspoilt { (D.state dev.old).spoilt ≡ false }
    ensures { Harmed (lost_inside (D.state dev.old).world.truth (WriteAt z.0 at bytes.now) armed.now) result
        (D.state dev.old) (D.state dev.new) }
{
    write_during(dev, z, at, bytes, &armed.loss)?;
    lose_zones(dev, &armed.loss)
}

/// Whether the command is carried out before the power goes inside it: a reset or finish is, if that is said.
fn is_carried_out(op: ZoneOp, carried_out: bool) -> bool
    ensures { result ≡ is_carried_out op carried_out }
{
    match op {
        ZoneOp::Reset | ZoneOp::Finish => carried_out,
        ZoneOp::Open | ZoneOp::Close => false,
    }
}

/// A reset or finish is carried out, if that is said, and nothing else is.
fn manage_during<D: Harm>(dev: &mut D, z: ZoneNo, op: ZoneOp, armed: &Armed) -> Result<(), DevError>
    requires zone { IsZoneToManage (geometry_of (D.state dev.old).world) z.0 }
    requires unspoilt { (D.state dev.old).spoilt ≡ false }
    ensures { let t = (D.state dev.old).world.truth in
        Harmed (during t (Manage z.0 op) armed.now.carried_out armed.now.loss) result
        (D.state dev.old) (D.state dev.new) }
{
    if is_carried_out(op, armed.carried_out) {
        unrefused(dev.manage(z, op))
    } else {
        Ok(())
    }
}

/// The power goes inside a command that manages a zone.
pub fn lose_in_manage<D: Harm>(
    dev: &mut D,
    z: ZoneNo,
    op: ZoneOp,
    armed: &Armed,
) -> Result<(), DevError>
    requires zone { IsZoneToManage (geometry_of (D.state dev.old).world) z.0 }
    requires unspoilt { (D.state dev.old).spoilt ≡ false }
    ensures { Harmed (lost_inside (D.state dev.old).world.truth (Manage z.0 op) armed.now) result
        (D.state dev.old) (D.state dev.new) }
{
    manage_during(dev, z, op, armed)?;
    lose_zones(dev, &armed.loss)
}
