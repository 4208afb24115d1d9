// What is written to zone 0.
ghost use Rattle.std.specs.Prelude.{◌≡◌, ◌<◌, false, [], ◌∷◌};
ghost use Rattle.zn_truth.specs.declared.ZoneOp.TheVariants.{Finish};
ghost use Rattle.zn_truth.specs.Limits.{IsWithinLimits};
ghost use Rattle.zn_truth.specs.Truth.{kind_at, is_sequential};
ghost use Rattle.zn_truth.specs.Orders.{WriteAt, Manage, FlushAll};
ghost use Rattle.zn_truth.specs.World.{geometry_of};
ghost use Rattle.zn_truth.specs.Obeying.{IsZoneToManage};
ghost use Rattle.zn_device.specs.States.{Commanded, Ordered};
ghost use Rattle.zn_model.specs.Formatting.{empties, copies};

use crate::looks::ZONE_0;
use zn_device::Zoned;
use zn_truth::{BLOCK_SIZE, DevError, ZoneOp};

/// A block of zeros.
static ZEROS: [u8; BLOCK_SIZE] = [0; BLOCK_SIZE];

/// Writes block 0 or 1 of zone 0, and makes it durable.
fn write_block<D: Zoned>(dev: &mut D, at: u32, block: &[u8; BLOCK_SIZE]) -> Result<(), DevError>
    requires at { at < 2 }
    requires within { IsWithinLimits (geometry_of (D.state dev.old).world) }
    requires unspoilt { (D.state dev.old).spoilt ≡ false }
    ensures done { Ordered (WriteAt 0 at block.now ∷ FlushAll ∷ []) result (D.state dev.old) (D.state dev.new) }
{
    dev.write(ZONE_0, at, block)?;
    dev.flush()
}

/// Writes blocks 0 and 1 of zone 0, one of them first.
fn write_blocks<D: Zoned>(
    dev: &mut D,
    first: u32,
    second: u32,
    block: &[u8; BLOCK_SIZE],
) -> Result<(), DevError>
    requires first { first < 2 }
    requires second { second < 2 }
    requires within { IsWithinLimits (geometry_of (D.state dev.old).world) }
    requires unspoilt { (D.state dev.old).spoilt ≡ false }
    ensures done { Ordered (WriteAt 0 first block.now ∷ FlushAll ∷ WriteAt 0 second block.now ∷ FlushAll ∷ []) result
        (D.state dev.old) (D.state dev.new) }
{
    write_block(dev, first, block)?;
    write_block(dev, second, block)
}

/// Empties zone 0, or its first block where it is conventional.
pub(crate) fn empty<D: Zoned>(dev: &mut D, sequential: bool) -> Result<(), DevError>
    requires kind { sequential ≡ is_sequential (kind_at (geometry_of (D.state dev.old).world) 0) }
    requires within { IsWithinLimits (geometry_of (D.state dev.old).world) }
    requires unspoilt { (D.state dev.old).spoilt ≡ false }
    ensures done { Ordered (empties sequential) result (D.state dev.old) (D.state dev.new) }
{
    if sequential {
        dev.manage(ZONE_0, ZoneOp::Reset)
    } else {
        write_block(dev, 0, &ZEROS)
    }
}

/// Finishes zone 0.
fn finish<D: Zoned>(dev: &mut D) -> Result<(), DevError>
    requires zone { IsZoneToManage (geometry_of (D.state dev.old).world) 0 }
    requires unspoilt { (D.state dev.old).spoilt ≡ false }
    ensures done { Commanded (Manage 0 Finish) result (D.state dev.old) (D.state dev.new) }
{
    dev.manage(ZONE_0, ZoneOp::Finish)
}

/// Writes both copies, and finishes zone 0 where it is sequential. Of a conventional one block 1 is written first, so
/// that no super block is there before block 0 is.
pub(crate) fn write_copies<D: Zoned>(
    dev: &mut D,
    sequential: bool,
    block: &[u8; BLOCK_SIZE],
) -> Result<(), DevError>
    requires kind { sequential ≡ is_sequential (kind_at (geometry_of (D.state dev.old).world) 0) }
    requires within { IsWithinLimits (geometry_of (D.state dev.old).world) }
    requires unspoilt { (D.state dev.old).spoilt ≡ false }
    ensures done { Ordered (copies sequential block.now) result (D.state dev.old) (D.state dev.new) }
{
    if sequential {
        write_blocks(dev, 0, 1, block)?;
        finish(dev)
    } else {
        write_blocks(dev, 1, 0, block)
    }
}
