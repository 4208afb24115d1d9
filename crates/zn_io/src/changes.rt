// Truncations and syncs.
ghost use Rattle.std.specs.Prelude.{◌≡◌, ℕ, ◌^◌, ◌<◌, false, List, [], ◌∷◌, if◌then◌else◌, IsTrue};
ghost use Rattle.zn_truth.specs.declared.ZoneOp.TheVariants.{Open, Reset};
ghost use Rattle.zn_truth.specs.Orders.{Manage, FlushAll};
ghost use Rattle.zn_truth.specs.World.{geometry_of};
ghost use Rattle.zn_truth.specs.Obeying.{IsZoneToManage};
ghost use Rattle.zn_device.specs.States.{Commanded, Ordered};
ghost use Rattle.zn_model.specs.Truncating.{truncate_orders, truncated};
ghost use Rattle.zn_io.specs.Files.{IsFile, shape_of, shown_after};

use zn_device::Zoned;
use zn_inode::capacity;
use zn_model::{FileZones, Shown};
use zn_truth::{DevError, ZoneNo, ZoneOp};

/// Resets a zone, and opens it again where it is to stay open.
#[tactic(auto, using(zn_device::proofs::Ordered::ordered_one, zn_device::proofs::Ordered::ordered_failed, zn_device::proofs::Ordered::ordered_then))]
fn reset<D: Zoned>(dev: &mut D, zone: ZoneNo, stays_open: bool) -> Result<(), DevError>
    requires zone { IsZoneToManage (geometry_of (D.state dev.old).world) zone.0 }
    requires unspoilt { (D.state dev.old).spoilt ≡ false }
    ensures done { Ordered (Manage zone.0 Reset ∷ (if stays_open then Manage zone.0 Open ∷ [] else [])) result
        (D.state dev.old) (D.state dev.new) }
{
    match dev.manage(zone, ZoneOp::Reset) {
        Err(error) => Err(error),
        Ok(()) if stays_open => dev.manage(zone, ZoneOp::Open),
        Ok(()) => Ok(()),
    }
}

/// Gives a sequential file's zone the orders of a truncation.
#[tactic(auto, using(zn_device::proofs::Ordered::ordered_one))]
fn resize<D: Zoned>(dev: &mut D, file: &FileZones, shown: &Shown, size: u64) -> Result<(), DevError>
    requires file { IsFile (geometry_of (D.state dev.old).world) file.now }
    requires sequential { IsTrue file.now.seq }
    requires unspoilt { (D.state dev.old).spoilt ≡ false }
    ensures done { Ordered (truncate_orders file.now shown.now size) result (D.state dev.old) (D.state dev.new) }
{
    let zone = ZoneNo(file.first);
    if size == 0 {
        reset(dev, zone, shown.held_open)
    } else {
        dev.manage(zone, ZoneOp::Finish)
    }
}

/// Truncates a sequential file: to no bytes by a reset, else by a finish. What it shows changes only where
/// that is done.
pub fn truncate_file<D: Zoned>(
    dev: &mut D,
    file: &FileZones,
    shown: &mut Shown,
    size: u64,
) -> Result<(), DevError>
    requires file { IsFile (geometry_of (D.state dev.old).world) file.now }
    requires sequential { IsTrue file.now.seq }
    requires unspoilt { (D.state dev.old).spoilt ≡ false }
    ensures done { Ordered (truncate_orders file.now shown.old size) result (D.state dev.old) (D.state dev.new) }
    ensures shown { let shape = shape_of (D.state dev.old).world in
        shown.new ≡ shown_after result (truncated shape file.now shown.old size) shown.old }
{
    let capacity = capacity(&dev.shape(), file);
    resize(dev, file, shown, size)?;
    shown.size = size;
    shown.held_open = shown.held_open && size != capacity;
    Ok(())
}

/// Makes all that the device holds durable.
pub fn sync_file<D: Zoned>(dev: &mut D) -> Result<(), DevError>
    requires unspoilt { (D.state dev.old).spoilt ≡ false }
    ensures done { Commanded FlushAll result (D.state dev.old) (D.state dev.new) }
{
    dev.flush()
}
