// Writes of a file.
ghost use Rattle.std.specs.Prelude.{◌≡◌, ℕ, ◌+◌, ◌*◌, ◌^◌, ◌<◌, ◌≤◌, length, false, IsTrue};
ghost use Rattle.zn_truth.specs.World.{geometry_of};
ghost use Rattle.zn_device.specs.States.{Commanded, Ordered};
ghost use Rattle.zn_model.specs.ZoneFiles.{capacity_of};
ghost use Rattle.zn_model.specs.Pieces.{write_in, writes, Lies, Touched};
ghost use Rattle.zn_model.specs.Writing.{area_of, grown};
ghost use Rattle.zn_io.specs.Files.{IsFile, IsWritable, shown_after, shape_of};

use crate::pieces::{area, piece, zones_touched};
use zn_device::Zoned;
use zn_inode::capacity;
use zn_model::{Area, FileZones, Shown};
use zn_truth::{BLOCK_SIZE, DevError, Shape, ZoneNo};

/// Writes the part of the bytes that goes to the file's zone `i`.
#[tactic(auto, using(crate::proofs::Places::same_bytes))]
fn write_piece<D: Zoned>(
    dev: &mut D,
    a: &Area,
    zones: u32,
    i: u32,
    bytes: &[u8],
) -> Result<(), DevError>
    requires lies { Lies (geometry_of (D.state dev.old).world) a.now zones }
    requires zone { i < zones }
    requires touched { Touched a.now i }
    requires bytes { length bytes.now ≡ BLOCK_SIZE * a.now.blocks }
    requires unspoilt { (D.state dev.old).spoilt ≡ false }
    ensures done { Commanded (write_in a.now bytes.now i) result (D.state dev.old) (D.state dev.new) }
{
    let p = piece(a, i);
    let start = BLOCK_SIZE * p.before as usize;
    dev.write(
        ZoneNo(p.zone),
        p.at,
        &bytes[start..start + BLOCK_SIZE * p.blocks as usize],
    )
}

/// Writes bytes to an area of a file of so many zones, one write in each zone that it touches, in rising
/// order, up to the first that fails.
#[tactic(auto, using(zn_device::proofs::Ordered::ordered_start, zn_device::proofs::Ordered::ordered_more, zn_device::proofs::Ordered::ordered_stopped, crate::proofs::Places::touched))]
pub fn write_pieces<D: Zoned>(
    dev: &mut D,
    a: &Area,
    zones: u32,
    bytes: &[u8],
) -> Result<(), DevError>
    requires lies { Lies (geometry_of (D.state dev.old).world) a.now zones }
    requires bytes { length bytes.now ≡ BLOCK_SIZE * a.now.blocks }
    requires unspoilt { (D.state dev.old).spoilt ≡ false }
    ensures done { Ordered (writes a.now bytes.now) result (D.state dev.old) (D.state dev.new) }
{
    let (from, to) = zones_touched(a, zones);
    for i in from..to {
        write_piece(dev, a, zones, i, bytes)?;
    }
    Ok(())
}

/// What a file shows after a write of so many bytes.
fn grow(shape: &Shape, file: &FileZones, shown: &mut Shown, len: u64)
    requires capacity { capacity_of shape.now file.now < 2 ^ 64 }
    requires size { IsTrue file.now.seq → shown.old.size + len ≤ capacity_of shape.now file.now }
    ensures { shown.new ≡ grown shape.now file.now shown.old len }
{
    if file.seq {
        shown.size += len;
        if shown.size == capacity(shape, file) {
            shown.held_open = false;
        }
    }
}

/// Writes bytes to a file. What it shows changes only where all of them are written.
#[tactic(auto, using(crate::proofs::Places::area_lies, crate::proofs::Places::capacity_below))]
pub fn write_file<D: Zoned>(
    dev: &mut D,
    file: &FileZones,
    shown: &mut Shown,
    offset: u64,
    bytes: &[u8],
) -> Result<(), DevError>
    requires file { IsFile (geometry_of (D.state dev.old).world) file.now }
    requires writable { IsWritable (shape_of (D.state dev.old).world) file.now shown.old offset (length bytes.now) }
    requires unspoilt { (D.state dev.old).spoilt ≡ false }
    ensures done { let area = area_of (shape_of (D.state dev.old).world) file.now offset (length bytes.now) in
        Ordered (writes area bytes.now) result (D.state dev.old) (D.state dev.new) }
    ensures shown { let shape = shape_of (D.state dev.old).world in
        shown.new ≡ shown_after result (grown shape file.now shown.old (length bytes.now)) shown.old }
{
    let shape = dev.shape();
    let from = (offset / BLOCK_SIZE as u64) as u32;
    let area = area(dev, file, from, (bytes.len() / BLOCK_SIZE) as u32);
    write_pieces(dev, &area, file.zones, bytes)?;
    grow(&shape, file, shown, bytes.len() as u64);
    Ok(())
}
