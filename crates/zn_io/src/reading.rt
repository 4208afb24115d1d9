// Reads of a file.
ghost use Rattle.std.specs.Prelude.{◌≡◌, ℕ, ◌+◌, ◌-◌, ◌*◌, ◌^◌, ◌<◌, ◌≤◌, ◌++◌, length, take, drop, true, false, IsOk, IfOk, IsErr, vec_capacity};
ghost use Rattle.zn_model.specs.declared.limits.TheConstants.{MOST_BYTES};
ghost use Rattle.zn_truth.specs.World.{geometry_of};
ghost use Rattle.zn_device.specs.States.{Commanded, Ordered};
ghost use Rattle.zn_model.specs.ZoneFiles.{capacity_of};
ghost use Rattle.zn_model.specs.Pieces.{piece as piece_of, read_in, reads, bytes_in, area_bytes, Lies, Touched};
ghost use Rattle.zn_model.specs.Reading.{read_end, read_area, read_orders, read_bytes};
ghost use Rattle.zn_io.specs.Files.{IsFile, as_reply, shape_of};

use crate::pieces::{area, piece, zones_touched};
use std::cmp::min;
use zn_device::Zoned;
use zn_model::{Area, FileZones, Shown};
use zn_truth::{BLOCK_SIZE, DevError, ZoneNo};

/// The bytes of all blocks that such a read may touch.
pub const SCRATCH: usize = BLOCK_SIZE * 257;

/// Reads the part of an area that lies in the file's zone `i` into its place in `out`.
fn read_piece<D: Zoned>(
    dev: &mut D,
    a: &Area,
    zones: u32,
    i: u32,
    out: &mut [u8],
) -> Result<(), DevError>
    requires lies { Lies (geometry_of (D.state dev.old).world) a.now zones }
    requires zone { i < zones }
    requires touched { Touched a.now i }
    requires bytes { length out.old ≡ BLOCK_SIZE * a.now.blocks }
    requires unspoilt { (D.state dev.old).spoilt ≡ false }
    ensures done { Commanded (read_in a.now i) result (D.state dev.old) (D.state dev.new) }
    ensures bytes { let p = piece_of a.now i in
        let truth = (D.state dev.old).world.truth in
        IsOk result → truth.told ≡ true →
        take (BLOCK_SIZE * (p.before + p.blocks)) out.new
        ≡ take (BLOCK_SIZE * p.before) out.old ++ bytes_in truth a.now i }
{
    let p = piece(a, i);
    let start = BLOCK_SIZE * p.before as usize;
    dev.read(
        ZoneNo(p.zone),
        p.at,
        &mut out[start..start + BLOCK_SIZE * p.blocks as usize],
    )
}

/// Reads an area of a file of so many zones, one read in each zone that it touches, in rising order, up to
/// the first that fails.
#[tactic(auto, using(zn_device::proofs::Ordered::ordered_start, zn_device::proofs::Ordered::ordered_more, zn_device::proofs::Ordered::ordered_stopped, crate::proofs::Places::touched, crate::proofs::Readings::read_keeps, crate::proofs::Readings::read_first, crate::proofs::Readings::read_last))]
pub fn read_pieces<D: Zoned>(
    dev: &mut D,
    a: &Area,
    zones: u32,
    out: &mut [u8],
) -> Result<(), DevError>
    requires lies { Lies (geometry_of (D.state dev.old).world) a.now zones }
    requires bytes { length out.old ≡ BLOCK_SIZE * a.now.blocks }
    requires unspoilt { (D.state dev.old).spoilt ≡ false }
    ensures done { Ordered (reads a.now) result (D.state dev.old) (D.state dev.new) }
    ensures bytes { let truth = (D.state dev.old).world.truth in
        IsOk result → truth.told ≡ true → out.new ≡ area_bytes truth a.now }
{
    let (from, to) = zones_touched(a, zones);
    for i in from..to {
        read_piece(dev, a, zones, i, out)?;
    }
    Ok(())
}

/// The blocks that cover the bytes from an offset to an end.
fn covering<D: Zoned>(dev: &D, file: &FileZones, offset: u64, end: u64) -> Area
    requires order { offset ≤ end }
    requires end { end ≤ BLOCK_SIZE * 2 ^ 32 - BLOCK_SIZE }
    ensures { result ≡ read_area (shape_of (D.state dev.now).world) file.now offset end }
{
    let from = offset / BLOCK_SIZE as u64;
    let to = end.div_ceil(BLOCK_SIZE as u64);
    area(dev, file, from as u32, (to - from) as u32)
}

/// Makes a buffer at least so long, in the room that it has. Its memory is touched by the first call that needs it.
pub fn lengthen(buffer: &mut Vec<u8>, len: usize)
    requires { len ≤ vec_capacity buffer.old }
    ensures long { len ≤ length buffer.new.items }
    ensures room { vec_capacity buffer.old ≤ vec_capacity buffer.new }
{
    if buffer.len() < len {
        buffer.resize(len, 0).unwrap();
    }
}

/// Moves so many bytes from a place on to the front.
fn move_to_front(room: &mut [u8], from: usize, count: usize)
    requires { from + count ≤ length room.old }
    ensures moved { take count room.new ≡ take count (drop from room.old) }
    ensures room { length room.new ≡ length room.old }
{
    if from > 0 {
        room.copy_within(from..from + count, 0);
    }
}

/// Reads at most `len` bytes of a file into the front of some room, at most up to the size that it shows, and tells how
/// many. The room has place for all blocks that they lie in, and its other bytes may change; all of it may, where the
/// read fails.
#[tactic(auto, using(zn_device::proofs::Ordered::ordered_none, crate::proofs::Places::read_lies, crate::proofs::Places::capacity_below))]
pub fn read_front<D: Zoned>(
    dev: &mut D,
    file: &FileZones,
    shown: &Shown,
    offset: u64,
    len: u32,
    room: &mut [u8],
) -> Result<u64, DevError>
    requires file { IsFile (geometry_of (D.state dev.old).world) file.now }
    requires size { shown.now.size ≤ capacity_of (shape_of (D.state dev.old).world) file.now }
    requires offset { offset ≤ capacity_of (shape_of (D.state dev.old).world) file.now }
    requires len { len ≤ MOST_BYTES }
    requires room { SCRATCH ≤ length room.old }
    requires unspoilt { (D.state dev.old).spoilt ≡ false }
    ensures done { let end = read_end shown.now offset len in
        Ordered (read_orders (shape_of (D.state dev.old).world) file.now offset end) (as_reply result)
        (D.state dev.old) (D.state dev.new) }
    ensures count { IfOk result (λ n. n ≡ read_end shown.now offset len - offset) }
    ensures bytes { let old = (D.state dev.old).world in
        let end = read_end shown.now offset len in
        IfOk result (λ n. old.truth.told ≡ true →
        take n room.new ≡ read_bytes old.truth (shape_of old) file.now offset end) }
{
    let end = min(offset + u64::from(len), shown.size);
    if end <= offset {
        return Ok(0);
    }
    let area = covering(dev, file, offset, end);
    let covered = BLOCK_SIZE * area.blocks as usize;
    read_pieces(dev, &area, file.zones, &mut room[..covered])?;
    let skipped = (offset % BLOCK_SIZE as u64) as usize;
    move_to_front(room, skipped, (end - offset) as usize);
    Ok(end - offset)
}

/// Reads bytes of a file into the front of `out`, at most up to the size that it shows, and tells how many.
/// The blocks that they lie in are read into `scratch` first.
pub fn read_file<D: Zoned>(
    dev: &mut D,
    file: &FileZones,
    shown: &Shown,
    offset: u64,
    out: &mut [u8],
    scratch: &mut [u8],
) -> Result<u64, DevError>
    requires file { IsFile (geometry_of (D.state dev.old).world) file.now }
    requires size { shown.now.size ≤ capacity_of (shape_of (D.state dev.old).world) file.now }
    requires offset { offset ≤ capacity_of (shape_of (D.state dev.old).world) file.now }
    requires len { length out.old ≤ MOST_BYTES }
    requires scratch { SCRATCH ≤ length scratch.old }
    requires unspoilt { (D.state dev.old).spoilt ≡ false }
    ensures done { let end = read_end shown.now offset (length out.old) in
        Ordered (read_orders (shape_of (D.state dev.old).world) file.now offset end) (as_reply result)
        (D.state dev.old) (D.state dev.new) }
    ensures count { IfOk result (λ n. n ≡ read_end shown.now offset (length out.old) - offset) }
    ensures bytes { let old = (D.state dev.old).world in
        let end = read_end shown.now offset (length out.old) in
        IfOk result (λ n. old.truth.told ≡ true →
        take n out.new ≡ read_bytes old.truth (shape_of old) file.now offset end) }
    ensures rest { IfOk result (λ n. drop n out.new ≡ drop n out.old) }
    ensures failed { IsErr result → out.new ≡ out.old }
{
    let count = read_front(dev, file, shown, offset, out.len() as u32, scratch)?;
    out[..count as usize].copy_from_slice(&scratch[..count as usize]);
    Ok(count)
}
