// The parts of an area of a file, one in each zone that it touches.
ghost use Rattle.std.specs.Prelude.{◌≡◌, ℕ, ◌+◌, ◌-◌, ◌*◌, ◌/◌, ◌^◌, ◌<◌, ◌≤◌};
ghost use Rattle.zn_model.specs.ZoneFiles.{zone_room_of};
ghost use Rattle.zn_model.specs.Pieces.{piece as piece_of, zone_from, zone_to, Touched};
ghost use Rattle.zn_io.specs.Files.{shape_of};

use std::cmp::{max, min};
use zn_device::Zoned;
use zn_inode::zone_room;
use zn_model::{Area, FileZones, Piece};

/// The blocks of a file from one on, over the device that it lies on.
pub fn area<D: Zoned>(dev: &D, file: &FileZones, from: u32, blocks: u32) -> Area
    ensures { result ≡ record {
      first = file.now.first;
      room = zone_room_of (shape_of (D.state dev.now).world) file.now;
      from = from;
      blocks = blocks;
    } }
{
    Area {
        first: file.first,
        room: zone_room(&dev.shape(), file),
        from,
        blocks,
    }
}

/// The part of an area in the file's zone `i`, which it touches.
pub fn piece(a: &Area, i: u32) -> Piece
    requires touched { Touched a.now i }
    requires some { 0 < a.now.blocks }
    requires zone { a.now.first + i < 2 ^ 32 }
    requires size { i * a.now.room + a.now.room < 2 ^ 32 }
    requires end { a.now.from + a.now.blocks < 2 ^ 32 }
    ensures piece { result ≡ piece_of a.now i }
    ensures some { 0 < result.blocks }
    ensures room { result.at + result.blocks ≤ a.now.room }
    ensures inside { result.before + result.blocks ≤ a.now.blocks }
{
    let start = i * a.room;
    Piece {
        zone: a.first + i,
        at: a.from.saturating_sub(start),
        before: start.saturating_sub(a.from),
        blocks: min(a.from + a.blocks, start + a.room) - max(a.from, start),
    }
}

/// The first of a file's zones that an area touches, and the one after the last.
#[tactic(auto, using(crate::proofs::Places::zones_inside, crate::proofs::Places::from_below))]
pub fn zones_touched(a: &Area, zones: u32) -> (u32, u32)
    requires room { 0 < a.now.room }
    requires some { 0 < a.now.blocks }
    requires inside { a.now.from + a.now.blocks ≤ zones * a.now.room }
    requires size { zones * a.now.room < 2 ^ 32 }
    ensures from { result.0 ≡ zone_from a.now }
    ensures to { result.1 ≡ zone_to a.now }
    ensures order { result.0 < result.1 }
    ensures inside { result.1 ≤ zones }
{
    (a.from / a.room, (a.from + a.blocks - 1) / a.room + 1)
}
