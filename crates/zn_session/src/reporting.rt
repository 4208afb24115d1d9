// The line that tells the zones, with or without a volume.
ghost use Rattle.std.specs.Prelude.{◌≡◌, ◌<◌, ◌^◌, ℕ, List, Option, length, map, false, IsSome};
ghost use Rattle.std.specs.List.{enumerate_from};
ghost use Rattle.zn_truth.specs.Truth.{room as room_of, kind_at};
ghost use Rattle.zn_truth.specs.World.{geometry_of};
ghost use Rattle.zn_lines.specs.Lines.{Zones};
ghost use Rattle.zn_lines.specs.Session.{line_now, place_by};
ghost use Rattle.zn_session.specs.Replies.{Kept, kept_in};
ghost use Rattle.zn_session.specs.SessionState.{held_by, zones_in, AreNumbered, HasRoom};
ghost use Rattle.zn_session.specs.Steps.{Means};
ghost use Rattle.zn_session.specs.Told.{told_of, ReportsOn};

use crate::held::{Held, device};
use crate::replies::Reply;
use crate::room::{Room, ZoneTold};
use zn_device::Zoned;
use zn_model::{Handle, Place, Refusal};
use zn_truth::{Kind, Shape, ZoneInfo, ZoneNo};
use zn_volume::report;

/// A report of all zones of the device that is held.
fn report_held<D: Zoned + Drop>(
    held: &mut Option<Held<D>>,
    infos: &mut Vec<ZoneInfo>,
) -> Result<(), Refusal>
    requires there { IsSome held.old }
    requires unspoilt { (held_by D.state held.old).device.spoilt ≡ false }
    requires places { length infos.old.items ≡ zones_in (held_by D.state held.old) }
    ensures reports { ReportsOn result infos.new.items (held_by D.state held.old) (held_by D.state held.new) }
    ensures places { length infos.new.items ≡ length infos.old.items }
    ensures there { IsSome held.new }
{
    match held {
        Some(Held::Bare(dev)) => report(dev, infos),
        Some(Held::Mounted(volume)) => volume.report(infos),
        None => unreachable!(),
    }
}

/// Where a zone is shown: nowhere while no volume is mounted.
fn place_of<D: Zoned + Drop>(held: &Option<Held<D>>, z: u32) -> Place
    ensures { result ≡ place_by (held_by D.state held.now).volume z }
{
    match held {
        Some(Held::Mounted(volume)) => volume.place(ZoneNo(z)),
        _ => Place::Unplaced,
    }
}

/// The blocks that a zone of this kind has room for.
fn room_of(shape: &Shape, kind: Kind) -> u32
    ensures { result ≡ room_of shape.now kind }
{
    match kind {
        Kind::Conventional => shape.zone_blocks,
        Kind::Sequential => shape.zone_capacity,
    }
}

/// What is told of a zone, of which a report told this.
fn told_of<D: Zoned + Drop>(held: &Option<Held<D>>, z: u32, info: &ZoneInfo) -> ZoneTold
    requires there { IsSome held.now }
    requires zone { z < zones_in (held_by D.state held.now) }
    ensures { result ≡ told_of (held_by D.state held.now) (z, info.now) }
{
    let dev = device(held);
    let kind = dev.kind(ZoneNo(z));
    ZoneTold {
        kind,
        info: *info,
        room: room_of(&dev.shape(), kind),
        place: place_of(held, z),
    }
}

/// Notes what is told of all zones, of which a report told this.
fn note_zones<D: Zoned + Drop>(held: &Option<Held<D>>, infos: &[ZoneInfo], zones: &mut [ZoneTold])
    requires there { IsSome held.now }
    requires infos { length infos.now ≡ zones_in (held_by D.state held.now) }
    requires zones { length zones.old ≡ zones_in (held_by D.state held.now) }
    ensures told { zones.new ≡ map (told_of (held_by D.state held.now)) (enumerate_from 0 infos.now) }
    ensures few { length zones.new < 2 ^ 32 }
{
    for z in 0..device(held).zones() {
        zones[z as usize] = told_of(held, z, &infos[z as usize]);
    }
}

/// Tells the kind, the condition, what is held and where it is shown of each zone, by one report of all zones.
pub fn zones<D: Zoned + Drop>(held: &mut Option<Held<D>>, room: &mut Room) -> Reply<'static>
    requires there { IsSome held.old }
    requires unspoilt { (held_by D.state held.old).device.spoilt ≡ false }
    requires room { HasRoom (zones_in (held_by D.state held.old)) room.old }
    ensures means { (entropy : List ℕ) (numbers : List (Option Handle)) → AreNumbered (held_by D.state held.old) numbers
        → Means line_now Zones result (kept_in room.new) entropy
        (held_by D.state held.old) (held_by D.state held.new) numbers numbers }
    ensures room { HasRoom (zones_in (held_by D.state held.old)) room.new }
    ensures there { IsSome held.new }
{
    match report_held(held, &mut room.infos) {
        Ok(()) => {
            note_zones(held, &room.infos, &mut room.zones);
            Reply::Zones
        }
        Err(refusal) => Reply::Refused(refusal),
    }
}
