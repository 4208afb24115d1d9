// Reads and reports.
ghost use Rattle.std.specs.Prelude.{◌≡◌, ◌+◌, ◌*◌, ◌/◌, ◌<◌, ◌≤◌, List, ℕ, length, map, true, IsOk};
ghost use Rattle.std.specs.List.{range_with_len};
ghost use Rattle.zn_truth.specs.declared.limits.TheConstants.{BLOCK_SIZE, MAX_ZONES};
ghost use Rattle.zn_truth.specs.Truth.{bytes_at};
ghost use Rattle.zn_truth.specs.Orders.{ReadAt, done};
ghost use Rattle.zn_truth.specs.Limits.{IsWithinLimits};
ghost use Rattle.zn_truth.specs.Obeying.{IsWhole, Fits};
ghost use Rattle.zn_zone.specs.Facts.{facts_at, info_of};
ghost use Rattle.zn_zone.specs.Machine.{facts, geometry_in, state_at};
ghost use Rattle.zn_files.specs.States.{directory, is_told};
ghost use Rattle.zn_stand.specs.ZoneNames.{zone_name};
ghost use Rattle.zn_zloop.specs.Seen.{truth_seen};
ghost use Rattle.zn_zloop.specs.Holding.{IsSoundZloop};
ghost use Rattle.zn_zloop.specs.Following.{Follows, Touches};

use crate::calls::read;
use crate::kept::Kept;
use zn_files::Files;
use zn_truth::{BLOCK_SIZE, DevError, ZoneInfo, ZoneNo};
use zn_zone::Zones;

/// Reads, unless it is refused.
pub fn read_zone<F: Files>(
    files: &mut F,
    zones: &Zones,
    kepts: &Vec<Kept>,
    listed: &Vec<u32>,
    name: &str,
    z: ZoneNo,
    at: u32,
    out: &mut [u8],
) -> Result<(), DevError>
    requires device { IsSoundZloop (directory (F.state files.old)) (facts zones.now) kepts.now.items listed.now.items }
    requires name { name.now ≡ zone_name (state_at zones.now z.0).kind z.0 }
    requires within { IsWithinLimits (geometry_in zones.now) }
    requires whole { IsWhole out.old }
    requires fits { Fits (geometry_in zones.now) z.0 at (length out.old / BLOCK_SIZE) }
    ensures follows { Follows
        (done (truth_seen (directory (F.state files.old)) (facts zones.now) kepts.now.items)
        (ReadAt z.0 at (length out.old / BLOCK_SIZE)))
        result (directory (F.state files.new)) (facts zones.now) kepts.now.items listed.now.items }
    ensures touches { Touches
        (done (truth_seen (directory (F.state files.old)) (facts zones.now) kepts.now.items)
        (ReadAt z.0 at (length out.old / BLOCK_SIZE)))
        result (F.state files.old) (F.state files.new) }
    ensures bytes { IsOk result → is_told (F.state files.old) ≡ true → out.new
        ≡ bytes_at (truth_seen (directory (F.state files.old)) (facts zones.now) kepts.now.items)
        z.0 at (length out.old / BLOCK_SIZE) }
{
    zones.may_read(z, at + (out.len() / BLOCK_SIZE) as u32)?;
    read(files, name, BLOCK_SIZE as u64 * at as u64, out)
}

/// Tells the zones from `first` on.
pub fn report_zones(zones: &Zones, first: ZoneNo, out: &mut [ZoneInfo])
    requires zones { first.0 + length out.old ≤ length zones.now.zones }
    requires few { length zones.now.zones ≤ MAX_ZONES }
    ensures { out.new
        ≡ map (λ z. info_of (facts_at (facts zones.now) z)) (range_with_len first.0 (length out.old)) }
{
    for (i, info) in out.iter_mut().enumerate() {
        *info = zones.info(ZoneNo(first.0 + i as u32));
    }
}
