// All zones made durable.
ghost use Rattle.std.specs.Prelude.{◌≡◌, ◌+◌, ◌<◌, length, drop};
ghost use Rattle.zn_truth.specs.Orders.{FlushAll, done};
ghost use Rattle.zn_truth.specs.Limits.{IsWithinLimits};
ghost use Rattle.zn_zone.specs.Machine.{facts, geometry_in};
ghost use Rattle.zn_files.specs.States.{directory};
ghost use Rattle.zn_zloop.specs.Flushed.{flushed_file, Flushes};
ghost use Rattle.zn_zloop.specs.Served.{IsThere, BreakCause, Served};
ghost use Rattle.zn_zloop.specs.Seen.{truth_seen};
ghost use Rattle.zn_zloop.specs.Holding.{IsSoundZloop};
ghost use Rattle.zn_zloop.specs.Following.{Follows, Touches};
ghost use Rattle.std.specs.Option.{option_map};

use crate::calls::sync;
use crate::kept::Kept;
use zn_backing::zone_name;
use zn_files::Files;
use zn_truth::{DevError, ZoneNo};
use zn_zone::Zones;

/// Syncs the file of a zone, if it changed since its last sync.
fn flush_file<F: Files>(files: &mut F, name: &str, changed: bool) -> Result<(), DevError>
    requires { IsThere (F.state files.old) name.now }
    ensures { Served name.now (λ o p. p ≡ option_map (flushed_file changed) o) result
        (F.state files.old) (F.state files.new) }
{
    if !changed {
        return Ok(());
    }
    sync(files, name)
}

/// Makes the zone at a place of the list durable: those before it are.
fn flush_zone<F: Files>(
    files: &mut F,
    zones: &Zones,
    kepts: &mut Vec<Kept>,
    listed: &Vec<u32>,
    i: usize,
) -> Result<(), DevError>
    requires place { i < length listed.now.items }
    requires device { IsSoundZloop
        (directory (F.state files.old)) (facts zones.now) kepts.old.items (drop i listed.now.items) }
    requires within { IsWithinLimits (geometry_in zones.now) }
    ensures flushes { Flushes result (directory (F.state files.old)) (directory (F.state files.new))
        (facts zones.now) kepts.old.items kepts.new.items (drop (i + 1) listed.now.items) }
    ensures cause { BreakCause result (F.state files.old).faults (F.state files.new).faults }
{
    let z = ZoneNo(listed[i]);
    let mut text = [0; 10];
    let name = zone_name(zones.kind(z), z, &mut text);
    flush_file(files, name, kepts[z.0 as usize].mark.is_changed())?;
    kepts[z.0 as usize].flush(zones.info(z).held);
    Ok(())
}

/// Makes all durable: exactly the files that changed since their last sync are synced.
pub fn flush_zones<F: Files>(
    files: &mut F,
    zones: &Zones,
    kepts: &mut Vec<Kept>,
    listed: &mut Vec<u32>,
) -> Result<(), DevError>
    requires device { IsSoundZloop (directory (F.state files.old)) (facts zones.now) kepts.old.items listed.old.items }
    requires within { IsWithinLimits (geometry_in zones.now) }
    ensures follows { Follows
        (done (truth_seen (directory (F.state files.old)) (facts zones.now) kepts.old.items) FlushAll) result
        (directory (F.state files.new)) (facts zones.now) kepts.new.items listed.new.items }
    ensures touches { Touches
        (done (truth_seen (directory (F.state files.old)) (facts zones.now) kepts.old.items) FlushAll) result
        (F.state files.old) (F.state files.new) }
{
    for i in 0..listed.len() {
        flush_zone(files, zones, kepts, listed, i)?;
    }
    listed.clear();
    Ok(())
}
