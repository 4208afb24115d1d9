// A zone turns to a worse condition.
ghost use Rattle.std.specs.Prelude.{◌≡◌, ◌<◌, length, Ok};
ghost use Rattle.zn_truth.specs.Truth.{zone_at};
ghost use Rattle.zn_truth.specs.Loss.{turned};
ghost use Rattle.zn_truth.specs.Limits.{IsWithinLimits};
ghost use Rattle.zn_truth.specs.Inject.{severity};
ghost use Rattle.zn_zone.specs.Machine.{facts, geometry_in, state_at};
ghost use Rattle.zn_files.specs.States.{directory};
ghost use Rattle.zn_stand.specs.ZoneNames.{zone_name};
ghost use Rattle.zn_zloop.specs.Served.{IsThere, Served};
ghost use Rattle.zn_zloop.specs.Turned.{IsMissing, marker_name, IsEmptyFile, Turns};
ghost use Rattle.zn_zloop.specs.Seen.{truth_seen};
ghost use Rattle.zn_zloop.specs.Holding.{IsSoundZloop};
ghost use Rattle.zn_zloop.specs.Following.{Follows, Touches};

use crate::calls::{create_through, sync};
use crate::kept::Kept;
use zn_backing::{offline_name, read_only_name};
use zn_files::Files;
use zn_truth::{Cond, DevError, Kind, ZoneNo};
use zn_zone::Zones;

/// Makes the marker of a zone that turns to this condition.
fn mark<F: Files>(files: &mut F, kind: Kind, z: ZoneNo, to: Cond) -> Result<(), DevError>
    requires { IsMissing (F.state files.old) (marker_name to kind z.0) }
    ensures { Served (marker_name to kind z.0) IsEmptyFile result (F.state files.old) (F.state files.new) }
{
    match to {
        Cond::Good | Cond::ReadOnly => {
            let mut text = [0; 13];
            create_through(files, read_only_name(kind, z, &mut text))
        }
        Cond::Offline => {
            let mut text = [0; 14];
            create_through(files, offline_name(kind, z, &mut text))
        }
    }
}

/// Makes the file of a zone that turns to this condition durable, and then its marker.
#[tactic(auto, using(crate::proofs::Turning::turns_then, crate::proofs::Turning::turns_failed, crate::proofs::Turning::still_missing))]
fn turn_files<F: Files>(
    files: &mut F,
    name: &str,
    kind: Kind,
    z: ZoneNo,
    to: Cond,
) -> Result<(), DevError>
    requires there { IsThere (F.state files.old) name.now }
    requires name { name.now ≡ zone_name kind z.0 }
    requires missing { IsMissing (F.state files.old) (marker_name to kind z.0) }
    ensures { Turns name.now (marker_name to kind z.0) result (F.state files.old) (F.state files.new) }
{
    sync(files, name)?;
    mark(files, kind, z, to)
}

/// Turns a zone to a worse condition. Its file is synced, so that all that it holds is durable; offline, the zone keeps
/// the file, but holds nothing of it any more.
pub fn turn_zone<F: Files>(
    files: &mut F,
    zones: &mut Zones,
    kepts: &mut Vec<Kept>,
    listed: &Vec<u32>,
    name: &str,
    z: ZoneNo,
    to: Cond,
) -> Result<(), DevError>
    requires device { IsSoundZloop (directory (F.state files.old)) (facts zones.old) kepts.old.items listed.now.items }
    requires name { name.now ≡ zone_name (state_at zones.old z.0).kind z.0 }
    requires within { IsWithinLimits (geometry_in zones.old) }
    requires zone { z.0 < length (geometry_in zones.old).kinds }
    requires worse { severity
        (zone_at (truth_seen (directory (F.state files.old)) (facts zones.old) kepts.old.items) z.0).cond < severity to }
    ensures follows { let t = truth_seen (directory (F.state files.old)) (facts zones.old) kepts.old.items in
        Follows (record { reply = Ok tt; truth = turned t z.0 to }) result
        (directory (F.state files.new)) (facts zones.new) kepts.new.items listed.now.items }
    ensures touches { let t = truth_seen (directory (F.state files.old)) (facts zones.old) kepts.old.items in
        Touches (record { reply = Ok tt; truth = turned t z.0 to }) result
        (F.state files.old) (F.state files.new) }
    ensures geometry { geometry_in zones.new ≡ geometry_in zones.old }
{
    let kind = zones.kind(z);
    let info = zones.info(z);
    turn_files(files, name, kind, z, to)?;
    zones.turn(z, to);
    kepts[z.0 as usize].turn(info.held, to);
    Ok(())
}
