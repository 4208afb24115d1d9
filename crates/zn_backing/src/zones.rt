// The zones that a directory holds.
ghost use Rattle.std.specs.Prelude.{◌≡◌, ◌<◌, ◌/◌, ◌^◌, Some, IfOk, IfErr};
ghost use Rattle.zn_stand.specs.Directory.{Directory, contents, bytes_at};
ghost use Rattle.zn_stand.specs.AtRest.{zone_fault};
ghost use Rattle.zn_zone.specs.Facts.{IsStartZone};
ghost use Rattle.zn_files.specs.States.{directory};
ghost use Rattle.zn_backing.specs.Steps.{Steps, Sought};
ghost use Rattle.zn_backing.specs.Looks.{cond_listed, info_with, started_zone, Lists, IsFaultOf, IsZoneFound, HasGeometry, HasZones, AreStarted};

use crate::OpenError;
use crate::calls::len_of;
use crate::kinds::{is_file_length, kind_of};
use crate::listed::contains;
use crate::names::{offline_name, read_only_name, zone_name};
use std::alloc::Global;
use zn_files::{Files, Names};
use zn_stand::Geometry;
use zn_truth::{BLOCK_SIZE, Cond, Kind, ZoneInfo, ZoneNo};

/// The condition that the markers of a zone tell.
fn cond_listed(names: &Names, kind: Kind, z: ZoneNo) -> Cond
    ensures { result ≡ cond_listed names.now kind z.0 }
{
    if contains(names, offline_name(kind, z, &mut [0; 14])) {
        return Cond::Offline;
    }
    if contains(names, read_only_name(kind, z, &mut [0; 13])) {
        return Cond::ReadOnly;
    }
    Cond::Good
}

/// What a report tells of a zone with a file of this length.
fn info_with(cond: Cond, len: u64) -> ZoneInfo
    requires { len / 4096 < 2 ^ 32 }
    ensures { result ≡ info_with cond len }
{
    let held = match cond {
        Cond::Offline => 0,
        _ => (len / BLOCK_SIZE as u64) as u32,
    };
    ZoneInfo {
        cond,
        held,
        explicit: false,
    }
}

/// What a report tells of a zone of the directory.
fn zone_info<F: Files>(
    files: &mut F,
    names: &Names,
    geo: &Geometry,
    z: ZoneNo,
) -> Result<ZoneInfo, OpenError>
    requires { Lists names.now (F.state files.old) }
    ensures steps { Steps result (F.state files.old) (F.state files.new) }
    ensures start { IfOk result (λ info. IsStartZone geo.now.shape (started_zone geo.now z.0 info)) }
    ensures found { (d : Directory) → directory (F.state files.old) ≡ Some d
        → IfOk result (λ info. IsZoneFound (contents d) geo.now z.0 info) }
    ensures fault { (d : Directory) → directory (F.state files.old) ≡ Some d
        → IfErr result (λ e. IsFaultOf e (zone_fault (bytes_at (contents d)) geo.now z.0)) }
{
    let kind = kind_of(geo, z);
    let mut text = [0; 10];
    let name = zone_name(kind, z, &mut text);
    if !contains(names, name) {
        return Err(OpenError::MissingFile(kind, z));
    }
    let len = len_of(files, name)?;
    if !is_file_length(geo.shape, kind, len) {
        return Err(OpenError::BadZoneFile(kind, z, len));
    }
    Ok(info_with(cond_listed(names, kind, z), len))
}

/// What a report tells of all zones.
pub fn zones_in<F: Files>(
    alloc: Global,
    files: &mut F,
    names: &Names,
    geo: &Geometry,
) -> Result<Vec<ZoneInfo>, OpenError>
    requires listed { Lists names.now (F.state files.old) }
    requires geometry { (d : Directory) → directory (F.state files.old) ≡ Some d
        → HasGeometry (contents d) geo.now }
    ensures zones { Sought result (F.state files.old) (F.state files.new)
        (λ d infos. HasZones (contents d) geo.now geo.now.zones infos.items) }
    ensures started { IfOk result (λ infos. AreStarted geo.now geo.now.zones infos.items) }
{
    let mut infos = Vec::new(alloc);
    for z in 0..geo.zones {
        let info = match zone_info(files, names, geo, ZoneNo(z)) {
            Ok(info) => info,
            Err(e) => return Err(e),
        };
        infos.push(info)?;
    }
    Ok(infos)
}
