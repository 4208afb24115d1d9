// A new device in an empty directory.
ghost use Rattle.std.specs.Prelude.{◌≡◌, ◌+◌, ◌<◌, IsTrue};
ghost use Rattle.zn_stand.specs.DeviceText.{device_text, is_within};
ghost use Rattle.zn_backing.specs.Making.{new_length, Holds, HasZonesBefore, MakesFiles};
ghost use Rattle.zn_backing.specs.Creating.{IsNew, RefusesNames, Creates};

use crate::CreateError;
use crate::kinds::{is_within, kind_of};
use crate::made::{make_file, make_zeros};
use crate::names::zone_name;
use crate::owned::DEVICE;
use crate::text::device_text;
use std::alloc::Global;
use zn_files::{Files, Text};
use zn_stand::Geometry;
use zn_truth::{BLOCK_SIZE, Kind, Shape, ZoneNo};

/// How long the file of a new zone is, in bytes.
fn new_length(shape: Shape, kind: Kind) -> u64
    ensures { result ≡ new_length shape kind }
{
    match kind {
        Kind::Conventional => BLOCK_SIZE as u64 * shape.zone_blocks as u64,
        Kind::Sequential => 0,
    }
}

/// Makes the file of a zone, behind those of the zones before it.
fn make_zone<F: Files>(files: &mut F, geo: &Geometry, z: ZoneNo) -> Result<(), CreateError>
    requires within { IsTrue (is_within geo.now) }
    requires place { z.0 < geo.now.zones }
    requires before { Holds (F.state files.old) (HasZonesBefore geo.now z.0) }
    ensures { MakesFiles geo.now result (F.state files.old) (F.state files.new) (HasZonesBefore geo.now (z.0 + 1)) }
{
    let kind = kind_of(geo, z);
    let mut text = [0; 10];
    let name = zone_name(kind, z, &mut text);
    make_zeros(files, name, new_length(geo.shape, kind))
}

/// Makes the files of all zones.
fn make_zones<F: Files>(files: &mut F, geo: &Geometry) -> Result<(), CreateError>
    requires within { IsTrue (is_within geo.now) }
    requires none { Holds (F.state files.old) (HasZonesBefore geo.now 0) }
    ensures { MakesFiles geo.now result (F.state files.old) (F.state files.new) (HasZonesBefore geo.now geo.now.zones) }
{
    for z in 0..geo.zones {
        make_zone(files, geo, ZoneNo(z))?;
    }
    Ok(())
}

/// Makes the file `device`, behind those of all zones.
fn make_device<F: Files>(files: &mut F, geo: &Geometry, text: &[u8]) -> Result<(), CreateError>
    requires within { IsTrue (is_within geo.now) }
    requires text { text.now ≡ device_text geo.now }
    requires zones { Holds (F.state files.old) (HasZonesBefore geo.now geo.now.zones) }
    ensures { MakesFiles geo.now result (F.state files.old) (F.state files.new) (IsNew geo.now) }
{
    make_file(files, DEVICE, text)
}

/// Makes the files of a device.
fn make_files<F: Files>(files: &mut F, geo: &Geometry, text: &[u8]) -> Result<(), CreateError>
    requires within { IsTrue (is_within geo.now) }
    requires text { text.now ≡ device_text geo.now }
    requires none { Holds (F.state files.old) (HasZonesBefore geo.now 0) }
    ensures { MakesFiles geo.now result (F.state files.old) (F.state files.new) (IsNew geo.now) }
{
    make_zones(files, geo)?;
    make_device(files, geo, text)
}

/// Refuses a directory that isn't empty.
fn refuse_names<F: Files>(alloc: Global, files: &mut F) -> Result<(), CreateError>
    ensures { RefusesNames result (F.state files.old) (F.state files.new) }
{
    let names = files.names()?;
    if names.count() == 0 {
        return Ok(());
    }
    Err(CreateError::Exists(Text::new(alloc, names.at(0).as_bytes())?))
}

/// Makes a zoned device in an empty directory: good zones, sequential ones empty, conventional ones full of zeros.
/// Answers `BadGeometry` where a limit is broken, before it makes any call on a file, and `Exists` with the first name
/// of a directory that isn't empty. The file `device` comes last, once the file of each zone is durable.
pub fn create<F: Files>(alloc: Global, files: &mut F, geo: &Geometry) -> Result<(), CreateError>
    ensures { Creates geo.now result (F.state files.old) (F.state files.new) }
{
    if !is_within(geo) {
        return Err(CreateError::BadGeometry);
    }
    refuse_names(alloc, files)?;
    let text = device_text(alloc, geo)?;
    make_files(files, geo, &text)
}
