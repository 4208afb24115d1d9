// Which names are a device's.
ghost use Rattle.std.specs.Prelude.{◌≡◌, ◌*◌, ◌≤◌};
ghost use Rattle.zn_stand.specs.ZoneNames.{worth_at, number_in_name, device_name, is_marker, is_zone_file, is_marker_of, is_name_of};

use crate::kinds::kind_of;
use crate::names::{offline_name, read_only_name, zone_name};
use zn_stand::Geometry;
use zn_truth::{Kind, ZoneNo};

/// The name of the file with the geometry's text.
pub const DEVICE: &str = "device";

/// The digit at a place of a name, times what it is worth.
fn worth_at(name: &[u8], place: usize, worth: u32) -> u32
    requires { worth ≤ 100000 }
    ensures value { result ≡ worth_at name.now place worth }
    ensures bound { result ≤ 255 * worth }
{
    let byte = name.get(place).copied().unwrap_or(0);
    byte.saturating_sub(b'0') as u32 * worth
}

/// The zone number in a name.
#[tactic(auto, unfolding(zn_stand::specs::ZoneNames::number_in_name))]
fn number_in_name(name: &[u8]) -> u32
    ensures { result ≡ number_in_name name.now }
{
    worth_at(name, 4, 100000)
        + worth_at(name, 5, 10000)
        + worth_at(name, 6, 1000)
        + worth_at(name, 7, 100)
        + worth_at(name, 8, 10)
        + worth_at(name, 9, 1)
}

/// Whether a name is one of a zone's two markers.
fn is_marker(kind: Kind, z: ZoneNo, name: &str) -> bool
    ensures { result ≡ is_marker kind z.0 name.now }
{
    name == read_only_name(kind, z, &mut [0; 13]) || name == offline_name(kind, z, &mut [0; 14])
}

/// Whether a name is one of a zone's three files.
fn is_zone_file(kind: Kind, z: ZoneNo, name: &str) -> bool
    ensures { result ≡ is_zone_file kind z.0 name.now }
{
    name == zone_name(kind, z, &mut [0; 10]) || is_marker(kind, z, name)
}

/// Whether a name is a marker of the zone whose number it has.
#[tactic(auto, unfolding(zn_stand::specs::ZoneNames::is_marker_of))]
pub fn is_marker_of(geo: &Geometry, name: &str) -> bool
    ensures { result ≡ is_marker_of geo.now name.now }
{
    let z = ZoneNo(number_in_name(name.as_bytes()));
    is_marker(kind_of(geo, z), z, name)
}

/// Whether a name is one of the device's files.
#[tactic(auto, unfolding(zn_stand::specs::ZoneNames::is_name_of, zn_stand::specs::ZoneNames::device_name))]
pub fn is_name_of(geo: &Geometry, name: &str) -> bool
    ensures { result ≡ is_name_of geo.now name.now }
{
    if name == DEVICE {
        return true;
    }
    let z = ZoneNo(number_in_name(name.as_bytes()));
    z.0 < geo.zones && is_zone_file(kind_of(geo, z), z, name)
}
