// The limits of a device, and the kinds of its zones.
ghost use Rattle.std.specs.Prelude.{◌≡◌, ◌<◌, ◌/◌, ◌^◌};
ghost use Rattle.std.specs.Bool.{OnTrue};
ghost use Rattle.zn_stand.specs.ZoneNames.{kind_of};
ghost use Rattle.zn_stand.specs.DeviceText.{is_within};
ghost use Rattle.zn_stand.specs.Standing.{is_file_length};

use zn_stand::Geometry;
use zn_truth::{BLOCK_SIZE, Kind, MAX_BLOCKS, MAX_ZONES, Shape, ZoneNo};

/// Whether a geometry keeps to the limits.
#[tactic(auto, unfolding(zn_stand::specs::DeviceText::is_within))]
pub fn is_within(geo: &Geometry) -> bool
    ensures { result ≡ is_within geo.now }
{
    let shape = geo.shape;
    1 <= geo.zones
        && geo.zones <= MAX_ZONES
        && geo.conv <= geo.zones
        && 2 <= shape.zone_capacity
        && shape.zone_capacity <= shape.zone_blocks
        && shape.zone_blocks <= MAX_BLOCKS
        && shape.max_open <= MAX_ZONES
        && shape.max_active <= MAX_ZONES
        && (shape.max_open == 0 || shape.max_active == 0 || shape.max_open <= shape.max_active)
}

/// The kind of a zone: the first ones are conventional.
pub fn kind_of(geo: &Geometry, z: ZoneNo) -> Kind
    ensures { result ≡ kind_of geo.now z.0 }
{
    if z.0 < geo.conv {
        Kind::Conventional
    } else {
        Kind::Sequential
    }
}

/// Whether the file of a zone may be so many bytes long.
pub fn is_file_length(shape: Shape, kind: Kind, len: u64) -> bool
    ensures fits { result ≡ is_file_length shape kind len }
    ensures blocks { OnTrue result (len / 4096 < 2 ^ 32) }
{
    match kind {
        Kind::Conventional => len == BLOCK_SIZE as u64 * shape.zone_blocks as u64,
        Kind::Sequential => {
            BLOCK_SIZE as u64 * (len / BLOCK_SIZE as u64) == len
                && len <= BLOCK_SIZE as u64 * shape.zone_capacity as u64
        }
    }
}
