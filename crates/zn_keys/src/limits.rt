// The geometry of what is given, and the limits of a device.
ghost use Rattle.std.specs.Prelude.{◌≡◌, ◌<◌, IfNone, IfSome};
ghost use Rattle.zn_stand.specs.declared.numbers.TheConstants.{GREATEST_NUMBER};
ghost use Rattle.zn_stand.specs.DeviceText.{is_within};
ghost use Rattle.zn_keys.specs.Keys.{geometry_by, geometry_with, limited};

use crate::given::Given;
use zn_stand::Geometry;
use zn_truth::{MAX_BLOCKS, MAX_ZONES, Shape};

/// Whether a geometry keeps to the limits.
#[tactic(auto, unfolding(zn_stand::specs::DeviceText::is_within))]
fn is_within(geo: &Geometry) -> bool
    ensures { result ≡ is_within geo.now }
{
    let shape = geo.shape;
    1 <= geo.zones
        && geo.zones <= MAX_ZONES
        && geo.conv <= geo.zones
        && 2 <= shape.zone_capacity
        && shape.zone_capacity <= shape.zone_blocks
        && shape.zone_blocks <= MAX_BLOCKS
        && shape.max_open <= MAX_ZONES
        && shape.max_active <= MAX_ZONES
        && (shape.max_open == 0 || shape.max_active == 0 || shape.max_open <= shape.max_active)
}

/// A number as a field of a geometry holds it, if one does.
fn field_of(number: u64) -> Option<u32>
    ensures same { IfSome result (λ n. n ≡ number) }
    ensures greater { IfNone result (GREATEST_NUMBER < number) }
{
    u32::try_from(number).ok()
}

/// The geometry of these two sizes, in blocks, and of what else is given, if it keeps to the limits.
fn geometry_with(given: Given, size: u64, zone_size: u64) -> Option<Geometry>
    ensures { result ≡ limited (geometry_with given size zone_size) }
{
    if zone_size == 0 {
        return None;
    }
    let zones = field_of(size.div_ceil(zone_size))?;
    let zone_blocks = field_of(zone_size)?;
    let zone_capacity = field_of(given.zone_capacity.unwrap_or(zone_size))?;
    let geo = Geometry {
        zones,
        conv: given.conv_zones.unwrap_or(0),
        shape: Shape {
            zone_blocks,
            zone_capacity,
            max_open: given.max_open.unwrap_or(0),
            max_active: given.max_active.unwrap_or(0),
        },
    };
    is_within(&geo).then_some(geo)
}

/// The geometry of what is given, if both sizes are and it keeps to the limits.
pub fn geometry_by(given: Given) -> Option<Geometry>
    ensures { result ≡ geometry_by given }
{
    geometry_with(given, given.size?, given.zone_size?)
}
