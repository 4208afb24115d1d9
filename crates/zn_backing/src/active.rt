// How many zones count toward the limit of active ones.
ghost use Rattle.std.specs.Prelude.{◌≡◌, ◌≤◌, length};
ghost use Rattle.zn_truth.specs.declared.limits.TheConstants.{MAX_ZONES};
ghost use Rattle.zn_backing.specs.Actives.{is_partly, active_from};

use crate::kinds::kind_of;
use zn_stand::Geometry;
use zn_truth::{Cond, Kind, ZoneInfo, ZoneNo};

/// Whether a zone that isn't open is active: good, sequential and partly written.
fn is_partly(geo: &Geometry, z: ZoneNo, info: &ZoneInfo) -> bool
    ensures { result ≡ is_partly geo.now z.0 info.now }
{
    kind_of(geo, z) == Kind::Sequential
        && info.cond == Cond::Good
        && (info.explicit || (0 < info.held && info.held < geo.shape.zone_capacity))
}

/// How many zones are active.
pub fn active_in(geo: &Geometry, infos: &[ZoneInfo]) -> u32
    requires { length infos.now ≤ MAX_ZONES }
    ensures count { result ≡ active_from geo.now 0 infos.now }
{
    let mut count = 0;
    for z in 0..infos.len() {
        if is_partly(geo, ZoneNo(z as u32), &infos[z]) {
            count += 1;
        }
    }
    count
}
