// What the device within is asked.
ghost use Rattle.std.specs.Prelude.{◌≡◌, ◌<◌, min, max, length, false, IfOk, IsTrue};
ghost use Rattle.zn_truth.specs.Truth.{info_at};
ghost use Rattle.zn_truth.specs.World.{geometry_of};
ghost use Rattle.zn_truth.specs.Inject.{is_zone};
ghost use Rattle.zn_device.specs.Harms.{Harmed};
ghost use Rattle.zn_fault.specs.Strikes.{without_value};

use std::cmp::{max, min};
use zn_device::{Harm, Zoned};
use zn_truth::{Cond, DevError, ZoneInfo, ZoneNo};

/// Whether the number is that of a zone.
#[tactic(auto, using(crate::proofs::Harming::zones_known))]
pub fn is_zone<D: Zoned>(dev: &D, z: ZoneNo) -> bool
    ensures value { result ≡ is_zone (D.state dev.now).world.truth z.0 }
    ensures known { IsTrue result → z.0 < length (geometry_of (D.state dev.now).world).kinds }
{
    z.0 < dev.zones()
}

/// What a report tells of the zone.
#[tactic(auto, using(crate::proofs::Harming::report_harmed))]
pub fn info_of<D: Harm>(dev: &mut D, z: ZoneNo) -> Result<ZoneInfo, DevError>
    requires zone { z.0 < length (geometry_of (D.state dev.old).world).kinds }
    requires unspoilt { (D.state dev.old).spoilt ≡ false }
    ensures info { IfOk result (λ info. info ≡ info_at (D.state dev.old).world.truth z.0) }
    ensures asked { Harmed (D.state dev.old).world.truth (without_value result)
        (D.state dev.old) (D.state dev.new) }
{
    let mut infos = [ZoneInfo {
        cond: Cond::Good,
        held: 0,
        explicit: false,
    }];
    dev.report(z, &mut infos)?;
    Ok(infos[0])
}

/// The length, raised to the durable one or lowered to the blocks held.
pub fn clamped(len: u32, durable: u32, held: u32) -> u32
    ensures { result ≡ min (max len durable) held }
{
    min(max(len, durable), held)
}
