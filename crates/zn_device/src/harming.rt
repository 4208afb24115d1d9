// Harm to zones in memory.
ghost use Rattle.std.specs.Prelude.{◌≡◌, ◌<◌, ◌≤◌, List, length};
ghost use Rattle.zn_truth.specs.declared.Kind.TheVariants.{Conventional};
ghost use Rattle.zn_truth.specs.Truth.{zone_at, with_zone, kind_at, geometry};
ghost use Rattle.zn_truth.specs.Loss.{turned};
ghost use Rattle.zn_truth.specs.Power.{settled};
ghost use Rattle.zn_truth.specs.Inject.{severity};
ghost use Rattle.zn_truth.specs.Obeying.{IsZoneToManage};
ghost use Rattle.zn_zone.specs.Facts.{Facts};
ghost use Rattle.zn_zone.specs.Machine.{facts};
ghost use Rattle.zn_device.specs.declared.store.Store.{Store};
ghost use Rattle.zn_device.specs.Harms.{scrubbed, rested};
ghost use Rattle.zn_device.specs.Stores.{truth_of, HasStores, IsSoundDevice};

use crate::store::Store;
use zn_truth::{Cond, ZoneNo};
use zn_zone::Zones;

/// The durable length of a zone.
pub fn durable_stored(stores: &[Store], z: ZoneNo) -> u32
    requires { z.0 < length stores.now }
    ensures { (f : Facts) → length stores.now ≡ length f.zones →
        result ≡ (zone_at (truth_of f stores.now) z.0).durable }
{
    stores[z.0 as usize].durable()
}

/// Turns a zone to a worse condition.
pub fn turn_stored(zones: &mut Zones, stores: &mut Vec<Store>, z: ZoneNo, to: Cond)
    requires device { IsSoundDevice (facts zones.old) stores.old.items }
    requires zone { z.0 < length (geometry (truth_of (facts zones.old) stores.old.items)).kinds }
    requires worse { severity (zone_at (truth_of (facts zones.old) stores.old.items) z.0).cond < severity to }
    ensures truth { truth_of (facts zones.new) stores.new.items
        ≡ turned (truth_of (facts zones.old) stores.old.items) z.0 to }
    ensures stored { HasStores (facts zones.new) stores.new.items }
{
    let info = zones.info(z);
    zones.turn(z, to);
    stores[z.0 as usize].turn(info, to);
}

/// Settles a sequential zone at so many blocks.
pub fn settle_stored(
    zones: &mut Zones,
    stores: &mut Vec<Store>,
    z: ZoneNo,
    from: u32,
    len: u32,
    fill: Option<u8>,
)
    requires device { IsSoundDevice (facts zones.old) stores.old.items }
    requires zone { IsZoneToManage (geometry (truth_of (facts zones.old) stores.old.items)) z.0 }
    requires from { (zone_at (truth_of (facts zones.old) stores.old.items) z.0).durable ≤ from }
    requires order { from ≤ len }
    requires len { len ≤ (zone_at (truth_of (facts zones.old) stores.old.items) z.0).held }
    ensures truth { let t = truth_of (facts zones.old) stores.old.items in
        truth_of (facts zones.new) stores.new.items
        ≡ with_zone t z.0 (settled (zone_at t z.0) from len fill) }
    ensures stored { HasStores (facts zones.new) stores.new.items }
{
    // A full zone is durable as a whole, so nothing of it is cut away.
    zones.sound();
    zones.cut(z, len);
    stores[z.0 as usize].settle(from, len, fill);
}

/// Scrubs a conventional zone.
pub fn scrub_stored(zones: &Zones, stores: &mut Vec<Store>, z: ZoneNo, fill: Option<u8>)
    requires device { IsSoundDevice (facts zones.now) stores.old.items }
    requires zone { z.0 < length (geometry (truth_of (facts zones.now) stores.old.items)).kinds }
    requires kind { kind_at (geometry (truth_of (facts zones.now) stores.old.items)) z.0 ≡ Conventional }
    ensures truth { let t = truth_of (facts zones.now) stores.old.items in
        truth_of (facts zones.now) stores.new.items ≡ with_zone t z.0 (scrubbed (zone_at t z.0) fill) }
    ensures stored { HasStores (facts zones.now) stores.new.items }
{
    stores[z.0 as usize].scrub(fill);
}

/// Closes every open zone, whatever is stored of them.
#[tactic(auto, using(crate::proofs::Harms::rest_truth, crate::proofs::Harms::device_rested))]
pub fn rest_stored(zones: &mut Zones)
    ensures truth { (stores : List Store) →
        truth_of (facts zones.new) stores ≡ rested (truth_of (facts zones.old) stores) }
    ensures device { (stores : List Store) →
        IsSoundDevice (facts zones.old) stores → IsSoundDevice (facts zones.new) stores }
{
    zones.rest();
}
