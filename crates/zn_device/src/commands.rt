// Commands to zones in memory.
ghost use Rattle.std.specs.Prelude.{◌≡◌, ◌+◌, ◌/◌, ◌≤◌, length, map, IsOk};
ghost use Rattle.std.specs.List.{range_with_len};
ghost use Rattle.zn_truth.specs.declared.limits.TheConstants.{MAX_ZONES};
ghost use Rattle.zn_truth.specs.Truth.{bytes_at, geometry};
ghost use Rattle.zn_truth.specs.Orders.{ReadAt, WriteAt, Manage, FlushAll, done};
ghost use Rattle.zn_truth.specs.Obeying.{IsWhole, Fits, IsZoneToManage};
ghost use Rattle.zn_zone.specs.Facts.{facts_at, info_of};
ghost use Rattle.zn_zone.specs.Machine.{facts};
ghost use Rattle.zn_device.specs.Stores.{truth_of, HasStores, IsSoundDevice};

use crate::store::Store;
use zn_truth::{BLOCK_SIZE, DevError, ZoneInfo, ZoneNo, ZoneOp};
use zn_zone::Zones;

/// Reads, unless it is refused.
pub fn read_stored(
    zones: &Zones,
    stores: &[Store],
    z: ZoneNo,
    at: u32,
    out: &mut [u8],
) -> Result<(), DevError>
    requires device { IsSoundDevice (facts zones.now) stores.now }
    requires whole { IsWhole out.old }
    requires fits { Fits (geometry (truth_of (facts zones.now) stores.now)) z.0 at (length out.old / BLOCK_SIZE) }
    ensures reply { result ≡
        (done (truth_of (facts zones.now) stores.now) (ReadAt z.0 at (length out.old / BLOCK_SIZE))).reply }
    ensures bytes { IsOk result →
        out.new ≡ bytes_at (truth_of (facts zones.now) stores.now) z.0 at (length out.old / BLOCK_SIZE) }
{
    zones.may_read(z, at + (out.len() / BLOCK_SIZE) as u32)?;
    stores[z.0 as usize].read(at, out);
    Ok(())
}

/// Writes, unless it is refused.
pub fn write_stored(
    zones: &mut Zones,
    stores: &mut Vec<Store>,
    z: ZoneNo,
    at: u32,
    bytes: &[u8],
) -> Result<(), DevError>
    requires device { IsSoundDevice (facts zones.old) stores.old.items }
    requires whole { IsWhole bytes.now }
    requires fits { Fits (geometry (truth_of (facts zones.old) stores.old.items))
        z.0 at (length bytes.now / BLOCK_SIZE) }
    ensures reply { result ≡
        (done (truth_of (facts zones.old) stores.old.items) (WriteAt z.0 at bytes.now)).reply }
    ensures truth { truth_of (facts zones.new) stores.new.items
        ≡ (done (truth_of (facts zones.old) stores.old.items) (WriteAt z.0 at bytes.now)).truth }
    ensures stored { HasStores (facts zones.new) stores.new.items }
{
    let shape = zones.shape();
    let kind = zones.kind(z);
    zones.write(z, at, (bytes.len() / BLOCK_SIZE) as u32)?;
    stores[z.0 as usize].write(shape, kind, at, bytes);
    Ok(())
}

/// Manages a zone, unless it is refused.
pub fn manage_stored(
    zones: &mut Zones,
    stores: &mut Vec<Store>,
    z: ZoneNo,
    op: ZoneOp,
) -> Result<(), DevError>
    requires device { IsSoundDevice (facts zones.old) stores.old.items }
    requires zone { IsZoneToManage (geometry (truth_of (facts zones.old) stores.old.items)) z.0 }
    ensures reply { result ≡ (done (truth_of (facts zones.old) stores.old.items) (Manage z.0 op)).reply }
    ensures truth { truth_of (facts zones.new) stores.new.items
        ≡ (done (truth_of (facts zones.old) stores.old.items) (Manage z.0 op)).truth }
    ensures stored { HasStores (facts zones.new) stores.new.items }
{
    let shape = zones.shape();
    zones.manage(z, op)?;
    stores[z.0 as usize].manage(shape, op);
    Ok(())
}

/// Makes all durable.
pub fn flush_all(zones: &Zones, stores: &mut Vec<Store>)
    requires stored { HasStores (facts zones.now) stores.old.items }
    ensures truth { truth_of (facts zones.now) stores.new.items
        ≡ (done (truth_of (facts zones.now) stores.old.items) FlushAll).truth }
    ensures stored { HasStores (facts zones.now) stores.new.items }
{
    for z in 0..zones.zones() {
        stores[z as usize].flush(zones.info(ZoneNo(z)));
    }
}

/// Tells the zones from `first` on.
pub fn report_from(zones: &Zones, first: ZoneNo, out: &mut [ZoneInfo])
    requires zones { first.0 + length out.old ≤ length zones.now.zones }
    requires few { length zones.now.zones ≤ MAX_ZONES }
    ensures { out.new
        ≡ map (λ z. info_of (facts_at (facts zones.now) z)) (range_with_len first.0 (length out.old)) }
{
    for (i, info) in out.iter_mut().enumerate() {
        *info = zones.info(ZoneNo(first.0 + i as u32));
    }
}
