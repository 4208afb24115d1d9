// A device to which nothing was written.
ghost use Rattle.std.specs.Prelude.{◌≡◌, map, IfOk};
ghost use Rattle.zn_truth.specs.Fresh.{fresh_zone};
ghost use Rattle.zn_device.specs.Stores.{info_in, AreFresh};

use crate::store::Store;
use std::alloc::{AllocError, Global};
use zn_truth::{Cond, Kind, Shape, ZoneInfo};

/// What a report tells of a zone of this kind.
fn fresh_info(shape: Shape, kind: Kind) -> ZoneInfo
    ensures { result ≡ info_in (fresh_zone shape kind) }
{
    let held = match kind {
        Kind::Conventional => shape.zone_blocks,
        Kind::Sequential => 0,
    };
    ZoneInfo {
        cond: Cond::Good,
        held,
        explicit: false,
    }
}

/// What a report tells of zones of these kinds.
pub fn fresh_infos(alloc: Global, kinds: &[Kind], shape: Shape) -> Result<Vec<ZoneInfo>, AllocError>
    ensures { IfOk result (λ infos. infos.items ≡ map (λ kind. info_in (fresh_zone shape kind)) kinds.now) }
{
    kinds
        .iter()
        .map(|&kind| fresh_info(shape, kind))
        .collect(alloc)
}

/// The stores of zones of these kinds.
pub fn fresh_stores(alloc: Global, kinds: &[Kind], shape: Shape) -> Result<Vec<Store>, AllocError>
    ensures { IfOk result (λ stores. AreFresh shape kinds.now stores.items) }
{
    let mut stores = Vec::new(alloc);
    for &kind in kinds {
        stores.push(Store::new(alloc, shape, kind)?)?;
    }
    Ok(stores)
}
