// What a device over files begins with.
ghost use Rattle.std.specs.Prelude.{◌≡◌, length, IfOk};
ghost use Rattle.zn_stand.specs.ZoneNames.{kinds_of};
ghost use Rattle.zn_backing.specs.Actives.{IsStartOf};
ghost use Rattle.zn_zloop.specs.Opening.{flagged, IsDurable, AreDurable, Begins};

use crate::kept::{Kept, Mark};
use std::alloc::{AllocError, Global};
use zn_backing::{Found, OpenError, kind_of};
use zn_files::Files;
use zn_stand::Geometry;
use zn_truth::{Kind, ZoneInfo, ZoneNo};
use zn_zone::Zones;

/// A directory that wasn't opened, as it was left, and why.
#[derive(Drop)]
pub struct OpenFail<F: Files> {
    pub files: F,
    pub why: OpenError,
}

/// What a device over files has besides its files.
#[derive(Drop)]
pub struct Start {
    pub zones: Zones,
    pub kepts: Vec<Kept>,
}

/// How many blocks of a zone that holds so many have a flag of their own.
fn flagged(kind: Kind, held: u32) -> usize
    ensures { result ≡ flagged kind held }
{
    match kind {
        Kind::Conventional => held as usize,
        Kind::Sequential => 0,
    }
}

/// What is kept of a zone that holds so many blocks, all of them durable.
fn kept_of(alloc: Global, kind: Kind, held: u32) -> Result<Kept, AllocError>
    ensures { IfOk result (IsDurable kind held) }
{
    let unflushed = vec![in alloc; false; flagged(kind, held)]?;
    Ok(Kept {
        durable: held,
        unflushed,
        mark: Mark::Clean,
    })
}

/// What is kept of each zone, where all that was found is durable.
fn kepts_of(alloc: Global, geo: &Geometry, infos: &[ZoneInfo]) -> Result<Vec<Kept>, AllocError>
    requires { length infos.now ≡ geo.now.zones }
    ensures { IfOk result (λ kepts. AreDurable geo.now infos.now geo.now.zones kepts.items) }
{
    let mut kepts = Vec::new(alloc);
    for z in 0..geo.zones {
        let kept = kept_of(alloc, kind_of(geo, ZoneNo(z)), infos[z as usize].held)?;
        kepts.push(kept)?;
    }
    Ok(kepts)
}

/// The kinds of all zones.
fn kinds_of(alloc: Global, geo: &Geometry) -> Result<Vec<Kind>, AllocError>
    ensures { IfOk result (λ kinds. kinds.items ≡ kinds_of geo.now) }
{
    let mut kinds = Vec::new(alloc);
    for z in 0..geo.zones {
        kinds.push(kind_of(geo, ZoneNo(z)))?;
    }
    Ok(kinds)
}

/// The machine of the conditions that were found, and what is kept of each zone.
pub fn start_of(alloc: Global, found: &Found) -> Result<Start, AllocError>
    requires { IsStartOf found.now.geometry found.now.infos.items }
    ensures { IfOk result (λ start.
        Begins found.now.geometry found.now.infos.items start.zones start.kepts.items) }
{
    let kinds = kinds_of(alloc, &found.geometry)?;
    let kepts = kepts_of(alloc, &found.geometry, &found.infos)?;
    let zones = Zones::new(alloc, &kinds, found.geometry.shape, &found.infos)?;
    Ok(Start { zones, kepts })
}
