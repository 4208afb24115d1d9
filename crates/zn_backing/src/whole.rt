// A look at a directory.
ghost use Rattle.std.specs.Prelude.{◌≡◌, ◌&&◌, nat_lt, IfOk};
ghost use Rattle.zn_stand.specs.Directory.{contents};
ghost use Rattle.zn_backing.specs.Steps.{Sought};
ghost use Rattle.zn_backing.specs.Looks.{Lists};
ghost use Rattle.zn_backing.specs.Actives.{IsStartOf, Finds, Looks};

use crate::OpenError;
use crate::active::active_in;
use crate::calls::names_of;
use crate::listed::sync_all;
use crate::looks::{geometry_in, no_extra};
use crate::zones::zones_in;
use std::alloc::Global;
use zn_files::{Files, Names};
use zn_stand::Geometry;
use zn_truth::ZoneInfo;

/// A device that a directory holds.
#[derive(Drop)]
pub struct Found {
    pub geometry: Geometry,
    /// What a report tells of each zone. None is explicitly open.
    pub infos: Vec<ZoneInfo>,
}

/// Whether so many zones are more than may be active.
fn is_over(most: u32, count: u32) -> bool
    ensures { result ≡ (nat_lt 0 most && nat_lt most count) }
{
    0 < most && most < count
}

/// The device that a listed directory holds.
fn found_in<F: Files>(alloc: Global, files: &mut F, names: &Names) -> Result<Found, OpenError>
    requires { Lists names.now (F.state files.old) }
    ensures sought { Sought result (F.state files.old) (F.state files.new)
        (λ d found. Finds (contents d) found.geometry found.infos.items) }
    ensures start { IfOk result (λ found. IsStartOf found.geometry found.infos.items) }
{
    let geometry = match geometry_in(alloc, files, names) {
        Ok(geometry) => geometry,
        Err(e) => return Err(e),
    };
    let infos = match zones_in(alloc, files, names, &geometry) {
        Ok(infos) => infos,
        Err(e) => return Err(e),
    };
    match no_extra(alloc, files, names, &geometry) {
        Ok(()) => {}
        Err(e) => return Err(e),
    }
    let count = active_in(&geometry, &infos);
    if is_over(geometry.shape.max_active, count) {
        return Err(OpenError::TooManyActive(count));
    }
    Ok(Found { geometry, infos })
}

/// Syncs every file of a directory once, in the order of names, and tells the device that it holds, or the first cause
/// why it holds none. It reads no byte of a zone's file.
pub fn look<F: Files>(alloc: Global, files: &mut F) -> Result<Found, OpenError>
    ensures looked { Looks result (F.state files.old) (F.state files.new)
        (λ c found. Finds c found.geometry found.infos.items) }
    ensures start { IfOk result (λ found. IsStartOf found.geometry found.infos.items) }
{
    let names = match names_of(files) {
        Ok(names) => names,
        Err(e) => return Err(e),
    };
    match sync_all(files, &names) {
        Ok(()) => {}
        Err(e) => return Err(e),
    }
    found_in(alloc, files, &names)
}
