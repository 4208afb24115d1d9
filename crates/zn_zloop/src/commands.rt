// Commands to zones, each with its file.
ghost use Rattle.std.specs.Prelude.{◌≡◌, ◌*◌, ◌/◌, ◌≤◌, length};
ghost use Rattle.std.specs.Option.{option_map};
ghost use Rattle.zn_truth.specs.declared.limits.TheConstants.{BLOCK_SIZE, MAX_BLOCKS};
ghost use Rattle.zn_truth.specs.Orders.{WriteAt, Manage, done};
ghost use Rattle.zn_truth.specs.Limits.{IsWithinLimits};
ghost use Rattle.zn_truth.specs.Obeying.{IsWhole, Fits, IsZoneToManage};
ghost use Rattle.zn_zone.specs.Machine.{facts, geometry_in, state_at};
ghost use Rattle.zn_files.specs.States.{directory, WhereTold};
ghost use Rattle.zn_stand.specs.ZoneNames.{zone_name};
ghost use Rattle.zn_zloop.specs.Served.{IsThere, Served};
ghost use Rattle.zn_truth.specs.declared.ZoneOp.TheVariants.{Finish};
ghost use Rattle.zn_stand.specs.History.{LeavesOnly};
ghost use Rattle.zn_zloop.specs.Left.{MayLeaveInFinish};
ghost use Rattle.zn_zloop.specs.Managed.{managed_file};
ghost use Rattle.zn_zloop.specs.Written.{is_full, written_file};
ghost use Rattle.zn_zloop.specs.Seen.{truth_seen};
ghost use Rattle.zn_zloop.specs.Holding.{IsSoundZloop};
ghost use Rattle.zn_zloop.specs.Following.{Follows, Touches};

use crate::calls::{finish, resize_through, write, write_through};
use crate::kept::{Kept, list};
use zn_files::Files;
use zn_truth::{BLOCK_SIZE, DevError, Kind, Shape, ZoneNo, ZoneOp};
use zn_zone::Zones;

/// Does to the file of a zone, which holds so many blocks, what a command that manages it asks for.
#[tactic(auto, using(crate::proofs::Leaving::leaves_none))]
fn manage_file<F: Files>(
    files: &mut F,
    name: &str,
    shape: Shape,
    held: u32,
    op: ZoneOp,
) -> Result<(), DevError>
    requires there { IsThere (F.state files.old) name.now }
    requires small { shape.zone_capacity ≤ MAX_BLOCKS }
    ensures served { Served name.now (λ o p. p ≡ option_map (managed_file op shape.zone_capacity held) o) result
        (F.state files.old) (F.state files.new) }
    ensures stops { op ≡ Finish → LeavesOnly (F.state files.old).history (F.state files.new).history
        (MayLeaveInFinish name.now (BLOCK_SIZE * shape.zone_capacity) (directory (F.state files.old))) }
{
    match op {
        ZoneOp::Open | ZoneOp::Close => Ok(()),
        ZoneOp::Reset => resize_through(files, name, 0),
        ZoneOp::Finish => {
            if held == shape.zone_capacity {
                return Ok(());
            }
            finish(files, name, BLOCK_SIZE as u64 * shape.zone_capacity as u64)
        }
    }
}

/// Manages a zone, unless it is refused.
pub fn manage_zone<F: Files>(
    files: &mut F,
    zones: &mut Zones,
    kepts: &mut Vec<Kept>,
    listed: &Vec<u32>,
    name: &str,
    z: ZoneNo,
    op: ZoneOp,
) -> Result<(), DevError>
    requires device { IsSoundZloop (directory (F.state files.old)) (facts zones.old) kepts.old.items listed.now.items }
    requires name { name.now ≡ zone_name (state_at zones.old z.0).kind z.0 }
    requires within { IsWithinLimits (geometry_in zones.old) }
    requires zone { IsZoneToManage (geometry_in zones.old) z.0 }
    ensures follows { Follows
        (done (truth_seen (directory (F.state files.old)) (facts zones.old) kepts.old.items) (Manage z.0 op)) result
        (directory (F.state files.new)) (facts zones.new) kepts.new.items listed.now.items }
    ensures touches { Touches
        (done (truth_seen (directory (F.state files.old)) (facts zones.old) kepts.old.items) (Manage z.0 op)) result
        (F.state files.old) (F.state files.new) }
    ensures geometry { geometry_in zones.new ≡ geometry_in zones.old }
{
    let shape = zones.shape();
    let info = zones.info(z);
    zones.manage(z, op)?;
    manage_file(files, name, shape, info.held, op)?;
    kepts[z.0 as usize].manage(shape.zone_capacity, op);
    Ok(())
}

/// Whether a write that ends here fills the zone.
fn is_full(kind: Kind, shape: Shape, end: u32) -> bool
    ensures { result ≡ is_full kind shape end }
{
    match kind {
        Kind::Conventional => false,
        Kind::Sequential => end == shape.zone_capacity,
    }
}

/// Writes blocks to the file of a zone. Where they fill it, it is synced.
fn write_file<F: Files>(
    files: &mut F,
    name: &str,
    at: u32,
    bytes: &[u8],
    full: bool,
) -> Result<(), DevError>
    requires there { IsThere (F.state files.old) name.now }
    requires within { WhereTold (F.state files.old) name.now (λ old. BLOCK_SIZE * at ≤ length old) }
    requires small { at ≤ MAX_BLOCKS }
    ensures { Served name.now (λ o p. p ≡ option_map (written_file full at bytes.now) o) result
        (F.state files.old) (F.state files.new) }
{
    let from = BLOCK_SIZE as u64 * at as u64;
    if full {
        return write_through(files, name, from, bytes);
    }
    write(files, name, from, bytes)
}

/// Writes, unless it is refused.
pub fn write_zone<F: Files>(
    files: &mut F,
    zones: &mut Zones,
    kepts: &mut Vec<Kept>,
    listed: &mut Vec<u32>,
    name: &str,
    z: ZoneNo,
    at: u32,
    bytes: &[u8],
) -> Result<(), DevError>
    requires device { IsSoundZloop (directory (F.state files.old)) (facts zones.old) kepts.old.items listed.old.items }
    requires name { name.now ≡ zone_name (state_at zones.old z.0).kind z.0 }
    requires within { IsWithinLimits (geometry_in zones.old) }
    requires whole { IsWhole bytes.now }
    requires fits { Fits (geometry_in zones.old) z.0 at (length bytes.now / BLOCK_SIZE) }
    ensures follows { Follows
        (done (truth_seen (directory (F.state files.old)) (facts zones.old) kepts.old.items) (WriteAt z.0 at bytes.now))
        result (directory (F.state files.new)) (facts zones.new) kepts.new.items listed.new.items }
    ensures touches { Touches
        (done (truth_seen (directory (F.state files.old)) (facts zones.old) kepts.old.items) (WriteAt z.0 at bytes.now))
        result (F.state files.old) (F.state files.new) }
    ensures geometry { geometry_in zones.new ≡ geometry_in zones.old }
{
    let shape = zones.shape();
    let kind = zones.kind(z);
    let blocks = (bytes.len() / BLOCK_SIZE) as u32;
    zones.write(z, at, blocks)?;
    let full = is_full(kind, shape, at + blocks);
    list(listed, z, kepts[z.0 as usize].mark)?;
    write_file(files, name, at, bytes, full)?;
    kepts[z.0 as usize].write(kind, at, blocks, full);
    Ok(())
}
