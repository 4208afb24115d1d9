// Harm to zones, each with its file.
ghost use Rattle.std.specs.Prelude.{◌≡◌, ◌*◌, ◌<◌, ◌≤◌, ℕ, List, length, Option, Ok};
ghost use Rattle.std.specs.Option.{option_map};
ghost use Rattle.zn_truth.specs.declared.limits.TheConstants.{BLOCK_SIZE, MAX_BLOCKS};
ghost use Rattle.zn_truth.specs.declared.Kind.TheVariants.{Conventional};
ghost use Rattle.zn_truth.specs.Truth.{zone_at, with_zone, kind_at};
ghost use Rattle.zn_truth.specs.Power.{settled};
ghost use Rattle.zn_truth.specs.Limits.{IsWithinLimits};
ghost use Rattle.zn_truth.specs.Obeying.{IsZoneToManage};
ghost use Rattle.zn_zone.specs.Facts.{Facts};
ghost use Rattle.zn_zone.specs.Machine.{facts, geometry_in, state_at};
ghost use Rattle.zn_device.specs.Harms.{scrubbed, rested};
ghost use Rattle.zn_stand.specs.Directory.{Directory};
ghost use Rattle.zn_stand.specs.ZoneNames.{zone_name};
ghost use Rattle.zn_files.specs.States.{directory, WhereTold};
ghost use Rattle.zn_zloop.specs.declared.kept.Kept.{Kept};
ghost use Rattle.zn_zloop.specs.Served.{IsThere, Served};
ghost use Rattle.zn_zloop.specs.Settled.{settled_file, scrubbed_file};
ghost use Rattle.zn_zloop.specs.Seen.{truth_seen};
ghost use Rattle.zn_zloop.specs.Holding.{IsSoundZloop};
ghost use Rattle.zn_zloop.specs.Following.{Follows, Touches};

use crate::fills::{cut_through, scrub_through};
use crate::kept::Kept;
use zn_files::Files;
use zn_truth::{DevError, ZoneNo};
use zn_zone::Zones;

/// The durable length of a zone.
pub fn durable_kept(kepts: &Vec<Kept>, z: ZoneNo) -> u32
    requires { z.0 < length kepts.now.items }
    ensures { (o : Option Directory) (f : Facts) → length kepts.now.items ≡ length f.zones →
        result ≡ (zone_at (truth_seen o f kepts.now.items) z.0).durable }
{
    kepts[z.0 as usize].durable
}

/// Closes every open zone, whatever is kept of them.
pub fn rest_zones(zones: &mut Zones)
    ensures truth { (o : Option Directory) (kepts : List Kept) →
        truth_seen o (facts zones.new) kepts ≡ rested (truth_seen o (facts zones.old) kepts) }
    ensures device { (o : Option Directory) (kepts : List Kept) (listed : List ℕ) →
        IsSoundZloop o (facts zones.old) kepts listed → IsSoundZloop o (facts zones.new) kepts listed }
    ensures geometry { geometry_in zones.new ≡ geometry_in zones.old }
{
    zones.rest();
}

/// Settles the file of a zone at so many blocks, unless all that the zone holds is durable: then nothing of it is to be
/// cut away or filled.
fn settle_file<F: Files>(
    files: &mut F,
    name: &str,
    durable: bool,
    from: u32,
    len: u32,
    fill: Option<u8>,
) -> Result<(), DevError>
    requires there { IsThere (F.state files.old) name.now }
    requires order { from ≤ len }
    ensures { Served name.now (λ o p. p ≡ option_map (settled_file durable from len fill) o) result
        (F.state files.old) (F.state files.new) }
{
    if durable {
        return Ok(());
    }
    cut_through(files, name, from, len, fill)
}

/// Settles a sequential zone at so many blocks.
pub fn settle_zone<F: Files>(
    files: &mut F,
    zones: &mut Zones,
    kepts: &mut Vec<Kept>,
    listed: &Vec<u32>,
    name: &str,
    z: ZoneNo,
    from: u32,
    len: u32,
    fill: Option<u8>,
) -> Result<(), DevError>
    requires device { IsSoundZloop (directory (F.state files.old)) (facts zones.old) kepts.old.items listed.now.items }
    requires name { name.now ≡ zone_name (state_at zones.old z.0).kind z.0 }
    requires within { IsWithinLimits (geometry_in zones.old) }
    requires zone { IsZoneToManage (geometry_in zones.old) z.0 }
    requires from { let t = truth_seen (directory (F.state files.old)) (facts zones.old) kepts.old.items in
        (zone_at t z.0).durable ≤ from }
    requires order { from ≤ len }
    requires len { let t = truth_seen (directory (F.state files.old)) (facts zones.old) kepts.old.items in
        len ≤ (zone_at t z.0).held }
    ensures follows { let t = truth_seen (directory (F.state files.old)) (facts zones.old) kepts.old.items in
        Follows (record { reply = Ok tt; truth = with_zone t z.0 (settled (zone_at t z.0) from len fill) }) result
        (directory (F.state files.new)) (facts zones.new) kepts.new.items listed.now.items }
    ensures touches { let t = truth_seen (directory (F.state files.old)) (facts zones.old) kepts.old.items in
        Touches (record { reply = Ok tt; truth = with_zone t z.0 (settled (zone_at t z.0) from len fill) }) result
        (F.state files.old) (F.state files.new) }
    ensures geometry { geometry_in zones.new ≡ geometry_in zones.old }
{
    // A full zone is durable as a whole, so nothing of it is cut away.
    zones.sound();
    let info = zones.info(z);
    let durable = kepts[z.0 as usize].durable == info.held;
    settle_file(files, name, durable, from, len, fill)?;
    zones.cut(z, len);
    kepts[z.0 as usize].rest(len);
    Ok(())
}

/// Scrubs the file of a zone, if it changed since its last sync: else no block of it is unflushed.
fn scrub_file<F: Files>(
    files: &mut F,
    name: &str,
    changed: bool,
    flags: &Vec<bool>,
    fill: Option<u8>,
) -> Result<(), DevError>
    requires there { IsThere (F.state files.old) name.now }
    requires long { WhereTold (F.state files.old) name.now
        (λ bytes. BLOCK_SIZE * length flags.now.items ≤ length bytes) }
    requires small { length flags.now.items ≤ MAX_BLOCKS }
    ensures { Served name.now (λ o p. p ≡ option_map (scrubbed_file changed flags.now.items fill) o) result
        (F.state files.old) (F.state files.new) }
{
    if !changed {
        return Ok(());
    }
    scrub_through(files, name, flags, fill)
}

/// Scrubs a conventional zone.
pub fn scrub_zone<F: Files>(
    files: &mut F,
    zones: &Zones,
    kepts: &mut Vec<Kept>,
    listed: &Vec<u32>,
    name: &str,
    z: ZoneNo,
    fill: Option<u8>,
) -> Result<(), DevError>
    requires device { IsSoundZloop (directory (F.state files.old)) (facts zones.now) kepts.old.items listed.now.items }
    requires name { name.now ≡ zone_name (state_at zones.now z.0).kind z.0 }
    requires within { IsWithinLimits (geometry_in zones.now) }
    requires zone { z.0 < length (geometry_in zones.now).kinds }
    requires kind { kind_at (geometry_in zones.now) z.0 ≡ Conventional }
    ensures follows { let t = truth_seen (directory (F.state files.old)) (facts zones.now) kepts.old.items in
        Follows (record { reply = Ok tt; truth = with_zone t z.0 (scrubbed (zone_at t z.0) fill) }) result
        (directory (F.state files.new)) (facts zones.now) kepts.new.items listed.now.items }
    ensures touches { let t = truth_seen (directory (F.state files.old)) (facts zones.now) kepts.old.items in
        Touches (record { reply = Ok tt; truth = with_zone t z.0 (scrubbed (zone_at t z.0) fill) }) result
        (F.state files.old) (F.state files.new) }
{
    let held = zones.info(z).held;
    let changed = kepts[z.0 as usize].mark.is_changed();
    scrub_file(files, name, changed, &kepts[z.0 as usize].unflushed, fill)?;
    kepts[z.0 as usize].rest(held);
    Ok(())
}
