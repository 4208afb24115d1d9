// What follows a failed command: the file's zones are reported, and the file shows what its policy says.
ghost use Rattle.std.specs.Prelude.{◌≡◌, ℕ, ◌*◌, ◌^◌, ◌<◌, ◌≤◌, length, Bool, false, ◌&&◌, IfOk};
ghost use Rattle.zn_truth.specs.declared.limits.TheConstants.{MAX_ZONES};
ghost use Rattle.zn_truth.specs.World.{geometry_of};
ghost use Rattle.zn_model.specs.ZoneFiles.{files_of, room_of};
ghost use Rattle.zn_model.specs.Volume.{file_at};
ghost use Rattle.zn_model.specs.Recovery.{is_passed_on as passed_on, found_by, agrees};
ghost use Rattle.zn_inode.specs.Sizes.{IsWithinRoom};
ghost use Rattle.zn_io.specs.Files.{IsFile, shape_of};
ghost use Rattle.zn_io.specs.Findings.{Finds, Recovers};

use zn_device::Zoned;
use zn_inode::{Inodes, holds, worst};
use zn_model::{FileZones, Found, Policy, Shown};
use zn_truth::{BLOCK_SIZE, Cond, DevError, ZoneInfo, ZoneNo};

/// Whether no recovery follows a failure.
pub fn is_passed_on(error: DevError) -> bool
    ensures { result ≡ passed_on error }
{
    matches!(
        error,
        DevError::PowerLost | DevError::Broken | DevError::Memory
    )
}

/// What a report with this reply found.
fn found_in(reply: Result<(), DevError>, infos: &[ZoneInfo]) -> Result<Found, DevError>
    requires { length infos.now ≤ MAX_ZONES }
    ensures { result ≡ found_by reply infos.now }
{
    match reply {
        Ok(()) => Ok(Found {
            cond: worst(infos),
            held: holds(infos),
        }),
        Err(error) if is_passed_on(error) => Err(error),
        Err(_) => Ok(Found {
            cond: Cond::Offline,
            held: 0,
        }),
    }
}

/// Reports the zones of a file, for each of which `infos` has a place.
#[tactic(auto, using(crate::proofs::Findings::finds, crate::proofs::Findings::answered_alike))]
pub fn find<D: Zoned>(
    dev: &mut D,
    file: &FileZones,
    infos: &mut [ZoneInfo],
) -> Result<Found, DevError>
    requires file { IsFile (geometry_of (D.state dev.old).world) file.now }
    requires places { length infos.old ≡ file.now.zones }
    requires unspoilt { (D.state dev.old).spoilt ≡ false }
    ensures step { Finds file.now result (D.state dev.old) (D.state dev.new) }
    ensures held { IfOk result (λ found. found.held < 2 ^ 32) }
    ensures fits { IfOk result (λ found. found.held ≤ room_of (shape_of (D.state dev.old).world) file.now) }
{
    let reply = dev.report(ZoneNo(file.first), infos);
    found_in(reply, infos)
}

/// Whether a finding is applied to nothing: after a read, where it is good and the file shows it.
fn agrees_after_read(after_read: bool, found: &Found, shown: &Shown) -> bool
    requires { BLOCK_SIZE * found.now.held < 2 ^ 64 }
    ensures { result ≡ (after_read && agrees found.now shown.now) }
{
    after_read && found.cond == Cond::Good && BLOCK_SIZE as u64 * found.held == shown.size
}

/// Reports the zones of a file, and sets what it shows by the policy: after a read only where the file does
/// not agree with what is found. Tells whether it did. `infos` has a place for each zone of the file.
pub fn recover_file<D: Zoned>(
    dev: &mut D,
    inodes: &mut Inodes,
    file: u32,
    policy: Policy,
    after_read: bool,
    infos: &mut [ZoneInfo],
) -> Result<bool, DevError>
    requires known { file < length (files_of inodes.old.layout) }
    requires file { IsFile (geometry_of (D.state dev.old).world) (file_at inodes.old file) }
    requires shape { inodes.old.shape ≡ shape_of (D.state dev.old).world }
    requires places { (file_at inodes.old file).zones ≤ length infos.old }
    requires unspoilt { (D.state dev.old).spoilt ≡ false }
    ensures step { Recovers after_read policy file result (D.state dev.old) (D.state dev.new) inodes.old inodes.new }
    ensures within { IsWithinRoom inodes.old → IsWithinRoom inodes.new }
{
    let zones = inodes.file(file);
    let places = zones.zones as usize;
    let found = find(dev, &zones, &mut infos[..places])?;
    if agrees_after_read(after_read, &found, &inodes.shown(file)) {
        return Ok(false);
    }
    inodes.recover(file, policy, found.cond, found.held as u32);
    Ok(true)
}
