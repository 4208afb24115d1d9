// The commands of a mount: a report of all zones, a read of the super block's two copies, and the closes of zones that
// are left open.
ghost use Rattle.std.specs.Prelude.{◌≡◌, ◌*◌, ◌<◌, ◌≤◌, ◌∷◌, [], ◌&&◌, length, take, drop, All, true, false, Ok, IfOk, IsOk, vec_capacity};
ghost use Rattle.zn_truth.specs.declared.limits.TheConstants.{BLOCK_SIZE};
ghost use Rattle.zn_truth.specs.Truth.{Truth, bytes_at, geometry};
ghost use Rattle.zn_truth.specs.Obeying.{IsZoneToManage};
ghost use Rattle.zn_truth.specs.World.{geometry_of};
ghost use Rattle.zn_device.specs.States.{Commanded, Ordered};
ghost use Rattle.zn_model.specs.Looks.{all_infos, report_all as whole_report};
ghost use Rattle.zn_model.specs.Mounting.{mount_error_of, why_of, is_zone0_unfull as unfull, super_block_of};
ghost use Rattle.zn_volume.specs.MountSteps.{found_in, read_copies as copies_read, looks, mount_orders, Finds, is_left_open as left_open, close_of, closes_from, AreClosable};

use zn_device::Zoned;
use zn_model::{MountError, Why};
use zn_super::{Super, SuperError};
use zn_truth::{BLOCK_SIZE, Cond, DevError, Kind, ZoneInfo, ZoneNo, ZoneOp};

/// The bytes of the super block's two copies.
const COPIES: usize = 2 * BLOCK_SIZE;

/// A failure of the device, as a mount tells it.
fn mount_error(error: DevError) -> MountError
    ensures { result ≡ mount_error_of error }
{
    match error {
        DevError::PowerLost => MountError::PowerLost,
        DevError::Broken => MountError::Broken,
        DevError::Memory => MountError::Memory,
        DevError::ReadOnly
        | DevError::Offline
        | DevError::Unaligned
        | DevError::TooManyActive
        | DevError::TooManyOpen
        | DevError::BeyondWp
        | DevError::Fault => MountError::IoError,
    }
}

/// Why two blocks are no super block, as a mount tells it.
fn why(error: SuperError) -> Why
    ensures { result ≡ why_of error }
{
    match error {
        SuperError::BadMagic => Why::BadMagic,
        SuperError::CopiesDiffer(place) => Why::CopiesDiffer(place),
        SuperError::BadVersion(version) => Why::BadVersion(version),
        SuperError::BadField(place) => Why::BadField(place),
    }
}

// ---- the super block

/// A report of all zones.
pub(crate) fn report_zones<D: Zoned>(dev: &mut D, infos: &mut [ZoneInfo]) -> Result<(), DevError>
    requires places { length infos.old ≡ length (geometry_of (D.state dev.old).world).kinds }
    requires unspoilt { (D.state dev.old).spoilt ≡ false }
    ensures done { Commanded (whole_report (D.state dev.old).world.truth) result (D.state dev.old) (D.state dev.new) }
    ensures infos { IsOk result → infos.new ≡ all_infos (D.state dev.old).world.truth }
{
    dev.report(ZoneNo(0), infos)
}

/// The same, into places that were taken once.
fn report_all<D: Zoned>(dev: &mut D, infos: &mut Vec<ZoneInfo>) -> Result<(), DevError>
    requires places { length infos.old.items ≡ length (geometry_of (D.state dev.old).world).kinds }
    requires unspoilt { (D.state dev.old).spoilt ≡ false }
    ensures done { Commanded (whole_report (D.state dev.old).world.truth) result (D.state dev.old) (D.state dev.new) }
    ensures infos { IsOk result → infos.new.items ≡ all_infos (D.state dev.old).world.truth }
    ensures places { length infos.new.items ≡ length infos.old.items }
{
    report_zones(dev, infos)
}

/// Whether the super block's zone is sequential and not full, by a report of all zones.
#[tactic(auto, using(crate::proofs::Zone0::unfull_is))]
fn is_zone0_unfull<D: Zoned>(dev: &D, infos: &[ZoneInfo]) -> bool
    requires { length infos.now ≡ length (geometry_of (D.state dev.now).world).kinds }
    ensures { (t : Truth) → geometry t ≡ geometry_of (D.state dev.now).world → infos.now ≡ all_infos t →
        result ≡ unfull t }
{
    dev.kind(ZoneNo(0)) == Kind::Sequential && infos[0].held != dev.shape().zone_capacity
}

/// Reads the super block's two copies, as one, into the front of a buffer.
fn read_copies<D: Zoned>(dev: &mut D, scratch: &mut [u8]) -> Result<(), DevError>
    requires room { 2 * BLOCK_SIZE ≤ length scratch.old }
    requires unspoilt { (D.state dev.old).spoilt ≡ false }
    ensures done { Commanded copies_read result (D.state dev.old) (D.state dev.new) }
    ensures bytes { IsOk result → (D.state dev.old).world.truth.told ≡ true →
        take (2 * BLOCK_SIZE) scratch.new ≡ bytes_at (D.state dev.old).world.truth 0 0 2 }
    ensures given { All (λ byte. byte < 256) scratch.new }
{
    dev.read(ZoneNo(0), 0, &mut scratch[..COPIES])
}

/// The super block of which the front of a buffer is the two copies.
fn decoded(scratch: &[u8]) -> Result<Super, SuperError>
    requires { 2 * BLOCK_SIZE ≤ length scratch.now }
    ensures { result ≡ super_block_of (take (2 * BLOCK_SIZE) scratch.now) }
{
    Super::decode_copies(&scratch[..COPIES])
}

/// The super block that a read finds, where zone 0 may have one.
#[tactic(auto, using(crate::proofs::Finding::read_fails))]
fn find_copies<D: Zoned>(dev: &mut D, scratch: &mut [u8]) -> Result<Super, MountError>
    requires room { 2 * BLOCK_SIZE ≤ length scratch.old }
    requires full { unfull (D.state dev.old).world.truth ≡ false }
    requires unspoilt { (D.state dev.old).spoilt ≡ false }
    ensures { Finds (λ given t. copies_read ∷ []) result (D.state dev.old) (D.state dev.new) }
{
    if let Err(error) = read_copies(dev, scratch) {
        return Err(mount_error(error));
    }
    match decoded(scratch) {
        Ok(super_block) => Ok(super_block),
        Err(error) => Err(MountError::NotFormatted(why(error))),
    }
}

/// The super block that a report of all zones and a read find.
#[tactic(auto, using(crate::proofs::Finding::report_fails))]
fn find_super_block<D: Zoned>(
    dev: &mut D,
    infos: &mut Vec<ZoneInfo>,
    scratch: &mut Vec<u8>,
) -> Result<Super, MountError>
    requires places { length infos.old.items ≡ length (geometry_of (D.state dev.old).world).kinds }
    requires room { 2 * BLOCK_SIZE ≤ length scratch.old.items }
    requires unspoilt { (D.state dev.old).spoilt ≡ false }
    ensures found { Finds (λ given t. looks t) result (D.state dev.old) (D.state dev.new) }
    ensures infos { IsOk result → infos.new.items ≡ all_infos (D.state dev.old).world.truth }
    ensures places { length infos.new.items ≡ length infos.old.items }
    ensures room { vec_capacity scratch.new ≡ vec_capacity scratch.old }
{
    if let Err(error) = report_all(dev, infos) {
        return Err(mount_error(error));
    }
    if is_zone0_unfull(dev, infos) {
        return Err(MountError::NotFormatted(Why::Zone0NotFull));
    }
    find_copies(dev, scratch)
}

// ---- the closes

/// Whether a zone is good and explicitly open.
fn is_left_open(info: &ZoneInfo) -> bool
    ensures { result ≡ left_open info.now }
{
    info.explicit && info.cond == Cond::Good
}

/// Closes a zone where it is left open.
#[tactic(auto, using(crate::proofs::Closes::none_closed))]
fn close_left<D: Zoned>(dev: &mut D, z: u32, info: &ZoneInfo) -> Result<(), DevError>
    requires closable { left_open info.now ≡ true → IsZoneToManage (geometry_of (D.state dev.old).world) z }
    requires unspoilt { (D.state dev.old).spoilt ≡ false }
    ensures done { Ordered (close_of z info.now) result (D.state dev.old) (D.state dev.new) }
{
    if is_left_open(info) {
        dev.manage(ZoneNo(z), ZoneOp::Close)
    } else {
        Ok(())
    }
}

/// Closes each zone that a report tells left open, in rising order, up to the first that fails.
fn close_all<D: Zoned>(dev: &mut D, infos: &[ZoneInfo]) -> Result<(), DevError>
    requires closable { AreClosable (geometry_of (D.state dev.old).world) infos.now }
    requires most { length infos.now < 2 * BLOCK_SIZE }
    requires unspoilt { (D.state dev.old).spoilt ≡ false }
    ensures done { Ordered (closes_from infos.now 0 (length infos.now)) result (D.state dev.old) (D.state dev.new) }
{
    for (z, info) in infos.iter().enumerate() {
        close_left(dev, z as u32, info)?;
    }
    Ok(())
}

// ---- all

/// The super block that a mount finds, after its commands.
pub(crate) fn carry_out<D: Zoned>(
    dev: &mut D,
    infos: &mut Vec<ZoneInfo>,
    scratch: &mut Vec<u8>,
) -> Result<Super, MountError>
    requires places { length infos.old.items ≡ length (geometry_of (D.state dev.old).world).kinds }
    requires room { 2 * BLOCK_SIZE ≤ length scratch.old.items }
    requires unspoilt { (D.state dev.old).spoilt ≡ false }
    ensures found { Finds mount_orders result (D.state dev.old) (D.state dev.new) }
    ensures infos { IsOk result → infos.new.items ≡ all_infos (D.state dev.old).world.truth }
    ensures places { length infos.new.items ≡ length infos.old.items }
    ensures room { vec_capacity scratch.new ≡ vec_capacity scratch.old }
{
    let super_block = find_super_block(dev, infos, scratch)?;
    match close_all(dev, infos) {
        Ok(()) => Ok(super_block),
        Err(error) => Err(mount_error(error)),
    }
}
