// Formatting.
ghost use Rattle.std.specs.Prelude.{◌≡◌, ◌⊎◌, ◌<◌, ◌≤◌, ◌&&◌, not, length, false, IsOk, IfOk, IsTrue};
ghost use Rattle.std.specs.List.{All};
ghost use Rattle.zn_truth.specs.Limits.{IsWithinLimits};
ghost use Rattle.zn_truth.specs.Truth.{zone_at, is_good};
ghost use Rattle.zn_truth.specs.World.{geometry_of};
ghost use Rattle.zn_device.specs.States.{Ordered};
ghost use Rattle.zn_model.specs.Looks.{all_infos};
ghost use Rattle.zn_model.specs.Formatting.{IsFormatted, format_error_of, super_block_by};
ghost use Rattle.zn_mkfs.specs.Commands.{writes, good_commands, format_commands, told_as};
ghost use Rattle.zn_mkfs.specs.Formats.{IsUntried, IsFormat, Answers, FormatCause};

use crate::copies::{empty, write_copies};
use crate::looks::{COPIES_SIZE, holds_copies, is_good, is_zone0_sequential, report_all};
use crate::resets::reset_others;
use std::alloc::{AllocError, Global};
use zn_device::Zoned;
use zn_model::{FormatError, FormatOpts};
use zn_super::{Label, Super};
use zn_truth::{BLOCK_SIZE, Cond, DevError, ZoneInfo};

/// A failure of the device, as a format tells it.
fn format_error(error: DevError) -> FormatError
    ensures { result ≡ format_error_of error }
{
    match error {
        DevError::PowerLost => FormatError::PowerLost,
        DevError::Broken => FormatError::Broken,
        DevError::Memory => FormatError::Memory,
        DevError::ReadOnly
        | DevError::Offline
        | DevError::Unaligned
        | DevError::TooManyActive
        | DevError::TooManyOpen
        | DevError::BeyondWp
        | DevError::Fault => FormatError::IoError,
    }
}

/// An answer of the device, as a format tells it.
fn answer(reply: Result<(), DevError>) -> Result<(), FormatError>
    ensures { result ≡ told_as reply }
{
    match reply {
        Ok(()) => Ok(()),
        Err(error) => Err(format_error(error)),
    }
}

/// Places for a report of all zones.
fn take_places<D: Zoned>(alloc: Global, dev: &D) -> Result<Vec<ZoneInfo>, AllocError>
    ensures { IfOk result (λ infos. length infos.items ≡ length (geometry_of (D.state dev.now).world).kinds) }
{
    let nothing = ZoneInfo {
        cond: Cond::Offline,
        held: 0,
        explicit: false,
    };
    vec![in alloc; nothing; dev.zones() as usize]
}

/// Writes all that a format writes, with this block as the copies.
fn write_all<D: Zoned>(
    dev: &mut D,
    infos: &[ZoneInfo],
    block: &[u8; BLOCK_SIZE],
) -> Result<(), DevError>
    requires within { IsWithinLimits (geometry_of (D.state dev.old).world) }
    requires infos { infos.now ≡ all_infos (D.state dev.old).world.truth }
    requires unspoilt { (D.state dev.old).spoilt ≡ false }
    ensures done { Ordered (writes (D.state dev.old).world.truth block.now) result (D.state dev.old) (D.state dev.new) }
{
    let sequential = is_zone0_sequential(dev);
    empty(dev, sequential)?;
    reset_others(dev, infos)?;
    write_copies(dev, sequential, block)
}

/// Whether a super block is there, and is kept.
fn is_kept(found: bool, force: bool) -> bool
    ensures { result ≡ (found && not force) }
{
    found && !force
}

/// Formats a device whose zone 0 is good.
fn format_good<D: Zoned>(
    dev: &mut D,
    infos: &[ZoneInfo],
    copies: &mut [u8; COPIES_SIZE],
    block: &[u8; BLOCK_SIZE],
    force: bool,
) -> Result<(), FormatError>
    requires within { IsWithinLimits (geometry_of (D.state dev.old).world) }
    requires infos { infos.now ≡ all_infos (D.state dev.old).world.truth }
    requires good { IsTrue (is_good (zone_at (D.state dev.old).world.truth 0).cond) }
    requires unspoilt { (D.state dev.old).spoilt ≡ false }
    ensures done { let t = (D.state dev.old).world.truth in
        Answers (good_commands copies.new t block.now force) copies.new t force result
        (D.state dev.old) (D.state dev.new) }
{
    match holds_copies(dev, &infos[0], copies) {
        Err(error) => Err(format_error(error)),
        Ok(found) => {
            if is_kept(found, force) {
                return Err(FormatError::AlreadyFormatted);
            }
            answer(write_all(dev, infos, block))
        }
    }
}

/// Formats a device, with these places for what is read of it.
fn format_with<D: Zoned>(
    dev: &mut D,
    infos: &mut Vec<ZoneInfo>,
    copies: &mut [u8; COPIES_SIZE],
    block: &[u8; BLOCK_SIZE],
    force: bool,
) -> Result<(), FormatError>
    requires within { IsWithinLimits (geometry_of (D.state dev.old).world) }
    requires places { length infos.old.items ≡ length (geometry_of (D.state dev.old).world).kinds }
    requires unspoilt { (D.state dev.old).spoilt ≡ false }
    ensures done { let t = (D.state dev.old).world.truth in
        Answers (format_commands copies.new t block.now force) copies.new t force result
        (D.state dev.old) (D.state dev.new) }
{
    if let Err(error) = report_all(dev, infos) {
        return Err(format_error(error));
    }
    let cond = infos[0].cond;
    if !is_good(cond) {
        return Err(FormatError::BadZone0(cond));
    }
    format_good(dev, infos, copies, block, force)
}

/// The super block of this label and identifier, as a format is asked for it.
fn super_block(label: &Label, opts: &FormatOpts, uuid: [u8; 16]) -> Super
    ensures { result ≡ super_block_by label.now uuid opts.now }
{
    Super {
        label: *label,
        uuid,
        aggr_cnv: opts.aggr_cnv,
        uid: opts.uid,
        gid: opts.gid,
        perm: opts.perm,
    }
}

/// What was read is bytes.
fn are_bytes(copies: &[u8])
    ensures { All (λ byte. byte < 256) copies.now }
{}

/// Formats a device: writes both copies of a super block of this label and identifier to zone 0, and empties each
/// other sequential zone that is good. All memory is taken before the first command.
///
/// `AlreadyFormatted` where a super block is there and `force` is false, `BadZone0` where zone 0 isn't good,
/// `IoError` where a fault came, `PowerLost` without power, `Broken` and `Memory` as the device answers, and `Memory`
/// also for want of its own.
pub fn format<D: Zoned>(
    alloc: Global,
    dev: &mut D,
    label: &Label,
    opts: &FormatOpts,
    uuid: [u8; 16],
    force: bool,
) -> Result<(), FormatError>
    requires unspoilt { (D.state dev.old).spoilt ≡ false }
    requires perm { opts.now.perm ≤ 0o777 }
    ensures done { IsUntried result (D.state dev.old) (D.state dev.new)
        ⊎ IsFormat (super_block_by label.now uuid opts.now) force result (D.state dev.old) (D.state dev.new) }
    ensures formatted { IsOk result →
        IsFormatted (D.state dev.new).world.truth (super_block_by label.now uuid opts.now) }
    ensures cause { FormatCause result (D.state dev.old) (D.state dev.new) }
{
    let Ok(mut infos) = take_places(alloc, dev) else {
        return Err(FormatError::Memory);
    };
    let mut block = [0; BLOCK_SIZE];
    super_block(label, opts, uuid).encode(&mut block);
    let mut copies = [0; COPIES_SIZE];
    let answer = format_with(dev, &mut infos, &mut copies, &block, force);
    are_bytes(&copies);
    answer
}
