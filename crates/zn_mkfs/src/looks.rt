// What is looked at before anything is written.
ghost use Rattle.std.specs.Prelude.{◌≡◌, length, false, IsOk, IfOk};
ghost use Rattle.zn_truth.specs.Limits.{IsWithinLimits};
ghost use Rattle.zn_truth.specs.Truth.{info_at, kind_at, is_sequential, is_good};
ghost use Rattle.zn_truth.specs.Orders.{ReadAt};
ghost use Rattle.zn_truth.specs.World.{geometry_of};
ghost use Rattle.zn_device.specs.States.{Commanded, Ordered};
ghost use Rattle.zn_model.specs.Formatting.{may_hold_copies as may_hold};
ghost use Rattle.zn_model.specs.Given.{copies_in};
ghost use Rattle.zn_model.specs.Looks.{all_infos, report_all as whole_report};
ghost use Rattle.zn_mkfs.specs.Commands.{reply_of, holds_copies, looks};

use zn_device::Zoned;
use zn_super::Super;
use zn_truth::{BLOCK_SIZE, Cond, DevError, Kind, ZoneInfo, ZoneNo};

/// The zone of the super block.
pub(crate) const ZONE_0: ZoneNo = ZoneNo(0);

/// The bytes of both copies.
pub(crate) const COPIES_SIZE: usize = 2 * BLOCK_SIZE;

/// Whether zone 0 is sequential.
pub(crate) fn is_zone0_sequential<D: Zoned>(dev: &D) -> bool
    requires { IsWithinLimits (geometry_of (D.state dev.now).world) }
    ensures { result ≡ is_sequential (kind_at (geometry_of (D.state dev.now).world) 0) }
{
    matches!(dev.kind(ZONE_0), Kind::Sequential)
}

/// Whether a zone is neither read-only nor offline.
pub(crate) fn is_good(cond: Cond) -> bool
    ensures { result ≡ is_good cond }
{
    matches!(cond, Cond::Good)
}

/// A report of all zones.
pub(crate) fn report_all<D: Zoned>(dev: &mut D, infos: &mut Vec<ZoneInfo>) -> Result<(), DevError>
    requires places { length infos.old.items ≡ length (geometry_of (D.state dev.old).world).kinds }
    requires unspoilt { (D.state dev.old).spoilt ≡ false }
    ensures done { Commanded (whole_report (D.state dev.old).world.truth) result (D.state dev.old) (D.state dev.new) }
    ensures infos { IsOk result → infos.new.items ≡ all_infos (D.state dev.old).world.truth }
    ensures places { length infos.new.items ≡ length infos.old.items }
{
    dev.report(ZoneNo(0), infos)
}

/// Whether blocks 0 and 1 may hold a super block, by what is told of zone 0.
#[tactic(auto, using(zn_truth::proofs::Issuing::kind_is, crate::proofs::LookLaws::shape_is))]
fn may_hold_copies<D: Zoned>(dev: &D, zone0: &ZoneInfo) -> bool
    requires within { IsWithinLimits (geometry_of (D.state dev.now).world) }
    requires told { zone0.now ≡ info_at (D.state dev.now).world.truth 0 }
    ensures { result ≡ may_hold (D.state dev.now).world.truth }
{
    !is_zone0_sequential(dev) || zone0.held == dev.shape().zone_capacity
}

/// Reads both copies.
#[tactic(auto, using(crate::proofs::LookLaws::given_is))]
fn read_copies<D: Zoned>(dev: &mut D, copies: &mut [u8; COPIES_SIZE]) -> Result<(), DevError>
    requires within { IsWithinLimits (geometry_of (D.state dev.old).world) }
    requires unspoilt { (D.state dev.old).spoilt ≡ false }
    ensures done { Commanded (ReadAt 0 0 2) result (D.state dev.old) (D.state dev.new) }
    ensures bytes { IsOk result → copies_in (D.state dev.old).world.truth copies.new ≡ copies.new }
{
    dev.read(ZONE_0, 0, copies)
}

/// Whether a super block is there, after a read of both copies where they may be there.
#[tactic(auto, using(crate::proofs::LookLaws::no_look, crate::proofs::LookLaws::one_look))]
pub(crate) fn holds_copies<D: Zoned>(
    dev: &mut D,
    zone0: &ZoneInfo,
    copies: &mut [u8; COPIES_SIZE],
) -> Result<bool, DevError>
    requires within { IsWithinLimits (geometry_of (D.state dev.old).world) }
    requires told { zone0.now ≡ info_at (D.state dev.old).world.truth 0 }
    requires unspoilt { (D.state dev.old).spoilt ≡ false }
    ensures done { Ordered (looks (D.state dev.old).world.truth) (reply_of result) (D.state dev.old) (D.state dev.new) }
    ensures found { IfOk result (λ found. found ≡ holds_copies copies.new (D.state dev.old).world.truth) }
{
    if !may_hold_copies(dev, zone0) {
        return Ok(false);
    }
    match read_copies(dev, copies) {
        Err(error) => Err(error),
        Ok(()) => Ok(Super::decode_copies(copies).is_ok()),
    }
}
