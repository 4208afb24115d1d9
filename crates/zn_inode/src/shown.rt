// What a file shows, by what its zones tell.
ghost use Rattle.std.specs.Prelude.{◌≡◌, ◌*◌, ◌^◌, ◌<◌, ◌≤◌, length};
ghost use Rattle.zn_truth.specs.declared.limits.TheConstants.{MAX_ZONES};
ghost use Rattle.zn_model.specs.ZoneFiles.{zone_room_of, room_of, capacity_of};
ghost use Rattle.zn_model.specs.Looks.{is_shown_active as is_counted_active};
ghost use Rattle.zn_model.specs.ShownStates.{policy_row as row_of, worst as worst_of, worse as worse_of, holds as holds_of, mounted_by, makes_read_only as policy_makes_read_only};
ghost use Rattle.zn_model.specs.Recovery.{recovered_shown as shown_recovered};
ghost use Rattle.zn_report.specs.Layouts.{end_of};
ghost use Rattle.zn_inode.specs.Mounts.{mounted_from as file_mounted};

use zn_model::{Cond, FileZones, Found, Policy, Shape, Shown, ZoneInfo};
use zn_truth::BLOCK_SIZE;

/// The blocks that each zone of a file has room for.
pub fn zone_room(shape: &Shape, file: &FileZones) -> u32
    ensures { result ≡ zone_room_of shape.now file.now }
{
    if file.seq {
        shape.zone_capacity
    } else {
        shape.zone_blocks
    }
}

/// The blocks that a file has room for.
#[tactic(auto, using(crate::proofs::Rooms::room_below))]
pub fn room(shape: &Shape, file: &FileZones) -> u64
    ensures { result ≡ room_of shape.now file.now }
{
    u64::from(file.zones) * u64::from(zone_room(shape, file))
}

/// The bytes that a file has room for.
pub fn capacity(shape: &Shape, file: &FileZones) -> u64
    requires { capacity_of shape.now file.now < 2 ^ 64 }
    ensures { result ≡ capacity_of shape.now file.now }
{
    BLOCK_SIZE as u64 * room(shape, file)
}

/// Whether a file is sequential, may be written, and is held open or shown partly full.
#[tactic(auto, using(crate::proofs::Rooms::is_below_room))]
pub fn is_shown_active(shape: &Shape, file: &FileZones, shown: &Shown) -> bool
    ensures { result ≡ is_counted_active shape.now file.now shown.now }
{
    // A capacity is a whole number of blocks, and may have more than 64 bits where it is given in bytes.
    file.seq
        && shown.may_write
        && (shown.held_open
            || 0 < shown.size && shown.size / (BLOCK_SIZE as u64) < room(shape, file))
}

/// The row of the table of policies: sizes are in bytes.
pub fn policy_row(policy: Policy, cond: Cond, held: u64, size: u64, stays_open: bool) -> Shown
    ensures { result ≡ row_of policy cond held size stays_open }
{
    let (size, may_read, may_write) = match (policy, cond) {
        (Policy::ZoneOffline, _) | (_, Cond::Offline) => (0, false, false),
        (_, Cond::ReadOnly) => (size, true, false),
        (Policy::Repair, Cond::Good) => (held, true, true),
        (_, Cond::Good) => (held, true, false),
    };
    Shown {
        size,
        may_read,
        may_write,
        held_open: stays_open,
    }
}

/// Whether each recovery makes the whole file system read-only.
pub fn makes_read_only(policy: Policy) -> bool
    ensures { result ≡ policy_makes_read_only policy }
{
    matches!(policy, Policy::RemountRo)
}

/// The worse of two conditions.
pub fn worse(a: Cond, b: Cond) -> Cond
    ensures { result ≡ worse_of a b }
{
    match (a, b) {
        (Cond::Good, _) => b,
        (Cond::ReadOnly, Cond::Offline) | (Cond::Offline, _) => Cond::Offline,
        (Cond::ReadOnly, _) => Cond::ReadOnly,
    }
}

/// The worst condition of zones.
#[tactic(auto, using(crate::proofs::Conditions::worse_assoc, crate::proofs::Conditions::worse_good))]
pub fn worst(infos: &[ZoneInfo]) -> Cond
    ensures { result ≡ worst_of infos.now }
{
    let mut cond = Cond::Good;
    for info in infos {
        cond = worse(cond, info.cond);
    }
    cond
}

/// The blocks that zones hold.
pub fn holds(infos: &[ZoneInfo]) -> u64
    requires { length infos.now ≤ MAX_ZONES }
    ensures sum { result ≡ holds_of infos.now }
    ensures most { BLOCK_SIZE * result < 2 ^ 64 }
{
    let mut held = 0;
    for info in infos {
        held += u64::from(info.held);
    }
    held
}

/// What a mount shows of a file whose zones are these.
pub fn mounted_shown(infos: &[ZoneInfo]) -> Shown
    requires { length infos.now ≤ MAX_ZONES }
    ensures { result ≡ mounted_by (worst_of infos.now) (BLOCK_SIZE * holds_of infos.now) }
{
    match worst(infos) {
        Cond::Good => Shown {
            size: BLOCK_SIZE as u64 * holds(infos),
            may_read: true,
            may_write: true,
            held_open: false,
        },
        Cond::ReadOnly | Cond::Offline => Shown {
            size: 0,
            may_read: false,
            may_write: false,
            held_open: false,
        },
    }
}

/// What a mount shows of a file, where a report of all zones told this.
pub(crate) fn mounted_from(file: &FileZones, infos: &[ZoneInfo]) -> Shown
    requires inside { end_of file.now ≤ length infos.now }
    requires most { length infos.now ≤ MAX_ZONES }
    ensures { result ≡ file_mounted infos.now file.now }
{
    let first = file.first as usize;
    mounted_shown(&infos[first..first + file.zones as usize])
}

/// What a file shows after this was found of its zones.
pub fn recovered_shown(
    policy: Policy,
    found: &Found,
    shape: &Shape,
    file: &FileZones,
    shown: &Shown,
) -> Shown
    requires { BLOCK_SIZE * found.now.held < 2 ^ 64 }
    ensures { result ≡ shown_recovered policy found.now shape.now file.now shown.now }
{
    let stays_open = shown.held_open && found.cond == Cond::Good && found.held != room(shape, file);
    policy_row(
        policy,
        found.cond,
        BLOCK_SIZE as u64 * found.held,
        shown.size,
        stays_open,
    )
}
