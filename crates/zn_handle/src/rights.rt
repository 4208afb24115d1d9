// Who may open a file in which mode.
ghost use Rattle.std.specs.Prelude.{◌≡◌};
ghost use Rattle.zn_model.specs.Access.{digit_for, allows, access};

use bitflags::Flags;
use zn_model::{Mode, Who};

// The octal digit of the permissions that speaks of someone.
fn digit_for(perm: u32, owner: Who, who: Who) -> u32
    ensures { result ≡ digit_for perm owner who }
{
    if who.uid == owner.uid {
        perm / 64 % 8
    } else if who.gid == owner.gid {
        perm / 8 % 8
    } else {
        perm % 8
    }
}

// Whether every wanted right is in a digit.
fn allows(digit: u32, mode: Mode) -> bool
    ensures { result ≡ allows digit mode }
{
    (!mode.contains(Mode::READ) || digit / 4 % 2 == 1)
        && (!mode.contains(Mode::WRITE) || digit / 2 % 2 == 1)
}

/// Whether someone may open a file in a mode. The user 0 always may.
#[tactic(auto, unfolding(zn_model::specs::Access::access))]
pub fn access(perm: u32, owner: Who, who: Who, mode: Mode) -> bool
    ensures { result ≡ access perm owner who mode }
{
    who.uid == 0 || allows(digit_for(perm, owner, who), mode)
}
