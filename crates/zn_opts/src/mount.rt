// What an option text asks of a mount.
ghost use Rattle.std.specs.Prelude.{◌≡◌, ◌<◌, ◌+◌, ◌^◌, length, codes};
ghost use Rattle.zn_model.specs.Options.{value_behind, errors_item, mount_options};
ghost use Rattle.zn_opts.specs.Items.{item_meant, mapped};
ghost use Rattle.zn_opts.specs.Meant.{mount_meant, mount_of, mount_step};

use crate::items::{Given, Item, value_behind, with_text};
use crate::values::{flag_once, policy_named, value_once};
use zn_model::{MountOpts, OptError, Policy};

/// The options of a mount given so far.
#[derive(Clone, Copy)]
struct MountGiven {
    policy: Option<Policy>,
    explicit_open: bool,
}

/// What is given with a policy behind `errors=` too; any other item is unknown.
fn errors_item(given: MountGiven, item: Item<'_>) -> Result<MountGiven, OptError>
    requires { item.place + length item.text.now < 2 ^ 32 }
    ensures { result ≡ mapped mount_of
        (errors_item (value_behind (codes "errors=") item.entry.text.now) (mount_meant given) (item_meant item.entry)) }
{
    let Some(value) = value_behind(item, b"errors=") else {
        return Err(OptError::UnknownOption(item.place));
    };
    let policy = value_once(
        given.policy,
        policy_named(value.text),
        item.place,
        value.place,
    )?;
    Ok(MountGiven { policy, ..given })
}

impl Given for MountGiven {
    ghost step = { mount_step };

    fn with_item(self, item: Item<'_>) -> Result<MountGiven, OptError> {
        if item.text == b"explicit-open".as_slice() {
            let explicit_open = flag_once(self.explicit_open, item.place)?;
            return Ok(MountGiven {
                explicit_open,
                ..self
            });
        }
        errors_item(self, item)
    }
}

/// What an option text asks of a mount, or the first item of it that is faulty. The text has fewer than 2^32 bytes,
/// since places in it are numbers of 32 bits.
pub fn mount_opts(text: &[u8]) -> Result<MountOpts, OptError>
    requires { length text.now < 2 ^ 32 }
    ensures { result ≡ mount_options text.now }
{
    let nothing = MountGiven {
        policy: None,
        explicit_open: false,
    };
    let given = with_text(nothing, text)?;
    Ok(MountOpts {
        policy: given.policy.unwrap_or(Policy::RemountRo),
        explicit_open: given.explicit_open,
    })
}
