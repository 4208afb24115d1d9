// What an option text asks of a format.
ghost use Rattle.std.specs.Prelude.{◌≡◌, ◌<◌, ◌≤◌, ◌+◌, ◌^◌, length, codes, IfOk};
ghost use Rattle.zn_model.specs.Options.{value_behind, uid_item, gid_item, perm_item, format_options};
ghost use Rattle.zn_opts.specs.Items.{item_meant, mapped};
ghost use Rattle.zn_opts.specs.Meant.{format_meant, format_of, format_step};

use crate::items::{Given, Item, value_behind, with_text};
use crate::values::{flag_once, owner_in, permissions_in, value_once};
use zn_model::{FormatOpts, OptError};

/// The options of a format given so far.
#[derive(Clone, Copy)]
struct FormatGiven {
    aggr_cnv: bool,
    uid: Option<u32>,
    gid: Option<u32>,
    perm: Option<u32>,
}

/// What is given with the permissions behind `perm=` too; any other item is unknown.
fn perm_item(given: FormatGiven, item: Item<'_>) -> Result<FormatGiven, OptError>
    requires { item.place + length item.text.now < 2 ^ 32 }
    ensures { result ≡ mapped format_of
        (perm_item (value_behind (codes "perm=") item.entry.text.now) (format_meant given) (item_meant item.entry)) }
{
    let Some(value) = value_behind(item, b"perm=") else {
        return Err(OptError::UnknownOption(item.place));
    };
    let perm = value_once(
        given.perm,
        permissions_in(value.text),
        item.place,
        value.place,
    )?;
    Ok(FormatGiven { perm, ..given })
}

/// What is given with the group behind `gid=` too; any other item is read as one of permissions.
fn gid_item(given: FormatGiven, item: Item<'_>) -> Result<FormatGiven, OptError>
    requires { item.place + length item.text.now < 2 ^ 32 }
    ensures { result ≡ mapped format_of
        (gid_item (value_behind (codes "gid=") item.entry.text.now) (format_meant given) (item_meant item.entry)) }
{
    let Some(value) = value_behind(item, b"gid=") else {
        return perm_item(given, item);
    };
    let gid = value_once(given.gid, owner_in(value.text), item.place, value.place)?;
    Ok(FormatGiven { gid, ..given })
}

/// What is given with the user behind `uid=` too; any other item is read as one of a group.
fn uid_item(given: FormatGiven, item: Item<'_>) -> Result<FormatGiven, OptError>
    requires { item.place + length item.text.now < 2 ^ 32 }
    ensures { result ≡ mapped format_of
        (uid_item (value_behind (codes "uid=") item.entry.text.now) (format_meant given) (item_meant item.entry)) }
{
    let Some(value) = value_behind(item, b"uid=") else {
        return gid_item(given, item);
    };
    let uid = value_once(given.uid, owner_in(value.text), item.place, value.place)?;
    Ok(FormatGiven { uid, ..given })
}

impl Given for FormatGiven {
    ghost step = { format_step };

    fn with_item(self, item: Item<'_>) -> Result<FormatGiven, OptError> {
        if item.text == b"aggr_cnv".as_slice() {
            let aggr_cnv = flag_once(self.aggr_cnv, item.place)?;
            return Ok(FormatGiven { aggr_cnv, ..self });
        }
        uid_item(self, item)
    }
}

/// What an option text asks of a format, or the first item of it that is faulty. The text has fewer than 2^32 bytes,
/// since places in it are numbers of 32 bits.
pub fn format_opts(text: &[u8]) -> Result<FormatOpts, OptError>
    requires { length text.now < 2 ^ 32 }
    ensures value { result ≡ format_options text.now }
    ensures small { IfOk result (λ opts. opts.perm ≤ 0o777) }
{
    let nothing = FormatGiven {
        aggr_cnv: false,
        uid: None,
        gid: None,
        perm: None,
    };
    let given = with_text(nothing, text)?;
    Ok(FormatOpts {
        aggr_cnv: given.aggr_cnv,
        uid: given.uid.unwrap_or(0),
        gid: given.gid.unwrap_or(0),
        perm: given.perm.unwrap_or(0o640),
    })
}
