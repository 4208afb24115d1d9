// The command that formats a device.
ghost use Rattle.std.specs.Prelude.{◌≡◌, ◌≤◌, false};
ghost use Rattle.zn_model.specs.Formatting.{super_block_by};
ghost use Rattle.zn_commands.specs.Formatting.{Formatted, Formats, FormatCauses};

use crate::devices::give_back;
use crate::ended::Ended;
use crate::lines::{end_format, end_shut};
use std::alloc::Global;
use zn_base::Sink;
use zn_device::Zoned;
use zn_files::Files;
use zn_mkfs::format;
use zn_model::{FormatError, FormatOpts};
use zn_super::Label;
use zn_zloop::{OpenFail, Zloop};

/// Formats a device, and gives its directory back.
fn format_device<F: Files>(
    alloc: Global,
    label: &Label,
    opts: &FormatOpts,
    uuid: [u8; 16],
    force: bool,
    device: Zloop<F>,
) -> (Result<(), FormatError>, F)
    requires unspoilt { (⟦<Zloop<F> as Zoned>⟧.state device).spoilt ≡ false }
    requires perm { opts.now.perm ≤ 0o777 }
    ensures { Formatted (super_block_by label.now uuid opts.now) force result.0
        (⟦<Zloop<F> as Zoned>⟧.state device) (F.state result.1) }
{
    let mut device = device;
    let reply = format(alloc, &mut device, label, opts, uuid, force);
    let files = give_back(device);
    (reply, files)
}

/// Formats the device that a directory is, with a super block of this label and identifier.
///
/// `Done` and the line `ok`; `Directory` and an `error` line where the directory is no device, or its device holds a
/// super block and `force` is false, or has a zone 0 that isn't good; `HostFault` and `host-fault 0` where a call on a
/// file failed; `Memory` and `out-of-memory` where memory was wanting; and `WriteFault` where the sink failed in the
/// line.
pub fn mkfs<F: Files, K: Sink>(
    alloc: Global,
    label: &Label,
    opts: &FormatOpts,
    uuid: [u8; 16],
    force: bool,
    files: F,
    sink: &mut K,
) -> Ended<F>
    requires perm { opts.now.perm ≤ 0o777 }
    ensures formats { Formats (super_block_by label.now uuid opts.now) force result.status
        (F.state files) (F.state result.files) (K.state sink.old) (K.state sink.new) }
    ensures causes { FormatCauses (super_block_by label.now uuid opts.now) force result.status
        (F.state files) (F.state result.files) (K.state sink.old) (K.state sink.new) }
{
    match Zloop::open(alloc, files) {
        Ok(device) => {
            let (reply, files) = format_device(alloc, label, opts, uuid, force, device);
            let status = end_format(sink, &reply);
            Ended { status, files }
        }
        Err(OpenFail { files, why }) => {
            let status = end_shut(sink, &why);
            Ended { status, files }
        }
    }
}
