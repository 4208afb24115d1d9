// The command that makes a device.
ghost use Rattle.std.specs.Prelude.{IsTrue};
ghost use Rattle.zn_stand.specs.DeviceText.{is_within};
ghost use Rattle.zn_commands.specs.Adding.{Adds, AddCauses};

use crate::ended::Ended;
use crate::lines::end_add;
use std::alloc::Global;
use zn_backing::create;
use zn_base::Sink;
use zn_files::Files;
use zn_stand::Geometry;

/// Makes a zoned device in an empty directory: good zones, sequential ones empty, conventional ones full of zeros.
///
/// `Done` and the line `ok`; `Directory` and `error not-empty NAME` with the first name of a directory that isn't
/// empty; `HostFault` and `host-fault 0` where a call on a file failed; `Memory` and `out-of-memory` where memory was
/// wanting; and `WriteFault` where the sink failed in the line.
pub fn add<F: Files, K: Sink>(alloc: Global, geo: &Geometry, files: F, sink: &mut K) -> Ended<F>
    requires within { IsTrue (is_within geo.now) }
    ensures added { Adds geo.now result.status (F.state files) (F.state result.files)
        (K.state sink.old) (K.state sink.new) }
    ensures causes { AddCauses geo.now result.status (F.state files) (F.state result.files)
        (K.state sink.old) (K.state sink.new) }
{
    let mut files = files;
    let outcome = create(alloc, &mut files, geo);
    let status = end_add(sink, &outcome);
    Ended { status, files }
}
