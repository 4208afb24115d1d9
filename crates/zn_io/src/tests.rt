ghost use Rattle.std.specs.Prelude.{IfOk, true};
ghost use Rattle.zn_truth.specs.World.{geometry_of};
ghost use Rattle.zn_device.specs.Memory.{state_of};
ghost use Rattle.zn_io.specs.Files.{IsFile};

use crate::{recover_file, sync_file, truncate_file};
use std::alloc::Global;
use std::test::Fail;
use zn_device::{MemDevice, Zoned};
use zn_inode::Inodes;
use zn_model::{FileZones, Policy, Shown};
use zn_report::Layout;
use zn_truth::{Cond, Kind, Shape, ZoneInfo};

/// A new device of two sequential zones, of two blocks each.
fn device(alloc: Global) -> Result<MemDevice, Fail>
    ensures { IfOk result (λ dev. IsFile (geometry_of (state_of dev).world)
        (record { first = 1; zones = 1; seq = true })) }
{
    let shape = Shape {
        zone_blocks: 2,
        zone_capacity: 2,
        max_open: 0,
        max_active: 0,
    };
    let kinds = [Kind::Sequential, Kind::Sequential];
    Ok(MemDevice::new(alloc, &kinds, shape)?)
}

/// A file that shows so many bytes with all rights, and is held open.
fn showing(size: u64) -> Shown {
    Shown {
        size,
        may_read: true,
        may_write: true,
        held_open: true,
    }
}

#[test]
fn a_file_is_truncated(rt: HostRuntime) -> Result<(), Fail> {
    let file = FileZones {
        first: 1,
        zones: 1,
        seq: true,
    };
    for (size, held_open) in [(0, true), (8192, false)] {
        let mut dev = device(rt.alloc())?;
        let mut shown = showing(4096);
        let reply = truncate_file(&mut dev, &file, &mut shown, size);
        assert_eq!(rt; reply, Ok(()));
        assert_eq!(rt; (shown.size, shown.held_open), (size, held_open));
    }
    Ok(())
}

#[test]
fn a_file_is_synced(rt: HostRuntime) -> Result<(), Fail> {
    let mut dev = device(rt.alloc())?;
    assert_eq!(rt; sync_file(&mut dev), Ok(()));
    Ok(())
}

// The zone holds nothing: a file that shows two blocks is cut to none, one that shows none stays after a read.
#[test]
fn a_file_is_recovered(rt: HostRuntime) -> Result<(), Fail> {
    let file = FileZones {
        first: 1,
        zones: 1,
        seq: true,
    };
    for (size, changed) in [(8192, true), (0, false)] {
        let mut dev = device(rt.alloc())?;
        let mut layout = Layout::new(rt.alloc());
        layout.add(file)?;
        let empty = ZoneInfo {
            cond: Cond::Good,
            held: 0,
            explicit: false,
        };
        let mut infos = [empty, empty];
        let mut inodes = Inodes::new(rt.alloc(), layout, &infos, dev.shape())?;
        assert_eq!(rt; inodes.files(), 1);
        inodes.set(0, showing(size));
        let reply = recover_file(&mut dev, &mut inodes, 0, Policy::Repair, true, &mut infos);
        assert_eq!(rt; reply, Ok(changed));
        assert_eq!(rt; inodes.shown(0), showing(0));
    }
    Ok(())
}
