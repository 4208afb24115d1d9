ghost use Rattle.std.specs.Prelude.{◌≡◌, IfOk, false, true};
ghost use Rattle.zn_report.specs.Layouts.{no_files, with_file};

use crate::Inodes;
use std::alloc::{AllocError, Global};
use std::test::Fail;
use zn_model::{Cond, FileZones, Place, Policy, Shape, Shown, ZoneInfo, ZoneNo};
use zn_report::Layout;

const SHAPE: Shape = Shape {
    zone_blocks: 4,
    zone_capacity: 2,
    max_open: 0,
    max_active: 0,
};

/// A zone in this condition, which holds so many blocks.
fn zone(cond: Cond, held: u32) -> ZoneInfo {
    ZoneInfo {
        cond,
        held,
        explicit: false,
    }
}

/// Zone 1 is a file of `seq`, and zones 2 and 3 are one of `cnv`.
fn two_files(alloc: Global) -> Result<Layout, AllocError>
    ensures { IfOk result (λ layout. layout ≡ with_file (with_file no_files (record { first = 2; zones = 2; seq = false }))
        (record { first = 1; zones = 1; seq = true })) }
{
    let mut layout = Layout::new(alloc);
    layout.add(FileZones {
        first: 2,
        zones: 2,
        seq: false,
    })?;
    layout.add(FileZones {
        first: 1,
        zones: 1,
        seq: true,
    })?;
    Ok(layout)
}

/// Zones 1 to 3 are a file of `cnv`, and zones 4 and 6 are two of `seq`.
fn three_files(alloc: Global) -> Result<Layout, AllocError>
    ensures { IfOk result (λ layout. layout ≡
        with_file (with_file (with_file no_files (record { first = 1; zones = 3; seq = false }))
        (record { first = 4; zones = 1; seq = true })) (record { first = 6; zones = 1; seq = true })) }
{
    let mut layout = Layout::new(alloc);
    layout.add(FileZones {
        first: 1,
        zones: 3,
        seq: false,
    })?;
    layout.add(FileZones {
        first: 4,
        zones: 1,
        seq: true,
    })?;
    layout.add(FileZones {
        first: 6,
        zones: 1,
        seq: true,
    })?;
    Ok(layout)
}

/// Size, rights, and whether it is held open.
fn showing(shown: Shown) -> (u64, bool, bool, bool) {
    (shown.size, shown.may_read, shown.may_write, shown.held_open)
}

// A file of `cnv` is lost by one bad zone of its two; the other file shows what its zone holds.
#[test]
fn mounts(rt: HostRuntime) -> Result<(), Fail> {
    let sound = [
        zone(Cond::Good, 4),
        zone(Cond::Good, 1),
        zone(Cond::Good, 4),
        zone(Cond::Good, 4),
    ];
    let worn = [
        zone(Cond::Good, 4),
        zone(Cond::Good, 2),
        zone(Cond::Good, 4),
        zone(Cond::ReadOnly, 4),
    ];
    let mut inodes = Inodes::new(rt.alloc(), two_files(rt.alloc())?, &sound, SHAPE)?;
    assert_eq!(rt; inodes.files(), 2);
    assert_eq!(rt; showing(inodes.shown(0)), (32768, true, true, false));
    assert_eq!(rt; showing(inodes.shown(1)), (4096, true, true, false));
    inodes.mount(&worn);
    assert_eq!(rt; inodes.files(), 2);
    assert_eq!(rt; showing(inodes.shown(0)), (0, false, false, false));
    assert_eq!(rt; showing(inodes.shown(1)), (8192, true, true, false));
    assert!(rt; !inodes.read_only());
    Ok(())
}

#[test]
fn places(rt: HostRuntime) -> Result<(), Fail> {
    let infos = [zone(Cond::Offline, 0); 4];
    let inodes = Inodes::new(rt.alloc(), two_files(rt.alloc())?, &infos, SHAPE)?;
    let want = [
        Place::Super,
        Place::Seq(0),
        Place::Cnv(0),
        Place::Cnv(0),
        Place::Unplaced,
    ];
    for (z, place) in (0..).zip(want) {
        assert_eq!(rt; inodes.place(ZoneNo(z)), place, "of zone {z}");
    }
    Ok(())
}

// A run of three zones, zones of no file, and zones behind the last.
#[test]
fn places_in_a_run(rt: HostRuntime) -> Result<(), Fail> {
    let infos = [zone(Cond::Good, 1); 8];
    let inodes = Inodes::new(rt.alloc(), three_files(rt.alloc())?, &infos, SHAPE)?;
    let want = [
        Place::Super,
        Place::Cnv(0),
        Place::Cnv(0),
        Place::Cnv(0),
        Place::Seq(0),
        Place::Unplaced,
        Place::Seq(1),
        Place::Unplaced,
        Place::Unplaced,
    ];
    for (z, place) in (0..).zip(want) {
        assert_eq!(rt; inodes.place(ZoneNo(z)), place, "of zone {z}");
    }
    assert_eq!(rt; inodes.place(ZoneNo(u32::MAX)), Place::Unplaced);
    Ok(())
}

#[test]
fn places_without_zones(rt: HostRuntime) -> Result<(), Fail> {
    let inodes = Inodes::new(rt.alloc(), Layout::new(rt.alloc()), &[], SHAPE)?;
    assert_eq!(rt; inodes.place(ZoneNo(0)), Place::Super);
    assert_eq!(rt; inodes.place(ZoneNo(1)), Place::Unplaced);
    assert_eq!(rt; inodes.active(), 0);
    Ok(())
}

// Two sequential files, of which each has room for two blocks: the first is held open, partly full, full and read-only,
// while the second is partly full. The conventional file, which is partly full, never counts.
#[test]
fn active_files(rt: HostRuntime) -> Result<(), Fail> {
    let mut inodes = Inodes::new(
        rt.alloc(),
        three_files(rt.alloc())?,
        &[zone(Cond::Good, 1); 8],
        SHAPE,
    )?;
    assert_eq!(rt; inodes.active(), 2);
    for (size, may_write, held_open, want) in [
        (0, true, false, 1),
        (0, true, true, 2),
        (4096, true, false, 2),
        (4096, true, true, 2),
        (8191, true, false, 2),
        (8192, true, false, 1),
        (8192, true, true, 2),
        (4096, false, false, 1),
        (4096, false, true, 1),
    ] {
        assert_eq!(rt; inodes.files(), 3);
        inodes.set(
            1,
            Shown {
                size,
                may_read: true,
                may_write,
                held_open,
            },
        );
        assert_eq!(rt;
            inodes.active(),
            want,
            "at {size}, {may_write}, {held_open}"
        );
    }
    assert_eq!(rt; inodes.files(), 3);
    inodes.recover(1, Policy::Repair, Cond::Good, 1);
    assert_eq!(rt; inodes.active(), 2);
    assert_eq!(rt; inodes.files(), 3);
    inodes.recover(2, Policy::ZoneRo, Cond::Good, 1);
    assert_eq!(rt; inodes.active(), 1);
    Ok(())
}

// A mount counts anew: one of two sequential files holds a block, and the other is full.
#[test]
fn active_after_a_mount(rt: HostRuntime) -> Result<(), Fail> {
    let mut infos = [zone(Cond::Good, 2); 8];
    let mut inodes = Inodes::new(rt.alloc(), three_files(rt.alloc())?, &infos, SHAPE)?;
    assert_eq!(rt; inodes.active(), 0);
    infos[6] = zone(Cond::Good, 1);
    assert_eq!(rt; inodes.files(), 3);
    inodes.mount(&infos);
    assert_eq!(rt; inodes.active(), 1);
    Ok(())
}

// What became of a sequential file of a zone of two blocks, shown full and with all rights, of which one block was
// found.
#[test]
fn recoveries(rt: HostRuntime) -> Result<(), Fail> {
    let full = Shown {
        size: 8192,
        may_read: true,
        may_write: true,
        held_open: true,
    };
    for (policy, cond, want, read_only) in [
        (
            Policy::RemountRo,
            Cond::Good,
            (4096, true, false, true),
            true,
        ),
        (
            Policy::ZoneRo,
            Cond::ReadOnly,
            (8192, true, false, false),
            false,
        ),
        (
            Policy::ZoneOffline,
            Cond::Good,
            (0, false, false, true),
            false,
        ),
        (Policy::Repair, Cond::Good, (4096, true, true, true), false),
        (
            Policy::Repair,
            Cond::Offline,
            (0, false, false, false),
            false,
        ),
    ] {
        let infos = [zone(Cond::Good, 2); 4];
        let mut inodes = Inodes::new(rt.alloc(), two_files(rt.alloc())?, &infos, SHAPE)?;
        assert_eq!(rt; inodes.files(), 2);
        inodes.set(1, full);
        inodes.recover(1, policy, cond, 1);
        assert_eq!(rt; inodes.files(), 2);
        assert_eq!(rt;
            showing(inodes.shown(1)),
            want,
            "by {policy:?} where the zone is {cond:?}"
        );
        assert_eq!(rt; showing(inodes.shown(0)), (16384, true, true, false));
        assert_eq!(rt; inodes.read_only(), read_only);
    }
    Ok(())
}
