ghost use Rattle.std.specs.Prelude.{◌≡◌};

use crate::{Layout, layout, zone_line};
use std::alloc::{AllocError, Global};
use std::test::Fail;
use zn_base::memory::MemSink;
use zn_model::{Cond, FileZones, Kind, Place, ZoneInfo, ZoneNo};

const CNV: Kind = Kind::Conventional;

const SEQ: Kind = Kind::Sequential;

/// First zone, number of zones, and whether they are sequential.
type Zones = (u32, u32, bool);

/// The zones of each file, by their numbers.
fn zones_in(alloc: Global, layout: &Layout) -> Result<Vec<Zones>, AllocError> {
    let mut all = Vec::new(alloc);
    for f in 0..layout.files() {
        let file = layout.zones_of(f);
        all.push((file.first, file.zones, file.seq))?;
    }
    Ok(all)
}

// Conventional zones 0, 1, 2 and 4 and a sequential zone 3; conventional zones alone, which are one file with
// aggregation; sequential zones alone; zone 0 alone; a run up to the last zone.
#[test]
fn layouts(rt: HostRuntime) -> Result<(), Fail> {
    let mixed = [CNV, CNV, CNV, SEQ, CNV];
    let conventional = [CNV, CNV, CNV];
    let sequential = [SEQ, SEQ, SEQ];
    let ends_in_run = [SEQ, SEQ, CNV, CNV];
    for (kinds, aggr, cnv, want) in [
        (
            mixed.as_slice(),
            false,
            3,
            [(1, 1, false), (2, 1, false), (4, 1, false), (3, 1, true)].as_slice(),
        ),
        (
            mixed.as_slice(),
            true,
            2,
            [(1, 2, false), (4, 1, false), (3, 1, true)].as_slice(),
        ),
        (
            conventional.as_slice(),
            false,
            2,
            [(1, 1, false), (2, 1, false)].as_slice(),
        ),
        (conventional.as_slice(), true, 1, [(1, 2, false)].as_slice()),
        (
            sequential.as_slice(),
            true,
            0,
            [(1, 1, true), (2, 1, true)].as_slice(),
        ),
        (
            ends_in_run.as_slice(),
            true,
            1,
            [(2, 2, false), (1, 1, true)].as_slice(),
        ),
        ([CNV].as_slice(), true, 0, [].as_slice()),
        ([SEQ].as_slice(), false, 0, [].as_slice()),
    ] {
        assert!(rt; !kinds.is_empty() && kinds.len() < 6);
        let files = layout(rt.alloc(), kinds, aggr)?;
        assert_eq!(rt; files.cnv_files(), cnv, "of {kinds:?}, {aggr}");
        let all = zones_in(rt.alloc(), &files)?;
        assert_eq!(rt; all.as_slice(), want, "of {kinds:?}, {aggr}");
    }
    Ok(())
}

/// So many zones from one on.
fn file(first: u32, zones: u32, seq: bool) -> FileZones
    ensures { result ≡ record { first = first; zones = zones; seq = seq } }
{
    FileZones { first, zones, seq }
}

// A layout that is put together by hand: a file of `cnv` that comes later goes before those of `seq`.
#[test]
fn adds_by_kind(rt: HostRuntime) -> Result<(), Fail> {
    let mut files = Layout::new(rt.alloc());
    assert_eq!(rt; files.files(), 0);
    files.add(file(1, 1, true))?;
    files.add(file(2, 3, false))?;
    files.add(file(5, 1, true))?;
    let all = zones_in(rt.alloc(), &files)?;
    let want = [(2, 3, false), (1, 1, true), (5, 1, true)];
    assert_eq!(rt; all.as_slice(), want.as_slice());
    assert_eq!(rt; files.cnv_files(), 1);
    Ok(())
}

// Zone 0 is conventional, 1 and 2 are a run, 3 and 5 are sequential, and 4 is conventional; there is no zone 6.
#[test]
fn places(rt: HostRuntime) -> Result<(), Fail> {
    let kinds = [CNV, CNV, CNV, SEQ, CNV, SEQ];
    for (aggr, want) in [
        (
            false,
            [
                Place::Super,
                Place::Cnv(0),
                Place::Cnv(1),
                Place::Seq(0),
                Place::Cnv(2),
                Place::Seq(1),
                Place::Unplaced,
            ],
        ),
        (
            true,
            [
                Place::Super,
                Place::Cnv(0),
                Place::Cnv(0),
                Place::Seq(0),
                Place::Cnv(1),
                Place::Seq(1),
                Place::Unplaced,
            ],
        ),
    ] {
        let files = layout(rt.alloc(), &kinds, aggr)?;
        for (z, place) in (0..).zip(want) {
            assert_eq!(rt; files.place(ZoneNo(z)), place, "of zone {z}, {aggr}");
        }
    }
    Ok(())
}

#[test]
fn zone_lines(rt: HostRuntime) -> Result<(), Fail> {
    for (z, kind, cond, held, place, want) in [
        (
            0,
            CNV,
            Cond::Good,
            4,
            Place::Super,
            "zone 0 cnv good 4 4 super\n",
        ),
        (
            1,
            SEQ,
            Cond::Good,
            0,
            Place::Seq(0),
            "zone 1 seq good 0 4 seq/0\n",
        ),
        (
            12,
            CNV,
            Cond::ReadOnly,
            4,
            Place::Cnv(10),
            "zone 12 cnv read-only 4 4 cnv/10\n",
        ),
        (
            3,
            SEQ,
            Cond::Offline,
            0,
            Place::Unplaced,
            "zone 3 seq offline 0 4 -\n",
        ),
    ] {
        let mut sink = MemSink::new(rt.alloc(), 64, Vec::new(rt.alloc()))?;
        let info = ZoneInfo {
            cond,
            held,
            explicit: false,
        };
        assert!(rt; zone_line(ZoneNo(z), kind, &info, 4, place, &mut sink).is_ok());
        assert_eq!(rt; sink.bytes(), want.as_bytes());
    }
    Ok(())
}

// Room for nothing, for the front of a line, and for all of it but its newline.
#[test]
fn cut_lines(rt: HostRuntime) -> Result<(), Fail> {
    for (room, want) in [(0, ""), (7, "zone 2 "), (26, "zone 2 cnv good 4 4 cnv/11")] {
        let mut sink = MemSink::new(rt.alloc(), room, Vec::new(rt.alloc()))?;
        let info = ZoneInfo {
            cond: Cond::Good,
            held: 4,
            explicit: false,
        };
        let written = zone_line(ZoneNo(2), CNV, &info, 4, Place::Cnv(11), &mut sink);
        assert!(rt; written.is_err());
        assert_eq!(rt; sink.bytes(), want.as_bytes());
    }
    Ok(())
}
