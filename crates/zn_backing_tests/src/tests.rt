use std::alloc::Global;
use std::test::Fail;
use zn_backing::{CreateError, DEVICE, Found, OpenError, create, look};
use zn_files::{Choice, FileCall, FileError, Files, MemFiles};
use zn_stand::Geometry;
use zn_truth::{Cond, Kind, Shape, ZoneInfo};

/// A conventional zone and two sequential ones, each of two blocks; one of these may be active.
const GEO: Geometry = Geometry {
    zones: 3,
    conv: 1,
    shape: Shape {
        zone_blocks: 2,
        zone_capacity: 2,
        max_open: 0,
        max_active: 1,
    },
};

/// The condition of each zone, and the blocks that it holds.
type Zones = [(Cond, u32); 3];

const NEW: Zones = [(Cond::Good, 2), (Cond::Good, 0), (Cond::Good, 0)];

/// What a look tells.
#[derive(Clone, Copy)]
enum Told {
    /// The device above, with these zones.
    Device(Zones),
    NotADevice,
    BadGeometry(u32),
    MissingFile(Kind, u32),
    BadZoneFile(Kind, u32, u64),
    ExtraName(&'static str),
    TooManyActive(u32),
}

fn is_zone(info: &ZoneInfo, zone: (Cond, u32)) -> bool {
    info.cond == zone.0 && info.held == zone.1 && !info.explicit
}

fn is_device(found: &Found, zones: Zones) -> bool {
    let [first, second, third] = found.infos.as_slice() else {
        return false;
    };
    found.geometry == GEO
        && is_zone(first, zones[0])
        && is_zone(second, zones[1])
        && is_zone(third, zones[2])
}

fn is_told(answer: &Result<Found, OpenError>, want: Told) -> bool {
    match (answer, want) {
        (Ok(found), Told::Device(zones)) => is_device(found, zones),
        (Err(OpenError::NotADevice), Told::NotADevice) => true,
        (Err(OpenError::BadGeometry(line)), Told::BadGeometry(other)) => *line == other,
        (Err(OpenError::MissingFile(kind, z)), Told::MissingFile(other_kind, other)) => {
            *kind == other_kind && z.0 == other
        }
        (
            Err(OpenError::BadZoneFile(kind, z, len)),
            Told::BadZoneFile(other_kind, other, other_len),
        ) => { *kind == other_kind && z.0 == other && *len == other_len }
        (Err(OpenError::ExtraName(name)), Told::ExtraName(other)) => {
            name.as_bytes() == other.as_bytes()
        }
        (Err(OpenError::TooManyActive(count)), Told::TooManyActive(other)) => *count == other,
        _ => false,
    }
}

/// The calls of a making, each by its kind and its place among those of the kind.
const CALLS: [(FileCall, u64); 11] = [
    (FileCall::Names, 1),
    (FileCall::Create, 1),
    (FileCall::Create, 2),
    (FileCall::Create, 3),
    (FileCall::Create, 4),
    (FileCall::SetLen, 1),
    (FileCall::WriteAt, 1),
    (FileCall::Sync, 1),
    (FileCall::Sync, 2),
    (FileCall::Sync, 3),
    (FileCall::Sync, 4),
];

const CHOICES: [Choice; 3] = [Choice::Least, Choice::Most, Choice::Filled(0xee)];

/// A look tells the new device, or a cause.
fn tells_new(alloc: Global, files: &mut MemFiles) -> bool {
    match look(alloc, files) {
        Ok(found) => is_device(&found, NEW),
        Err(OpenError::Fault) | Err(OpenError::Memory) => false,
        Err(_) => true,
    }
}

#[test]
fn makes_what_a_look_finds(rt: HostRuntime) -> Result<(), Fail> {
    let mut files = MemFiles::new(rt.alloc());
    assert!(rt; create(rt.alloc(), &mut files, &GEO).is_ok());
    assert_eq!(rt; files.calls(), CALLS.len() as u64);
    // What a stop after each number of calls leaves.
    for calls in 0..files.calls() {
        for choice in CHOICES {
            let mut image = files.image(calls, choice)?;
            assert!(rt; tells_new(rt.alloc(), &mut image), "after {calls}");
        }
    }
    assert!(rt; is_told(&look(rt.alloc(), &mut files), Told::Device(NEW)));
    Ok(())
}

#[test]
fn fails_at_each_call(rt: HostRuntime) -> Result<(), Fail> {
    for (call, nth) in CALLS {
        let mut files = MemFiles::new(rt.alloc());
        assert!(rt; 1 <= nth);
        files.fail(call, nth)?;
        assert!(rt;
            matches!(
                create(rt.alloc(), &mut files, &GEO),
                Err(CreateError::Fault)
            )
        );
        assert_eq!(rt; files.faults(), 1);
        assert!(rt; tells_new(rt.alloc(), &mut files), "{call:?} {nth}");
    }
    Ok(())
}

/// Whether making a device where there is a file answers that a limit is broken, before any call, or that the file is
/// there.
fn is_refused(alloc: Global, geo: &Geometry, by_limit: bool) -> bool {
    let mut files = MemFiles::new(alloc);
    if files.create("notes").is_err() {
        return false;
    }
    match create(alloc, &mut files, geo) {
        Err(CreateError::BadGeometry) => by_limit && files.calls() == 1,
        Err(CreateError::Exists(name)) => {
            !by_limit && name.as_bytes() == b"notes".as_slice() && files.calls() == 2
        }
        _ => false,
    }
}

#[test]
fn refuses_limits_and_files(rt: HostRuntime) {
    for (zones, conv, by_limit) in [(0, 0, true), (3, 4, true), (4097, 0, true), (3, 1, false)] {
        let geo = Geometry { zones, conv, ..GEO };
        assert!(rt; is_refused(rt.alloc(), &geo, by_limit), "{zones} {conv}");
    }
}

/// The text of the device above.
const TEXT: &str =
    "zloop 1\nzones 3\nconv 1\nzone_blocks 2\nzone_capacity 2\nmax_open 0\nmax_active 1\n";

/// How the directory of a device differs from that of a new one.
#[derive(Clone, Copy)]
enum Change {
    NoText,
    Text(&'static str),
    /// The lengths of the files of the zones, if they are there.
    Zones([Option<u64>; 3]),
    /// Another file of so many bytes.
    Other(&'static str, u64),
}

/// Directories, and what a look tells of each.
const ROWS: [(Change, Told); 19] = [
    (Change::NoText, Told::NotADevice),
    (Change::Text("zloop 2\n"), Told::BadGeometry(1)),
    (Change::Text("zloop 1\nzones 03\n"), Told::BadGeometry(2)),
    (
        Change::Text("zloop 1\nzones 3\nconv \n"),
        Told::BadGeometry(3),
    ),
    (
        Change::Text("zloop 1\nzones 3\nconv 1\nblocks 2\n"),
        Told::BadGeometry(4),
    ),
    (
        Change::Text("zloop 1\nzones 3\nconv 1\nzone_blocks 2\nzone_capacity -2\n"),
        Told::BadGeometry(5),
    ),
    (
        Change::Text("zloop 1\nzones 3\nconv 1\nzone_blocks 2\nzone_capacity 2\nmax_open x\n"),
        Told::BadGeometry(6),
    ),
    // The last line doesn't end.
    (
        Change::Text(
            "zloop 1\nzones 3\nconv 1\nzone_blocks 2\nzone_capacity 2\nmax_open 0\nmax_active 1",
        ),
        Told::BadGeometry(7),
    ),
    (
        Change::Text(
            "zloop 1\nzones 3\nconv 1\nzone_blocks 2\nzone_capacity 2\nmax_open 0\nmax_active 1\n\n",
        ),
        Told::BadGeometry(8),
    ),
    // More conventional zones than zones.
    (
        Change::Text(
            "zloop 1\nzones 3\nconv 4\nzone_blocks 2\nzone_capacity 2\nmax_open 0\nmax_active 1\n",
        ),
        Told::BadGeometry(0),
    ),
    (
        Change::Zones([Some(8192), Some(0), None]),
        Told::MissingFile(Kind::Sequential, 2),
    ),
    (
        Change::Zones([Some(4096), Some(0), None]),
        Told::BadZoneFile(Kind::Conventional, 0, 4096),
    ),
    (
        Change::Zones([Some(8192), Some(4097), Some(0)]),
        Told::BadZoneFile(Kind::Sequential, 1, 4097),
    ),
    (
        Change::Zones([Some(8192), Some(4096), Some(4096)]),
        Told::TooManyActive(2),
    ),
    (
        Change::Zones([Some(8192), Some(8192), Some(4096)]),
        Told::Device([(Cond::Good, 2), (Cond::Good, 2), (Cond::Good, 1)]),
    ),
    (Change::Other("notes", 0), Told::ExtraName("notes")),
    // A marker of a zone that isn't there.
    (
        Change::Other("seq-000003.ro", 0),
        Told::ExtraName("seq-000003.ro"),
    ),
    // A marker that isn't empty.
    (
        Change::Other("seq-000002.ro", 1),
        Told::ExtraName("seq-000002.ro"),
    ),
    (
        Change::Other("cnv-000000.off", 0),
        Told::Device([(Cond::Offline, 0), (Cond::Good, 0), (Cond::Good, 0)]),
    ),
];

const NAMES: [&str; 3] = ["cnv-000000", "seq-000001", "seq-000002"];

/// Makes a file of this text, and of zeros up to a length.
fn put(files: &mut MemFiles, name: &str, text: &str, len: u64) -> Result<(), FileError> {
    files.create(name)?;
    files.write_at(name, 0, text.as_bytes())?;
    files.set_len(name, len)
}

fn put_text(files: &mut MemFiles, text: &str) -> Result<(), FileError> {
    put(files, DEVICE, text, text.len() as u64)
}

fn put_zones(files: &mut MemFiles, lens: [Option<u64>; 3]) -> Result<(), FileError> {
    for i in 0..3 {
        if let Some(len) = lens[i] {
            put(files, NAMES[i], "", len)?;
        }
    }
    Ok(())
}

/// Makes the files of a device that differs so from a new one.
fn put_all(files: &mut MemFiles, change: Change) -> Result<(), FileError> {
    match change {
        Change::NoText => {}
        Change::Text(text) => put_text(files, text)?,
        _ => put_text(files, TEXT)?,
    }
    match change {
        Change::Zones(lens) => put_zones(files, lens)?,
        _ => put_zones(files, [Some(8192), Some(0), Some(0)])?,
    }
    match change {
        Change::Other(name, len) => put(files, name, "", len),
        _ => Ok(()),
    }
}

#[test]
fn tells_what_is_wrong(rt: HostRuntime) {
    for (i, (change, told)) in ROWS.iter().enumerate() {
        let mut files = MemFiles::new(rt.alloc());
        assert_eq!(rt; put_all(&mut files, *change), Ok(()));
        assert!(rt; is_told(&look(rt.alloc(), &mut files), *told), "row {i}");
    }
}
