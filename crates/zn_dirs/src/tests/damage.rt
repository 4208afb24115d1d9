// Directories that are no device, each for one cause.
use std::process::Abort;
use std::test::Fail;
use zn_backing::OpenError;
use zn_files::{Files, MemFiles};
use zn_truth::Kind;
use zn_zloop::Zloop;

/// A file, by its name.
#[derive(Clone, Copy)]
enum Given {
    Text(&'static str, &'static str),
    /// So many zeros.
    Zeros(&'static str, u64),
}

/// Why a directory isn't opened.
#[derive(Clone, Copy)]
enum Cause {
    NotADevice,
    BadGeometry(u32),
    /// Of a sequential zone.
    MissingFile(u32),
    /// Of a sequential zone.
    BadZoneFile(u32, u64),
    ExtraName(&'static str),
}

/// Five zones of four blocks, the first three of them conventional.
const FIVE_ZONES: Given = Given::Text(
    "device",
    "zloop 1\nzones 5\nconv 3\nzone_blocks 4\nzone_capacity 4\nmax_open 0\nmax_active 0\n",
);

/// The same, with a leading zero in line 3.
const LEADING_ZERO: Given = Given::Text(
    "device",
    "zloop 1\nzones 5\nconv 03\nzone_blocks 4\nzone_capacity 4\nmax_open 0\nmax_active 0\n",
);

/// The files of the first four zones.
const FOUR: [Given; 4] = [
    Given::Zeros("cnv-000000", 16384),
    Given::Zeros("cnv-000001", 16384),
    Given::Zeros("cnv-000002", 16384),
    Given::Zeros("seq-000003", 4096),
];

const LAST: Given = Given::Zeros("seq-000004", 0);

/// What lies in a directory besides the files of the first four zones, how long that of zone 3 is, and why it isn't
/// opened.
const DAMAGED: [(&[Given], u64, Cause); 8] = [
    (&[FIVE_ZONES, LAST], 4097, Cause::BadZoneFile(3, 4097)),
    (&[FIVE_ZONES, LAST], 20480, Cause::BadZoneFile(3, 20480)),
    (&[FIVE_ZONES], 4096, Cause::MissingFile(4)),
    (
        &[FIVE_ZONES, LAST, Given::Zeros("notes", 0)],
        4096,
        Cause::ExtraName("notes"),
    ),
    (&[LAST], 4096, Cause::NotADevice),
    (&[LEADING_ZERO, LAST], 4096, Cause::BadGeometry(3)),
    // A marker of a zone that isn't there, and one that isn't empty.
    (
        &[FIVE_ZONES, LAST, Given::Zeros("seq-000005.ro", 0)],
        4096,
        Cause::ExtraName("seq-000005.ro"),
    ),
    (
        &[FIVE_ZONES, LAST, Given::Zeros("seq-000004.off", 1)],
        4096,
        Cause::ExtraName("seq-000004.off"),
    ),
];

/// Adds a file.
fn add(rt: &impl Abort, files: &mut MemFiles, given: Given) {
    match given {
        Given::Text(name, text) => {
            assert_eq!(rt; files.create(name), Ok(()));
            assert_eq!(rt; files.write_at(name, 0, text.as_bytes()), Ok(()));
        }
        Given::Zeros(name, len) => {
            assert_eq!(rt; files.create(name), Ok(()));
            assert_eq!(rt; files.set_len(name, len), Ok(()));
        }
    }
}

/// Whether this is the cause.
fn is_cause(why: &OpenError, cause: Cause) -> bool {
    match (cause, why) {
        (Cause::NotADevice, OpenError::NotADevice) => true,
        (Cause::BadGeometry(line), OpenError::BadGeometry(found)) => *found == line,
        (Cause::MissingFile(z), OpenError::MissingFile(Kind::Sequential, found)) => found.0 == z,
        (Cause::BadZoneFile(z, len), OpenError::BadZoneFile(Kind::Sequential, found, size)) => {
            found.0 == z && *size == len
        }
        (Cause::ExtraName(name), OpenError::ExtraName(found)) => {
            found.as_bytes() == name.as_bytes()
        }
        _ => false,
    }
}

#[test]
fn tells_what_is_wrong(rt: HostRuntime) -> Result<(), Fail> {
    for (i, (others, len, cause)) in DAMAGED.iter().enumerate() {
        let mut files = MemFiles::new(rt.alloc());
        for given in FOUR.iter().chain(others.iter()) {
            add(&rt, &mut files, *given);
        }
        assert_eq!(rt; files.set_len("seq-000003", *len), Ok(()));
        match Zloop::open(rt.alloc(), files) {
            Ok(_) => panic!(&rt; "opened"),
            Err(fail) => assert!(rt; is_cause(&fail.why, *cause), "at case {i}"),
        }
    }
    Ok(())
}
