mod running;

use crate::{add, mkfs};
use std::alloc::Global;
use std::process::Abort;
use std::test::Fail;
use zn_backing::is_within;
use zn_base::memory::MemSink;
use zn_files::{FileCall, FileError, Files, MemFiles};
use zn_model::FormatOpts;
use zn_run::Status;
use zn_stand::Geometry;
use zn_super::Label;
use zn_truth::Shape;

/// A conventional zone and two sequential ones, each of two blocks; one of these may be active.
const GEO: Geometry = Geometry {
    zones: 3,
    conv: 1,
    shape: Shape {
        zone_blocks: 2,
        zone_capacity: 2,
        max_open: 0,
        max_active: 1,
    },
};

const OPTS: FormatOpts = FormatOpts {
    aggr_cnv: false,
    uid: 0,
    gid: 0,
    perm: 0o640,
};

/// The text of the geometry.
const TEXT: &str =
    "zloop 1\nzones 3\nconv 1\nzone_blocks 2\nzone_capacity 2\nmax_open 0\nmax_active 1\n";

/// A sink with room for a line, of whose writes these fail.
fn sink(alloc: Global, fails: &[u64]) -> Result<MemSink, Fail> {
    Ok(MemSink::new(alloc, 64, Vec::from_slice(alloc, fails)?)?)
}

/// Makes a device, which ends so.
fn adds(
    rt: &impl Abort,
    alloc: Global,
    files: MemFiles,
    want: Status,
    line: &str,
) -> Result<MemFiles, Fail> {
    let mut out = sink(alloc, &[])?;
    assert!(rt; is_within(&GEO));
    let ended = add(alloc, &GEO, files, &mut out);
    assert_eq!(rt; ended.status, want);
    assert_eq!(rt; out.bytes(), line.as_bytes());
    Ok(ended.files)
}

/// Formats a device, which ends so.
fn formats(
    rt: &impl Abort,
    alloc: Global,
    files: MemFiles,
    force: bool,
    want: Status,
    line: &str,
) -> Result<MemFiles, Fail> {
    let mut out = sink(alloc, &[])?;
    let ended = mkfs(
        alloc,
        &Label::empty(),
        &OPTS,
        [7; 16],
        force,
        files,
        &mut out,
    );
    assert_eq!(rt; ended.status, want);
    assert_eq!(rt; out.bytes(), line.as_bytes());
    Ok(ended.files)
}

#[test]
fn makes_and_formats(rt: HostRuntime) -> Result<(), Fail> {
    let alloc = rt.alloc();
    let files = MemFiles::new(alloc);
    let files = adds(&rt, alloc, files, Status::Done, "ok\n")?;
    let files = adds(
        &rt,
        alloc,
        files,
        Status::Directory,
        "error not-empty cnv-000000\n",
    )?;
    let files = formats(&rt, alloc, files, false, Status::Done, "ok\n")?;
    let files = formats(
        &rt,
        alloc,
        files,
        false,
        Status::Directory,
        "error already-formatted\n",
    )?;
    let _ = formats(&rt, alloc, files, true, Status::Done, "ok\n")?;
    Ok(())
}

/// A directory by the text of `device`, the lengths of the zones' files and another empty file, each where it is there,
/// and the line of a format of it.
struct Row {
    text: Option<&'static str>,
    zones: [Option<u64>; 3],
    other: Option<&'static str>,
    line: &'static str,
}

/// The lengths of the files of a new device.
const NEW: [Option<u64>; 3] = [Some(8192), Some(0), Some(0)];

const ROWS: [Row; 8] = [
    Row {
        text: None,
        zones: NEW,
        other: None,
        line: "error not-a-device\n",
    },
    Row {
        text: Some("zloop 2\n"),
        zones: NEW,
        other: None,
        line: "error bad-geometry 1\n",
    },
    Row {
        text: Some(TEXT),
        zones: [Some(8192), Some(0), None],
        other: None,
        line: "error missing-file seq-000002\n",
    },
    Row {
        text: Some(TEXT),
        zones: [Some(4096), Some(0), Some(0)],
        other: None,
        line: "error bad-zone-file cnv-000000 4096\n",
    },
    Row {
        text: Some(TEXT),
        zones: NEW,
        other: Some("notes"),
        line: "error extra-name notes\n",
    },
    Row {
        text: Some(TEXT),
        zones: [Some(8192), Some(4096), Some(4096)],
        other: None,
        line: "error too-many-active 2\n",
    },
    Row {
        text: Some(TEXT),
        zones: NEW,
        other: Some("cnv-000000.ro"),
        line: "error bad-zone0 read-only\n",
    },
    Row {
        text: Some(TEXT),
        zones: NEW,
        other: Some("cnv-000000.off"),
        line: "error bad-zone0 offline\n",
    },
];

const NAMES: [&str; 3] = ["cnv-000000", "seq-000001", "seq-000002"];

/// Makes a file of zeros.
fn put(files: &mut MemFiles, name: &str, len: u64) -> Result<(), FileError> {
    files.create(name)?;
    files.set_len(name, len)
}

/// Makes the files of a row.
fn put_all(files: &mut MemFiles, row: &Row) -> Result<(), FileError> {
    if let Some(text) = row.text {
        files.create("device")?;
        files.write_at("device", 0, text.as_bytes())?;
    }
    for i in 0..3 {
        if let Some(len) = row.zones[i] {
            put(files, NAMES[i], len)?;
        }
    }
    match row.other {
        Some(name) => put(files, name, 0),
        None => Ok(()),
    }
}

#[test]
fn tells_what_does_not_fit(rt: HostRuntime) -> Result<(), Fail> {
    let alloc = rt.alloc();
    for row in &ROWS {
        let mut files = MemFiles::new(alloc);
        put_all(&mut files, row)?;
        let _ = formats(&rt, alloc, files, false, Status::Directory, row.line)?;
    }
    Ok(())
}

/// Files whose first call of this kind fails.
fn failing(alloc: Global, call: FileCall) -> Result<MemFiles, Fail> {
    let mut files = MemFiles::new(alloc);
    files.fail(call, 1)?;
    Ok(files)
}

#[test]
fn tells_a_fault_of_the_files(rt: HostRuntime) -> Result<(), Fail> {
    let alloc = rt.alloc();
    let line = "host-fault 0\n";
    for call in [FileCall::Names, FileCall::Create, FileCall::Sync] {
        let _ = adds(&rt, alloc, failing(alloc, call)?, Status::HostFault, line)?;
    }
    // No bytes of a zone are written before the format.
    for call in [FileCall::Names, FileCall::WriteAt] {
        let files = MemFiles::new(alloc);
        let mut files = adds(&rt, alloc, files, Status::Done, "ok\n")?;
        files.fail(call, 1)?;
        let _ = formats(&rt, alloc, files, false, Status::HostFault, line)?;
    }
    Ok(())
}

// The line is lost, and the device is made.
#[test]
fn tells_a_fault_of_the_sink(rt: HostRuntime) -> Result<(), Fail> {
    let alloc = rt.alloc();
    let mut out = sink(alloc, &[1])?;
    assert!(rt; is_within(&GEO));
    let ended = add(alloc, &GEO, MemFiles::new(alloc), &mut out);
    assert_eq!(rt; ended.status, Status::WriteFault);
    assert_eq!(rt; out.bytes(), b"".as_slice());
    let _ = formats(&rt, alloc, ended.files, false, Status::Done, "ok\n")?;
    Ok(())
}
