// Scripts on devices in directories.
use super::{adds, failing, formats, sink};
use crate::{MOST_OPTIONS, run_device};
use std::alloc::Global;
use std::process::Abort;
use std::test::Fail;
use zn_base::memory::MemSource;
use zn_files::{FileCall, MemFiles};
use zn_run::Status;

/// The bytes from which identifiers are made.
const ENTROPY: [u8; 16] = [0xA5; 16];

/// Makes a device and formats it.
fn formatted(rt: &impl Abort, alloc: Global) -> Result<MemFiles, Fail> {
    let files = adds(rt, alloc, MemFiles::new(alloc), Status::Done, "ok\n")?;
    formats(rt, alloc, files, false, Status::Done, "ok\n")
}

/// Runs a script, of whose reads these fail, without options, which ends so.
fn reads(
    rt: &impl Abort,
    alloc: Global,
    files: MemFiles,
    script: &str,
    fails: &[u64],
    want: Status,
    text: &str,
) -> Result<MemFiles, Fail> {
    let mut source = MemSource::new(
        Vec::from_slice(alloc, script.as_bytes())?,
        Vec::from_slice(alloc, fails)?,
    );
    let mut out = sink(alloc, &[])?;
    let ended = run_device(alloc, None, ENTROPY, files, &mut source, &mut out);
    assert_eq!(rt; out.bytes(), text.as_bytes());
    assert_eq!(rt; ended.status, want);
    Ok(ended.files)
}

/// Runs a script without options, which ends so.
fn runs(
    rt: &impl Abort,
    alloc: Global,
    files: MemFiles,
    script: &str,
    want: Status,
    text: &str,
) -> Result<MemFiles, Fail> {
    reads(rt, alloc, files, script, &[], want, text)
}

/// Runs a script with options, to its end.
fn mounts(
    rt: &impl Abort,
    alloc: Global,
    files: MemFiles,
    options: &str,
    script: &str,
    text: &str,
) -> Result<MemFiles, Fail> {
    let mut source = MemSource::new(Vec::from_slice(alloc, script.as_bytes())?, Vec::new(alloc));
    let mut out = sink(alloc, &[])?;
    assert!(rt; options.len() <= MOST_OPTIONS);
    let ended = run_device(alloc, Some(options), ENTROPY, files, &mut source, &mut out);
    assert_eq!(rt; out.bytes(), text.as_bytes());
    assert_eq!(rt; ended.status, Status::Done);
    Ok(ended.files)
}

// What one run wrote the next one reads.
#[test]
fn keeps_what_it_wrote(rt: HostRuntime) -> Result<(), Fail> {
    let alloc = rt.alloc();
    let files = formatted(&rt, alloc)?;
    let files = runs(
        &rt,
        alloc,
        files,
        "mount\nopen 0 seq/0 rw\nwrite 0 0 61*4096\n",
        Status::Done,
        "ok\nok\nok\n",
    )?;
    let _ = runs(
        &rt,
        alloc,
        files,
        "mount\nopen 0 seq/0 r\nread 0 0 8192\nsize 0",
        Status::Done,
        "ok\nok\nok 4096 61*4096\nok 4096\n",
    )?;
    Ok(())
}

// One zone may be active. Options that aren't taken leave the device unmounted, and the script goes on.
#[test]
fn mounts_by_its_options(rt: HostRuntime) -> Result<(), Fail> {
    let alloc = rt.alloc();
    let files = formatted(&rt, alloc)?;
    let files = mounts(
        &rt,
        alloc,
        files,
        "explicit-open",
        "open 0 seq/0 rw\nopen 1 seq/1 rw\n",
        "ok\nok\nerror too-many-active\n",
    )?;
    let _ = mounts(
        &rt,
        alloc,
        files,
        "foo",
        "umount\n",
        "error unknown-option 0\nerror not-mounted\n",
    )?;
    Ok(())
}

// Opening makes four syncs, one of each file. What is left opens.
#[test]
fn tells_the_line_of_a_fault(rt: HostRuntime) -> Result<(), Fail> {
    let alloc = rt.alloc();
    let mut files = formatted(&rt, alloc)?;
    files.fail(FileCall::Sync, 5)?;
    let mut files = runs(
        &rt,
        alloc,
        files,
        "mount\nopen 0 seq/0 rw\nwrite 0 0 61*4096\nsync 0\nsize 0\n",
        Status::HostFault,
        "ok\nok\nok\nhost-fault 4\n",
    )?;
    files.fail(FileCall::Sync, 1)?;
    let files = runs(
        &rt,
        alloc,
        files,
        "mount\n",
        Status::HostFault,
        "host-fault 0\n",
    )?;
    let _ = runs(
        &rt,
        alloc,
        files,
        "mount\nopen 0 seq/0 r\nsize 0\n",
        Status::Done,
        "ok\nok\nok 4096\n",
    )?;
    Ok(())
}

#[test]
fn ends_with_each_status(rt: HostRuntime) -> Result<(), Fail> {
    let alloc = rt.alloc();
    let nothing = MemFiles::new(alloc);
    let line = "error not-a-device\n";
    let _ = runs(&rt, alloc, nothing, "mount\n", Status::Directory, line)?;
    let fault = failing(alloc, FileCall::Names)?;
    let _ = runs(
        &rt,
        alloc,
        fault,
        "mount\n",
        Status::HostFault,
        "host-fault 0\n",
    )?;
    let files = formatted(&rt, alloc)?;
    let text = "ok\nscript-error 2 1\n";
    let files = runs(&rt, alloc, files, "mount\nsizes 0\n", Status::Script, text)?;
    let files = reads(
        &rt,
        alloc,
        files,
        "",
        &[1],
        Status::ReadFault,
        "read-fault\n",
    )?;
    let mut source = MemSource::new(Vec::from_slice(alloc, b"mount\n")?, Vec::new(alloc));
    let mut out = sink(alloc, &[1])?;
    let ended = run_device(alloc, None, ENTROPY, files, &mut source, &mut out);
    assert_eq!(&rt; ended.status, Status::WriteFault);
    assert_eq!(&rt; out.bytes(), b"".as_slice());
    Ok(())
}
