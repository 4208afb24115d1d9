// Commands on a directory of the host.

use super::directories::{agrees, day};
use super::{Case, ENTROPY, ROOM, source_of, words_of};
use std::fs;
use std::process::Abort;
use std::test::Fail;
use zn_base::memory::MemSink;
use zn_cli::zonefs_main;
use zn_files::Text;
use zn_host::HostFiles;

/// Where the device is made. The words of a command name it `D`, and the caller opens it.
const PATH: &str = "zn_rows_device";

/// Carries out a command, which opens the directory anew.
fn ends_there(host: HostRuntime, rt: &impl Abort, case: Case) -> Result<(), Fail> {
    let alloc = host.alloc();
    let list = words_of(alloc, case.words)?;
    let mut source = source_of(alloc, case.script.as_bytes(), &[])?;
    let mut sink = MemSink::new(alloc, ROOM, Vec::new(alloc))?;
    let files = HostFiles::new(host, alloc, Text::new(alloc, PATH.as_bytes())?);
    let ended = zonefs_main(alloc, &list, ENTROPY, &mut source, files, &mut sink);
    agrees(
        rt,
        case.words,
        ended.status,
        sink.bytes(),
        case.status,
        case.written,
    );
    Ok(())
}

#[test]
fn a_day_in_a_directory_of_the_host(rt: HostRuntime) -> Result<(), Fail> {
    let _ = fs::remove_dir_all(&rt, PATH);
    fs::create_dir(&rt, PATH)?;
    for case in day() {
        ends_there(rt, &rt, case)?;
    }
    fs::remove_dir_all(&rt, PATH)?;
    Ok(())
}
