// The names of a directory of the host, in order.
ghost use Rattle.std.specs.Prelude.{◌≡◌, false, map, IfOk, IfErr};
ghost use Rattle.std.specs.BTreeMap as tree;
ghost use Rattle.std.specs.String.{string_bytes};
ghost use Rattle.zn_host.specs.Host.{is_refusal};

use std::alloc::{AllocError, Global};
use std::collections::BTreeMap;
use std::io::ErrorKind;
use std::{fs, io};
use zn_files::{FileError, Names};

/// Names as they are found, each once.
type Found = BTreeMap<String, ()>;

/// Why a directory isn't listed.
fn why_unlisted(error: io::Error) -> FileError
    ensures { is_refusal result ≡ false }
{
    if error.kind() == ErrorKind::OutOfMemory {
        FileError::Memory
    } else {
        FileError::Fault
    }
}

fn in_order(alloc: Global, found: &Found) -> Result<Names, AllocError>
    ensures { IfOk result (λ names. names ≡ map string_bytes (tree.keys found.now)) }
{
    let mut names = Names::new(alloc);
    for name in found.keys() {
        names.push(name.as_str())?;
    }
    Ok(names)
}

/// The names of a directory. One that isn't UTF-8 is a fault.
pub fn names_of(rt: HostRuntime, alloc: Global, path: &str) -> Result<Names, FileError>
    ensures { IfErr result (λ e. is_refusal e ≡ false) }
{
    let mut found = BTreeMap::new(alloc);
    for entry in fs::read_dir(&rt, path).map_err(why_unlisted)? {
        let entry = entry.map_err(why_unlisted)?;
        found.insert(String::from_str(alloc, entry.file_name())?, ())?;
    }
    Ok(in_order(alloc, &found)?)
}
