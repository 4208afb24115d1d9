// A directory of the host: its lock, and those of its files that are open.
ghost use Rattle.std.specs.Prelude.{◌≡◌, ◌<◌, ◌≤◌, true, false, is_some, vec_len, vec_capacity, IfOk, IfErr, OnOk, OnErr, IsTrue};
ghost use Rattle.std.specs.Fs.{new_options, with_read, with_write, with_create_new};
ghost use Rattle.std.specs.List.Sorted.{IsSearchInRange};
ghost use Rattle.zn_files.specs.declared.error.FileError.TheVariants.{Fault, Missing, Exists};
ghost use Rattle.zn_host.specs.Host.{is_refusal};

use crate::listing::names_of;
use crate::transfer::{read_whole, write_whole};
use std::alloc::Global;
use std::fs::{File, OpenOptions};
use std::io;
use std::io::ErrorKind;
use zn_files::{FileError, Names, Text};

/// How many files stay open: half of the descriptors that most hosts allow a program.
const MOST_OPEN: usize = 512;

/// A file that is open, for reading and writing.
#[derive(Drop)]
pub struct OpenFile {
    name: String,
    file: File,
    /// Whether a call changed it since its last sync.
    is_changed: bool,
}

/// A directory of the host. Nothing of it is touched before its lock is held.
#[derive(Drop)]
pub struct Folder {
    rt: HostRuntime,
    alloc: Global,
    path: Text,
    /// The directory itself, open, whose lock is held.
    pub lock: Option<File>,
    /// Files that are open, in the order of their names.
    files: Vec<OpenFile>,
    /// Whether the directory was synced since a file was created in it.
    pub is_listed: bool,
    /// Whether a sync failed.
    pub is_lost: bool,
}

/// The path as text. One that isn't UTF-8 is a fault.
fn text_of(path: &Text) -> Result<&str, FileError>
    ensures { IfErr result (λ e. e ≡ Fault) }
{
    std::str::from_utf8(path.as_bytes()).map_err(|_| FileError::Fault)
}

/// Syncs a file or a directory. After a sync that failed none is done: the system may have given up what it couldn't
/// write, and would say so only once.
fn sync_unless_lost(file: &File, is_lost: &mut bool) -> Result<(), FileError>
    ensures ok { OnOk result (is_lost.new ≡ false) }
    ensures err { OnErr result (is_lost.new ≡ true) }
    ensures lost { IsTrue is_lost.old → IsTrue is_lost.new }
    ensures fault { IfErr result (λ e. e ≡ Fault) }
{
    if *is_lost || file.sync_all().is_err() {
        *is_lost = true;
        return Err(FileError::Fault);
    }
    Ok(())
}

/// Syncs the files that were changed since their last sync.
fn sync_changed(files: &mut Vec<OpenFile>, is_lost: &mut bool) -> Result<(), FileError>
    ensures lost { IsTrue is_lost.old → IsTrue is_lost.new }
    ensures fault { IfErr result (λ e. e ≡ Fault) }
{
    for open in files.iter_mut() {
        if open.is_changed {
            sync_unless_lost(&open.file, is_lost)?;
            open.is_changed = false;
        }
    }
    Ok(())
}

/// Makes room for one more open file. Where as many are open as may stay so, all are closed, and what was changed is
/// synced before, so that no failure to write it is missed.
fn make_room(files: &mut Vec<OpenFile>, is_lost: &mut bool) -> Result<(), FileError>
    ensures lost { IsTrue is_lost.old → IsTrue is_lost.new }
    ensures room { OnOk result (vec_len files.new < vec_capacity files.new) }
    ensures named { IfErr result (λ e. is_refusal e ≡ false) }
{
    if files.len() >= MOST_OPEN {
        sync_changed(files, is_lost)?;
        files.clear();
    }
    files.reserve(1)?;
    Ok(())
}

/// How a file is opened that is there.
fn to_use() -> OpenOptions
    ensures { result ≡ with_write (with_read new_options true) true }
{
    let mut how = OpenOptions::new();
    how.read(true).write(true);
    how
}

/// How a file is created: one that is there isn't opened.
fn to_create() -> OpenOptions
    ensures { result ≡ with_create_new (with_write (with_read new_options true) true) true }
{
    let mut how = OpenOptions::new();
    how.read(true).write(true).create_new(true);
    how
}

/// Why a file that should be there can't be opened.
fn why_closed(error: io::Error) -> FileError
    ensures { IsTrue (is_refusal result) → result ≡ Missing }
{
    if error.kind() == ErrorKind::NotFound {
        FileError::Missing
    } else {
        FileError::Fault
    }
}

/// Why a file isn't created.
fn why_refused(error: io::Error) -> FileError
    ensures { IsTrue (is_refusal result) → result ≡ Exists }
{
    if error.kind() == ErrorKind::AlreadyExists {
        FileError::Exists
    } else {
        FileError::Fault
    }
}

/// The path of a file in a directory. A name with a slash in it is none of a file's there, and no directory has the
/// empty path.
fn path_of(alloc: Global, folder: &Text, name: &str) -> Result<String, FileError>
    ensures { IfErr result (λ e. is_refusal e ≡ false) }
{
    let folder = text_of(folder)?;
    if folder.is_empty() || name.contains('/') {
        return Err(FileError::Fault);
    }
    let mut path = String::from_str(alloc, folder)?;
    path.push('/')?;
    path.push_str(name)?;
    Ok(path)
}

/// The place of a file among those that are open, or where it would stand.
fn place_of(files: &Vec<OpenFile>, name: &str) -> Result<usize, usize>
    ensures { IsSearchInRange result (vec_len files.now) }
{
    files.binary_search_by(|open| open.name.as_str().cmp(name))
}

/// Puts a file among those that are open, for which there is room, and answers its place.
fn keep(files: &mut Vec<OpenFile>, name: String, file: File, is_changed: bool) -> usize
    requires { vec_len files.old < vec_capacity files.old }
    ensures { result < vec_len files.new }
{
    let at = match place_of(files, name.as_str()) {
        Ok(at) => at,
        Err(at) => at,
    };
    let open = OpenFile {
        name,
        file,
        is_changed,
    };
    // It is kept: there is room.
    let _ = files.insert(at, open);
    at
}

/// Syncs the directory itself, whose lock is held.
fn sync_folder(lock: &Option<File>, is_lost: &mut bool) -> Result<(), FileError>
    ensures ok { OnOk result (is_lost.new ≡ false) }
    ensures lost { IsTrue is_lost.old → IsTrue is_lost.new }
    ensures fault { IfErr result (λ e. e ≡ Fault) }
{
    match lock {
        Some(folder) => sync_unless_lost(folder, is_lost),
        None => Err(FileError::Fault),
    }
}

impl Folder {
    /// It takes no memory and touches no file.
    pub fn new(rt: HostRuntime, alloc: Global, path: Text) -> Folder
        ensures lock { is_some result.lock ≡ false }
        ensures listed { result.is_listed ≡ false }
        ensures lost { result.is_lost ≡ false }
    {
        Folder {
            rt,
            alloc,
            path,
            lock: None,
            files: Vec::new(alloc),
            is_listed: false,
            is_lost: false,
        }
    }

    /// Takes the lock of the directory, unless it is held. What an earlier program left there is made durable first.
    fn hold(&mut self) -> Result<(), FileError>
        ensures done { OnOk result (IsTrue (is_some self.new.lock)) }
        ensures named { IfErr result (λ e. is_refusal e ≡ false) }
        ensures kept { IsTrue (is_some self.old.lock) → IsTrue (is_some self.new.lock) }
        ensures lost { IsTrue self.old.is_lost → IsTrue self.new.is_lost }
    {
        if self.lock.is_some() {
            return Ok(());
        }
        // What isn't a directory has no such path, and isn't opened.
        let path = path_of(self.alloc, &self.path, ".")?;
        let folder = File::open(&self.rt, path.as_str()).map_err(|_| FileError::Fault)?;
        if folder.try_lock().is_err() {
            return Err(FileError::Fault);
        }
        sync_unless_lost(&folder, &mut self.is_lost)?;
        self.is_listed = true;
        self.lock = Some(folder);
        Ok(())
    }

    /// Takes the memory that opening a file asks for, before anything is opened: its path, its name, and room.
    fn prepare(&mut self, name: &str) -> Result<(String, String), FileError>
        ensures room { OnOk result (vec_len self.new.files < vec_capacity self.new.files) }
        ensures named { IfErr result (λ e. is_refusal e ≡ false) }
        ensures lock { is_some self.new.lock ≡ is_some self.old.lock }
        ensures lost { IsTrue self.old.is_lost → IsTrue self.new.is_lost }
    {
        make_room(&mut self.files, &mut self.is_lost)?;
        let path = path_of(self.alloc, &self.path, name)?;
        let name = String::from_str(self.alloc, name)?;
        Ok((path, name))
    }

    /// Opens a file that is there. What an earlier program left in it is made durable before anything is told of it.
    fn open(&mut self, name: &str) -> Result<usize, FileError>
        ensures bound { IfOk result (λ i. i < vec_len self.new.files) }
        ensures named { IfErr result (λ e. IsTrue (is_refusal e) → e ≡ Missing) }
        ensures lock { is_some self.new.lock ≡ is_some self.old.lock }
        ensures lost { IsTrue self.old.is_lost → IsTrue self.new.is_lost }
    {
        let (path, name) = self.prepare(name)?;
        let file = to_use().open(&self.rt, path.as_str()).map_err(why_closed)?;
        sync_unless_lost(&file, &mut self.is_lost)?;
        Ok(keep(&mut self.files, name, file, false))
    }

    /// The place of a file among those that are open. It is opened if it isn't.
    fn reach(&mut self, name: &str) -> Result<usize, FileError>
        ensures bound { IfOk result (λ i. i < vec_len self.new.files) }
        ensures named { IfErr result (λ e. IsTrue (is_refusal e) → e ≡ Missing) }
        ensures done { OnOk result (IsTrue (is_some self.new.lock)) }
        ensures refused { IfErr result (λ e. IsTrue (is_refusal e) → IsTrue (is_some self.new.lock)) }
        ensures kept { IsTrue (is_some self.old.lock) → IsTrue (is_some self.new.lock) }
        ensures lost { IsTrue self.old.is_lost → IsTrue self.new.is_lost }
    {
        self.hold()?;
        match place_of(&self.files, name) {
            Ok(at) => Ok(at),
            Err(_) => self.open(name),
        }
    }

    pub fn names(&mut self) -> Result<Names, FileError>
        ensures done { OnOk result (IsTrue (is_some self.new.lock)) }
        ensures named { IfErr result (λ e. is_refusal e ≡ false) }
        ensures kept { IsTrue (is_some self.old.lock) → IsTrue (is_some self.new.lock) }
        ensures lost { IsTrue self.old.is_lost → IsTrue self.new.is_lost }
    {
        self.hold()?;
        names_of(self.rt, self.alloc, text_of(&self.path)?)
    }

    pub fn len(&mut self, name: &str) -> Result<u64, FileError>
        ensures named { IfErr result (λ e. IsTrue (is_refusal e) → e ≡ Missing) }
        ensures done { OnOk result (IsTrue (is_some self.new.lock)) }
        ensures refused { IfErr result (λ e. IsTrue (is_refusal e) → IsTrue (is_some self.new.lock)) }
        ensures kept { IsTrue (is_some self.old.lock) → IsTrue (is_some self.new.lock) }
        ensures lost { IsTrue self.old.is_lost → IsTrue self.new.is_lost }
    {
        let at = self.reach(name)?;
        let metadata = self.files[at]
            .file
            .metadata()
            .map_err(|_| FileError::Fault)?;
        Ok(metadata.len())
    }

    pub fn read_at(&mut self, name: &str, from: u64, out: &mut [u8]) -> Result<(), FileError>
        ensures named { IfErr result (λ e. IsTrue (is_refusal e) → e ≡ Missing) }
        ensures done { OnOk result (IsTrue (is_some self.new.lock)) }
        ensures refused { IfErr result (λ e. IsTrue (is_refusal e) → IsTrue (is_some self.new.lock)) }
        ensures kept { IsTrue (is_some self.old.lock) → IsTrue (is_some self.new.lock) }
        ensures lost { IsTrue self.old.is_lost → IsTrue self.new.is_lost }
    {
        let at = self.reach(name)?;
        read_whole(&self.files[at].file, from, out)
    }

    pub fn write_at(&mut self, name: &str, from: u64, bytes: &[u8]) -> Result<(), FileError>
        ensures named { IfErr result (λ e. IsTrue (is_refusal e) → e ≡ Missing) }
        ensures done { OnOk result (IsTrue (is_some self.new.lock)) }
        ensures refused { IfErr result (λ e. IsTrue (is_refusal e) → IsTrue (is_some self.new.lock)) }
        ensures kept { IsTrue (is_some self.old.lock) → IsTrue (is_some self.new.lock) }
        ensures lost { IsTrue self.old.is_lost → IsTrue self.new.is_lost }
    {
        let at = self.reach(name)?;
        let open = &mut self.files[at];
        open.is_changed = true;
        write_whole(&open.file, from, bytes)
    }

    pub fn set_len(&mut self, name: &str, len: u64) -> Result<(), FileError>
        ensures named { IfErr result (λ e. IsTrue (is_refusal e) → e ≡ Missing) }
        ensures done { OnOk result (IsTrue (is_some self.new.lock)) }
        ensures refused { IfErr result (λ e. IsTrue (is_refusal e) → IsTrue (is_some self.new.lock)) }
        ensures kept { IsTrue (is_some self.old.lock) → IsTrue (is_some self.new.lock) }
        ensures lost { IsTrue self.old.is_lost → IsTrue self.new.is_lost }
    {
        let at = self.reach(name)?;
        let open = &mut self.files[at];
        open.is_changed = true;
        open.file.set_len(len).map_err(|_| FileError::Fault)
    }

    pub fn create(&mut self, name: &str) -> Result<(), FileError>
        ensures named { IfErr result (λ e. IsTrue (is_refusal e) → e ≡ Exists) }
        ensures done { OnOk result (IsTrue (is_some self.new.lock)) }
        ensures refused { IfErr result (λ e. IsTrue (is_refusal e) → IsTrue (is_some self.new.lock)) }
        ensures kept { IsTrue (is_some self.old.lock) → IsTrue (is_some self.new.lock) }
        ensures lost { IsTrue self.old.is_lost → IsTrue self.new.is_lost }
        ensures listed { OnOk result (self.new.is_listed ≡ false) }
    {
        self.hold()?;
        let (path, name) = self.prepare(name)?;
        self.is_listed = false;
        let file = to_create()
            .open(&self.rt, path.as_str())
            .map_err(why_refused)?;
        keep(&mut self.files, name, file, true);
        Ok(())
    }

    /// Syncs a file and, where one was created since that was done last, the directory behind it.
    pub fn sync(&mut self, name: &str) -> Result<(), FileError>
        ensures named { IfErr result (λ e. IsTrue (is_refusal e) → e ≡ Missing) }
        ensures done { OnOk result (IsTrue (is_some self.new.lock)) }
        ensures refused { IfErr result (λ e. IsTrue (is_refusal e) → IsTrue (is_some self.new.lock)) }
        ensures kept { IsTrue (is_some self.old.lock) → IsTrue (is_some self.new.lock) }
        ensures lost { IsTrue self.old.is_lost → IsTrue self.new.is_lost }
        ensures safe { OnOk result (self.new.is_lost ≡ false) }
        ensures listed { OnOk result (self.new.is_listed ≡ true) }
    {
        let at = self.reach(name)?;
        let open = &mut self.files[at];
        sync_unless_lost(&open.file, &mut self.is_lost)?;
        open.is_changed = false;
        if !self.is_listed {
            sync_folder(&self.lock, &mut self.is_lost)?;
            self.is_listed = true;
        }
        Ok(())
    }
}
