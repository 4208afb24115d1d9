// Reads and writes at a place of a file. Each is one call of the system where that takes all bytes in one.
ghost use Rattle.std.specs.Prelude.{◌≡◌, ◌↔◌, ◌≤◌, length, IsOk, IfOk, IfErr};
ghost use Rattle.zn_files.specs.declared.error.FileError.TheVariants.{Fault};

use std::io::ErrorKind;
use std::os::unix::fs::FileExt;
use zn_files::FileError;

/// Fills a front of `out` with the bytes from a place on, up to the file's end, and answers how many there were.
fn read_front<F: FileExt>(file: &F, at: u64, out: &mut [u8]) -> Result<usize, FileError>
    ensures bound { IfOk result (λ n. n ≤ length out.new) }
    ensures fault { IfErr result (λ e. e ≡ Fault) }
{
    let mut done = 0;
    for _ in 0..u64::MAX {
        if done >= out.len() {
            return Ok(done);
        }
        match file.read_at(&mut out[done..], at.wrapping_add(done as u64)) {
            Ok(0) => return Ok(done),
            Ok(count) => done += count,
            Err(error) => {
                if error.kind() != ErrorKind::Interrupted {
                    return Err(FileError::Fault);
                }
            }
        }
    }
    Err(FileError::Fault)
}

/// Writes a front of the bytes, as far as the file takes them, and answers how many.
fn write_front<F: FileExt>(file: &F, at: u64, bytes: &[u8]) -> Result<usize, FileError>
    ensures bound { IfOk result (λ n. n ≤ length bytes.now) }
    ensures fault { IfErr result (λ e. e ≡ Fault) }
{
    let mut done = 0;
    for _ in 0..u64::MAX {
        if done >= bytes.len() {
            return Ok(done);
        }
        match file.write_at(&bytes[done..], at.wrapping_add(done as u64)) {
            Ok(0) => return Ok(done),
            Ok(count) => done += count,
            Err(error) => {
                if error.kind() != ErrorKind::Interrupted {
                    return Err(FileError::Fault);
                }
            }
        }
    }
    Err(FileError::Fault)
}

/// A read or a write is done where all of its bytes are.
fn whole(done: usize, len: usize) -> Result<(), FileError>
    ensures all { IsOk result ↔ (done ≡ len) }
    ensures fault { IfErr result (λ e. e ≡ Fault) }
{
    if done == len {
        Ok(())
    } else {
        Err(FileError::Fault)
    }
}

pub fn read_whole<F: FileExt>(file: &F, at: u64, out: &mut [u8]) -> Result<(), FileError>
    ensures { IfErr result (λ e. e ≡ Fault) }
{
    let done = read_front(file, at, out)?;
    whole(done, out.len())
}

pub fn write_whole<F: FileExt>(file: &F, at: u64, bytes: &[u8]) -> Result<(), FileError>
    ensures { IfErr result (λ e. e ≡ Fault) }
{
    let done = write_front(file, at, bytes)?;
    whole(done, bytes.len())
}
