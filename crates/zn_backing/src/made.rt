// Files that are made, each durable before the next.
ghost use Rattle.std.specs.Prelude.{◌≡◌, replicate, Some, None, IsSome};
ghost use Rattle.std.specs.Option.{option_map};
ghost use Rattle.zn_stand.specs.File.{created, written, synced};
ghost use Rattle.zn_stand.specs.Directory.{file_at};
ghost use Rattle.zn_backing.specs.Making.{made_answer, grown, rested_file, Holds, MakesFile};

use crate::CreateError;
use zn_files::{FileError, Files};

/// What making a file answers where a call answers this.
fn made_answer(answer: Result<(), FileError>) -> Result<(), CreateError>
    ensures { result ≡ made_answer answer }
{
    match answer {
        Ok(()) => Ok(()),
        Err(fault) => Err(CreateError::from(fault)),
    }
}

/// Makes an empty file.
fn begin<F: Files>(files: &mut F, name: &str) -> Result<(), CreateError>
    requires { Holds (F.state files.old) (λ d. file_at d name.now ≡ None) }
    ensures { MakesFile name.now (λ o. Some created) result (F.state files.old) (F.state files.new) }
{
    made_answer(files.create(name))
}

/// Grows a file by zeros, unless it stays empty.
fn grow<F: Files>(files: &mut F, name: &str, len: u64) -> Result<(), CreateError>
    requires { Holds (F.state files.old) (λ d. IsSome (file_at d name.now)) }
    ensures { MakesFile name.now (λ o. option_map (grown len) o) result (F.state files.old) (F.state files.new) }
{
    if len == 0 {
        return Ok(());
    }
    made_answer(files.set_len(name, len))
}

/// Writes the bytes that a file begins with.
fn fill<F: Files>(files: &mut F, name: &str, bytes: &[u8]) -> Result<(), CreateError>
    requires { Holds (F.state files.old) (λ d. IsSome (file_at d name.now)) }
    ensures { MakesFile name.now (λ o. option_map (λ f. written f 0 bytes.now) o) result
        (F.state files.old) (F.state files.new) }
{
    made_answer(files.write_at(name, 0, bytes))
}

/// Makes a file durable.
fn settle<F: Files>(files: &mut F, name: &str) -> Result<(), CreateError>
    requires { Holds (F.state files.old) (λ d. IsSome (file_at d name.now)) }
    ensures { MakesFile name.now (λ o. option_map synced o) result (F.state files.old) (F.state files.new) }
{
    made_answer(files.sync(name))
}

/// Makes a file of so many zeros, and makes it durable.
pub fn make_zeros<F: Files>(files: &mut F, name: &str, len: u64) -> Result<(), CreateError>
    requires { Holds (F.state files.old) (λ d. file_at d name.now ≡ None) }
    ensures { MakesFile name.now (rested_file (replicate len 0)) result (F.state files.old) (F.state files.new) }
{
    begin(files, name)?;
    grow(files, name, len)?;
    settle(files, name)
}

/// Makes a file of these bytes, and makes it durable.
pub fn make_file<F: Files>(files: &mut F, name: &str, bytes: &[u8]) -> Result<(), CreateError>
    requires { Holds (F.state files.old) (λ d. file_at d name.now ≡ None) }
    ensures { MakesFile name.now (rested_file bytes.now) result (F.state files.old) (F.state files.new) }
{
    begin(files, name)?;
    fill(files, name, bytes)?;
    settle(files, name)
}
