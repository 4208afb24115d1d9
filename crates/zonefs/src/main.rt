//! Makes and formats zoned devices in directories, and carries out scripts of file calls, from standard input, on them or
//! on one in memory; it writes the replies to standard output.
#![tactic(auto)]

ghost use Rattle.std.specs.Prelude.{◌≡◌, ◌⊎◌, codes};
ghost use Rattle.std.specs.Io.KnownBytes.{Appends};
ghost use Rattle.std.specs.Process.{exit_status};
ghost use Rattle.zn_run.specs.Statuses.{code_of};

use std::io::{ErrorKind, Write};
use std::process::ExitCode;
use std::random::RandomSource;
use std::{env, io};
use zn_cli::zonefs_main;
use zn_files::{Files, MemFiles};
use zn_host::{Buffering, HostFiles, ReaderSource, WriterSink};
use zn_run::Status;
use zn_words::dir_of;

/// The words of the command line after the program's name.
fn words(rt: HostRuntime) -> io::Result<Vec<String>> {
    let mut words = env::args(&rt)?;
    let _name = words.next();
    Ok(words.collect(rt.alloc())?)
}

/// Ends for want of memory before there is a sink. Where its line can't be written, a write failed.
fn starved<W: Write>(writer: &mut W) -> Status
    ensures one { (result ≡ Status.Memory) ⊎ (result ≡ Status.WriteFault) }
    ensures told { result ≡ Status.Memory →
        Appends (W.contents writer.old) (W.contents writer.new) (codes "out-of-memory\n") }
{
    if writer.write_all(b"out-of-memory\n").is_ok() && writer.flush().is_ok() {
        Status::Memory
    } else {
        Status::WriteFault
    }
}

/// Sixteen bytes of the machine's entropy, or zeros where it gives none.
fn entropy<R: RandomSource>(rt: &R) -> [u8; 16] {
    let mut bytes = [0; 16];
    match rt.fill_bytes(&mut bytes) {
        Ok(()) => bytes,
        Err(_) => [0; 16],
    }
}

/// Does what the words ask for, with these files. Nothing but the command calls them.
fn carry_out<F: Files + Drop>(
    rt: HostRuntime,
    words: &[String],
    files: F,
    buffering: Buffering,
) -> Status {
    let Ok(mut sink) = WriterSink::new(rt.alloc(), rt.stdout(), buffering) else {
        return starved(&mut rt.stdout());
    };
    let mut source = ReaderSource::new(rt.stdin());
    zonefs_main(
        rt.alloc(),
        words,
        entropy(&rt),
        &mut source,
        files,
        &mut sink,
    )
    .status
}

/// Does what the command line asks for, with the files of the directory that it names. A word that isn't UTF-8 fits no
/// command, and neither do no words. On a directory each reply is written before the next line may begin, so that what
/// was written tells which line a stop of the host fell into.
fn run(rt: HostRuntime) -> Status {
    let alloc = rt.alloc();
    let words = match words(rt) {
        Ok(words) => words,
        Err(error) if error.kind() == ErrorKind::OutOfMemory => return starved(&mut rt.stdout()),
        Err(_) => Vec::new(alloc),
    };
    match dir_of(alloc, &words) {
        Ok(Some(path)) => {
            carry_out(rt, &words, HostFiles::new(rt, alloc, path), Buffering::Line)
        }
        Ok(None) => carry_out(rt, &words, MemFiles::new(alloc), Buffering::Block),
        Err(_) => starved(&mut rt.stdout()),
    }
}

/// How a run ended, as the exit status.
fn exit_code(status: Status) -> ExitCode
    ensures { exit_status result ≡ code_of status }
{
    ExitCode::from(status.code())
}

fn main(rt: HostRuntime) -> ExitCode {
    exit_code(run(rt))
}
