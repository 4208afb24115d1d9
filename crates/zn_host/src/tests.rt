ghost use Rattle.std.specs.Prelude.{◌≤◌, IfOk};

use crate::transfer::{read_whole, write_whole};
use crate::{Buffering, HostFiles, ReaderSource, WriterSink};
use std::cell::Cell;
use std::io::{ErrorKind, Read, Write};
use std::os::unix::fs::FileExt;
use std::process::Abort;
use std::test::Fail;
use std::{fs, io};
use zn_base::{Part, Sink, Source, write_all, write_parts};
use zn_files::{FileError, Files, Text};

/// What a call of the stream below does.
#[derive(Clone, Copy)]
enum Step {
    Takes(usize),
    Fails(ErrorKind),
}

/// A stream whose calls go by a list, and which counts those of a write.
#[derive(Drop)]
struct Stream<'a> {
    steps: &'a [Step],
    written: Vec<u8>,
    writes: usize,
}

impl Stream<'_> {
    fn next(&mut self) -> io::Result<usize> {
        let Some((step, rest)) = self.steps.split_first() else {
            return Ok(0);
        };
        self.steps = rest;
        match step {
            Step::Takes(count) => Ok(*count),
            Step::Fails(kind) => Err(io::Error::from(*kind)),
        }
    }
}

impl Read for Stream<'_> {
    fn read(&mut self, buf: &mut [u8]) -> io::Result<usize> {
        let count = self.next()?.min(buf.len());
        buf[..count].fill(b'a');
        Ok(count)
    }
}

impl Write for Stream<'_> {
    fn write(&mut self, buf: &[u8]) -> io::Result<usize> {
        self.writes = self.writes.saturating_add(1);
        let count = self.next()?.min(buf.len());
        self.written.extend_from_slice(&buf[..count])?;
        Ok(count)
    }

    fn flush(&mut self) -> io::Result<()> {
        Ok(())
    }
}

#[test]
fn reads_from_a_reader(rt: HostRuntime) {
    let steps = [
        Step::Takes(2),
        Step::Fails(ErrorKind::Interrupted),
        Step::Takes(9),
        Step::Fails(ErrorKind::Other),
        Step::Takes(1),
    ];
    let mut source = ReaderSource::new(Stream {
        steps: &steps,
        written: Vec::new(rt.alloc()),
        writes: 0,
    });
    let mut buf = [0; 4];
    for want in [Some(2), Some(4), None, Some(1), Some(0)] {
        assert_eq!(rt; source.read(&mut buf).ok(), want);
    }
    assert_eq!(rt; source.faults(), 1);
}

#[test]
fn gathers_a_reply(rt: HostRuntime) -> Result<(), Fail> {
    let steps = [
        Step::Takes(3),
        Step::Takes(usize::MAX),
        Step::Fails(ErrorKind::Other),
        Step::Takes(usize::MAX),
        Step::Takes(usize::MAX),
        Step::Takes(usize::MAX),
    ];
    let mut stream = Stream {
        steps: &steps,
        written: Vec::new(rt.alloc()),
        writes: 0,
    };
    let mut sink = WriterSink::new(rt.alloc(), &mut stream, Buffering::Line)?;
    let parts = [Part::Text(b"ok "), Part::Number(12), Part::Text(b"\n")];
    for is_written in [true, false, true] {
        assert_eq!(rt; write_parts(&mut sink, &parts).is_ok(), is_written);
    }
    // What is longer than the buffer is written out as that fills up, and the rest by a flush.
    let long = vec![in rt.alloc(); b'x'; 70_000]?;
    assert!(rt; write_all(&mut sink, &long).is_ok());
    assert!(rt; sink.flush().is_ok());
    assert_eq!(rt; sink.faults(), 1);
    drop(sink);
    // The first reply took two writes, since the writer took three bytes of it at first.
    assert_eq!(rt; stream.writes, 6);
    assert_eq!(rt; stream.written.len(), 12 + long.len());
    assert!(rt; stream.written.as_slice().starts_with(b"ok 12\nok 12\nxx"));
    Ok(())
}

// Replies are gathered until a flush, and what is left of a full buffer too.
#[test]
fn replies_are_gathered_in_blocks(rt: HostRuntime) -> Result<(), Fail> {
    let steps = [Step::Takes(usize::MAX); 4];
    let mut stream = Stream {
        steps: &steps,
        written: Vec::new(rt.alloc()),
        writes: 0,
    };
    let mut sink = WriterSink::new(rt.alloc(), &mut stream, Buffering::Block)?;
    for _ in 0..30_000 {
        assert!(rt; write_all(&mut sink, b"ok\n").is_ok());
    }
    assert!(rt; sink.flush().is_ok());
    assert!(rt; sink.flush().is_ok());
    drop(sink);
    assert_eq!(rt; stream.writes, 2);
    assert_eq!(rt; stream.written.len(), 90_000);
    Ok(())
}

fn directory(rt: HostRuntime, path: &str) -> Result<HostFiles, Fail> {
    let alloc = rt.alloc();
    Ok(HostFiles::new(rt, alloc, Text::new(alloc, path.as_bytes())?))
}

/// A call on a directory.
#[derive(Clone, Copy)]
enum Ask<'a> {
    Names,
    Len,
    Read(u64),
    Write(u64, &'a [u8]),
    SetLen(u64),
    Create,
    Sync,
}

/// A call, the file that it names, and what it answers: how many names or bytes there are, the three bytes that were
/// read as one number, or 0.
type Row<'a> = (&'a str, Ask<'a>, Result<u64, FileError>);

fn read_three(files: &mut HostFiles, name: &str, at: u64) -> Result<u64, FileError> {
    let mut out = [0; 3];
    files.read_at(name, at, &mut out)?;
    Ok(u64::from_be_bytes([0, 0, 0, 0, 0, out[0], out[1], out[2]]))
}

fn asked(files: &mut HostFiles, name: &str, ask: Ask<'_>) -> Result<u64, FileError> {
    match ask {
        Ask::Names => Ok(files.names()?.count() as u64),
        Ask::Len => files.len(name),
        Ask::Read(at) => read_three(files, name, at),
        Ask::Write(at, bytes) => files.write_at(name, at, bytes).map(|()| 0),
        Ask::SetLen(len) => files.set_len(name, len).map(|()| 0),
        Ask::Create => files.create(name).map(|()| 0),
        Ask::Sync => files.sync(name).map(|()| 0),
    }
}

fn ask_all(rt: &impl Abort, files: &mut HostFiles, rows: &[Row<'_>]) {
    for (name, ask, want) in rows {
        assert_eq!(rt; asked(files, name, *ask), *want, "{name}");
    }
}

#[test]
fn keeps_files(rt: HostRuntime) -> Result<(), Fail> {
    let path = "zn_host_keeps_files";
    let _ = fs::remove_dir_all(&rt, path);
    fs::create_dir(&rt, path)?;
    let mut files = directory(rt, path)?;
    ask_all(
        &rt,
        &mut files,
        &[
            ("b", Ask::Len, Err(FileError::Missing)),
            ("b", Ask::Create, Ok(0)),
            ("a", Ask::Create, Ok(0)),
            ("a", Ask::Create, Err(FileError::Exists)),
            ("b", Ask::Write(0, b"abcd"), Ok(0)),
            ("b", Ask::Write(2, b"xyz"), Ok(0)),
            ("b", Ask::SetLen(4), Ok(0)),
            ("b", Ask::Sync, Ok(0)),
            ("b", Ask::Len, Ok(4)),
            ("b", Ask::Read(1), Ok(0x62_78_79)),
            ("b", Ask::Read(2), Err(FileError::Fault)),
            ("../c", Ask::Write(0, b"a"), Err(FileError::Fault)),
        ],
    );
    assert_eq!(rt; files.faults(), 4);
    let names = files.names()?;
    assert_eq!(rt; names.count(), 2);
    assert_eq!(rt; (names.at(0), names.at(1)), ("a", "b"));
    fs::remove_dir_all(&rt, path)?;
    Ok(())
}

#[test]
fn holds_a_lock(rt: HostRuntime) -> Result<(), Fail> {
    let path = "zn_host_holds_a_lock";
    let _ = fs::remove_dir_all(&rt, path);
    let mut absent = directory(rt, path)?;
    ask_all(&rt, &mut absent, &[("", Ask::Names, Err(FileError::Fault))]);
    fs::create_dir(&rt, path)?;
    let mut first = directory(rt, path)?;
    let mut second = directory(rt, path)?;
    let nothing = [("", Ask::Names, Ok(0))];
    ask_all(&rt, &mut first, &nothing);
    ask_all(
        &rt,
        &mut second,
        &[
            ("", Ask::Names, Err(FileError::Fault)),
            ("a", Ask::Create, Err(FileError::Fault)),
        ],
    );
    ask_all(&rt, &mut first, &nothing);
    drop(first);
    ask_all(&rt, &mut second, &[("a", Ask::Create, Ok(0))]);
    assert_eq!(rt; (absent.faults(), second.faults()), (1, 2));
    fs::remove_dir_all(&rt, path)?;
    Ok(())
}

/// More files than stay open.
#[test]
fn closes_files(rt: HostRuntime) -> Result<(), Fail> {
    let path = "zn_host_closes_files";
    let _ = fs::remove_dir_all(&rt, path);
    fs::create_dir(&rt, path)?;
    let mut files = directory(rt, path)?;
    for i in 0..600u64 {
        let name = format!(in rt.alloc(); "{i}")?;
        ask_all(
            &rt,
            &mut files,
            &[
                (name.as_str(), Ask::Create, Ok(0)),
                (name.as_str(), Ask::SetLen(i), Ok(0)),
            ],
        );
    }
    for i in 0..600u64 {
        let name = format!(in rt.alloc(); "{i}")?;
        ask_all(&rt, &mut files, &[(name.as_str(), Ask::Len, Ok(i))]);
    }
    fs::remove_dir_all(&rt, path)?;
    Ok(())
}

/// A file of eight bytes that moves two of them at a time. Every other call is interrupted.
#[derive(Drop)]
struct Slow {
    bytes: Cell<[u8; 8]>,
    is_ready: Cell<bool>,
}

impl Slow {
    /// How many bytes a call moves.
    fn next(&self, len: usize, offset: u64) -> io::Result<usize>
        ensures { IfOk result (λ n. n ≤ len) }
    {
        let is_ready = self.is_ready.get();
        self.is_ready.set(!is_ready);
        if !is_ready {
            return Err(io::Error::from(ErrorKind::Interrupted));
        }
        Ok(len.min(2).min(8 - (offset as usize).min(8)))
    }
}

impl FileExt for Slow {
    fn read_at(&self, buf: &mut [u8], offset: u64) -> io::Result<usize> {
        let count = self.next(buf.len(), offset)?;
        let bytes = self.bytes.get();
        for i in 0..count {
            buf[i] = bytes[(offset as usize).wrapping_add(i) % 8];
        }
        Ok(count)
    }

    fn write_at(&self, buf: &[u8], offset: u64) -> io::Result<usize> {
        let count = self.next(buf.len(), offset)?;
        let mut bytes = self.bytes.get();
        for i in 0..count {
            bytes[(offset as usize).wrapping_add(i) % 8] = buf[i];
        }
        self.bytes.set(bytes);
        Ok(count)
    }
}

#[test]
fn moves_bytes_in_pieces(rt: HostRuntime) {
    let file = Slow {
        bytes: Cell::new(*b"abcdefgh"),
        is_ready: Cell::new(true),
    };
    let mut out = [0; 5];
    assert_eq!(rt; read_whole(&file, 1, &mut out), Ok(()));
    assert_eq!(rt; &out, b"bcdef");
    assert_eq!(rt; read_whole(&file, 4, &mut out), Err(FileError::Fault));
    assert_eq!(rt; write_whole(&file, 2, b"vwxyz"), Ok(()));
    assert_eq!(rt; &file.bytes.get(), b"abvwxyzh");
    assert_eq!(rt; write_whole(&file, 4, b"vwxyz"), Err(FileError::Fault));
}
