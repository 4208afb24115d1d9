// A source and a sink over a reader and a writer of std. They tell no bytes of their own.
ghost use Rattle.std.specs.Prelude.{◌≡◌, ◌↔◌, ◌<◌, ◌≤◌, ◌+◌, ◌-◌, min};
ghost use Rattle.std.specs.Prelude.{[], ◌++◌, take, false, IsOk, IfOk, OnOk, IsTrue, length, vec_len};
ghost use Rattle.std.specs.Io.{ReadsAtMost, WritesAtMost};
ghost use Rattle.std.specs.Io.KnownBytes.{Appends, ReadConsumes};
ghost use Rattle.zn_host.specs.Adapters.{EndsLine, Takes, untold_source, untold_sink};
ghost use Rattle.zn_base.specs.Causes.{HasCause};
ghost use Rattle.zn_base.specs.States.{WasRead, WasWritten, Writes};

use std::alloc::{AllocError, Global};
use std::io::{ErrorKind, Read, Write};
use std::marker::Model;
use zn_base::{ReadFault, Sink, Source, WriteFault};

/// A source over a reader. A read that was interrupted is made again.
#[derive(Drop)]
pub struct ReaderSource<R> {
    reader: R,
    faults: u64,
}

impl<R> Model for ReaderSource<R> {
    ghost use Rattle.zn_host.specs.Adapters.{ReaderState};

    ghost Value = { ReaderState R };

    ghost view = { λ s. record { reader = s.reader; faults = s.faults } };
}

impl<R: Read> ReaderSource<R> {
    pub fn new(reader: R) -> Self
        ensures { result ≡ record { reader = reader; faults = 0 } }
    {
        ReaderSource { reader, faults: 0 }
    }
}

/// A read that is made again where it was interrupted.
fn read_some<R: Read>(reader: &mut R, buf: &mut [u8]) -> Result<usize, ReadFault>
    ensures bound { ReadsAtMost result buf.new }
    ensures bytes { ReadConsumes (R.remaining reader.old) (R.remaining reader.new) result buf.new }
{
    for _ in 0..u64::MAX {
        match reader.read(buf) {
            Ok(count) => return Ok(count),
            Err(error) => {
                if error.kind() != ErrorKind::Interrupted {
                    return Err(ReadFault);
                }
            }
        }
    }
    Err(ReadFault)
}

impl<R: Read> Source for ReaderSource<R> {
    ghost state = { untold_source };

    /// Gives what the reader gives, where that tells its bytes.
    fn read(&mut self, buf: &mut [u8]) -> Result<usize, ReadFault>
        requires { 0 < length buf.old }
        ensures bound { ReadsAtMost result buf.new }
        ensures done { WasRead result buf.new (untold_source self.old) (untold_source self.new) }
        ensures reader { ReadConsumes (R.remaining self.old.reader) (R.remaining self.new.reader) result buf.new }
    {
        let result = read_some(&mut self.reader, buf);
        if result.is_err() {
            self.faults = self.faults.saturating_add(1);
        }
        result
    }

    fn faults(&self) -> u64 {
        self.faults
    }
}

/// How many bytes a `WriterSink` gathers.
const ROOM: usize = 65536;

/// When a `WriterSink` writes out what it has gathered, unless its buffer is full or it is flushed.
#[derive(Clone, Copy, Debug, PartialEq, Eq)]
pub enum Buffering {
    /// Once a piece ends in a newline: a reply that fits is one write, made before the next line may begin.
    Line,
    /// Not before: many replies are one write.
    Block,
}

/// A sink over a writer. It gathers bytes, and writes them out once its buffer is full or it is flushed, and where lines
/// are written out at once, also behind a newline. A write that fails loses what was gathered.
#[derive(Drop)]
pub struct WriterSink<W> {
    writer: W,
    buffering: Buffering,
    buffer: Vec<u8>,
    len: usize,
    faults: u64,
}

impl<W> Model for WriterSink<W> {
    ghost use Rattle.std.specs.Prelude.{◌<◌, vec_len, take};
    ghost use Rattle.zn_host.specs.Adapters.{WriterState};

    ghost Value = { WriterState W };

    ghost view = { λ s. record {
      writer = s.writer;
      buffering = s.buffering;
      gathered = take s.len s.buffer.items;
      faults = s.faults;
    } };

    ghost invariant = { λ s. s.len < vec_len s.buffer };
}

impl<W: Write + Drop> WriterSink<W> {
    pub fn new(alloc: Global, writer: W, buffering: Buffering) -> Result<Self, AllocError>
        ensures { IfOk result (λ s.
            s ≡ record { writer = writer; buffering = buffering; gathered = []; faults = 0 }) }
    {
        Ok(WriterSink {
            writer,
            buffering,
            buffer: vec![in alloc; 0; ROOM]?,
            len: 0,
            faults: 0,
        })
    }
}

/// Writes all of the bytes, so that they are on their way, or counts a fault.
fn write_out<W: Write>(writer: &mut W, bytes: &[u8], faults: &mut u64) -> Result<(), WriteFault>
    ensures cause { HasCause faults.old faults.new result }
    ensures bytes { OnOk result (Appends (W.contents writer.old) (W.contents writer.new) bytes.now) }
{
    if writer.write_all(bytes).is_err() || writer.flush().is_err() {
        *faults = faults.saturating_add(1);
        return Err(WriteFault);
    }
    Ok(())
}

/// Puts a front of a piece behind the first bytes of a buffer, as much as there is room for, and answers its length.
fn put_behind(buffer: &mut Vec<u8>, len: usize, piece: &[u8]) -> usize
    requires { len ≤ vec_len buffer.old }
    ensures count { result ≡ min (length piece.now) (vec_len buffer.old - len) }
    ensures bytes { take (len + result) buffer.new.items ≡ take len buffer.old.items ++ take result piece.now }
    ensures room { vec_len buffer.new ≡ vec_len buffer.old }
{
    let count = piece.len().min(buffer.len() - len);
    buffer[len..len + count].copy_from_slice(&piece[..count]);
    count
}

fn ends_line(bytes: &[u8]) -> bool
    ensures { IsTrue result ↔ EndsLine bytes.now }
{
    bytes.last() == Some(&b'\n')
}

/// Whether bytes are written out at once, be there room or not.
fn is_due(buffering: Buffering, bytes: &[u8]) -> bool
    ensures { IsTrue result ↔ ((buffering ≡ Buffering.Line) × EndsLine bytes.now) }
{
    match buffering {
        Buffering::Line => ends_line(bytes),
        Buffering::Block => false,
    }
}

impl<W: Write> Sink for WriterSink<W> {
    ghost state = { untold_sink };

    fn write(&mut self, piece: &[u8]) -> Result<usize, WriteFault>
        ensures bound { WritesAtMost result piece.now }
        ensures some { IfOk result (λ n. 0 < length piece.now → 0 < n) }
        ensures done { WasWritten result piece.now (untold_sink self.old) (untold_sink self.new) }
        ensures kept { self.new.buffering ≡ self.old.buffering }
        ensures takes { Takes self.old.buffering (W.contents self.old.writer) (W.contents self.new.writer)
            self.old.gathered self.new.gathered result piece.now }
    {
        let count = put_behind(&mut self.buffer, self.len, piece);
        let end = self.len + count;
        if end < self.buffer.len() && !is_due(self.buffering, &piece[..count]) {
            self.len = end;
            return Ok(count);
        }
        self.len = 0;
        write_out(&mut self.writer, &self.buffer[..end], &mut self.faults)?;
        Ok(count)
    }

    /// Writes out what is gathered.
    fn flush(&mut self) -> Result<(), WriteFault>
        ensures done { Writes result [] (untold_sink self.old) (untold_sink self.new) }
        ensures passed { IsOk result → (untold_sink self.new).held_back ≡ false }
        ensures kept { self.new.buffering ≡ self.old.buffering }
        ensures sent { self.new.gathered ≡ [] }
        ensures bytes { OnOk result
            (Appends (W.contents self.old.writer) (W.contents self.new.writer) self.old.gathered) }
    {
        let end = self.len;
        self.len = 0;
        write_out(&mut self.writer, &self.buffer[..end], &mut self.faults)
    }

    fn faults(&self) -> u64 {
        self.faults
    }
}
