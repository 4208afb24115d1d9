// The lines of a script, and their texts.
ghost use Rattle.std.specs.Prelude.{◌≡◌, ◌+◌, ◌<◌, ◌≤◌, ◌++◌, length, take};
ghost use Rattle.std.specs.Fmt.{decimal};
ghost use Rattle.zn_gen.specs.Churn.{path_text, append_text, line_text};

use itoa::Buffer;
use zn_base::{hex_digit, put};

/// The most bytes of a line.
pub const MOST_LINE: usize = 64;

/// Bytes of one value that are put behind those of a file.
#[derive(Clone, Copy)]
pub(crate) struct Append {
    pub(crate) file: u32,
    pub(crate) offset: u32,
    pub(crate) byte: u8,
    pub(crate) len: u32,
}

/// A line of a script. A file's number is its handle's too.
#[derive(Clone, Copy)]
pub(crate) enum Line {
    Open(u32),
    Write(Append),
    /// All bytes of a file go.
    Truncate(u32),
    /// The bytes of a file are read, from the first on.
    Read { file: u32, len: u32 },
    Sync(u32),
    Submit(Append),
    Complete,
    Reap,
    Stat(u32),
}

/// Puts a number's decimal digits, at most ten, into the buffer at a place, and answers where they end.
#[inline(always)]
fn put_number(out: &mut [u8], at: usize, number: u32) -> usize
    requires { at + 10 ≤ length out.old }
    ensures end { result ≤ at + 10 }
    ensures text { take result out.new ≡ take at out.old ++ decimal number }
{
    let mut digits = Buffer::new();
    put(out, at, digits.format(number).as_bytes())
}

fn put_path(out: &mut [u8], at: usize, file: u32) -> usize
    requires { at + 14 ≤ length out.old }
    ensures end { result ≤ at + 14 }
    ensures text { take result out.new ≡ take at out.old ++ path_text file }
{
    let named = put(out, at, b"seq/");
    put_number(out, named, file)
}

fn put_append(out: &mut [u8], at: usize, append: &Append) -> usize
    requires { at + 35 ≤ length out.old }
    ensures end { result ≤ at + 35 }
    ensures text { take result out.new ≡ take at out.old ++ append_text append.now }
{
    let byte = append.byte;
    let handle = put_number(out, at, append.file);
    let blank = put(out, handle, b" ");
    let offset = put_number(out, blank, append.offset);
    let run = put(
        out,
        offset,
        &[b' ', hex_digit(byte / 16), hex_digit(byte % 16), b'*'],
    );
    put_number(out, run, append.len)
}

/// Puts the text of a line into the front of the buffer, and answers its length.
pub(crate) fn put_line(out: &mut [u8], line: &Line) -> usize
    requires { MOST_LINE ≤ length out.old }
    ensures short { result ≤ MOST_LINE }
    ensures text { take result out.new ≡ line_text line.now }
{
    match line {
        Line::Open(file) => {
            let verb = put(out, 0, b"open ");
            let handle = put_number(out, verb, *file);
            let blank = put(out, handle, b" ");
            let path = put_path(out, blank, *file);
            put(out, path, b" rw")
        }
        Line::Write(append) => {
            let verb = put(out, 0, b"write ");
            put_append(out, verb, append)
        }
        Line::Truncate(file) => {
            let verb = put(out, 0, b"truncate ");
            let handle = put_number(out, verb, *file);
            put(out, handle, b" 0")
        }
        Line::Read { file, len } => {
            let verb = put(out, 0, b"read ");
            let handle = put_number(out, verb, *file);
            let from = put(out, handle, b" 0 ");
            put_number(out, from, *len)
        }
        Line::Sync(file) => {
            let verb = put(out, 0, b"sync ");
            put_number(out, verb, *file)
        }
        Line::Submit(append) => {
            let verb = put(out, 0, b"submit ");
            put_append(out, verb, append)
        }
        Line::Complete => put(out, 0, b"complete"),
        Line::Reap => put(out, 0, b"reap"),
        Line::Stat(file) => {
            let verb = put(out, 0, b"stat ");
            put_path(out, verb, *file)
        }
    }
}
