// Texts that are written whole.
ghost use Rattle.std.specs.Prelude.{◌≡◌, ◌<◌, ◌≤◌, ◌+◌, ◌++◌, length, take};
ghost use Rattle.std.specs.Fmt.{decimal};
ghost use Rattle.zn_base.specs.States.{Writes};
ghost use Rattle.zn_base.specs.Parts.{part_text, text_of};
ghost use Rattle.zn_base.specs.Runs.{hex, hex_digit};

use crate::{Sink, WriteFault};
use itoa::Buffer;

/// Writes all of the bytes, or a front of them before a fault.
pub fn write_all<K: Sink>(sink: &mut K, bytes: &[u8]) -> Result<(), WriteFault>
    ensures { Writes result bytes.now (K.state sink.old) (K.state sink.new) }
{
    let mut at = 0;
    while at < bytes.len() {
        match sink.write(&bytes[at..]) {
            Ok(count) => at += count,
            Err(fault) => return Err(fault),
        }
    }
    Ok(())
}

/// Writes a number in decimal digits.
pub fn write_number<K: Sink>(sink: &mut K, number: u64) -> Result<(), WriteFault>
    ensures { Writes result (decimal number) (K.state sink.old) (K.state sink.new) }
{
    let mut buffer = Buffer::new();
    write_all(sink, buffer.format(number).as_bytes())
}

/// Puts a text into the buffer at a place, and answers where it ends.
#[inline(always)]
pub fn put(buffer: &mut [u8], at: usize, text: &[u8]) -> usize
    requires { at + length text.now ≤ length buffer.old }
    ensures end { result ≡ at + length text.now }
    ensures text { take result buffer.new ≡ take at buffer.old ++ text.now }
{
    let end = at + text.len();
    buffer[at..end].copy_from_slice(text);
    end
}

/// A hexadecimal digit in lower case.
pub fn hex_digit(n: u8) -> u8
    requires { n < 16 }
    ensures { result ≡ hex_digit n }
{
    if n < 10 { b'0' + n } else { b'a' + (n - 10) }
}

fn write_hex<K: Sink>(sink: &mut K, byte: u8) -> Result<(), WriteFault>
    ensures { Writes result (hex byte) (K.state sink.old) (K.state sink.new) }
{
    write_all(sink, &[hex_digit(byte / 16), hex_digit(byte % 16)])
}

/// A part of a text.
#[derive(Clone, Copy)]
pub enum Part<'a> {
    /// The text itself.
    Text(&'a [u8]),
    /// A number, in decimal digits.
    Number(u64),
    /// A byte, as two hexadecimal digits in lower case.
    Hex(u8),
}

fn write_part<K: Sink>(sink: &mut K, part: &Part<'_>) -> Result<(), WriteFault>
    ensures { Writes result (part_text part.now) (K.state sink.old) (K.state sink.new) }
{
    match part {
        Part::Text(text) => write_all(sink, text),
        Part::Number(number) => write_number(sink, *number),
        Part::Hex(byte) => write_hex(sink, *byte),
    }
}

/// Writes the parts of a text, one after another.
pub fn write_parts<K: Sink>(sink: &mut K, parts: &[Part<'_>]) -> Result<(), WriteFault>
    ensures { Writes result (text_of parts.now) (K.state sink.old) (K.state sink.new) }
{
    for part in parts {
        match write_part(sink, part) {
            Ok(()) => {}
            Err(fault) => return Err(fault),
        }
    }
    Ok(())
}
