// Bytes that are written as runs of equal bytes.
ghost use Rattle.std.specs.Prelude.{◌≡◌, ◌≢◌, ◌==◌, ℕ, ◌+◌, ◌<◌, ◌≤◌};
ghost use Rattle.std.specs.Prelude.{◌++◌, [], length, slice_index, take, codes, if◌then◌else◌, IsTrue};
ghost use Rattle.std.specs.Fmt.{decimal};
ghost use Rattle.std.specs.List.{prefix_len};
ghost use Rattle.zn_base.specs.States.{Writes};
ghost use Rattle.zn_base.specs.Runs.{run_text, data_text};
ghost use Rattle.zn_runs.specs.Rest.{text_from};

use itoa::Buffer;
use std::simd::prelude::*;
use zn_base::{Sink, WriteFault, hex_digit, put, write_all};

/// The most bytes of the text of a run behind a plus sign.
pub const MOST_RUN: usize = 24;

const LANES: usize = 32;

/// How many bytes are looked at together, as long as all of them are equal.
const WIDE: usize = 128;

/// How many of the `LANES` bytes from a place on come before the first other one.
#[inline(always)]
fn equal_lanes(bytes: &[u8], at: usize, byte: u8) -> usize
    requires { at + LANES ≤ length bytes.now }
    ensures within { result ≤ LANES }
    ensures equal { (k : ℕ) → at ≤ k → k < at + result → slice_index bytes.now k ≡ byte }
    ensures other { result < LANES → slice_index bytes.now (at + result) ≢ byte }
{
    let others = u8x32::from_slice(&bytes[at..])
        .simd_ne(u8x32::splat(byte))
        .to_bitmask();
    if others == 0 {
        LANES
    } else {
        others.trailing_zeros() as usize
    }
}

/// Whether the `WIDE` bytes from a place on are all this one.
#[inline(always)]
fn are_equal(bytes: &[u8], at: usize, byte: u8) -> bool
    requires { at + WIDE ≤ length bytes.now }
    ensures { IsTrue result → (k : ℕ) → at ≤ k → k < at + WIDE → slice_index bytes.now k ≡ byte }
{
    let same = u8x64::splat(byte);
    let first = u8x64::from_slice(&bytes[at..]).simd_ne(same);
    let second = u8x64::from_slice(&bytes[at + WIDE / 2..]).simd_ne(same);
    (first | second).to_bitmask() == 0
}

/// How many bytes from the first on are this one.
fn equal_front(bytes: &[u8], byte: u8) -> usize
    ensures { result ≡ prefix_len (λ b. b == byte) bytes.now }
{
    let mut at = 0;
    'wide: while bytes.len() - at >= WIDE && are_equal(bytes, at, byte) {
        at += WIDE;
    }
    'lanes: while bytes.len() - at >= LANES {
        let count = equal_lanes(bytes, at, byte);
        if count < LANES {
            return at + count;
        }
        // Not by the count, for which the next load would then wait.
        at += LANES;
    }
    'rest: while at < bytes.len() && bytes[at] == byte {
        at += 1;
    }
    at
}

/// Puts a run into the buffer at a place, behind a plus sign where it isn't the first, and answers where it ends.
fn put_run(buffer: &mut [u8], at: usize, is_first: bool, byte: u8, count: usize) -> usize
    requires { at + MOST_RUN ≤ length buffer.old }
    ensures within { result ≤ length buffer.new }
    ensures text { take result buffer.new ≡ take at buffer.old
        ++ ((if is_first then [] else codes "+") ++ run_text (record { byte = byte; count = count })) }
{
    let joint: &[u8] = if is_first { b"" } else { b"+" };
    let joined = put(buffer, at, joint);
    let starred = put(
        buffer,
        joined,
        &[hex_digit(byte / 16), hex_digit(byte % 16), b'*'],
    );
    let mut digits = Buffer::new();
    put(buffer, starred, digits.format(count).as_bytes())
}

/// What runs were put into a buffer.
#[derive(Clone, Copy)]
struct Filled {
    /// How many bytes the buffer holds.
    held: usize,
    /// Where the next run begins.
    next: usize,
}

/// Puts the runs from a place on into the buffer, as long as there is room for one more.
fn put_runs(buffer: &mut [u8], bytes: &[u8], from: usize) -> Filled
    requires room { MOST_RUN ≤ length buffer.old }
    requires inside { from < length bytes.now }
    ensures held { result.held ≤ length buffer.new }
    ensures further { from < result.next }
    ensures within { result.next ≤ length bytes.now }
    ensures text { text_from bytes.now from ≡ take result.held buffer.new ++ text_from bytes.now result.next }
{
    let mut held = 0;
    let mut next = from;
    while next < bytes.len() && buffer.len() - held >= MOST_RUN {
        let byte = bytes[next];
        let count = equal_front(&bytes[next..], byte);
        held = put_run(buffer, held, next == 0, byte, count);
        next += count;
    }
    Filled { held, next }
}

/// Writes bytes as runs, each as long as it may be: `61*2+62*1` for two bytes of 0x61 and one of 0x62. The runs are
/// put into the buffer, which goes to the sink where no other has room in it, and at the end.
pub fn write_runs<K: Sink>(sink: &mut K, bytes: &[u8], buffer: &mut [u8]) -> Result<(), WriteFault>
    requires room { MOST_RUN ≤ length buffer.old }
    ensures written { Writes result (data_text bytes.now) (K.state sink.old) (K.state sink.new) }
    ensures room { length buffer.new ≡ length buffer.old }
{
    let mut at = 0;
    while at < bytes.len() {
        let filled = put_runs(buffer, bytes, at);
        match write_all(sink, &buffer[..filled.held]) {
            Ok(()) => at = filled.next,
            Err(fault) => return Err(fault),
        }
    }
    Ok(())
}
