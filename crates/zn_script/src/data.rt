// Words that stand for data: parts `HH*C`, joined by plus signs.
ghost use Rattle.std.specs.Prelude.{◌≡◌, ◌≤◌, ◌<◌, ◌+◌, ◌-◌, ◌*◌, ◌&&◌, ◌++◌, length, take, replicate};
ghost use Rattle.std.specs.Prelude.{IfOk, IfSome, IsSome, MatchOption, nat_le, if◌then◌else◌};
ghost use Rattle.std.specs.List.{position_or_len};
ghost use Rattle.zn_base.specs.Decimals.{is_digit, number_in};
ghost use Rattle.zn_lines.specs.Lines.{bytes_of};
ghost use Rattle.zn_lines.specs.Grammar.{is_plus, is_hex, hex_worth, part_of, data_of};
ghost use Rattle.zn_lines.specs.Words.{next};
ghost use Rattle.zn_script.specs.Gives.{Gives};
ghost use Rattle.zn_script.specs.Places.{left_at, IsPlaceIn};
ghost use Rattle.zn_script.specs.Meant.{runs_meant};
ghost use Rattle.zn_script.specs.Data.{run_meant, first_part, HasLength};

use crate::words::word_end;
use zn_model::MOST_BYTES;

/// A byte so many times over.
#[derive(Clone, Copy)]
struct Part {
    byte: u8,
    count: u32,
}

/// What a hexadecimal digit in lower case is worth.
pub fn hex_worth(byte: u8) -> Option<u8>
    ensures value { result ≡ (if is_hex byte then Some (hex_worth byte) else None) }
    ensures small { IfSome result (λ n. n < 16) }
{
    match byte {
        b'0'..=b'9' => Some(byte - b'0'),
        b'a'..=b'f' => Some(byte - b'a' + 10),
        _ => None,
    }
}

/// The count with one more digit behind it, if that is one and the count is then within the limit.
fn with_digit(count: u32, byte: u8) -> Option<u32>
    requires { count ≤ MOST_BYTES }
    ensures value { let longer = count * 10 + (byte - 48) in
        result ≡ (if is_digit byte && nat_le longer MOST_BYTES then Some longer else None) }
    ensures small { IfSome result (λ n. n ≤ MOST_BYTES) }
{
    if !byte.is_ascii_digit() {
        return None;
    }
    let longer = count * 10 + u32::from(byte - b'0');
    (longer <= MOST_BYTES).then_some(longer)
}

/// The count at the front of some bytes, and the place of the plus sign behind it, or of their end. Each byte is
/// looked at once.
fn count_in(bytes: &[u8]) -> Option<(u32, usize)>
    ensures value { MatchOption result
        (number_in MOST_BYTES (first_part bytes.now) ≡ None)
        (λ x. number_in MOST_BYTES (first_part bytes.now) ≡ Some x.0) }
    ensures place { IfSome result (λ x. x.1 ≡ position_or_len is_plus bytes.now) }
    ensures within { IfSome result (λ x. x.1 ≤ length bytes.now) }
    ensures small { IfSome result (λ x. x.0 ≤ MOST_BYTES) }
{
    let (first, rest) = bytes.split_first()?;
    let mut count = with_digit(0, *first)?;
    for (i, &byte) in rest.iter().enumerate() {
        if byte == b'+' {
            return Some((count, i + 1));
        }
        if count == 0 {
            return None;
        }
        count = with_digit(count, byte)?;
    }
    Some((count, bytes.len()))
}

/// The part at the front of some bytes, and the place of the plus sign behind it, or of their end. Each byte is
/// looked at once.
fn part_in(bytes: &[u8]) -> Option<(Part, usize)>
    ensures value { MatchOption result
        (part_of (first_part bytes.now) ≡ None)
        (λ x. part_of (first_part bytes.now) ≡ Some (run_meant x.0)) }
    ensures place { IfSome result (λ x. x.1 ≡ position_or_len is_plus bytes.now) }
    ensures within { IfSome result (λ x. x.1 ≤ length bytes.now) }
    ensures small { IfSome result (λ x. x.0.count ≤ MOST_BYTES) }
{
    match bytes {
        [high, low, b'*', digits @ ..] => {
            let high = hex_worth(*high)?;
            let low = hex_worth(*low)?;
            let (count, end) = count_in(digits)?;
            let byte = high * 16 + low;
            Some((Part { byte, count }, end + 3))
        }
        _ => None,
    }
}

/// How many bytes there are with one part more: all counts together are limited.
fn with_part(total: u32, part: Part) -> Option<u32>
    requires total { total ≤ MOST_BYTES }
    requires part { part.count ≤ MOST_BYTES }
    ensures { MatchOption result
        (MOST_BYTES < total + part.count)
        (λ more. (more ≡ total + part.count) × (more ≤ MOST_BYTES)) }
{
    let more = total + part.count;
    if more <= MOST_BYTES { Some(more) } else { None }
}

/// How many bytes a word of data stands for, if it is one. Each byte of the word is looked at once.
pub fn data_len(word: &[u8]) -> Option<u32>
    ensures value { MatchOption result (data_of word.now ≡ None) (λ n. HasLength word.now n) }
    ensures small { IfSome result (λ n. n ≤ MOST_BYTES) }
{
    let mut rest = word;
    let mut total = 0u32;
    'parts: loop {
        let (part, end) = part_in(rest)?;
        total = with_part(total, part)?;
        if end == rest.len() {
            return Some(total);
        }
        rest = &rest[end + 1..];
    }
}

/// Puts the bytes of one part behind those that are there, and answers where they end.
fn put_part(part: Part, out: &mut [u8], at: usize) -> usize
    requires { at + part.count ≤ length out.old }
    ensures end { result ≡ at + part.count }
    ensures put { take result out.new ≡ take at out.old ++ replicate part.count part.byte }
{
    let end = at + part.count as usize;
    out[at..end].fill(part.byte);
    end
}

/// Puts the bytes that a word of data stands for in the front of `out`, and answers how many they are.
pub fn expand(word: &[u8], out: &mut [u8]) -> usize
    requires data { IsSome (data_of word.now) }
    requires room { MOST_BYTES ≤ length out.old }
    ensures bytes { take result out.new ≡ bytes_of (runs_meant word.now) }
    ensures len { result ≡ length (bytes_of (runs_meant word.now)) }
    ensures small { result ≤ MOST_BYTES }
{
    let mut rest = word;
    let mut at = 0usize;
    'parts: loop {
        let Some((part, end)) = part_in(rest) else {
            return at;
        };
        at = put_part(part, out, at);
        if end == rest.len() {
            return at;
        }
        rest = &rest[end + 1..];
    }
}

/// The data at a place, and the place of the word after it. Each byte is looked at twice: for the word's end, and as
/// part of the data.
pub fn data_at(line: &[u8], at: usize) -> Result<(&[u8], usize), u32>
    requires { IsPlaceIn line.now at }
    ensures gives { Gives (λ x. (runs_meant x.0.now, left_at line.now x.1)) result
        (next data_of (left_at line.now at)) }
    ensures place { IfOk result (λ x. IsPlaceIn line.now x.1) }
    ensures data { IfOk result (λ x. IsSome (data_of x.0.now)) }
{
    if at > line.len() {
        return Err(at as u32);
    }
    let end = word_end(line, at);
    let word = &line[at..end];
    match data_len(word) {
        Some(_) => Ok((word, end + 1)),
        None => Err((at + 1) as u32),
    }
}
