// The text of the file `device`.
ghost use Rattle.std.specs.Prelude.{◌≡◌, ◌==◌, ◌&&◌, ◌++◌, ◌<◌, ◌≤◌, ◌+◌, length, position, slice_index, nat_lt, IfOk, IfSome, OnOk};
ghost use Rattle.std.specs.List.{list_all};
ghost use Rattle.std.specs.Option.{option_map};
ghost use Rattle.zn_base.specs.Decimals.{is_digit};
ghost use Rattle.zn_stand.specs.DeviceText.{newline, device_text, line_text, line_at, is_number, capped_number, is_line, behind_first, number_line, shape_read, lines_read, text_read};
ghost use Rattle.zn_backing.specs.Listing.{line_of};

use crate::kinds::is_within;
use itoa::Buffer;
use std::alloc::{AllocError, Global};
use zn_base::parse_number;
use zn_stand::{GREATEST_NUMBER, Geometry, LONGEST_TEXT};
use zn_truth::Shape;

/// Puts a line behind a text.
fn push_line(text: &mut Vec<u8>, label: &[u8], number: u32) -> Result<(), AllocError>
    ensures { OnOk result (text.new.items ≡ text.old.items ++ line_text label.now number) }
{
    text.extend_from_slice(label)?;
    text.extend_from_slice(Buffer::new().format(number).as_bytes())?;
    text.push(b'\n')?;
    Ok(())
}

/// The text of a geometry.
pub fn device_text(alloc: Global, geo: &Geometry) -> Result<Vec<u8>, AllocError>
    ensures { IfOk result (λ text. text.items ≡ device_text geo.now) }
{
    let shape = geo.shape;
    let mut text = Vec::new(alloc);
    push_line(&mut text, b"zloop ", 1)?;
    push_line(&mut text, b"zones ", geo.zones)?;
    push_line(&mut text, b"conv ", geo.conv)?;
    push_line(&mut text, b"zone_blocks ", shape.zone_blocks)?;
    push_line(&mut text, b"zone_capacity ", shape.zone_capacity)?;
    push_line(&mut text, b"max_open ", shape.max_open)?;
    push_line(&mut text, b"max_active ", shape.max_active)?;
    Ok(text)
}

/// Where the first line ends, if a newline ends it.
fn end_of(text: &[u8]) -> Option<usize>
    ensures { result ≡ position (λ b. b == newline) text.now }
{
    text.iter().position(|byte| *byte == b'\n')
}

/// The first line, without its newline, if one ends it.
fn line_of(text: &[u8]) -> Option<&[u8]>
    ensures line { option_map (λ words. words.now) result ≡ line_of text.now }
    ensures place { IfSome result (λ words. length words.now < length text.now) }
{
    match end_of(text) {
        Some(len) => Some(&text[..len]),
        None => None,
    }
}

/// The line that begins at a place.
fn line_at(text: &[u8], at: usize) -> Option<&[u8]>
    requires { at ≤ length text.now }
    ensures line { option_map (λ words. words.now) result ≡ line_at text.now at }
    ensures place { IfSome result (λ words. at + length words.now < length text.now) }
{
    line_of(&text[at..])
}

/// Whether a word of two digits or more begins with a zero.
fn has_leading_zero(word: &[u8]) -> bool
    ensures { result ≡ (nat_lt 1 (length word.now) && slice_index word.now 0 == 48) }
{
    1 < word.len() && word[0] == b'0'
}

/// Whether a word has digits alone.
fn all_digits(word: &[u8]) -> bool
    ensures { result ≡ list_all is_digit word.now }
{
    word.iter().all(|byte| byte.is_ascii_digit())
}

/// Whether a word is a decimal number without a leading zero, however great.
fn is_number(word: &[u8]) -> bool
    ensures { result ≡ is_number word.now }
{
    !word.is_empty() && all_digits(word) && !has_leading_zero(word)
}

/// A decimal number, or the greatest that a field holds in place of one that is greater.
#[tactic(auto, using(crate::proofs::TextReading::number_fits))]
fn capped_number(word: &[u8]) -> u32
    ensures { result ≡ capped_number word.now }
{
    match parse_number(word, GREATEST_NUMBER as u64) {
        Some(number) => number as u32,
        None => GREATEST_NUMBER,
    }
}

/// Whether a line is the label and a number.
fn is_line(label: &[u8], words: &[u8]) -> bool
    ensures { result ≡ is_line label.now words.now }
{
    words.starts_with(label) && is_number(&words[label.len()..])
}

/// The number of a line that begins at a place, and the place behind it.
#[tactic(auto, unfolding(zn_stand::specs::DeviceText::number_line))]
fn number_line(line: u32, label: &[u8], text: &[u8], at: usize) -> Result<(u32, usize), u32>
    requires { at ≤ length text.now }
    ensures number { result ≡ number_line line label.now text.now at }
    ensures place { IfOk result (λ p. p.1 ≤ length text.now) }
{
    let Some(words) = line_at(text, at) else {
        return Err(line);
    };
    if !is_line(label, words) {
        return Err(line);
    }
    Ok((capped_number(&words[label.len()..]), at + words.len() + 1))
}

/// The place behind line 1.
fn behind_first(text: &[u8]) -> Result<usize, u32>
    ensures value { result ≡ behind_first (line_at text.now 0) }
    ensures place { IfOk result (λ at. at ≤ length text.now) }
{
    match line_at(text, 0) {
        Some(words) if words == b"zloop 1".as_slice() => Ok(words.len() + 1),
        _ => Err(1),
    }
}

/// The numbers of lines 4 to 7, or the first of them that isn't of its form.
#[tactic(auto, unfolding(zn_stand::specs::DeviceText::shape_read))]
fn shape_read(text: &[u8], at: usize) -> Result<Shape, u32>
    requires { at ≤ length text.now }
    ensures { result ≡ shape_read text.now at }
{
    let (zone_blocks, at) = number_line(4, b"zone_blocks ", text, at)?;
    let (zone_capacity, at) = number_line(5, b"zone_capacity ", text, at)?;
    let (max_open, at) = number_line(6, b"max_open ", text, at)?;
    let (max_active, at) = number_line(7, b"max_active ", text, at)?;
    if text.len() != at {
        return Err(8);
    }
    Ok(Shape {
        zone_blocks,
        zone_capacity,
        max_open,
        max_active,
    })
}

/// The numbers of the lines, or the first line that isn't of its form.
#[tactic(auto, unfolding(zn_stand::specs::DeviceText::lines_read))]
fn lines_read(text: &[u8]) -> Result<Geometry, u32>
    ensures { result ≡ lines_read text.now }
{
    let at = behind_first(text)?;
    let (zones, at) = number_line(2, b"zones ", text, at)?;
    let (conv, at) = number_line(3, b"conv ", text, at)?;
    let shape = shape_read(text, at)?;
    Ok(Geometry { zones, conv, shape })
}

/// The geometry, or the line at fault: 0 for a broken limit, 8 for text behind the lines or too much of it.
#[tactic(auto, unfolding(zn_stand::specs::DeviceText::text_read))]
pub fn read_text(text: &[u8]) -> Result<Geometry, u32>
    ensures { result ≡ text_read text.now }
{
    if LONGEST_TEXT < text.len() {
        return Err(8);
    }
    let geo = lines_read(text)?;
    if !is_within(&geo) {
        return Err(0);
    }
    Ok(geo)
}
