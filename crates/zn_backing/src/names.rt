// The names of the files of zones.
ghost use Rattle.std.specs.Prelude.{◌≡◌, ◌++◌, ◌∷◌, [], codes, slice_index};
ghost use Rattle.std.specs.Str.{IsAscii};
ghost use Rattle.zn_stand.specs.ZoneNames.{last_digit, six_digits, kind_text, zone_name, read_only_name, offline_name};

use zn_truth::{Kind, ZoneNo};

/// A decimal digit.
fn last_digit(number: u32) -> u8
    ensures { result ≡ last_digit number }
{
    b'0' + (number % 10) as u8
}

/// Letters, a dash and six digits.
#[tactic(auto, unfolding(zn_stand::specs::ZoneNames::six_digits))]
fn spelled(letters: [u8; 3], z: u32) -> [u8; 10]
    ensures { result ≡ slice_index letters 0 ∷ slice_index letters 1 ∷ slice_index letters 2 ∷ 45 ∷ six_digits z }
{
    [
        letters[0],
        letters[1],
        letters[2],
        b'-',
        last_digit(z / 100000),
        last_digit(z / 10000),
        last_digit(z / 1000),
        last_digit(z / 100),
        last_digit(z / 10),
        last_digit(z),
    ]
}

/// The same, with `.ro` behind it.
#[tactic(auto, unfolding(zn_stand::specs::ZoneNames::six_digits))]
fn spelled_read_only(letters: [u8; 3], z: u32) -> [u8; 13]
    ensures { result ≡ (slice_index letters 0 ∷ slice_index letters 1 ∷ slice_index letters 2 ∷ 45 ∷ six_digits z)
        ++ 46 ∷ 114 ∷ 111 ∷ [] }
{
    [
        letters[0],
        letters[1],
        letters[2],
        b'-',
        last_digit(z / 100000),
        last_digit(z / 10000),
        last_digit(z / 1000),
        last_digit(z / 100),
        last_digit(z / 10),
        last_digit(z),
        b'.',
        b'r',
        b'o',
    ]
}

/// The same, with `.off` behind it.
#[tactic(auto, unfolding(zn_stand::specs::ZoneNames::six_digits))]
fn spelled_offline(letters: [u8; 3], z: u32) -> [u8; 14]
    ensures { result ≡ (slice_index letters 0 ∷ slice_index letters 1 ∷ slice_index letters 2 ∷ 45 ∷ six_digits z)
        ++ 46 ∷ 111 ∷ 102 ∷ 102 ∷ [] }
{
    [
        letters[0],
        letters[1],
        letters[2],
        b'-',
        last_digit(z / 100000),
        last_digit(z / 10000),
        last_digit(z / 1000),
        last_digit(z / 100),
        last_digit(z / 10),
        last_digit(z),
        b'.',
        b'o',
        b'f',
        b'f',
    ]
}

/// The bytes of the name of a zone's file.
#[tactic(auto, unfolding(zn_stand::specs::ZoneNames::six_digits, zn_stand::specs::ZoneNames::zone_name))]
fn name_bytes(kind: Kind, z: ZoneNo) -> [u8; 10]
    ensures { result ≡ zone_name kind z.0 }
{
    match kind {
        Kind::Conventional => spelled(*b"cnv", z.0),
        Kind::Sequential => spelled(*b"seq", z.0),
    }
}

/// Those of the marker of a zone that is read-only.
#[tactic(auto, unfolding(zn_stand::specs::ZoneNames::six_digits, zn_stand::specs::ZoneNames::zone_name, zn_stand::specs::ZoneNames::read_only_name))]
fn read_only_bytes(kind: Kind, z: ZoneNo) -> [u8; 13]
    ensures { result ≡ read_only_name kind z.0 }
{
    match kind {
        Kind::Conventional => spelled_read_only(*b"cnv", z.0),
        Kind::Sequential => spelled_read_only(*b"seq", z.0),
    }
}

/// Those of the marker of a zone that is offline.
#[tactic(auto, unfolding(zn_stand::specs::ZoneNames::six_digits, zn_stand::specs::ZoneNames::zone_name, zn_stand::specs::ZoneNames::offline_name))]
fn offline_bytes(kind: Kind, z: ZoneNo) -> [u8; 14]
    ensures { result ≡ offline_name kind z.0 }
{
    match kind {
        Kind::Conventional => spelled_offline(*b"cnv", z.0),
        Kind::Sequential => spelled_offline(*b"seq", z.0),
    }
}

/// ASCII bytes as a text.
fn as_text(bytes: &[u8]) -> &str
    requires { IsAscii bytes.now }
    ensures { result.now ≡ bytes.now }
{
    match str::from_utf8(bytes) {
        Ok(text) => text,
        Err(_) => "",
    }
}

/// The name of a zone's file. It is written to `text`.
#[tactic(auto, using(crate::proofs::ZoneNaming::name_ascii))]
pub fn zone_name(kind: Kind, z: ZoneNo, text: &mut [u8; 10]) -> &str
    ensures { result.now ≡ zone_name kind z.0 }
{
    *text = name_bytes(kind, z);
    as_text(text)
}

/// The name of the marker of a zone that is read-only. It is written to `text`.
#[tactic(auto, using(crate::proofs::ZoneNaming::read_only_ascii))]
pub fn read_only_name(kind: Kind, z: ZoneNo, text: &mut [u8; 13]) -> &str
    ensures { result.now ≡ read_only_name kind z.0 }
{
    *text = read_only_bytes(kind, z);
    as_text(text)
}

/// The name of the marker of a zone that is offline. It is written to `text`.
#[tactic(auto, using(crate::proofs::ZoneNaming::offline_ascii))]
pub fn offline_name(kind: Kind, z: ZoneNo, text: &mut [u8; 14]) -> &str
    ensures { result.now ≡ offline_name kind z.0 }
{
    *text = offline_bytes(kind, z);
    as_text(text)
}
