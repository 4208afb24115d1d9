// The values of options.
ghost use Rattle.std.specs.Prelude.{◌≡◌, ◌≤◌, ◌<◌, ◌-◌, length, IfSome, if◌then◌else◌};
ghost use Rattle.std.specs.List.{list_all};
ghost use Rattle.zn_base.specs.Decimals.{number_in};
ghost use Rattle.zn_model.specs.Options.{value_once, flag_once, policy_named};
ghost use Rattle.zn_model.specs.Options.{is_octal, octal_worth, permissions_in, max_u32};

use zn_base::parse_number;
use zn_model::{OptError, Policy};

/// The value of an option that was not given before, and is one.
pub fn value_once<T: Copy>(
    before: Option<T>,
    read: Option<T>,
    item: u32,
    place: u32,
) -> Result<Option<T>, OptError>
    ensures { result ≡ value_once before read item place }
{
    match (before, read) {
        (Some(_), _) => Err(OptError::Repeated(item)),
        (None, None) => Err(OptError::BadValue(place)),
        (None, Some(value)) => Ok(Some(value)),
    }
}

/// A flag that was not given before.
pub fn flag_once(before: bool, item: u32) -> Result<bool, OptError>
    ensures { result ≡ flag_once before item }
{
    if before {
        Err(OptError::Repeated(item))
    } else {
        Ok(true)
    }
}

/// The policy that a word names.
pub fn policy_named(word: &[u8]) -> Option<Policy>
    ensures { result ≡ policy_named word.now }
{
    if word == b"remount-ro".as_slice() {
        Some(Policy::RemountRo)
    } else if word == b"zone-ro".as_slice() {
        Some(Policy::ZoneRo)
    } else if word == b"zone-offline".as_slice() {
        Some(Policy::ZoneOffline)
    } else if word == b"repair".as_slice() {
        Some(Policy::Repair)
    } else {
        None
    }
}

/// The user or group that a word is the number of.
pub fn owner_in(word: &[u8]) -> Option<u32>
    ensures { result ≡ number_in max_u32 word.now }
{
    let number = parse_number(word, u32::MAX as u64)?;
    Some(number as u32)
}

/// What an octal digit is worth.
fn octal_digit(byte: u8) -> Option<u32>
    ensures value { result ≡ (if is_octal byte then Some (byte - 48) else None) }
    ensures small { IfSome result (λ digit. digit < 8) }
{
    match byte {
        b'0'..=b'7' => Some((byte - b'0') as u32),
        _ => None,
    }
}

/// The number that at most four octal digits stand for.
fn octal_number(word: &[u8]) -> Option<u32>
    requires { length word.now ≤ 4 }
    ensures { result ≡ (if list_all is_octal word.now then Some (octal_worth word.now) else None) }
{
    let mut number = 0;
    for byte in word {
        number = number * 8 + octal_digit(*byte)?;
    }
    Some(number)
}

/// The greatest permissions.
const ALL_PERMISSIONS: u32 = 0o777;

/// The permissions that a word of one to four octal digits is.
pub fn permissions_in(word: &[u8]) -> Option<u32>
    ensures { result ≡ permissions_in word.now }
{
    if word.is_empty() || word.len() > 4 {
        return None;
    }
    let number = octal_number(word)?;
    if number <= ALL_PERMISSIONS {
        Some(number)
    } else {
        None
    }
}
