// Decimal numbers as words.
ghost use Rattle.std.specs.Prelude.{◌≡◌, ◌+◌, ◌-◌, ◌*◌, ◌<◌, ◌&&◌, ◌↔◌};
ghost use Rattle.std.specs.Prelude.{IsTrue, length, slice_index, nat_le, if◌then◌else◌};
ghost use Rattle.zn_base.specs.Decimals.{is_digit, digits_on, number_in};

/// The number with one more digit behind it, if that is one and the number is then at most `max`.
fn with_digit(number: u64, byte: u8, max: u64) -> Option<u64>
    ensures { let longer = number * 10 + (byte - 48) in
        result ≡ (if is_digit byte && nat_le longer max then Some longer else None) }
{
    if !byte.is_ascii_digit() {
        return None;
    }
    let longer = number.checked_mul(10)?.checked_add(u64::from(byte - b'0'))?;
    (longer <= max).then_some(longer)
}

/// The number that digits are, if it is at most `max`; 0 where there are none.
fn digits(word: &[u8], max: u64) -> Option<u64>
    ensures { result ≡ digits_on max 0 word.now }
{
    let mut number = 0;
    for byte in word {
        number = with_digit(number, *byte, max)?;
    }
    Some(number)
}

fn has_leading_zero(word: &[u8]) -> bool
    ensures { IsTrue result ↔ (1 < length word.now) × (slice_index word.now 0 ≡ 48) }
{
    word.len() > 1 && word[0] == b'0'
}

/// The decimal number that a word is, if it has no leading zero and is at most `max`.
pub fn parse_number(word: &[u8], max: u64) -> Option<u64>
    ensures { result ≡ number_in max word.now }
{
    if word.is_empty() || has_leading_zero(word) {
        return None;
    }
    digits(word, max)
}
