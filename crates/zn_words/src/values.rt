// Words that are values.
ghost use Rattle.std.specs.Prelude.{◌≡◌, ◌≤◌, IfSome, map, string_bytes};
ghost use Rattle.zn_base.specs.Decimals.{number_in};
ghost use Rattle.zn_words.specs.Parts.{is_value};
ghost use Rattle.zn_words.specs.Scratch.{are_values};

use zn_base::parse_number;

/// Whether a word isn't empty and doesn't begin as an option does.
pub fn is_value(word: &str) -> bool
    ensures { result ≡ is_value word.now }
{
    match word.as_bytes() {
        [] => false,
        [byte, ..] => *byte != b'-',
    }
}

/// Whether words have the form of a command without options: so many words, and all of them values.
pub fn are_values(count: usize, words: &[String]) -> bool
    ensures { result ≡ are_values count (map string_bytes words.now) }
{
    words.len() == count && words.iter().all(|word| is_value(word.as_str()))
}

/// The decimal number that a word is, if it is at most `max`.
pub fn number(word: &[u8], max: u32) -> Option<u32>
    ensures value { result ≡ number_in max word.now }
    ensures small { IfSome result (λ n. n ≤ max) }
{
    match parse_number(word, max as u64) {
        Some(number) => Some(number as u32),
        None => None,
    }
}
