// The parts of the words behind a command's name.
ghost use Rattle.std.specs.Prelude.{◌≡◌, ◌<◌, ◌^◌, is_some, length, map, option_map, string_bytes};
ghost use Rattle.std.specs.Iterator.{YieldsFirstBy, item_count};
ghost use Rattle.zn_words.specs.Parts.{given_in, has_form, is_fit, is_use, other_of, others_in, parts_of};
ghost use Rattle.zn_words.specs.Parts.{uses, value_by, value_of};

use crate::flags::{Flag, flag_of};
use crate::values::is_value;
use std::slice::Iter;

/// A part of the words behind a command's name.
#[derive(Clone, Copy)]
enum Part<'a> {
    /// An option without a value.
    Alone(Flag),
    /// An option and its value, which is empty where the words end.
    With(Flag, &'a str),
    /// Any other word.
    Other(&'a str),
}

impl<'a> Part<'a> {
    ghost use Rattle.zn_words.specs.Meant.{part_meant};

    /// Whether its value, or other word, isn't empty and doesn't begin as an option does.
    fn is_fit(self) -> bool
        ensures { result ≡ is_fit (part_meant self.entry) }
    {
        match self {
            Part::Alone(_) => true,
            Part::With(_, word) | Part::Other(word) => is_value(word),
        }
    }

    /// Whether it is this option.
    fn is_use(self, flag: Flag) -> bool
        ensures { result ≡ is_use flag (part_meant self.entry) }
    {
        match self {
            Part::Alone(used) | Part::With(used, _) => used.word() == flag.word(),
            Part::Other(_) => false,
        }
    }

    /// The value of this option.
    fn value_by(self, flag: Flag) -> Option<&'a str>
        ensures { option_map (λ s. s.now) result ≡ value_by flag (part_meant self.entry) }
    {
        match self {
            Part::With(used, value) if used.word() == flag.word() => Some(value),
            _ => None,
        }
    }

    /// Whether it is neither an option nor a value.
    fn is_other(self) -> bool
        ensures { result ≡ is_some (other_of (part_meant self.entry)) }
    {
        match self {
            Part::Other(_) => true,
            Part::Alone(_) | Part::With(..) => false,
        }
    }
}

/// The parts of words, from left to right.
#[derive(Drop)]
struct Parts<'a> {
    flags: &'a [Flag],
    words: Iter<'a, String>,
}

impl<'a> Parts<'a> {
    ghost use Rattle.std.specs.Prelude.{◌++◌, ◌∷◌, Some};
    ghost use Rattle.std.specs.Slice.Iter.{iter_rest};
    ghost use Rattle.zn_words.specs.Parts.{With, parts_from};
    ghost use Rattle.zn_words.specs.Meant.{parts_left};

    #[tactic(auto, using(crate::proofs::Lengths::parts_short))]
    fn new(flags: &'a [Flag], words: &'a [String]) -> Parts<'a>
        ensures all { parts_left result ≡ parts_of flags.entry.now (map string_bytes words.entry.now) }
        ensures bound { length (parts_left result) < 2 ^ 64 }
    {
        Parts {
            flags,
            words: words.iter(),
        }
    }

    /// The next word, as the value of an option. It is empty where the words end.
    fn next_value(&mut self) -> &'a str
        ensures { (flag : Flag)
            → parts_from self.old.flags.now (map string_bytes (iter_rest self.old.words)) (Some flag)
            ≡ With flag result.now ∷ parts_left self.new }
    {
        match self.words.next() {
            Some(word) => word.as_str(),
            None => "",
        }
    }
}

impl<'a> Iterator for Parts<'a> {
    ghost use Rattle.zn_words.specs.Meant.{part_meant, parts_left};

    type Item = Part<'a>;

    ghost next_gives = { YieldsFirstBy part_meant parts_left };

    ghost remaining = { item_count parts_left };

    fn next(&mut self) -> Option<Part<'a>> {
        let word = self.words.next()?.as_str();
        match flag_of(self.flags, word) {
            Some(flag) if flag.takes_value() => Some(Part::With(flag, self.next_value())),
            Some(flag) => Some(Part::Alone(flag)),
            None => Some(Part::Other(word)),
        }
    }
}

/// Whether each option stands at most once, and any other word is a value.
fn has_form(flags: &[Flag], words: &[String]) -> bool
    ensures { result ≡ has_form flags.now (parts_of flags.now (map string_bytes words.now)) }
{
    Parts::new(flags, words).all(|part| part.is_fit())
        && flags.iter().all(|flag| uses(*flag, flags, words) <= 1)
}

/// How often an option stands.
fn uses(flag: Flag, flags: &[Flag], words: &[String]) -> usize
    ensures { result ≡ uses flag (parts_of flags.now (map string_bytes words.now)) }
{
    Parts::new(flags, words)
        .filter(|part| part.is_use(flag))
        .count()
}

/// How many words are neither options nor values.
fn others(flags: &[Flag], words: &[String]) -> usize
    ensures { result ≡ length (others_in (parts_of flags.now (map string_bytes words.now))) }
{
    Parts::new(flags, words)
        .filter(|part| part.is_other())
        .count()
}

/// The value of an option, where it stands.
pub fn value_of<'a>(flag: Flag, flags: &'a [Flag], words: &'a [String]) -> Option<&'a str>
    ensures { option_map (λ s. s.now) result ≡ value_of flag (parts_of flags.now (map string_bytes words.now)) }
{
    for part in Parts::new(flags, words) {
        if let Some(value) = part.value_by(flag) {
            return Some(value);
        }
    }
    None
}

/// Whether words have the form of a directory and options.
pub fn gives_dir(flags: &[Flag], words: &[String]) -> bool
    ensures { result ≡ is_some (given_in flags.now (map string_bytes words.now)) }
{
    has_form(flags, words) && others(flags, words) == 1
}
