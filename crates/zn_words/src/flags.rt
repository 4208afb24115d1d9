// The options of commands.
ghost use Rattle.std.specs.Prelude.{◌≡◌, ◌∷◌, []};
ghost use Rattle.zn_words.specs.Parts.{flag_of, takes_value, word_of};

/// An option of a command.
#[derive(Clone, Copy)]
pub enum Flag {
    /// A device that is formatted is formatted again.
    Force,
    /// The label of a format.
    Label,
    /// The identifier of a format.
    Uuid,
    /// The features of a format, or the options of a mount.
    Options,
}

impl Flag {
    /// The word that it is spelled as.
    pub fn word(self) -> &'static str
        ensures { result.now ≡ word_of self }
    {
        match self {
            Flag::Force => "-f",
            Flag::Label => "-L",
            Flag::Uuid => "-U",
            Flag::Options => "-o",
        }
    }

    /// The letter of that word.
    pub fn letter(self) -> char
        ensures { word_of self ≡ 45 ∷ result ∷ [] }
    {
        match self {
            Flag::Force => 'f',
            Flag::Label => 'L',
            Flag::Uuid => 'U',
            Flag::Options => 'o',
        }
    }

    /// Whether the next word is its value.
    pub fn takes_value(self) -> bool
        ensures { result ≡ takes_value self }
    {
        match self {
            Flag::Force => false,
            Flag::Label | Flag::Uuid | Flag::Options => true,
        }
    }
}

/// The option that a word is, of those that a command has.
pub fn flag_of(flags: &[Flag], word: &str) -> Option<Flag>
    ensures { result ≡ flag_of flags.now word.now }
{
    flags.iter().copied().find(|flag| flag.word() == word)
}
