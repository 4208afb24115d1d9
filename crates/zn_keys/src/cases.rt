// Words behind a directory, worked through.
ghost use Rattle.zn_keys.specs.KeyCases.{MibAsked, BlocksAsked, RoundedUp, WordsRefused, SizesMissing};

/// Sizes in MiB.
pub fn mib_asked()
    ensures { MibAsked }
{}

/// Sizes in blocks.
pub fn blocks_asked()
    ensures { BlocksAsked }
{}

/// A size that is no whole number of zones.
pub fn rounded_up()
    ensures { RoundedUp }
{}

/// Words that a device doesn't have.
pub fn words_refused()
    ensures { WordsRefused }
{}

/// Words without a size.
pub fn sizes_missing()
    ensures { SizesMissing }
{}
