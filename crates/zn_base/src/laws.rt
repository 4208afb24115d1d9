// Laws over the definitions, each the contract of a function that does nothing.
ghost use Rattle.zn_base.specs.Laws.{RunsAreFewest, NumbersAreDecimal};

/// What `write_runs` writes means the bytes, in the fewest parts.
pub fn runs_are_fewest()
    ensures { RunsAreFewest }
{}

/// What `parse_number` reads is what `write_number` writes.
pub fn numbers_are_decimal()
    ensures { NumbersAreDecimal }
{}
