// Laws on what was given to reads, each the contract of a function that does nothing.
ghost use Rattle.zn_model.specs.GivenCases.{GivenCases};
ghost use Rattle.zn_model.specs.GivenLaws.{ReadsAreAlike};

/// Whatever was given, a read is refused alike, leaves the same, and gives as many bytes.
pub fn reads_are_alike()
    ensures { ReadsAreAlike }
{}

/// A small device that doesn't tell its bytes.
pub fn given_cases()
    ensures { GivenCases }
{}
