// Laws on what was given to reads over a device that tells its bytes, each the contract of a function that does
// nothing.
ghost use Rattle.zn_lines.specs.ToldLaws.{ToldLines, ToldTranscripts};

/// Nothing that was given counts in a line.
pub fn told_lines()
    ensures { ToldLines }
{}

/// And so in a whole run.
pub fn told_transcripts()
    ensures { ToldTranscripts }
{}
