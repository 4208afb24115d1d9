// A law over the definitions, the contract of a function that does nothing.
ghost use Rattle.zn_gen.specs.Cases.{Rows};

/// Some draws and some scripts, written out.
pub fn rows_hold()
    ensures { Rows }
{}
