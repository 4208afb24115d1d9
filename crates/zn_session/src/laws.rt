// Laws of lines, each the contract of a function that does nothing.
ghost use Rattle.zn_session.specs.PowerLaws.{LossIsToldByLines};

/// What a line inside which the power goes is answered.
pub fn loss_is_told_by_lines()
    ensures { LossIsToldByLines }
{}
