// A small device, worked through.
ghost use Rattle.zn_remains.specs.Cases.{LossInReset, LossInScript, LossInWrite};

/// A loss of power inside a write.
#[tactic(auto, using(crate::proofs::Worked::loss_in_write))]
pub fn loss_in_write()
    ensures { LossInWrite }
{}

/// A loss of power inside a reset.
#[tactic(auto, using(crate::proofs::Worked::loss_in_reset))]
pub fn loss_in_reset()
    ensures { LossInReset }
{}

/// A loss of power inside a write of a script.
#[tactic(auto, using(crate::proofs::Worked::loss_in_script))]
pub fn loss_in_script()
    ensures { LossInScript }
{}
