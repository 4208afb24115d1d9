// Laws of every device.
ghost use Rattle.zn_device.specs.Laws.{LossIsTold, LossIsToldInAll, NoPowerIsTold, RefusalIsByName};

/// A loss of power is told exactly where the power is off as the command ends, want of memory excepted.
#[tactic(auto, using(crate::proofs::Power::loss_is_told))]
pub fn loss_is_told()
    ensures { LossIsTold }
{}

/// Commands one after another tell it so too, if there are any.
#[tactic(auto, using(crate::proofs::Power::loss_is_told_in_all))]
pub fn loss_is_told_in_all()
    ensures { LossIsToldInAll }
{}

/// Without power a command answers nothing else.
#[tactic(auto, using(crate::proofs::Power::no_power_told))]
pub fn no_power_is_told()
    ensures { NoPowerIsTold }
{}

/// A device that keeps its conditions itself answers a refusal by its name, want of memory excepted.
#[tactic(auto, using(crate::proofs::Power::refusal_by_name))]
pub fn refusal_is_by_name()
    ensures { RefusalIsByName }
{}
