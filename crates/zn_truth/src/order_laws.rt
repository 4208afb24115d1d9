// Laws of orders one after another.
ghost use Rattle.zn_truth.specs.OrderLaws.{FailureEnds, DoneGoesOn, ListsAppend, ReadLeavesTruth, ReportLeavesTruth, LooksLeaveTruth, EachOfNone, EachOneMore, EachFirst, EachInTwo, ObeysNone, ObeysOneMore, ObeysFailure, NoPower, NoPowerInAll};

/// The first order that fails ends a list.
#[tactic(auto, using(crate::proofs::OrderLists::failure_ends))]
pub fn failure_ends()
    ensures { FailureEnds }
{}

/// After an order that is done come the others.
#[tactic(auto, using(crate::proofs::OrderLists::done_goes_on))]
pub fn done_goes_on()
    ensures { DoneGoesOn }
{}

/// Two lists, one after the other, are their orders one after another.
#[tactic(auto, using(crate::proofs::OrderLists::lists_append))]
pub fn lists_append()
    ensures { ListsAppend }
{}

/// A read that is done leaves the truth.
#[tactic(auto, using(crate::proofs::OrderLists::read_leaves))]
pub fn read_leaves_truth()
    ensures { ReadLeavesTruth }
{}

/// A report that is done leaves the truth.
#[tactic(auto, using(crate::proofs::OrderLists::report_leaves))]
pub fn report_leaves_truth()
    ensures { ReportLeavesTruth }
{}

/// Reads and reports one after another, which are all done, leave the truth.
#[tactic(auto, using(crate::proofs::OrderLists::looks_leave))]
pub fn looks_leave_truth()
    ensures { LooksLeaveTruth }
{}

/// An empty range has no orders.
#[tactic(auto, using(crate::proofs::OrderLists::each_none))]
pub fn each_of_none()
    ensures { EachOfNone }
{}

/// The order of one index more comes last.
#[tactic(auto, using(crate::proofs::OrderLists::each_more))]
pub fn each_one_more()
    ensures { EachOneMore }
{}

/// The order of the first index comes first.
#[tactic(auto, using(crate::proofs::OrderLists::each_first))]
pub fn each_first()
    ensures { EachFirst }
{}

/// A range's orders are those of its two parts.
#[tactic(auto, using(crate::proofs::OrderLists::each_in_two))]
pub fn each_in_two()
    ensures { EachInTwo }
{}

/// A device that is given no order obeys.
#[tactic(auto, using(crate::proofs::OrderLists::obeys_none))]
pub fn obeys_none()
    ensures { ObeysNone }
{}

/// A device that obeyed the orders so far, and obeys one more, obeys them all.
#[tactic(auto, using(crate::proofs::OrderLists::obeys_one_more))]
pub fn obeys_one_more()
    ensures { ObeysOneMore }
{}

/// A device that obeyed the orders so far, and fails one more, obeys any list that goes on from there.
#[tactic(auto, using(crate::proofs::OrderLists::obeys_stopped))]
pub fn obeys_failure()
    ensures { ObeysFailure }
{}

/// Without power every order is told so, and nothing changes.
#[tactic(auto, using(crate::proofs::OrderLists::no_power))]
pub fn no_power()
    ensures { NoPower }
{}

/// Without power orders one after another are told so, and nothing changes.
#[tactic(auto, using(crate::proofs::OrderLists::no_power_in_all))]
pub fn no_power_in_all()
    ensures { NoPowerInAll }
{}
