// Laws of orders that fail.
ghost use Rattle.zn_truth.specs.FailureLaws.{IssueKeepsZones, IssueAllKeepsZones, FailureIsNamed, FailureHasOrder, EachIsInRange};

/// No order changes a zone's condition or kind.
#[tactic(auto, using(crate::proofs::Failures::issue_keeps_zones))]
pub fn issue_keeps_zones()
    ensures { IssueKeepsZones }
{}

/// Nor do orders one after another.
#[tactic(auto, using(crate::proofs::Failures::issue_all_keeps_zones))]
pub fn issue_all_keeps_zones()
    ensures { IssueAllKeepsZones }
{}

/// What an order is refused for holds of its zone.
#[tactic(auto, using(crate::proofs::Failures::failure_named))]
pub fn failure_is_named()
    ensures { FailureIsNamed }
{}

/// Orders one after another that fail do so at one of them, and what that is refused for holds of its zone.
#[tactic(auto, using(crate::proofs::Failures::failure_has_order))]
pub fn failure_has_order()
    ensures { FailureHasOrder }
{}

/// An order among those of a range is that of one of its indices.
#[tactic(auto, using(crate::proofs::Failures::each_is_in_range))]
pub fn each_is_in_range()
    ensures { EachIsInRange }
{}
