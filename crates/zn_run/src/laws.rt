// Laws of runs, each the contract of a function that does nothing.
ghost use Rattle.zn_run.specs.Laws.{DecidedStays, WholeLinesAlone, StatusesHaveCauses, FaultlessRuns, DoneRuns, WholeRuns, UnreadRest};

/// Once a line has ended a run, no bytes behind it matter.
#[tactic(auto, using(crate::proofs::DecidedLaws::decided_stays))]
pub fn decided_stays()
    ensures { DecidedStays }
{}

/// The bytes of whole lines alone say their replies and the table after them.
#[tactic(auto, using(crate::proofs::RunLaws::whole_lines_alone))]
pub fn whole_lines_alone()
    ensures { WholeLinesAlone }
{}

/// Each status of a run has its cause.
#[tactic(auto, using(crate::proofs::RunLaws::statuses_have_causes))]
pub fn statuses_have_causes()
    ensures { StatusesHaveCauses }
{}

/// Without faults a run carries out its script, or the script ends it, or there is no memory.
#[tactic(auto, using(crate::proofs::RunLaws::faultless_runs))]
pub fn faultless_runs()
    ensures { FaultlessRuns }
{}

/// A run that is done has carried out all of a script that its source tells.
#[tactic(auto, using(crate::proofs::RunLaws::done_runs))]
pub fn done_runs()
    ensures { DoneRuns }
{}

/// Where source and device tell their bytes, a run without faults did all that its script is due.
#[tactic(auto, using(crate::proofs::RunLaws::whole_runs))]
pub fn whole_runs()
    ensures { WholeRuns }
{}

/// Where the script or the host ends a run, the rest of the script is still unread.
#[tactic(auto, using(crate::proofs::RunLaws::unread_rest))]
pub fn unread_rest()
    ensures { UnreadRest }
{}
