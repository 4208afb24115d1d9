// Laws of losses of power over whole scripts, each the contract of a function that does nothing.
ghost use Rattle.zn_remains.specs.Remaining.{DarkStays, DurableStays, FlushMakesDurable, LossKeeps};
ghost use Rattle.zn_remains.specs.Files.{FilesAreZones};
ghost use Rattle.zn_remains.specs.Laws.{EventsKeep, PowerLossesKeep, ScratchKeeps, ScriptsAreEvents, SyncMakesDurable};

/// Where the power goes each sequential zone keeps what was durable, and ends no later than its last issued append.
#[tactic(auto, using(crate::proofs::Remains::loss_keeps))]
pub fn loss_keeps()
    ensures { LossKeeps }
{}

/// What is durable stays so, until the zone is emptied or turned offline.
#[tactic(auto, using(crate::proofs::Stays::durable_stays))]
pub fn durable_stays()
    ensures { DurableStays }
{}

/// A flush that is answered without an error makes every zone durable as a whole.
#[tactic(auto, using(crate::proofs::Powers::flush_durable))]
pub fn flush_makes_durable()
    ensures { FlushMakesDurable }
{}

/// Without power no event changes what the device holds.
#[tactic(auto, using(crate::proofs::Powers::dark_stays))]
pub fn dark_stays()
    ensures { DarkStays }
{}

/// Events one after another keep sequential zones so.
#[tactic(auto, using(crate::proofs::EventsKept::events_keep))]
pub fn events_keep()
    ensures { EventsKeep }
{}

/// A line that syncs and says `ok` leaves every zone durable as a whole.
#[tactic(auto, using(crate::proofs::Syncs::sync_durable))]
pub fn sync_makes_durable()
    ensures { SyncMakesDurable }
{}

/// All that a script does to the device is a list of events, line by line.
#[tactic(auto, using(crate::proofs::Scripts::scripts_are_events))]
pub fn scripts_are_events()
    ensures { ScriptsAreEvents }
{}

/// What a sequential file holds after power returns is, from its start to its durable length, what it held, and no
/// longer than its last issued append.
#[tactic(auto, using(crate::proofs::Losses::power_losses_keep))]
pub fn power_losses_keep()
    ensures { PowerLossesKeep }
{}

/// So too over every script that the command `scratch` runs.
#[tactic(auto, using(crate::proofs::Fresh::scratch_keeps))]
pub fn scratch_keeps()
    ensures { ScratchKeeps }
{}

/// Each sequential file is one zone, and a mount shows what that holds.
#[tactic(auto, using(crate::proofs::FilesShown::files_are_zones))]
pub fn files_are_zones()
    ensures { FilesAreZones }
{}
