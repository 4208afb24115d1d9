// Laws over the definitions, each the contract of a function that does nothing.
ghost use Rattle.zn_stand.specs.Laws.{ReadIsImage, SyncLeavesRead, RestStays, EmptiedIsEmpty, UntouchedStays, FilesStandApart, CallsKeepSound, StopsInsideCalls, TimeGoesOn};

/// What a read gives is among what a stop may leave.
#[tactic(auto, using(crate::proofs::Directories::read_is_image))]
pub fn read_is_image()
    ensures { ReadIsImage }
{}

/// After a sync a stop leaves what a read gives, and nothing else.
#[tactic(auto, using(crate::proofs::Directories::sync_leaves_read))]
pub fn sync_leaves_read()
    ensures { SyncLeavesRead }
{}

/// A directory that was synced whole is left as it is.
#[tactic(auto, using(crate::proofs::Directories::rest_stays))]
pub fn rest_stays()
    ensures { RestStays }
{}

/// A file that was cut to nothing and then synced is empty.
#[tactic(auto, using(crate::proofs::Directories::emptied_is_empty))]
pub fn emptied_is_empty()
    ensures { EmptiedIsEmpty }
{}

/// A synced byte that no call touched is the same in every image.
#[tactic(auto, using(crate::proofs::Directories::untouched_stays))]
pub fn untouched_stays()
    ensures { UntouchedStays }
{}

/// Calls on different files don't touch one another.
pub fn files_stand_apart()
    ensures { FilesStandApart }
{}

/// What calls make of a directory is sound.
pub fn calls_keep_sound()
    ensures { CallsKeepSound }
{}

/// What a stop may leave before a call or after it, it may leave inside it.
#[tactic(auto, using(crate::proofs::Directories::InsideCalls))]
pub fn stops_inside_calls()
    ensures { StopsInsideCalls }
{}

/// What stops may leave, as time goes on.
pub fn time_goes_on()
    ensures { TimeGoesOn }
{}
