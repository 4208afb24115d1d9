// Laws of failed commands, of losses of power, and of calls that nothing stands against, each the contract of a
// function that does nothing but look at a volume.
ghost use Rattle.zn_volume.specs.RecoveryLaws.{HandlesAlike, RecoveryOfAnswered, ReportLeaves, FaultLeaves, RefusalLeaves};
ghost use Rattle.zn_volume.specs.PowerLaws.{LossIsToldByCalls};
ghost use Rattle.zn_volume.specs.Untroubled.{LiesOnDevice, ReadAnswers, WriteAnswers, TruncateAnswers, SyncAnswers, SubmitAnswers, CompleteAnswers, OpenAnswers, CloseAnswers};
ghost use Rattle.zn_volume.specs.VolumeState.{mounted_in};

use crate::volume::Volume;
use zn_device::Zoned;

/// Handles that are open on one file, in one mode, are answered alike.
pub fn handles_are_alike()
    ensures { HandlesAlike }
{}

/// A recovery whose report is answered, over any device.
pub fn recovery_of_answered()
    ensures { RecoveryOfAnswered }
{}

/// What a report leaves.
pub fn report_leaves()
    ensures { ReportLeaves }
{}

/// What a device holds after a command that a scripted fault met.
pub fn fault_leaves()
    ensures { FaultLeaves }
{}

/// What a device holds after a command that it refused.
pub fn refusal_leaves()
    ensures { RefusalLeaves }
{}

/// Where a call tells that the power is lost: exactly where it is off as the call ends.
pub fn loss_is_told_by_calls()
    ensures { LossIsToldByCalls }
{}

/// What a volume keeps to.
pub fn lies_on_device<D: Zoned + Drop>(volume: &Volume<D>)
    ensures { LiesOnDevice (mounted_in volume.now) }
{
    let _ = volume.inodes.files();
}

/// Where nothing stands against a read.
pub fn read_answers<D: Zoned + Drop>(volume: &Volume<D>)
    ensures { ReadAnswers (mounted_in volume.now) }
{
    lies_on_device(volume);
}

/// Where nothing stands against a write.
pub fn write_answers<D: Zoned + Drop>(volume: &Volume<D>)
    ensures { WriteAnswers (mounted_in volume.now) }
{
    lies_on_device(volume);
}

/// Where nothing stands against a truncation.
pub fn truncate_answers<D: Zoned + Drop>(volume: &Volume<D>)
    ensures { TruncateAnswers (mounted_in volume.now) }
{
    lies_on_device(volume);
}

/// Where nothing stands against a sync.
pub fn sync_answers()
    ensures { SyncAnswers }
{}

/// What refuses a submit.
pub fn submit_answers()
    ensures { SubmitAnswers }
{}

/// Where nothing stands against the completion of a request.
pub fn complete_answers<D: Zoned + Drop>(volume: &Volume<D>)
    ensures { CompleteAnswers (mounted_in volume.now) }
{
    lies_on_device(volume);
}

/// Where nothing stands against an open.
pub fn open_answers<D: Zoned + Drop>(volume: &Volume<D>)
    ensures { OpenAnswers (mounted_in volume.now) }
{
    lies_on_device(volume);
}

/// Where nothing stands against a close.
pub fn close_answers<D: Zoned + Drop>(volume: &Volume<D>)
    ensures { CloseAnswers (mounted_in volume.now) }
{
    lies_on_device(volume);
}
