// Laws over the definitions, each the contract of a function that does nothing.
ghost use Rattle.zn_truth.specs.Laws.{CalmIsDone};
ghost use Rattle.zn_truth.specs.Hush.{HushedIssue};
ghost use Rattle.zn_truth.specs.SoundLaws.{IssueKeepsSound, IssueKeepsGeometry, IssueAllKeepsSound, IssueAllKeepsGeometry, TurnKeepsSound, TurnKeepsGeometry, LosePowerKeepsSound, LosePowerKeepsGeometry, InjectKeepsTruth, ArmLossKeepsTruth, PowerOnKeepsTruth, NothingTells};

/// A device with power and nothing that waits does what it is told, and stays so.
#[tactic(auto, unfolding(crate::specs::World::issue, crate::specs::World::met, crate::specs::World::unmet))]
pub fn calm_is_done()
    ensures { CalmIsDone }
{}

/// An order leaves a device sound, whether it is done, refused, met by a fault, or struck by the armed loss.
#[tactic(auto, using(crate::proofs::SoundIssue::issue_sound))]
pub fn issue_keeps_sound()
    ensures { IssueKeepsSound }
{}

/// No order changes the geometry.
#[tactic(auto, using(crate::proofs::SoundIssue::Geometries))]
pub fn issue_keeps_geometry()
    ensures { IssueKeepsGeometry }
{}

/// Orders one after another leave a device sound.
#[tactic(auto, using(crate::proofs::SoundIssue::issue_all_sound))]
pub fn issue_all_keeps_sound()
    ensures { IssueAllKeepsSound }
{}

/// No list of orders changes the geometry.
#[tactic(auto, using(crate::proofs::SoundIssue::Geometries))]
pub fn issue_all_keeps_geometry()
    ensures { IssueAllKeepsGeometry }
{}

/// A turn of condition leaves a device sound.
#[tactic(auto, using(crate::proofs::SoundInject::turn_sound))]
pub fn turn_keeps_sound()
    ensures { TurnKeepsSound }
{}

/// No turn of condition changes the geometry.
#[tactic(auto, using(crate::proofs::SoundInject::Geometries))]
pub fn turn_keeps_geometry()
    ensures { TurnKeepsGeometry }
{}

/// A loss of power at rest leaves a device sound.
#[tactic(auto, using(crate::proofs::SoundInject::lose_power_sound))]
pub fn lose_power_keeps_sound()
    ensures { LosePowerKeepsSound }
{}

/// No loss of power changes the geometry.
#[tactic(auto, using(crate::proofs::SoundInject::Geometries))]
pub fn lose_power_keeps_geometry()
    ensures { LosePowerKeepsGeometry }
{}

/// A fault that waits has changed nothing yet.
#[tactic(auto, unfolding(crate::specs::Inject::inject))]
pub fn inject_keeps_truth()
    ensures { InjectKeepsTruth }
{}

/// A loss that waits has changed nothing yet.
#[tactic(auto, using(crate::proofs::SoundInject::arm_loss_leaves))]
pub fn arm_loss_keeps_truth()
    ensures { ArmLossKeepsTruth }
{}

/// The power comes back to what the device held.
#[tactic(auto, unfolding(crate::specs::Inject::power_on))]
pub fn power_on_keeps_truth()
    ensures { PowerOnKeepsTruth }
{}

/// Nothing changes whether a device tells its bytes.
#[tactic(auto, using(crate::proofs::Telling::issue_told, crate::proofs::Telling::issue_all_told, crate::proofs::Telling::inject_told, crate::proofs::Telling::turn_told, crate::proofs::Telling::lose_power_told, crate::proofs::Telling::arm_loss_told))]
pub fn nothing_tells()
    ensures { NothingTells }
{}

/// Without its bytes a device does the same.
pub fn hushed_issue()
    ensures { HushedIssue }
{}
