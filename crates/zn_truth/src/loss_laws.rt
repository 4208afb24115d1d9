// Laws of losses of power.
ghost use Rattle.zn_truth.specs.LossLaws.{LostIsLoss, LosePowerIsLoss, LossInsideOrder, ArmedLossStrikes, ArmedLossIsInside, PowerLostIsInside};

/// What a scripted loss leaves is a loss of what was.
#[tactic(auto, using(crate::proofs::Losses::lost_is_loss))]
pub fn lost_is_loss()
    ensures { LostIsLoss }
{}

/// A loss of power that is accepted leaves a loss of what was.
#[tactic(auto, using(crate::proofs::ArmedLosses::lose_power_is_loss))]
pub fn lose_power_is_loss()
    ensures { LosePowerIsLoss }
{}

/// A scripted loss inside an order is one that may strike there.
#[tactic(auto, using(crate::proofs::ArmedLosses::loss_inside))]
pub fn loss_inside_order()
    ensures { LossInsideOrder }
{}

/// An order that a loss waits for is told that the power went.
#[tactic(auto, using(crate::proofs::ArmedLosses::armed_reply))]
pub fn armed_loss_strikes()
    ensures { ArmedLossStrikes }
{}

/// What a loss that waits for an order leaves is a loss inside that order.
#[tactic(auto, using(crate::proofs::ArmedLosses::armed_inside))]
pub fn armed_loss_is_inside()
    ensures { ArmedLossIsInside }
{}

/// A device with power that tells of a loss lost its power inside the order.
#[tactic(auto, using(crate::proofs::ArmedLosses::power_lost_inside))]
pub fn power_lost_is_inside()
    ensures { PowerLostIsInside }
{}
