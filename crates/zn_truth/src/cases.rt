// Small devices, worked through.
ghost use Rattle.zn_truth.specs.Cases.{PartialWrite, PartialFlush, LossInWrite, LossInRefusal, BytesAfterLoss, FillAfterLoss, DurableAfterLoss, Limits, Written, WrittenFull, WrittenFirst, Opened, Closed, Emptied, Finished};

/// A fault keeps one of a write's two blocks, and is used up.
#[tactic(auto, unfolding(crate::specs::World::issue, crate::specs::World::met, crate::specs::World::unmet, crate::specs::World::faulted, crate::specs::Orders::done))]
pub fn partial_write()
    ensures { PartialWrite }
{}

/// A fault in a flush cuts a zone to its durable blocks, and no other zone becomes durable.
#[tactic(auto, unfolding(crate::specs::World::issue, crate::specs::World::met, crate::specs::World::unmet, crate::specs::World::faulted, crate::specs::World::settled_by_flush))]
pub fn partial_flush()
    ensures { PartialFlush }
{}

/// A loss in a write leaves its first blocks up to the cut, and no other zone keeps what isn't durable.
#[tactic(auto, unfolding(crate::specs::World::issue, crate::specs::Orders::done, crate::specs::Power::lost, crate::specs::Power::during))]
pub fn loss_in_write()
    ensures { LossInWrite }
{}

/// A loss in a write that would be refused leaves nothing of that write.
#[tactic(auto, unfolding(crate::specs::World::issue, crate::specs::Orders::done, crate::specs::Power::lost, crate::specs::Power::during))]
pub fn loss_in_refusal()
    ensures { LossInRefusal }
{}

/// The bytes up to the cut are those that were there and those that were written.
#[tactic(auto, unfolding(crate::specs::World::issue, crate::specs::Orders::done, crate::specs::Power::lost, crate::specs::Power::during))]
pub fn bytes_after_loss()
    ensures { BytesAfterLoss }
{}

/// Where a loss fills, it does so from the durable length on.
#[tactic(auto, unfolding(crate::specs::World::issue, crate::specs::Orders::done, crate::specs::Power::lost, crate::specs::Power::during))]
pub fn fill_after_loss()
    ensures { FillAfterLoss }
{}

/// What is durable is not filled.
#[tactic(auto, unfolding(crate::specs::World::issue, crate::specs::Orders::done, crate::specs::Power::lost, crate::specs::Power::during))]
pub fn durable_after_loss()
    ensures { DurableAfterLoss }
{}

/// What the limits of open and active zones refuse.
#[tactic(auto, unfolding(crate::specs::World::issue, crate::specs::World::met, crate::specs::World::unmet, crate::specs::Orders::done))]
pub fn limits()
    ensures { Limits }
{}

/// A write of a block at block 2, in each state of a zone.
#[tactic(auto, unfolding(crate::specs::Orders::done))]
pub fn written()
    ensures { Written }
{}

/// A write of what the zone still has room for.
#[tactic(auto, unfolding(crate::specs::Orders::done))]
pub fn written_full()
    ensures { WrittenFull }
{}

/// A write at the zone's first block.
#[tactic(auto, unfolding(crate::specs::Orders::done))]
pub fn written_first()
    ensures { WrittenFirst }
{}

/// An open, in each state of a zone.
#[tactic(auto, unfolding(crate::specs::Orders::done))]
pub fn opened()
    ensures { Opened }
{}

/// A close, in each state of a zone.
#[tactic(auto, unfolding(crate::specs::Orders::done))]
pub fn closed()
    ensures { Closed }
{}

/// A reset, in each state of a zone.
#[tactic(auto, unfolding(crate::specs::Orders::done))]
pub fn emptied()
    ensures { Emptied }
{}

/// A finish, in each state of a zone.
#[tactic(auto, unfolding(crate::specs::Orders::done))]
pub fn finished()
    ensures { Finished }
{}
