// Laws of losses of power and of writes one behind another.
ghost use Rattle.zn_fault.specs.Losses.{LossIsZoneByZone, WritesJoin};

/// Where all zones lose what isn't durable, one after another, and are then closed, that is a loss of power.
#[tactic(auto, using(crate::proofs::LossSteps::loss_by_zones))]
pub fn loss_is_zone_by_zone()
    ensures { LossIsZoneByZone }
{}

/// A write of more behind one that is done does what one write of both does.
#[tactic(auto, using(crate::proofs::Joining::writes_join))]
pub fn writes_join()
    ensures { WritesJoin }
{}
