// Laws over the definitions, each the contract of a function that does nothing.
ghost use Rattle.zn_zone.specs.Laws.{RefusalIsByFacts, EffectIsByFacts, TurnIsByFacts, SettlingIsByFacts, BareHasFacts, FactsAreOfZones, InfoIsByFacts, CountsAreByFacts, TruthIsJoined, JoinedHasFacts, StoresFollow, DoneIsJoined, MachineAnswers, FactsAreOfStates, GeometryIsOfFacts, GeometryTellsCount, ActiveAgrees, ActiveCountAgrees, ExplicitIsWithinLimit, OthersStay, ZoneSteps};

/// What commands, turns and cuts make of a truth's facts depends on these alone.
pub fn facts_decide()
    ensures refusal { RefusalIsByFacts }
    ensures effect { EffectIsByFacts }
    ensures turn { TurnIsByFacts }
    ensures settling { SettlingIsByFacts }
    ensures bare { BareHasFacts }
    ensures zones { FactsAreOfZones }
    ensures info { InfoIsByFacts }
    ensures counts { CountsAreByFacts }
{}

/// A truth is its facts and its stores.
pub fn facts_and_stores()
    ensures truth { TruthIsJoined }
    ensures joined { JoinedHasFacts }
    ensures stores { StoresFollow }
    ensures done { DoneIsJoined }
{}

/// The machine answers and tells what its facts do.
pub fn machine_agrees()
    ensures answers { MachineAnswers }
    ensures zones { FactsAreOfStates }
    ensures geometry { GeometryIsOfFacts }
    ensures zone_count { GeometryTellsCount }
    ensures active { ActiveAgrees }
    ensures active_count { ActiveCountAgrees }
    ensures explicit { ExplicitIsWithinLimit }
{}

/// A step changes its zone, and one more where it takes that one's open place.
pub fn others_stay()
    ensures zone { ZoneSteps }
    ensures others { OthersStay }
{}
