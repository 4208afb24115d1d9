// What the machine keeps of a zone, and its moves.
use crate::Raw;
use zn_truth::{Cond, Kind, Shape, ZoneInfo};

/// What is kept of a zone.
#[derive(Clone, Copy, Debug, PartialEq, Eq)]
pub struct State {
    pub kind: Kind,
    pub raw: Raw,
    /// The blocks that the zone holds.
    pub held: u32,
}

impl Raw {
    ghost use Rattle.std.specs.Prelude.{◌≡◌};
    ghost use Rattle.zn_zone.specs.Machine.{raw_at_rest, raw_cut, resting};

    /// The condition of a sequential zone that isn't open and holds so many blocks.
    fn resting(shape: Shape, held: u32) -> Raw
        ensures { result ≡ resting shape held }
    {
        if held == 0 {
            Raw::Empty
        } else if held == shape.zone_capacity {
            Raw::Full
        } else {
            Raw::Closed
        }
    }

    /// The condition of a zone that is cut to so many blocks.
    fn cut_to(self, shape: Shape, len: u32) -> Raw
        ensures { result ≡ raw_cut shape self len }
    {
        match self {
            Raw::ImplicitOpen | Raw::Closed if len == 0 => Raw::Empty,
            Raw::Full => Raw::resting(shape, len),
            _ => self,
        }
    }

    /// The condition of a zone that holds so many blocks, closed if it is open.
    fn at_rest(self, held: u32) -> Raw
        ensures { result ≡ raw_at_rest self held }
    {
        match self {
            Raw::ImplicitOpen => Raw::Closed,
            Raw::ExplicitOpen if held == 0 => Raw::Empty,
            Raw::ExplicitOpen => Raw::Closed,
            _ => self,
        }
    }
}

impl State {
    ghost use Rattle.std.specs.Prelude.{◌≡◌};
    ghost use Rattle.zn_zone.specs.Machine.{at_rest, cut_to, state_at_start, turned_to};

    /// A zone of this kind with what a report tells of it, where it isn't open.
    pub fn at_start(shape: Shape, kind: Kind, info: &ZoneInfo) -> State
        ensures { result ≡ state_at_start shape (kind, info.now) }
    {
        let raw = match info.cond {
            Cond::Good => match kind {
                Kind::Conventional => Raw::NotWp,
                Kind::Sequential => Raw::resting(shape, info.held),
            },
            Cond::ReadOnly => Raw::ReadOnly,
            Cond::Offline => Raw::Offline,
        };
        State {
            kind,
            raw,
            held: info.held,
        }
    }

    /// The zone in a worse condition.
    pub fn turned_to(self, to: Cond) -> State
        ensures { result ≡ turned_to to self }
    {
        match to {
            Cond::Good => self,
            Cond::ReadOnly => State {
                raw: Raw::ReadOnly,
                ..self
            },
            Cond::Offline => State {
                raw: Raw::Offline,
                held: 0,
                ..self
            },
        }
    }

    /// The zone cut to so many blocks.
    pub fn cut_to(self, shape: Shape, len: u32) -> State
        ensures { result ≡ cut_to shape self len }
    {
        State {
            raw: self.raw.cut_to(shape, len),
            held: len,
            ..self
        }
    }

    /// The zone, closed if it is open.
    pub fn at_rest(self) -> State
        ensures { result ≡ at_rest self }
    {
        State {
            raw: self.raw.at_rest(self.held),
            ..self
        }
    }
}
