// The table of conditions: which condition a command leads to, and which places it needs.
ghost use Rattle.std.specs.Prelude.{◌≡◌};
ghost use Rattle.zn_zone.specs.Table.{next, needs};

use crate::Raw;
use zn_truth::ZoneOp;

/// What a command asks of a sequential zone.
#[derive(Clone, Copy, Debug, PartialEq, Eq)]
pub enum Step {
    /// A write, which ends at the capacity or not.
    Write { fills: bool },
    Open,
    /// A close, where something is written or nothing.
    Close { written: bool },
    Reset,
    Finish,
}

/// The places that a step needs.
#[derive(Clone, Copy, Debug, PartialEq, Eq)]
pub enum Places {
    NoPlace,
    /// A place among the open zones.
    OpenPlace,
    /// A place among the active zones, and then one among the open zones.
    BothPlaces,
}

impl Raw {
    /// The condition after a step.
    pub(crate) fn next(self, step: Step) -> Raw
        ensures { result ≡ next self step }
    {
        match step {
            Step::Write { fills } => self.written(fills),
            Step::Open => match self {
                Raw::Empty | Raw::ImplicitOpen | Raw::Closed => Raw::ExplicitOpen,
                _ => self,
            },
            Step::Close { written } => match self {
                Raw::ImplicitOpen => Raw::Closed,
                Raw::ExplicitOpen if written => Raw::Closed,
                Raw::ExplicitOpen => Raw::Empty,
                _ => self,
            },
            Step::Reset => match self {
                Raw::NotWp | Raw::ReadOnly | Raw::Offline => self,
                _ => Raw::Empty,
            },
            Step::Finish => match self {
                Raw::NotWp | Raw::ReadOnly | Raw::Offline => self,
                _ => Raw::Full,
            },
        }
    }

    /// The condition after a write, which fills the zone or not.
    fn written(self, fills: bool) -> Raw
        ensures { result ≡ next self (Step.Write fills) }
    {
        match self {
            Raw::Empty | Raw::ImplicitOpen | Raw::ExplicitOpen | Raw::Closed if fills => Raw::Full,
            Raw::Empty | Raw::ImplicitOpen | Raw::Closed => Raw::ImplicitOpen,
            _ => self,
        }
    }

    /// The places that a step needs.
    pub(crate) fn needs(self, step: Step) -> Places
        ensures { result ≡ needs self step }
    {
        match (self, step) {
            (Raw::Empty, Step::Write { .. } | Step::Open) => Places::BothPlaces,
            (Raw::Closed, Step::Write { .. } | Step::Open) => Places::OpenPlace,
            _ => Places::NoPlace,
        }
    }
}

impl Step {
    ghost use Rattle.std.specs.Prelude.{◌≡◌};
    ghost use Rattle.zn_zone.specs.Machine.{step_of};

    /// The step of a command on a zone that holds so many blocks.
    pub fn of(op: ZoneOp, held: u32) -> Step
        ensures { result ≡ step_of op held }
    {
        match op {
            ZoneOp::Open => Step::Open,
            ZoneOp::Close => Step::Close { written: 0 < held },
            ZoneOp::Reset => Step::Reset,
            ZoneOp::Finish => Step::Finish,
        }
    }
}
