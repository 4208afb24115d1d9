//! The condition machine of a zoned device: which zones are empty, open, closed or full, which commands
//! that refuses, and what they make of it. It keeps no bytes.
#![tactic(auto)]

mod commands;
pub mod laws;
mod marks;
mod moves;
mod places;
mod state;
mod states;
mod table;
#[cfg(test)]
mod tests;
mod zones;

use zn_truth::{Cond, DevError};
pub use zones::Zones;

/// Why a command to a zone is refused.
#[derive(Clone, Copy, Debug, PartialEq, Eq)]
pub enum ZoneError {
    ReadOnly,
    Offline,
    /// A sequential write that does not begin at the write pointer.
    Unaligned,
    /// A read past the write pointer.
    BeyondWp,
    TooManyActive,
    TooManyOpen,
}

/// The condition of a zone.
#[derive(Clone, Copy, Debug, PartialEq, Eq)]
pub enum Raw {
    /// Conventional, without a write pointer.
    NotWp,
    Empty,
    /// Opened by a write.
    ImplicitOpen,
    /// Opened by a command.
    ExplicitOpen,
    /// Partly written, and not open.
    Closed,
    Full,
    ReadOnly,
    Offline,
}

impl Raw {
    ghost use Rattle.std.specs.Prelude.{◌≡◌};
    ghost use Rattle.zn_zone.specs.Table.{is_implicit, is_explicit, is_open, is_active, cond_of};

    /// Whether the zone was opened by a write.
    pub fn is_implicit(self) -> bool
        ensures { result ≡ is_implicit self }
    {
        matches!(self, Raw::ImplicitOpen)
    }

    /// Whether the zone was opened by a command.
    pub fn is_explicit(self) -> bool
        ensures { result ≡ is_explicit self }
    {
        matches!(self, Raw::ExplicitOpen)
    }

    /// Whether the zone counts for the limit on open zones.
    pub fn is_open(self) -> bool
        ensures { result ≡ is_open self }
    {
        matches!(self, Raw::ImplicitOpen | Raw::ExplicitOpen)
    }

    /// Whether the zone counts for the limit on active zones.
    pub fn is_active(self) -> bool
        ensures { result ≡ is_active self }
    {
        matches!(self, Raw::ImplicitOpen | Raw::ExplicitOpen | Raw::Closed)
    }

    /// The condition that a report tells.
    pub fn cond(self) -> Cond
        ensures { result ≡ cond_of self }
    {
        match self {
            Raw::ReadOnly => Cond::ReadOnly,
            Raw::Offline => Cond::Offline,
            _ => Cond::Good,
        }
    }
}

impl From<ZoneError> for DevError {
    ghost use Rattle.std.specs.Prelude.{◌≡◌};
    ghost use Rattle.zn_zone.specs.Machine.{dev_error};

    ghost from_gives = { λ error e. e ≡ dev_error error };

    fn from(error: ZoneError) -> DevError {
        match error {
            ZoneError::ReadOnly => DevError::ReadOnly,
            ZoneError::Offline => DevError::Offline,
            ZoneError::Unaligned => DevError::Unaligned,
            ZoneError::BeyondWp => DevError::BeyondWp,
            ZoneError::TooManyActive => DevError::TooManyActive,
            ZoneError::TooManyOpen => DevError::TooManyOpen,
        }
    }
}
