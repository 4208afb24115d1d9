//! The table of zone files: what a mounted volume keeps, and what its calls answer and leave. The definitions
//! stand in `specs/`.
#![tactic(auto)]

mod answers;
mod files;
pub mod given_laws;
mod handles;
pub mod key_laws;
pub mod laws;
mod limits;
pub mod super_laws;

pub use answers::{FormatError, MountError, OptError, Outcome, Refusal, SuperError, Why};
pub use files::{
    Area, Attr, FileZones, FormatOpts, Found, MountOpts, Piece, Place, Policy, Shown, Stat,
};
pub use handles::{Done, Handle, Mode, Who};
pub use limits::{MAX_HANDLES, MAX_REQUESTS, MOST_BYTES, POOL_BLOCKS};
pub use zn_truth::{Cond, DevError, Kind, Shape, ZoneInfo, ZoneNo, ZoneOp};
