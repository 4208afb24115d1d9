//! A device with faults and losses of power that a script asked for, over one that has none.
#![tactic(auto)]

mod armed;
mod asked;
mod cuts;
mod faulty;
mod inside;
mod laws;
mod losing;
mod pending;
mod refused;
mod struck;
mod turned;

pub use faulty::{Faulty, FaultyFail};
pub use laws::{loss_is_zone_by_zone, writes_join};
