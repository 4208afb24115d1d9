//! A zoned device over a directory: a file for each zone.
#![tactic(auto)]

mod calls;
mod commands;
mod fills;
mod flush;
mod harm;
mod kept;
mod open;
mod reading;
mod turn;
mod zloop;

pub use open::OpenFail;
pub use zloop::Zloop;
