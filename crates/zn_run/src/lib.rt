//! Carries out a script over anything that carries out lines, and tells how that ended.
#![tactic(auto)]

mod ends;
pub mod laws;
mod lines;
mod machine;
mod runs;
mod script;
mod status;

pub use ends::{end_broken, end_by, end_by_script, end_starved, end_with};
pub use machine::{Machine, Step};
pub use runs::run;
pub use status::Status;

#[cfg(test)]
mod tests;
