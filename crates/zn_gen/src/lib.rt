//! The lines of a script that is made from a seed, one after another, without taking memory.
#![tactic(auto)]

pub mod laws;
mod lines;
mod script;
mod steps;
#[cfg(test)]
mod tests;

pub use lines::MOST_LINE;
pub use script::{Churn, FILES, MOST_STEPS};
