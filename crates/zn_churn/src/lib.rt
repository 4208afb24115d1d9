//! Carries out a script that is made from a seed, and tells what its replies add up to.
#![tactic(auto)]

mod churning;
mod replies;
mod tally;
#[cfg(test)]
mod tests;

pub use churning::churn;
