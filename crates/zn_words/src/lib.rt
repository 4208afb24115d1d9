//! The words of a command line, and what they ask for.
#![tactic(auto)]

mod adding;
mod churning;
mod commands;
mod flags;
mod formatting;
mod parts;
mod places;
mod running;
mod scratch;
mod values;

pub use churning::Churn;
pub use commands::{Command, Format, MOST_OPTIONS, dir_of, parse};

#[cfg(test)]
mod borders;
#[cfg(test)]
mod tests;
