//! Writes bytes as runs of equal bytes.
#![tactic(auto)]

mod buffer;
mod runs;
#[cfg(test)]
mod tests;

pub use buffer::RunBuffer;
pub use runs::{MOST_RUN, write_runs};
