//! Writes that wait, with their bytes in a pool of blocks, and the outcomes of those that ended.
#![tactic(auto)]

mod queue;
#[cfg(test)]
mod tests;

pub use queue::{Queue, QueueError, Request};
