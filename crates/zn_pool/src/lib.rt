//! A region of blocks that is taken once and shared out in leases.
#![tactic(auto)]

mod chains;
mod pool;
#[cfg(test)]
mod tests;

pub use pool::{Lease, Pool};
