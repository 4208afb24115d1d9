//! The live handles of a mounted volume, and who may open a file.
#![tactic(auto)]

mod handles;
mod rights;
#[cfg(test)]
mod tests;
mod writers;

pub use handles::{Handles, Open, TooManyHandles};
pub use rights::access;
