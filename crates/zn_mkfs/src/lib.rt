//! Formats a zoned device.
#![tactic(auto)]

mod copies;
mod formatting;
mod looks;
mod resets;
#[cfg(test)]
mod tests;

pub use formatting::format;
