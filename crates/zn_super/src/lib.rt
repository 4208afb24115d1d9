//! The super block of a formatted device: its fields, the block that they make, and the two copies that they
//! are read from.
#![tactic(auto)]

mod block;
mod label;
mod scan;
#[cfg(test)]
mod tests;

pub use block::Super;
pub use label::Label;
pub use zn_model::SuperError;
