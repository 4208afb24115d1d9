//! The files that the zones of a device make, and zones as lines of text.
#![tactic(auto)]

mod files;
pub mod laws;
mod lines;
#[cfg(test)]
mod tests;
mod walk;

pub use files::Layout;
pub use lines::zone_line;
pub use walk::layout;
