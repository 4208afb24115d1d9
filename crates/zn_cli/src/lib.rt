//! The command line of `zonefs`.
#![tactic(auto)]

mod churning;
mod device;
mod scratch;
mod top;

pub use top::zonefs_main;
