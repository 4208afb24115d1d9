//! The lines of a script: how each is read, what it does to a session, its reply, and what a whole script writes.
//! The definitions stand in `specs/`.
#![tactic(auto)]

pub mod laws;
mod limits;
mod runs;
pub mod told_laws;
mod words;

pub use limits::{LAST_NUMBER, LINE_LIMIT, MAX_NUMBERS, SCRATCH_BLOCKS, SCRIPT_LIMIT};
pub use runs::{Ending, Tail};
pub use words::{Change, Scratch, Verb};
