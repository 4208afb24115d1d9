//! Reads, writes and changes of a file over a zoned device, and what follows a failed one.
#![tactic(auto)]

mod changes;
mod pieces;
mod reading;
mod recovery;
mod writing;

pub use changes::{sync_file, truncate_file};
pub use reading::{SCRATCH, lengthen, read_file, read_front};
pub use recovery::{is_passed_on, recover_file};
pub use writing::write_file;

#[cfg(test)]
mod tests;
