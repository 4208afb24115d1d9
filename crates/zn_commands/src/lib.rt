//! Commands on a directory: a device is made in it, the device that it is gets formatted, and scripts are run on it.
#![tactic(auto)]

mod adding;
pub mod cases;
mod devices;
mod ended;
mod formatting;
mod lines;
mod running;

pub use adding::add;
pub use devices::give_back;
pub use ended::Ended;
pub use formatting::mkfs;
pub use lines::end_shut;
pub use running::{MOST_OPTIONS, run_device};

#[cfg(test)]
mod tests;
