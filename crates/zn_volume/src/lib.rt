//! A mounted volume over any zoned device.
#![tactic(auto)]

mod commands;
mod injecting;
pub mod laws;
mod looking;
mod mounting;
mod opening;
mod paths;
mod prepared;
mod reading;
mod reporting;
mod requests;
mod truncating;
mod unmounting;
mod volume;
mod writing;

pub use mounting::MountFail;
pub use reporting::report;
pub use unmounting::UnmountFail;
pub use volume::Volume;
