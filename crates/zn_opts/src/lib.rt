//! Reads the option texts of a mount and of a format.
#![tactic(auto)]

mod format;
mod items;
mod mount;
mod values;

pub use format::format_opts;
pub use mount::mount_opts;

#[cfg(test)]
mod tests;
