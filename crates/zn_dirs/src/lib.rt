//! Devices in directories: made, opened, used, given back, and opened again, over a directory in memory and over one of
//! the host. The crate has tests alone: what each device holds in the end was worked out by hand.
#![tactic(auto)]

#[cfg(test)]
mod tests;
