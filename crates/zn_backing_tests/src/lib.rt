//! Directories of devices: made, looked at, damaged in each way, and stopped while they are made. The crate has tests alone.
#![tactic(auto)]

#[cfg(test)]
mod tests;
