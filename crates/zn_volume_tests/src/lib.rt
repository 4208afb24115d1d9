//! Calls on a mounted volume over a device in memory: what each answers, and what the device then holds. The crate has tests alone.
#![tactic(auto)]

#[cfg(test)]
mod tests;
