//! A device with faults, losses of power and turned zones: what each call answers, and what the device then holds. The crate has tests alone.
#![tactic(auto)]

#[cfg(test)]
mod tests;
