//! Lines of scripts over a session: the replies, the faults in the middle of them, and memory that fails. The crate has tests alone.
#![tactic(auto)]

#[cfg(test)]
mod tests;
