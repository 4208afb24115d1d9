//! A directory in memory: what each call answers, and what may be found after a stop. The crate has tests alone.
#![tactic(auto)]

#[cfg(test)]
mod tests;
