//! Whole runs of the program's top call, over sources and sinks in memory, and calls of a volume whose device loses its
//! power. The crate has tests alone: what each run writes was worked out by hand.
#![tactic(auto)]

#[cfg(test)]
mod tests;
