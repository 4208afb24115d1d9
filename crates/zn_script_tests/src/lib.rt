//! Lines that are read and lines that are refused, with the column and what is told of each. The crate has tests alone.
#![tactic(auto)]

#[cfg(test)]
mod tests;
