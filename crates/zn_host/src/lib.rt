//! The edge to the host: standard input and output as a source and a sink, and a directory of its files. It tells no
//! content.
#![tactic(auto)]

mod adapters;
mod folder;
mod host;
mod listing;
#[cfg(test)]
mod tests;
mod transfer;

pub use adapters::{Buffering, ReaderSource, WriterSink};
pub use host::HostFiles;
