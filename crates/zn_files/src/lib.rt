//! A directory of files, as all above it sees it, and one in memory.
#![tactic(auto)]

mod bytes;
mod error;
mod files;
mod images;
mod listed;
mod memory;
mod names;
mod record;
mod replay;
mod store;
mod tally;
mod texts;
mod traced;

pub use error::{FileCall, FileError};
pub use files::Files;
pub use images::Choice;
pub use memory::MemFiles;
pub use names::Names;
pub use texts::Text;
