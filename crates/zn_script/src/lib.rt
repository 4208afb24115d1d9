//! Reads the lines of a script.
#![tactic(auto)]

mod data;
mod forms;
mod items;
mod losses;
mod words;

pub use data::{data_len, expand};
pub use forms::parse;
pub use losses::expand_cuts;
use zn_lines::Change;
use zn_model::{Mode, Who};
use zn_truth::{Command, Cond};

/// What a format is asked for. The texts are parts of the line.
#[derive(Clone, Copy)]
pub struct FormatWords<'a> {
    pub force: bool,
    pub label: Option<&'a str>,
    pub uuid: Option<&'a str>,
    pub features: Option<&'a str>,
}

/// A line of the grammar. Paths, texts of options, data and cuts are words of the line, or parts of them.
#[derive(Clone, Copy)]
pub enum Line<'a> {
    Mkfs(FormatWords<'a>),
    /// The options, where there are some.
    Mount(Option<&'a str>),
    Umount,
    /// A number for the handle, a path, a mode, and who opens.
    Open(u32, &'a str, Mode, Who),
    Close(u32),
    Size(u32),
    /// A handle's number, an offset and a length in bytes.
    Read(u32, u64, u32),
    /// A handle's number, an offset in bytes, and a word of data, which `expand` takes.
    Write(u32, u64, &'a [u8]),
    /// A handle's number, and a size in bytes.
    Truncate(u32, u64),
    Sync(u32),
    Stat(&'a str),
    List(&'a str),
    Attr,
    Change(Change),
    /// A zone's number, the kind of the command that fails, and the blocks that are kept, if some are named.
    Fault(u64, Command, Option<u32>),
    /// A zone's number, and a condition that is not good.
    Turn(u64, Cond),
    /// A handle's number, an offset in bytes, and a word of data, which `expand` takes.
    Submit(u32, u64, &'a [u8]),
    Complete,
    Reap,
    Zones,
    /// The byte that the loss fills in, if one is named, and the words of its cuts, which `expand_cuts` takes.
    PowerLoss(Option<u8>, &'a [u8]),
    /// A zone's number, the kind of the command inside which the power goes, whether that is carried out first, the byte
    /// that is filled in, if one is named, and the words of the cuts.
    PowerLossIn(u64, Command, bool, Option<u8>, &'a [u8]),
    PowerOn,
}
