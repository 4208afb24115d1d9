// How the run of a script ends.

/// What comes after the bytes that were taken from a source.
#[derive(Clone, Copy, Debug, PartialEq, Eq)]
pub enum Tail {
    /// The script's end.
    End,
    /// A read that failed.
    Fault,
    /// Bytes past the script's limit.
    Over,
    /// Bytes that are not yet taken.
    More,
}

/// How a run ends, with the number of the line, from 1 on.
#[derive(Clone, Copy, Debug, PartialEq, Eq)]
pub enum Ending {
    /// All lines were carried out.
    Finished,
    /// The line is outside the grammar, at this column.
    BadLine(u64, u32),
    LineTooLong(u64),
    ScriptTooLong(u64),
    /// No more could be read.
    ReadFailed,
    /// More is to be read.
    Unread,
}
