// What a step draws, and what it does to its file.
ghost use Rattle.std.specs.Prelude.{◌≡◌, ◌<◌};
ghost use Rattle.zn_gen.specs.Churn.{draw_behind, step_behind, append_of, line_of, size_behind};

use crate::lines::{Append, Line};
use zn_truth::BLOCK_SIZE;

/// What draws are taken modulo.
pub(crate) const MODULUS: u64 = 65_537;

/// The blocks that a file has room for.
const ROOM: u32 = 64;

/// What a step does.
#[derive(Clone, Copy)]
pub(crate) struct Step {
    /// The file's number.
    pub(crate) file: u32,
    /// Which of eight things is done to it.
    pub(crate) kind: u32,
    /// How many blocks are put behind those of the file, where any are.
    pub(crate) blocks: u32,
    /// The byte that they hold.
    pub(crate) byte: u8,
    /// The step's last draw.
    pub(crate) last: u32,
}

/// The draw behind a draw.
#[inline(always)]
pub(crate) fn draw_behind(draw: u32) -> u32
    ensures { result ≡ draw_behind draw }
{
    ((75 * u64::from(draw) + 74) % MODULUS) as u32
}

/// The step behind a draw.
#[inline(always)]
pub(crate) fn step_behind(draw: u32) -> Step
    ensures { result ≡ step_behind draw }
{
    let first = draw_behind(draw);
    let second = draw_behind(first);
    let third = draw_behind(second);
    Step {
        file: first % 8,
        kind: second % 8,
        blocks: 1 + second / 8 % 4,
        byte: (third % 256) as u8,
        last: third,
    }
}

impl Step {
    /// The blocks of the step behind those of its file.
    #[inline(always)]
    fn append(&self, size: u8) -> Append
        requires { self.now.blocks < 5 }
        ensures { result ≡ append_of self.now size }
    {
        Append {
            file: self.file,
            offset: u32::from(size) * BLOCK_SIZE as u32,
            byte: self.byte,
            len: self.blocks * BLOCK_SIZE as u32,
        }
    }

    /// The line of the step, or the first of its three, where its file has so many blocks.
    #[inline(always)]
    pub(crate) fn line(&self, size: u8) -> Line
        requires { self.now.blocks < 5 }
        ensures { result ≡ line_of self.now size }
    {
        let fits = u32::from(size) + self.blocks <= ROOM;
        match self.kind {
            0..=3 if fits => Line::Write(self.append(size)),
            4 => Line::Read {
                file: self.file,
                len: u32::from(size) * BLOCK_SIZE as u32,
            },
            5 => Line::Sync(self.file),
            6 if fits => Line::Submit(self.append(size)),
            0..=3 | 6 => Line::Truncate(self.file),
            _ => Line::Stat(self.file),
        }
    }

    /// How many blocks the file has behind the step.
    #[inline(always)]
    pub(crate) fn size(&self, size: u8) -> u8
        requires { self.now.blocks < 5 }
        ensures { result ≡ size_behind self.now size }
    {
        if self.kind > 3 && self.kind != 6 {
            return size;
        }
        let grown = u32::from(size) + self.blocks;
        if grown <= ROOM { grown as u8 } else { 0 }
    }
}
