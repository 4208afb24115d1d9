// A file with what a stop may leave of it.
ghost use Rattle.std.specs.Prelude.{◌≡◌, ◌≤◌, ℕ, false, ◌||◌, slice_index_or, vec_len, is_some, not, OnOk};
ghost use Rattle.std.specs.Option.{option_map};
ghost use Rattle.zn_stand.specs.File.{File, created, written, resized, synced, is_between, value_left};
ghost use Rattle.zn_files.specs.Images.{filled, left_by};

use crate::Choice;
use crate::bytes::put_bytes;
use std::alloc::{AllocError, Global};

/// A file: its bytes, those at its last sync, if it was ever synced, and for each place whether a write touched it
/// since, and whether a change of length added it.
#[derive(Drop)]
pub struct Traced {
    bytes: Vec<u8>,
    at_sync: Option<Vec<u8>>,
    is_written: Vec<bool>,
    is_added: Vec<bool>,
}

/// Sets the flags of the places from one on, up to another.
fn mark(flags: &mut Vec<bool>, from: usize, to: usize) -> Result<(), AllocError>
    requires { from ≤ to }
    ensures { OnOk result ((i : ℕ) → slice_index_or flags.new.items i false
        ≡ (slice_index_or flags.old.items i false || is_between from to i)) }
{
    if flags.len() < to {
        flags.resize(to, false)?;
    }
    for i in from..to {
        flags[i] = true;
    }
    Ok(())
}

/// Whether the flag of a place is set.
fn is_marked(flags: &Vec<bool>, i: usize) -> bool
    ensures { result ≡ slice_index_or flags.now.items i false }
{
    i < flags.len() && flags[i]
}

impl Traced {
    ghost use Rattle.zn_files.specs.Traces.{Traces, TracesSync};

    /// A file as it is created.
    pub fn new(alloc: Global) -> Traced
        ensures { Traces result created }
    {
        Traced {
            bytes: Vec::new(alloc),
            at_sync: None,
            is_written: Vec::new(alloc),
            is_added: Vec::new(alloc),
        }
    }

    /// Writes bytes from `at` on.
    pub fn write(&mut self, at: usize, bytes: &[u8]) -> Result<(), AllocError>
        requires { at ≤ vec_len self.old.bytes }
        ensures { OnOk result ((f : File) → Traces self.old f → Traces self.new (written f at bytes.now)) }
    {
        put_bytes(&mut self.bytes, at, bytes)?;
        mark(&mut self.is_written, at, at + bytes.len())
    }

    /// Cuts the file, or grows it with zeros.
    pub fn resize(&mut self, len: usize) -> Result<(), AllocError>
        ensures { OnOk result ((f : File) → Traces self.old f → Traces self.new (resized f len)) }
    {
        let old = self.bytes.len();
        self.bytes.resize(len, 0)?;
        mark(&mut self.is_added, old, len.max(old))
    }

    /// Makes the file durable.
    pub fn sync(&mut self, alloc: Global) -> Result<(), AllocError>
        ensures { OnOk result ((f : File) → Traces self.old f → Traces self.new (synced f)) }
    {
        self.at_sync = Some(self.bytes.to_vec(alloc)?);
        self.is_written.clear();
        self.is_added.clear();
        Ok(())
    }

    /// Whether a stop may leave any byte at this place.
    fn is_free(&self, i: usize) -> bool
        ensures { (f : File) → TracesSync self.now f → result ≡ not (is_some (value_left f i)) }
    {
        let synced = match &self.at_sync {
            Some(bytes) => bytes.len(),
            None => 0,
        };
        is_marked(&self.is_written, i) || (i < synced) == is_marked(&self.is_added, i)
    }

    /// The bytes, with this value in place of each that a stop may leave as anything.
    fn filled(self, value: u8) -> Vec<u8>
        ensures { (f : File) → Traces self f → result.items ≡ filled value f }
    {
        let mut file = self;
        for i in 0..file.bytes.len() {
            if file.is_free(i) {
                file.bytes[i] = value;
            }
        }
        file.bytes
    }

    /// What is left of the file by this choice, if it is there.
    pub fn left(self, choice: Choice) -> Option<Vec<u8>>
        ensures { (f : File) → Traces self f → option_map (λ v. v.items) result ≡ left_by choice f }
    {
        match choice {
            Choice::Least => self.at_sync,
            Choice::Most => Some(self.bytes),
            Choice::Filled(value) => Some(self.filled(value)),
        }
    }
}
