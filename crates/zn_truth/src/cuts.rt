// The blocks that zones are cut to by a loss of power.
ghost use Rattle.std.specs.Prelude.{◌≡◌, ◌<◌, ◌≤◌, ◌↔◌, [], ◌∷◌, ◌++◌, length, slice_get, Some, MatchBool, IsTrue};

use crate::ZoneNo;
use crate::limits::MAX_CUTS;
use std::marker::Model;

/// At most 64 pairs of a zone and a number of blocks, in the order in which they came. No call takes memory.
#[derive(Drop)]
pub struct Cuts {
    pairs: [(ZoneNo, u32); MAX_CUTS as usize],
    count: u32,
}

impl Model for Cuts {
    ghost use Rattle.std.specs.Prelude.{◌≡◌, ℕ, ◌≤◌, List, length, take};
    ghost use Rattle.zn_truth.specs.declared.ZoneNo.{ZoneNo};
    ghost use Rattle.zn_truth.specs.declared.limits.TheConstants.{MAX_CUTS};

    ghost Value = { List (ZoneNo × ℕ) };

    ghost view = { λ c. take c.count c.pairs };

    ghost invariant = { λ c. (length c.pairs ≡ MAX_CUTS) × (c.count ≤ MAX_CUTS) };
}

impl Cuts {
    /// No cuts.
    pub fn new() -> Cuts
        ensures { result ≡ [] }
    {
        Cuts {
            pairs: [(ZoneNo(0), 0); MAX_CUTS as usize],
            count: 0,
        }
    }

    /// Adds a pair at the end. False, with nothing changed, exactly where 64 pairs are there.
    pub fn push(&mut self, zone: ZoneNo, blocks: u32) -> bool
        ensures added { MatchBool result (self.new ≡ self.old ++ (zone, blocks) ∷ []) (self.new ≡ self.old) }
        ensures room { IsTrue result ↔ (length self.old < MAX_CUTS) }
        ensures limit { length self.new ≤ MAX_CUTS }
    {
        if self.count == MAX_CUTS {
            return false;
        }
        self.pairs[self.count as usize] = (zone, blocks);
        self.count += 1;
        true
    }

    /// How many pairs there are.
    pub fn len(&self) -> u32
        ensures len { result ≡ length self.now }
        ensures limit { result ≤ MAX_CUTS }
    {
        self.count
    }

    pub fn is_empty(&self) -> bool
        ensures { IsTrue result ↔ (self.now ≡ []) }
    {
        self.count == 0
    }

    /// The pair at place `i`, counted from 0.
    pub fn at(&self, i: u32) -> (ZoneNo, u32)
        requires { i < length self.now }
        ensures { slice_get self.now i ≡ Some result }
    {
        self.pairs[i as usize]
    }
}
