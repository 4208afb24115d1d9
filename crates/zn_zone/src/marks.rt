// Marks on numbers, of which the lowest is found by two counts of zeros.
ghost use Rattle.std.specs.Prelude.{◌≡◌, ◌≢◌, ℕ, ◌*◌, ◌<◌, ◌≤◌, false, length, replicate, slice_set, position, IfOk};
ghost use Rattle.std.specs.Prelude.{if◌then◌else◌};
ghost use Rattle.std.specs.Int.{bit_at};

use std::alloc::{AllocError, Global};
use std::marker::Model;

/// How many numbers a lane has.
const LANE: usize = 64;

/// Which numbers below a bound are marked. Only `new` takes memory.
#[derive(Drop)]
pub struct Marks {
    bound: usize,
    /// Bit `i` says whether any number of lane `i` is marked.
    summary: u64,
    /// Bit `k` of lane `i` says whether number `64 * i + k` is marked.
    lanes: Vec<u64>,
}

impl Model for Marks {
    ghost use Rattle.std.specs.Prelude.{List, Bool};
    ghost use Rattle.zn_zone.specs.Marks.{marks_in, IsSummed};

    ghost Value = { List Bool };

    ghost view = { λ m. marks_in m.lanes.items m.bound };

    ghost invariant = { λ m. IsSummed m.bound m.summary m.lanes.items };
}

impl Marks {
    /// No mark on any of so many numbers, at most 4,096.
    pub fn new(alloc: Global, bound: usize) -> Result<Marks, AllocError>
        requires { bound ≤ LANE * LANE }
        ensures { IfOk result (λ m. m ≡ replicate bound false) }
    {
        let lanes = vec![in alloc; 0; bound.div_ceil(LANE)]?;
        Ok(Marks {
            bound,
            summary: 0,
            lanes,
        })
    }

    /// Marks a number, or takes its mark away.
    pub fn put(&mut self, number: usize, is_marked: bool)
        requires { number < length self.old }
        ensures { self.new ≡ slice_set self.old number is_marked }
    {
        let lane = number / LANE;
        let word = with_bit(self.lanes[lane], number % LANE, is_marked);
        self.lanes[lane] = word;
        self.summary = with_bit(self.summary, lane, word != 0);
    }

    /// The lowest number that is marked.
    pub fn lowest(&self) -> Option<usize>
        ensures { result ≡ position (λ is_marked. is_marked) self.now }
    {
        if self.summary == 0 {
            return None;
        }
        let lane = lowest_bit(self.summary);
        Some(LANE * lane + lowest_bit(self.lanes[lane]))
    }
}

/// The word with this bit set or cleared.
fn with_bit(word: u64, bit: usize, is_set: bool) -> u64
    requires { bit < 64 }
    ensures here { bit_at result bit ≡ (if is_set then 1 else 0) }
    ensures others { (i : ℕ) → i < 64 → i ≢ bit → bit_at result i ≡ bit_at word i }
{
    if is_set {
        word | (1 << bit)
    } else {
        word & !(1 << bit)
    }
}

/// The lowest bit that is set.
fn lowest_bit(word: u64) -> usize
    requires { word ≢ 0 }
    ensures bound { result < 64 }
    ensures set { bit_at word result ≡ 1 }
    ensures below { (i : ℕ) → i < result → bit_at word i ≡ 0 }
{
    word.trailing_zeros() as usize
}
