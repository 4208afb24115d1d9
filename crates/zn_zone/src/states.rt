// The list of zones, with what is kept beside it: how many zones are active and open, and which are implicitly open.
ghost use Rattle.std.specs.Prelude.{◌≡◌, ℕ, ◌+◌, ◌<◌, ◌≤◌, IsTrue, length, slice_set, IfOk, if◌then◌else◌};
ghost use Rattle.zn_truth.specs.declared.limits.TheConstants.{MAX_ZONES};
ghost use Rattle.zn_zone.specs.Machine.{state_in, active_in, open_in, first_implicit};

use crate::marks::Marks;
use crate::state::State;
use std::alloc::{AllocError, Global};
use std::marker::Model;

/// The zones of a machine. A change of one zone walks no others. Only `new` takes memory.
#[derive(Drop)]
pub struct States {
    zones: Vec<State>,
    /// How many are active.
    active: usize,
    /// How many are open.
    opened: usize,
    /// Which are implicitly open.
    implicit: Marks,
}

impl Model for States {
    ghost use Rattle.std.specs.Prelude.{List};
    ghost use Rattle.zn_zone.specs.declared.state.State.{State};
    ghost use Rattle.zn_zone.specs.Kept.{IsKept};

    ghost Value = { List State };

    ghost view = { λ s. s.zones.items };

    ghost invariant = { λ s. IsKept s.zones.items s.active s.opened s.implicit };
}

impl States {
    /// Zones of which none is open.
    pub fn new(alloc: Global, zones: Vec<State>) -> Result<States, AllocError>
        requires few { length zones.items ≤ MAX_ZONES }
        requires closed { open_in zones.items ≡ 0 }
        ensures { IfOk result (λ states. states ≡ zones.items) }
    {
        let active = count_active(&zones);
        let implicit = Marks::new(alloc, zones.len())?;
        Ok(States {
            zones,
            active,
            opened: 0,
            implicit,
        })
    }

    /// How many zones there are.
    pub fn len(&self) -> usize
        ensures { result ≡ length self.now }
    {
        self.zones.len()
    }

    /// A zone.
    pub fn at(&self, z: usize) -> State
        requires { z < length self.now }
        ensures { result ≡ state_in self.now z }
    {
        self.zones[z]
    }

    /// How many zones are active.
    pub fn active(&self) -> usize
        ensures { result ≡ active_in self.now }
    {
        self.active
    }

    /// How many zones are open.
    pub fn open(&self) -> usize
        ensures { result ≡ open_in self.now }
    {
        self.opened
    }

    /// The lowest-numbered implicitly open zone.
    pub fn first_implicit(&self) -> Option<usize>
        ensures { result ≡ first_implicit self.now }
    {
        self.implicit.lowest()
    }

    /// Puts a zone in the place of another.
    pub fn put(&mut self, z: usize, zone: State)
        requires { z < length self.old }
        ensures { self.new ≡ slice_set self.old z zone }
    {
        let was = self.zones[z].raw;
        self.active = recounted(self.active, was.is_active(), zone.raw.is_active());
        self.opened = recounted(self.opened, was.is_open(), zone.raw.is_open());
        self.implicit.put(z, zone.raw.is_implicit());
        self.zones[z] = zone;
    }
}

/// How many zones are active.
fn count_active(zones: &[State]) -> usize
    ensures { result ≡ active_in zones.now }
{
    zones.iter().filter(|zone| zone.raw.is_active()).count()
}

/// A count where one zone took the place of another, which counted or not.
fn recounted(count: usize, was: bool, is: bool) -> usize
    requires counted { IsTrue was → 1 ≤ count }
    requires few { count ≤ MAX_ZONES }
    ensures { result + (if was then 1 else 0) ≡ count + (if is then 1 else 0) }
{
    count - usize::from(was) + usize::from(is)
}
