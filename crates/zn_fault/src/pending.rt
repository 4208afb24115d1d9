// The faults that wait for a command.
ghost use Rattle.std.specs.Prelude.{◌≡◌, ◌+◌, ◌<◌, [], ◌∷◌, ◌++◌, length, position, nat_le, IfOk, IfNone, IfSome};
ghost use Rattle.zn_truth.specs.World.{has_zone, meets, meets_fault, met, unmet};

use std::alloc::{AllocError, Global};
use std::marker::Model;
use zn_truth::{Command, FaultSpec, MAX_FAULTS, Span, ZoneNo};

/// The faults that wait for a command, oldest first. Only `new` takes memory, for as many as may wait.
#[derive(Drop)]
pub struct Pending {
    faults: Vec<FaultSpec>,
}

impl Model for Pending {
    ghost use Rattle.std.specs.Prelude.{◌≤◌, List, vec_capacity};
    ghost use Rattle.zn_truth.specs.declared.FaultSpec.{FaultSpec};
    ghost use Rattle.zn_truth.specs.declared.limits.TheConstants.{MAX_FAULTS};

    ghost Value = { List FaultSpec };

    ghost view = { λ p. p.faults.items };

    ghost invariant = { λ p. MAX_FAULTS ≤ vec_capacity p.faults };
}

/// Whether the zone is one of these.
fn has_zone(zones: Span, z: ZoneNo) -> bool
    ensures { result ≡ has_zone zones z.0 }
{
    zones.all || (zones.first <= z.0 && z.0 - zones.first < zones.count)
}

/// Whether a command on these zones is one of this kind on this zone.
pub fn meets(command: Command, zones: Span, other: Command, z: ZoneNo) -> bool
    ensures { result ≡ meets command zones other z.0 }
{
    other == command && has_zone(zones, z)
}

/// The place of the first fault that the command meets.
fn place(faults: &[FaultSpec], command: Command, zones: Span) -> Option<usize>
    ensures { result ≡ position (meets_fault command zones) faults.now }
{
    faults
        .iter()
        .position(|f| meets(command, zones, f.command, f.zone))
}

impl Pending {
    /// None that wait, and room for 64.
    pub fn new(alloc: Global) -> Result<Pending, AllocError>
        ensures { IfOk result (λ p. p ≡ []) }
    {
        Ok(Pending {
            faults: Vec::with_capacity(alloc, MAX_FAULTS as usize)?,
        })
    }

    /// Whether as many wait as may.
    pub fn is_full(&self) -> bool
        ensures { result ≡ nat_le MAX_FAULTS (length self.now) }
    {
        MAX_FAULTS as usize <= self.faults.len()
    }

    /// The fault waits, behind those that wait.
    pub fn push(&mut self, fault: FaultSpec)
        requires { length self.old < MAX_FAULTS }
        ensures { self.new ≡ self.old ++ fault ∷ [] }
    {
        self.faults.push_reserved(fault);
    }

    /// The first fault that the command on these zones meets, which is then used up.
    #[tactic(auto, unfolding(zn_truth::specs::World::met, zn_truth::specs::World::unmet))]
    pub fn take(&mut self, command: Command, zones: Span) -> Option<FaultSpec>
        ensures met { result ≡ met command zones self.old }
        ensures rest { self.new ≡ unmet command zones self.old }
        ensures none { IfNone result (self.new ≡ self.old) }
        ensures fewer { IfSome result (λ _. length self.new + 1 ≡ length self.old) }
    {
        let i = place(&self.faults, command, zones)?;
        Some(self.faults.remove(i))
    }
}
