// The machine.
ghost use Rattle.std.specs.Prelude.{◌≡◌, ◌≢◌, ◌+◌, ◌<◌, ◌≤◌, length, map, OnOk, OnErr, IfOk};
ghost use Rattle.zn_truth.specs.Truth.{room};
ghost use Rattle.zn_truth.specs.Orders.{Manage, ReadAt};
ghost use Rattle.zn_truth.specs.Loss.{turned};
ghost use Rattle.zn_truth.specs.Limits.{IsWithinLimits};
ghost use Rattle.zn_truth.specs.Inject.{severity};
ghost use Rattle.zn_truth.specs.declared.Kind.TheVariants.{Sequential};
ghost use Rattle.zn_zone.specs.declared.Raw.TheVariants.{Full};
ghost use Rattle.zn_zone.specs.Table.{cond_of};
ghost use Rattle.zn_zone.specs.Facts.{refusal_by, after, write_of, facts_of, facts_at, bare, with_held, rested, reported, info_of, IsStart};
ghost use Rattle.zn_zone.specs.Machine.{state_at, with_state, facts, refusal_in, geometry_in, IsSoundMachine, HasActivePlace, written, managed, turned_to, cut_to, at_rest, started};

use crate::commands::{manage_at, read_to, write_at};
use crate::moves::{cut_at, rest_all, states_at_start, turn_at};
use crate::states::States;
use crate::{Raw, ZoneError};
use std::alloc::{AllocError, Global};
use std::marker::Model;
use zn_truth::{Cond, Kind, Shape, ZoneInfo, ZoneNo, ZoneOp};

/// The condition machine of a device. Only `new` takes memory.
#[derive(Drop)]
pub struct Zones {
    shape: Shape,
    zones: States,
}

impl Model for Zones {
    ghost use Rattle.zn_zone.specs.Machine.{Machine, IsSoundMachine, machine};

    ghost Value = { Machine };

    ghost view = { λ z. machine z.shape z.zones };

    ghost invariant = { λ z. IsSoundMachine (machine z.shape z.zones) };
}

impl Zones {
    /// Zones of these kinds, with what a report tells of them. Partly written ones are closed.
    pub fn new(
        alloc: Global,
        kinds: &[Kind],
        shape: Shape,
        info: &[ZoneInfo],
    ) -> Result<Zones, AllocError>
        requires lengths { length info.now ≡ length kinds.now }
        requires limits { IsWithinLimits (record { shape = shape; kinds = kinds.now }) }
        requires start { IsStart (reported shape kinds.now info.now) }
        ensures facts { IfOk result (λ m. facts m ≡ reported shape kinds.now info.now) }
        ensures geometry { IfOk result (λ m. geometry_in m ≡ record { shape = shape; kinds = kinds.now }) }
        ensures started { IfOk result (λ m. m ≡ started shape kinds.now info.now) }
        ensures sound { IfOk result IsSoundMachine }
    {
        let zones = states_at_start(alloc, shape, kinds, info)?;
        let zones = States::new(alloc, zones)?;
        Ok(Zones { shape, zones })
    }

    /// Writes so many blocks to a zone from a block on.
    pub fn write(&mut self, z: ZoneNo, at: u32, blocks: u32) -> Result<(), ZoneError>
        requires zone { z.0 < length self.old.zones }
        requires some { 1 ≤ blocks }
        requires room { at + blocks ≤ room self.old.shape (state_at self.old z.0).kind }
        ensures refused { refusal_in result ≡ refusal_by (facts self.old) (write_of z.0 at blocks) }
        ensures facts { facts self.new ≡ after (facts self.old) (write_of z.0 at blocks) }
        ensures ok { OnOk result (self.new ≡ written self.old z.0 blocks) }
        ensures err { OnErr result (self.new ≡ self.old) }
        ensures geometry { geometry_in self.new ≡ geometry_in self.old }
        ensures sound { IsSoundMachine self.new }
    {
        let shape = self.shape;
        write_at(shape, &mut self.zones, z.0 as usize, at, blocks)
    }

    /// Manages a sequential zone.
    pub fn manage(&mut self, z: ZoneNo, op: ZoneOp) -> Result<(), ZoneError>
        requires zone { z.0 < length self.old.zones }
        requires kind { (state_at self.old z.0).kind ≡ Sequential }
        ensures refused { refusal_in result ≡ refusal_by (facts self.old) (Manage z.0 op) }
        ensures facts { facts self.new ≡ after (facts self.old) (Manage z.0 op) }
        ensures ok { OnOk result (self.new ≡ managed self.old z.0 op) }
        ensures err { OnErr result (self.new ≡ self.old) }
        ensures geometry { geometry_in self.new ≡ geometry_in self.old }
        ensures sound { IsSoundMachine self.new }
    {
        let shape = self.shape;
        manage_at(shape, &mut self.zones, z.0 as usize, op)
    }

    /// The zone turns to a worse condition. Offline, it holds nothing.
    pub fn turn(&mut self, z: ZoneNo, to: Cond)
        requires zone { z.0 < length self.old.zones }
        requires worse { severity (cond_of (state_at self.old z.0).raw) < severity to }
        ensures facts { facts self.new ≡ facts_of (turned (bare (facts self.old)) z.0 to) }
        ensures turned { self.new ≡ with_state self.old z.0 (turned_to to (state_at self.old z.0)) }
        ensures geometry { geometry_in self.new ≡ geometry_in self.old }
        ensures sound { IsSoundMachine self.new }
    {
        turn_at(&mut self.zones, z.0 as usize, to);
    }

    /// Lowers the write pointer of a sequential zone, as a loss of power does.
    pub fn cut(&mut self, z: ZoneNo, len: u32)
        requires zone { z.0 < length self.old.zones }
        requires kind { (state_at self.old z.0).kind ≡ Sequential }
        requires held { len ≤ (state_at self.old z.0).held }
        requires place { (state_at self.old z.0).raw ≡ Full → len ≢ 0 → len ≢ self.old.shape.zone_capacity
            → HasActivePlace self.old }
        ensures facts { facts self.new ≡ with_held (facts self.old) z.0 len }
        ensures cut { self.new ≡ with_state self.old z.0 (cut_to self.old.shape (state_at self.old z.0) len) }
        ensures geometry { geometry_in self.new ≡ geometry_in self.old }
        ensures sound { IsSoundMachine self.new }
    {
        let shape = self.shape;
        cut_at(shape, &mut self.zones, z.0 as usize, len);
    }

    /// Closes every open zone, as a loss of power does.
    pub fn rest(&mut self)
        ensures facts { facts self.new ≡ rested (facts self.old) }
        ensures closed { self.new ≡ record self.old { zones = map at_rest self.old.zones } }
        ensures geometry { geometry_in self.new ≡ geometry_in self.old }
        ensures sound { IsSoundMachine self.new }
    {
        rest_all(&mut self.zones);
    }

    /// Every machine is sound.
    pub fn sound(&self)
        ensures { IsSoundMachine self.now }
    {
        let _ = &self.zones;
    }

    /// Whether blocks of a zone may be read, up to this one.
    pub fn may_read(&self, z: ZoneNo, end: u32) -> Result<(), ZoneError>
        requires { z.0 < length self.now.zones }
        ensures { refusal_in result ≡ refusal_by (facts self.now) (ReadAt z.0 0 end) }
    {
        read_to(self.shape, &self.zones, z.0 as usize, end)
    }

    /// The condition of a zone.
    pub fn raw(&self, z: ZoneNo) -> Raw
        requires { z.0 < length self.now.zones }
        ensures { result ≡ (state_at self.now z.0).raw }
    {
        self.zones.at(z.0 as usize).raw
    }

    /// The kind of a zone.
    pub fn kind(&self, z: ZoneNo) -> Kind
        requires { z.0 < length self.now.zones }
        ensures { result ≡ (state_at self.now z.0).kind }
    {
        self.zones.at(z.0 as usize).kind
    }

    /// What a report tells of a zone.
    pub fn info(&self, z: ZoneNo) -> ZoneInfo
        requires { z.0 < length self.now.zones }
        ensures { result ≡ info_of (facts_at (facts self.now) z.0) }
    {
        let zone = self.zones.at(z.0 as usize);
        ZoneInfo {
            cond: zone.raw.cond(),
            held: zone.held,
            explicit: zone.raw.is_explicit(),
        }
    }

    /// How many zones there are.
    pub fn zones(&self) -> u32
        ensures { result ≡ length self.now.zones }
    {
        self.zones.len() as u32
    }

    /// What all zones share.
    pub fn shape(&self) -> Shape
        ensures { result ≡ self.now.shape }
    {
        self.shape
    }
}
