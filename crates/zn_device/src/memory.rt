// A zoned device in memory.
ghost use Rattle.std.specs.Prelude.{◌≡◌, IfOk};
ghost use Rattle.zn_truth.specs.Limits.{IsWithinLimits};
ghost use Rattle.zn_zone.proofs.Within.{calm_within};
ghost use Rattle.zn_zone.specs.Machine.{facts};
ghost use Rattle.zn_device.specs.Fresh.{fresh};
ghost use Rattle.zn_device.specs.Stores.{truth_of, IsSoundDevice};

use crate::commands::{flush_all, manage_stored, read_stored, report_from, write_stored};
use crate::fresh::{fresh_infos, fresh_stores};
use crate::harming::{durable_stored, rest_stored, scrub_stored, settle_stored, turn_stored};
use crate::store::Store;
use crate::{Harm, Zoned};
use std::alloc::{AllocError, Global};
use zn_truth::{Cond, DevError, Kind, Shape, ZoneInfo, ZoneNo, ZoneOp};
use zn_zone::Zones;

/// A zoned device in memory, which keeps its zones' conditions itself. Only `new` takes memory.
#[derive(Drop)]
pub struct MemDevice {
    zones: Zones,
    stores: Vec<Store>,
    ghost sound: { IsSoundDevice (facts zones) stores.items },
}

impl MemDevice {
    ghost use Rattle.zn_device.specs.Memory.{calm_state, state_of};

    /// A device with zones of these kinds, to which nothing was written: with power, and without faults.
    pub fn new(alloc: Global, kinds: &[Kind], shape: Shape) -> Result<MemDevice, AllocError>
        requires { IsWithinLimits (record { shape = shape; kinds = kinds.now }) }
        ensures { IfOk result (λ device. state_of device ≡ calm_state (fresh shape kinds.now)) }
    {
        let infos = fresh_infos(alloc, kinds, shape)?;
        let stores = fresh_stores(alloc, kinds, shape)?;
        let zones = Zones::new(alloc, kinds, shape, &infos)?;
        Ok(MemDevice { zones, stores })
    }
}

#[tactic(auto, using(crate::proofs::Devices::calm_commanded), unfolding(zn_truth::specs::World::geometry_of))]
impl Zoned for MemDevice {
    ghost use Rattle.zn_device.specs.Memory.{state_of};

    ghost state = { state_of };

    ghost is_sound = { λ d. d.sound.sound };

    ghost is_within = { λ d. calm_within (truth_of (facts d.zones) d.stores.items) d.sound.within };

    fn zones(&self) -> u32 {
        self.zones.zones()
    }

    fn shape(&self) -> Shape {
        self.zones.shape()
    }

    fn kind(&self, z: ZoneNo) -> Kind {
        self.zones.kind(z)
    }

    fn report(&mut self, first: ZoneNo, out: &mut [ZoneInfo]) -> Result<(), DevError> {
        report_from(&self.zones, first, out);
        Ok(())
    }

    fn read(&mut self, z: ZoneNo, at: u32, out: &mut [u8]) -> Result<(), DevError> {
        read_stored(&self.zones, &self.stores, z, at, out)
    }

    fn write(&mut self, z: ZoneNo, at: u32, bytes: &[u8]) -> Result<(), DevError> {
        write_stored(&mut self.zones, &mut self.stores, z, at, bytes)
    }

    fn manage(&mut self, z: ZoneNo, op: ZoneOp) -> Result<(), DevError> {
        manage_stored(&mut self.zones, &mut self.stores, z, op)
    }

    fn flush(&mut self) -> Result<(), DevError> {
        flush_all(&self.zones, &mut self.stores);
        Ok(())
    }

    fn powered(&self) -> bool {
        true
    }

    fn faults(&self) -> u64 {
        0
    }

    fn breaks(&self) -> u64 {
        0
    }
}

#[tactic(auto, unfolding(zn_truth::specs::World::geometry_of))]
impl Harm for MemDevice {
    ghost use Rattle.std.proofs.Common.{refl};

    ghost is_calm = { λ d. refl };

    ghost is_faultless = { λ d. refl };

    fn durable(&self, z: ZoneNo) -> u32 {
        durable_stored(&self.stores, z)
    }

    fn turn(&mut self, z: ZoneNo, to: Cond) -> Result<(), DevError> {
        turn_stored(&mut self.zones, &mut self.stores, z, to);
        Ok(())
    }

    fn settle(&mut self, z: ZoneNo, from: u32, len: u32, fill: Option<u8>) -> Result<(), DevError> {
        settle_stored(&mut self.zones, &mut self.stores, z, from, len, fill);
        Ok(())
    }

    fn scrub(&mut self, z: ZoneNo, fill: Option<u8>) -> Result<(), DevError> {
        scrub_stored(&self.zones, &mut self.stores, z, fill);
        Ok(())
    }

    fn rest(&mut self) {
        rest_stored(&mut self.zones);
    }
}

#[cfg(test)]
mod tests;
