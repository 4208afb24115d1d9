//! A zoned device, as all above it sees it.
#![tactic(auto)]

ghost use Rattle.std.specs.Prelude.{◌≡◌, ◌+◌, ◌/◌, ◌<◌, ◌≤◌, length, map, true, false, IsOk};
ghost use Rattle.std.specs.List.{range_with_len};
ghost use Rattle.zn_truth.specs.declared.limits.TheConstants.{BLOCK_SIZE};
ghost use Rattle.zn_truth.specs.Truth.{info_at, bytes_at, kind_at, geometry, IsSound};
ghost use Rattle.zn_truth.specs.Limits.{IsWithinLimits};
ghost use Rattle.zn_truth.specs.Orders.{ReadAt, WriteAt, Manage, FlushAll, ReportFrom};
ghost use Rattle.zn_truth.specs.World.{geometry_of};
ghost use Rattle.zn_truth.specs.Obeying.{IsWhole, Fits, IsZoneToManage};
ghost use Rattle.zn_device.specs.States.{DeviceState, Commanded};

mod commands;
mod fresh;
mod harm;
mod harming;
mod laws;
mod memory;
mod quiet;
mod store;

pub use harm::{Harm, Injects};
pub use laws::{loss_is_told, loss_is_told_in_all, no_power_is_told, refusal_is_by_name};
pub use memory::MemDevice;
pub use quiet::Quiet;
use zn_truth::{DevError, Kind, Shape, ZoneInfo, ZoneNo, ZoneOp};

/// A zoned device. Bytes are read and written in whole blocks of 4,096 bytes; places and lengths are in
/// blocks. What a command answers, and what it makes of the device, is what `issue` says, unless it answers
/// `Broken` or `Memory`; after these two no command may follow. A device that keeps its zones' conditions itself
/// doesn't answer `Broken` where the command is refused.
pub trait Zoned {
    /// The device as it is.
    ghost state: { Self → DeviceState };

    /// The number of zones.
    fn zones(&self) -> u32
        ensures { result ≡ length (geometry_of (state self.now).world).kinds };

    fn shape(&self) -> Shape
        ensures { result ≡ (geometry_of (state self.now).world).shape };

    fn kind(&self, z: ZoneNo) -> Kind
        requires { z.0 < length (geometry_of (state self.now).world).kinds }
        ensures { result ≡ kind_at (geometry_of (state self.now).world) z.0 };

    /// Tells the zones from `first` on, as many as `out` has places for. An offline zone holds nothing.
    fn report(&mut self, first: ZoneNo, out: &mut [ZoneInfo]) -> Result<(), DevError>
        requires zones { first.0 + length out.old ≤ length (geometry_of (state self.old).world).kinds }
        requires unspoilt { (state self.old).spoilt ≡ false }
        ensures done { Commanded (ReportFrom first.0 (length out.old)) result (state self.old) (state self.new) }
        ensures infos { IsOk result → out.new
            ≡ map (info_at (state self.old).world.truth) (range_with_len first.0 (length out.old)) };

    /// Reads blocks of a zone from block `at` on: as many as fill `out`.
    fn read(&mut self, z: ZoneNo, at: u32, out: &mut [u8]) -> Result<(), DevError>
        requires whole { IsWhole out.old }
        requires fits { Fits (geometry_of (state self.old).world) z.0 at (length out.old / BLOCK_SIZE) }
        requires unspoilt { (state self.old).spoilt ≡ false }
        ensures done { Commanded (ReadAt z.0 at (length out.old / BLOCK_SIZE)) result
            (state self.old) (state self.new) }
        ensures bytes { IsOk result → (state self.old).world.truth.told ≡ true → out.new
            ≡ bytes_at (state self.old).world.truth z.0 at (length out.old / BLOCK_SIZE) };

    /// Writes blocks to a zone from block `at` on: in place, or at the write pointer of a sequential zone.
    fn write(&mut self, z: ZoneNo, at: u32, bytes: &[u8]) -> Result<(), DevError>
        requires whole { IsWhole bytes.now }
        requires fits { Fits (geometry_of (state self.old).world) z.0 at (length bytes.now / BLOCK_SIZE) }
        requires unspoilt { (state self.old).spoilt ≡ false }
        ensures done { Commanded (WriteAt z.0 at bytes.now) result (state self.old) (state self.new) };

    /// Opens, closes, resets or finishes a sequential zone.
    fn manage(&mut self, z: ZoneNo, op: ZoneOp) -> Result<(), DevError>
        requires zone { IsZoneToManage (geometry_of (state self.old).world) z.0 }
        requires unspoilt { (state self.old).spoilt ≡ false }
        ensures done { Commanded (Manage z.0 op) result (state self.old) (state self.new) };

    /// Makes all that the device holds durable.
    fn flush(&mut self) -> Result<(), DevError>
        requires unspoilt { (state self.old).spoilt ≡ false }
        ensures done { Commanded FlushAll result (state self.old) (state self.new) };

    /// Whether the power is on.
    fn powered(&self) -> bool
        ensures { result ≡ (state self.now).world.powered };

    /// How many faults there were. It never falls.
    fn faults(&self) -> u64
        ensures { result ≡ (state self.now).faults };

    /// How often what the device is kept in failed. It never falls.
    fn breaks(&self) -> u64
        ensures { result ≡ (state self.now).breaks };

    /// A device is always sound, and its geometry is within the limits.
    ghost is_sound: { (d : Self) → IsSound (state d).world.truth };

    ghost is_within: { (d : Self) → IsWithinLimits (geometry_of (state d).world) };
}
