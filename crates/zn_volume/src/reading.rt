// Reads and sizes.
ghost use Rattle.std.specs.Prelude.{◌≡◌, ◌≤◌, ◌<◌, ◌-◌, length, drop, Some, true, false, IfOk, IfErr, IsErr, IfSome, IfNone};
ghost use Rattle.zn_model.specs.declared.limits.TheConstants.{MOST_BYTES};
ghost use Rattle.zn_io.specs.declared.reading.TheConstants.{SCRATCH};
ghost use Rattle.zn_model.specs.ZoneFiles.{files_of};
ghost use Rattle.zn_model.specs.Volume.{Live, capacity_at};
ghost use Rattle.zn_model.specs.Reading.{read_call, read_by, read_now, reading_refusal, size_call};
ghost use Rattle.zn_volume.specs.Causes.{CallCause};
ghost use Rattle.zn_volume.specs.VolumeState.{mounted_in, ForLive};
ghost use Rattle.zn_volume.specs.Refusals.{is_failure, IsRefusedBy, size_refusal, read_refusal};
ghost use Rattle.zn_volume.specs.IoErrors.{IoErrorCause, IoErrorThrough};
ghost use Rattle.zn_volume.specs.Means.{spoils, as_read};

use crate::volume::Volume;
use bitflags::Flags;
use zn_device::Zoned;
use zn_handle::Open;
use zn_io::{SCRATCH, lengthen, read_file, read_front};
use zn_model::{Handle, Mode, Refusal};

impl<D: Zoned + Drop> Volume<D> {
    /// The size that the file of a handle shows, in bytes.
    ///
    /// Refused as `PowerLost` without power, and as `BadHandle` where the handle isn't live.
    #[tactic(auto, unfolding(zn_model::specs::Reading::size_call))]
    pub fn size(&self, h: Handle) -> Result<u64, Refusal>
        ensures reply { result ≡ (size_call (mounted_in self.now) h).reply }
        ensures refused { IsRefusedBy (size_refusal (mounted_in self.now) h) result }
        ensures told { spoils result ≡ false }
    {
        if !self.dev.powered() {
            return Err(Refusal::PowerLost);
        }
        match self.handles.get(h) {
            None => Err(Refusal::BadHandle),
            Some(on) => Ok(self.inodes.shown(on.file).size),
        }
    }

    /// Reads bytes of the file of a handle, from an offset in bytes up to the size that it shows, into the front
    /// of `out`, and answers how many. The rest of `out` stays, and all of it where the read is refused.
    ///
    /// Refused as `PowerLost` without power, `BadHandle` where the handle isn't live, `BadMode` where it isn't open
    /// for reading, `FileOffline` where the file may not be read, and `TooBig` where the offset is past the
    /// capacity, in this order. A failed command is told as `IoError`, `PowerLost`, `Broken` or `Memory`, and is
    /// followed by recovery, where the file doesn't agree with its zones.
    ///
    /// Where the device tells its bytes, those in `out` are what it holds. Where it doesn't they are what it gave, and
    /// all else is as exact: refusals, how many bytes, and what is mounted then.
    #[tactic(auto, using(crate::proofs::Causing::still_caused), unfolding(zn_model::specs::Reading::read_call))]
    pub fn read(&mut self, h: Handle, offset: u64, out: &mut [u8]) -> Result<u64, Refusal>
        requires unspoilt { self.old.device.spoilt ≡ false }
        requires len { length out.old ≤ MOST_BYTES }
        ensures reply { self.new.device.spoilt ≡ false →
            as_read result out.new ≡ (read_call out.new (mounted_in self.old) h offset (length out.old)).reply }
        ensures mounted { self.new.device.spoilt ≡ false →
            mounted_in self.new ≡ (read_call out.new (mounted_in self.old) h offset (length out.old)).mounted }
        ensures count { IfOk result (λ n. n ≤ length out.old) }
        ensures rest { IfOk result (λ n. drop n out.new ≡ drop n out.old) }
        ensures failed { IsErr result → out.new ≡ out.old }
        ensures refused { IsRefusedBy (read_refusal (mounted_in self.old) h offset) result }
        ensures io_error { IoErrorThrough h result self.old self.new }
        ensures cause { CallCause result self.old.device self.new.device }
    {
        if !self.dev.powered() {
            return Err(Refusal::PowerLost);
        }
        match self.handles.get(h) {
            None => Err(Refusal::BadHandle),
            Some(on) => self.read_by(&on, offset, out),
        }
    }

    /// The first refusal of a read.
    #[tactic(auto, unfolding(zn_model::specs::Reading::reading_refusal))]
    fn reading_refusal(&self, on: &Open, offset: u64) -> Option<Refusal>
        requires known { on.now.file < length (files_of self.now.volume.inodes.layout) }
        ensures is { ForLive on.now (λ live. result ≡ reading_refusal self.now.volume live offset) }
        ensures told { IfSome result (λ refusal. is_failure refusal ≡ false) }
        ensures inside { IfNone result (offset ≤ capacity_at self.now.volume.inodes on.now.file) }
    {
        if !on.mode.contains(Mode::READ) {
            Some(Refusal::BadMode)
        } else if !self.inodes.shown(on.file).may_read {
            Some(Refusal::FileOffline)
        } else if self.capacity(on.file) < offset {
            Some(Refusal::TooBig)
        } else {
            None
        }
    }

    /// Reads bytes of the file of a live handle.
    #[tactic(auto, using(crate::proofs::Causing::checked_caused, crate::proofs::IoErrors::checked_io))]
    fn read_by(&mut self, on: &Open, offset: u64, out: &mut [u8]) -> Result<u64, Refusal>
        requires known { on.now.file < length (files_of self.old.volume.inodes.layout) }
        requires unspoilt { self.old.device.spoilt ≡ false }
        requires len { length out.old ≤ MOST_BYTES }
        ensures reply { self.new.device.spoilt ≡ false →
            ForLive on.now (λ live. as_read result out.new ≡
            (read_by out.new (Some live) (mounted_in self.old) offset (length out.old)).reply) }
        ensures mounted { self.new.device.spoilt ≡ false →
            ForLive on.now (λ live. mounted_in self.new ≡
            (read_by out.new (Some live) (mounted_in self.old) offset (length out.old)).mounted) }
        ensures count { IfOk result (λ n. n ≤ length out.old) }
        ensures rest { IfOk result (λ n. drop n out.new ≡ drop n out.old) }
        ensures failed { IsErr result → out.new ≡ out.old }
        ensures refused { ForLive on.now (λ live. IsRefusedBy (reading_refusal self.old.volume live offset) result) }
        ensures io_error { IoErrorCause result self.old.volume.inodes on.now.file self.old.device self.new.device }
        ensures cause { CallCause result self.old.device self.new.device }
    {
        match self.reading_refusal(on, offset) {
            Some(refusal) => Err(refusal),
            None => self.read_now(on.file, offset, out),
        }
    }

    /// Reads bytes of a file, after the checks.
    #[tactic(auto, using(crate::proofs::Causing::spoils_alike, crate::proofs::Causing::answered_caused, crate::proofs::Causing::failed_caused, crate::proofs::Giving::read_gives), unfolding(zn_model::specs::Reading::read_now))]
    fn read_now(&mut self, f: u32, offset: u64, out: &mut [u8]) -> Result<u64, Refusal>
        requires known { f < length (files_of self.old.volume.inodes.layout) }
        requires inside { offset ≤ capacity_at self.old.volume.inodes f }
        requires unspoilt { self.old.device.spoilt ≡ false }
        requires len { length out.old ≤ MOST_BYTES }
        ensures reply { self.new.device.spoilt ≡ false →
            as_read result out.new ≡ (read_now out.new (mounted_in self.old) f offset (length out.old)).reply }
        ensures mounted { self.new.device.spoilt ≡ false →
            mounted_in self.new ≡ (read_now out.new (mounted_in self.old) f offset (length out.old)).mounted }
        ensures count { IfOk result (λ n. n ≤ length out.old) }
        ensures rest { IfOk result (λ n. drop n out.new ≡ drop n out.old) }
        ensures failed { IsErr result → out.new ≡ out.old }
        ensures failure { IfErr result (λ refusal. is_failure refusal ≡ true) }
        ensures io_error { IoErrorCause result self.old.volume.inodes f self.old.device self.new.device }
        ensures cause { CallCause result self.old.device self.new.device }
    {
        let file = self.inodes.file(f);
        let shown = self.inodes.shown(f);
        lengthen(&mut self.scratch, SCRATCH);
        match read_file(&mut self.dev, &file, &shown, offset, out, &mut self.scratch) {
            Ok(count) => Ok(count),
            Err(error) => Err(self.recover(f, error, true)),
        }
    }

    /// Reads at most `len` bytes of the file of a handle, from an offset in bytes up to the size that it shows, into
    /// the front of some room, and answers how many. The room has place for all blocks that they lie in, so that they
    /// are copied once, where `read` copies them twice; its other bytes may change, and all of it where the read is
    /// refused. In all else it is `read`.
    #[tactic(auto, using(crate::proofs::Causing::still_caused), unfolding(zn_model::specs::Reading::read_call))]
    pub fn read_front(
        &mut self,
        h: Handle,
        offset: u64,
        len: u32,
        room: &mut [u8],
    ) -> Result<u64, Refusal>
        requires unspoilt { self.old.device.spoilt ≡ false }
        requires len { len ≤ MOST_BYTES }
        requires room { SCRATCH ≤ length room.old }
        ensures reply { self.new.device.spoilt ≡ false →
            as_read result room.new ≡ (read_call room.new (mounted_in self.old) h offset len).reply }
        ensures mounted { self.new.device.spoilt ≡ false →
            mounted_in self.new ≡ (read_call room.new (mounted_in self.old) h offset len).mounted }
        ensures count { IfOk result (λ n. n ≤ len) }
        ensures refused { IsRefusedBy (read_refusal (mounted_in self.old) h offset) result }
        ensures io_error { IoErrorThrough h result self.old self.new }
        ensures cause { CallCause result self.old.device self.new.device }
    {
        if !self.dev.powered() {
            return Err(Refusal::PowerLost);
        }
        match self.handles.get(h) {
            None => Err(Refusal::BadHandle),
            Some(on) => self.front_by(&on, offset, len, room),
        }
    }

    /// Reads into the front of the room, by a live handle.
    #[tactic(auto, using(crate::proofs::Causing::checked_caused, crate::proofs::IoErrors::checked_io))]
    fn front_by(
        &mut self,
        on: &Open,
        offset: u64,
        len: u32,
        room: &mut [u8],
    ) -> Result<u64, Refusal>
        requires known { on.now.file < length (files_of self.old.volume.inodes.layout) }
        requires unspoilt { self.old.device.spoilt ≡ false }
        requires len { len ≤ MOST_BYTES }
        requires room { SCRATCH ≤ length room.old }
        ensures reply { self.new.device.spoilt ≡ false →
            ForLive on.now (λ live. as_read result room.new ≡
            (read_by room.new (Some live) (mounted_in self.old) offset len).reply) }
        ensures mounted { self.new.device.spoilt ≡ false →
            ForLive on.now (λ live. mounted_in self.new ≡
            (read_by room.new (Some live) (mounted_in self.old) offset len).mounted) }
        ensures count { IfOk result (λ n. n ≤ len) }
        ensures refused { ForLive on.now (λ live. IsRefusedBy (reading_refusal self.old.volume live offset) result) }
        ensures io_error { IoErrorCause result self.old.volume.inodes on.now.file self.old.device self.new.device }
        ensures cause { CallCause result self.old.device self.new.device }
    {
        match self.reading_refusal(on, offset) {
            Some(refusal) => Err(refusal),
            None => self.front_now(on.file, offset, len, room),
        }
    }

    /// Reads into the front of the room, after the checks.
    #[tactic(auto, using(crate::proofs::Causing::spoils_alike, crate::proofs::Causing::answered_caused, crate::proofs::Causing::failed_caused, crate::proofs::Giving::read_gives), unfolding(zn_model::specs::Reading::read_now))]
    fn front_now(&mut self, f: u32, offset: u64, len: u32, room: &mut [u8]) -> Result<u64, Refusal>
        requires known { f < length (files_of self.old.volume.inodes.layout) }
        requires inside { offset ≤ capacity_at self.old.volume.inodes f }
        requires unspoilt { self.old.device.spoilt ≡ false }
        requires len { len ≤ MOST_BYTES }
        requires room { SCRATCH ≤ length room.old }
        ensures reply { self.new.device.spoilt ≡ false →
            as_read result room.new ≡ (read_now room.new (mounted_in self.old) f offset len).reply }
        ensures mounted { self.new.device.spoilt ≡ false →
            mounted_in self.new ≡ (read_now room.new (mounted_in self.old) f offset len).mounted }
        ensures count { IfOk result (λ n. n ≤ len) }
        ensures failure { IfErr result (λ refusal. is_failure refusal ≡ true) }
        ensures io_error { IoErrorCause result self.old.volume.inodes f self.old.device self.new.device }
        ensures cause { CallCause result self.old.device self.new.device }
    {
        let file = self.inodes.file(f);
        let shown = self.inodes.shown(f);
        match read_front(&mut self.dev, &file, &shown, offset, len, room) {
            Ok(count) => Ok(count),
            Err(error) => Err(self.recover(f, error, true)),
        }
    }
}
