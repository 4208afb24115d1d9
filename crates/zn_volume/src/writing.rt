// Writes.
ghost use Rattle.std.specs.Prelude.{◌≡◌, ◌≤◌, ◌<◌, length, Some, true, false, IfErr, IfSome, IfNone};
ghost use Rattle.zn_model.specs.declared.limits.TheConstants.{MOST_BYTES};
ghost use Rattle.zn_model.specs.ZoneFiles.{files_of};
ghost use Rattle.zn_model.specs.Volume.{file_at, shown_at, is_queued, Live};
ghost use Rattle.zn_model.specs.Writing.{write_call, write_by, write_now, write_at_once};
ghost use Rattle.zn_io.specs.Files.{IsWritable};
ghost use Rattle.zn_volume.specs.Causes.{CallCause};
ghost use Rattle.zn_volume.specs.VolumeState.{mounted_in, ForLive};
ghost use Rattle.zn_volume.specs.Refusals.{is_failure, fails, IsRefusedBy, refusal_in, write_refusal};
ghost use Rattle.zn_volume.specs.IoErrors.{IoErrorCause, IoErrorThrough};

use crate::volume::Volume;
use bitflags::Flags;
use zn_device::Zoned;
use zn_handle::Open;
use zn_io::write_file;
use zn_model::{Handle, Mode, Refusal};
use zn_truth::BLOCK_SIZE;

impl<D: Zoned + Drop> Volume<D> {
    /// Writes bytes to the file of a handle, at an offset in bytes.
    ///
    /// Refused as `PowerLost` without power, `BadHandle` where the handle isn't live, `BadMode` where it isn't open
    /// for writing, `FsReadOnly`, `FileOffline` or `FileReadOnly` by the rights, `Unaligned` where offset or length
    /// are not in whole blocks, `TooBig` past the capacity, `BadOffset` where a sequential file's last issued write ends
    /// elsewhere, `Busy` where requests of the file wait, in this order; no bytes are written at once after the rights.
    /// A failed command is told as `IoError`, `TooManyActive`, `TooManyOpen`, `PowerLost`, `Broken` or `Memory`, and is
    /// followed by recovery.
    #[tactic(auto, using(crate::proofs::Causing::still_caused), unfolding(zn_model::specs::Writing::write_call))]
    pub fn write(&mut self, h: Handle, offset: u64, bytes: &[u8]) -> Result<(), Refusal>
        requires unspoilt { self.old.device.spoilt ≡ false }
        requires len { length bytes.now ≤ MOST_BYTES }
        ensures reply { self.new.device.spoilt ≡ false →
            result ≡ (write_call (mounted_in self.old) h offset bytes.now).reply }
        ensures mounted { self.new.device.spoilt ≡ false →
            mounted_in self.new ≡ (write_call (mounted_in self.old) h offset bytes.now).mounted }
        ensures refused { IsRefusedBy (write_refusal (mounted_in self.old) h offset (length bytes.now)) result }
        ensures io_error { IoErrorThrough h result self.old self.new }
        ensures cause { CallCause result self.old.device self.new.device }
    {
        if !self.dev.powered() {
            return Err(Refusal::PowerLost);
        }
        match self.handles.get(h) {
            None => Err(Refusal::BadHandle),
            Some(on) => self.write_by(&on, offset, bytes),
        }
    }

    /// The first refusal of a write, or its answer where there is nothing to do.
    #[tactic(auto, unfolding(zn_model::specs::Writing::write_at_once))]
    fn write_at_once(&self, on: &Open, offset: u64, len: usize) -> Option<Result<(), Refusal>>
        requires known { on.now.file < length (files_of self.now.volume.inodes.layout) }
        requires len { len ≤ MOST_BYTES }
        ensures is { ForLive on.now (λ live. result ≡ write_at_once self.now.volume live offset len) }
        ensures told { IfSome result (λ reply. fails reply ≡ false) }
        ensures writable { IfNone result (IsWritable self.now.volume.inodes.shape
            (file_at self.now.volume.inodes on.now.file) (shown_at self.now.volume.inodes on.now.file) offset len) }
        ensures at_end { IfNone result ((file_at self.now.volume.inodes on.now.file).seq ≡ true →
            offset ≡ (shown_at self.now.volume.inodes on.now.file).size) }
        ensures idle { IfNone result (is_queued self.now.volume.queue on.now.file ≡ false) }
    {
        let file = self.inodes.file(on.file);
        let shown = self.inodes.shown(on.file);
        let len = len as u64;
        let capacity = self.capacity(on.file);
        if !on.mode.contains(Mode::WRITE) {
            Some(Err(Refusal::BadMode))
        } else if self.inodes.read_only() {
            Some(Err(Refusal::FsReadOnly))
        } else if !shown.may_read {
            Some(Err(Refusal::FileOffline))
        } else if !shown.may_write {
            Some(Err(Refusal::FileReadOnly))
        } else if len == 0 {
            Some(Ok(()))
        } else if offset % BLOCK_SIZE as u64 != 0 || len % BLOCK_SIZE as u64 != 0 {
            Some(Err(Refusal::Unaligned))
        } else if capacity < len || capacity - len < offset {
            Some(Err(Refusal::TooBig))
        } else if file.seq && offset != self.issued_end(on.file) {
            Some(Err(Refusal::BadOffset))
        } else if self.is_busy(on.file) {
            Some(Err(Refusal::Busy))
        } else {
            None
        }
    }

    /// Writes bytes to the file of a live handle.
    #[tactic(auto, using(crate::proofs::Causing::checked_caused, crate::proofs::IoErrors::checked_io))]
    fn write_by(&mut self, on: &Open, offset: u64, bytes: &[u8]) -> Result<(), Refusal>
        requires known { on.now.file < length (files_of self.old.volume.inodes.layout) }
        requires unspoilt { self.old.device.spoilt ≡ false }
        requires len { length bytes.now ≤ MOST_BYTES }
        ensures reply { self.new.device.spoilt ≡ false →
            ForLive on.now (λ live. result ≡ (write_by (Some live) (mounted_in self.old) offset bytes.now).reply) }
        ensures mounted { self.new.device.spoilt ≡ false →
            ForLive on.now (λ live. mounted_in self.new ≡
            (write_by (Some live) (mounted_in self.old) offset bytes.now).mounted) }
        ensures refused { ForLive on.now (λ live. IsRefusedBy
            (refusal_in (write_at_once self.old.volume live offset (length bytes.now))) result) }
        ensures io_error { IoErrorCause result self.old.volume.inodes on.now.file self.old.device self.new.device }
        ensures cause { CallCause result self.old.device self.new.device }
    {
        match self.write_at_once(on, offset, bytes.len()) {
            Some(reply) => reply,
            None => self.write_now(on.file, offset, bytes),
        }
    }

    /// Writes bytes to a file, after the checks.
    #[tactic(auto, using(crate::proofs::Causing::spoils_alike, crate::proofs::Causing::answered_caused, crate::proofs::Causing::failed_caused, crate::proofs::Keeping::held_set), unfolding(zn_model::specs::Writing::write_now))]
    fn write_now(&mut self, f: u32, offset: u64, bytes: &[u8]) -> Result<(), Refusal>
        requires known { f < length (files_of self.old.volume.inodes.layout) }
        requires at_end { (file_at self.old.volume.inodes f).seq ≡ true →
            offset ≡ (shown_at self.old.volume.inodes f).size }
        requires writable { IsWritable self.old.volume.inodes.shape (file_at self.old.volume.inodes f)
            (shown_at self.old.volume.inodes f) offset (length bytes.now) }
        requires idle { is_queued self.old.volume.queue f ≡ false }
        requires unspoilt { self.old.device.spoilt ≡ false }
        ensures reply { self.new.device.spoilt ≡ false →
            result ≡ (write_now (mounted_in self.old) f offset bytes.now).reply }
        ensures mounted { self.new.device.spoilt ≡ false →
            mounted_in self.new ≡ (write_now (mounted_in self.old) f offset bytes.now).mounted }
        ensures failure { IfErr result (λ refusal. is_failure refusal ≡ true) }
        ensures io_error { IoErrorCause result self.old.volume.inodes f self.old.device self.new.device }
        ensures cause { CallCause result self.old.device self.new.device }
    {
        let file = self.inodes.file(f);
        let mut shown = self.inodes.shown(f);
        if let Err(error) = write_file(&mut self.dev, &file, &mut shown, offset, bytes) {
            return Err(self.recover(f, error, false));
        }
        self.inodes.set(f, shown);
        Ok(())
    }
}
