// Truncations and syncs.
ghost use Rattle.std.specs.Prelude.{◌≡◌, ◌≤◌, ◌<◌, length, Some, true, false, IfErr, IfSome, IfNone, IsErrOf};
ghost use Rattle.zn_base.specs.Causes.{Rose};
ghost use Rattle.zn_model.specs.declared.answers.Refusal.TheVariants.{IoError};
ghost use Rattle.zn_model.specs.ZoneFiles.{files_of};
ghost use Rattle.zn_model.specs.Volume.{file_at, capacity_at, is_queued, Live};
ghost use Rattle.zn_model.specs.Truncating.{truncate_call, truncate_by, truncate_now, truncate_at_once, sync_call, sync_by, sync_now, syncing_refusal};
ghost use Rattle.zn_volume.specs.Causes.{CallCause};
ghost use Rattle.zn_volume.specs.VolumeState.{mounted_in, ForLive};
ghost use Rattle.zn_volume.specs.Refusals.{is_failure, fails, IsRefusedBy, refusal_in, truncate_refusal, sync_refusal};
ghost use Rattle.zn_volume.specs.IoErrors.{IoErrorCause, IoErrorThrough};

use crate::volume::Volume;
use bitflags::Flags;
use zn_device::Zoned;
use zn_handle::Open;
use zn_io::{sync_file, truncate_file};
use zn_model::{Handle, Mode, Refusal};

impl<D: Zoned + Drop> Volume<D> {
    /// Truncates the sequential file of a handle, to no bytes or to its capacity in bytes.
    ///
    /// Refused as `PowerLost` without power, `BadHandle` where the handle isn't live, `BadMode` where it isn't open
    /// for writing, `NotAllowed` on a conventional file, `FsReadOnly`, `FileOffline` or `FileReadOnly` by the rights,
    /// `NotAllowed` for any other size, and `Busy` where requests of the file wait, in this order; the size that the file
    /// shows is done at once. A failed command is told as `IoError`, `TooManyActive`, `TooManyOpen`, `PowerLost`,
    /// `Broken` or `Memory`, and is followed by recovery.
    #[tactic(auto, using(crate::proofs::Causing::still_caused), unfolding(zn_model::specs::Truncating::truncate_call))]
    pub fn truncate(&mut self, h: Handle, size: u64) -> Result<(), Refusal>
        requires unspoilt { self.old.device.spoilt ≡ false }
        ensures reply { self.new.device.spoilt ≡ false →
            result ≡ (truncate_call (mounted_in self.old) h size).reply }
        ensures mounted { self.new.device.spoilt ≡ false →
            mounted_in self.new ≡ (truncate_call (mounted_in self.old) h size).mounted }
        ensures refused { IsRefusedBy (truncate_refusal (mounted_in self.old) h size) result }
        ensures io_error { IoErrorThrough h result self.old self.new }
        ensures cause { CallCause result self.old.device self.new.device }
    {
        if !self.dev.powered() {
            return Err(Refusal::PowerLost);
        }
        match self.handles.get(h) {
            None => Err(Refusal::BadHandle),
            Some(on) => self.truncate_by(&on, size),
        }
    }

    /// The first refusal of a truncation, or its answer where there is nothing to do.
    #[tactic(auto, unfolding(zn_model::specs::Truncating::truncate_at_once))]
    fn truncate_at_once(&self, on: &Open, size: u64) -> Option<Result<(), Refusal>>
        requires known { on.now.file < length (files_of self.now.volume.inodes.layout) }
        ensures is { ForLive on.now (λ live. result ≡ truncate_at_once self.now.volume live size) }
        ensures told { IfSome result (λ reply. fails reply ≡ false) }
        ensures sequential { IfNone result ((file_at self.now.volume.inodes on.now.file).seq ≡ true) }
        ensures size { IfNone result (size ≤ capacity_at self.now.volume.inodes on.now.file) }
        ensures idle { IfNone result (is_queued self.now.volume.queue on.now.file ≡ false) }
    {
        let shown = self.inodes.shown(on.file);
        if !on.mode.contains(Mode::WRITE) {
            Some(Err(Refusal::BadMode))
        } else if !self.inodes.file(on.file).seq {
            Some(Err(Refusal::NotAllowed))
        } else if self.inodes.read_only() {
            Some(Err(Refusal::FsReadOnly))
        } else if !shown.may_read {
            Some(Err(Refusal::FileOffline))
        } else if !shown.may_write {
            Some(Err(Refusal::FileReadOnly))
        } else if size != 0 && size != self.capacity(on.file) {
            Some(Err(Refusal::NotAllowed))
        } else if self.is_busy(on.file) {
            Some(Err(Refusal::Busy))
        } else if size == shown.size {
            Some(Ok(()))
        } else {
            None
        }
    }

    /// Truncates the file of a live handle.
    #[tactic(auto, using(crate::proofs::Causing::checked_caused, crate::proofs::IoErrors::checked_io))]
    fn truncate_by(&mut self, on: &Open, size: u64) -> Result<(), Refusal>
        requires known { on.now.file < length (files_of self.old.volume.inodes.layout) }
        requires unspoilt { self.old.device.spoilt ≡ false }
        ensures reply { self.new.device.spoilt ≡ false →
            ForLive on.now (λ live. result ≡ (truncate_by (Some live) (mounted_in self.old) size).reply) }
        ensures mounted { self.new.device.spoilt ≡ false →
            ForLive on.now (λ live. mounted_in self.new ≡
            (truncate_by (Some live) (mounted_in self.old) size).mounted) }
        ensures refused { ForLive on.now (λ live. IsRefusedBy
            (refusal_in (truncate_at_once self.old.volume live size)) result) }
        ensures io_error { IoErrorCause result self.old.volume.inodes on.now.file self.old.device self.new.device }
        ensures cause { CallCause result self.old.device self.new.device }
    {
        match self.truncate_at_once(on, size) {
            Some(reply) => reply,
            None => self.truncate_now(on.file, size),
        }
    }

    /// Truncates a file, after the checks.
    #[tactic(auto, using(crate::proofs::Causing::spoils_alike, crate::proofs::Causing::answered_caused, crate::proofs::Causing::failed_caused, crate::proofs::IoErrors::done_io, crate::proofs::Keeping::held_set), unfolding(zn_model::specs::Truncating::truncate_now))]
    fn truncate_now(&mut self, f: u32, size: u64) -> Result<(), Refusal>
        requires known { f < length (files_of self.old.volume.inodes.layout) }
        requires sequential { (file_at self.old.volume.inodes f).seq ≡ true }
        requires size { size ≤ capacity_at self.old.volume.inodes f }
        requires idle { is_queued self.old.volume.queue f ≡ false }
        requires unspoilt { self.old.device.spoilt ≡ false }
        ensures reply { self.new.device.spoilt ≡ false →
            result ≡ (truncate_now (mounted_in self.old) f size).reply }
        ensures mounted { self.new.device.spoilt ≡ false →
            mounted_in self.new ≡ (truncate_now (mounted_in self.old) f size).mounted }
        ensures failure { IfErr result (λ refusal. is_failure refusal ≡ true) }
        ensures io_error { IoErrorCause result self.old.volume.inodes f self.old.device self.new.device }
        ensures cause { CallCause result self.old.device self.new.device }
    {
        let file = self.inodes.file(f);
        let mut shown = self.inodes.shown(f);
        if let Err(error) = truncate_file(&mut self.dev, &file, &mut shown, size) {
            return Err(self.recover(f, error, false));
        }
        self.inodes.set(f, shown);
        Ok(())
    }

    /// Makes all that the device holds durable, the file of a handle among it.
    ///
    /// Refused as `PowerLost` without power, `BadHandle` where the handle isn't live, `FileOffline` where the file may not
    /// be read, and `Busy` where requests of the file wait, in this order. A failed command is told as
    /// `IoError`, `PowerLost`, `Broken` or `Memory`, and this file alone is recovered.
    #[tactic(auto, using(crate::proofs::Causing::still_caused), unfolding(zn_model::specs::Truncating::sync_call))]
    pub fn sync(&mut self, h: Handle) -> Result<(), Refusal>
        requires unspoilt { self.old.device.spoilt ≡ false }
        ensures reply { self.new.device.spoilt ≡ false → result ≡ (sync_call (mounted_in self.old) h).reply }
        ensures mounted { self.new.device.spoilt ≡ false →
            mounted_in self.new ≡ (sync_call (mounted_in self.old) h).mounted }
        ensures refused { IsRefusedBy (sync_refusal (mounted_in self.old) h) result }
        ensures io_error { IsErrOf result IoError → Rose self.old.device.faults self.new.device.faults }
        ensures cause { CallCause result self.old.device self.new.device }
    {
        if !self.dev.powered() {
            return Err(Refusal::PowerLost);
        }
        match self.handles.get(h) {
            None => Err(Refusal::BadHandle),
            Some(on) => self.sync_by(&on),
        }
    }

    /// Flushes the device for a live handle, if its file may be read.
    #[tactic(auto, using(crate::proofs::Causing::still_caused), unfolding(zn_model::specs::Truncating::syncing_refusal))]
    fn sync_by(&mut self, on: &Open) -> Result<(), Refusal>
        requires known { on.now.file < length (files_of self.old.volume.inodes.layout) }
        requires unspoilt { self.old.device.spoilt ≡ false }
        ensures reply { self.new.device.spoilt ≡ false →
            ForLive on.now (λ live. result ≡ (sync_by (Some live) (mounted_in self.old)).reply) }
        ensures mounted { self.new.device.spoilt ≡ false →
            ForLive on.now (λ live. mounted_in self.new ≡ (sync_by (Some live) (mounted_in self.old)).mounted) }
        ensures refused { ForLive on.now (λ live. IsRefusedBy (syncing_refusal self.old.volume live) result) }
        ensures io_error { IsErrOf result IoError → Rose self.old.device.faults self.new.device.faults }
        ensures cause { CallCause result self.old.device self.new.device }
    {
        if !self.inodes.shown(on.file).may_read {
            return Err(Refusal::FileOffline);
        }
        if self.is_busy(on.file) {
            return Err(Refusal::Busy);
        }
        self.sync_now(on.file)
    }

    /// Flushes the device for a file, after the checks.
    #[tactic(auto, using(crate::proofs::Causing::spoils_alike, crate::proofs::Causing::answered_caused, crate::proofs::Causing::failed_caused, zn_device::proofs::Ordered::ordered_one), unfolding(zn_model::specs::Truncating::sync_now))]
    fn sync_now(&mut self, f: u32) -> Result<(), Refusal>
        requires known { f < length (files_of self.old.volume.inodes.layout) }
        requires unspoilt { self.old.device.spoilt ≡ false }
        ensures reply { self.new.device.spoilt ≡ false → result ≡ (sync_now (mounted_in self.old) f).reply }
        ensures mounted { self.new.device.spoilt ≡ false →
            mounted_in self.new ≡ (sync_now (mounted_in self.old) f).mounted }
        ensures failure { IfErr result (λ refusal. is_failure refusal ≡ true) }
        ensures io_error { IsErrOf result IoError → Rose self.old.device.faults self.new.device.faults }
        ensures cause { CallCause result self.old.device self.new.device }
    {
        match sync_file(&mut self.dev) {
            Ok(()) => Ok(()),
            Err(error) => Err(self.recover(f, error, false)),
        }
    }
}
