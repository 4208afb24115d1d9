// What a volume keeps, and what its calls share.
ghost use Rattle.std.specs.Prelude.{◌≡◌, ◌<◌, length, Bool, true, false, if◌then◌else◌};
ghost use Rattle.zn_model.specs.ZoneFiles.{files_of};
ghost use Rattle.zn_model.specs.Volume.{capacity_at, shown_at, failed, is_queued, is_queued_through, issued_end};
ghost use Rattle.zn_model.specs.OpenClose.{owner_of};
ghost use Rattle.zn_model.specs.Recovery.{refusal_of, after_failure};
ghost use Rattle.zn_io.specs.Findings.{told_by, is_applied};
ghost use Rattle.zn_volume.specs.Causes.{RecoveryCause};
ghost use Rattle.zn_volume.specs.Means.{is_spoiling};
ghost use Rattle.zn_volume.specs.Refusals.{is_failure};
ghost use Rattle.zn_volume.specs.VolumeState.{mounted_in};

use std::marker::Model;
use zn_device::Zoned;
use zn_handle::Handles;
use zn_inode::{Inodes, capacity};
use zn_io::{is_passed_on, recover_file};
use zn_model::{Handle, Policy, Refusal, Who};
use zn_queue::Queue;
use zn_super::Super;
use zn_truth::{DevError, ZoneInfo};

/// A mounted volume. No call of it takes memory, but where the device's commands do.
#[derive(Drop)]
pub struct Volume<D: Zoned + Drop> {
    pub(crate) dev: D,
    pub(crate) policy: Policy,
    pub(crate) explicit_open: bool,
    pub(crate) super_block: Super,
    pub(crate) inodes: Inodes,
    pub(crate) handles: Handles,
    /// The writes in flight, and the outcomes that are not reaped.
    pub(crate) queue: Queue,
    /// A place for each zone of the device, for reports.
    pub(crate) infos: Vec<ZoneInfo>,
    /// Room for the blocks that cover a read, and for those of a request. It is as long as a call has needed it.
    pub(crate) scratch: Vec<u8>,
}

impl<D: Zoned + Drop> Model for Volume<D> {
    ghost use Rattle.std.specs.Prelude.{length, vec_capacity};
    ghost use Rattle.zn_volume.specs.VolumeState.{VolumeState, Agrees};

    ghost Value = { VolumeState };

    ghost view = { λ v. record {
      device = D.state v.dev;
      volume = record {
        super_block = v.super_block;
        policy = v.policy;
        explicit_open = v.explicit_open;
        inodes = v.inodes;
        handles = v.handles.handles;
        queue = v.queue.queue;
      };
    } };

    ghost invariant = { λ v. Agrees (D.state v.dev).world v.inodes v.handles v.queue.queue.queued
        (length v.infos.items) (vec_capacity v.scratch) };
}

/// A failure of the device, as a call tells it.
pub fn refusal(error: DevError) -> Refusal
    ensures value { result ≡ refusal_of error }
    ensures failure { is_failure result ≡ true }
{
    match error {
        DevError::ReadOnly
        | DevError::Offline
        | DevError::Unaligned
        | DevError::BeyondWp
        | DevError::Fault => Refusal::IoError,
        DevError::TooManyActive => Refusal::TooManyActive,
        DevError::TooManyOpen => Refusal::TooManyOpen,
        DevError::PowerLost => Refusal::PowerLost,
        DevError::Broken => Refusal::Broken,
        DevError::Memory => Refusal::Memory,
    }
}

/// Ends the requests of a file with an input or output error, where a recovery was applied to it.
pub(crate) fn end_recovered(queue: &mut Queue, f: u32, recovered: &Result<bool, DevError>)
    ensures { let before = queue.old.queue in
        queue.new.queue ≡ (if is_applied recovered.now then failed before f else before) }
{
    match recovered {
        Ok(true) => queue.fail(f),
        Ok(false) | Err(_) => {}
    }
}

/// What is told after a recovery: the failure that it passes on, or else the refusal that was to be told.
fn told(recovered: Result<bool, DevError>, refusal: Refusal) -> Refusal
    requires failure { is_failure refusal ≡ true }
    ensures told { result ≡ told_by recovered refusal }
    ensures failure { is_failure result ≡ true }
{
    match recovered {
        Err(lost) => self::refusal(lost),
        Ok(_) => refusal,
    }
}

impl<D: Zoned + Drop> Volume<D> {
    /// What follows a failed command of a call on a file: the refusal that is told. Where recovery is applied to the file,
    /// its requests end.
    #[tactic(auto, using(crate::proofs::Causing::passed_caused), unfolding(zn_model::specs::Recovery::after_failure, zn_model::specs::Recovery::recovered))]
    pub(crate) fn recover(&mut self, f: u32, error: DevError, after_read: bool) -> Refusal
        requires known { f < length (files_of self.old.volume.inodes.layout) }
        requires spoilt { self.old.device.spoilt ≡ is_spoiling (refusal_of error) }
        ensures refusal { self.new.device.spoilt ≡ false →
            result ≡ (after_failure after_read error (mounted_in self.old) f).refusal }
        ensures mounted { self.new.device.spoilt ≡ false →
            mounted_in self.new ≡ (after_failure after_read error (mounted_in self.old) f).mounted }
        ensures cause { RecoveryCause error result self.old.device self.new.device }
        ensures failure { is_failure result ≡ true }
    {
        let refusal = refusal(error);
        if is_passed_on(error) {
            return refusal;
        }
        let recovered = recover_file(
            &mut self.dev,
            &mut self.inodes,
            f,
            self.policy,
            after_read,
            &mut self.infos,
        );
        end_recovered(&mut self.queue, f, &recovered);
        told(recovered, refusal)
    }

    /// Where the last write that was issued to a file ends: behind what it shows and what waits for it.
    pub(crate) fn issued_end(&self, f: u32) -> u64
        requires { f < length (files_of self.now.volume.inodes.layout) }
        ensures end { result ≡ issued_end self.now.volume f }
        ensures idle { is_queued self.now.volume.queue f ≡ false → result ≡ (shown_at self.now.volume.inodes f).size }
    {
        self.inodes.shown(f).size + self.queue.queued(f)
    }

    /// Whether a request waits for a file.
    pub(crate) fn is_busy(&self, f: u32) -> bool
        ensures { result ≡ is_queued self.now.volume.queue f }
    {
        self.queue.queued(f) > 0
    }

    /// Whether a request waits that was submitted through a handle.
    pub(crate) fn waits_through(&self, h: Handle) -> bool
        ensures { result ≡ is_queued_through self.now.volume.queue h }
    {
        self.queue.through(h)
    }

    /// The bytes that a file has room for.
    pub(crate) fn capacity(&self, f: u32) -> u64
        requires { f < length (files_of self.now.volume.inodes.layout) }
        ensures { result ≡ capacity_at self.now.volume.inodes f }
    {
        capacity(&self.inodes.shape(), &self.inodes.file(f))
    }

    /// The user and the group that own the files.
    pub(crate) fn owner(&self) -> Who
        ensures { result ≡ owner_of self.now.volume }
    {
        let super_block = &self.super_block;
        Who {
            uid: super_block.uid,
            gid: super_block.gid,
        }
    }

    /// The permissions of the files.
    pub(crate) fn perm(&self) -> u32
        ensures { result ≡ self.now.volume.super_block.perm }
    {
        let super_block = &self.super_block;
        super_block.perm
    }

    /// Whether the device has power.
    pub fn powered(&self) -> bool
        ensures { result ≡ self.now.device.world.powered }
    {
        self.dev.powered()
    }

    /// How often what the device is kept in has failed.
    pub fn breaks(&self) -> u64
        ensures { result ≡ self.now.device.breaks }
    {
        self.dev.breaks()
    }

    /// The device.
    pub fn device(&self) -> &D
        ensures { D.state result.now ≡ self.now.device }
    {
        &self.dev
    }

    /// Gives the device back as it is.
    pub fn into_device(self) -> D
        ensures { D.state result ≡ self.device }
    {
        let Volume { dev, .. } = self;
        dev
    }
}
