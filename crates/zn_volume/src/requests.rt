// Requests in flight: writes that are queued, carried out later, and told.
ghost use Rattle.std.specs.Prelude.{◌≡◌, ◌+◌, ◌%◌, ◌<◌, ◌≤◌, ◌^◌, ◌∷◌, [], length, map, slice_index, drop, take, List, true, false, Some, Err, IfErr, IfSome, IfNone, IsErr, IfOk, vec_capacity};
ghost use Rattle.zn_truth.specs.declared.limits.TheConstants.{BLOCK_SIZE};
ghost use Rattle.zn_model.specs.declared.limits.TheConstants.{MOST_BYTES};
ghost use Rattle.zn_model.specs.ZoneFiles.{files_of};
ghost use Rattle.zn_model.specs.Volume.{Live, Request as TheRequest, capacity_at, file_at, issued_end, shown_at, failed};
ghost use Rattle.zn_model.specs.CallAnswers.{or_else, unless, as_refused, rights_refusal};
ghost use Rattle.zn_model.specs.Writing.{area_refusal};
ghost use Rattle.zn_model.specs.Requests.{submit_call, submit_by, submit_now, submitting_refusal, queue_refusal, outcome_of, complete_call, complete_by, after_complete, reap_call};
ghost use Rattle.zn_model.specs.Recovery.{is_passed_on as passed_on, refusal_of};
ghost use Rattle.zn_queue.specs.QueueState.{request_of, with_outcome};
ghost use Rattle.zn_io.specs.Files.{IsWritable};
ghost use Rattle.zn_volume.specs.Causes.{CallCause};
ghost use Rattle.zn_volume.specs.IoErrors.{IoOutcomeCause};
ghost use Rattle.zn_volume.specs.Means.{is_spoiling, spoils};
ghost use Rattle.zn_volume.specs.VolumeState.{mounted_in, ForLive};
ghost use Rattle.zn_volume.specs.Refusals.{is_failure, IsRefusedBy, submit_refusal, complete_refusal, reap_refusal};

use crate::volume::{Volume, refusal};
use bitflags::Flags;
use zn_device::Zoned;
use zn_handle::Open;
use zn_io::{is_passed_on, lengthen, recover_file, write_file};
use zn_model::{Done, Handle, MOST_BYTES, Mode, Outcome, Refusal};
use zn_queue::{Queue, Request};
use zn_truth::{BLOCK_SIZE, DevError};

/// How a request ends whose command failed so.
fn outcome(error: DevError) -> Outcome
    ensures { result ≡ outcome_of error }
{
    match error {
        DevError::TooManyActive => Outcome::TooManyActive,
        DevError::TooManyOpen => Outcome::TooManyOpen,
        DevError::ReadOnly
        | DevError::Offline
        | DevError::Unaligned
        | DevError::BeyondWp
        | DevError::Fault
        | DevError::PowerLost
        | DevError::Broken
        | DevError::Memory => Outcome::IoError,
    }
}

/// The oldest request that waits, with its bytes in the front of a buffer.
fn oldest_into(queue: &Queue, scratch: &mut [u8]) -> Option<Request>
    requires { MOST_BYTES ≤ length scratch.old }
    ensures none { IfNone result (queue.now.queue.queued ≡ []) }
    ensures oldest { IfSome result (λ it. queue.now.queue.queued
        ≡ request_of it (take it.len scratch.new) ∷ drop 1 queue.now.queue.queued) }
    ensures len { IfSome result (λ it. it.len ≤ MOST_BYTES) }
    ensures room { length scratch.new ≡ length scratch.old }
{
    queue.next(&mut scratch[..MOST_BYTES as usize])
}

/// The same, into room that was taken once.
fn oldest_of(queue: &Queue, scratch: &mut Vec<u8>) -> Option<Request>
    requires { MOST_BYTES ≤ vec_capacity scratch.old }
    ensures none { IfNone result (queue.now.queue.queued ≡ []) }
    ensures oldest { IfSome result (λ it. queue.now.queue.queued
        ≡ request_of it (take it.len scratch.new.items) ∷ drop 1 queue.now.queue.queued) }
    ensures len { IfSome result (λ it. it.len ≤ MOST_BYTES) }
    ensures long { MOST_BYTES ≤ length scratch.new.items }
    ensures room { vec_capacity scratch.old ≤ vec_capacity scratch.new }
{
    lengthen(scratch, MOST_BYTES as usize);
    oldest_into(queue, scratch)
}

/// Ends the oldest request, which is one of this file, and then the file's others with an input or output error, in
/// their order: the oldest's ticket.
fn end_failed(queue: &mut Queue, f: u32, outcome: Outcome) -> u64
    requires { 0 < length queue.old.queue.queued }
    ensures ticket { result ≡ slice_index (map (λ request. request.ticket) queue.old.queue.queued) 0 }
    ensures ended { queue.new.queue ≡ failed (with_outcome queue.old.queue outcome) f }
{
    let ticket = queue.finish(outcome);
    queue.fail(f);
    ticket
}

impl<D: Zoned + Drop> Volume<D> {
    // ---- submit

    /// Queues a write of bytes to the file of a handle, at an offset in bytes, and answers its ticket: 1, 2, 3 and so on
    /// since the mount. The bytes are copied, and no command is issued.
    ///
    /// Refused as `PowerLost` without power, `BadHandle` where the handle isn't live, `BadMode` where it isn't open
    /// for writing, `FsReadOnly`, `FileOffline` or `FileReadOnly` by the rights, `Unaligned` for no bytes and where
    /// offset or length are not in whole blocks, `TooBig` past the capacity, `BadOffset` where a sequential file's last
    /// issued write ends elsewhere, `QueueFull` where 64 requests wait or are not reaped, `PoolEmpty` where the blocks
    /// of all that wait leave fewer than these of 1,024, in this order.
    #[tactic(auto, unfolding(zn_model::specs::Requests::submit_call))]
    pub fn submit(&mut self, h: Handle, offset: u64, bytes: &[u8]) -> Result<u64, Refusal>
        requires len { length bytes.now ≤ MOST_BYTES }
        requires tickets { self.old.volume.queue.last_ticket < 2 ^ 63 }
        ensures reply { result ≡ (submit_call (mounted_in self.old) h offset bytes.now).reply }
        ensures mounted { mounted_in self.new ≡ (submit_call (mounted_in self.old) h offset bytes.now).mounted }
        ensures refused { IsRefusedBy (submit_refusal (mounted_in self.old) h offset (length bytes.now)) result }
        ensures told { spoils result ≡ false }
        ensures device { self.new.device ≡ self.old.device }
    {
        if !self.dev.powered() {
            return Err(Refusal::PowerLost);
        }
        match self.handles.get(h) {
            None => Err(Refusal::BadHandle),
            Some(on) => self.submit_by(h, &on, offset, bytes),
        }
    }

    /// The first refusal of a submit, but for the room in the queue.
    #[tactic(auto, unfolding(zn_model::specs::Requests::submitting_refusal))]
    fn submitting_refusal(&self, on: &Open, offset: u64, len: usize) -> Option<Refusal>
        requires known { on.now.file < length (files_of self.now.volume.inodes.layout) }
        requires len { len ≤ MOST_BYTES }
        ensures is { ForLive on.now (λ live. submitting_refusal self.now.volume live offset len
            ≡ or_else result (queue_refusal self.now.volume.queue len)) }
        ensures told { IfSome result (λ refusal. is_failure refusal ≡ false) }
        ensures aligned { IfNone result (offset % BLOCK_SIZE ≡ 0) }
        ensures whole { IfNone result (len % BLOCK_SIZE ≡ 0) }
        ensures some { IfNone result (0 < len) }
        ensures inside { IfNone result (offset + len ≤ capacity_at self.now.volume.inodes on.now.file) }
        ensures at_end { IfNone result ((file_at self.now.volume.inodes on.now.file).seq ≡ true →
            offset ≡ issued_end self.now.volume on.now.file) }
    {
        let file = self.inodes.file(on.file);
        let shown = self.inodes.shown(on.file);
        let len = len as u64;
        let capacity = self.capacity(on.file);
        if !on.mode.contains(Mode::WRITE) {
            Some(Refusal::BadMode)
        } else if self.inodes.read_only() {
            Some(Refusal::FsReadOnly)
        } else if !shown.may_read {
            Some(Refusal::FileOffline)
        } else if !shown.may_write {
            Some(Refusal::FileReadOnly)
        } else if len == 0 {
            Some(Refusal::Unaligned)
        } else if offset % BLOCK_SIZE as u64 != 0 || len % BLOCK_SIZE as u64 != 0 {
            Some(Refusal::Unaligned)
        } else if capacity < len || capacity - len < offset {
            Some(Refusal::TooBig)
        } else if file.seq && offset != self.issued_end(on.file) {
            Some(Refusal::BadOffset)
        } else {
            None
        }
    }

    /// Queues a write to the file of a live handle.
    fn submit_by(&mut self, h: Handle, on: &Open, offset: u64, bytes: &[u8]) -> Result<u64, Refusal>
        requires known { on.now.file < length (files_of self.old.volume.inodes.layout) }
        requires len { length bytes.now ≤ MOST_BYTES }
        requires tickets { self.old.volume.queue.last_ticket < 2 ^ 63 }
        ensures reply { ForLive on.now (λ live. live.handle ≡ h →
            result ≡ (submit_by (Some live) (mounted_in self.old) offset bytes.now).reply) }
        ensures mounted { ForLive on.now (λ live. live.handle ≡ h → mounted_in self.new ≡
            (submit_by (Some live) (mounted_in self.old) offset bytes.now).mounted) }
        ensures refused { ForLive on.now (λ live. IsRefusedBy
            (submitting_refusal self.old.volume live offset (length bytes.now)) result) }
        ensures told { spoils result ≡ false }
        ensures device { self.new.device ≡ self.old.device }
    {
        match self.submitting_refusal(on, offset, bytes.len()) {
            Some(refusal) => Err(refusal),
            None => self.submit_now(h, on.file, offset, bytes),
        }
    }

    /// Queues a write to a file, after the checks, if there is room in the queue.
    #[tactic(auto, using(crate::proofs::InFlight::one_more))]
    fn submit_now(&mut self, h: Handle, f: u32, offset: u64, bytes: &[u8]) -> Result<u64, Refusal>
        requires known { f < length (files_of self.old.volume.inodes.layout) }
        requires aligned { offset % BLOCK_SIZE ≡ 0 }
        requires whole { length bytes.now % BLOCK_SIZE ≡ 0 }
        requires some { 0 < length bytes.now }
        requires most { length bytes.now ≤ MOST_BYTES }
        requires inside { offset + length bytes.now ≤ capacity_at self.old.volume.inodes f }
        requires at_end { (file_at self.old.volume.inodes f).seq ≡ true → offset ≡ issued_end self.old.volume f }
        requires tickets { self.old.volume.queue.last_ticket < 2 ^ 63 }
        ensures reply { let check = queue_refusal self.old.volume.queue (length bytes.now) in
            (live : Live) → live.handle ≡ h → live.file ≡ f →
            result ≡ (unless (as_refused check) (mounted_in self.old)
            (submit_now (mounted_in self.old) live offset bytes.now)).reply }
        ensures mounted { let check = queue_refusal self.old.volume.queue (length bytes.now) in
            (live : Live) → live.handle ≡ h → live.file ≡ f →
            mounted_in self.new ≡ (unless (as_refused check) (mounted_in self.old)
            (submit_now (mounted_in self.old) live offset bytes.now)).mounted }
        ensures refused { IsRefusedBy (queue_refusal self.old.volume.queue (length bytes.now)) result }
        ensures told { spoils result ≡ false }
        ensures device { self.new.device ≡ self.old.device }
    {
        match self.queue.submit(f, h, offset, bytes) {
            Ok(ticket) => Ok(ticket),
            Err(error) => Err(Refusal::from(error)),
        }
    }

    // ---- complete

    /// Carries out the oldest request that waits as a write does, but without asking rights again, and answers its ticket
    /// whatever its outcome, which is had by `reap`.
    ///
    /// Refused as `PowerLost` without power, and as `NothingQueued` where none waits, in this order. A command that
    /// fails is the request's outcome: `TooManyActive`, `TooManyOpen`, or else `IoError`; recovery follows, which ends
    /// the file's other requests behind it. Where a command, or recovery's report, answers `PowerLost`, `Broken` or
    /// `Memory`, that is the answer, and the request stays queued.
    #[tactic(auto, using(crate::proofs::Causing::still_caused), unfolding(zn_model::specs::Requests::complete_call))]
    pub fn complete(&mut self) -> Result<u64, Refusal>
        requires unspoilt { self.old.device.spoilt ≡ false }
        ensures reply { self.new.device.spoilt ≡ false → result ≡ (complete_call (mounted_in self.old)).reply }
        ensures mounted { self.new.device.spoilt ≡ false →
            mounted_in self.new ≡ (complete_call (mounted_in self.old)).mounted }
        ensures refused { IsRefusedBy (complete_refusal (mounted_in self.old)) result }
        ensures outcome { IoOutcomeCause self.old self.new }
        ensures cause { CallCause result self.old.device self.new.device }
    {
        if !self.dev.powered() {
            return Err(Refusal::PowerLost);
        }
        self.complete_by()
    }

    /// Carries out the oldest request, where one waits.
    fn complete_by(&mut self) -> Result<u64, Refusal>
        requires unspoilt { self.old.device.spoilt ≡ false }
        ensures reply { self.new.device.spoilt ≡ false →
            result ≡ (complete_by self.old.volume.queue.queued (mounted_in self.old)).reply }
        ensures mounted { self.new.device.spoilt ≡ false →
            mounted_in self.new ≡ (complete_by self.old.volume.queue.queued (mounted_in self.old)).mounted }
        ensures none { self.old.volume.queue.queued ≡ [] → result ≡ Err Refusal.NothingQueued }
        ensures failure { (oldest : TheRequest) (waiting : List TheRequest) →
            self.old.volume.queue.queued ≡ oldest ∷ waiting →
            IfErr result (λ refusal. is_failure refusal ≡ true) }
        ensures outcome { IoOutcomeCause self.old self.new }
        ensures cause { CallCause result self.old.device self.new.device }
    {
        let Some(request) = oldest_of(&self.queue, &mut self.scratch) else {
            return Err(Refusal::NothingQueued);
        };
        let f = request.file;
        let file = self.inodes.file(f);
        let mut shown = self.inodes.shown(f);
        let bytes = &self.scratch[..request.len as usize];
        if let Err(error) = write_file(&mut self.dev, &file, &mut shown, request.offset, bytes) {
            return self.complete_failed(f, error);
        }
        self.inodes.set(f, shown);
        Ok(self.queue.finish(Outcome::Ok))
    }

    /// What follows a failed command of the oldest request, which is one of this file.
    fn complete_failed(&mut self, f: u32, error: DevError) -> Result<u64, Refusal>
        requires known { f < length (files_of self.old.volume.inodes.layout) }
        requires some { 0 < length self.old.volume.queue.queued }
        requires file { (oldest : TheRequest) (waiting : List TheRequest) →
            self.old.volume.queue.queued ≡ oldest ∷ waiting → oldest.file ≡ f }
        requires spoilt { self.old.device.spoilt ≡ is_spoiling (refusal_of error) }
        ensures reply { self.new.device.spoilt ≡ false → (oldest : TheRequest) (waiting : List TheRequest) →
            self.old.volume.queue.queued ≡ oldest ∷ waiting →
            result ≡ (after_complete (Err error) (mounted_in self.old) oldest waiting).reply }
        ensures mounted { self.new.device.spoilt ≡ false → (oldest : TheRequest) (waiting : List TheRequest) →
            self.old.volume.queue.queued ≡ oldest ∷ waiting →
            mounted_in self.new ≡ (after_complete (Err error) (mounted_in self.old) oldest waiting).mounted }
        ensures failure { IfErr result (λ refusal. is_failure refusal ≡ true) }
        ensures waits { IsErr result → self.new.volume.queue ≡ self.old.volume.queue }
        ensures ended { IfOk result (λ ticket. self.new.volume.queue ≡
            failed (with_outcome self.old.volume.queue (outcome_of error)) f) }
        ensures passed_on { passed_on error ≡ true → result ≡ Err (refusal_of error) }
        ensures still { passed_on error ≡ true → self.new ≡ self.old }
        ensures cause { passed_on error ≡ false → CallCause result self.old.device self.new.device }
    {
        if is_passed_on(error) {
            return Err(refusal(error));
        }
        let recovered = recover_file(
            &mut self.dev,
            &mut self.inodes,
            f,
            self.policy,
            false,
            &mut self.infos,
        );
        if let Err(lost) = recovered {
            return Err(refusal(lost));
        }
        Ok(end_failed(&mut self.queue, f, outcome(error)))
    }

    // ---- reap

    /// Takes the outcome of the request that ended first.
    ///
    /// Refused as `PowerLost` without power, and as `NothingDone` where there is none, in this order.
    #[tactic(auto, unfolding(zn_model::specs::Requests::reap_call))]
    pub fn reap(&mut self) -> Result<Done, Refusal>
        ensures reply { result ≡ (reap_call (mounted_in self.old)).reply }
        ensures mounted { mounted_in self.new ≡ (reap_call (mounted_in self.old)).mounted }
        ensures refused { IsRefusedBy (reap_refusal (mounted_in self.old)) result }
        ensures told { spoils result ≡ false }
        ensures device { self.new.device ≡ self.old.device }
    {
        if !self.dev.powered() {
            return Err(Refusal::PowerLost);
        }
        match self.queue.reap() {
            None => Err(Refusal::NothingDone),
            Some(done) => Ok(done),
        }
    }
}
