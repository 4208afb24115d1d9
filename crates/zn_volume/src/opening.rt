// Opens and closes.
ghost use Rattle.std.specs.Prelude.{◌≡◌, ◌≤◌, ◌<◌, ◌^◌, ◌&&◌, length, Some, true, false, IfErr, IfSome, IfNone};
ghost use Rattle.zn_truth.specs.Truth.{is_reached as limit_reached};
ghost use Rattle.zn_model.specs.ZoneFiles.{files_of, file_named};
ghost use Rattle.zn_model.specs.Volume.{Live, file_at, shown_at, live_at, next_handle, with_live, wro};
ghost use Rattle.zn_model.specs.OpenClose.{open_call, open_by, open_now, opened, opening_refusal, begins_writing as does_begin_writing, is_limit as is_limit_of, close_call, close_by, close_now, held_open};
ghost use Rattle.zn_volume.specs.Causes.{CallCause};
ghost use Rattle.zn_volume.specs.VolumeState.{mounted_in};
ghost use Rattle.zn_volume.specs.Closing.{Closes, held_closed};
ghost use Rattle.zn_volume.specs.Refusals.{is_failure, IsRefusedBy, open_refusal, close_refusal};
ghost use Rattle.zn_volume.specs.IoErrors.{IoErrorCause, IoErrorThrough};
ghost use Rattle.zn_volume.specs.Means.{key_in};

use crate::paths::file_of_path;
use crate::volume::{Volume, refusal};
use bitflags::Flags;
use zn_device::Zoned;
use zn_handle::{Open, access};
use zn_model::{Handle, MAX_HANDLES, Mode, Refusal, Who};
use zn_truth::{DevError, ZoneNo, ZoneOp, is_reached};

/// Whether a limit of the device refused a command.
fn is_limit(error: DevError) -> bool
    ensures { result ≡ is_limit_of error }
{
    matches!(error, DevError::TooManyActive | DevError::TooManyOpen)
}

impl<D: Zoned + Drop> Volume<D> {
    /// Opens the file of a path, in a mode, for someone.
    ///
    /// Refused as `PowerLost` without power, `NoSuchFile` where no file has the path, `TooManyHandles` at 1,024 live
    /// handles, `FsReadOnly`, `FileOffline` or `FileReadOnly` by the rights, `Denied` by the permissions,
    /// `TooManyWriters` at the limit on sequential files open for writing, in this order. A zone command that a
    /// limit refuses is told as `TooManyActive` or `TooManyOpen`; any other failure as `IoError`, `PowerLost`,
    /// `Broken` or `Memory`, and recovery follows.
    #[tactic(auto, using(crate::proofs::Causing::still_caused), unfolding(zn_model::specs::OpenClose::open_call))]
    pub fn open(&mut self, path: &str, mode: Mode, who: Who) -> Result<Handle, Refusal>
        requires unspoilt { self.old.device.spoilt ≡ false }
        requires opened { self.old.volume.handles.opened < 2 ^ 63 }
        ensures reply { self.new.device.spoilt ≡ false →
            result ≡ (open_call (mounted_in self.old) (key_in result) path.now mode who).reply }
        ensures mounted { self.new.device.spoilt ≡ false →
            mounted_in self.new ≡ (open_call (mounted_in self.old) (key_in result) path.now mode who).mounted }
        ensures refused { IsRefusedBy (open_refusal (mounted_in self.old) path.now mode who) result }
        ensures io_error { IfSome (file_named self.old.volume.inodes.layout path.now)
            (λ f. IoErrorCause result self.old.volume.inodes f self.old.device self.new.device) }
        ensures cause { CallCause result self.old.device self.new.device }
    {
        if !self.dev.powered() {
            return Err(Refusal::PowerLost);
        }
        match self.file_of(path) {
            None => Err(Refusal::NoSuchFile),
            Some(f) => self.open_by(f, mode, who),
        }
    }

    /// The file of a path.
    pub(crate) fn file_of(&self, path: &str) -> Option<u32>
        ensures named { result ≡ file_named self.now.volume.inodes.layout path.now }
        ensures known { IfSome result (λ f. f < length (files_of self.now.volume.inodes.layout)) }
    {
        let cnv = self.inodes.cnv_files();
        file_of_path(path.as_bytes(), cnv, self.inodes.files() - cnv)
    }

    /// Opens a file, if the checks let it.
    #[tactic(auto, using(crate::proofs::Causing::checked_caused, crate::proofs::IoErrors::checked_io))]
    fn open_by(&mut self, f: u32, mode: Mode, who: Who) -> Result<Handle, Refusal>
        requires known { f < length (files_of self.old.volume.inodes.layout) }
        requires unspoilt { self.old.device.spoilt ≡ false }
        requires opened { self.old.volume.handles.opened < 2 ^ 63 }
        ensures reply { self.new.device.spoilt ≡ false →
            result ≡ (open_by (Some f) (mounted_in self.old) (key_in result) mode who).reply }
        ensures mounted { self.new.device.spoilt ≡ false →
            mounted_in self.new ≡ (open_by (Some f) (mounted_in self.old) (key_in result) mode who).mounted }
        ensures refused { IsRefusedBy
            (opening_refusal self.old.device.world.truth.shape.max_open self.old.volume f mode who) result }
        ensures io_error { IoErrorCause result self.old.volume.inodes f self.old.device self.new.device }
        ensures cause { CallCause result self.old.device self.new.device }
    {
        match self.opening_refusal(f, mode, who) {
            Some(refusal) => Err(refusal),
            None => self.open_now(f, mode),
        }
    }

    /// Whether this open is the first for writing of a sequential file, on a volume with explicit opens.
    fn begins_writing(&self, f: u32, mode: Mode) -> bool
        requires known { f < length (files_of self.now.volume.inodes.layout) }
        ensures { result ≡ does_begin_writing self.now.volume f mode }
    {
        self.explicit_open
            && mode.contains(Mode::WRITE)
            && self.inodes.file(f).seq
            && self.handles.writers(f) == 0
    }

    /// The first refusal of an open.
    #[tactic(auto, unfolding(zn_model::specs::OpenClose::opening_refusal))]
    fn opening_refusal(&self, f: u32, mode: Mode, who: Who) -> Option<Refusal>
        requires known { f < length (files_of self.now.volume.inodes.layout) }
        ensures is { result ≡ opening_refusal self.now.device.world.truth.shape.max_open self.now.volume f mode who }
        ensures told { IfSome result (λ refusal. is_failure refusal ≡ false) }
        ensures room { IfNone result (length self.now.volume.handles.live < MAX_HANDLES) }
    {
        let shown = self.inodes.shown(f);
        let writes = mode.contains(Mode::WRITE);
        if self.handles.live() >= MAX_HANDLES {
            Some(Refusal::TooManyHandles)
        } else if writes && self.inodes.read_only() {
            Some(Refusal::FsReadOnly)
        } else if !shown.may_read {
            Some(Refusal::FileOffline)
        } else if writes && !shown.may_write {
            Some(Refusal::FileReadOnly)
        } else if !access(self.perm(), self.owner(), who, mode) {
            Some(Refusal::Denied)
        } else if self.is_at_limit(f, mode) {
            Some(Refusal::TooManyWriters)
        } else {
            None
        }
    }

    /// How many sequential files are open for writing.
    pub(crate) fn wro(&self) -> u32
        ensures { result ≡ wro self.now.volume }
    {
        self.handles.wro()
    }

    /// The device's limit on open zones.
    #[tactic(auto, unfolding(zn_truth::specs::World::geometry_of))]
    fn max_open(&self) -> u32
        ensures { result ≡ self.now.device.world.truth.shape.max_open }
    {
        self.dev.shape().max_open
    }

    /// Whether the limit on sequential files open for writing refuses an open.
    fn is_at_limit(&self, f: u32, mode: Mode) -> bool
        requires known { f < length (files_of self.now.volume.inodes.layout) }
        ensures { result ≡ (does_begin_writing self.now.volume f mode &&
            limit_reached self.now.device.world.truth.shape.max_open (wro self.now.volume)) }
    {
        self.begins_writing(f, mode) && is_reached(self.max_open(), self.wro() as usize)
    }

    /// Makes a handle.
    fn insert(&mut self, f: u32, mode: Mode) -> Handle
        requires known { f < length (files_of self.old.volume.inodes.layout) }
        requires opened { self.old.volume.handles.opened < 2 ^ 63 }
        requires room { length self.old.volume.handles.live < MAX_HANDLES }
        ensures handle { result ≡ next_handle self.old.volume.handles result.key }
        ensures volume { self.new ≡
            record self.old { volume = (opened (mounted_in self.old) result.key f mode).mounted.volume } }
    {
        match self.handles.insert(f, mode) {
            Ok(h) => h,
            Err(_) => unreachable!(),
        }
    }

    /// Opens a file after the checks: with a zone command, for the first writer of one that isn't shown full.
    #[tactic(auto, using(crate::proofs::Causing::spoils_alike, crate::proofs::Causing::still_caused, crate::proofs::Causing::answered_caused, crate::proofs::Causing::failed_caused, crate::proofs::IoErrors::done_io, zn_device::proofs::Ordered::ordered_one, crate::proofs::Keeping::manageable), unfolding(zn_model::specs::OpenClose::open_now))]
    fn open_now(&mut self, f: u32, mode: Mode) -> Result<Handle, Refusal>
        requires known { f < length (files_of self.old.volume.inodes.layout) }
        requires unspoilt { self.old.device.spoilt ≡ false }
        requires opened { self.old.volume.handles.opened < 2 ^ 63 }
        requires room { length self.old.volume.handles.live < MAX_HANDLES }
        ensures reply { self.new.device.spoilt ≡ false →
            result ≡ (open_now (mounted_in self.old) (key_in result) f mode).reply }
        ensures mounted { self.new.device.spoilt ≡ false →
            mounted_in self.new ≡ (open_now (mounted_in self.old) (key_in result) f mode).mounted }
        ensures failure { IfErr result (λ refusal. is_failure refusal ≡ true) }
        ensures io_error { IoErrorCause result self.old.volume.inodes f self.old.device self.new.device }
        ensures cause { CallCause result self.old.device self.new.device }
    {
        if !self.begins_writing(f, mode) || self.inodes.shown(f).size == self.capacity(f) {
            return Ok(self.insert(f, mode));
        }
        let zone = ZoneNo(self.inodes.file(f).first);
        match self.dev.manage(zone, ZoneOp::Open) {
            Ok(()) => {
                self.hold_open(f, true);
                Ok(self.insert(f, mode))
            }
            Err(error) if is_limit(error) => Err(refusal(error)),
            Err(error) => Err(self.recover(f, error, false)),
        }
    }

    /// Notes whether a file is held open.
    fn hold_open(&mut self, f: u32, held: bool)
        requires known { f < length (files_of self.old.volume.inodes.layout) }
        requires sequential { held ≡ true → (file_at self.old.volume.inodes f).seq ≡ true }
        ensures { self.new ≡ record self.old {
          volume = record self.old.volume {
            inodes = held_open
                self.old.volume.inodes f held;
          };
        } }
    {
        let mut shown = self.inodes.shown(f);
        shown.held_open = held;
        self.inodes.set(f, shown);
    }

    /// Ends a handle.
    ///
    /// Refused as `PowerLost` without power, as `BadHandle` where it isn't live, and as `Busy` where a request waits that
    /// was submitted through it, in this order. The last close for writing of a
    /// file that is held open closes its zone, and ends the handle whatever that answers: a failed command is told
    /// as `IoError`, `TooManyActive`, `TooManyOpen`, `PowerLost`, `Broken` or `Memory`, and recovery follows.
    #[tactic(auto, using(crate::proofs::Causing::still_caused), unfolding(zn_model::specs::OpenClose::close_call))]
    pub fn close(&mut self, h: Handle) -> Result<(), Refusal>
        requires unspoilt { self.old.device.spoilt ≡ false }
        ensures reply { self.new.device.spoilt ≡ false → result ≡ (close_call (mounted_in self.old) h).reply }
        ensures mounted { self.new.device.spoilt ≡ false →
            mounted_in self.new ≡ (close_call (mounted_in self.old) h).mounted }
        ensures refused { IsRefusedBy (close_refusal (mounted_in self.old) h) result }
        ensures io_error { IoErrorThrough h result self.old self.new }
        ensures cause { CallCause result self.old.device self.new.device }
    {
        if !self.dev.powered() {
            return Err(Refusal::PowerLost);
        }
        match self.handles.get(h) {
            None => Err(Refusal::BadHandle),
            Some(_) if self.waits_through(h) => Err(Refusal::Busy),
            Some(on) => {
                let _ = self.handles.remove(h);
                self.close_zone(&on)
            }
        }
    }

    /// Closes the zone of a file whose last writer has ended, where it is held open.
    #[tactic(auto, using(crate::proofs::Causing::still_caused, crate::proofs::IoErrors::done_io))]
    fn close_zone(&mut self, on: &Open) -> Result<(), Refusal>
        requires known { on.now.file < length (files_of self.old.volume.inodes.layout) }
        requires unspoilt { self.old.device.spoilt ≡ false }
        ensures failure { IfErr result (λ refusal. is_failure refusal ≡ true) }
        ensures io_error { IoErrorCause result self.old.volume.inodes on.now.file self.old.device self.new.device }
        ensures cause { CallCause result self.old.device self.new.device }
        ensures closed { self.new.device.spoilt ≡ false →
            Closes on.now result (mounted_in self.old) (mounted_in self.new) }
    {
        let f = on.file;
        if !on.mode.contains(Mode::WRITE)
            || self.handles.writers(f) > 0
            || !self.inodes.shown(f).held_open
        {
            return Ok(());
        }
        self.end_hold(f)
    }

    /// Closes the zone of a file that is held open.
    #[tactic(auto, using(crate::proofs::Causing::spoils_alike, crate::proofs::Causing::answered_caused, crate::proofs::Causing::failed_caused, crate::proofs::IoErrors::done_io, zn_device::proofs::Ordered::ordered_one, crate::proofs::Keeping::manageable), unfolding(crate::specs::Closing::held_closed))]
    fn end_hold(&mut self, f: u32) -> Result<(), Refusal>
        requires known { f < length (files_of self.old.volume.inodes.layout) }
        requires held { (shown_at self.old.volume.inodes f).held_open ≡ true }
        requires unspoilt { self.old.device.spoilt ≡ false }
        ensures reply { self.new.device.spoilt ≡ false → result ≡ (held_closed (mounted_in self.old) f).reply }
        ensures mounted { self.new.device.spoilt ≡ false →
            mounted_in self.new ≡ (held_closed (mounted_in self.old) f).mounted }
        ensures failure { IfErr result (λ refusal. is_failure refusal ≡ true) }
        ensures io_error { IoErrorCause result self.old.volume.inodes f self.old.device self.new.device }
        ensures cause { CallCause result self.old.device self.new.device }
    {
        let zone = ZoneNo(self.inodes.file(f).first);
        self.hold_open(f, false);
        match self.dev.manage(zone, ZoneOp::Close) {
            Ok(()) => Ok(()),
            Err(error) => Err(self.recover(f, error, false)),
        }
    }
}
