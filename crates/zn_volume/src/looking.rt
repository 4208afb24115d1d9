// Calls that look, and the changes that are never allowed.
ghost use Rattle.std.specs.Prelude.{◌≡◌, ◌<◌, ◌≤◌, length, false, option_map, All, AllPairs, IsOk, IsErrOf};
ghost use Rattle.zn_base.specs.Causes.{Rose};
ghost use Rattle.zn_truth.specs.World.{geometry_of};
ghost use Rattle.zn_model.specs.declared.limits.TheConstants.{MAX_HANDLES};
ghost use Rattle.zn_model.specs.declared.answers.Refusal.TheVariants.{IoError};
ghost use Rattle.zn_model.specs.ZoneFiles.{files_of, listing_of};
ghost use Rattle.zn_model.specs.Looks.{stat_call, entries_call, attr_call, file_stat, directory_stat, mode_of as shown_mode, change_refusal};
ghost use Rattle.zn_model.specs.Looks.{all_infos, report_call, place_in};
ghost use Rattle.zn_model.specs.Access.{unwritable as without_write};
ghost use Rattle.zn_volume.specs.Refusals.{IsRefusedBy, stat_refusal, entries_refusal, attr_refusal};
ghost use Rattle.zn_volume.specs.Causes.{CallCause};
ghost use Rattle.zn_volume.specs.Means.{spoils};
ghost use Rattle.zn_volume.specs.Reports.{as_reported, report_refusal};
ghost use Rattle.zn_volume.specs.VolumeState.{mounted_in};

use crate::paths::entries_of_path;
use crate::reporting::report;
use crate::volume::Volume;
use zn_device::Zoned;
use zn_inode::room;
use zn_model::{Attr, Place, Refusal, Shown, Stat};
use zn_truth::{ZoneInfo, ZoneNo};

/// An octal digit without the right to write.
fn unwritable(digit: u32) -> u32
    requires { digit < 8 }
    ensures value { result ≡ without_write digit }
    ensures small { result < 8 }
{
    digit / 4 % 2 * 4 + digit % 2
}

/// The permissions that `stat` tells of a file.
fn mode_of(perm: u32, shown: &Shown) -> u32
    ensures { result ≡ shown_mode perm shown.now }
{
    if !shown.may_read {
        0
    } else if shown.may_write {
        perm
    } else {
        unwritable(perm / 64 % 8) * 64 + unwritable(perm / 8 % 8) * 8 + unwritable(perm % 8)
    }
}

impl<D: Zoned + Drop> Volume<D> {
    /// What is told of the file or directory of a path.
    ///
    /// Refused as `PowerLost` without power, and as `NoSuchFile` where there is none.
    #[tactic(auto, unfolding(zn_model::specs::Looks::stat_call))]
    pub fn stat(&self, path: &str) -> Result<Stat, Refusal>
        ensures reply { result ≡ (stat_call (mounted_in self.now) path.now).reply }
        ensures refused { IsRefusedBy (stat_refusal (mounted_in self.now) path.now) result }
        ensures told { spoils result ≡ false }
    {
        if !self.dev.powered() {
            return Err(Refusal::PowerLost);
        }
        if let Some(entries) = self.entries_of(path) {
            return Ok(directory_stat(entries));
        }
        match self.file_of(path) {
            Some(f) => Ok(self.file_stat(f)),
            None => Err(Refusal::NoSuchFile),
        }
    }

    fn file_stat(&self, f: u32) -> Stat
        requires { f < length (files_of self.now.volume.inodes.layout) }
        ensures { result ≡ file_stat self.now.volume f }
    {
        let file = self.inodes.file(f);
        let shown = self.inodes.shown(f);
        let owner = self.owner();
        Stat {
            dir: false,
            zone: file.first,
            zones: file.zones,
            size: shown.size,
            blocks: 8 * room(&self.inodes.shape(), &file),
            mode: mode_of(self.perm(), &shown),
            uid: owner.uid,
            gid: owner.gid,
            writers: self.handles.writers(f),
        }
    }

    /// How many entries the directory of a path has, where it is one.
    fn entries_of(&self, path: &str) -> Option<u32>
        ensures { result ≡ option_map length (listing_of self.now.volume.inodes.layout path.now) }
    {
        let cnv = self.inodes.cnv_files();
        entries_of_path(path.as_bytes(), cnv, self.inodes.files() - cnv)
    }

    /// The number of entries of the directory of a path.
    ///
    /// Refused as `PowerLost` without power, and as `NoSuchFile` where it isn't one.
    #[tactic(auto, unfolding(zn_model::specs::Looks::entries_call))]
    pub fn entries(&self, path: &str) -> Result<u32, Refusal>
        ensures reply { result ≡ (entries_call (mounted_in self.now) path.now).reply }
        ensures refused { IsRefusedBy (entries_refusal (mounted_in self.now) path.now) result }
        ensures told { spoils result ≡ false }
    {
        if !self.dev.powered() {
            return Err(Refusal::PowerLost);
        }
        self.entries_of(path).ok_or(Refusal::NoSuchFile)
    }

    /// The device's limits on open and active zones, 0 for none, and how many sequential files are open for writing and
    /// are shown active.
    ///
    /// Refused as `PowerLost` without power.
    #[tactic(auto, unfolding(zn_model::specs::Looks::attr_call, zn_truth::specs::World::geometry_of))]
    pub fn attr(&self) -> Result<Attr, Refusal>
        ensures reply { result ≡ (attr_call (mounted_in self.now)).reply }
        ensures refused { IsRefusedBy (attr_refusal (mounted_in self.now)) result }
        ensures told { spoils result ≡ false }
    {
        if !self.dev.powered() {
            return Err(Refusal::PowerLost);
        }
        let shape = self.dev.shape();
        Ok(Attr {
            max_wro: shape.max_open,
            nr_wro: self.wro(),
            max_active: shape.max_active,
            nr_active: self.inodes.active(),
        })
    }

    /// Tells what each zone is, by one report of all zones. It takes no memory, and no recovery follows its failure.
    /// Where it is refused, nothing is said of `out`.
    ///
    /// Refused as `PowerLost` without power. A failed command is told as `IoError`, `PowerLost`, `Broken` or `Memory`.
    #[tactic(auto, using(crate::proofs::Causing::still_caused))]
    pub fn report(&mut self, out: &mut [ZoneInfo]) -> Result<(), Refusal>
        requires places { length out.old ≡ length (geometry_of self.old.device.world).kinds }
        requires unspoilt { self.old.device.spoilt ≡ false }
        ensures reply { self.new.device.spoilt ≡ false →
            as_reported result out.new ≡ (report_call (mounted_in self.old)).reply }
        ensures mounted { self.new.device.spoilt ≡ false →
            mounted_in self.new ≡ (report_call (mounted_in self.old)).mounted }
        ensures infos { IsOk result → out.new ≡ all_infos self.old.device.world.truth }
        ensures refused { IsRefusedBy (report_refusal (mounted_in self.old)) result }
        ensures io_error { IsErrOf result IoError → Rose self.old.device.faults self.new.device.faults }
        ensures cause { CallCause result self.old.device self.new.device }
    {
        if !self.dev.powered() {
            return Err(Refusal::PowerLost);
        }
        report(&mut self.dev, out)
    }

    /// Where a zone is shown: zone 0 in the super block's place, each other zone in the file that has it.
    pub fn place(&self, z: ZoneNo) -> Place
        ensures { result ≡ place_in self.now.volume z.0 }
    {
        self.inodes.place(z)
    }

    /// How many files `cnv` has, and how many `seq`.
    pub fn files(&self) -> (u32, u32)
        ensures cnv { result.0 ≡ length self.now.volume.inodes.layout.cnv }
        ensures seq { result.1 ≡ length self.now.volume.inodes.layout.seq }
    {
        let cnv = self.inodes.cnv_files();
        (cnv, self.inodes.files() - cnv)
    }

    /// How many handles are live.
    pub fn live(&self) -> u32
        ensures count { result ≡ length self.now.volume.handles.live }
        ensures limit { result ≤ MAX_HANDLES }

        // Each has a generation of its own, below the next one, and those opened later have greater ones.
        ensures older { All (λ live. live.handle.generation < self.now.volume.handles.opened)
            self.now.volume.handles.live }
        ensures rising { AllPairs (λ a b. a.handle.generation < b.handle.generation) self.now.volume.handles.live }
    {
        self.handles.live()
    }

    /// How many handles were opened since the mount: the generation of the next one.
    pub fn opened(&self) -> u64
        ensures { result ≡ self.now.volume.handles.opened }
    {
        self.handles.opened()
    }

    /// A change of names or attributes is always refused, as `NotAllowed`.
    pub fn change(&self) -> Refusal
        ensures { result ≡ change_refusal }
    {
        Refusal::NotAllowed
    }
}

fn directory_stat(entries: u32) -> Stat
    ensures { result ≡ directory_stat entries }
{
    Stat {
        dir: true,
        zone: 0,
        zones: 0,
        size: u64::from(entries),
        blocks: 0,
        mode: 0,
        uid: 0,
        gid: 0,
        writers: 0,
    }
}
