// The files, what each shows, and whether the file system is read-only.
ghost use Rattle.std.specs.Prelude.{◌≡◌, ◌+◌, ◌<◌, ◌≤◌, IsTrue, length, map, if◌then◌else◌, IfOk};
ghost use Rattle.zn_truth.specs.declared.limits.TheConstants.{MAX_ZONES};
ghost use Rattle.zn_model.specs.ZoneFiles.{files_of, room_of, place_of};
ghost use Rattle.zn_model.specs.Looks.{shown_active};
ghost use Rattle.zn_model.specs.Volume.{file_at, capacity_at, shown_at, with_shown};
ghost use Rattle.zn_model.specs.Recovery.{recovered_inodes};
ghost use Rattle.zn_model.specs.RecoveryLaws.{OthersStay};
ghost use Rattle.zn_inode.specs.Kept.{IsIndexTo, is_active_in, active_among};
ghost use Rattle.zn_inode.specs.Mounts.{AreInside, mounted_from as file_mounted, mounted_inodes};
ghost use Rattle.zn_inode.specs.Sizes.{IsWithinRoom};

use crate::shown::mounted_from;
use crate::{is_shown_active, makes_read_only, recovered_shown};
use std::alloc::{AllocError, Global};
use std::marker::Model;
use zn_model::{Cond, FileZones, Found, Place, Policy, Shape, Shown, ZoneInfo, ZoneNo};
use zn_report::Layout;

/// Puts what a mount shows of each file to its number, where a report of all zones told this.
fn show_mounted(shown: &mut [Shown], layout: &Layout, infos: &[ZoneInfo])
    requires places { length shown.old ≡ length (files_of layout.now) }
    requires inside { AreInside (length infos.now) layout.now }
    requires most { length infos.now ≤ MAX_ZONES }
    ensures { shown.new ≡ map (file_mounted infos.now) (files_of layout.now) }
{
    for f in 0..layout.files() {
        shown[f as usize] = mounted_from(&layout.zones_of(f), infos);
    }
}

/// Where each of so many zones is shown, by its number.
fn index_of(alloc: Global, layout: &Layout, zones: usize) -> Result<Vec<Place>, AllocError>
    requires { zones ≤ MAX_ZONES }
    ensures { IfOk result (λ places. IsIndexTo zones layout.now places.items) }
{
    let mut places = vec![in alloc; Place::Unplaced; zones]?;
    for z in 0..zones {
        places[z] = layout.place(ZoneNo(z as u32));
    }
    Ok(places)
}

/// Whether the file with this number is shown active.
fn is_active_at(layout: &Layout, shape: &Shape, shown: &[Shown], f: u32) -> bool
    requires known { f < length (files_of layout.now) }
    requires places { length shown.now ≡ length (files_of layout.now) }
    ensures { result ≡ is_active_in layout.now shape.now shown.now f }
{
    is_shown_active(shape, &layout.zones_of(f), &shown[f as usize])
}

/// How many files are shown active.
#[tactic(auto, using(crate::proofs::Counts::one_counted, crate::proofs::Counts::none_counted))]
fn count_active(layout: &Layout, shape: &Shape, shown: &[Shown]) -> u32
    requires { length shown.now ≡ length (files_of layout.now) }
    ensures { result ≡ active_among layout.now shape.now shown.now }
{
    let mut active = 0;
    for f in 0..layout.files() {
        if is_active_at(layout, shape, shown, f) {
            active += 1;
        }
    }
    active
}

/// A count of files where one of them changed, which counted before or not, and counts now or not.
fn recounted(count: u32, was: bool, is: bool) -> u32
    requires counted { IsTrue was → 1 ≤ count }
    requires few { count < MAX_ZONES }
    ensures { result + (if was then 1 else 0) ≡ count + (if is then 1 else 0) }
{
    count - u32::from(was) + u32::from(is)
}

/// The files by their numbers, on a device whose zones have this shape, and what each shows.
#[derive(Drop)]
pub struct Inodes {
    layout: Layout,
    shape: Shape,
    shown: Vec<Shown>,
    read_only: bool,
    /// Where each zone is shown, by its number.
    places: Vec<Place>,
    /// How many files are shown active.
    active: u32,
}

impl Model for Inodes {
    ghost use Rattle.zn_model.specs.Volume.{Inodes as TheInodes};
    ghost use Rattle.zn_inode.specs.Kept.{IsKept};

    ghost Value = { TheInodes };

    ghost view = { λ inodes. record {
      layout = inodes.layout;
      shape = inodes.shape;
      shown = inodes.shown.items;
      read_only = inodes.read_only;
    } };

    ghost invariant = { λ inodes. IsKept inodes.layout inodes.shape inodes.shown.items inodes.places.items inodes.active };
}

impl Inodes {
    /// The files of a layout, each with what a mount shows of it where a report of all zones told this; the file system
    /// may be written.
    pub fn new(
        alloc: Global,
        layout: Layout,
        infos: &[ZoneInfo],
        shape: Shape,
    ) -> Result<Inodes, AllocError>
        requires inside { AreInside (length infos.now) layout }
        requires most { length infos.now ≤ MAX_ZONES }
        ensures { IfOk result (λ inodes. inodes ≡ mounted_inodes layout shape infos.now) }
    {
        let nothing = Shown {
            size: 0,
            may_read: false,
            may_write: false,
            held_open: false,
        };
        let mut shown = vec![in alloc; nothing; layout.files() as usize]?;
        show_mounted(&mut shown, &layout, infos);
        let places = index_of(alloc, &layout, infos.len())?;
        let active = count_active(&layout, &shape, &shown);
        Ok(Inodes {
            layout,
            shape,
            shown,
            read_only: false,
            places,
            active,
        })
    }

    /// The same files as a mount leaves them where a report of all zones told this.
    pub fn mount(&mut self, infos: &[ZoneInfo])
        requires inside { AreInside (length infos.now) self.old.layout }
        requires most { length infos.now ≤ MAX_ZONES }
        ensures { self.new ≡ mounted_inodes self.old.layout self.old.shape infos.now }
    {
        show_mounted(&mut self.shown, &self.layout, infos);
        self.active = count_active(&self.layout, &self.shape, &self.shown);
        self.read_only = false;
    }

    /// How many files there are.
    pub fn files(&self) -> u32
        ensures count { result ≡ length (files_of self.now.layout) }
        ensures shown { result ≡ length self.now.shown }
        ensures most { result < MAX_ZONES }
    {
        self.layout.files()
    }

    /// How many files of `cnv` there are.
    pub fn cnv_files(&self) -> u32
        ensures count { result ≡ length self.now.layout.cnv }
        ensures most { result ≤ length (files_of self.now.layout) }
    {
        self.layout.cnv_files()
    }

    /// The shape of the device's zones.
    pub fn shape(&self) -> Shape
        ensures { result ≡ self.now.shape }
    {
        self.shape
    }

    pub fn file(&self, f: u32) -> FileZones
        requires { f < length (files_of self.now.layout) }
        ensures { result ≡ file_at self.now f }
    {
        self.layout.zones_of(f)
    }

    pub fn shown(&self, f: u32) -> Shown
        requires { f < length (files_of self.now.layout) }
        ensures { result ≡ shown_at self.now f }
    {
        self.shown[f as usize]
    }

    /// Where a zone is shown: zone 0 is the super block's, and a zone of no file has no place. It searches no files.
    #[tactic(auto, using(crate::proofs::Kept::place_of_first))]
    pub fn place(&self, z: ZoneNo) -> Place
        ensures { result ≡ place_of self.now.layout z.0 }
    {
        if z.0 == 0 {
            return Place::Super;
        }
        self.places
            .get(z.0 as usize)
            .copied()
            .unwrap_or(Place::Unplaced)
    }

    /// How many files are shown active: they are sequential, may be written, and are held open or shown partly full. It
    /// walks no files.
    pub fn active(&self) -> u32
        ensures count { result ≡ shown_active self.now }
        ensures most { result ≤ length (files_of self.now.layout) }
    {
        self.active
    }

    /// Whether the file system is read-only.
    pub fn read_only(&self) -> bool
        ensures { result ≡ self.now.read_only }
    {
        self.read_only
    }

    /// Sets what a file shows.
    pub fn set(&mut self, f: u32, shown: Shown)
        requires { f < length (files_of self.old.layout) }
        ensures set { self.new ≡ with_shown self.old f shown }
        ensures within { IsWithinRoom self.old → shown.size ≤ capacity_at self.old f → IsWithinRoom self.new }
    {
        let was = is_active_at(&self.layout, &self.shape, &self.shown, f);
        let is = is_shown_active(&self.shape, &self.layout.zones_of(f), &shown);
        self.active = recounted(self.active, was, is);
        self.shown[f as usize] = shown;
    }

    /// Changes a file, and with `remount-ro` the whole file system, by what was found of the file's zones: their worst
    /// condition, and the blocks that they hold.
    #[tactic(auto, unfolding(zn_model::specs::Recovery::recovered_inodes))]
    pub fn recover(&mut self, f: u32, policy: Policy, cond: Cond, held: u32)
        requires { f < length (files_of self.old.layout) }
        ensures recovered { self.new ≡ recovered_inodes policy (record { cond = cond; held = held }) self.old f }
        ensures others { OthersStay self.old self.new f }
        ensures within { IsWithinRoom self.old → held ≤ room_of self.old.shape (file_at self.old f)
            → IsWithinRoom self.new }
    {
        let found = Found {
            cond,
            held: u64::from(held),
        };
        let shown = recovered_shown(policy, &found, &self.shape(), &self.file(f), &self.shown(f));
        self.set(f, shown);
        self.read_only = self.read_only || makes_read_only(policy);
    }
}
