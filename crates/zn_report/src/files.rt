// The files of a volume, as the zones that each has.
ghost use Rattle.std.specs.Prelude.{◌≡◌, ◌+◌, ◌<◌, ◌≤◌, [], length, nat_le, All, OnOk, OnErr, if◌then◌else◌, slice_index_or};
ghost use Rattle.std.specs.List.{position};
ghost use Rattle.zn_truth.specs.declared.limits.TheConstants.{MAX_ZONES};
ghost use Rattle.zn_model.specs.ZoneFiles.{files_of, has_zone as is_zone_of, place_of};
ghost use Rattle.zn_model.specs.Volume.{no_file};
ghost use Rattle.zn_report.specs.Layouts.{no_files, with_file, end_of, AreInOrder};

use std::alloc::{AllocError, Global};
use std::marker::Model;
use zn_model::{FileZones, Place, ZoneNo};

/// Whether a zone is one of the file's.
fn has_zone(file: &FileZones, z: ZoneNo) -> bool
    ensures { result ≡ is_zone_of z.0 file.now }
{
    file.first <= z.0 && z.0 - file.first < file.zones
}

/// Whether all of a file's zones are before this one.
fn ends_before(file: &FileZones, z: ZoneNo) -> bool
    ensures { result ≡ nat_le (end_of file.now) z.0 }
{
    file.first <= z.0 && file.zones <= z.0 - file.first
}

/// Which of these files has a zone. It halves what is left at each step.
fn file_of(files: &[FileZones], z: ZoneNo) -> Option<u32>
    requires most { length files.now < MAX_ZONES }
    requires order { AreInOrder files.now }
    ensures { result ≡ position (is_zone_of z.0) files.now }
{
    let i = files.partition_point(|file| ends_before(file, z));
    if i < files.len() && has_zone(&files[i], z) {
        Some(i as u32)
    } else {
        None
    }
}

/// The files of `cnv` and those of `seq`, each of which lies behind those before it. Files are numbered from 0 on, those
/// of `cnv` first.
#[derive(Drop)]
pub struct Layout {
    cnv: Vec<FileZones>,
    seq: Vec<FileZones>,
}

impl Model for Layout {
    ghost use Rattle.zn_model.specs.ZoneFiles.{Layout as TheLayout};
    ghost use Rattle.zn_report.specs.Layouts.{IsKept};

    ghost Value = { TheLayout };

    ghost view = { λ layout. record { cnv = layout.cnv.items; seq = layout.seq.items } };

    ghost invariant = { λ layout. IsKept layout.cnv.items layout.seq.items };
}

impl Layout {
    /// No files. It takes no memory.
    pub fn new(alloc: Global) -> Layout
        ensures { result ≡ no_files }
    {
        Layout {
            cnv: Vec::new(alloc),
            seq: Vec::new(alloc),
        }
    }

    /// Puts a file behind the others of its kind. For want of memory the files stay as they are.
    pub fn add(&mut self, run: FileZones) -> Result<(), AllocError>
        requires most { length (files_of self.old) + 1 < MAX_ZONES }
        requires behind { All (λ file. end_of file ≤ run.first) (if run.seq then self.old.seq else self.old.cnv) }
        ensures added { OnOk result (self.new ≡ with_file self.old run) }
        ensures kept { OnErr result (self.new ≡ self.old) }
    {
        if run.seq {
            self.seq.push(run)?;
        } else {
            self.cnv.push(run)?;
        }
        Ok(())
    }

    /// How many files there are.
    pub fn files(&self) -> u32
        ensures count { result ≡ length (files_of self.now) }
        ensures most { length (files_of self.now) < MAX_ZONES }
    {
        (self.cnv.len() + self.seq.len()) as u32
    }

    /// How many files of `cnv` there are.
    pub fn cnv_files(&self) -> u32
        ensures count { result ≡ length self.now.cnv }
        ensures most { length (files_of self.now) < MAX_ZONES }
    {
        self.cnv.len() as u32
    }

    /// The zones of the file with this number.
    pub fn zones_of(&self, file: u32) -> FileZones
        requires { file < length (files_of self.now) }
        ensures { result ≡ slice_index_or (files_of self.now) file no_file }
    {
        let f = file as usize;
        if f < self.cnv.len() {
            self.cnv[f]
        } else {
            self.seq[f - self.cnv.len()]
        }
    }

    /// Where a zone is shown: zone 0 is the super block's, and a zone of no file has no place.
    #[tactic(auto, unfolding(zn_model::specs::ZoneFiles::place_of))]
    pub fn place(&self, z: ZoneNo) -> Place
        ensures { result ≡ place_of self.now z.0 }
    {
        if z.0 == 0 {
            return Place::Super;
        }
        if let Some(i) = file_of(&self.cnv, z) {
            return Place::Cnv(i);
        }
        match file_of(&self.seq, z) {
            Some(i) => Place::Seq(i),
            None => Place::Unplaced,
        }
    }
}
