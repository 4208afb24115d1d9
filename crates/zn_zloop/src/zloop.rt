// A zoned device over a directory.
ghost use Rattle.std.specs.Prelude.{◌≡◌, not};
ghost use Rattle.zn_truth.specs.Obeying.{is_answered};
ghost use Rattle.zn_truth.specs.Fresh.{fresh_zone};
ghost use Rattle.zn_zone.proofs.Within.{calm_within};
ghost use Rattle.zn_files.specs.States.{directory};
ghost use Rattle.zn_zloop.specs.Telling.{IsZloop, zloop_prop};

use crate::commands::{manage_zone, write_zone};
use crate::flush::flush_zones;
use crate::harm::{durable_kept, rest_zones, scrub_zone, settle_zone};
use crate::kept::Kept;
use crate::open::{OpenFail, Start, start_of};
use crate::reading::{read_zone, report_zones};
use crate::turn::turn_zone;
use std::alloc::Global;
use zn_backing::{CreateError, OpenError, look, zone_name};
use zn_device::{Harm, Zoned};
use zn_files::Files;
use zn_stand::Geometry;
use zn_truth::{Cond, DevError, Kind, Shape, ZoneInfo, ZoneNo, ZoneOp};
use zn_zone::Zones;

/// A zoned device that keeps the bytes of each zone in a file of a directory, and its zones' conditions itself.
#[derive(Drop)]
pub struct Zloop<F: Files> {
    files: F,
    zones: Zones,
    kepts: Vec<Kept>,
    /// The zones whose files changed since their last sync, each once; maybe some others.
    listed: Vec<u32>,
    /// A call on the files failed, or lacked memory.
    is_spoilt: bool,
    ghost holds: { IsZloop is_spoilt (directory (F.state files)) zones kepts.items listed.items } by { zloop_prop is_spoilt (directory (F.state files)) zones kepts.items listed.items },
}

/// Whether a command broke, or lacked memory.
fn is_failure(reply: &Result<(), DevError>) -> bool
    ensures { result ≡ not (is_answered reply.now) }
{
    matches!(reply, Err(DevError::Broken | DevError::Memory))
}

impl<F: Files> Zloop<F> {
    ghost use Rattle.std.specs.Prelude.{◌≡◌, Some, false, IfOk, IfErr};
    ghost use Rattle.zn_stand.specs.Directory.{Directory, Contents, contents, IsImageOf};
    ghost use Rattle.zn_stand.specs.Standing.{StandsFor};
    ghost use Rattle.zn_zloop.specs.Losing.{StandsLost};
    ghost use Rattle.zn_backing.specs.Creating.{Creates};
    ghost use Rattle.zn_zloop.specs.Opening.{Opened, LeftShut};
    ghost use Rattle.zn_zloop.specs.Telling.{state_told, truth_told};

    /// Makes a device in an empty directory, as `zn_backing::create` does: good zones, sequential ones empty,
    /// conventional ones full of zeros, and the file `device` last.
    pub fn create(alloc: Global, files: &mut F, geo: &Geometry) -> Result<(), CreateError>
        ensures { Creates geo.now result (F.state files.old) (F.state files.new) }
    {
        zn_backing::create(alloc, files, geo)
    }

    /// Takes a directory as the device that it stands for. Each of its files is synced once, in the order of names; no
    /// byte of a zone's file is read, and none is changed. At Ok all that the device holds is durable, and no zone is
    /// explicitly open. At Err the directory is given back. The first cause is told: the directory stands for no device
    /// (`NotADevice`, `BadGeometry`, `MissingFile`, `BadZoneFile`, `ExtraName`, `TooManyActive`), and its files are
    /// synced; a call on a file failed (`Fault`), or memory is wanting (`Memory`), and any of them may be.
    pub fn open(alloc: Global, files: F) -> Result<Zloop<F>, OpenFail<F>>
        ensures opened { IfOk result (λ device. Opened
            (state_told device.is_spoilt (F.state device.files) device.zones device.kepts.items)
            (F.state files) (F.state device.files)) }
        ensures left { IfErr result (λ fail. LeftShut fail.why (F.state files) (F.state fail.files)) }
    {
        let mut files = files;
        let found = match look(alloc, &mut files) {
            Ok(found) => found,
            Err(why) => return Err(OpenFail { files, why }),
        };
        match start_of(alloc, &found) {
            Ok(Start { zones, kepts }) => Ok(Zloop {
                files,
                zones,
                kepts,
                listed: Vec::new(alloc),
                is_spoilt: false,
            }),
            Err(_) => Err(OpenFail {
                files,
                why: OpenError::Memory,
            }),
        }
    }

    /// Where contents are told, the directory stands for what the device tells, unless a command answered `Broken` or
    /// `Memory`.
    pub fn stands(&self)
        ensures { (d : Directory) → self.now.is_spoilt ≡ false → directory (F.state self.now.files) ≡ Some d →
            StandsFor (contents d)
            (truth_told self.now.is_spoilt (directory (F.state self.now.files)) self.now.zones self.now.kepts.items) }
    {
        let _ = self.is_spoilt;
    }

    /// Where contents are told, what a stop leaves now stands for the device after a loss of power, unless a command
    /// answered `Broken` or `Memory`.
    pub fn stops(&self)
        ensures { (d : Directory) (image : Contents) → self.now.is_spoilt ≡ false →
            directory (F.state self.now.files) ≡ Some d → IsImageOf d image → StandsLost
            (truth_told self.now.is_spoilt (directory (F.state self.now.files)) self.now.zones self.now.kepts.items)
            image }
    {
        let _ = self.is_spoilt;
    }

    /// The directory as it is. No call is made on it.
    pub fn into_files(self) -> F
        ensures files { result ≡ self.files }
        ensures stands { (d : Directory) → self.is_spoilt ≡ false → directory (F.state result) ≡ Some d →
            StandsFor (contents d)
            (truth_told self.is_spoilt (directory (F.state result)) self.zones self.kepts.items) }
    {
        let Zloop { files, .. } = self;
        files
    }
}

#[tactic(auto, unfolding(zn_truth::specs::World::geometry_of))]
impl<F: Files> Zoned for Zloop<F> {
    ghost use Rattle.zn_zloop.specs.Telling.{state_told, truth_told};

    ghost state = { λ d. state_told d.is_spoilt (F.state d.files) d.zones d.kepts.items };

    ghost is_sound = { λ d. d.holds.sound };

    ghost is_within = { λ d. calm_within (truth_told d.is_spoilt (directory (F.state d.files)) d.zones d.kepts.items) d.holds.within };

    fn zones(&self) -> u32 {
        self.zones.zones()
    }

    fn shape(&self) -> Shape {
        self.zones.shape()
    }

    fn kind(&self, z: ZoneNo) -> Kind {
        self.zones.kind(z)
    }

    fn report(&mut self, first: ZoneNo, out: &mut [ZoneInfo]) -> Result<(), DevError> {
        report_zones(&self.zones, first, out);
        Ok(())
    }

    fn read(&mut self, z: ZoneNo, at: u32, out: &mut [u8]) -> Result<(), DevError> {
        let mut text = [0; 10];
        let name = zone_name(self.zones.kind(z), z, &mut text);
        let reply = read_zone(
            &mut self.files,
            &self.zones,
            &self.kepts,
            &self.listed,
            name,
            z,
            at,
            out,
        );
        self.is_spoilt = is_failure(&reply);
        reply
    }

    fn write(&mut self, z: ZoneNo, at: u32, bytes: &[u8]) -> Result<(), DevError> {
        let mut text = [0; 10];
        let name = zone_name(self.zones.kind(z), z, &mut text);
        let reply = write_zone(
            &mut self.files,
            &mut self.zones,
            &mut self.kepts,
            &mut self.listed,
            name,
            z,
            at,
            bytes,
        );
        self.is_spoilt = is_failure(&reply);
        reply
    }

    fn manage(&mut self, z: ZoneNo, op: ZoneOp) -> Result<(), DevError> {
        let mut text = [0; 10];
        let name = zone_name(self.zones.kind(z), z, &mut text);
        let reply = manage_zone(
            &mut self.files,
            &mut self.zones,
            &mut self.kepts,
            &self.listed,
            name,
            z,
            op,
        );
        self.is_spoilt = is_failure(&reply);
        reply
    }

    fn flush(&mut self) -> Result<(), DevError> {
        let reply = flush_zones(
            &mut self.files,
            &self.zones,
            &mut self.kepts,
            &mut self.listed,
        );
        self.is_spoilt = is_failure(&reply);
        reply
    }

    fn powered(&self) -> bool {
        true
    }

    fn faults(&self) -> u64 {
        0
    }

    fn breaks(&self) -> u64 {
        self.files.faults()
    }
}

/// The durable length of a zone of this kind to which nothing was written.
fn fresh_durable(shape: Shape, kind: Kind) -> u32
    ensures { result ≡ (fresh_zone shape kind).durable }
{
    match kind {
        Kind::Conventional => shape.zone_blocks,
        Kind::Sequential => 0,
    }
}

#[tactic(auto, unfolding(zn_truth::specs::World::geometry_of))]
impl<F: Files> Harm for Zloop<F> {
    ghost use Rattle.std.proofs.Common.{refl};

    ghost is_calm = { λ d. refl };

    ghost is_faultless = { λ d. refl };

    fn durable(&self, z: ZoneNo) -> u32 {
        if self.is_spoilt {
            return fresh_durable(self.zones.shape(), self.zones.kind(z));
        }
        durable_kept(&self.kepts, z)
    }

    fn turn(&mut self, z: ZoneNo, to: Cond) -> Result<(), DevError> {
        let mut text = [0; 10];
        let name = zone_name(self.zones.kind(z), z, &mut text);
        let reply = turn_zone(
            &mut self.files,
            &mut self.zones,
            &mut self.kepts,
            &self.listed,
            name,
            z,
            to,
        );
        self.is_spoilt = is_failure(&reply);
        reply
    }

    fn settle(&mut self, z: ZoneNo, from: u32, len: u32, fill: Option<u8>) -> Result<(), DevError> {
        let mut text = [0; 10];
        let name = zone_name(self.zones.kind(z), z, &mut text);
        let reply = settle_zone(
            &mut self.files,
            &mut self.zones,
            &mut self.kepts,
            &self.listed,
            name,
            z,
            from,
            len,
            fill,
        );
        self.is_spoilt = is_failure(&reply);
        reply
    }

    fn scrub(&mut self, z: ZoneNo, fill: Option<u8>) -> Result<(), DevError> {
        let mut text = [0; 10];
        let name = zone_name(self.zones.kind(z), z, &mut text);
        let reply = scrub_zone(
            &mut self.files,
            &self.zones,
            &mut self.kepts,
            &self.listed,
            name,
            z,
            fill,
        );
        self.is_spoilt = is_failure(&reply);
        reply
    }

    fn rest(&mut self) {
        rest_zones(&mut self.zones);
    }
}
