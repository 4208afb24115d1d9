// Truncations, attributes, and the zone commands of opens and closes.
ghost use Rattle.std.specs.Prelude.{◌≡◌, false};

use super::{WHO, close, copies, is_told, put, size, write};
use bitflags::Flags;
use std::alloc::Global;
use std::process::Abort;
use std::test::Fail;
use zn_device::{MemDevice, Zoned};
use zn_model::{Attr, Handle, Mode, MountOpts, Policy, Refusal};
use zn_truth::{Cond, Kind, Shape, ZoneInfo, ZoneNo};
use zn_volume::Volume;

/// A device of a conventional zone and five sequential ones, of four blocks each, with these limits.
fn device(
    rt: &impl Abort,
    alloc: Global,
    max_open: u32,
    max_active: u32,
) -> Result<MemDevice, Fail> {
    let kinds = [
        Kind::Conventional,
        Kind::Sequential,
        Kind::Sequential,
        Kind::Sequential,
        Kind::Sequential,
        Kind::Sequential,
    ];
    let shape = Shape {
        zone_blocks: 4,
        zone_capacity: 4,
        max_open,
        max_active,
    };
    assert!(rt; max_open <= 6 && max_active <= 6 && (max_open == 0 || max_active == 0));
    let mut dev = MemDevice::new(alloc, &kinds, shape)?;
    assert_eq!(rt; put(&mut dev, &copies(rt, false)), Ok(()));
    Ok(dev)
}

/// The device, mounted.
fn mounted(rt: &impl Abort, alloc: Global, dev: MemDevice, explicit_open: bool) -> Volume<MemDevice>
    ensures unspoilt { result.device.spoilt ≡ false }
{
    let opts = MountOpts {
        policy: Policy::RemountRo,
        explicit_open,
    };
    match Volume::mount(alloc, dev, opts) {
        Ok(volume) => volume,
        Err(_) => panic!(rt; "not mounted"),
    }
}

fn open(
    rt: &impl Abort,
    volume: &mut Volume<MemDevice>,
    path: &str,
    mode: Mode,
) -> Result<Handle, Refusal>
    requires unspoilt { volume.old.device.spoilt ≡ false }
    ensures unspoilt { volume.new.device.spoilt ≡ false }
{
    super::open(rt, volume, path, mode, WHO)
}

fn truncate(
    rt: &impl Abort,
    volume: &mut Volume<MemDevice>,
    h: Handle,
    size: u64,
) -> Result<(), Refusal>
    requires unspoilt { volume.old.device.spoilt ≡ false }
    ensures unspoilt { volume.new.device.spoilt ≡ false }
{
    let reply = volume.truncate(h, size);
    assert!(rt; is_told(&reply));
    reply
}

fn sync(rt: &impl Abort, volume: &mut Volume<MemDevice>, h: Handle) -> Result<(), Refusal>
    requires unspoilt { volume.old.device.spoilt ≡ false }
    ensures unspoilt { volume.new.device.spoilt ≡ false }
{
    let reply = volume.sync(h);
    assert!(rt; is_told(&reply));
    reply
}

fn attr_of(volume: &Volume<MemDevice>) -> Result<Attr, Refusal> {
    volume.attr()
}

fn attr(max_wro: u32, nr_wro: u32, max_active: u32, nr_active: u32) -> Result<Attr, Refusal> {
    Ok(Attr {
        max_wro,
        nr_wro,
        max_active,
        nr_active,
    })
}

/// What a report tells of the first sequential zone, whose blocks hold nothing.
fn is_explicit(rt: &impl Abort, volume: Volume<MemDevice>) -> bool
    requires unspoilt { volume.device.spoilt ≡ false }
{
    let mut infos = [ZoneInfo {
        cond: Cond::Offline,
        held: 9,
        explicit: false,
    }];
    let mut dev = volume.into_device();
    assert!(rt; dev.zones() == 6);
    assert_eq!(rt; dev.report(ZoneNo(1), &mut infos), Ok(()));
    assert_eq!(rt; (infos[0].cond, infos[0].held), (Cond::Good, 0));
    infos[0].explicit
}

const BOTH: Mode = Mode::READ_WRITE;

// Two zones may be open at once, so two sequential files may be open for writing.
#[test]
fn writers_are_limited(rt: HostRuntime) -> Result<(), Fail> {
    let dev = device(&rt, rt.alloc(), 2, 0)?;
    let mut volume = mounted(&rt, rt.alloc(), dev, true);
    let first = open(&rt, &mut volume, "seq/0", BOTH)?;
    assert!(rt; open(&rt, &mut volume, "seq/1", BOTH).is_ok());
    let refused = open(&rt, &mut volume, "seq/2", BOTH);
    assert_eq!(rt; refused, Err(Refusal::TooManyWriters));
    assert!(rt; open(&rt, &mut volume, "seq/2", Mode::READ).is_ok());
    assert_eq!(rt; close(&rt, &mut volume, first), Ok(()));
    let full = open(&rt, &mut volume, "seq/3", BOTH)?;
    assert_eq!(rt; truncate(&rt, &mut volume, full, 16384), Ok(()));
    let refused = open(&rt, &mut volume, "seq/2", BOTH);
    assert_eq!(rt; refused, Err(Refusal::TooManyWriters));
    assert_eq!(rt; close(&rt, &mut volume, full), Ok(()));
    assert!(rt; open(&rt, &mut volume, "seq/3", BOTH).is_ok());
    assert_eq!(rt; attr_of(&volume), attr(2, 2, 0, 1));
    Ok(())
}

#[test]
fn other_sizes_are_refused(rt: HostRuntime) -> Result<(), Fail> {
    let dev = device(&rt, rt.alloc(), 0, 0)?;
    let mut volume = mounted(&rt, rt.alloc(), dev, false);
    let h = open(&rt, &mut volume, "seq/0", BOTH)?;
    for size in [1, 4096, 8192, 16383, 16385, u64::MAX] {
        let reply = truncate(&rt, &mut volume, h, size);
        assert_eq!(rt; reply, Err(Refusal::NotAllowed));
    }
    assert_eq!(rt; truncate(&rt, &mut volume, h, 0), Ok(()));
    assert_eq!(rt; truncate(&rt, &mut volume, h, 16384), Ok(()));
    assert_eq!(rt; truncate(&rt, &mut volume, h, 16384), Ok(()));
    assert_eq!(rt; size(&volume, h), Ok(16384));
    assert_eq!(rt; truncate(&rt, &mut volume, h, 0), Ok(()));
    assert_eq!(rt; size(&volume, h), Ok(0));
    let reader = open(&rt, &mut volume, "seq/0", Mode::READ)?;
    let reply = truncate(&rt, &mut volume, reader, 0);
    assert_eq!(rt; reply, Err(Refusal::BadMode));
    assert_eq!(rt; close(&rt, &mut volume, reader), Ok(()));
    let reply = truncate(&rt, &mut volume, reader, 0);
    assert_eq!(rt; reply, Err(Refusal::BadHandle));
    Ok(())
}

// A file that is partly full is active, and so is one that is held open; a full one isn't.
#[test]
fn full_files_are_not_active(rt: HostRuntime) -> Result<(), Fail> {
    let block = [1; 4096];
    for (explicit_open, opened) in [(false, 0), (true, 1)] {
        let dev = device(&rt, rt.alloc(), 0, 5)?;
        let mut volume = mounted(&rt, rt.alloc(), dev, explicit_open);
        let h = open(&rt, &mut volume, "seq/0", BOTH)?;
        assert_eq!(rt; attr_of(&volume), attr(0, 1, 5, opened));
        for offset in [0, 4096, 8192] {
            assert_eq!(rt; write(&rt, &mut volume, h, offset, &block), Ok(()));
            assert_eq!(rt; attr_of(&volume), attr(0, 1, 5, 1));
        }
        assert_eq!(rt; write(&rt, &mut volume, h, 12288, &block), Ok(()));
        assert_eq!(rt; attr_of(&volume), attr(0, 1, 5, 0));
        assert_eq!(rt; truncate(&rt, &mut volume, h, 0), Ok(()));
        assert_eq!(rt; attr_of(&volume), attr(0, 1, 5, 0));
        assert_eq!(rt; write(&rt, &mut volume, h, 0, &block), Ok(()));
        assert_eq!(rt; attr_of(&volume), attr(0, 1, 5, 1));
        assert_eq!(rt; truncate(&rt, &mut volume, h, 16384), Ok(()));
        assert_eq!(rt; attr_of(&volume), attr(0, 1, 5, 0));
        assert_eq!(rt; close(&rt, &mut volume, h), Ok(()));
        assert_eq!(rt; attr_of(&volume), attr(0, 0, 5, 0));
    }
    Ok(())
}

// One zone may be active: the last close leaves a zone that nothing was written to empty.
#[test]
fn the_last_close_closes_the_zone(rt: HostRuntime) -> Result<(), Fail> {
    let dev = device(&rt, rt.alloc(), 0, 1)?;
    let mut volume = mounted(&rt, rt.alloc(), dev, true);
    let h = open(&rt, &mut volume, "seq/0", BOTH)?;
    let second = open(&rt, &mut volume, "seq/0", Mode::WRITE)?;
    let refused = open(&rt, &mut volume, "seq/1", BOTH);
    assert_eq!(rt; refused, Err(Refusal::TooManyActive));
    assert_eq!(rt; close(&rt, &mut volume, h), Ok(()));
    let refused = open(&rt, &mut volume, "seq/1", BOTH);
    assert_eq!(rt; refused, Err(Refusal::TooManyActive));
    assert_eq!(rt; close(&rt, &mut volume, second), Ok(()));
    let other = open(&rt, &mut volume, "seq/1", BOTH)?;
    assert_eq!(rt; close(&rt, &mut volume, other), Ok(()));
    assert!(rt; !is_explicit(&rt, volume));

    let dev = device(&rt, rt.alloc(), 0, 1)?;
    let mut volume = mounted(&rt, rt.alloc(), dev, true);
    assert!(rt; open(&rt, &mut volume, "seq/0", BOTH).is_ok());
    assert!(rt; is_explicit(&rt, volume));
    Ok(())
}

#[test]
fn a_file_is_synced(rt: HostRuntime) -> Result<(), Fail> {
    let dev = device(&rt, rt.alloc(), 0, 0)?;
    let mut volume = mounted(&rt, rt.alloc(), dev, false);
    let h = open(&rt, &mut volume, "cnv/0", BOTH);
    assert_eq!(rt; h, Err(Refusal::NoSuchFile));
    let h = open(&rt, &mut volume, "seq/0", Mode::READ)?;
    assert_eq!(rt; sync(&rt, &mut volume, h), Ok(()));
    Ok(())
}
