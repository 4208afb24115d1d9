ghost use Rattle.std.specs.Prelude.{◌≡◌, ◌≤◌, length, false, not, IfOk};
ghost use Rattle.zn_model.specs.declared.limits.TheConstants.{MOST_BYTES};
ghost use Rattle.zn_truth.specs.declared.limits.TheConstants.{MAX_ZONES};
ghost use Rattle.zn_volume.specs.Means.{spoils};

use bitflags::Flags;
use std::alloc::Global;
use std::process::Abort;
use std::test::Fail;
use zn_device::{MemDevice, Zoned};
use zn_model::{Handle, Mode, MountError, MountOpts, Place, Policy, Refusal, Stat, Who, Why};
use zn_super::{Label, Super};
use zn_truth::{Cond, DevError, Kind, Shape, ZoneInfo, ZoneNo};
use zn_volume::Volume;

mod zones;

const WHO: Who = Who { uid: 0, gid: 0 };

const OPTS: MountOpts = MountOpts {
    policy: Policy::RemountRo,
    explicit_open: false,
};

/// Whether more calls may follow this answer.
fn is_told<T>(reply: &Result<T, Refusal>) -> bool
    ensures { result ≡ not (spoils reply.now) }
{
    match reply {
        Ok(_) => true,
        Err(refusal) => !matches!(refusal, Refusal::Broken | Refusal::Memory),
    }
}

/// A new device with zones of two blocks, of these kinds.
fn device(alloc: Global, kinds: &[Kind]) -> Result<MemDevice, Fail>
    requires some { 1 ≤ length kinds.now }
    requires most { length kinds.now ≤ MAX_ZONES }
{
    let shape = Shape {
        zone_blocks: 2,
        zone_capacity: 2,
        max_open: 0,
        max_active: 0,
    };
    Ok(MemDevice::new(alloc, kinds, shape)?)
}

/// The two copies of a super block of user 7 and group 8, for whom alone files may be opened.
fn copies(rt: &impl Abort, aggr_cnv: bool) -> [u8; 8192] {
    let super_block = Super {
        label: Label::empty(),
        uuid: [0x11; 16],
        aggr_cnv,
        uid: 7,
        gid: 8,
        perm: 0o600,
    };
    assert!(rt; super_block.perm <= 0o777);
    let mut block = [0; 4096];
    super_block.encode(&mut block);
    let mut copies = [0; 8192];
    copies[..4096].copy_from_slice(&block);
    copies[4096..].copy_from_slice(&block);
    copies
}

/// Writes the first two blocks of a device.
fn put<D: Zoned>(dev: &mut D, blocks: &[u8; 8192]) -> Result<(), DevError>
    requires unspoilt { (D.state dev.old).spoilt ≡ false }
{
    dev.write(ZoneNo(0), 0, blocks)
}

/// So many equal bytes.
fn bytes_of(alloc: Global, byte: u8, len: usize) -> Result<Vec<u8>, Fail>
    ensures { IfOk result (λ v. length v.items ≡ len) }
{
    Ok(vec![in alloc; byte; len]?)
}

/// A device that is mounted.
fn mounted(rt: &impl Abort, alloc: Global, dev: MemDevice) -> Volume<MemDevice>
    ensures unspoilt { result.device.spoilt ≡ false }
{
    match Volume::mount(alloc, dev, OPTS) {
        Ok(volume) => volume,
        Err(_) => panic!(rt; "not mounted"),
    }
}

/// A device with these super blocks, mounted.
fn formatted(rt: &impl Abort, alloc: Global, dev: MemDevice, aggr_cnv: bool) -> Volume<MemDevice>
    ensures unspoilt { result.device.spoilt ≡ false }
{
    let mut dev = dev;
    assert_eq!(rt; put(&mut dev, &copies(rt, aggr_cnv)), Ok(()));
    mounted(rt, alloc, dev)
}

// The calls of a volume. Of each a caller learns only that more may follow it: what it answered is compared.

fn open(
    rt: &impl Abort,
    volume: &mut Volume<MemDevice>,
    path: &str,
    mode: Mode,
    who: Who,
) -> Result<Handle, Refusal>
    requires unspoilt { volume.old.device.spoilt ≡ false }
    ensures unspoilt { volume.new.device.spoilt ≡ false }
{
    assert!(rt; volume.opened() < 1024);
    let reply = volume.open(path, mode, who);
    assert!(rt; is_told(&reply));
    reply
}

fn close(rt: &impl Abort, volume: &mut Volume<MemDevice>, h: Handle) -> Result<(), Refusal>
    requires unspoilt { volume.old.device.spoilt ≡ false }
    ensures unspoilt { volume.new.device.spoilt ≡ false }
{
    let reply = volume.close(h);
    assert!(rt; is_told(&reply));
    reply
}

fn write(
    rt: &impl Abort,
    volume: &mut Volume<MemDevice>,
    h: Handle,
    offset: u64,
    bytes: &[u8],
) -> Result<(), Refusal>
    requires unspoilt { volume.old.device.spoilt ≡ false }
    requires len { length bytes.now ≤ MOST_BYTES }
    ensures unspoilt { volume.new.device.spoilt ≡ false }
{
    let reply = volume.write(h, offset, bytes);
    assert!(rt; is_told(&reply));
    reply
}

/// How many of six bytes a read gives, and the six.
fn read(
    rt: &impl Abort,
    volume: &mut Volume<MemDevice>,
    h: Handle,
    offset: u64,
) -> (Result<u64, Refusal>, [u8; 6])
    requires unspoilt { volume.old.device.spoilt ≡ false }
    ensures unspoilt { volume.new.device.spoilt ≡ false }
{
    let mut out = [0; 6];
    let reply = volume.read(h, offset, &mut out);
    assert!(rt; is_told(&reply));
    (reply, out)
}

fn size(volume: &Volume<MemDevice>, h: Handle) -> Result<u64, Refusal> {
    volume.size(h)
}

fn stat(volume: &Volume<MemDevice>, path: &str) -> Result<Stat, Refusal> {
    volume.stat(path)
}

/// How many files of `cnv` and of `seq` there are.
fn files(volume: &Volume<MemDevice>) -> (u32, u32) {
    volume.files()
}

/// A volume that isn't unmounted, since a handle is open.
fn busy(rt: &impl Abort, volume: Volume<MemDevice>) -> Volume<MemDevice>
    requires unspoilt { volume.device.spoilt ≡ false }
    ensures unspoilt { result.device.spoilt ≡ false }
{
    match volume.unmount() {
        Ok(_) => panic!(rt; "unmounted with an open handle"),
        Err(fail) => {
            assert_eq!(rt; fail.why, Refusal::Busy);
            fail.vol
        }
    }
}

fn unmounted(rt: &impl Abort, volume: Volume<MemDevice>) -> MemDevice {
    let Ok(dev) = volume.unmount() else {
        panic!(rt; "not unmounted");
    };
    dev
}

#[test]
fn a_file_is_written_and_read(rt: HostRuntime) -> Result<(), Fail> {
    let kinds = [
        Kind::Sequential,
        Kind::Conventional,
        Kind::Sequential,
        Kind::Sequential,
    ];
    let dev = device(rt.alloc(), &kinds)?;
    let mut volume = formatted(&rt, rt.alloc(), dev, false);
    assert_eq!(rt; files(&volume), (1, 2));
    let h = open(&rt, &mut volume, "seq/1", Mode::READ_WRITE, WHO)?;
    let bytes = [7; 4096];
    assert_eq!(rt; write(&rt, &mut volume, h, 0, &bytes), Ok(()));
    assert_eq!(rt;
        write(&rt, &mut volume, h, 0, &bytes),
        Err(Refusal::BadOffset)
    );
    assert_eq!(rt; size(&volume, h), Ok(4096));
    assert_eq!(rt;
        read(&rt, &mut volume, h, 4093),
        (Ok(3), [7, 7, 7, 0, 0, 0])
    );
    let mut volume = busy(&rt, volume);
    assert_eq!(rt; close(&rt, &mut volume, h), Ok(()));
    assert_eq!(rt; size(&volume, h), Err(Refusal::BadHandle));
    let dev = unmounted(&rt, volume);
    let volume = mounted(&rt, rt.alloc(), dev);
    let stat = stat(&volume, "seq/1")?;
    assert_eq!(rt;
        (stat.size, stat.mode, stat.uid, stat.gid),
        (4096, 0o600, 7, 8)
    );
    Ok(())
}

#[test]
fn conventional_zones_are_one_file(rt: HostRuntime) -> Result<(), Fail> {
    let kinds = [
        Kind::Conventional,
        Kind::Conventional,
        Kind::Conventional,
        Kind::Conventional,
        Kind::Sequential,
        Kind::Conventional,
    ];
    let dev = device(rt.alloc(), &kinds)?;
    let volume = formatted(&rt, rt.alloc(), dev, false);
    assert_eq!(rt; files(&volume), (4, 1));
    let mut volume = formatted(&rt, rt.alloc(), volume.into_device(), true);
    assert_eq!(rt; files(&volume), (2, 1));
    let stat = stat(&volume, "cnv/0")?;
    assert_eq!(rt; (stat.zone, stat.zones, stat.size), (1, 3, 24576));
    let h = open(&rt, &mut volume, "cnv/0", Mode::READ_WRITE, WHO)?;
    let fives = bytes_of(rt.alloc(), 5, 16384)?;
    assert_eq!(rt; write(&rt, &mut volume, h, 4096, &fives), Ok(()));
    let sixes = bytes_of(rt.alloc(), 6, 4096)?;
    assert_eq!(rt; write(&rt, &mut volume, h, 8192, &sixes), Ok(()));
    for (offset, want) in [
        (4093, [0, 0, 0, 5, 5, 5]),
        (8189, [5, 5, 5, 6, 6, 6]),
        (16381, [5, 5, 5, 5, 5, 5]),
        (20477, [5, 5, 5, 0, 0, 0]),
    ] {
        assert_eq!(rt; read(&rt, &mut volume, h, offset), (Ok(6), want));
    }
    Ok(())
}

// Zone 1 and 2 are one file, and zone 4 another.
#[test]
fn zones_are_placed_and_reported(rt: HostRuntime) -> Result<(), Fail> {
    let kinds = [
        Kind::Conventional,
        Kind::Conventional,
        Kind::Conventional,
        Kind::Sequential,
        Kind::Conventional,
    ];
    let dev = device(rt.alloc(), &kinds)?;
    let mut volume = formatted(&rt, rt.alloc(), dev, true);
    let want = [
        Place::Super,
        Place::Cnv(0),
        Place::Cnv(0),
        Place::Seq(0),
        Place::Cnv(1),
    ];
    for (z, place) in (0..).zip(want) {
        assert_eq!(rt; volume.place(ZoneNo(z)), place);
    }
    let mut infos = [ZoneInfo {
        cond: Cond::Offline,
        held: 9,
        explicit: true,
    }; 5];
    assert!(rt; volume.device().zones() == 5);
    assert_eq!(rt; volume.report(&mut infos), Ok(()));
    for (z, info) in infos.iter().enumerate() {
        let held = if z == 3 { 0 } else { 2 };
        assert_eq!(rt;
            (info.cond, info.held, info.explicit),
            (Cond::Good, held, false)
        );
    }
    Ok(())
}

#[test]
fn what_is_not_formatted(rt: HostRuntime) -> Result<(), Fail> {
    for (place, byte, why) in [
        (0, 0, Why::BadMagic),
        (4296, 1, Why::CopiesDiffer(200)),
        (4, 7, Why::CopiesDiffer(4)),
    ] {
        let mut dev = device(rt.alloc(), &[Kind::Conventional])?;
        let mut blocks = copies(&rt, false);
        assert!(rt; place < 8192);
        blocks[place] = byte;
        assert_eq!(rt; put(&mut dev, &blocks), Ok(()));
        match Volume::mount(rt.alloc(), dev, OPTS) {
            Ok(_) => panic!(rt; "mounted"),
            Err(fail) => assert_eq!(rt; fail.why, MountError::NotFormatted(why)),
        }
    }
    let dev = device(rt.alloc(), &[Kind::Sequential])?;
    match Volume::mount(rt.alloc(), dev, OPTS) {
        Ok(_) => panic!(rt; "mounted"),
        Err(fail) => assert_eq!(rt; fail.why, MountError::NotFormatted(Why::Zone0NotFull)),
    }
    Ok(())
}

#[test]
fn only_the_owner_opens(rt: HostRuntime) -> Result<(), Fail> {
    let dev = device(rt.alloc(), &[Kind::Conventional, Kind::Sequential])?;
    let mut volume = formatted(&rt, rt.alloc(), dev, false);
    let group = Who { uid: 9, gid: 8 };
    let refused = open(&rt, &mut volume, "seq/0", Mode::READ, group);
    assert_eq!(rt; refused, Err(Refusal::Denied));
    assert_eq!(rt; volume.opened(), 0);
    let owner = Who { uid: 7, gid: 9 };
    assert!(rt; open(&rt, &mut volume, "seq/0", Mode::READ, owner).is_ok());
    Ok(())
}
