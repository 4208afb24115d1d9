// Calls of a volume whose device loses its power.
ghost use Rattle.std.specs.Prelude.{◌≡◌, true, false, not, IfOk};
ghost use Rattle.zn_device.specs.Harms.{is_told as is_told_alike};
ghost use Rattle.zn_volume.specs.Means.{spoils};

use std::alloc::{AllocError, Global};
use std::process::Abort;
use std::test::Fail;
use zn_device::{MemDevice, Zoned};
use zn_fault::Faulty;
use zn_mkfs::format;
use zn_model::{FormatOpts, Handle, Mode, MountOpts, Place, Policy, Refusal, Who};
use zn_super::Label;
use zn_truth::{Command, Cond, Cuts, InjectError, Kind, LossSpec, Shape, ZoneInfo, ZoneNo};
use zn_volume::Volume;

type Scripted = Volume<Faulty<MemDevice>>;

const WHO: Who = Who { uid: 0, gid: 0 };

const OPTS: MountOpts = MountOpts {
    policy: Policy::RemountRo,
    explicit_open: false,
};

const FORMAT: FormatOpts = FormatOpts {
    aggr_cnv: false,
    uid: 0,
    gid: 0,
    perm: 0o640,
};

const SHAPE: Shape = Shape {
    zone_blocks: 2,
    zone_capacity: 2,
    max_open: 0,
    max_active: 0,
};

const UNTOLD: ZoneInfo = ZoneInfo {
    cond: Cond::Offline,
    held: 9,
    explicit: false,
};

/// A mounted volume of two sequential files, of two blocks each.
fn mounted(rt: &impl Abort, alloc: Global) -> Result<Scripted, Fail>
    ensures { IfOk result (λ volume. volume.device.spoilt ≡ false) }
{
    let kinds = [Kind::Conventional, Kind::Sequential, Kind::Sequential];
    let mut dev = MemDevice::new(alloc, &kinds, SHAPE)?;
    let formatted = format(alloc, &mut dev, &Label::empty(), &FORMAT, [0x11; 16], false);
    assert!(rt; formatted.is_ok());
    let dev = Faulty::new(alloc, dev).map_err(|_| AllocError)?;
    match Volume::mount(alloc, dev, OPTS) {
        Ok(volume) => Ok(volume),
        Err(_) => panic!(rt; "not mounted"),
    }
}

/// Whether more calls may follow this answer.
fn is_told<T>(reply: &Result<T, Refusal>) -> bool
    ensures { result ≡ not (spoils reply.now) }
{
    match reply {
        Ok(_) => true,
        Err(refusal) => !matches!(refusal, Refusal::Broken | Refusal::Memory),
    }
}

fn open(rt: &impl Abort, volume: &mut Scripted) -> Result<Handle, Refusal>
    requires unspoilt { volume.old.device.spoilt ≡ false }
    ensures unspoilt { volume.new.device.spoilt ≡ false }
{
    assert!(rt; volume.opened() < 1024);
    let reply = volume.open("seq/0", Mode::READ_WRITE, WHO);
    assert!(rt; is_told(&reply));
    reply
}

/// Writes to the front of a file.
fn write(
    rt: &impl Abort,
    volume: &mut Scripted,
    h: Handle,
    bytes: &[u8; 8192],
) -> Result<(), Refusal>
    requires unspoilt { volume.old.device.spoilt ≡ false }
    ensures unspoilt { volume.new.device.spoilt ≡ false }
{
    let reply = volume.write(h, 0, bytes);
    assert!(rt; is_told(&reply));
    reply
}

/// Whether a call was refused for a loss of power.
fn is_lost<T>(reply: &Result<T, Refusal>) -> bool
    ensures { result ≡ true → spoils reply.now ≡ false }
{
    matches!(reply, Err(Refusal::PowerLost))
}

/// Whether a loss or a turn was answered so.
fn is_answer(reply: &Result<(), InjectError>, lost: bool) -> bool
    ensures { result ≡ true → is_told_alike reply.now ≡ true }
{
    match reply {
        Ok(()) => !lost,
        Err(InjectError::PowerLost) => lost,
        Err(_) => false,
    }
}

/// The calls on a file are refused for want of power.
fn files_are_lost(rt: &impl Abort, volume: &mut Scripted, h: Handle)
    requires unspoilt { volume.old.device.spoilt ≡ false }
    ensures unspoilt { volume.new.device.spoilt ≡ false }
{
    assert!(rt; volume.opened() < 1024);
    assert!(rt; is_lost(&volume.open("seq/1", Mode::READ, WHO)));
    assert!(rt; is_lost(&volume.write(h, 0, &[1; 4096])));
    assert!(rt; is_lost(&volume.read(h, 0, &mut [1; 4])));
    assert!(rt; is_lost(&volume.truncate(h, 0)));
    assert!(rt; is_lost(&volume.sync(h)));
    assert!(rt; is_lost(&volume.close(h)));
    assert!(rt; is_lost(&volume.size(h)));
}

/// The looks are refused so too.
fn looks_are_lost(rt: &impl Abort, volume: &mut Scripted)
    requires unspoilt { volume.old.device.spoilt ≡ false }
    ensures unspoilt { volume.new.device.spoilt ≡ false }
{
    assert!(rt; is_lost(&volume.stat("seq/0")));
    assert!(rt; is_lost(&volume.entries("/")));
    assert!(rt; is_lost(&volume.attr()));
    let mut infos = [UNTOLD; 3];
    assert!(rt; volume.device().zones() == 3);
    assert!(rt; is_lost(&volume.report(&mut infos)));
}

#[test]
fn calls_without_power(rt: HostRuntime) -> Result<(), Fail> {
    let mut volume = mounted(&rt, rt.alloc())?;
    let h = open(&rt, &mut volume)?;
    let loss = LossSpec {
        cuts: Cuts::new(),
        fill: None,
    };
    assert!(rt; is_answer(&volume.lose_power(&loss), false));
    files_are_lost(&rt, &mut volume, h);
    looks_are_lost(&rt, &mut volume);
    assert!(rt; is_answer(&volume.lose_power(&loss), true));
    assert!(rt; is_answer(&volume.turn(ZoneNo(1), Cond::Offline), true));
    assert_eq!(rt; volume.change(), Refusal::NotAllowed);
    assert!(rt; volume.device().zones() == 3);
    assert_eq!(rt; volume.place(ZoneNo(2)), Place::Seq(1));
    let Err(fail) = volume.unmount() else {
        panic!(rt; "unmounted without power");
    };
    assert_eq!(rt; fail.why, Refusal::PowerLost);
    let dev = fail.vol.into_device();
    assert!(rt; !dev.powered());
    Ok(())
}

// The power goes inside a write, and then inside the report that follows a write that the device refuses: no file
// changes. The next such report is answered.
#[test]
fn losses_strike_inside(rt: HostRuntime) -> Result<(), Fail> {
    let mut volume = mounted(&rt, rt.alloc())?;
    let h = open(&rt, &mut volume)?;
    for (command, blocks) in [(Command::Write, 1), (Command::Report, 1)] {
        let mut cuts = Cuts::new();
        assert!(rt; cuts.push(ZoneNo(1), blocks));
        let loss = LossSpec { cuts, fill: None };
        assert_eq!(rt; volume.arm_loss(ZoneNo(1), command, false, &loss), Ok(()));
        assert_eq!(rt;
            write(&rt, &mut volume, h, &[1; 8192]),
            Err(Refusal::PowerLost)
        );
        assert!(rt; !volume.powered());
        volume.power_on();
        assert_eq!(rt; volume.size(h), Ok(0));
    }
    assert_eq!(rt;
        write(&rt, &mut volume, h, &[1; 8192]),
        Err(Refusal::IoError)
    );
    assert_eq!(rt; volume.size(h), Ok(4096));
    Ok(())
}
