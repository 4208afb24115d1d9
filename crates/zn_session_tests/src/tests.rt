ghost use Rattle.std.specs.Prelude.{◌≡◌, ◌≤◌, IfOk, false};
ghost use Rattle.zn_truth.specs.declared.limits.TheConstants.{MAX_ZONES};

use std::alloc::{AllocError, Global};
use std::process::Abort;
use std::test::Fail;
use zn_base::memory::{MemSink, MemSource};
use zn_device::{Injects, MemDevice, Quiet, Zoned};
use zn_fault::Faulty;
use zn_model::{Mode, Who};
use zn_run::{Status, run};
use zn_script::{FormatWords, Line};
use zn_session::Session;
use zn_truth::{Kind, Shape};

/// A new device of four zones of two blocks each: the first of this kind, a conventional one, and two sequential ones.
/// It has no limits.
fn device(alloc: Global, first: Kind) -> Result<Faulty<MemDevice>, Fail>
    ensures { IfOk result (λ dev. (⟦<Faulty<MemDevice> as Zoned>⟧.state dev).spoilt ≡ false) }
{
    limited_device(alloc, first, 0, 0)
}

/// The same with limits on open and active zones.
fn limited_device(
    alloc: Global,
    first: Kind,
    max_open: u32,
    max_active: u32,
) -> Result<Faulty<MemDevice>, Fail>
    requires ordered { max_open ≤ max_active }
    requires zones { max_active ≤ MAX_ZONES }
    ensures { IfOk result (λ dev. (⟦<Faulty<MemDevice> as Zoned>⟧.state dev).spoilt ≡ false) }
{
    let shape = Shape {
        zone_blocks: 2,
        zone_capacity: 2,
        max_open,
        max_active,
    };
    let kinds = [
        first,
        Kind::Conventional,
        Kind::Sequential,
        Kind::Sequential,
    ];
    let dev = MemDevice::new(alloc, &kinds, shape)?;
    Ok(Faulty::new(alloc, dev).map_err(|_| AllocError)?)
}

/// A new device of a conventional zone and three sequential ones, of four blocks each, of which one may be active.
fn narrow_device(alloc: Global) -> Result<Faulty<MemDevice>, Fail>
    ensures { IfOk result (λ dev. (⟦<Faulty<MemDevice> as Zoned>⟧.state dev).spoilt ≡ false) }
{
    let shape = Shape {
        zone_blocks: 4,
        zone_capacity: 4,
        max_open: 0,
        max_active: 1,
    };
    let kinds = [
        Kind::Conventional,
        Kind::Sequential,
        Kind::Sequential,
        Kind::Sequential,
    ];
    let dev = MemDevice::new(alloc, &kinds, shape)?;
    Ok(Faulty::new(alloc, dev).map_err(|_| AllocError)?)
}

/// Carries out a script on a new session, and looks at its replies.
fn tells<D: Injects + Drop>(
    rt: &impl Abort,
    alloc: Global,
    dev: D,
    script: &str,
    told: &str,
) -> Result<(), Fail>
    requires { (D.state dev).spoilt ≡ false }
{
    let Ok(mut session) = Session::new(alloc, dev, [0; 16]) else {
        panic!(rt; "no memory")
    };
    let mut bytes = Vec::new(alloc);
    bytes.extend_from_slice(script.as_bytes())?;
    let mut source = MemSource::new(bytes, Vec::new(alloc));
    let mut sink = MemSink::new(alloc, 2000, Vec::new(alloc))?;
    let status = run(alloc, &mut session, &mut source, &mut sink);
    assert_eq!(rt; sink.bytes(), told.as_bytes());
    assert_eq!(rt; status, Status::Done);
    Ok(())
}

#[test]
fn a_session_begins_without_a_volume(rt: HostRuntime) -> Result<(), Fail> {
    let alloc = rt.alloc();
    tells(
        &rt,
        alloc,
        device(alloc, Kind::Conventional)?,
        "size 0\nopen 0 seq/0 rw\nstat /\ncreate a\numount\nmount\n",
        "error not-mounted\nerror not-mounted\nerror not-mounted\nerror not-mounted\nerror not-mounted\n\
         error not-formatted bad-magic\n",
    )?;
    tells(
        &rt,
        alloc,
        device(alloc, Kind::Sequential)?,
        "mount\n",
        "error not-formatted zone0-not-full\n",
    )
}

/// The label is read first, then the identifier, then the features; and the options of a mount before its commands.
#[test]
fn faulty_texts_are_told(rt: HostRuntime) -> Result<(), Fail> {
    let alloc = rt.alloc();
    tells(
        &rt,
        alloc,
        device(alloc, Kind::Conventional)?,
        "mkfs features=x uuid=x label=12345678901234567890123456789012345678901234567890123456789012345\n\
         mkfs features=x uuid=x\n\
         mkfs features=uid=1,x\n\
         mkfs features=uid=1,uid=2\n\
         mount errors=none\n\
         mount explicit-open,explicit-open\n",
        "error bad-label\nerror bad-uuid\nerror unknown-option 6\nerror repeated-option 6\n\
         error bad-value 7\nerror repeated-option 14\n",
    )
}

#[test]
fn formats_mounts_and_unmounts(rt: HostRuntime) -> Result<(), Fail> {
    let alloc = rt.alloc();
    let script =
        "mkfs label=data uuid={6ba7b810-9dad-11d1-80b4-00c04fd430c8} features=uid=7,perm=600\n\
                  mkfs\n\
                  mkfs force features=uid=7,gid=8,perm=640\n\
                  mount\n\
                  mount\n\
                  mkfs force\n\
                  open 0 seq/0 rw uid=1\n\
                  open 0 seq/0 r uid=1 gid=8\n\
                  open 0 seq/0 rw\n\
                  open 1 seq/0 rw uid=7\n\
                  write 1 0 61*4096\n\
                  umount\n\
                  close 0\n\
                  close 1\n\
                  umount\n\
                  umount\n\
                  close 1\n\
                  mount explicit-open\n\
                  close 1\n\
                  open 1 seq/0 r\n\
                  read 1 4095 2\n";
    let told = "ok\n\
                error already-formatted\n\
                ok\n\
                ok\n\
                error already-mounted\n\
                error already-mounted\n\
                error denied\n\
                ok\n\
                error handle-in-use\n\
                ok\n\
                ok\n\
                error busy\n\
                ok\n\
                ok\n\
                ok\n\
                error not-mounted\n\
                error not-mounted\n\
                ok\n\
                error bad-handle\n\
                ok\n\
                ok 1 61*1\n";
    tells(&rt, alloc, device(alloc, Kind::Conventional)?, script, told)?;
    tells(&rt, alloc, device(alloc, Kind::Sequential)?, script, told)
}

/// A file is truncated to no bytes and to its capacity, and synced by any handle; it is active where it is held open or
/// shown partly full.
#[test]
fn truncates_syncs_and_tells_attributes(rt: HostRuntime) -> Result<(), Fail> {
    let alloc = rt.alloc();
    let script = "truncate 0 0\n\
                  sync 0\n\
                  attr\n\
                  mkfs\n\
                  mount explicit-open\n\
                  attr\n\
                  open 0 seq/0 rw\n\
                  open 1 seq/0 r\n\
                  open 2 cnv/0 rw\n\
                  attr\n\
                  write 0 0 61*4096\n\
                  sync 1\n\
                  truncate 0 4096\n\
                  truncate 1 0\n\
                  truncate 2 0\n\
                  truncate 0 8192\n\
                  size 1\n\
                  attr\n\
                  truncate 0 0\n\
                  size 1\n\
                  write 0 0 62*4096\n\
                  attr\n\
                  close 0\n\
                  sync 0\n\
                  truncate 7 0\n\
                  attr\n";
    let told = "error not-mounted\n\
                error not-mounted\n\
                error not-mounted\n\
                ok\n\
                ok\n\
                ok max_wro_seq_files=1 nr_wro_seq_files=0 max_active_seq_files=2 nr_active_seq_files=0\n\
                ok\n\
                ok\n\
                ok\n\
                ok max_wro_seq_files=1 nr_wro_seq_files=1 max_active_seq_files=2 nr_active_seq_files=1\n\
                ok\n\
                ok\n\
                error not-allowed\n\
                error bad-mode\n\
                error not-allowed\n\
                ok\n\
                ok 8192\n\
                ok max_wro_seq_files=1 nr_wro_seq_files=1 max_active_seq_files=2 nr_active_seq_files=0\n\
                ok\n\
                ok 0\n\
                ok\n\
                ok max_wro_seq_files=1 nr_wro_seq_files=1 max_active_seq_files=2 nr_active_seq_files=1\n\
                ok\n\
                error bad-handle\n\
                error bad-handle\n\
                ok max_wro_seq_files=1 nr_wro_seq_files=0 max_active_seq_files=2 nr_active_seq_files=1\n";
    tells(
        &rt,
        alloc,
        limited_device(alloc, Kind::Conventional, 1, 2)?,
        script,
        told,
    )
}

/// Faults and turns of a device without a volume. Zones 4294967297 and 4294967298 aren't zones 1 and 2.
#[test]
fn a_bare_device_is_harmed(rt: HostRuntime) -> Result<(), Fail> {
    let alloc = rt.alloc();
    let script = "fault 4 read\n\
                  fault 4294967297 read\n\
                  fault 1 reset\n\
                  fault 1 read 1\n\
                  turn 4 ro\n\
                  turn 4294967298 off\n\
                  mkfs\n\
                  fault 0 read\n\
                  mount\n\
                  mount\n\
                  umount\n\
                  turn 0 off\n\
                  turn 0 ro\n\
                  turn 0 off\n\
                  mkfs force\n";
    let told = "error bad-fault\n\
                error bad-fault\n\
                error bad-fault\n\
                error bad-fault\n\
                error bad-fault\n\
                error bad-fault\n\
                ok\n\
                ok\n\
                error io-error\n\
                ok\n\
                ok\n\
                ok\n\
                error bad-fault\n\
                error bad-fault\n\
                error bad-zone0 offline\n";
    tells(&rt, alloc, device(alloc, Kind::Conventional)?, script, told)
}

/// Half a write of a conventional file fails, and then nothing may be written until the next mount. Its zone goes
/// offline, which a read finds.
#[test]
fn a_conventional_file_fails(rt: HostRuntime) -> Result<(), Fail> {
    let alloc = rt.alloc();
    let script = "mkfs\n\
                  mount\n\
                  open 0 cnv/0 rw\n\
                  fault 1 write 1\n\
                  write 0 0 61*8192\n\
                  read 0 0 8192\n\
                  write 0 0 62*4096\n\
                  size 0\n\
                  close 0\n\
                  umount\n\
                  mount\n\
                  open 0 cnv/0 rw\n\
                  turn 1 off\n\
                  size 0\n\
                  read 0 0 1\n\
                  size 0\n\
                  read 0 0 1\n\
                  stat cnv/0\n\
                  turn 1 ro\n\
                  turn 1 off\n";
    let told = "ok\n\
                ok\n\
                ok\n\
                ok\n\
                error io-error\n\
                ok 8192 61*4096+00*4096\n\
                error fs-read-only\n\
                ok 8192\n\
                ok\n\
                ok\n\
                ok\n\
                ok\n\
                ok\n\
                ok 8192\n\
                error io-error\n\
                ok 0\n\
                error file-offline\n\
                ok file cnv/0 zone 1 zones 1 size 0 blocks 16 mode 000 uid 0 gid 0 writers 1\n\
                error bad-fault\n\
                error bad-fault\n";
    tells(&rt, alloc, device(alloc, Kind::Conventional)?, script, told)
}

/// After a failed read a sequential file stays as it is, since it shows what its zone holds; after a failed write it
/// shows what was written. Its zone turns read-only, which a write finds, and then offline.
#[test]
fn a_sequential_file_fails(rt: HostRuntime) -> Result<(), Fail> {
    let alloc = rt.alloc();
    let script = "mkfs\n\
                  mount\n\
                  open 0 seq/0 rw\n\
                  write 0 0 61*4096\n\
                  fault 2 read\n\
                  fault 3 read\n\
                  read 0 0 1\n\
                  read 0 0 1\n\
                  write 0 4096 62*4096\n\
                  truncate 0 0\n\
                  size 0\n\
                  fault 2 write 1\n\
                  write 0 0 63*8192\n\
                  size 0\n\
                  read 0 4095 9\n\
                  truncate 0 0\n\
                  open 1 seq/1 w\n\
                  close 0\n\
                  umount\n\
                  mount\n\
                  open 0 seq/0 rw\n\
                  turn 2 ro\n\
                  read 0 0 1\n\
                  write 0 4096 64*4096\n\
                  size 0\n\
                  read 0 0 1\n\
                  turn 2 ro\n\
                  turn 2 off\n\
                  read 0 0 1\n\
                  size 0\n\
                  read 0 0 1\n";
    let told = "ok\n\
                ok\n\
                ok\n\
                ok\n\
                ok\n\
                ok\n\
                error io-error\n\
                ok 1 61*1\n\
                ok\n\
                ok\n\
                ok 0\n\
                ok\n\
                error io-error\n\
                ok 4096\n\
                ok 1 63*1\n\
                error fs-read-only\n\
                error fs-read-only\n\
                ok\n\
                ok\n\
                ok\n\
                ok\n\
                ok\n\
                ok 1 63*1\n\
                error io-error\n\
                ok 4096\n\
                ok 1 63*1\n\
                error bad-fault\n\
                ok\n\
                error io-error\n\
                ok 0\n\
                error file-offline\n";
    tells(&rt, alloc, device(alloc, Kind::Conventional)?, script, told)
}

/// A write that a limit refuses is followed by recovery as any other.
#[test]
fn a_limit_fails_a_write(rt: HostRuntime) -> Result<(), Fail> {
    let alloc = rt.alloc();
    tells(
        &rt,
        alloc,
        narrow_device(alloc)?,
        "mkfs\n\
         mount\n\
         open 0 seq/0 rw\n\
         open 1 seq/1 rw\n\
         write 0 0 61*4096\n\
         write 1 0 62*4096\n\
         write 0 4096 61*4096\n\
         read 1 0 1\n",
        "ok\nok\nok\nok\nok\nerror too-many-active\nerror fs-read-only\nok 0\n",
    )
}

/// A fault waits for its command beyond an unmount. A flush that fails takes from its zone what isn't durable.
#[test]
fn faults_wait(rt: HostRuntime) -> Result<(), Fail> {
    let alloc = rt.alloc();
    let script = "mkfs\n\
                  mount\n\
                  fault 3 write\n\
                  fault 3 flush\n\
                  open 0 seq/0 rw\n\
                  write 0 0 61*4096\n\
                  close 0\n\
                  umount\n\
                  mount\n\
                  open 1 seq/1 rw\n\
                  write 1 0 62*4096\n\
                  size 1\n\
                  close 1\n\
                  umount\n\
                  mount\n\
                  open 0 seq/0 r\n\
                  open 1 seq/1 rw\n\
                  write 1 0 63*4096\n\
                  sync 1\n\
                  size 1\n\
                  size 0\n\
                  sync 1\n";
    let told = "ok\n\
                ok\n\
                ok\n\
                ok\n\
                ok\n\
                ok\n\
                ok\n\
                ok\n\
                ok\n\
                ok\n\
                error io-error\n\
                ok 0\n\
                ok\n\
                ok\n\
                ok\n\
                ok\n\
                ok\n\
                ok\n\
                error io-error\n\
                ok 0\n\
                ok 4096\n\
                ok\n";
    tells(&rt, alloc, device(alloc, Kind::Conventional)?, script, told)
}

/// The zones of a device, with a volume on it and without one, with power and without. Zone 4294967296 isn't zone 0.
#[test]
fn zones_are_told(rt: HostRuntime) -> Result<(), Fail> {
    let alloc = rt.alloc();
    let script = "zones\n\
                  mkfs\n\
                  mount\n\
                  open 0 seq/0 rw\n\
                  write 0 0 61*4096\n\
                  turn 1 ro\n\
                  turn 3 off\n\
                  fault 3 report\n\
                  zones\n\
                  zones\n\
                  power-loss 2:1\n\
                  zones\n\
                  size 0\n\
                  mount\n\
                  power-loss 4294967296:0\n\
                  power-on\n\
                  power-loss 4294967296:0\n\
                  power-loss-in 4294967296 write\n\
                  power-loss-in 2 write 4294967296:0\n\
                  umount\n\
                  zones\n";
    let told = "ok 4\n\
                zone 0 cnv good 2 2 -\n\
                zone 1 cnv good 2 2 -\n\
                zone 2 seq good 0 2 -\n\
                zone 3 seq good 0 2 -\n\
                ok\n\
                ok\n\
                ok\n\
                ok\n\
                ok\n\
                ok\n\
                ok\n\
                error io-error\n\
                ok 4\n\
                zone 0 cnv good 2 2 super\n\
                zone 1 cnv read-only 2 2 cnv/0\n\
                zone 2 seq good 1 2 seq/0\n\
                zone 3 seq offline 0 2 seq/1\n\
                ok\n\
                error power-lost\n\
                error not-mounted\n\
                error power-lost\n\
                error power-lost\n\
                ok\n\
                error bad-fault\n\
                error bad-fault\n\
                error bad-fault\n\
                error not-mounted\n\
                ok 4\n\
                zone 0 cnv good 2 2 -\n\
                zone 1 cnv read-only 2 2 -\n\
                zone 2 seq good 1 2 -\n\
                zone 3 seq offline 0 2 -\n";
    tells(&rt, alloc, device(alloc, Kind::Conventional)?, script, told)
}

/// The power goes inside a write, of which one block is left, filled. Nothing is mounted when it comes back, and no
/// number has a handle. A request writes the block behind it.
#[test]
fn the_power_goes_inside_a_write(rt: HostRuntime) -> Result<(), Fail> {
    let alloc = rt.alloc();
    let script = "mkfs\n\
                  mount\n\
                  open 0 seq/0 rw\n\
                  power-loss-in 2 write fill=ee 2:1\n\
                  power-loss-in 2 read\n\
                  write 0 0 61*8192\n\
                  power-on\n\
                  power-on\n\
                  size 0\n\
                  mount\n\
                  size 0\n\
                  open 0 seq/0 rw\n\
                  read 0 0 8192\n\
                  submit 0 4096 61*4096\n\
                  submit 1 0 61*4096\n\
                  complete\n\
                  complete\n\
                  reap\n\
                  reap\n";
    let told = "ok\n\
                ok\n\
                ok\n\
                ok\n\
                error bad-fault\n\
                error power-lost\n\
                ok\n\
                ok\n\
                error not-mounted\n\
                ok\n\
                error bad-handle\n\
                ok\n\
                ok 4096 ee*4096\n\
                ok 1\n\
                error bad-handle\n\
                ok 1\n\
                error nothing-queued\n\
                ok 1 ok\n\
                error nothing-done\n";
    tells(&rt, alloc, device(alloc, Kind::Conventional)?, script, told)
}

/// A request for which no zone may be active ends so, and the one behind it for its failure.
#[test]
fn a_request_meets_a_limit(rt: HostRuntime) -> Result<(), Fail> {
    let alloc = rt.alloc();
    tells(
        &rt,
        alloc,
        limited_device(alloc, Kind::Conventional, 0, 1)?,
        "mkfs\nmount\nopen 0 seq/0 rw\nopen 1 seq/1 rw\nsubmit 0 0 61*4096\nsubmit 1 0 62*4096\nsubmit 1 4096 63*4096\n\
         complete\ncomplete\ncomplete\nreap\nreap\nreap\nsize 1\n",
        "ok\nok\nok\nok\nok 1\nok 2\nok 3\n\
         ok 1\nok 2\nerror nothing-queued\nok 1 ok\nok 2 too-many-active\nok 3 io-error\nok 0\n",
    )
}

/// A device that doesn't tell its bytes is formatted, mounted and read, and fails.
#[test]
fn a_quiet_device_is_read(rt: HostRuntime) -> Result<(), Fail> {
    let alloc = rt.alloc();
    tells(
        &rt,
        alloc,
        Quiet {
            dev: device(alloc, Kind::Conventional)?,
        },
        "mkfs\nmount\nopen 0 seq/0 rw\nwrite 0 0 61*4096\nread 0 4090 100\nread 0 5000 4\nread 0 9000 4\nsize 0\n\
         fault 2 read\nread 0 0 1\nread 0 0 1\nturn 2 off\nread 0 0 1\n",
        "ok\nok\nok\nok\nok 6 61*6\nok 0\nerror too-big\nok 4096\nok\nerror io-error\nok 1 61*1\nok\nerror io-error\n",
    )
}

/// Lines without replies: the device has what they left, and gives it to another session.
#[test]
fn lines_are_performed(rt: HostRuntime) -> Result<(), Fail> {
    let alloc = rt.alloc();
    let Ok(mut session) = Session::new(alloc, device(alloc, Kind::Conventional)?, [1; 16]) else {
        panic!(&rt; "no memory")
    };
    let words = FormatWords {
        force: false,
        label: None,
        uuid: None,
        features: None,
    };
    let root = Who { uid: 0, gid: 0 };
    assert!(&rt; session.perform(&Line::Mkfs(words)));
    assert!(&rt; session.perform(&Line::Mount(None)));
    assert!(&rt; session.perform(&Line::Open(0, "seq/0", Mode::READ_WRITE, root)));
    Ok(())
}
