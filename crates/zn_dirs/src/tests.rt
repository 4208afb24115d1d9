ghost use Rattle.std.specs.Prelude.{◌≡◌, ◌<◌, false, not, length, OnOk};
ghost use Rattle.zn_truth.specs.Truth.{room, kind_at};
ghost use Rattle.zn_truth.specs.World.{geometry_of};
ghost use Rattle.zn_truth.specs.Obeying.{is_answered};
ghost use Rattle.zn_device.specs.Harms.{is_told};

use std::alloc::Global;
use std::fs;
use std::process::Abort;
use std::test::Fail;
use zn_backing::OpenError;
use zn_base::memory::MemSink;
use zn_base::{Part, write_parts};
use zn_device::{Injects, Zoned};
use zn_fault::Faulty;
use zn_files::{FileCall, Files, MemFiles, Text};
use zn_host::HostFiles;
use zn_runs::write_runs;
use zn_stand::Geometry;
use zn_truth::{
    Cond, Cuts, DevError, InjectError, Kind, LossSpec, Shape, ZoneInfo, ZoneNo, ZoneOp,
};
use zn_zloop::Zloop;

mod damage;

/// Four zones of four blocks, the first of them conventional, the others with room for three blocks. Two may be active.
const GEOMETRY: Geometry = Geometry {
    zones: 4,
    conv: 1,
    shape: Shape {
        zone_blocks: 4,
        zone_capacity: 3,
        max_open: 0,
        max_active: 2,
    },
};

/// What is asked of a device, of the zone with this number.
#[derive(Clone, Copy)]
enum Ask {
    /// Writes a block at this one, each byte of it this value.
    Write(u32, u32, u8),
    /// Reads a block, each byte of which is this value.
    Read(u32, u32, u8),
    Manage(u32, ZoneOp),
    Flush,
    Turn(u32, Cond),
    /// The power goes, and comes back. The zone is cut to so many blocks, and what isn't durable holds this value.
    Lose(u32, u32, u8),
}

/// Every call of a device over files, each with its answer.
const RUN: [(Ask, Result<(), DevError>); 25] = [
    (Ask::Write(0, 1, 0x61), Ok(())),
    (Ask::Write(1, 0, 0x62), Ok(())),
    (Ask::Write(1, 1, 0x63), Ok(())),
    (Ask::Manage(1, ZoneOp::Open), Ok(())),
    (Ask::Flush, Ok(())),
    (Ask::Write(2, 0, 0x64), Ok(())),
    (Ask::Write(3, 0, 0x65), Err(DevError::TooManyActive)),
    (Ask::Write(1, 1, 0x65), Err(DevError::Unaligned)),
    (Ask::Read(1, 1, 0x63), Ok(())),
    // The zone is full.
    (Ask::Write(1, 2, 0x65), Ok(())),
    (Ask::Manage(2, ZoneOp::Close), Ok(())),
    (Ask::Write(2, 1, 0x66), Ok(())),
    (Ask::Manage(2, ZoneOp::Finish), Ok(())),
    (Ask::Read(2, 2, 0), Ok(())),
    (Ask::Manage(1, ZoneOp::Reset), Ok(())),
    (Ask::Write(1, 0, 0x67), Ok(())),
    (Ask::Write(3, 0, 0x68), Ok(())),
    (Ask::Write(3, 1, 0x69), Ok(())),
    (Ask::Write(0, 2, 0x6a), Ok(())),
    (Ask::Lose(3, 1, 0xee), Ok(())),
    (Ask::Write(3, 1, 0x6b), Ok(())),
    (Ask::Turn(3, Cond::ReadOnly), Ok(())),
    (Ask::Write(3, 2, 0x6b), Err(DevError::ReadOnly)),
    (Ask::Turn(2, Cond::Offline), Ok(())),
    (Ask::Write(0, 0, 0x6c), Ok(())),
];

/// What the device then holds: of each zone its condition, the blocks that it holds, and their bytes.
const HELD: &str =
    "good 4 6c*4096+61*4096+ee*4096+00*4096\ngood 0 \noffline 0 \nread-only 2 ee*4096+6b*4096\n";

/// Whether more commands may follow this reply.
fn is_answered(reply: Result<(), DevError>) -> bool
    ensures { result ≡ is_answered reply }
{
    match reply {
        Err(DevError::Broken) => false,
        Err(DevError::Memory) => false,
        _ => true,
    }
}

/// The reply to what a script asks for, which isn't refused for what it asks.
fn told(rt: &impl Abort, reply: Result<(), InjectError>) -> Result<(), DevError>
    ensures { is_answered result ≡ is_told reply }
{
    match reply {
        Ok(()) => Ok(()),
        Err(InjectError::PowerLost) => Err(DevError::PowerLost),
        Err(InjectError::Broken) => Err(DevError::Broken),
        Err(InjectError::Memory) => Err(DevError::Memory),
        Err(_) => panic!(rt; "refused"),
    }
}

/// The blocks that a zone has room for.
fn room_of<D: Zoned>(device: &D, z: u32) -> u32
    requires { z < length (geometry_of (D.state device.now).world).kinds }
    ensures { result
        ≡ room (geometry_of (D.state device.now).world).shape (kind_at (geometry_of (D.state device.now).world) z) }
{
    match device.kind(ZoneNo(z)) {
        Kind::Conventional => device.shape().zone_blocks,
        Kind::Sequential => device.shape().zone_capacity,
    }
}

fn read<D: Zoned>(
    rt: &impl Abort,
    device: &mut D,
    z: u32,
    at: u32,
    out: &mut [u8; 4096],
) -> Result<(), DevError>
    requires { (D.state device.old).spoilt ≡ false }
    ensures { (D.state device.new).spoilt ≡ not (is_answered result) }
{
    assert!(rt; z < device.zones());
    assert!(rt; at < room_of(device, z));
    device.read(ZoneNo(z), at, out)
}

fn lose<D: Injects>(
    rt: &impl Abort,
    device: &mut D,
    z: u32,
    blocks: u32,
    fill: u8,
) -> Result<(), DevError>
    requires { (D.state device.old).spoilt ≡ false }
    ensures { (D.state device.new).spoilt ≡ not (is_answered result) }
{
    let mut cuts = Cuts::new();
    assert!(rt; cuts.push(ZoneNo(z), blocks));
    let loss = LossSpec {
        cuts,
        fill: Some(fill),
    };
    let reply = told(rt, device.lose_power(&loss));
    device.power_on();
    reply
}

fn carry_out<D: Injects>(rt: &impl Abort, device: &mut D, ask: Ask) -> Result<(), DevError>
    requires { (D.state device.old).spoilt ≡ false }
    ensures { (D.state device.new).spoilt ≡ not (is_answered result) }
{
    match ask {
        Ask::Write(z, at, value) => {
            assert!(rt; z < device.zones());
            assert!(rt; at < room_of(device, z));
            device.write(ZoneNo(z), at, &[value; 4096])
        }
        Ask::Read(z, at, value) => {
            let mut block = [0; 4096];
            let reply = read(rt, device, z, at, &mut block);
            assert!(rt; reply.is_err() || block.iter().all(|byte| *byte == value));
            reply
        }
        Ask::Manage(z, op) => {
            assert!(rt; z < device.zones());
            assert!(rt; device.kind(ZoneNo(z)) == Kind::Sequential);
            device.manage(ZoneNo(z), op)
        }
        Ask::Flush => device.flush(),
        Ask::Turn(z, to) => told(rt, device.turn(ZoneNo(z), to)),
        Ask::Lose(z, blocks, fill) => lose(rt, device, z, blocks, fill),
    }
}

/// Carries out every call, up to the first that breaks.
fn drive<D: Injects>(rt: &impl Abort, device: &mut D) -> bool
    requires { (D.state device.old).spoilt ≡ false }
    ensures { (D.state device.new).spoilt ≡ not result }
{
    for (i, (ask, want)) in RUN.iter().enumerate() {
        let reply = carry_out(rt, device, *ask);
        if reply == Err(DevError::Broken) {
            return false;
        }
        assert_eq!(rt; reply, *want, "at call {i}");
        assert!(rt; is_answered(reply));
    }
    true
}

fn cond_text(cond: Cond) -> &'static str {
    match cond {
        Cond::Good => "good ",
        Cond::ReadOnly => "read-only ",
        Cond::Offline => "offline ",
    }
}

/// What a report tells of a zone, which isn't explicitly open.
fn info<D: Zoned>(rt: &impl Abort, device: &mut D, z: u32) -> ZoneInfo
    requires { (D.state device.old).spoilt ≡ false }
    ensures { (D.state device.new).spoilt ≡ false }
{
    let mut infos = [ZoneInfo {
        cond: Cond::Offline,
        held: 0,
        explicit: true,
    }];
    assert!(rt; z < device.zones());
    let reply = device.report(ZoneNo(z), &mut infos);
    assert!(rt; reply.is_ok() && is_answered(reply));
    assert!(rt; !infos[0].explicit);
    infos[0]
}

/// A block of a zone.
fn block<D: Zoned>(rt: &impl Abort, device: &mut D, z: u32, at: u32) -> [u8; 4096]
    requires { (D.state device.old).spoilt ≡ false }
    ensures { (D.state device.new).spoilt ≡ false }
{
    let mut block = [0; 4096];
    let reply = read(rt, device, z, at, &mut block);
    assert!(rt; reply.is_ok() && is_answered(reply));
    block
}

/// The blocks that a zone holds.
fn blocks<D: Zoned>(
    rt: &impl Abort,
    alloc: Global,
    device: &mut D,
    z: u32,
    held: u32,
) -> Result<Vec<u8>, Fail>
    requires { (D.state device.old).spoilt ≡ false }
    ensures { OnOk result ((D.state device.new).spoilt ≡ false) }
{
    let mut bytes = Vec::new(alloc);
    for at in 0..held {
        bytes.extend_from_slice(&block(rt, device, z, at))?;
    }
    Ok(bytes)
}

/// Writes what a zone is told to be, and what it holds.
fn show_zone<D: Zoned>(
    rt: &impl Abort,
    alloc: Global,
    device: &mut D,
    z: u32,
    sink: &mut MemSink,
) -> Result<(), Fail>
    requires { (D.state device.old).spoilt ≡ false }
    ensures { OnOk result ((D.state device.new).spoilt ≡ false) }
{
    let info = info(rt, device, z);
    let bytes = blocks(rt, alloc, device, z, info.held)?;
    let parts = [
        Part::Text(cond_text(info.cond).as_bytes()),
        Part::Number(info.held as u64),
        Part::Text(b" "),
    ];
    assert!(rt; write_parts(sink, &parts).is_ok());
    assert!(rt; write_runs(sink, &bytes, &mut [0; 64]).is_ok());
    assert!(rt; write_parts(sink, &[Part::Text(b"\n")]).is_ok());
    Ok(())
}

/// The device holds what it is to hold.
fn holds<D: Zoned>(rt: &impl Abort, alloc: Global, device: &mut D) -> Result<(), Fail>
    requires { (D.state device.old).spoilt ≡ false }
{
    let mut sink = MemSink::new(alloc, 512, Vec::new(alloc))?;
    for z in 0..4 {
        show_zone(rt, alloc, device, z, &mut sink)?;
    }
    assert_eq!(rt; sink.bytes(), HELD.as_bytes());
    Ok(())
}

/// A device over these files.
fn opened<F: Files + Drop>(rt: &impl Abort, alloc: Global, files: F) -> Zloop<F>
    ensures { (⟦<Zloop<F> as Zoned>⟧.state result).spoilt ≡ false }
{
    match Zloop::open(alloc, files) {
        Ok(device) => device,
        Err(_) => panic!(rt; "not opened"),
    }
}

/// The same, with room for what a script asks for.
fn harmed<F: Files + Drop>(rt: &impl Abort, alloc: Global, device: Zloop<F>) -> Faulty<Zloop<F>>
    requires { (⟦<Zloop<F> as Zoned>⟧.state device).spoilt ≡ false }
    ensures { (⟦<Faulty<Zloop<F>> as Zoned>⟧.state result).spoilt ≡ false }
{
    match Faulty::new(alloc, device) {
        Ok(device) => device,
        Err(_) => panic!(rt; "no room"),
    }
}

/// A device is made and opened, every call is made on it, it is given back and opened again, and holds what it held.
/// These are the files of it.
fn used<F: Files + Drop>(rt: &impl Abort, alloc: Global, mut files: F) -> Result<F, Fail> {
    assert!(rt; Zloop::create(alloc, &mut files, &GEOMETRY).is_ok());
    let device = opened(rt, alloc, files);
    let mut device = harmed(rt, alloc, device);
    assert!(rt; drive(rt, &mut device));
    holds(rt, alloc, &mut device)?;
    let files = device.into_inner().into_files();
    let mut device = opened(rt, alloc, files);
    holds(rt, alloc, &mut device)?;
    Ok(device.into_files())
}

#[test]
fn holds_what_it_held(rt: HostRuntime) -> Result<(), Fail> {
    let alloc = rt.alloc();
    let mut files = used(&rt, alloc, MemFiles::new(alloc))?;
    let names = files.names()?;
    let wanted = [
        "cnv-000000",
        "device",
        "seq-000001",
        "seq-000002",
        "seq-000002.off",
        "seq-000003",
        "seq-000003.ro",
    ];
    assert_eq!(rt; names.count(), wanted.len());
    for (i, name) in wanted.iter().enumerate() {
        assert!(rt; i < names.count());
        assert_eq!(rt; names.at(i), *name);
    }
    Ok(())
}

#[test]
fn lies_in_a_directory_of_the_host(rt: HostRuntime) -> Result<(), Fail> {
    let path = "zn_dirs_device";
    let alloc = rt.alloc();
    let _ = fs::remove_dir_all(&rt, path);
    fs::create_dir(&rt, path)?;
    let files = HostFiles::new(rt, alloc, Text::new(alloc, path.as_bytes())?);
    drop(used(&rt, alloc, files)?);
    let files = HostFiles::new(rt, alloc, Text::new(alloc, path.as_bytes())?);
    let mut device = opened(&rt, alloc, files);
    holds(&rt, alloc, &mut device)?;
    fs::remove_dir_all(&rt, path)?;
    Ok(())
}

/// Makes every call on a device in a directory of which one call fails. Whether it came, as it must: as a fault of the
/// open, or as a break of a command, counted once. What is left opens.
fn strikes(rt: &impl Abort, alloc: Global, call: FileCall, nth: u64) -> Result<bool, Fail> {
    let mut files = MemFiles::new(alloc);
    assert!(rt; Zloop::create(alloc, &mut files, &GEOMETRY).is_ok());
    assert!(rt; 1 <= nth);
    files.fail(call, nth)?;
    let device = match Zloop::open(alloc, files) {
        Ok(device) => device,
        Err(fail) => {
            assert!(rt; matches!(fail.why, OpenError::Fault));
            assert_eq!(rt; fail.files.faults(), 1);
            drop(opened(rt, alloc, fail.files));
            return Ok(true);
        }
    };
    let mut device = harmed(rt, alloc, device);
    if drive(rt, &mut device) {
        return Ok(false);
    }
    assert_eq!(rt; device.breaks(), 1);
    drop(opened(rt, alloc, device.into_inner().into_files()));
    Ok(true)
}

#[test]
fn breaks_where_a_call_fails(rt: HostRuntime) -> Result<(), Fail> {
    // How many calls of each kind there are, from the open to the end.
    let calls = [
        (FileCall::Names, 1),
        (FileCall::Len, 5),
        (FileCall::ReadAt, 3),
        (FileCall::WriteAt, 14),
        (FileCall::SetLen, 4),
        (FileCall::Create, 2),
        (FileCall::Sync, 18),
    ];
    for (call, count) in calls {
        let mut struck = 0;
        for nth in 1..100 {
            if !strikes(&rt, rt.alloc(), call, nth)? {
                break;
            }
            struck = nth;
        }
        assert_eq!(rt; struck, count, "of {call:?}");
    }
    Ok(())
}
