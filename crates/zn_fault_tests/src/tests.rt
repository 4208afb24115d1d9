ghost use Rattle.std.specs.Prelude.{◌≡◌, ◌*◌, ◌<◌, ◌≤◌, false, not, length};
ghost use Rattle.zn_truth.specs.Truth.{room, kind_at};
ghost use Rattle.zn_truth.specs.World.{geometry_of};
ghost use Rattle.zn_truth.specs.Obeying.{is_answered, Fits};
ghost use Rattle.zn_device.specs.Harms.{is_told};

mod losses;

use std::alloc::{AllocError, Global};
use std::process::Abort;
use std::test::Fail;
use zn_device::{Injects, MemDevice, Zoned};
use zn_fault::Faulty;
use zn_truth::{
    Command, Cond, DevError, FaultSpec, InjectError, Kind, Shape, ZoneInfo, ZoneNo, ZoneOp,
};

#[derive(Clone, Copy)]
enum Call {
    /// Writes so many blocks to a zone, at most three, from a block on, each byte of them this one.
    Write(u32, u32, u32, u8),
    /// Reads one block of a zone, in which each byte is this one where it is answered.
    Read(u32, u32, u8),
    Manage(u32, ZoneOp),
    /// Reports so many zones, at most three, from one on, of which the last is this where it is answered.
    Report(u32, u32, ZoneInfo),
    Flush,
}

/// What a report tells of a good zone.
fn told(held: u32, explicit: bool) -> ZoneInfo {
    ZoneInfo {
        cond: Cond::Good,
        held,
        explicit,
    }
}

/// What a report tells of a zone that turned.
fn turned(cond: Cond, held: u32) -> ZoneInfo {
    ZoneInfo {
        cond,
        held,
        explicit: false,
    }
}

/// Whether more commands may follow this reply.
fn is_answered(reply: Result<(), DevError>) -> bool
    ensures { result ≡ is_answered reply }
{
    match reply {
        Err(DevError::Broken) => false,
        Err(DevError::Memory) => false,
        _ => true,
    }
}

/// The blocks that a zone has room for.
fn room_of<D: Zoned>(device: &D, z: u32) -> u32
    requires { z < length (geometry_of (D.state device.now).world).kinds }
    ensures { result
        ≡ room (geometry_of (D.state device.now).world).shape (kind_at (geometry_of (D.state device.now).world) z) }
{
    match device.kind(ZoneNo(z)) {
        Kind::Conventional => device.shape().zone_blocks,
        Kind::Sequential => device.shape().zone_capacity,
    }
}

/// Writes so many of the first blocks of these bytes.
fn write<D: Zoned>(device: &mut D, z: ZoneNo, at: u32, n: u32, bytes: &[u8]) -> Result<(), DevError>
    requires some { 0 < n }
    requires most { 4096 * n ≤ length bytes.now }
    requires fits { Fits (geometry_of (D.state device.old).world) z.0 at n }
    requires unspoilt { (D.state device.old).spoilt ≡ false }
    ensures { (D.state device.new).spoilt ≡ not (is_answered result) }
{
    device.write(z, at, &bytes[..4096 * n as usize])
}

fn carry_out<D: Zoned>(rt: &impl Abort, device: &mut D, call: Call) -> Result<(), DevError>
    requires { (D.state device.old).spoilt ≡ false }
    ensures { (D.state device.new).spoilt ≡ not (is_answered result) }
{
    match call {
        Call::Write(z, at, n, byte) => {
            assert!(rt; z < device.zones() && 0 < n && n <= 3);
            assert!(rt; n <= room_of(device, z) && at <= room_of(device, z) - n);
            write(device, ZoneNo(z), at, n, &[byte; 12288])
        }
        Call::Read(z, at, byte) => {
            assert!(rt; z < device.zones());
            assert!(rt; at < room_of(device, z));
            let mut block = [0; 4096];
            let reply = device.read(ZoneNo(z), at, &mut block);
            assert!(rt; reply.is_err() || block.iter().all(|b| *b == byte));
            reply
        }
        Call::Manage(z, op) => {
            assert!(rt; z < device.zones());
            assert!(rt; device.kind(ZoneNo(z)) == Kind::Sequential);
            device.manage(ZoneNo(z), op)
        }
        Call::Report(first, n, expected) => {
            let mut infos = [told(0, false); 3];
            assert!(rt; first < device.zones() && 0 < n && n <= 3 && n <= device.zones() - first);
            let reply = device.report(ZoneNo(first), &mut infos[..n as usize]);
            assert!(rt; reply.is_err() || infos[n as usize - 1] == expected);
            reply
        }
        Call::Flush => device.flush(),
    }
}

/// Carries out the calls, each of which must answer as is said.
fn drive<D: Zoned>(rt: &impl Abort, device: &mut D, calls: &[(Call, Result<(), DevError>)])
    requires { (D.state device.old).spoilt ≡ false }
    ensures { (D.state device.new).spoilt ≡ false }
{
    for (i, (call, expected)) in calls.iter().enumerate() {
        let reply = carry_out(rt, device, *call);
        assert_eq!(rt; reply, *expected, "at call {i}");
        assert!(rt; is_answered(reply));
    }
}

/// Tells faults to wait, each of which must be answered as is said.
fn inject<D: Injects>(
    rt: &impl Abort,
    device: &mut D,
    faults: &[(u32, Command, Option<u32>, Result<(), InjectError>)],
)
    requires { (D.state device.old).spoilt ≡ false }
    ensures { (D.state device.new).spoilt ≡ false }
{
    for (i, (zone, command, keep, expected)) in faults.iter().enumerate() {
        let reply = device.inject(FaultSpec {
            zone: ZoneNo(*zone),
            command: *command,
            keep: *keep,
        });
        assert_eq!(rt; reply, *expected, "at fault {i}");
    }
}

/// Whether more commands may follow this answer to a turn.
fn is_told(reply: Result<(), InjectError>) -> bool
    ensures { result ≡ is_told reply }
{
    match reply {
        Err(InjectError::Broken) => false,
        Err(InjectError::Memory) => false,
        _ => true,
    }
}

/// Turns zones, each of which must be answered as is said.
fn turn<D: Injects>(rt: &impl Abort, device: &mut D, turns: &[(u32, Cond, Result<(), InjectError>)])
    requires { (D.state device.old).spoilt ≡ false }
    ensures { (D.state device.new).spoilt ≡ false }
{
    for (i, (zone, to, expected)) in turns.iter().enumerate() {
        let reply = device.turn(ZoneNo(*zone), *to);
        assert_eq!(rt; reply, *expected, "at turn {i}");
        assert!(rt; is_told(reply));
    }
}

/// A conventional zone of six blocks and two sequential ones, of which no more may be open or active, and no faults.
fn limited(alloc: Global, most: u32) -> Result<Faulty<MemDevice>, AllocError>
    requires { most ≤ 2 }
{
    let shape = Shape {
        zone_blocks: 6,
        zone_capacity: 6,
        max_open: most,
        max_active: most,
    };
    let kinds = [Kind::Conventional, Kind::Sequential, Kind::Sequential];
    Faulty::new(alloc, MemDevice::new(alloc, &kinds, shape)?).map_err(|_| AllocError)
}

/// The same zones without limits.
fn device(alloc: Global) -> Result<Faulty<MemDevice>, AllocError> {
    limited(alloc, 0)
}

#[test]
fn each_command(rt: HostRuntime) -> Result<(), Fail> {
    let mut device = device(rt.alloc())?;
    inject(
        &rt,
        &mut device,
        &[
            (1, Command::Read, None, Ok(())),
            (1, Command::Write, None, Ok(())),
            (1, Command::Reset, None, Ok(())),
            (1, Command::Finish, None, Ok(())),
            (1, Command::Flush, None, Ok(())),
            (1, Command::Open, None, Ok(())),
            (1, Command::Close, None, Ok(())),
            (1, Command::Report, None, Ok(())),
        ],
    );
    drive(
        &rt,
        &mut device,
        &[
            (Call::Report(0, 1, told(6, false)), Ok(())),
            (Call::Report(0, 3, told(0, false)), Err(DevError::Fault)),
            (Call::Report(0, 3, told(0, false)), Ok(())),
            (Call::Write(2, 0, 1, 5), Ok(())),
            (Call::Write(1, 0, 1, 7), Err(DevError::Fault)),
            (Call::Report(1, 1, told(0, false)), Ok(())),
            (Call::Write(1, 0, 1, 7), Ok(())),
            (Call::Read(2, 0, 5), Ok(())),
            (Call::Read(1, 0, 7), Err(DevError::Fault)),
            (Call::Read(1, 0, 7), Ok(())),
            (Call::Manage(1, ZoneOp::Open), Err(DevError::Fault)),
            (Call::Report(1, 1, told(1, false)), Ok(())),
            (Call::Manage(1, ZoneOp::Open), Ok(())),
            (Call::Manage(1, ZoneOp::Close), Err(DevError::Fault)),
            (Call::Report(1, 1, told(1, true)), Ok(())),
            (Call::Manage(1, ZoneOp::Close), Ok(())),
            (Call::Manage(1, ZoneOp::Reset), Err(DevError::Fault)),
            (Call::Report(1, 1, told(1, false)), Ok(())),
            (Call::Manage(1, ZoneOp::Reset), Ok(())),
            (Call::Manage(1, ZoneOp::Finish), Err(DevError::Fault)),
            (Call::Report(1, 1, told(0, false)), Ok(())),
            (Call::Manage(1, ZoneOp::Finish), Ok(())),
            (Call::Flush, Err(DevError::Fault)),
            (Call::Report(1, 1, told(6, false)), Ok(())),
            (Call::Flush, Ok(())),
        ],
    );
    assert!(rt; device.powered() && device.faults() == 8 && device.breaks() == 0);
    Ok(())
}

#[test]
fn parts_of_writes(rt: HostRuntime) -> Result<(), Fail> {
    let mut device = device(rt.alloc())?;
    inject(
        &rt,
        &mut device,
        &[
            (1, Command::Write, Some(1), Ok(())),
            (1, Command::Write, Some(9), Ok(())),
            (1, Command::Write, Some(2), Ok(())),
            (1, Command::Write, None, Ok(())),
            (0, Command::Write, Some(1), Ok(())),
        ],
    );
    drive(
        &rt,
        &mut device,
        &[
            (Call::Write(1, 0, 3, 7), Err(DevError::Fault)),
            (Call::Report(1, 1, told(1, false)), Ok(())),
            (Call::Read(1, 0, 7), Ok(())),
            (Call::Read(1, 1, 0), Err(DevError::BeyondWp)),
            (Call::Write(1, 1, 2, 8), Err(DevError::Fault)),
            (Call::Report(1, 1, told(3, false)), Ok(())),
            (Call::Read(1, 2, 8), Ok(())),
            (Call::Write(1, 5, 1, 9), Err(DevError::Unaligned)),
            (Call::Report(1, 1, told(3, false)), Ok(())),
            (Call::Write(1, 3, 1, 9), Err(DevError::Fault)),
            (Call::Report(1, 1, told(3, false)), Ok(())),
            (Call::Write(1, 3, 1, 9), Ok(())),
            (Call::Report(1, 1, told(4, false)), Ok(())),
            (Call::Write(0, 2, 2, 4), Err(DevError::Fault)),
            (Call::Read(0, 2, 4), Ok(())),
            (Call::Read(0, 3, 0), Ok(())),
        ],
    );
    assert!(rt; device.faults() == 5);
    Ok(())
}

#[test]
fn parts_of_flushes(rt: HostRuntime) -> Result<(), Fail> {
    let mut device = device(rt.alloc())?;
    drive(
        &rt,
        &mut device,
        &[
            (Call::Write(1, 0, 2, 7), Ok(())),
            (Call::Flush, Ok(())),
            (Call::Write(1, 2, 2, 8), Ok(())),
            (Call::Write(2, 0, 3, 5), Ok(())),
        ],
    );
    inject(
        &rt,
        &mut device,
        &[
            (1, Command::Flush, Some(3), Ok(())),
            (1, Command::Flush, None, Ok(())),
            (2, Command::Flush, Some(1), Ok(())),
            (2, Command::Flush, Some(9), Ok(())),
            (0, Command::Flush, Some(2), Ok(())),
            (1, Command::Flush, Some(0), Ok(())),
        ],
    );
    drive(
        &rt,
        &mut device,
        &[
            (Call::Flush, Err(DevError::Fault)),
            (Call::Report(1, 1, told(3, false)), Ok(())),
            (Call::Read(1, 2, 8), Ok(())),
            (Call::Read(1, 3, 8), Err(DevError::BeyondWp)),
            (Call::Write(1, 3, 1, 9), Ok(())),
            (Call::Flush, Err(DevError::Fault)),
            (Call::Report(1, 1, told(3, false)), Ok(())),
            (Call::Report(2, 1, told(3, false)), Ok(())),
            (Call::Flush, Err(DevError::Fault)),
            (Call::Report(2, 1, told(1, false)), Ok(())),
            (Call::Flush, Err(DevError::Fault)),
            (Call::Report(2, 1, told(1, false)), Ok(())),
            (Call::Flush, Err(DevError::Fault)),
            (Call::Report(0, 1, told(6, false)), Ok(())),
        ],
    );
    turn(&rt, &mut device, &[(1, Cond::ReadOnly, Ok(()))]);
    drive(
        &rt,
        &mut device,
        &[
            (Call::Flush, Err(DevError::Fault)),
            (Call::Report(1, 1, turned(Cond::ReadOnly, 3)), Ok(())),
            (Call::Flush, Ok(())),
        ],
    );
    assert!(rt; device.faults() == 6);
    Ok(())
}

#[test]
fn first_of_two(rt: HostRuntime) -> Result<(), Fail> {
    let mut device = device(rt.alloc())?;
    inject(
        &rt,
        &mut device,
        &[
            (1, Command::Write, Some(2), Ok(())),
            (2, Command::Write, Some(3), Ok(())),
            (1, Command::Write, Some(1), Ok(())),
        ],
    );
    drive(
        &rt,
        &mut device,
        &[
            (Call::Write(1, 0, 3, 7), Err(DevError::Fault)),
            (Call::Report(1, 1, told(2, false)), Ok(())),
            (Call::Write(1, 2, 3, 8), Err(DevError::Fault)),
            (Call::Report(1, 1, told(3, false)), Ok(())),
            (Call::Write(1, 3, 1, 9), Ok(())),
            (Call::Report(1, 1, told(4, false)), Ok(())),
            (Call::Write(2, 0, 3, 5), Err(DevError::Fault)),
            (Call::Report(2, 1, told(3, false)), Ok(())),
        ],
    );
    Ok(())
}

#[test]
fn as_many_as_may_wait(rt: HostRuntime) -> Result<(), Fail> {
    let mut device = device(rt.alloc())?;
    inject(&rt, &mut device, &[(1, Command::Read, None, Ok(())); 64]);
    inject(
        &rt,
        &mut device,
        &[
            (1, Command::Read, None, Err(InjectError::TooManyFaults)),
            (3, Command::Read, None, Err(InjectError::BadFault)),
        ],
    );
    drive(
        &rt,
        &mut device,
        &[
            (Call::Write(1, 0, 1, 7), Ok(())),
            (Call::Read(1, 0, 7), Err(DevError::Fault)),
        ],
    );
    inject(
        &rt,
        &mut device,
        &[
            (1, Command::Read, None, Ok(())),
            (1, Command::Read, None, Err(InjectError::TooManyFaults)),
        ],
    );
    drive(
        &rt,
        &mut device,
        &[(Call::Read(1, 0, 7), Err(DevError::Fault)); 64],
    );
    drive(&rt, &mut device, &[(Call::Read(1, 0, 7), Ok(()))]);
    assert!(rt; device.faults() == 65);
    Ok(())
}

#[test]
fn refusals(rt: HostRuntime) -> Result<(), Fail> {
    let mut device = device(rt.alloc())?;
    inject(
        &rt,
        &mut device,
        &[
            (3, Command::Report, None, Err(InjectError::BadFault)),
            (0, Command::Reset, None, Err(InjectError::BadFault)),
            (0, Command::Open, None, Err(InjectError::BadFault)),
            (1, Command::Read, Some(1), Err(InjectError::BadFault)),
            (1, Command::Finish, Some(0), Err(InjectError::BadFault)),
        ],
    );
    drive(&rt, &mut device, &[(Call::Write(1, 0, 1, 7), Ok(()))]);
    turn(
        &rt,
        &mut device,
        &[
            (3, Cond::Offline, Err(InjectError::BadFault)),
            (1, Cond::Good, Err(InjectError::BadFault)),
            (1, Cond::ReadOnly, Ok(())),
            (1, Cond::ReadOnly, Err(InjectError::BadFault)),
            (1, Cond::Good, Err(InjectError::BadFault)),
        ],
    );
    drive(
        &rt,
        &mut device,
        &[
            (Call::Report(1, 1, turned(Cond::ReadOnly, 1)), Ok(())),
            (Call::Write(1, 1, 1, 8), Err(DevError::ReadOnly)),
            (Call::Read(1, 0, 7), Ok(())),
        ],
    );
    turn(
        &rt,
        &mut device,
        &[
            (1, Cond::Offline, Ok(())),
            (1, Cond::ReadOnly, Err(InjectError::BadFault)),
            (1, Cond::Offline, Err(InjectError::BadFault)),
        ],
    );
    assert!(rt; device.faults() == 0);
    let mut inner = device.into_inner();
    drive(
        &rt,
        &mut inner,
        &[
            (Call::Report(1, 1, turned(Cond::Offline, 0)), Ok(())),
            (Call::Read(1, 0, 7), Err(DevError::Offline)),
        ],
    );
    Ok(())
}
