ghost use Rattle.std.specs.Prelude.{◌≡◌, ◌<◌, ◌↔◌, IsTrue, false, not, length};
ghost use Rattle.zn_truth.specs.Truth.{room, kind_at, info_at};
ghost use Rattle.zn_truth.specs.World.{geometry_of};
ghost use Rattle.zn_truth.specs.Inject.{severity};
ghost use Rattle.zn_truth.specs.Obeying.{is_answered};
ghost use Rattle.zn_device.specs.Memory.{state_of};

use crate::{Harm, MemDevice, Zoned};
use std::process::Abort;
use std::test::Fail;
use zn_truth::{Cond, DevError, Kind, Shape, ZoneInfo, ZoneNo, ZoneOp};

#[derive(Clone, Copy)]
enum Call {
    /// Writes one block to a zone at a block, each byte of it this one.
    Write(u32, u32, u8),
    /// Reads one block of a zone, in which each byte is this one where it is answered.
    Read(u32, u32, u8),
    Manage(u32, ZoneOp),
    /// Reports one zone, of which this is told.
    Report(u32, ZoneInfo),
    Flush,
}

/// What a report tells of a good zone.
fn told(held: u32, explicit: bool) -> ZoneInfo {
    ZoneInfo {
        cond: Cond::Good,
        held,
        explicit,
    }
}

/// What a report tells of a read-only zone.
fn read_only(held: u32) -> ZoneInfo {
    ZoneInfo {
        cond: Cond::ReadOnly,
        held,
        explicit: false,
    }
}

/// What a report tells of an offline zone.
const OFFLINE: ZoneInfo = ZoneInfo {
    cond: Cond::Offline,
    held: 0,
    explicit: false,
};

/// Whether more commands may follow this reply.
fn is_answered(reply: Result<(), DevError>) -> bool
    ensures { result ≡ is_answered reply }
{
    match reply {
        Err(DevError::Broken) => false,
        Err(DevError::Memory) => false,
        _ => true,
    }
}

/// The blocks that a zone has room for.
fn room_of<D: Zoned>(device: &D, z: u32) -> u32
    requires { z < length (geometry_of (D.state device.now).world).kinds }
    ensures { result
        ≡ room (geometry_of (D.state device.now).world).shape (kind_at (geometry_of (D.state device.now).world) z) }
{
    match device.kind(ZoneNo(z)) {
        Kind::Conventional => device.shape().zone_blocks,
        Kind::Sequential => device.shape().zone_capacity,
    }
}

fn carry_out<D: Zoned>(rt: &impl Abort, device: &mut D, call: Call) -> Result<(), DevError>
    requires { (D.state device.old).spoilt ≡ false }
    ensures { (D.state device.new).spoilt ≡ not (is_answered result) }
{
    match call {
        Call::Write(z, at, byte) => {
            assert!(rt; z < device.zones());
            assert!(rt; at < room_of(device, z));
            device.write(ZoneNo(z), at, &[byte; 4096])
        }
        Call::Read(z, at, byte) => {
            assert!(rt; z < device.zones());
            assert!(rt; at < room_of(device, z));
            let mut block = [0; 4096];
            let reply = device.read(ZoneNo(z), at, &mut block);
            assert!(rt; reply.is_err() || block.iter().all(|b| *b == byte));
            reply
        }
        Call::Manage(z, op) => {
            assert!(rt; z < device.zones());
            assert!(rt; device.kind(ZoneNo(z)) == Kind::Sequential);
            device.manage(ZoneNo(z), op)
        }
        Call::Report(z, expected) => {
            assert!(rt; z < device.zones());
            let mut infos = [told(0, false); 1];
            let reply = device.report(ZoneNo(z), &mut infos);
            assert_eq!(rt; infos[0], expected);
            reply
        }
        Call::Flush => device.flush(),
    }
}

/// Carries out the calls, each of which must answer as is said.
fn drive<D: Zoned>(rt: &impl Abort, device: &mut D, calls: &[(Call, Result<(), DevError>)])
    requires { (D.state device.old).spoilt ≡ false }
    ensures { (D.state device.new).spoilt ≡ false }
{
    for (i, (call, expected)) in calls.iter().enumerate() {
        let reply = carry_out(rt, device, *call);
        assert_eq!(rt; reply, *expected, "at call {i}");
        assert!(rt; is_answered(reply));
    }
}

/// What a report tells of a zone.
fn info(device: &MemDevice, z: ZoneNo) -> ZoneInfo
    requires { z.0 < length (geometry_of (state_of device.now).world).kinds }
    ensures { result ≡ info_at (state_of device.now).world.truth z.0 }
{
    device.zones.info(z)
}

/// Whether the second condition is worse.
fn is_worse(before: Cond, after: Cond) -> bool
    ensures { IsTrue result ↔ severity before < severity after }
{
    match before {
        Cond::Good => after != Cond::Good,
        Cond::ReadOnly => after == Cond::Offline,
        Cond::Offline => false,
    }
}

/// Turns a zone that has so many durable blocks then.
fn turn(rt: &impl Abort, device: &mut MemDevice, z: u32, to: Cond, durable: u32) {
    let z = ZoneNo(z);
    assert!(rt; z.0 < device.zones());
    assert!(rt; is_worse(info(device, z).cond, to));
    assert_eq!(rt; device.turn(z, to), Ok(()));
    assert!(rt; z.0 < device.zones());
    assert_eq!(rt; device.durable(z), durable);
}

/// Settles a zone that has so many durable blocks before.
fn settle(
    rt: &impl Abort,
    device: &mut MemDevice,
    z: u32,
    durable: u32,
    from: u32,
    len: u32,
    fill: Option<u8>,
) {
    let z = ZoneNo(z);
    assert!(rt; z.0 < device.zones());
    assert!(rt; device.kind(z) == Kind::Sequential);
    assert_eq!(rt; device.durable(z), durable);
    assert!(rt; durable <= from && from <= len && len <= info(device, z).held);
    assert_eq!(rt; device.settle(z, from, len, fill), Ok(()));
    assert!(rt; z.0 < device.zones());
    assert_eq!(rt; device.durable(z), len);
}

/// Makes the unflushed blocks of a conventional zone durable.
fn scrub(rt: &impl Abort, device: &mut MemDevice, z: u32, fill: Option<u8>) {
    let z = ZoneNo(z);
    assert!(rt; z.0 < device.zones());
    assert!(rt; device.kind(z) == Kind::Conventional);
    assert_eq!(rt; device.scrub(z, fill), Ok(()));
}

#[test]
fn limits(rt: HostRuntime) -> Result<(), Fail> {
    let shape = Shape {
        zone_blocks: 4,
        zone_capacity: 2,
        max_open: 1,
        max_active: 2,
    };
    let kinds = [Kind::Sequential; 4];
    let mut device = MemDevice::new(rt.alloc(), &kinds, shape)?;
    drive(
        &rt,
        &mut device,
        &[
            (Call::Write(0, 0, 1), Ok(())),
            (Call::Write(1, 0, 2), Ok(())),
            (Call::Write(2, 0, 3), Err(DevError::TooManyActive)),
            (Call::Manage(1, ZoneOp::Open), Ok(())),
            (Call::Report(1, told(1, true)), Ok(())),
            (Call::Write(0, 1, 4), Err(DevError::TooManyOpen)),
            (Call::Manage(1, ZoneOp::Close), Ok(())),
            (Call::Write(0, 1, 5), Ok(())),
            (Call::Write(2, 0, 6), Ok(())),
            (Call::Report(0, told(2, false)), Ok(())),
            (Call::Report(1, told(1, false)), Ok(())),
            (Call::Report(3, told(0, false)), Ok(())),
            (Call::Read(0, 0, 1), Ok(())),
            (Call::Read(0, 1, 5), Ok(())),
            (Call::Read(1, 0, 2), Ok(())),
            (Call::Read(1, 1, 0), Err(DevError::BeyondWp)),
            (Call::Read(2, 0, 6), Ok(())),
        ],
    );
    assert!(rt; device.powered() && device.faults() == 0 && device.breaks() == 0);
    Ok(())
}

#[test]
fn in_place(rt: HostRuntime) -> Result<(), Fail> {
    let shape = Shape {
        zone_blocks: 3,
        zone_capacity: 2,
        max_open: 0,
        max_active: 0,
    };
    let kinds = [Kind::Conventional, Kind::Sequential];
    let mut device = MemDevice::new(rt.alloc(), &kinds, shape)?;
    drive(
        &rt,
        &mut device,
        &[
            (Call::Report(0, told(3, false)), Ok(())),
            (Call::Read(0, 2, 0), Ok(())),
            (Call::Write(0, 1, 7), Ok(())),
            (Call::Flush, Ok(())),
            (Call::Write(0, 2, 8), Ok(())),
            (Call::Write(0, 1, 9), Ok(())),
            (Call::Read(0, 0, 0), Ok(())),
            (Call::Read(0, 1, 9), Ok(())),
            (Call::Read(0, 2, 8), Ok(())),
            (Call::Write(1, 1, 7), Err(DevError::Unaligned)),
            (Call::Write(1, 0, 7), Ok(())),
            (Call::Manage(1, ZoneOp::Finish), Ok(())),
            (Call::Read(1, 0, 7), Ok(())),
            (Call::Read(1, 1, 0), Ok(())),
            (Call::Manage(1, ZoneOp::Reset), Ok(())),
            (Call::Read(1, 0, 7), Err(DevError::BeyondWp)),
        ],
    );
    Ok(())
}

#[test]
fn turns(rt: HostRuntime) -> Result<(), Fail> {
    let shape = Shape {
        zone_blocks: 3,
        zone_capacity: 2,
        max_open: 1,
        max_active: 1,
    };
    let kinds = [Kind::Conventional, Kind::Sequential, Kind::Sequential];
    let mut device = MemDevice::new(rt.alloc(), &kinds, shape)?;
    drive(
        &rt,
        &mut device,
        &[
            (Call::Write(0, 1, 7), Ok(())),
            (Call::Write(1, 0, 5), Ok(())),
            (Call::Manage(1, ZoneOp::Open), Ok(())),
            (Call::Write(2, 0, 6), Err(DevError::TooManyActive)),
        ],
    );
    turn(&rt, &mut device, 0, Cond::ReadOnly, 3);
    turn(&rt, &mut device, 1, Cond::ReadOnly, 1);
    drive(
        &rt,
        &mut device,
        &[
            (Call::Report(0, read_only(3)), Ok(())),
            (Call::Read(0, 1, 7), Ok(())),
            (Call::Write(0, 1, 8), Err(DevError::ReadOnly)),
            (Call::Report(1, read_only(1)), Ok(())),
            (Call::Read(1, 0, 5), Ok(())),
            (Call::Read(1, 1, 0), Err(DevError::BeyondWp)),
            (Call::Write(1, 1, 8), Err(DevError::ReadOnly)),
            (Call::Manage(1, ZoneOp::Reset), Err(DevError::ReadOnly)),
            (Call::Write(2, 0, 6), Ok(())),
        ],
    );
    turn(&rt, &mut device, 0, Cond::Offline, 0);
    turn(&rt, &mut device, 1, Cond::Offline, 0);
    turn(&rt, &mut device, 2, Cond::Offline, 0);
    drive(
        &rt,
        &mut device,
        &[
            (Call::Report(0, OFFLINE), Ok(())),
            (Call::Read(0, 1, 7), Err(DevError::Offline)),
            (Call::Write(0, 1, 8), Err(DevError::Offline)),
            (Call::Report(1, OFFLINE), Ok(())),
            (Call::Manage(1, ZoneOp::Finish), Err(DevError::Offline)),
            (Call::Report(2, OFFLINE), Ok(())),
            (Call::Read(2, 0, 6), Err(DevError::Offline)),
            (Call::Flush, Ok(())),
        ],
    );
    Ok(())
}

#[test]
fn settles(rt: HostRuntime) -> Result<(), Fail> {
    let shape = Shape {
        zone_blocks: 4,
        zone_capacity: 4,
        max_open: 1,
        max_active: 1,
    };
    let kinds = [Kind::Sequential; 3];
    let mut device = MemDevice::new(rt.alloc(), &kinds, shape)?;
    drive(
        &rt,
        &mut device,
        &[
            (Call::Write(0, 0, 1), Ok(())),
            (Call::Flush, Ok(())),
            (Call::Write(0, 1, 2), Ok(())),
            (Call::Write(0, 2, 3), Ok(())),
        ],
    );
    settle(&rt, &mut device, 0, 1, 2, 3, Some(9));
    drive(
        &rt,
        &mut device,
        &[
            (Call::Report(0, told(3, false)), Ok(())),
            (Call::Read(0, 0, 1), Ok(())),
            (Call::Read(0, 1, 2), Ok(())),
            (Call::Read(0, 2, 9), Ok(())),
            (Call::Write(0, 3, 4), Ok(())),
        ],
    );
    settle(&rt, &mut device, 0, 4, 4, 4, Some(8));
    drive(
        &rt,
        &mut device,
        &[
            (Call::Report(0, told(4, false)), Ok(())),
            (Call::Read(0, 3, 4), Ok(())),
            (Call::Write(1, 0, 5), Ok(())),
            (Call::Write(1, 1, 6), Ok(())),
            (Call::Manage(1, ZoneOp::Open), Ok(())),
        ],
    );
    settle(&rt, &mut device, 1, 0, 0, 1, None);
    drive(
        &rt,
        &mut device,
        &[
            (Call::Report(1, told(1, true)), Ok(())),
            (Call::Read(1, 0, 5), Ok(())),
            (Call::Read(1, 1, 6), Err(DevError::BeyondWp)),
            (Call::Write(1, 2, 7), Err(DevError::Unaligned)),
            (Call::Write(1, 1, 7), Ok(())),
            (Call::Read(1, 1, 7), Ok(())),
            (Call::Manage(1, ZoneOp::Reset), Ok(())),
            (Call::Write(1, 0, 8), Ok(())),
            (Call::Manage(1, ZoneOp::Open), Ok(())),
        ],
    );
    settle(&rt, &mut device, 1, 0, 0, 0, Some(9));
    drive(
        &rt,
        &mut device,
        &[
            (Call::Report(1, told(0, true)), Ok(())),
            (Call::Read(1, 0, 9), Err(DevError::BeyondWp)),
            (Call::Write(2, 0, 1), Err(DevError::TooManyActive)),
            (Call::Manage(1, ZoneOp::Close), Ok(())),
            (Call::Write(2, 0, 1), Ok(())),
        ],
    );
    Ok(())
}

#[test]
fn scrubs(rt: HostRuntime) -> Result<(), Fail> {
    let shape = Shape {
        zone_blocks: 3,
        zone_capacity: 2,
        max_open: 0,
        max_active: 0,
    };
    let kinds = [Kind::Conventional, Kind::Conventional];
    let mut device = MemDevice::new(rt.alloc(), &kinds, shape)?;
    drive(
        &rt,
        &mut device,
        &[
            (Call::Write(0, 0, 7), Ok(())),
            (Call::Flush, Ok(())),
            (Call::Write(0, 1, 8), Ok(())),
            (Call::Write(1, 1, 5), Ok(())),
        ],
    );
    scrub(&rt, &mut device, 0, Some(9));
    drive(
        &rt,
        &mut device,
        &[
            (Call::Read(0, 0, 7), Ok(())),
            (Call::Read(0, 1, 9), Ok(())),
            (Call::Read(0, 2, 0), Ok(())),
            (Call::Read(1, 1, 5), Ok(())),
            (Call::Write(0, 2, 6), Ok(())),
        ],
    );
    scrub(&rt, &mut device, 0, None);
    scrub(&rt, &mut device, 0, Some(4));
    drive(
        &rt,
        &mut device,
        &[
            (Call::Read(0, 0, 7), Ok(())),
            (Call::Read(0, 1, 9), Ok(())),
            (Call::Read(0, 2, 6), Ok(())),
        ],
    );
    Ok(())
}

#[test]
fn rests(rt: HostRuntime) -> Result<(), Fail> {
    let shape = Shape {
        zone_blocks: 2,
        zone_capacity: 2,
        max_open: 1,
        max_active: 2,
    };
    let kinds = [Kind::Sequential; 3];
    let mut device = MemDevice::new(rt.alloc(), &kinds, shape)?;
    drive(
        &rt,
        &mut device,
        &[
            (Call::Manage(0, ZoneOp::Open), Ok(())),
            (Call::Report(0, told(0, true)), Ok(())),
            (Call::Write(1, 0, 5), Err(DevError::TooManyOpen)),
        ],
    );
    device.rest();
    drive(
        &rt,
        &mut device,
        &[
            (Call::Report(0, told(0, false)), Ok(())),
            (Call::Write(1, 0, 5), Ok(())),
            (Call::Write(2, 0, 6), Ok(())),
            (Call::Write(0, 0, 7), Err(DevError::TooManyActive)),
            (Call::Manage(1, ZoneOp::Open), Ok(())),
            (Call::Report(1, told(1, true)), Ok(())),
        ],
    );
    device.rest();
    drive(
        &rt,
        &mut device,
        &[
            (Call::Report(1, told(1, false)), Ok(())),
            (Call::Write(2, 1, 8), Ok(())),
            (Call::Report(2, told(2, false)), Ok(())),
            (Call::Read(1, 0, 5), Ok(())),
            (Call::Read(2, 1, 8), Ok(())),
            (Call::Write(0, 0, 7), Ok(())),
        ],
    );
    Ok(())
}
