use crate::{Raw, ZoneError, Zones};
use std::alloc::{AllocError, Global};
use std::process::Abort;
use std::test::Fail;
use zn_truth::{Cond, Kind, Shape, ZoneInfo, ZoneNo, ZoneOp};

const EMPTY: ZoneInfo = ZoneInfo {
    cond: Cond::Good,
    held: 0,
    explicit: false,
};

/// Four empty sequential zones of two blocks and a conventional one, of which one may be open and two active.
fn five_zones(alloc: Global) -> Result<Zones, AllocError> {
    let kinds = [
        Kind::Sequential,
        Kind::Sequential,
        Kind::Sequential,
        Kind::Sequential,
        Kind::Conventional,
    ];
    let whole = ZoneInfo {
        cond: Cond::Good,
        held: 2,
        explicit: false,
    };
    let info = [EMPTY, EMPTY, EMPTY, EMPTY, whole];
    let shape = Shape {
        zone_blocks: 2,
        zone_capacity: 2,
        max_open: 1,
        max_active: 2,
    };
    Zones::new(alloc, &kinds, shape, &info)
}

#[derive(Clone, Copy)]
enum Call {
    Write(u32, u32, u32),
    Manage(u32, ZoneOp),
    Turn(u32, Cond),
}

fn carry_out(rt: &impl Abort, zones: &mut Zones, call: Call) -> Result<(), ZoneError> {
    match call {
        Call::Write(z, at, blocks) => {
            assert!(rt; z < zones.zones());
            assert!(rt; zones.kind(ZoneNo(z)) == Kind::Sequential);
            assert!(rt; 1 <= blocks && blocks <= 8 && at <= 8);
            assert!(rt; at + blocks <= zones.shape().zone_capacity);
            zones.write(ZoneNo(z), at, blocks)
        }
        Call::Manage(z, op) => {
            assert!(rt; z < zones.zones());
            assert!(rt; zones.kind(ZoneNo(z)) == Kind::Sequential);
            zones.manage(ZoneNo(z), op)
        }
        Call::Turn(z, to) => {
            assert!(rt; z < zones.zones());
            assert!(rt; zones.raw(ZoneNo(z)).cond() == Cond::Good && to != Cond::Good);
            zones.turn(ZoneNo(z), to);
            Ok(())
        }
    }
}

/// The condition of a zone.
fn raw(rt: &impl Abort, zones: &Zones, z: u32) -> Raw {
    assert!(rt; z < zones.zones());
    zones.raw(ZoneNo(z))
}

/// Each call with its answer, and what zone 0 is after it.
#[test]
fn limits_and_conditions(rt: HostRuntime) -> Result<(), Fail> {
    let mut zones = five_zones(rt.alloc())?;
    let calls = [
        (Call::Write(0, 0, 1), Ok(()), Raw::ImplicitOpen),
        (Call::Write(1, 0, 1), Ok(()), Raw::Closed),
        (
            Call::Write(2, 0, 1),
            Err(ZoneError::TooManyActive),
            Raw::Closed,
        ),
        (Call::Manage(1, ZoneOp::Open), Ok(()), Raw::Closed),
        (
            Call::Write(0, 1, 1),
            Err(ZoneError::TooManyOpen),
            Raw::Closed,
        ),
        (Call::Manage(1, ZoneOp::Close), Ok(()), Raw::Closed),
        (Call::Write(0, 1, 1), Ok(()), Raw::Full),
        (Call::Write(2, 0, 1), Ok(()), Raw::Full),
        (Call::Manage(1, ZoneOp::Reset), Ok(()), Raw::Full),
        (Call::Manage(3, ZoneOp::Open), Ok(()), Raw::Full),
        (Call::Manage(3, ZoneOp::Finish), Ok(()), Raw::Full),
        (Call::Turn(2, Cond::ReadOnly), Ok(()), Raw::Full),
        (Call::Write(2, 1, 1), Err(ZoneError::ReadOnly), Raw::Full),
        (Call::Turn(1, Cond::Offline), Ok(()), Raw::Full),
        (
            Call::Manage(1, ZoneOp::Open),
            Err(ZoneError::Offline),
            Raw::Full,
        ),
        (Call::Write(0, 0, 1), Err(ZoneError::Unaligned), Raw::Full),
        (Call::Manage(0, ZoneOp::Reset), Ok(()), Raw::Empty),
    ];
    for (i, (made, want, first)) in calls.into_iter().enumerate() {
        assert_eq!(rt; carry_out(&rt, &mut zones, made), want, "call {i}");
        assert_eq!(rt; raw(&rt, &zones, 0), first, "zone 0 after call {i}");
    }
    let ends = [
        Raw::Empty,
        Raw::Offline,
        Raw::ReadOnly,
        Raw::Full,
        Raw::NotWp,
    ];
    for (z, want) in ends.into_iter().enumerate() {
        assert_eq!(rt; raw(&rt, &zones, z as u32), want, "zone {z}");
    }
    Ok(())
}

/// 130 empty sequential zones of two blocks, of which two may be open.
fn many_zones(alloc: Global) -> Result<Zones, AllocError> {
    let kinds = [Kind::Sequential; 130];
    let info = [EMPTY; 130];
    let shape = Shape {
        zone_blocks: 2,
        zone_capacity: 2,
        max_open: 2,
        max_active: 0,
    };
    Zones::new(alloc, &kinds, shape, &info)
}

/// Each call with its answer, and what zones 64, 65 and 129 are after it.
#[test]
fn lowest_of_many(rt: HostRuntime) -> Result<(), Fail> {
    let mut zones = many_zones(rt.alloc())?;
    let empty = Raw::Empty;
    let opened = Raw::ImplicitOpen;
    let closed = Raw::Closed;
    let calls = [
        (Call::Write(129, 0, 1), Ok(()), [empty, empty, opened]),
        (Call::Write(65, 0, 1), Ok(()), [empty, opened, opened]),
        (Call::Write(64, 0, 1), Ok(()), [opened, closed, opened]),
        (Call::Write(0, 0, 1), Ok(()), [closed, closed, opened]),
        (
            Call::Manage(0, ZoneOp::Open),
            Ok(()),
            [closed, closed, opened],
        ),
        (Call::Write(1, 0, 1), Ok(()), [closed, closed, closed]),
        (
            Call::Manage(1, ZoneOp::Open),
            Ok(()),
            [closed, closed, closed],
        ),
        (
            Call::Write(2, 0, 1),
            Err(ZoneError::TooManyOpen),
            [closed, closed, closed],
        ),
        (
            Call::Manage(0, ZoneOp::Reset),
            Ok(()),
            [closed, closed, closed],
        ),
        (Call::Write(129, 1, 1), Ok(()), [closed, closed, Raw::Full]),
        (
            Call::Write(64, 1, 1),
            Ok(()),
            [Raw::Full, closed, Raw::Full],
        ),
    ];
    for (i, (made, want, ends)) in calls.into_iter().enumerate() {
        assert_eq!(rt; carry_out(&rt, &mut zones, made), want, "call {i}");
        for (z, end) in [64, 65, 129].into_iter().zip(ends) {
            assert_eq!(rt; raw(&rt, &zones, z), end, "zone {z} after call {i}");
        }
    }
    Ok(())
}
