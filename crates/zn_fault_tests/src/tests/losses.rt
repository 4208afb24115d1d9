ghost use Rattle.std.specs.Prelude.{◌≡◌, false};

use super::{Call, carry_out, device, is_answered, is_told, limited, told, turned};
use std::cmp::min;
use std::process::Abort;
use std::test::Fail;
use zn_device::{Injects, Zoned};
use zn_truth::{Command, Cond, Cuts, DevError, FaultSpec, InjectError, LossSpec, ZoneNo, ZoneOp};

const DONE: Result<(), InjectError> = Ok(());

const BAD: Result<(), InjectError> = Err(InjectError::BadFault);

const OFF: Result<(), InjectError> = Err(InjectError::PowerLost);

const LOST: Result<(), DevError> = Err(DevError::PowerLost);

/// What is done to a device, and what it must answer.
#[derive(Clone, Copy)]
enum Step<'a> {
    Call(Call, Result<(), DevError>),
    /// A loss with cuts of zones and a fill.
    Lose(&'a [(u32, u32)], Option<u8>, Result<(), InjectError>),
    /// A loss that waits for a command on a zone.
    Arm(u32, Command, &'a [(u32, u32)], Option<u8>, Result<(), InjectError>),
    /// The same, after the command is carried out.
    ArmDone(u32, Command, &'a [(u32, u32)], Option<u8>, Result<(), InjectError>),
    /// A fault that waits for a command on a zone.
    Inject(u32, Command, Result<(), InjectError>),
    Turn(u32, Cond, Result<(), InjectError>),
    On,
}

/// A loss with these cuts and this fill.
fn loss(rt: &impl Abort, cuts: &[(u32, u32)], fill: Option<u8>) -> LossSpec {
    let mut all = Cuts::new();
    for (zone, blocks) in cuts {
        assert!(rt; all.push(ZoneNo(*zone), *blocks));
    }
    LossSpec { cuts: all, fill }
}

/// Takes one step.
fn take_step<D: Injects>(rt: &impl Abort, device: &mut D, step: Step<'_>)
    requires { (D.state device.old).spoilt ≡ false }
    ensures { (D.state device.new).spoilt ≡ false }
{
    match step {
        Step::Call(call, expected) => {
            let reply = carry_out(rt, device, call);
            assert_eq!(rt; reply, expected);
            assert!(rt; is_answered(reply));
        }
        Step::Lose(cuts, fill, expected) => {
            let reply = device.lose_power(&loss(rt, cuts, fill));
            assert_eq!(rt; reply, expected);
            assert!(rt; is_told(reply));
            assert!(rt; !device.powered() || reply == BAD);
        }
        Step::Arm(zone, command, cuts, fill, expected) => {
            let reply = device.arm_loss(ZoneNo(zone), command, false, &loss(rt, cuts, fill));
            assert_eq!(rt; reply, expected);
        }
        Step::ArmDone(zone, command, cuts, fill, expected) => {
            let reply = device.arm_loss(ZoneNo(zone), command, true, &loss(rt, cuts, fill));
            assert_eq!(rt; reply, expected);
        }
        Step::Inject(zone, command, expected) => {
            let fault = FaultSpec {
                zone: ZoneNo(zone),
                command,
                keep: None,
            };
            let reply = device.inject(fault);
            assert_eq!(rt; reply, expected);
        }
        Step::Turn(zone, to, expected) => {
            let reply = device.turn(ZoneNo(zone), to);
            assert_eq!(rt; reply, expected);
            assert!(rt; is_told(reply));
        }
        Step::On => {
            device.power_on();
            assert!(rt; device.powered());
        }
    }
}

/// Takes the steps one after another.
fn take_steps<D: Injects>(rt: &impl Abort, device: &mut D, steps: &[Step<'_>])
    requires { (D.state device.old).spoilt ≡ false }
    ensures { (D.state device.new).spoilt ≡ false }
{
    for step in steps {
        take_step(rt, device, *step);
    }
}

/// Reads the blocks of a zone from one on, up to another, in which each byte must be this one.
fn read_blocks<D: Injects>(rt: &impl Abort, device: &mut D, zone: u32, from: u32, to: u32, byte: u8)
    requires { (D.state device.old).spoilt ≡ false }
    ensures { (D.state device.new).spoilt ≡ false }
{
    for block in from..to {
        take_step(
            rt,
            device,
            Step::Call(Call::Read(zone, block, byte), Ok(())),
        );
    }
}

/// Zone 1 holds four blocks, of which two are durable, zone 2 holds three, of which none is.
const WRITTEN: [Step<'static>; 4] = [
    Step::Call(Call::Write(1, 0, 2, 7), Ok(())),
    Step::Call(Call::Flush, Ok(())),
    Step::Call(Call::Write(1, 2, 2, 8), Ok(())),
    Step::Call(Call::Write(2, 0, 3, 5), Ok(())),
];

#[test]
fn cuts_at_each_length(rt: HostRuntime) -> Result<(), Fail> {
    for cut in 2..5 {
        for (fill, byte) in [(None, 8), (Some(9), 9)] {
            let mut device = device(rt.alloc())?;
            take_steps(&rt, &mut device, &WRITTEN);
            take_steps(
                &rt,
                &mut device,
                &[
                    Step::Call(Call::Manage(1, ZoneOp::Open), Ok(())),
                    Step::Lose(&[(1, 1)], fill, BAD),
                    Step::Lose(&[(1, 5)], fill, BAD),
                    Step::Call(Call::Report(1, 1, told(4, true)), Ok(())),
                    Step::Lose(&[(2, 1), (1, cut)], fill, DONE),
                    Step::Call(Call::Report(1, 1, told(cut, false)), LOST),
                    Step::On,
                    Step::Call(Call::Report(1, 1, told(cut, false)), Ok(())),
                    Step::Call(Call::Report(2, 1, told(1, false)), Ok(())),
                    Step::Call(Call::Read(1, 0, 7), Ok(())),
                    Step::Call(Call::Read(1, 1, 7), Ok(())),
                    Step::Call(Call::Read(1, cut, 0), Err(DevError::BeyondWp)),
                    Step::Call(Call::Read(2, 0, fill.unwrap_or(5)), Ok(())),
                    Step::Lose(&[], Some(4), DONE),
                    Step::On,
                    Step::Call(Call::Report(1, 1, told(cut, false)), Ok(())),
                    Step::Call(Call::Read(2, 0, fill.unwrap_or(5)), Ok(())),
                ],
            );
            read_blocks(&rt, &mut device, 1, 2, cut, byte);
            take_step(
                &rt,
                &mut device,
                Step::Call(Call::Write(1, cut, 1, 6), Ok(())),
            );
        }
    }
    Ok(())
}

#[test]
fn nothing_stated(rt: HostRuntime) -> Result<(), Fail> {
    let mut device = device(rt.alloc())?;
    take_steps(&rt, &mut device, &WRITTEN);
    take_steps(
        &rt,
        &mut device,
        &[
            Step::Call(Call::Write(0, 0, 2, 7), Ok(())),
            Step::Call(Call::Flush, Ok(())),
            Step::Call(Call::Write(2, 3, 2, 6), Ok(())),
            Step::Call(Call::Write(0, 1, 1, 8), Ok(())),
            Step::Lose(&[], None, DONE),
            Step::On,
            Step::Call(Call::Report(1, 1, told(4, false)), Ok(())),
            Step::Call(Call::Report(2, 1, told(3, false)), Ok(())),
            Step::Call(Call::Read(0, 0, 7), Ok(())),
            Step::Call(Call::Read(0, 1, 8), Ok(())),
            Step::Call(Call::Write(0, 0, 1, 6), Ok(())),
            Step::Lose(&[], Some(9), DONE),
            Step::On,
            Step::Call(Call::Read(0, 0, 9), Ok(())),
            Step::Call(Call::Read(0, 1, 8), Ok(())),
            Step::Call(Call::Read(0, 2, 0), Ok(())),
            Step::Call(Call::Report(0, 1, told(6, false)), Ok(())),
        ],
    );
    Ok(())
}

#[test]
fn inside_each_command(rt: HostRuntime) -> Result<(), Fail> {
    let read = Call::Read(1, 0, 7);
    for (command, call) in [
        (Command::Read, read),
        (Command::Report, Call::Report(0, 2, told(4, false))),
        (Command::Flush, Call::Flush),
        (Command::Open, Call::Manage(1, ZoneOp::Open)),
        (Command::Close, Call::Manage(1, ZoneOp::Close)),
        (Command::Reset, Call::Manage(1, ZoneOp::Reset)),
        (Command::Finish, Call::Manage(1, ZoneOp::Finish)),
    ] {
        let mut device = device(rt.alloc())?;
        take_steps(&rt, &mut device, &WRITTEN);
        take_steps(
            &rt,
            &mut device,
            &[
                Step::Arm(1, command, &[(1, 3)], Some(9), DONE),
                Step::Call(call, LOST),
                Step::Call(Call::Flush, LOST),
                Step::On,
                Step::Call(Call::Report(1, 1, told(3, false)), Ok(())),
                Step::Call(Call::Report(2, 1, told(0, false)), Ok(())),
                Step::Call(Call::Read(1, 1, 7), Ok(())),
                Step::Call(Call::Read(1, 2, 9), Ok(())),
                Step::Arm(2, command, &[], None, DONE),
            ],
        );
        assert!(rt; device.faults() == 0 && device.breaks() == 0);
    }
    Ok(())
}

#[test]
fn carried_out_first(rt: HostRuntime) -> Result<(), Fail> {
    for (command, op, held) in [
        (Command::Reset, ZoneOp::Reset, 0),
        (Command::Finish, ZoneOp::Finish, 6),
    ] {
        let mut device = device(rt.alloc())?;
        take_steps(&rt, &mut device, &WRITTEN);
        take_steps(
            &rt,
            &mut device,
            &[
                Step::ArmDone(1, command, &[(1, 3), (2, 2)], Some(9), DONE),
                Step::Call(Call::Manage(1, op), LOST),
                Step::On,
                Step::Call(Call::Report(1, 1, told(held, false)), Ok(())),
                Step::Call(Call::Report(2, 1, told(2, false)), Ok(())),
                Step::Call(Call::Read(2, 1, 9), Ok(())),
            ],
        );
    }
    let mut device = device(rt.alloc())?;
    take_steps(&rt, &mut device, &WRITTEN);
    take_steps(
        &rt,
        &mut device,
        &[
            Step::ArmDone(1, Command::Finish, &[], Some(9), DONE),
            Step::Call(Call::Manage(1, ZoneOp::Finish), LOST),
            Step::On,
            Step::Call(Call::Read(1, 2, 8), Ok(())),
            Step::Call(Call::Read(1, 4, 0), Ok(())),
            Step::Turn(1, Cond::ReadOnly, DONE),
            Step::ArmDone(1, Command::Reset, &[], None, DONE),
            Step::Call(Call::Manage(1, ZoneOp::Reset), LOST),
            Step::On,
            Step::Call(Call::Report(1, 1, turned(Cond::ReadOnly, 6)), Ok(())),
        ],
    );
    Ok(())
}

#[test]
fn met_by_no_other(rt: HostRuntime) -> Result<(), Fail> {
    let mut device = device(rt.alloc())?;
    take_steps(&rt, &mut device, &WRITTEN);
    take_steps(
        &rt,
        &mut device,
        &[
            Step::Arm(1, Command::Write, &[(1, 3)], None, DONE),
            Step::Call(Call::Read(1, 0, 7), Ok(())),
            Step::Call(Call::Write(2, 3, 1, 5), Ok(())),
            Step::Call(Call::Write(0, 0, 1, 5), Ok(())),
            Step::Call(Call::Manage(1, ZoneOp::Open), Ok(())),
            Step::Call(Call::Report(0, 3, told(4, false)), Ok(())),
            Step::Call(Call::Flush, Ok(())),
            Step::Arm(2, Command::Read, &[], None, BAD),
            Step::Call(Call::Write(1, 4, 1, 6), LOST),
            Step::On,
            Step::Call(Call::Report(1, 1, told(4, false)), Ok(())),
            Step::Call(Call::Write(1, 4, 1, 6), Ok(())),
            Step::Arm(1, Command::Report, &[], None, DONE),
            Step::Call(Call::Report(2, 1, told(4, false)), Ok(())),
            Step::Call(Call::Report(0, 1, told(6, false)), Ok(())),
            Step::Call(Call::Report(0, 2, told(5, false)), LOST),
        ],
    );
    Ok(())
}

#[test]
fn inside_a_write(rt: HostRuntime) -> Result<(), Fail> {
    for (fill, old, new) in [(None, 8, 6), (Some(9), 9, 9)] {
        for (cuts, held) in [
            ([(1, 0), (2, 0)].as_slice(), 2),
            (&[(1, 2)], 2),
            (&[(2, 0)], 2),
            (&[(1, 3)], 3),
            (&[(1, 4)], 4),
            (&[(1, 5)], 5),
            (&[(1, 6)], 6),
            (&[(2, 2), (1, 4_000_000_000)], 6),
        ] {
            let mut device = device(rt.alloc())?;
            take_steps(&rt, &mut device, &WRITTEN);
            take_steps(
                &rt,
                &mut device,
                &[
                    Step::Call(Call::Manage(1, ZoneOp::Open), Ok(())),
                    Step::Arm(1, Command::Write, cuts, fill, DONE),
                    Step::Call(Call::Write(1, 4, 2, 6), LOST),
                    Step::On,
                    Step::Call(Call::Report(1, 1, told(held, false)), Ok(())),
                    Step::Call(Call::Read(1, 1, 7), Ok(())),
                    Step::Call(Call::Report(0, 1, told(6, false)), Ok(())),
                    Step::Lose(&[], Some(3), DONE),
                    Step::On,
                    Step::Call(Call::Report(1, 1, told(held, false)), Ok(())),
                ],
            );
            read_blocks(&rt, &mut device, 1, 2, min(held, 4), old);
            read_blocks(&rt, &mut device, 1, 4, held, new);
        }
    }
    Ok(())
}

#[test]
fn short_of_what_is_stated(rt: HostRuntime) -> Result<(), Fail> {
    for fill in [None, Some(9)] {
        let mut device = device(rt.alloc())?;
        take_steps(&rt, &mut device, &WRITTEN);
        take_steps(
            &rt,
            &mut device,
            &[
                Step::Arm(2, Command::Write, &[(1, 3), (2, 6)], fill, DONE),
                Step::Call(Call::Write(2, 3, 1, 6), LOST),
                Step::On,
                Step::Call(Call::Report(2, 1, told(4, false)), Ok(())),
                Step::Call(Call::Read(2, 2, fill.unwrap_or(5)), Ok(())),
                Step::Call(Call::Read(2, 3, fill.unwrap_or(6)), Ok(())),
                Step::Call(Call::Report(1, 1, told(3, false)), Ok(())),
                Step::Call(Call::Read(1, 2, fill.unwrap_or(8)), Ok(())),
            ],
        );
    }
    Ok(())
}

#[test]
fn inside_a_refused_write(rt: HostRuntime) -> Result<(), Fail> {
    for (fill, byte) in [(None, 8), (Some(9), 9)] {
        let mut device = device(rt.alloc())?;
        take_steps(&rt, &mut device, &WRITTEN);
        take_steps(
            &rt,
            &mut device,
            &[
                Step::Arm(1, Command::Write, &[(1, 6)], fill, DONE),
                Step::Call(Call::Write(1, 3, 2, 6), LOST),
                Step::On,
                Step::Call(Call::Report(1, 1, told(4, false)), Ok(())),
                Step::Call(Call::Read(1, 3, byte), Ok(())),
                Step::Turn(1, Cond::ReadOnly, DONE),
                Step::Arm(1, Command::Write, &[(1, 6)], fill, DONE),
                Step::Call(Call::Write(1, 4, 1, 6), LOST),
                Step::On,
                Step::Call(Call::Report(1, 1, turned(Cond::ReadOnly, 4)), Ok(())),
                Step::Call(Call::Read(1, 3, byte), Ok(())),
                Step::Turn(1, Cond::Offline, DONE),
                Step::Arm(1, Command::Write, &[(1, 6)], fill, DONE),
                Step::Call(Call::Write(1, 0, 1, 6), LOST),
                Step::On,
                Step::Call(Call::Report(1, 1, turned(Cond::Offline, 0)), Ok(())),
                Step::Lose(&[(1, 0)], fill, DONE),
            ],
        );
    }
    Ok(())
}

#[test]
fn inside_a_write_within_limits(rt: HostRuntime) -> Result<(), Fail> {
    let mut device = limited(rt.alloc(), 1)?;
    take_steps(
        &rt,
        &mut device,
        &[
            Step::Arm(1, Command::Write, &[(1, 3)], Some(9), DONE),
            Step::Call(Call::Write(1, 0, 3, 6), LOST),
            Step::On,
            Step::Call(Call::Report(1, 1, told(3, false)), Ok(())),
            Step::Call(Call::Write(2, 0, 2, 5), Err(DevError::TooManyActive)),
            Step::Arm(2, Command::Write, &[(2, 2)], Some(9), DONE),
            Step::Call(Call::Write(2, 0, 2, 5), LOST),
            Step::On,
            Step::Call(Call::Report(2, 1, told(0, false)), Ok(())),
        ],
    );
    read_blocks(&rt, &mut device, 1, 0, 3, 9);
    Ok(())
}

#[test]
fn inside_a_write_in_place(rt: HostRuntime) -> Result<(), Fail> {
    for (fill, old, new) in [(None, 5, 4), (Some(9), 9, 9)] {
        let mut device = device(rt.alloc())?;
        take_steps(&rt, &mut device, &WRITTEN);
        take_steps(
            &rt,
            &mut device,
            &[
                Step::Call(Call::Write(0, 0, 1, 7), Ok(())),
                Step::Call(Call::Flush, Ok(())),
                Step::Call(Call::Write(0, 1, 1, 5), Ok(())),
                Step::Arm(0, Command::Write, &[], fill, DONE),
                Step::Call(Call::Write(0, 3, 2, 4), LOST),
                Step::On,
                Step::Call(Call::Read(0, 0, 7), Ok(())),
                Step::Call(Call::Read(0, 1, old), Ok(())),
                Step::Call(Call::Read(0, 2, 0), Ok(())),
                Step::Call(Call::Read(0, 4, new), Ok(())),
                Step::Lose(&[], Some(3), DONE),
                Step::On,
                Step::Call(Call::Read(0, 4, new), Ok(())),
            ],
        );
    }
    Ok(())
}

#[test]
fn refused_losses(rt: HostRuntime) -> Result<(), Fail> {
    let mut device = device(rt.alloc())?;
    take_steps(&rt, &mut device, &WRITTEN);
    take_steps(
        &rt,
        &mut device,
        &[
            Step::Lose(&[(3, 0)], None, BAD),
            Step::Lose(&[(0, 6)], None, BAD),
            Step::Lose(&[(1, 3), (2, 1), (1, 3)], None, BAD),
            Step::Lose(&[(1, 3), (2, 4)], None, BAD),
            Step::Arm(3, Command::Write, &[], None, BAD),
            Step::Arm(0, Command::Reset, &[], None, BAD),
            Step::Arm(0, Command::Close, &[], None, BAD),
            Step::Arm(1, Command::Write, &[(1, 3), (3, 0)], None, BAD),
            Step::Arm(1, Command::Write, &[(0, 6)], None, BAD),
            Step::Arm(1, Command::Write, &[(2, 1), (1, 3), (2, 0)], None, BAD),
            Step::ArmDone(1, Command::Write, &[], None, BAD),
            Step::ArmDone(1, Command::Flush, &[], None, BAD),
            Step::Call(Call::Write(1, 4, 1, 6), Ok(())),
            Step::Call(Call::Flush, Ok(())),
            Step::Arm(1, Command::Read, &[], None, DONE),
            Step::Arm(1, Command::Read, &[], None, BAD),
            Step::Call(Call::Report(1, 1, told(5, false)), Ok(())),
        ],
    );
    assert!(rt; device.faults() == 0);
    Ok(())
}

#[test]
fn without_power(rt: HostRuntime) -> Result<(), Fail> {
    let mut device = device(rt.alloc())?;
    take_steps(&rt, &mut device, &WRITTEN);
    take_steps(
        &rt,
        &mut device,
        &[
            Step::Inject(1, Command::Read, DONE),
            Step::Arm(1, Command::Flush, &[(1, 4)], None, DONE),
            Step::Lose(&[(1, 3)], None, DONE),
            Step::Call(Call::Read(1, 0, 7), LOST),
            Step::Call(Call::Write(1, 3, 1, 6), LOST),
            Step::Call(Call::Report(0, 3, told(0, false)), LOST),
            Step::Call(Call::Flush, LOST),
            Step::Call(Call::Manage(1, ZoneOp::Open), LOST),
            Step::Call(Call::Manage(1, ZoneOp::Close), LOST),
            Step::Call(Call::Manage(1, ZoneOp::Reset), LOST),
            Step::Call(Call::Manage(1, ZoneOp::Finish), LOST),
            Step::Lose(&[(3, 0)], None, OFF),
            Step::Turn(3, Cond::Good, OFF),
            Step::Inject(2, Command::Write, DONE),
            Step::Inject(3, Command::Write, BAD),
            Step::Arm(1, Command::Read, &[], None, BAD),
            Step::On,
            Step::On,
            Step::Call(Call::Report(1, 1, told(3, false)), Ok(())),
            Step::Call(Call::Read(1, 0, 7), Err(DevError::Fault)),
            Step::Call(Call::Write(2, 0, 1, 5), Err(DevError::Fault)),
            Step::Call(Call::Flush, LOST),
            Step::Arm(2, Command::Write, &[], None, DONE),
            Step::Inject(2, Command::Write, DONE),
            Step::On,
            Step::Call(Call::Write(2, 0, 1, 5), LOST),
            Step::On,
            Step::Call(Call::Write(2, 0, 1, 5), Err(DevError::Fault)),
            Step::Call(Call::Write(2, 0, 1, 5), Ok(())),
        ],
    );
    assert!(rt; device.faults() == 3 && device.breaks() == 0);
    Ok(())
}
