// Losses of power, at rest and inside commands: which bytes remain, and what a script may do without power.

use super::{carried_out, done, runs};
use std::alloc::{AllocError, Global};
use std::test::Fail;

/// Two durable blocks of `a` and two blocks of `b` behind them, in zone 1.
const FOUR_BLOCKS: &str = "write 0 0 61*8192\nsync 0\nwrite 0 8192 62*8192\n";

/// The power comes back, and all of the file is read.
const LOOK: &str = "power-on\nmount\nopen 0 seq/0 r\nread 0 0 32768\n";

/// Lines behind the four blocks, and what is read of the file in the end.
fn leaves(
    alloc: Global,
    lines: &str,
    replies: &str,
    read: &str,
) -> Result<(String, String), AllocError> {
    let script = format!(in alloc; "{FOUR_BLOCKS}{lines}{LOOK}")?;
    let written = format!(in alloc; "ok\nok\nok\n{replies}ok\nok\nok\n{read}\n")?;
    Ok((script, written))
}

#[test]
fn a_loss_inside_a_write(rt: HostRuntime) -> Result<(), Fail> {
    runs(
        rt,
        rt.alloc(),
        done(
            "scratch 3 1 8",
            "write 0 0 61*4096\nsync 0\nwrite 0 4096 62*4096\npower-loss 1:0\npower-loss-in 1 write fill=ee 1:3\n\
             write 0 8192 63*8192\nsize 0\nmount\npower-on\nmount\nopen 0 seq/0 r\nread 0 0 16384\n",
            "ok\nok\nok\nerror bad-fault\nok\nerror power-lost\nerror not-mounted\nerror power-lost\nok\nok\nok\n\
             ok 12288 61*4096+ee*8192\n",
        ),
    )
}

/// A cut between what is durable and what is held stays, and any other is refused with the power on.
#[test]
fn cuts_of_a_loss(rt: HostRuntime) -> Result<(), Fail> {
    for (words, read) in [
        ("", "ok 8192 61*8192"),
        (" 1:2", "ok 8192 61*8192"),
        (" 1:3", "ok 12288 61*8192+62*4096"),
        (" 1:4", "ok 16384 61*8192+62*8192"),
        (" 2:0 1:3", "ok 12288 61*8192+62*4096"),
        (" fill=ee", "ok 8192 61*8192"),
        (" fill=ee 1:2", "ok 8192 61*8192"),
        (" fill=ee 1:3", "ok 12288 61*8192+ee*4096"),
        (" fill=ee 1:4", "ok 16384 61*8192+ee*8192"),
    ] {
        let lines = format!(in rt.alloc(); "power-loss{words}\n")?;
        let (script, written) = leaves(rt.alloc(), &lines, "ok\n", read)?;
        carried_out(rt, rt.alloc(), "scratch 3 1 8", &script, &written)?;
    }
    for words in [
        "1:1",
        "1:5",
        "fill=ee 1:1",
        "fill=ee 1:5",
        "0:8",
        "3:0",
        "4294967297:2",
        "1:3 1:3",
        "2:1",
    ] {
        let script = format!(in rt.alloc();
            "{FOUR_BLOCKS}power-loss {words}\nread 0 12288 8192\n"
        )?;
        carried_out(
            rt,
            rt.alloc(),
            "scratch 3 1 8",
            &script,
            "ok\nok\nok\nerror bad-fault\nok 4096 62*4096\n",
        )?;
    }
    Ok(())
}

/// The power goes inside a command of each kind.
#[test]
fn losses_inside_commands(rt: HostRuntime) -> Result<(), Fail> {
    for (armed, line, read) in [
        ("read 1:3", "read 0 0 1", "ok 12288 61*8192+62*4096"),
        ("read 1:9", "read 0 0 1", "ok 16384 61*8192+62*8192"),
        ("read 1:0", "read 0 0 1", "ok 8192 61*8192"),
        ("flush 1:3", "sync 0", "ok 12288 61*8192+62*4096"),
        ("flush", "sync 0", "ok 8192 61*8192"),
        ("report 1:3", "zones", "ok 12288 61*8192+62*4096"),
        // A write is cut short between what is durable and its own end.
        ("write", "write 0 16384 63*8192", "ok 8192 61*8192"),
        ("write 1:0", "write 0 16384 63*8192", "ok 8192 61*8192"),
        (
            "write 1:3",
            "write 0 16384 63*8192",
            "ok 12288 61*8192+62*4096",
        ),
        (
            "write 1:5",
            "write 0 16384 63*8192",
            "ok 20480 61*8192+62*8192+63*4096",
        ),
        (
            "write 1:9",
            "write 0 16384 63*8192",
            "ok 24576 61*8192+62*8192+63*8192",
        ),
        (
            "write fill=ee 1:3",
            "write 0 16384 63*8192",
            "ok 12288 61*8192+ee*4096",
        ),
        (
            "write fill=ee 1:5",
            "write 0 16384 63*8192",
            "ok 20480 61*8192+ee*12288",
        ),
        // A reset or a finish is done or not done.
        ("reset 1:3", "truncate 0 0", "ok 12288 61*8192+62*4096"),
        ("reset done 1:3", "truncate 0 0", "ok 0"),
        ("finish 1:3", "truncate 0 32768", "ok 12288 61*8192+62*4096"),
        (
            "finish done fill=ee 1:3",
            "truncate 0 32768",
            "ok 32768 61*8192+62*8192+00*16384",
        ),
    ] {
        let lines = format!(in rt.alloc(); "power-loss-in 1 {armed}\n{line}\n")?;
        let (script, written) = leaves(rt.alloc(), &lines, "ok\nerror power-lost\n", read)?;
        carried_out(rt, rt.alloc(), "scratch 3 1 8", &script, &written)?;
    }
    Ok(())
}

#[test]
fn losses_inside_zone_commands_and_recoveries(rt: HostRuntime) -> Result<(), Fail> {
    for case in [
        // A file that was not opened is not held open, and the loss is used up.
        done(
            "scratch 3 1 4",
            "close 0\numount\nmount explicit-open\npower-loss-in 1 open\nopen 0 seq/0 rw\nclose 0\npower-on\n\
             mount explicit-open\nopen 0 seq/0 rw\nzones\n",
            "ok\nok\nok\nok\nerror power-lost\nerror not-mounted\nok\nok\nok\n\
             ok 3\nzone 0 cnv good 4 4 super\nzone 1 seq good 0 4 seq/0\nzone 2 seq good 0 4 seq/1\n",
        ),
        done(
            "scratch 3 1 4",
            "close 0\numount\nmount explicit-open\nopen 0 seq/0 rw\nwrite 0 0 61*4096\npower-loss-in 1 close 1:1\n\
             close 0\npower-on\nmount\nopen 0 seq/0 r\nread 0 0 8192\n",
            "ok\nok\nok\nok\nok\nok\nerror power-lost\nok\nok\nok\nok 4096 61*4096\n",
        ),
        // The report of a recovery loses the power: that is the answer, and not the failure before it.
        done(
            "scratch 3 1 4",
            "fault 1 write 1\npower-loss-in 1 report 1:1\nwrite 0 0 61*8192\npower-on\nmount\nopen 0 seq/0 rw\n\
             read 0 0 8192\nwrite 0 4096 62*4096\n",
            "ok\nok\nerror power-lost\nok\nok\nok\nok 4096 61*4096\nok\n",
        ),
        // No recovery follows a command inside which the power went: the file can be written as before.
        done(
            "scratch 3 1 4",
            "power-loss-in 1 write 1:1\nwrite 0 0 61*8192\npower-on\nmount\nopen 0 seq/0 rw\nwrite 0 4096 62*4096\n\
             read 0 0 8192\n",
            "ok\nerror power-lost\nok\nok\nok\nok\nok 8192 61*4096+62*4096\n",
        ),
        // Another command, or one on another zone, doesn't use the loss up.
        done(
            "scratch 3 1 4",
            "power-loss-in 1 write\nopen 1 seq/1 rw\nwrite 1 0 61*4096\nread 0 0 1\nsync 0\nwrite 0 0 61*4096\nsize 1\n",
            "ok\nok\nok\nok 0\nok\nerror power-lost\nerror not-mounted\n",
        ),
        // What formats and mounts is a command of the device too.
        done(
            "scratch 3 1 4",
            "close 0\numount\npower-loss-in 0 read\nmount\nmount\npower-on\nmount\n",
            "ok\nok\nok\nerror power-lost\nerror power-lost\nok\nok\n",
        ),
    ] {
        runs(rt, rt.alloc(), case)?;
    }
    Ok(())
}

#[test]
fn losses_that_are_refused(rt: HostRuntime) -> Result<(), Fail> {
    for case in [
        done(
            "scratch 3 1 4",
            "power-loss-in 3 read\npower-loss-in 4294967296 flush\npower-loss-in 0 reset\npower-loss-in 0 open\n\
             power-loss-in 1 write done\npower-loss-in 1 flush done\npower-loss-in 1 read 0:1\n\
             power-loss-in 1 read 1:1 2:1 1:2\npower-loss-in 1 read 3:1\npower-loss-in 0 write 1:4294967295\n\
             power-loss-in 1 read\n",
            "error bad-fault\nerror bad-fault\nerror bad-fault\nerror bad-fault\n\
             error bad-fault\nerror bad-fault\nerror bad-fault\n\
             error bad-fault\nerror bad-fault\nok\n\
             error bad-fault\n",
        ),
        // Without power: faults and losses may wait, and all else is refused.
        done(
            "scratch 3 1 4",
            "power-loss\npower-loss\npower-loss 9:9\nturn 1 ro\nturn 9 ro\nfault 1 read\nfault 9 read\n\
             power-loss-in 2 read\nzones\nmkfs\nmkfs features=x\nmount\nmount errors=x\numount\nsize 0\nattr\n\
             chmod seq/0 0\npower-on\npower-on\nturn 1 ro\n",
            "ok\nerror power-lost\nerror power-lost\nerror power-lost\nerror power-lost\nok\nerror bad-fault\n\
             ok\nerror power-lost\nerror power-lost\nerror unknown-option 0\nerror power-lost\nerror bad-value 7\n\
             error not-mounted\nerror not-mounted\nerror not-mounted\n\
             error not-mounted\nok\nok\nok\n",
        ),
    ] {
        runs(rt, rt.alloc(), case)?;
    }
    Ok(())
}

#[test]
fn what_outlives_a_loss(rt: HostRuntime) -> Result<(), Fail> {
    for case in [
        // A full zone, a zone that turned read-only and what was finished are durable.
        done(
            "scratch 4 1 4",
            "open 1 seq/1 rw\nopen 2 seq/2 rw\nwrite 0 0 61*16384\nwrite 1 0 62*4096\nturn 2 ro\nwrite 2 0 63*4096\n\
             truncate 2 16384\npower-loss fill=ee\npower-on\nzones\n",
            "ok\nok\nok\nok\nok\nok\nok\nok\nok\n\
             ok 4\nzone 0 cnv good 4 4 -\nzone 1 seq good 4 4 -\nzone 2 seq read-only 1 4 -\nzone 3 seq good 4 4 -\n",
        ),
        // A conventional zone keeps its size. Its blocks that no flush made durable are filled.
        done(
            "scratch 3 2 4",
            "open 1 cnv/0 rw\nwrite 1 0 61*8192\nsync 1\nwrite 1 4096 62*8192\npower-loss fill=ee\npower-on\nmount\n\
             open 1 cnv/0 r\nread 1 0 16384\n",
            "ok\nok\nok\nok\nok\nok\nok\nok\nok 16384 61*4096+ee*8192+00*4096\n",
        ),
        done(
            "scratch 3 2 4",
            "open 1 cnv/0 rw\nwrite 1 0 61*4096\npower-loss-in 1 write fill=ee\nwrite 1 4096 62*4096\npower-on\nmount\n\
             open 1 cnv/0 r\nread 1 0 16384\n",
            "ok\nok\nok\nerror power-lost\nok\nok\nok\nok 16384 ee*8192+00*8192\n",
        ),
        done(
            "scratch 3 2 4",
            "open 1 cnv/0 rw\nwrite 1 0 61*4096\npower-loss-in 1 write\nwrite 1 4096 62*4096\npower-on\nmount\n\
             open 1 cnv/0 r\nread 1 0 16384\n",
            "ok\nok\nok\nerror power-lost\nok\nok\nok\nok 16384 61*4096+62*4096+00*8192\n",
        ),
        // Faults that wait and a loss that waits outlive it; numbers and the volume don't.
        done(
            "scratch 3 1 4",
            "write 0 0 61*4096\nsync 0\nfault 1 read\npower-loss-in 1 reset done\npower-loss\npower-on\nsize 0\nmount\n\
             size 0\nopen 0 seq/0 rw\nread 0 0 1\nread 0 0 1\ntruncate 0 0\npower-on\nmount\nstat seq/0\n",
            "ok\nok\nok\nok\nok\nok\nerror not-mounted\nok\nerror bad-handle\nok\nerror io-error\nok 1 61*1\n\
             error power-lost\nok\nok\n\
             ok file seq/0 zone 1 zones 1 size 0 blocks 32 mode 640 uid 0 gid 0 writers 0\n",
        ),
    ] {
        runs(rt, rt.alloc(), case)?;
    }
    Ok(())
}

#[test]
fn zones_are_told(rt: HostRuntime) -> Result<(), Fail> {
    for case in [
        done(
            "scratch 4 1 4",
            "close 0\numount\nmount errors=repair\nopen 0 seq/0 rw\nopen 1 seq/1 rw\nwrite 0 0 61*4096\n\
             write 1 0 62*8192\nfault 2 flush 1\nsync 0\nzones\n",
            "ok\nok\nok\nok\nok\nok\nok\nok\nerror io-error\n\
             ok 4\nzone 0 cnv good 4 4 super\nzone 1 seq good 1 4 seq/0\nzone 2 seq good 1 4 seq/1\nzone 3 seq good 0 4 seq/2\n",
        ),
        // Zones of one file have one place, and without a volume none has any.
        done(
            "scratch 4 3 2",
            "close 0\numount\nmkfs force features=aggr_cnv\nmount\nturn 2 ro\nturn 3 off\nzones\numount\nzones\n\
             fault 3 report\nzones\nzones\n",
            "ok\nok\nok\nok\nok\nok\n\
             ok 4\nzone 0 cnv good 2 2 super\nzone 1 cnv good 2 2 cnv/0\nzone 2 cnv read-only 2 2 cnv/0\nzone 3 seq offline 0 2 seq/0\n\
             ok\nok 4\nzone 0 cnv good 2 2 -\nzone 1 cnv good 2 2 -\nzone 2 cnv read-only 2 2 -\nzone 3 seq offline 0 2 -\n\
             ok\nerror io-error\n\
             ok 4\nzone 0 cnv good 2 2 -\nzone 1 cnv good 2 2 -\nzone 2 cnv read-only 2 2 -\nzone 3 seq offline 0 2 -\n",
        ),
    ] {
        runs(rt, rt.alloc(), case)?;
    }
    Ok(())
}
