// Faults and turns that a script asks for: which are refused, which command a fault waits for, and what fails before
// anything is mounted.

use super::{carried_out, done, runs};
use std::test::Fail;

#[test]
fn faults_and_turns_are_refused(rt: HostRuntime) -> Result<(), Fail> {
    for case in [
        // Zone 3 isn't there, and zone 0 is conventional.
        done(
            "scratch 3 1 4",
            "fault 3 read\nfault 18446744073709551615 flush\nfault 0 reset\nfault 0 finish\nfault 0 open\nfault 0 close\n\
             fault 1 open 0\nfault 1 report 1\nfault 0 read 4\nturn 3 ro\nturn 3 off\n",
            "error bad-fault\nerror bad-fault\nerror bad-fault\nerror bad-fault\nerror bad-fault\nerror bad-fault\n\
             error bad-fault\nerror bad-fault\nerror bad-fault\nerror bad-fault\nerror bad-fault\n",
        ),
        done(
            "scratch 3 1 4",
            "fault 0 read\nfault 0 write 4294967295\nfault 0 flush 0\nfault 0 report\nfault 1 reset\nfault 1 finish\n\
             fault 1 open\nfault 1 close\n",
            "ok\nok\nok\nok\nok\nok\nok\nok\n",
        ),
        // A zone turns to what is worse alone.
        done(
            "scratch 3 1 4",
            "turn 1 ro\nturn 1 ro\nturn 1 off\nturn 1 off\nturn 1 ro\nturn 2 off\nturn 2 ro\nturn 0 ro\n",
            "ok\nerror bad-fault\nok\nerror bad-fault\nerror bad-fault\nok\nerror bad-fault\nok\n",
        ),
    ] {
        runs(rt, rt.alloc(), case)?;
    }
    Ok(())
}

/// A fault waits for the next command of its kind on its zone. Of two that fit the first is used up.
#[test]
fn faults_wait_in_order(rt: HostRuntime) -> Result<(), Fail> {
    for case in [
        // Neither a write to another zone nor a read of this one is waited for.
        done(
            "scratch 3 1 4",
            "fault 2 write\nwrite 0 0 61*4096\nread 0 0 4096\nopen 1 seq/1 rw\nread 1 0 4096\nwrite 1 0 61*4096\n",
            "ok\nok\nok 4096 61*4096\nok\nok 0\nerror io-error\n",
        ),
        // The first of two writes three blocks, and the second one block.
        done(
            "scratch 3 1 8",
            "close 0\numount\nmount errors=repair\nopen 0 seq/0 rw\nfault 1 write 3\nfault 1 read\nfault 1 write 1\n\
             write 0 0 61*16384\nsize 0\nwrite 0 12288 62*16384\nsize 0\nwrite 0 16384 63*16384\n\
             read 0 0 32768\nread 0 12287 8194\n",
            "ok\nok\nok\nok\nok\nok\nok\nerror io-error\nok 12288\nerror io-error\nok 16384\nok\n\
             error io-error\nok 8194 61*1+62*4096+63*4097\n",
        ),
        // A fault of a flush waits for any flush, and one of more blocks than a write has lets it write all of them.
        done(
            "scratch 3 1 4",
            "close 0\numount\nmount errors=repair\nopen 0 seq/0 rw\nfault 1 write 9\nwrite 0 0 61*4096\nsize 0\n\
             fault 2 flush\nsync 0\nsync 0\nfault 1 flush 0\nsync 0\nsize 0\n",
            "ok\nok\nok\nok\nok\nerror io-error\nok 4096\nok\nerror io-error\nok\nok\nerror io-error\nok 4096\n",
        ),
    ] {
        runs(rt, rt.alloc(), case)?;
    }
    Ok(())
}

/// 64 faults may wait, and one that is used up makes room for one more.
#[test]
fn faults_are_limited(rt: HostRuntime) -> Result<(), Fail> {
    let alloc = rt.alloc();
    let mut script = String::from_str(alloc, "fault 1 read 1\n")?;
    let mut written = String::from_str(alloc, "error bad-fault\n")?;
    for _ in 0..64 {
        script.push_str("fault 1 read\n")?;
        written.push_str("ok\n")?;
    }
    // The file is empty, so the first read is no command.
    script.push_str("fault 1 read\nread 0 0 1\nfault 1 read\nfault 1 read 1\n")?;
    written.push_str("error too-many-faults\nok 0\nerror too-many-faults\nerror bad-fault\n")?;
    script.push_str("write 0 0 61*4096\nread 0 0 1\nfault 2 write\nfault 1 read\n")?;
    written.push_str("ok\nerror io-error\nok\nerror too-many-faults\n")?;
    carried_out(rt, alloc, "scratch 4 1 2", &script, &written)
}

#[test]
fn bare_devices_fail(rt: HostRuntime) -> Result<(), Fail> {
    for case in [
        // A mount reports all zones and then reads the super block. A zone that turned before it has an offline file.
        done(
            "scratch 3 1 4",
            "close 0\numount\nfault 2 report\nfault 0 read\nturn 2 ro\nmount\nmount\nmount\nstat seq/1\nstat seq/0\n\
             open 0 seq/1 w\n",
            "ok\nok\nok\nok\nok\nerror io-error\nerror io-error\nok\n\
             ok file seq/1 zone 2 zones 1 size 0 blocks 32 mode 000 uid 0 gid 0 writers 0\n\
             ok file seq/0 zone 1 zones 1 size 0 blocks 32 mode 640 uid 0 gid 0 writers 0\n\
             error file-offline\n",
        ),
        // A zone whose close failed is closed by the next mount, which may fail as well.
        done(
            "scratch 3 1 4",
            "close 0\numount\nmount explicit-open\nopen 0 seq/0 w\nfault 1 close\nfault 1 close\nclose 0\numount\nmount\nmount\n",
            "ok\nok\nok\nok\nok\nok\nerror io-error\nok\nerror io-error\nok\n",
        ),
        // A format begins by emptying the super block's first block.
        done(
            "scratch 3 1 4",
            "close 0\numount\nfault 0 report\nmkfs force\nfault 0 read\nmkfs force\nfault 0 flush\nmkfs force\nmount\n\
             fault 2 reset\nmkfs\nmount\nmkfs\nmount\n",
            "ok\nok\nok\nerror io-error\nok\nerror io-error\nok\nerror io-error\nerror not-formatted bad-magic\n\
             ok\nerror io-error\nerror not-formatted bad-magic\nok\nok\n",
        ),
        done(
            "scratch 2 0 3",
            "close 0\numount\nfault 0 finish\nmkfs force\nmount\nmkfs\nmount\n",
            "ok\nok\nok\nerror io-error\nerror not-formatted zone0-not-full\nok\nok\n",
        ),
        // The super block's zone turns: it is read still, then not even that.
        done(
            "scratch 3 1 4",
            "turn 0 ro\nclose 0\numount\nmkfs force\nmount\numount\nturn 0 off\nmkfs\nmount\n",
            "ok\nok\nok\nerror bad-zone0 read-only\nok\nok\nok\nerror bad-zone0 offline\nerror io-error\n",
        ),
    ] {
        runs(rt, rt.alloc(), case)?;
    }
    Ok(())
}
