// Writes in flight: lines that submit, complete and reap.
use super::{Case, carried_out, done, runs};
use std::alloc::{AllocError, Global};
use std::test::Fail;

/// What lines on requests are refused for, in the order of the checks, and what a file's requests keep from being done.
fn refusals() -> [Case; 5] {
    [
        done(
            "scratch 3 1 8",
            "submit 0 0 61*4096\nsubmit 0 0 62*4096\nsubmit 0 4096 62*4096\nsubmit 0 8192 63*4096\n\
             write 0 0 64*4096\nwrite 0 12288 64*4096\nclose 0\ncomplete\nfault 1 write\ncomplete\ncomplete\n\
             reap\nreap\nreap\nreap\nsize 0\nsubmit 0 4096 62*4096\n",
            "ok 1\nerror bad-offset\nok 2\nok 3\n\
             error bad-offset\nerror busy\nerror busy\nok 1\nok\nok 2\nerror nothing-queued\n\
             ok 1 ok\nok 2 io-error\nok 3 io-error\nerror nothing-done\nok 4096\nerror fs-read-only\n",
        ),
        done(
            "scratch 2 1 1100",
            "submit 0 0 61*1048576\nsubmit 0 1048576 61*1048576\nsubmit 0 2097152 61*1048576\n\
             submit 0 3145728 61*1048576\nsubmit 0 4194304 61*4096\ncomplete\nsubmit 0 4194304 61*4096\n",
            "ok 1\nok 2\nok 3\nok 4\nerror pool-empty\nok 1\nok 5\n",
        ),
        // No bytes are unaligned, unlike those of a write.
        done(
            "scratch 4 2 4",
            "submit 3 0 61*4096\nopen 1 seq/1 r\nsubmit 1 0 61*0\nsubmit 0 0 61*0\nwrite 0 4096 61*0\n\
             submit 0 100 61*4096\nsubmit 0 0 61*100\nsubmit 0 16384 61*4096\nsubmit 0 0 61*20480\n\
             submit 0 4096 61*4096\ncomplete\nreap\nturn 2 off\nread 0 0 1\nsubmit 0 0 61*4096\ncomplete\n\
             reap\nclose 0\nclose 1\numount\nsubmit 0 0 61*4096\ncomplete\nreap\n",
            "error bad-handle\nok\nerror bad-mode\nerror unaligned\nok\n\
             error unaligned\nerror unaligned\nerror too-big\nerror too-big\n\
             error bad-offset\nerror nothing-queued\nerror nothing-done\nok\nok 0\nok 1\nok 1\n\
             ok 1 io-error\nok\nok\nok\nerror not-mounted\nerror not-mounted\nerror not-mounted\n",
        ),
        // What a file's requests keep from being done, by each handle of the file, and by no other's. A mount forgets
        // outcomes, and gives tickets from 1 on.
        done(
            "scratch 4 1 4",
            "open 1 seq/0 rw\nopen 2 seq/1 rw\nsubmit 1 0 61*4096\nwrite 0 0 62*4096\nwrite 0 4096 62*4096\n\
             write 0 4096 62*0\ntruncate 0 0\ntruncate 0 16384\ntruncate 0 4096\nsync 0\nsync 2\n\
             write 2 0 71*4096\ntruncate 2 0\nsize 1\nread 1 0 4096\nstat seq/0\nclose 1\nclose 0\numount\n\
             complete\nsize 1\nclose 1\nclose 2\numount\nmount\nreap\nopen 0 seq/0 rw\nsubmit 0 4096 62*4096\n\
             complete\nreap\nread 0 4095 2\n",
            "ok\nok\nok 1\nerror bad-offset\nerror busy\n\
             ok\nerror busy\nerror busy\nerror not-allowed\nerror busy\nok\n\
             ok\nok\nok 0\nok 0\n\
             ok file seq/0 zone 1 zones 1 size 0 blocks 32 mode 640 uid 0 gid 0 writers 2\n\
             error busy\nok\nerror busy\n\
             ok 1\nok 4096\nok\nok\nok\nok\nerror nothing-done\nok\nok 1\n\
             ok 1\nok 1 ok\nok 2 61*1+62*1\n",
        ),
        // A conventional file takes requests at any place, and at one place several, which are carried out in order.
        done(
            "scratch 4 2 4",
            "open 1 cnv/0 rw\nsubmit 1 4096 61*4096\nsubmit 1 4096 62*4096\nsubmit 1 0 63*4096\n\
             submit 1 12288 64*8192\nwrite 1 0 65*4096\nread 1 0 8192\ncomplete\nread 1 0 8192\ncomplete\n\
             read 1 0 8192\ncomplete\nread 1 0 8192\nwrite 1 8192 65*4096\nread 1 8191 2\nsize 1\nreap\nreap\nreap\n",
            "ok\nok 1\nok 2\nok 3\n\
             error too-big\nerror busy\nok 8192 00*8192\nok 1\nok 8192 00*4096+61*4096\nok 2\n\
             ok 8192 00*4096+62*4096\nok 3\nok 8192 63*4096+62*4096\nok\nok 2 62*1+65*1\nok 16384\nok 1 ok\nok 2 ok\nok 3 ok\n",
        ),
    ]
}

#[test]
fn requests_are_refused(rt: HostRuntime) -> Result<(), Fail> {
    for case in refusals() {
        runs(rt, rt.alloc(), case)?;
    }
    Ok(())
}

/// What a failed command does to the requests of its file, and to no others.
fn failures() -> [Case; 4] {
    [
        // Two files, with two handles each. The second request of one fails, with one of its two blocks written, and
        // ends the third; those of the other file are carried out.
        done(
            "scratch 4 1 8",
            "close 0\numount\nmount errors=repair\n\
             open 0 seq/0 rw\nopen 1 seq/0 w\nopen 2 seq/1 rw\nopen 3 seq/1 w\n\
             submit 0 0 61*4096\nsubmit 2 0 71*8192\nsubmit 1 4096 62*8192\nsubmit 3 8192 72*4096\n\
             submit 0 12288 63*4096\nsubmit 3 12288 73*4096\n\
             complete\ncomplete\nfault 1 write 1\nclose 1\ncomplete\nclose 1\nsize 0\n\
             submit 0 12288 64*4096\nwrite 0 8192 64*4096\ncomplete\nwrite 2 12288 74*4096\nwrite 2 16384 74*4096\n\
             complete\ncomplete\nreap\nreap\nreap\nreap\nreap\nreap\nreap\nread 0 0 32768\nread 2 0 32768\n",
            "ok\nok\nok\n\
             ok\nok\nok\nok\n\
             ok 1\nok 2\nok 3\nok 4\n\
             ok 5\nok 6\n\
             ok 1\nok 2\nok\nerror busy\nok 3\nok\nok 8192\n\
             error bad-offset\nok\nok 4\nerror bad-offset\nerror busy\n\
             ok 6\nerror nothing-queued\nok 1 ok\nok 2 ok\nok 3 io-error\nok 5 io-error\nok 4 ok\nok 6 ok\nerror nothing-done\n\
             ok 12288 61*4096+62*4096+64*4096\nok 16384 71*8192+72*4096+73*4096\n",
        ),
        // A request asks no rights again: that of another file is carried out though nothing may be written any more.
        done(
            "scratch 4 1 8",
            "open 1 seq/1 rw\nsubmit 0 0 61*4096\nsubmit 1 0 71*4096\nfault 1 write\ncomplete\n\
             submit 1 4096 72*4096\ncomplete\nsize 0\nsize 1\nreap\nreap\n",
            "ok\nok 1\nok 2\nok\nok 1\n\
             error fs-read-only\nok 2\nok 0\nok 4096\nok 1 io-error\nok 2 ok\n",
        ),
        // A read that fails over good zones changes nothing, and one of an offline zone ends the file's requests.
        done(
            "scratch 4 1 8",
            "write 0 0 61*4096\nsubmit 0 4096 62*4096\nsubmit 0 8192 63*4096\nfault 1 read\nread 0 0 1\n\
             complete\nturn 1 off\nread 0 0 1\ncomplete\nreap\nreap\nsize 0\n",
            "ok\nok 1\nok 2\nok\nerror io-error\n\
             ok 1\nok\nerror io-error\nerror nothing-queued\nok 1 ok\nok 2 io-error\nok 0\n",
        ),
        // The zone turns read-only between two requests.
        done(
            "scratch 3 1 3",
            "submit 0 0 61*8192\nsubmit 0 8192 62*4096\nsubmit 0 12288 63*4096\ncomplete\nturn 1 ro\ncomplete\n\
             reap\nreap\nread 0 0 12288\n",
            "ok 1\nok 2\nerror too-big\nok 1\nok\nok 2\n\
             ok 1 ok\nok 2 io-error\nok 8192 61*8192\n",
        ),
    ]
}

#[test]
fn requests_fail(rt: HostRuntime) -> Result<(), Fail> {
    for case in failures() {
        runs(rt, rt.alloc(), case)?;
    }
    Ok(())
}

/// A loss of power inside a request, and inside the report that follows one that failed: no request is left.
#[test]
fn a_loss_inside_a_request(rt: HostRuntime) -> Result<(), Fail> {
    for case in [
        done(
            "scratch 3 1 8",
            "write 0 0 61*4096\nsync 0\nsubmit 0 4096 62*8192\nsubmit 0 12288 63*4096\npower-loss-in 1 write 1:2\n\
             complete\nreap\ncomplete\nsubmit 0 0 61*4096\nmount\npower-on\nmount\ncomplete\nreap\n\
             submit 0 0 61*4096\nopen 0 seq/0 rw\nsize 0\nread 0 0 16384\nsubmit 0 8192 64*4096\ncomplete\nreap\n\
             size 0\n",
            "ok\nok\nok 1\nok 2\nok\n\
             error power-lost\nerror not-mounted\nerror not-mounted\nerror not-mounted\nerror power-lost\nok\nok\n\
             error nothing-queued\nerror nothing-done\n\
             error bad-handle\nok\nok 8192\nok 8192 61*4096+62*4096\nok 1\nok 1\nok 1 ok\n\
             ok 12288\n",
        ),
        done(
            "scratch 3 1 8",
            "submit 0 0 61*8192\nfault 1 write 1\npower-loss-in 1 report 1:1\ncomplete\ncomplete\npower-on\nmount\n\
             open 0 seq/0 r\nread 0 0 8192\nreap\n",
            "ok 1\nok\nok\nerror power-lost\nerror not-mounted\nok\nok\n\
             ok\nok 4096 61*4096\nerror nothing-done\n",
        ),
    ] {
        runs(rt, rt.alloc(), case)?;
    }
    Ok(())
}

/// 64 lines that submit requests of so many bytes each, one behind the other, and their replies.
fn submits(alloc: Global, len: u64) -> Result<(String, String), AllocError> {
    let mut script = String::new(alloc);
    let mut written = String::new(alloc);
    for ticket in 1..65u64 {
        let offset = len.saturating_mul(ticket - 1);
        script.push_str(&format!(in alloc; "submit 0 {offset} 61*{len}\n")?)?;
        written.push_str(&format!(in alloc; "ok {ticket}\n")?)?;
    }
    Ok((script, written))
}

/// A place in the queue is free again where an outcome was reaped, and blocks of the pool where a request has ended.
#[test]
fn requests_are_limited(rt: HostRuntime) -> Result<(), Fail> {
    let alloc = rt.alloc();
    let (mut script, mut written) = submits(alloc, 4096)?;
    script.push_str(
        "submit 0 0 61*4096\nsubmit 0 262144 61*4096\ncomplete\nsubmit 0 262144 61*4096\nreap\n\
         submit 0 262144 61*4096\nsubmit 0 266240 61*4096\n",
    )?;
    written.push_str(
        "error bad-offset\nerror queue-full\nok 1\nerror queue-full\nok 1 ok\nok 65\nerror queue-full\n",
    )?;
    carried_out(rt, alloc, "scratch 2 1 70", &script, &written)?;
    // All blocks of the pool: a full queue is told before it.
    let (mut script, mut written) = submits(alloc, 65_536)?;
    script.push_str(
        "submit 0 4194304 62*4096\ncomplete\nsubmit 0 4194304 62*4096\nreap\nsubmit 0 4194304 62*69632\n\
         submit 0 4194304 62*65536\nsubmit 0 4259840 62*4096\n",
    )?;
    written.push_str(
        "error queue-full\nok 1\nerror queue-full\nok 1 ok\nerror pool-empty\nok 65\nerror queue-full\n",
    )?;
    carried_out(rt, alloc, "scratch 2 1 1100", &script, &written)
}
