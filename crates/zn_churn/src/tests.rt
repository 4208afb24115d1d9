use crate::replies::ReplyBuffer;
use crate::tally::{Tally, count_in};
use std::test::Fail;
use zn_base::{Sink, write_all};

#[test]
fn counts_are_found(rt: HostRuntime) {
    assert_eq!(&rt; count_in(b"ok 4096 ab*4096\n"), 4096);
    assert_eq!(&rt; count_in(b"ok 0\n"), 0);
    assert_eq!(&rt; count_in(b"ok\n"), 0);
    assert_eq!(&rt; count_in(b"error io-error\n"), 0);
    assert_eq!(&rt; count_in(b""), 0);
    assert_eq!(&rt; count_in(b"ok 4294967295\n"), 4_294_967_295);
    assert_eq!(&rt; count_in(b"ok 4294967296\n"), 429_496_729);
}

#[test]
fn replies_add_up(rt: HostRuntime) {
    let mut tally = Tally::nothing();
    tally.count(b"read 0 0 8192", b"ok 8192 61*8192\n");
    tally.count(b"size 0", b"ok 8192\n");
    tally.count(b"read 9 0 1", b"error bad-handle\n");
    tally.count(b"# read 0 0 1", b"");
    tally.count(b"sync 0", b"ok\n");
    let want = Tally {
        lines: 5,
        ok: 3,
        errors: 1,
        read: 8192,
    };
    assert_eq!(&rt; tally, want);
}

#[test]
fn replies_are_kept_until_cleared(rt: HostRuntime) -> Result<(), Fail> {
    let mut reply = ReplyBuffer::new(rt.alloc());
    assert!(&rt; write_all(&mut reply, b"ok ").is_ok());
    assert!(&rt; write_all(&mut reply, b"12\n").is_ok());
    assert!(&rt; reply.flush().is_ok());
    assert_eq!(&rt; reply.bytes(), b"ok 12\n".as_slice());
    reply.clear();
    assert!(&rt; reply.bytes().is_empty());
    assert_eq!(&rt; reply.faults(), 0);
    Ok(())
}
