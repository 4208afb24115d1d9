use crate::steps::draw_behind;
use crate::{Churn, MOST_LINE};

#[test]
fn draws(rt: HostRuntime) {
    let mut draw = 1;
    for want in [
        149, 11249, 57305, 38044, 35283, 24819, 26463, 18689, 25472u32,
    ] {
        draw = draw_behind(draw);
        assert_eq!(rt; draw, want);
    }
}

#[test]
fn gives_lines(rt: HostRuntime) {
    let mut churn = Churn::new(1, 3);
    let mut out = [0; MOST_LINE];
    for want in [
        "open 1 seq/1 rw",
        "open 2 seq/2 rw",
        "open 3 seq/3 rw",
        "open 4 seq/4 rw",
        "open 5 seq/5 rw",
        "open 6 seq/6 rw",
        "open 7 seq/7 rw",
        "write 5 0 d9*12288",
        "write 4 0 f3*12288",
        "write 7 0 80*4096",
    ] {
        let len = churn.next(&mut out).expect(&rt, "a line");
        assert_eq!(rt; &out[..len], want.as_bytes());
    }
    assert!(rt; churn.next(&mut out).is_none());
}

#[test]
fn ends(rt: HostRuntime) {
    let mut churn = Churn::new(1, 1000);
    let mut out = [0; MOST_LINE];
    while churn.next(&mut out).is_some() {}
    assert!(rt; churn.next(&mut out).is_none());
}
