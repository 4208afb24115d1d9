// Lines that are refused, and lines that fit.
ghost use Rattle.std.specs.Prelude.{◌≤◌, length};

mod refused;

use refused::{
    DATA, FAULTS, HANDLES, ITEMS, LOSSES, LOSSES_INSIDE, OPENS, PATHS, READS, SIZES, VERBS, WORDS,
};
use std::alloc::{AllocError, Global};
use std::process::Abort;
use std::test::Fail;
use zn_lines::{Change, LINE_LIMIT};
use zn_model::{MOST_BYTES, Mode, Who};
use zn_script::{Line, expand, expand_cuts, parse};
use zn_truth::{Command, Cond, Cuts, ZoneNo};

fn is_refused_at<R: Abort>(rt: &R, line: &[u8], column: u32) {
    let is_short = line.len() <= LINE_LIMIT;
    assert!(rt; is_short);
    match parse(line) {
        Err(at) => assert_eq!(rt; at, column, "{line:?}"),
        Ok(_) => panic!(rt; "{line:?} fits"),
    }
}

#[test]
fn columns_of_words_that_do_not_fit(rt: HostRuntime) {
    for table in [
        VERBS,
        ITEMS,
        WORDS,
        HANDLES,
        OPENS,
        READS,
        DATA,
        SIZES,
        PATHS,
        FAULTS,
        LOSSES,
        LOSSES_INSIDE,
    ] {
        for (line, column) in table {
            is_refused_at(&rt, line.as_bytes(), *column);
        }
    }
}

#[test]
fn lines_without_a_reply(rt: HostRuntime) {
    assert!(rt; matches!(parse(b""), Ok(None)));
    assert!(rt; matches!(parse(b"#"), Ok(None)));
    assert!(rt; matches!(parse(b"# size 0"), Ok(None)));
}

#[test]
fn lines_that_fit(rt: HostRuntime) {
    assert!(rt; matches!(parse(b"umount"), Ok(Some(Line::Umount))));
    assert!(rt; matches!(parse(b"mount"), Ok(Some(Line::Mount(None)))));
    assert!(rt; matches!(parse(b"mount uid=1"), Ok(Some(Line::Mount(Some("uid=1"))))));
    assert!(rt; matches!(parse(b"close 2047"), Ok(Some(Line::Close(2047)))));
    assert!(rt; matches!(parse(b"size 0"), Ok(Some(Line::Size(0)))));
    assert!(rt; matches!(parse(b"read 1 4096 0"), Ok(Some(Line::Read(1, 4096, 0)))));
    assert!(rt;
        matches!(
            parse(b"read 2047 18446744073709551615 1048576"),
            Ok(Some(Line::Read(2047, u64::MAX, 1048576)))
        )
    );
    assert!(rt; matches!(parse(b"truncate 7 0"), Ok(Some(Line::Truncate(7, 0)))));
    assert!(rt;
        matches!(
            parse(b"truncate 2047 18446744073709551615"),
            Ok(Some(Line::Truncate(2047, u64::MAX)))
        )
    );
    assert!(rt; matches!(parse(b"sync 2047"), Ok(Some(Line::Sync(2047)))));
    assert!(rt; matches!(parse(b"complete"), Ok(Some(Line::Complete))));
    assert!(rt; matches!(parse(b"reap"), Ok(Some(Line::Reap))));
    assert!(rt; matches!(parse(b"stat /"), Ok(Some(Line::Stat("/")))));
    assert!(rt; matches!(parse(b"list ~!"), Ok(Some(Line::List("~!")))));
    assert!(rt; matches!(parse(b"attr"), Ok(Some(Line::Attr))));
    assert!(rt; matches!(parse(b"zones"), Ok(Some(Line::Zones))));
    assert!(rt; matches!(parse(b"power-on"), Ok(Some(Line::PowerOn))));
}

#[test]
fn changes_that_fit(rt: HostRuntime) {
    for (line, change) in [
        ("create a", Change::Create),
        ("remove a", Change::Remove),
        ("rename a b", Change::Rename),
        ("chmod a 4294967295", Change::Chmod),
        ("chown a 0 4294967295", Change::Chown),
    ] {
        match parse(line.as_bytes()) {
            Ok(Some(Line::Change(found))) => assert_eq!(rt; found, change, "{line}"),
            _ => assert!(rt; false, "{line}"),
        }
    }
}

#[test]
fn faults_and_turns_that_fit(rt: HostRuntime) {
    for (line, kind, keep) in [
        ("fault 7 read", Command::Read, None),
        ("fault 7 write 0", Command::Write, Some(0)),
        ("fault 7 reset", Command::Reset, None),
        ("fault 7 finish", Command::Finish, None),
        ("fault 7 flush 4294967295", Command::Flush, Some(u32::MAX)),
        ("fault 7 open", Command::Open, None),
        ("fault 7 close", Command::Close, None),
        ("fault 7 report 1", Command::Report, Some(1)),
    ] {
        match parse(line.as_bytes()) {
            Ok(Some(Line::Fault(7, command, blocks))) => {
                assert_eq!(rt; command, kind, "{line}");
                assert_eq!(rt; blocks, keep, "{line}");
            }
            _ => assert!(rt; false, "{line}"),
        }
    }
    assert!(rt; matches!(parse(b"turn 0 ro"), Ok(Some(Line::Turn(0, Cond::ReadOnly)))));
    assert!(rt;
        matches!(
            parse(b"turn 18446744073709551615 off"),
            Ok(Some(Line::Turn(u64::MAX, Cond::Offline)))
        )
    );
}

#[test]
fn users_that_are_left_out_are_0(rt: HostRuntime) {
    for (line, mode, uid, gid) in [
        ("open 7 seq/0 r", Mode::READ, 0, 0),
        ("open 7 seq/0 w gid=7", Mode::WRITE, 0, 7),
        ("open 7 seq/0 rw uid=7", Mode::READ_WRITE, 7, 0),
        (
            "open 7 seq/0 rw uid=4294967295 gid=1",
            Mode::READ_WRITE,
            4294967295,
            1,
        ),
    ] {
        match parse(line.as_bytes()) {
            Ok(Some(Line::Open(7, "seq/0", found, who))) => {
                assert_eq!(rt; found, mode, "{line}");
                assert_eq!(rt; who, Who { uid, gid }, "{line}");
            }
            _ => assert!(rt; false, "{line}"),
        }
    }
}

#[test]
fn items_of_a_format_in_any_order(rt: HostRuntime) {
    for line in [
        "mkfs force label=data features=uid=1",
        "mkfs features=uid=1 label=data force",
    ] {
        match parse(line.as_bytes()) {
            Ok(Some(Line::Mkfs(words))) => {
                assert!(rt; words.force && words.uuid.is_none(), "{line}");
                assert!(rt; words.label == Some("data"), "{line}");
                assert!(rt; words.features == Some("uid=1"), "{line}");
            }
            _ => assert!(rt; false, "{line}"),
        }
    }
}

fn is_expanded<R: Abort>(rt: &R, line: &[u8], out: &mut [u8], bytes: &[u8])
    requires { MOST_BYTES ≤ length out.old }
{
    let is_short = line.len() <= LINE_LIMIT;
    assert!(rt; is_short);
    match parse(line) {
        Ok(Some(Line::Write(3, 4096, data))) => {
            let len = expand(data, out);
            assert_eq!(rt; &out[..len], bytes, "{line:?}");
        }
        _ => panic!(rt; "{line:?} does not fit"),
    }
}

#[test]
fn data_is_expanded(rt: HostRuntime) -> Result<(), Fail> {
    let mut out = vec![in rt.alloc(); 0; MOST_BYTES as usize]?;
    is_expanded(&rt, b"write 3 4096 61*2+62*1", &mut out, b"aab");
    is_expanded(&rt, b"write 3 4096 61*0", &mut out, b"");
    is_expanded(&rt, b"write 3 4096 61*1+62*0+61*1", &mut out, b"aa");
    is_expanded(&rt, b"write 3 4096 0a*1+7e*10", &mut out, b"\n~~~~~~~~~~");
    let most = vec![in rt.alloc(); 0xff; MOST_BYTES as usize]?;
    is_expanded(&rt, b"write 3 4096 ff*1048576", &mut out, &most);
    is_expanded(&rt, b"write 3 4096 ff*1048575+ff*1", &mut out, &most);
    is_expanded(&rt, b"write 3 4096 00*0+ff*1048576+00*0", &mut out, &most);
    Ok(())
}

#[test]
fn submitted_data_is_expanded(rt: HostRuntime) -> Result<(), Fail> {
    let mut out = vec![in rt.alloc(); 0; MOST_BYTES as usize]?;
    match parse(b"submit 2047 18446744073709551615 c3*2") {
        Ok(Some(Line::Submit(2047, u64::MAX, data))) => {
            let len = expand(data, &mut out);
            assert_eq!(rt; &out[..len], [0xc3, 0xc3].as_slice());
        }
        _ => assert!(rt; false),
    }
    Ok(())
}

/// A loss of power as a line, the byte that it fills in, and its cuts.
const LOSSES_NAMED: [(&str, Option<u8>, &[(u32, u32)]); 6] = [
    ("power-loss", None, &[]),
    ("power-loss fill=00", Some(0), &[]),
    ("power-loss fill=9f", Some(0x9f), &[]),
    ("power-loss 0:0", None, &[(0, 0)]),
    ("power-loss 7:2 7:2", None, &[(7, 2), (7, 2)]),
    (
        "power-loss fill=ff 4294967295:4294967295 10:20 3:0",
        Some(0xff),
        &[(u32::MAX, u32::MAX), (10, 20), (3, 0)],
    ),
];

#[test]
fn losses_that_fit(rt: HostRuntime) {
    for (line, fill, cuts) in LOSSES_NAMED {
        match parse(line.as_bytes()) {
            Ok(Some(Line::PowerLoss(found, words))) => {
                assert_eq!(rt; found, fill, "{line}");
                let named = expand_cuts(words);
                are_cuts(&rt, &named, cuts);
            }
            _ => assert!(rt; false, "{line}"),
        }
    }
}

fn are_cuts<R: Abort>(rt: &R, found: &Option<Cuts>, cuts: &[(u32, u32)]) {
    let Some(found) = found else {
        panic!(rt; "a zone has more than 32 bits");
    };
    assert_eq!(rt; found.len() as usize, cuts.len());
    let mut i = 0;
    for (zone, blocks) in cuts {
        if i < found.len() {
            let cut = found.at(i);
            assert_eq!(rt; cut, (ZoneNo(*zone), *blocks));
            i += 1;
        }
    }
}

#[test]
fn losses_inside_commands_that_fit(rt: HostRuntime) {
    for (line, zone, kind, done, fill) in [
        ("power-loss-in 0 write", 0, Command::Write, false, None),
        (
            "power-loss-in 1 finish done",
            1,
            Command::Finish,
            true,
            None,
        ),
        (
            "power-loss-in 2 report fill=0a",
            2,
            Command::Report,
            false,
            Some(0x0a),
        ),
        (
            "power-loss-in 18446744073709551615 reset done fill=a0",
            u64::MAX,
            Command::Reset,
            true,
            Some(0xa0),
        ),
    ] {
        match parse(line.as_bytes()) {
            Ok(Some(Line::PowerLossIn(number, command, carried_out, found, words))) => {
                assert_eq!(rt; number, zone, "{line}");
                assert_eq!(rt; command, kind, "{line}");
                assert_eq!(rt; carried_out, done, "{line}");
                assert_eq!(rt; found, fill, "{line}");
                assert!(rt; words.is_empty(), "{line}");
            }
            _ => assert!(rt; false, "{line}"),
        }
    }
    match parse(b"power-loss-in 3 flush 7:1 8:2") {
        Ok(Some(Line::PowerLossIn(3, Command::Flush, false, None, words))) => {
            are_cuts(&rt, &expand_cuts(words), &[(7, 1), (8, 2)]);
        }
        _ => assert!(rt; false),
    }
}

#[test]
fn zones_that_no_device_has(rt: HostRuntime) {
    for line in [
        "power-loss 4294967296:0",
        "power-loss 1:2 18446744073709551615:0",
        "power-loss 4294967297:2 1:2",
    ] {
        match parse(line.as_bytes()) {
            Ok(Some(Line::PowerLoss(None, words))) => {
                assert!(rt; expand_cuts(words).is_none(), "{line}");
            }
            _ => assert!(rt; false, "{line}"),
        }
    }
}

/// A loss of power with so many cuts.
fn with_cuts(alloc: Global, count: usize) -> Result<Vec<u8>, AllocError> {
    let mut line = Vec::from_slice(alloc, b"power-loss")?;
    for _ in 0..count {
        line.extend_from_slice(b" 5:6")?;
    }
    Ok(line)
}

#[test]
fn sixty_four_cuts_fit(rt: HostRuntime) -> Result<(), Fail> {
    let line = with_cuts(rt.alloc(), 64)?;
    let is_short = line.len() <= LINE_LIMIT;
    assert!(rt; is_short);
    match parse(&line) {
        Ok(Some(Line::PowerLoss(None, words))) => {
            are_cuts(&rt, &expand_cuts(words), &[(5, 6); 64]);
        }
        _ => assert!(rt; false),
    }
    is_refused_at(&rt, &with_cuts(rt.alloc(), 65)?, 268);
    Ok(())
}
