use crate::memory::{MemSink, MemSource};
use crate::*;
use std::alloc::Global;
use std::test::Fail;

fn sink_of(alloc: Global, room: usize, fails: &[u64]) -> Result<MemSink, Fail> {
    Ok(MemSink::new(alloc, room, Vec::from_slice(alloc, fails)?)?)
}

#[test]
fn reads_on_after_a_fault(rt: HostRuntime) -> Result<(), Fail> {
    let bytes = Vec::from_slice(rt.alloc(), b"abcdefg")?;
    let mut source = MemSource::new(bytes, vec![in rt.alloc(); 2]?);
    let mut buf = [0; 3];
    for want in [Some("abc"), None, Some("def"), Some("g"), Some("")] {
        match (source.read(&mut buf), want) {
            (Ok(count), Some(want)) => assert_eq!(rt; &buf[..count], want.as_bytes()),
            (got, want) => assert!(rt; got.is_err() && want.is_none(), "{want:?}"),
        }
    }
    assert_eq!(rt; source.faults(), 1);
    Ok(())
}

#[test]
fn fills_a_room_of_five(rt: HostRuntime) -> Result<(), Fail> {
    let mut sink = sink_of(rt.alloc(), 5, &[2])?;
    for (piece, is_taken) in [("ab", true), ("x", false), ("cdefg", false), ("", true)] {
        let result = write_all(&mut sink, piece.as_bytes());
        assert_eq!(rt; result.is_ok(), is_taken, "at {piece}");
    }
    assert_eq!(rt; sink.bytes(), b"abcde".as_slice());
    assert_eq!(rt; sink.faults(), 2);
    Ok(())
}

#[test]
fn writes_parts(rt: HostRuntime) -> Result<(), Fail> {
    let mut sink = sink_of(rt.alloc(), 64, &[])?;
    let parts = [
        Part::Text(b"at "),
        Part::Number(u64::MAX),
        Part::Text(b" 0x"),
        Part::Hex(0xe9),
        Part::Hex(0),
        Part::Text(b"\n"),
    ];
    assert!(rt; write_parts(&mut sink, &parts).is_ok());
    assert!(rt; write_number(&mut sink, 0).is_ok());
    assert_eq!(rt;
        sink.bytes(),
        b"at 18446744073709551615 0xe900\n0".as_slice()
    );
    Ok(())
}

#[test]
fn parses_numbers(rt: HostRuntime) {
    for (word, max, want) in [
        ("0", 0, Some(0)),
        ("4096", 4096, Some(4096)),
        ("4097", 4096, None),
        ("00", 9, None),
        ("07", 9, None),
        ("", 9, None),
        ("+1", 9, None),
        (" 1", 9, None),
        ("1x", 99, None),
        ("18446744073709551615", u64::MAX, Some(u64::MAX)),
        ("18446744073709551616", u64::MAX, None),
        ("100000000000000000000", u64::MAX, None),
    ] {
        assert_eq!(rt; parse_number(word.as_bytes(), max), want, "{word:?}");
    }
}
