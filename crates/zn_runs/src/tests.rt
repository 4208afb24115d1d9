use crate::write_runs;
use std::alloc::Global;
use std::test::Fail;
use zn_base::memory::MemSink;

fn sink_of(alloc: Global, room: usize) -> Result<MemSink, Fail> {
    Ok(MemSink::new(alloc, room, Vec::new(alloc))?)
}

#[test]
fn writes_runs(rt: HostRuntime) -> Result<(), Fail> {
    for (bytes, want) in [
        ("", ""),
        ("a", "61*1"),
        ("aab", "61*2+62*1"),
        ("abbba\n", "61*1+62*3+61*1+0a*1"),
    ] {
        let mut sink = sink_of(rt.alloc(), 64)?;
        assert!(rt; write_runs(&mut sink, bytes.as_bytes(), &mut [0; 64]).is_ok());
        assert_eq!(rt; sink.bytes(), want.as_bytes());
    }
    for count in [
        31,
        32,
        33,
        63,
        64,
        65,
        127,
        128,
        129,
        192,
        256,
        100_000usize,
    ] {
        let mut bytes = vec![in rt.alloc(); 0xffu8; count]?;
        bytes.push(0)?;
        let mut sink = sink_of(rt.alloc(), 64)?;
        assert!(rt; write_runs(&mut sink, &bytes, &mut [0; 64]).is_ok());
        let want = format!(in rt.alloc(); "ff*{count}+00*1")?;
        assert_eq!(rt; sink.bytes(), want.as_bytes());
    }
    Ok(())
}
