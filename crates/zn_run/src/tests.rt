ghost use Rattle.std.specs.Prelude.{[], true, false, None};
ghost use Rattle.zn_lines.specs.Table.{fresh_table};

use crate::{Machine, Status, Step, run};
use std::alloc::Global;
use std::process::Abort;
use std::test::Fail;
use zn_base::memory::{MemSink, MemSource};
use zn_base::{ReadFault, Sink, Source, WriteFault, write_all};
use zn_lines::SCRIPT_LIMIT;

/// A machine over nothing, which knows a few lines: it aborts at any other.
#[derive(Drop)]
struct Probe<R> {
    rt: R,
    is_over: bool,
    breaks: u64,
    steps: u64,
}

impl<R: Abort> Machine for Probe<R> {
    ghost state = { λ m. record {
      table = fresh_table (record {
        told = true;
        shape = record { zone_blocks = 1; zone_capacity = 1; max_open = 0; max_active = 0 };
        zones = [];
      }) [];
      over = m.is_over;
      spoilt = false;
      breaks = m.breaks;
      takes_memory = true;
      steps = m.steps;
    } };

    fn step<K: Sink>(&mut self, line: &[u8], sink: &mut K) -> Step {
        self.steps += 1;
        if line.is_empty() {
            return Step::Done;
        }
        if line[0] == b'#' {
            return Step::Done;
        }
        if line == b"close".as_slice() {
            return Step::BadLine(6);
        }
        if line == b"close 0".as_slice() {
            return match write_all(sink, b"error not-mounted\n") {
                Ok(()) => Step::Done,
                Err(_) => {
                    self.is_over = true;
                    Step::SinkFault
                }
            };
        }
        if line == b"size 0".as_slice() {
            self.is_over = true;
            self.breaks = self.breaks.saturating_add(1);
            return Step::Broken;
        }
        if line == b"size 1".as_slice() {
            self.is_over = true;
            return Step::Memory;
        }
        panic!(&self.rt; "a line that the machine does not know")
    }
}

/// A script, the faults of its run, and how that ends.
#[derive(Clone, Copy)]
struct Case {
    script: &'static str,
    /// The numbers of the reads that fail.
    reads: &'static [u64],
    /// How many bytes the sink has room for.
    room: usize,
    status: Status,
    written: &'static str,
}

fn ends_so<R: Abort + Copy>(
    rt: R,
    alloc: Global,
    mut source: MemSource,
    room: usize,
    status: Status,
    written: &str,
) -> Result<(), Fail> {
    let mut sink = MemSink::new(alloc, room, Vec::new(alloc))?;
    let mut machine = Probe {
        rt,
        is_over: false,
        breaks: 0,
        steps: 0,
    };
    let got = run(alloc, &mut machine, &mut source, &mut sink);
    assert_eq!(&rt; got, status, "{written}");
    assert_eq!(&rt; sink.bytes(), written.as_bytes());
    Ok(())
}

fn is_run<R: Abort + Copy>(rt: R, alloc: Global, case: Case) -> Result<(), Fail> {
    let script = Vec::from_slice(alloc, case.script.as_bytes())?;
    let fails = Vec::from_slice(alloc, case.reads)?;
    ends_so(
        rt,
        alloc,
        MemSource::new(script, fails),
        case.room,
        case.status,
        case.written,
    )
}

fn ends(script: &'static str, status: Status, written: &'static str) -> Case {
    Case {
        script,
        reads: &[],
        room: 100,
        status,
        written,
    }
}

#[test]
fn scripts_are_answered(rt: HostRuntime) -> Result<(), Fail> {
    for case in [
        ends("", Status::Done, ""),
        ends("\n", Status::Done, ""),
        ends("# x\n\nclose 0\n", Status::Done, "error not-mounted\n"),
        ends(
            "close 0\nclose 0",
            Status::Done,
            "error not-mounted\nerror not-mounted\n",
        ),
        ends("close", Status::Script, "script-error 1 6\n"),
        ends(
            "close 0\nclose\nclose 0\n",
            Status::Script,
            "error not-mounted\nscript-error 2 6\n",
        ),
        ends("size 0", Status::HostFault, "host-fault 1\n"),
        ends(
            "close 0\nsize 0\nclose 0\n",
            Status::HostFault,
            "error not-mounted\nhost-fault 2\n",
        ),
        ends("size 1", Status::Memory, "out-of-memory\n"),
        ends(
            "close 0\nsize 1\nclose\n",
            Status::Memory,
            "error not-mounted\nout-of-memory\n",
        ),
    ] {
        is_run(rt, rt.alloc(), case)?;
    }
    Ok(())
}

#[test]
fn faults_end_runs(rt: HostRuntime) -> Result<(), Fail> {
    let two = ends("close 0\nclose 0", Status::WriteFault, "");
    for case in [
        Case {
            reads: &[1],
            status: Status::ReadFault,
            written: "read-fault\n",
            ..two
        },
        Case {
            reads: &[2],
            status: Status::ReadFault,
            written: "error not-mounted\nread-fault\n",
            ..two
        },
        Case { room: 0, ..two },
        Case {
            room: 20,
            written: "error not-mounted\ner",
            ..two
        },
        Case {
            room: 20,
            written: "error not-mounted\nsc",
            ..ends("close 0\nclose", Status::WriteFault, "")
        },
        Case {
            room: 20,
            written: "error not-mounted\nho",
            ..ends("close 0\nsize 0\n", Status::WriteFault, "")
        },
        Case {
            room: 20,
            written: "error not-mounted\nou",
            ..ends("close 0\nsize 1\n", Status::WriteFault, "")
        },
        Case {
            reads: &[2],
            room: 20,
            written: "error not-mounted\nre",
            ..two
        },
    ] {
        is_run(rt, rt.alloc(), case)?;
    }
    Ok(())
}

/// So many comments of this length, each with a newline behind it, and then more bytes.
fn comments(alloc: Global, count: usize, len: usize, more: &[u8]) -> Result<Vec<u8>, Fail> {
    let mut line = vec![in alloc; b'#'; len]?;
    line.push(b'\n')?;
    let mut script = Vec::new(alloc);
    for _ in 0..count {
        script.extend_from_slice(&line)?;
    }
    script.extend_from_slice(more)?;
    Ok(script)
}

fn is_told<R: Abort + Copy>(
    rt: R,
    alloc: Global,
    script: Vec<u8>,
    status: Status,
    written: &str,
) -> Result<(), Fail> {
    ends_so(
        rt,
        alloc,
        MemSource::new(script, Vec::new(alloc)),
        100,
        status,
        written,
    )
}

#[test]
fn a_long_line_is_told(rt: HostRuntime) -> Result<(), Fail> {
    let alloc = rt.alloc();
    is_told(rt, alloc, comments(alloc, 1, 65536, b"")?, Status::Done, "")?;
    is_told(
        rt,
        alloc,
        comments(alloc, 1, 65536, b"close\n")?,
        Status::Script,
        "script-error 2 6\n",
    )?;
    is_told(
        rt,
        alloc,
        comments(alloc, 1, 65537, b"")?,
        Status::Script,
        "line-too-long 1\n",
    )?;
    let longest = vec![in alloc; b'#'; 65536]?;
    is_told(
        rt,
        alloc,
        comments(alloc, 3, 0, &longest)?,
        Status::Done,
        "",
    )?;
    let longer = vec![in alloc; b'#'; 65537]?;
    is_told(
        rt,
        alloc,
        comments(alloc, 3, 0, &longer)?,
        Status::Script,
        "line-too-long 4\n",
    )?;
    Ok(())
}

/// How many bytes a source of no more than 409,600 bytes has left.
fn left_in(source: &mut MemSource) -> usize {
    let mut buf = [0; 4096];
    let mut total: usize = 0;
    for _ in 0..100 {
        if let Ok(count) = source.read(&mut buf) {
            total = total.saturating_add(count);
        }
    }
    total
}

fn leaves<R: Abort + Copy>(
    rt: R,
    alloc: Global,
    script: Vec<u8>,
    status: Status,
    left: usize,
) -> Result<(), Fail> {
    let mut source = MemSource::new(script, Vec::new(alloc));
    let mut sink = MemSink::new(alloc, 100, Vec::new(alloc))?;
    let mut machine = Probe {
        rt,
        is_over: false,
        breaks: 0,
        steps: 0,
    };
    let got = run(alloc, &mut machine, &mut source, &mut sink);
    assert_eq!(&rt; got, status);
    assert_eq!(&rt; left_in(&mut source), left);
    Ok(())
}

#[test]
fn a_line_may_cross_the_border_of_pieces(rt: HostRuntime) -> Result<(), Fail> {
    let alloc = rt.alloc();
    for len in 65527..65537 {
        is_told(
            rt,
            alloc,
            comments(alloc, 1, len, b"close 0\nclose 0")?,
            Status::Done,
            "error not-mounted\nerror not-mounted\n",
        )?;
    }
    Ok(())
}

#[test]
fn lines_are_carried_out_before_more_is_read(rt: HostRuntime) -> Result<(), Fail> {
    let alloc = rt.alloc();
    let others = comments(alloc, 3, 65535, b"")?;
    let mut bad = Vec::from_slice(alloc, b"close\n")?;
    bad.extend_from_slice(&others)?;
    leaves(rt, alloc, bad, Status::Script, 131078)?;
    let mut breaks = comments(alloc, 1, 65530, b"size 0\n")?;
    breaks.extend_from_slice(&others)?;
    leaves(rt, alloc, breaks, Status::HostFault, 131074)?;
    Ok(())
}

#[test]
fn a_long_script_is_carried_out(rt: HostRuntime) -> Result<(), Fail> {
    let alloc = rt.alloc();
    is_told(
        rt,
        alloc,
        comments(alloc, 300, 65536, b"close 0\n")?,
        Status::Done,
        "error not-mounted\n",
    )?;
    let two_lines = vec![in alloc; b'#'; 131073]?;
    is_told(
        rt,
        alloc,
        comments(alloc, 299, 65535, &two_lines)?,
        Status::Script,
        "line-too-long 300\n",
    )?;
    Ok(())
}

/// A source of comments, each as long as what is read at once, until so many bytes are given.
#[derive(Drop)]
struct Generated {
    left: usize,
}

impl Source for Generated {
    ghost state = { λ s. record { left = None; faults = 0 } };

    fn read(&mut self, buf: &mut [u8]) -> Result<usize, ReadFault> {
        let count = buf.len().min(self.left);
        buf[..count].fill(b'#');
        if let Some(last) = buf[..count].last_mut() {
            *last = b'\n';
        }
        self.left -= count;
        Ok(count)
    }

    fn faults(&self) -> u64 {
        0
    }
}

#[test]
fn a_script_may_be_as_long_as_its_limit(rt: HostRuntime) -> Result<(), Fail> {
    for (len, status, written) in [
        (SCRIPT_LIMIT, Status::Done, ""),
        (SCRIPT_LIMIT + 1, Status::Script, "script-too-long 65537\n"),
    ] {
        let mut source = Generated { left: len };
        let mut sink = MemSink::new(rt.alloc(), 100, Vec::new(rt.alloc()))?;
        let mut machine = Probe {
            rt,
            is_over: false,
            breaks: 0,
            steps: 0,
        };
        let got = run(rt.alloc(), &mut machine, &mut source, &mut sink);
        assert_eq!(rt; got, status, "{len}");
        assert_eq!(rt; sink.bytes(), written.as_bytes());
    }
    Ok(())
}

/// A sink that holds back what is written and can't pass it on.
#[derive(Drop)]
struct Stuck {
    faults: u64,
}

impl Sink for Stuck {
    ghost state = { λ s. record { written = None; held_back = true; faults = s.faults } };

    fn write(&mut self, piece: &[u8]) -> Result<usize, WriteFault> {
        Ok(piece.len())
    }

    fn flush(&mut self) -> Result<(), WriteFault> {
        self.faults = self.faults.saturating_add(1);
        Err(WriteFault)
    }

    fn faults(&self) -> u64 {
        self.faults
    }
}

// The first reply isn't passed on, so no line of the next piece is carried out.
#[test]
fn replies_are_passed_on_before_more_is_read(rt: HostRuntime) -> Result<(), Fail> {
    let alloc = rt.alloc();
    let script = comments(alloc, 1, 65527, b"close 0\nsize 0\n")?;
    let mut source = MemSource::new(script, Vec::new(alloc));
    let mut sink = Stuck { faults: 0 };
    let mut machine = Probe {
        rt,
        is_over: false,
        breaks: 0,
        steps: 0,
    };
    let got = run(alloc, &mut machine, &mut source, &mut sink);
    assert_eq!(rt; got, Status::WriteFault);
    assert_eq!(rt; (machine.steps, machine.breaks), (2, 0));
    Ok(())
}

#[test]
fn each_status_has_its_code(rt: HostRuntime) {
    for (status, code) in [
        (Status::Done, 0),
        (Status::Usage, 2),
        (Status::Script, 3),
        (Status::Directory, 4),
        (Status::HostFault, 5),
        (Status::ReadFault, 6),
        (Status::WriteFault, 7),
        (Status::Memory, 8),
    ] {
        assert_eq!(rt; status.code(), code, "{status:?}");
    }
}
