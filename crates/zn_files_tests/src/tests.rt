use std::alloc::Global;
use std::process::Abort;
use std::test::Fail;
use zn_base::memory::MemSink;
use zn_base::{Sink, write_all};
use zn_files::{Choice, FileCall, FileError, Files, MemFiles, Names, Text};
use zn_runs::write_runs;

/// A call on a file. A write has its place, a value and how many bytes of it there are.
#[derive(Clone, Copy)]
enum Step {
    Create(&'static str),
    Write(&'static str, u64, u8, usize),
    SetLen(&'static str, u64),
    Sync(&'static str),
}

/// Writes within a file, or at its end.
fn write(
    rt: &impl Abort,
    files: &mut MemFiles,
    name: &str,
    at: u64,
    bytes: &[u8],
) -> Result<(), FileError> {
    let Ok(len) = files.len(name) else {
        panic!(rt; "no length");
    };
    assert!(rt; at <= len);
    files.write_at(name, at, bytes)
}

fn make(
    rt: &(impl Abort + Alloc),
    files: &mut MemFiles,
    step: Step,
) -> Result<Result<(), FileError>, Fail> {
    Ok(match step {
        Step::Create(name) => files.create(name),
        Step::Write(name, at, value, count) => {
            let bytes = vec![in rt.alloc(); value; count]?;
            write(rt, files, name, at, &bytes)
        }
        Step::SetLen(name, len) => files.set_len(name, len),
        Step::Sync(name) => files.sync(name),
    })
}

/// The names of all files, each with the runs of its bytes.
fn text_of(
    rt: &(impl Abort + Alloc),
    files: &mut MemFiles,
    sink: &mut MemSink,
) -> Result<(), Fail> {
    let Ok(names) = files.names() else {
        panic!(rt; "no names");
    };
    let mut buffer = [0; 64];
    for i in 0..names.count() {
        let name = names.at(i);
        let Ok(len) = files.len(name) else {
            panic!(rt; "no length");
        };
        let mut bytes = vec![in rt.alloc(); 0; len as usize]?;
        assert!(rt; files.read_at(name, 0, &mut bytes).is_ok());
        assert!(rt; write_all(sink, name.as_bytes()).is_ok());
        assert!(rt; write_all(sink, b"=").is_ok());
        assert!(rt; write_runs(sink, &bytes, &mut buffer).is_ok());
        assert!(rt; write_all(sink, b" ").is_ok());
    }
    Ok(())
}

/// Steps, and after each number of them what a stop may leave: the least, the most, and the most with 0xee in each byte
/// that may be anything.
struct Run {
    steps: &'static [Step],
    left: &'static [[&'static str; 3]],
}

const RUNS: [Run; 5] = [
    // Two blocks are written behind a synced one.
    Run {
        steps: &[
            Step::Create("a"),
            Step::Write("a", 0, 0x61, 4096),
            Step::Sync("a"),
            Step::Write("a", 4096, 0x62, 8192),
        ],
        left: &[
            ["", "", ""],
            ["", "a= ", "a= "],
            ["", "a=61*4096 ", "a=ee*4096 "],
            ["a=61*4096 ", "a=61*4096 ", "a=61*4096 "],
            ["a=61*4096 ", "a=61*4096+62*8192 ", "a=61*4096+ee*8192 "],
        ],
    },
    // Synced bytes are cut off, and added again with two more.
    Run {
        steps: &[
            Step::Create("a"),
            Step::Write("a", 0, 0x61, 3),
            Step::Sync("a"),
            Step::SetLen("a", 1),
            Step::SetLen("a", 5),
        ],
        left: &[
            ["", "", ""],
            ["", "a= ", "a= "],
            ["", "a=61*3 ", "a=ee*3 "],
            ["a=61*3 ", "a=61*3 ", "a=61*3 "],
            ["a=61*3 ", "a=61*1 ", "a=61*1 "],
            ["a=61*3 ", "a=61*1+00*4 ", "a=61*1+ee*2+00*2 "],
        ],
    },
    // A block of two is written over.
    Run {
        steps: &[
            Step::Create("a"),
            Step::Write("a", 0, 0x61, 8192),
            Step::Sync("a"),
            Step::Write("a", 4096, 0x62, 4096),
            Step::Sync("a"),
        ],
        left: &[
            ["", "", ""],
            ["", "a= ", "a= "],
            ["", "a=61*8192 ", "a=ee*8192 "],
            ["a=61*8192 ", "a=61*8192 ", "a=61*8192 "],
            ["a=61*8192 ", "a=61*4096+62*4096 ", "a=61*4096+ee*4096 "],
            [
                "a=61*4096+62*4096 ",
                "a=61*4096+62*4096 ",
                "a=61*4096+62*4096 ",
            ],
        ],
    },
    // A file that is never synced grows by zeros, and one of them is written over.
    Run {
        steps: &[
            Step::Create("a"),
            Step::SetLen("a", 3),
            Step::Write("a", 1, 0x61, 1),
            Step::SetLen("a", 0),
            Step::SetLen("a", 2),
        ],
        left: &[
            ["", "", ""],
            ["", "a= ", "a= "],
            ["", "a=00*3 ", "a=00*3 "],
            ["", "a=00*1+61*1+00*1 ", "a=00*1+ee*1+00*1 "],
            ["", "a= ", "a= "],
            ["", "a=00*2 ", "a=00*1+ee*1 "],
        ],
    },
    // Two files, each synced by itself.
    Run {
        steps: &[
            Step::Create("b"),
            Step::Sync("b"),
            Step::Create("a"),
            Step::Write("b", 0, 0x61, 2),
            Step::Sync("a"),
            Step::Sync("b"),
        ],
        left: &[
            ["", "", ""],
            ["", "b= ", "b= "],
            ["b= ", "b= ", "b= "],
            ["b= ", "a= b= ", "a= b= "],
            ["b= ", "a= b=61*2 ", "a= b=ee*2 "],
            ["a= b= ", "a= b=61*2 ", "a= b=ee*2 "],
            ["a= b=61*2 ", "a= b=61*2 ", "a= b=61*2 "],
        ],
    },
];

const CHOICES: [Choice; 3] = [Choice::Least, Choice::Most, Choice::Filled(0xee)];

#[test]
fn leaves_images(rt: HostRuntime) -> Result<(), Fail> {
    for run in &RUNS {
        let mut files = MemFiles::new(rt.alloc());
        // How many calls there were after each step.
        let mut after: Vec<u64> = Vec::new(rt.alloc());
        after.push(0)?;
        for step in run.steps {
            assert_eq!(rt; make(&rt, &mut files, *step)?, Ok(()));
            after.push(files.calls())?;
        }
        assert_eq!(rt; after.len(), run.left.len());
        for (step, left) in run.left.iter().enumerate() {
            assert!(rt; step < after.len());
            let calls = after[step];
            assert!(rt; calls <= files.calls());
            for i in 0..3 {
                let mut image = files.image(calls, CHOICES[i])?;
                assert_eq!(rt; image.calls(), 0);
                let mut sink = MemSink::new(rt.alloc(), 256, Vec::new(rt.alloc()))?;
                text_of(&rt, &mut image, &mut sink)?;
                assert_eq!(rt;
                    sink.bytes(),
                    left[i].as_bytes(),
                    "after step {step}, choice {i}"
                );
                // What is left is at rest.
                for choice in CHOICES {
                    let mut again = image.image(0, choice)?;
                    let mut sink = MemSink::new(rt.alloc(), 256, Vec::new(rt.alloc()))?;
                    text_of(&rt, &mut again, &mut sink)?;
                    assert_eq!(rt; sink.bytes(), left[i].as_bytes(), "again after step {step}");
                }
            }
        }
    }
    Ok(())
}

/// A call on a file, or on the directory.
#[derive(Clone, Copy)]
enum Ask {
    Names,
    Len(&'static str),
    Part(&'static str, u64),
    Make(Step),
}

/// Four bytes of a file, as one number.
fn part_of(rt: &impl Abort, files: &mut MemFiles, name: &str, at: u64) -> Result<u64, FileError> {
    let mut part = [0; 4];
    let len = files.len(name)?;
    assert!(rt; 4 <= len);
    assert!(rt; at <= len - 4);
    files.read_at(name, at, &mut part)?;
    Ok(u64::from(u32::from_be_bytes(part)))
}

/// What a call answers: how many names or bytes there are, four bytes that were read as one number, or 0.
fn asked(
    rt: &(impl Abort + Alloc),
    files: &mut MemFiles,
    ask: Ask,
) -> Result<Result<u64, FileError>, Fail> {
    Ok(match ask {
        Ask::Names => files.names().map(|names| names.count() as u64),
        Ask::Len(name) => files.len(name),
        Ask::Part(name, at) => part_of(rt, files, name, at),
        Ask::Make(step) => make(rt, files, step)?.map(|()| 0),
    })
}

/// Each of these calls, one after another, answers so.
fn ask_all(
    rt: &(impl Abort + Alloc),
    files: &mut MemFiles,
    rows: &[(Ask, Result<u64, FileError>)],
) -> Result<(), Fail> {
    for (ask, want) in rows {
        assert_eq!(rt; asked(rt, files, *ask)?, *want);
    }
    Ok(())
}

#[test]
fn fails_by_the_list(rt: HostRuntime) -> Result<(), Fail> {
    let mut files = MemFiles::new(rt.alloc());
    files.fail(FileCall::Create, 2)?;
    files.fail(FileCall::Len, 1)?;
    files.fail(FileCall::Names, 1)?;
    ask_all(
        &rt,
        &mut files,
        &[
            (Ask::Make(Step::Create("b")), Ok(0)),
            (Ask::Make(Step::Create("a")), Err(FileError::Fault)),
            (Ask::Make(Step::Create("b")), Err(FileError::Exists)),
            (Ask::Make(Step::Create("a")), Ok(0)),
            (Ask::Len("c"), Err(FileError::Fault)),
            (Ask::Len("c"), Err(FileError::Missing)),
            (Ask::Len("a"), Ok(0)),
            (Ask::Make(Step::Sync("c")), Err(FileError::Missing)),
            (Ask::Names, Err(FileError::Fault)),
            (Ask::Names, Ok(2)),
        ],
    )?;
    assert_eq!(rt; files.faults(), 3);
    assert_eq!(rt; files.calls(), 10);
    Ok(())
}

/// A call of this kind on a file that is there, or that creates one that isn't.
fn call(files: &mut MemFiles, call: FileCall) -> Result<(), FileError> {
    match call {
        FileCall::Names => files.names().map(|_| ()),
        FileCall::Len => files.len("a").map(|_| ()),
        FileCall::ReadAt => files.read_at("a", 0, &mut []),
        FileCall::WriteAt => files.write_at("a", 0, b"xyz"),
        FileCall::SetLen => files.set_len("a", 2),
        FileCall::Create => files.create("b"),
        FileCall::Sync => files.sync("a"),
    }
}

const KINDS: [FileCall; 7] = [
    FileCall::Names,
    FileCall::Len,
    FileCall::ReadAt,
    FileCall::WriteAt,
    FileCall::SetLen,
    FileCall::Create,
    FileCall::Sync,
];

#[test]
fn does_nothing_where_it_fails(rt: HostRuntime) -> Result<(), Fail> {
    for kind in KINDS {
        let mut files = MemFiles::new(rt.alloc());
        assert_eq!(rt; files.create("a"), Ok(()));
        files.fail(kind, 1)?;
        let before = text_in(&rt, rt.alloc(), &files, Choice::Filled(0xee))?;
        assert_eq!(rt; call(&mut files, kind), Err(FileError::Fault));
        assert_eq!(rt; files.faults(), 1);
        assert_eq!(rt; files.calls(), 2);
        let after = text_in(&rt, rt.alloc(), &files, Choice::Filled(0xee))?;
        assert_eq!(rt; after.bytes(), before.bytes());
        assert_eq!(rt; call(&mut files, kind), Ok(()));
        assert_eq!(rt; files.faults(), 1);
    }
    Ok(())
}

/// What a stop may leave now by a choice.
fn text_in(
    rt: &(impl Abort + Alloc),
    alloc: Global,
    files: &MemFiles,
    choice: Choice,
) -> Result<MemSink, Fail> {
    let mut sink = MemSink::new(alloc, 256, Vec::new(alloc))?;
    let mut image = files.image(files.calls(), choice)?;
    text_of(rt, &mut image, &mut sink)?;
    Ok(sink)
}

#[test]
fn reads_what_was_written(rt: HostRuntime) -> Result<(), Fail> {
    let mut files = MemFiles::new(rt.alloc());
    ask_all(
        &rt,
        &mut files,
        &[
            (Ask::Make(Step::Create("a")), Ok(0)),
            (Ask::Len("a"), Ok(0)),
            (Ask::Make(Step::Write("a", 0, 0x61, 8)), Ok(0)),
            (Ask::Len("a"), Ok(8)),
            (Ask::Make(Step::Write("a", 6, 0x62, 4)), Ok(0)),
            (Ask::Len("a"), Ok(10)),
            (Ask::Part("a", 4), Ok(0x61_61_62_62)),
            (Ask::Make(Step::SetLen("a", 2)), Ok(0)),
            (Ask::Make(Step::SetLen("a", 4)), Ok(0)),
            (Ask::Part("a", 0), Ok(0x61_61_00_00)),
        ],
    )?;
    assert_eq!(rt; files.faults(), 0);
    Ok(())
}

#[test]
fn puts_names_in_order(rt: HostRuntime) -> Result<(), Fail> {
    let mut names = Names::new(rt.alloc());
    names.add("b")?;
    names.add("a")?;
    names.add("ba")?;
    let mut text: Vec<u8> = Vec::new(rt.alloc());
    for i in 0..names.count() {
        text.extend_from_slice(Text::new(rt.alloc(), names.at(i).as_bytes())?.as_bytes())?;
        text.push(b'.')?;
    }
    assert_eq!(rt; &text[..], &b"a.b.ba."[..]);
    Ok(())
}
