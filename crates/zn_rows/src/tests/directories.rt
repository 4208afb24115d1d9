// Runs on a directory in memory, one command after another.

use super::{Case, ENTROPY, ROOM, done, source_of, words_of};
use std::alloc::{AllocError, Global};
use std::process::Abort;
use std::test::Fail;
use zn_base::Source;
use zn_base::memory::MemSink;
use zn_cli::zonefs_main;
use zn_files::{FileCall, Files, MemFiles};
use zn_run::Status;

/// A device of six zones of four blocks, the first of them conventional, of which two may be open.
const SIX_ZONES: &str = "add D capacity_blocks=24 zone_blocks=4 conv_zones=1 max_open=2";

/// A device of three zones of four blocks, the first of them conventional.
const THREE_ZONES: &str = "add D capacity_blocks=12 zone_blocks=4 conv_zones=1";

/// A command, and how it ends.
fn ends(words: &'static str, script: &'static str, status: Status, written: &'static str) -> Case {
    Case {
        words,
        script,
        status,
        written,
    }
}

/// A command that has no script, and is done.
fn is_ok(words: &'static str) -> Case {
    done(words, "", "ok\n")
}

/// The calls that fail, by their numbers from 1 on.
#[derive(Clone, Copy)]
struct Fails {
    reads: &'static [u64],
    writes: &'static [u64],
    /// A sync of a file.
    sync: Option<u64>,
}

/// A command ended with this status, and wrote this.
pub(super) fn agrees(
    rt: &impl Abort,
    words: &str,
    ended: Status,
    bytes: &[u8],
    status: Status,
    written: &str,
) {
    assert_eq!(rt; bytes, written.as_bytes(), "{words}: {written}");
    assert_eq!(rt; ended, status, "{words}: {written}");
}

/// Carries out a command on a directory, which is given back, while some calls fail.
fn follow_failing<R: Abort + Copy>(
    rt: R,
    alloc: Global,
    files: MemFiles,
    case: Case,
    fails: Fails,
) -> Result<MemFiles, Fail> {
    let mut files = files;
    if let Some(nth) = fails.sync {
        assert!(&rt; 1 <= nth);
        files.fail(FileCall::Sync, nth)?;
    }
    let list = words_of(alloc, case.words)?;
    let mut source = source_of(alloc, case.script.as_bytes(), fails.reads)?;
    let mut sink = MemSink::new(alloc, ROOM, Vec::from_slice(alloc, fails.writes)?)?;
    let ended = zonefs_main(alloc, &list, ENTROPY, &mut source, files, &mut sink);
    agrees(
        &rt,
        case.words,
        ended.status,
        sink.bytes(),
        case.status,
        case.written,
    );
    // A source that isn't read counts no fault.
    let reads = matches!(case.status, Status::ReadFault);
    assert_eq!(&rt; source.faults() != 0, reads);
    Ok(ended.files)
}

/// Carries out commands on a directory, one after another.
fn follow<R: Abort + Copy>(
    rt: R,
    alloc: Global,
    files: MemFiles,
    cases: &[Case],
) -> Result<MemFiles, Fail> {
    let mut files = files;
    for case in cases {
        files = follow_failing(rt, alloc, files, *case, NO_FAILS)?;
    }
    Ok(files)
}

/// Carries out commands on a directory that is empty at first.
fn follow_all<R: Abort + Copy>(rt: R, alloc: Global, cases: &[Case]) -> Result<MemFiles, Fail> {
    follow(rt, alloc, MemFiles::new(alloc), cases)
}

/// Two of three files may be open for writing at once, and a file that is full counts no more.
fn open_limit() -> [Case; 3] {
    [
        is_ok(SIX_ZONES),
        is_ok("mkfs D"),
        done(
            "run D -o explicit-open",
            "open 0 seq/0 rw\nopen 1 seq/1 rw\nopen 2 seq/2 rw\nopen 2 seq/2 r\nclose 0\nopen 0 seq/3 rw\n\
             truncate 0 16384\nopen 3 seq/2 rw\nclose 0\nopen 3 seq/3 rw\nattr\n",
            "ok\nok\nok\nerror too-many-writers\nok\nok\nok\nok\nerror too-many-writers\nok\nok\n\
             ok max_wro_seq_files=2 nr_wro_seq_files=2 max_active_seq_files=0 nr_active_seq_files=1\n",
        ),
    ]
}

#[test]
fn devices_are_made_and_formatted_once(rt: HostRuntime) -> Result<(), Fail> {
    let files = follow_all(rt, rt.alloc(), &open_limit())?;
    let rest = [
        done(
            "run D",
            "mount\nsize 0\nstat seq/3\n",
            "ok\nerror bad-handle\nok file seq/3 zone 4 zones 1 size 16384 blocks 32 mode 640 uid 0 gid 0 writers 0\n",
        ),
        ends("mkfs D", "", Status::Directory, "error already-formatted\n"),
        is_ok("mkfs D -f"),
        ends(
            SIX_ZONES,
            "",
            Status::Directory,
            "error not-empty cnv-000000\n",
        ),
        done(
            "run -o errors=repair D",
            "stat seq/3\n",
            "ok\nok file seq/3 zone 4 zones 1 size 0 blocks 32 mode 640 uid 0 gid 0 writers 0\n",
        ),
    ];
    follow(rt, rt.alloc(), files, &rest)?;
    Ok(())
}

#[test]
fn active_zones_are_limited(rt: HostRuntime) -> Result<(), Fail> {
    follow_all(
        rt,
        rt.alloc(),
        &[
            is_ok("add D capacity_blocks=16 zone_blocks=4 conv_zones=1 max_active=1"),
            is_ok("mkfs D"),
            done(
                "run D",
                "mount\nopen 0 seq/0 rw\nopen 1 seq/1 rw\nwrite 0 0 61*4096\nwrite 1 0 62*4096\n\
                 write 0 4096 61*4096\nread 1 0 1\n",
                "ok\nok\nok\nok\nerror too-many-active\nerror fs-read-only\nok 0\n",
            ),
        ],
    )?;
    Ok(())
}

/// Seven conventional zones are one file, the power goes, and what was synced is there in the next run.
/// A device is made, formatted, used until its power is lost, and found again by the next run.
pub(super) fn day() -> [Case; 4] {
    [
        is_ok("add D capacity_mb=64 zone_size_mb=1 conv_zones=8"),
        is_ok(
            "mkfs D -L data -U 6ba7b810-9dad-11d1-80b4-00c04fd430c8 \
                 -o aggr_cnv,uid=1000,gid=100,perm=660",
        ),
        done(
            "run D",
            "mount errors=repair\nlist /\nlist cnv\nstat cnv/0\nstat seq\n\
                 open 0 seq/0 rw uid=1000 gid=100\nopen 1 seq/1 rw uid=2000 gid=2000\n\
                 open 1 cnv/0 rw uid=2000 gid=100\nwrite 1 1044480 41*8192\nread 1 1044479 3\n\
                 write 0 0 42*65536\nsync 0\nfault 8 write 2\nwrite 0 65536 43*16384\nsize 0\n\
                 write 0 73728 44*4096\npower-loss fill=00 8:17\npower-on\nmount errors=repair\n\
                 open 0 seq/0 r uid=1000 gid=100\nsize 0\nread 0 61440 16384\numount\nclose 0\numount\n",
            "ok\nok 2\ncnv\nseq\nok 1\n0\n\
                 ok file cnv/0 zone 1 zones 7 size 7340032 blocks 14336 mode 660 uid 1000 gid 100 writers 0\n\
                 ok dir seq size 56\nok\nerror denied\nok\nok\nok 3 00*1+41*2\nok\nok\nok\n\
                 error io-error\nok 73728\nok\nok\nok\nok\nok\nok 69632\n\
                 ok 8192 42*4096+00*4096\nerror busy\nok\nok\n",
        ),
        done(
            "run D -o errors=repair",
            "open 0 seq/0 rw uid=1000\nread 0 61440 16384\nopen 1 cnv/0 r uid=2000 gid=100\n\
                 read 1 1044479 8194\nwrite 0 69632 45*4096\n",
            "ok\nok\nok 8192 42*4096+00*4096\nok\nok 8194 00*1+41*8192+00*1\nok\n",
        ),
    ]
}

#[test]
fn a_day_of_a_device(rt: HostRuntime) -> Result<(), Fail> {
    follow_all(rt, rt.alloc(), &day())?;
    Ok(())
}

#[test]
fn harm_stays_in_the_directory(rt: HostRuntime) -> Result<(), Fail> {
    follow_all(
        rt,
        rt.alloc(),
        &[
            is_ok(THREE_ZONES),
            is_ok("mkfs D"),
            done(
                "run D -o errors=repair",
                "open 0 seq/0 rw\nwrite 0 0 61*4096\nsync 0\nwrite 0 4096 62*8192\nfault 1 read\n\
                 power-loss-in 2 write\nturn 2 ro\npower-loss fill=ee 1:2\nzones\n",
                "ok\nok\nok\nok\nok\nok\nok\nok\nok\nerror power-lost\n",
            ),
            done(
                "run D",
                "zones\nmount\nopen 0 seq/0 rw\nread 0 0 16384\nwrite 0 8192 63*4096\nturn 1 off\n",
                "ok 3\nzone 0 cnv good 4 4 -\nzone 1 seq good 2 4 -\nzone 2 seq read-only 0 4 -\n\
                 ok\nok\nok 8192 61*4096+ee*4096\nok\nok\n",
            ),
            done(
                "run D",
                "zones\n",
                "ok 3\nzone 0 cnv good 4 4 -\nzone 1 seq offline 0 4 -\nzone 2 seq read-only 0 4 -\n",
            ),
        ],
    )?;
    Ok(())
}

/// How a run is stopped, and what its file holds in the next one.
#[derive(Clone, Copy)]
struct Stop {
    case: Case,
    fails: Fails,
    /// The reply to a read of all of it.
    left: &'static str,
}

/// Two blocks are written one after another, with a sync behind each.
const TWO_BLOCKS: &str =
    "open 0 seq/0 rw\nwrite 0 0 61*4096\nsync 0\nwrite 0 4096 62*4096\nsync 0\n";

/// Two blocks are written, with a line between that has no form.
const BAD_LINE: &str = "open 0 seq/0 rw\nwrite 0 0 61*4096\nsize\nwrite 0 4096 62*4096\n";

const NO_FAILS: Fails = Fails {
    reads: &[],
    writes: &[],
    sync: None,
};

/// How a run may be stopped. Opening makes four syncs.
fn stops() -> [Stop; 9] {
    let run = "run D -o errors=repair";
    let all = "ok 8192 61*4096+62*4096";
    [
        Stop {
            case: done(run, TWO_BLOCKS, "ok\nok\nok\nok\nok\nok\n"),
            fails: NO_FAILS,
            left: all,
        },
        Stop {
            case: ends(
                "run D -o",
                TWO_BLOCKS,
                Status::Usage,
                "zonefs: bad command line\n",
            ),
            fails: Fails {
                reads: &[1],
                ..NO_FAILS
            },
            left: "ok 0",
        },
        Stop {
            case: ends(
                run,
                BAD_LINE,
                Status::Script,
                "ok\nok\nok\nscript-error 3 5\n",
            ),
            fails: NO_FAILS,
            left: "ok 4096 61*4096",
        },
        Stop {
            case: ends(run, TWO_BLOCKS, Status::HostFault, "host-fault 0\n"),
            fails: Fails {
                reads: &[1],
                sync: Some(4),
                ..NO_FAILS
            },
            left: "ok 0",
        },
        Stop {
            case: ends(
                run,
                TWO_BLOCKS,
                Status::HostFault,
                "ok\nok\nok\nhost-fault 3\n",
            ),
            fails: Fails {
                sync: Some(5),
                ..NO_FAILS
            },
            left: "ok 4096 61*4096",
        },
        // The first read takes the whole script, and the second finds its end.
        Stop {
            case: ends(
                run,
                TWO_BLOCKS,
                Status::ReadFault,
                "ok\nok\nok\nok\nok\nok\nread-fault\n",
            ),
            fails: Fails {
                reads: &[2],
                ..NO_FAILS
            },
            left: all,
        },
        Stop {
            case: ends(run, TWO_BLOCKS, Status::ReadFault, "ok\nread-fault\n"),
            fails: Fails {
                reads: &[1],
                ..NO_FAILS
            },
            left: "ok 0",
        },
        // A line whose reply can't be written is carried out, and none behind it.
        Stop {
            case: ends(run, TWO_BLOCKS, Status::WriteFault, "ok\nok\n"),
            fails: Fails {
                writes: &[3],
                ..NO_FAILS
            },
            left: "ok 4096 61*4096",
        },
        Stop {
            case: ends(run, TWO_BLOCKS, Status::WriteFault, ""),
            fails: Fails {
                writes: &[1],
                ..NO_FAILS
            },
            left: "ok 0",
        },
    ]
}

#[test]
fn scripts_are_stopped(rt: HostRuntime) -> Result<(), Fail> {
    let alloc = rt.alloc();
    for stop in stops() {
        let files = follow_all(rt, alloc, &[is_ok(THREE_ZONES), is_ok("mkfs D")])?;
        let files = follow_failing(rt, alloc, files, stop.case, stop.fails)?;
        let list = words_of(alloc, "run D -o errors=repair")?;
        let mut source = source_of(alloc, b"open 0 seq/0 r\nread 0 0 16384\n", &[])?;
        let mut sink = MemSink::new(alloc, ROOM, Vec::new(alloc))?;
        let ended = zonefs_main(alloc, &list, ENTROPY, &mut source, files, &mut sink);
        let written = format!(in alloc; "ok\nok\n{}\n", stop.left)?;
        assert_eq!(rt; sink.bytes(), written.as_bytes(), "{}", stop.case.written);
        assert_eq!(rt; ended.status, Status::Done);
    }
    Ok(())
}

/// Where no volume is mounted and no call fails, the status is 0, though each line is refused.
#[test]
fn refusals_of_lines_are_no_status(rt: HostRuntime) -> Result<(), Fail> {
    follow_all(
        rt,
        rt.alloc(),
        &[
            is_ok(THREE_ZONES),
            done(
                "run D",
                "size 0\nmount\n",
                "error not-mounted\nerror not-formatted bad-magic\n",
            ),
            done(
                "run D -o errors=panic",
                "attr\n",
                "error bad-value 7\nerror not-mounted\n",
            ),
            done(
                "run D",
                "mkfs label=a\nmount\numount\nmkfs\n",
                "ok\nok\nok\nerror already-formatted\n",
            ),
        ],
    )?;
    Ok(())
}

/// A file of a directory, by its name and its length in bytes.
type Zeros = (&'static str, u64);

/// The text of a device of five zones of four blocks, the first three of them conventional.
const FIVE_ZONES: &str =
    "zloop 1\nzones 5\nconv 3\nzone_blocks 4\nzone_capacity 4\nmax_open 0\nmax_active 0\n";

/// The same, of which one zone may be active.
const ONE_ACTIVE: &str =
    "zloop 1\nzones 5\nconv 3\nzone_blocks 4\nzone_capacity 4\nmax_open 0\nmax_active 1\n";

/// The files of its conventional zones.
const CONVENTIONAL: [Zeros; 3] = [
    ("cnv-000000", 16384),
    ("cnv-000001", 16384),
    ("cnv-000002", 16384),
];

/// The text of a device, what lies there besides its conventional zones, and the line of a command on it.
const DAMAGED: [(Option<&str>, &[Zeros], &str); 9] = [
    (
        None,
        &[("seq-000003", 0), ("seq-000004", 0)],
        "error not-a-device\n",
    ),
    (
        Some("zloop 2\n"),
        &[("seq-000003", 0), ("seq-000004", 0)],
        "error bad-geometry 1\n",
    ),
    (
        Some(""),
        &[("seq-000003", 0), ("seq-000004", 0)],
        "error bad-geometry 1\n",
    ),
    (
        Some(FIVE_ZONES),
        &[("seq-000003", 4097), ("seq-000004", 0)],
        "error bad-zone-file seq-000003 4097\n",
    ),
    (
        Some(FIVE_ZONES),
        &[("seq-000003", 20480), ("seq-000004", 0)],
        "error bad-zone-file seq-000003 20480\n",
    ),
    (
        Some(FIVE_ZONES),
        &[("seq-000003", 0)],
        "error missing-file seq-000004\n",
    ),
    (
        Some(FIVE_ZONES),
        &[("seq-000003", 0), ("seq-000004", 0), ("notes", 0)],
        "error extra-name notes\n",
    ),
    (
        Some(FIVE_ZONES),
        &[("seq-000003", 0), ("seq-000004", 0), ("seq-000004.ro", 1)],
        "error extra-name seq-000004.ro\n",
    ),
    (
        Some(ONE_ACTIVE),
        &[("seq-000003", 4096), ("seq-000004", 4096)],
        "error too-many-active 2\n",
    ),
];

/// Makes a file of zeros.
fn add_zeros(rt: &impl Abort, files: &mut MemFiles, zeros: Zeros) {
    let (name, len) = zeros;
    assert_eq!(rt; files.create(name), Ok(()));
    assert_eq!(rt; files.set_len(name, len), Ok(()));
}

#[test]
fn directories_that_are_no_device(rt: HostRuntime) -> Result<(), Fail> {
    for (text, others, line) in DAMAGED {
        let mut files = MemFiles::new(rt.alloc());
        for zeros in CONVENTIONAL.iter().chain(others.iter()) {
            add_zeros(&rt, &mut files, *zeros);
        }
        if let Some(text) = text {
            assert_eq!(rt; files.create("device"), Ok(()));
            assert_eq!(rt; files.write_at("device", 0, text.as_bytes()), Ok(()));
        }
        // Nothing is read: a read would fail, and be counted.
        let fails = Fails {
            reads: &[1],
            ..NO_FAILS
        };
        let run = ends(
            "run D -o explicit-open",
            "size 0\n",
            Status::Directory,
            line,
        );
        let files = follow_failing(rt, rt.alloc(), files, run, fails)?;
        let format = ends("mkfs D -f", "", Status::Directory, line);
        follow_failing(rt, rt.alloc(), files, format, fails)?;
    }
    // Neither is a directory without files.
    let run = ends("run D", "", Status::Directory, "error not-a-device\n");
    follow_all(rt, rt.alloc(), &[run, is_ok(THREE_ZONES)])?;
    Ok(())
}

/// Words behind `add D` that ask for no device.
const KEYS: [&str; 40] = [
    // A size is missing.
    "",
    "capacity_mb=8",
    "zone_size_mb=2",
    "conv_zones=1 max_open=1 max_active=1 zone_capacity_mb=1",
    // A key stands twice, or a size in both units.
    "capacity_mb=8 zone_size_mb=2 capacity_mb=8",
    "capacity_blocks=8 zone_blocks=2 capacity_blocks=8",
    "capacity_mb=8 zone_size_mb=2 capacity_blocks=2048",
    "capacity_mb=8 zone_size_mb=2 zone_size_mb=2",
    "capacity_blocks=8 zone_blocks=2 zone_blocks=2",
    "capacity_mb=8 zone_size_mb=2 zone_blocks=512",
    "capacity_mb=8 zone_size_mb=2 zone_capacity_mb=1 zone_capacity_mb=1",
    "capacity_mb=8 zone_size_mb=2 zone_capacity_mb=1 zone_capacity_blocks=256",
    "capacity_mb=8 zone_size_mb=2 zone_capacity_blocks=4 zone_capacity_blocks=4",
    "capacity_mb=8 zone_size_mb=2 conv_zones=1 conv_zones=1",
    "capacity_mb=8 zone_size_mb=2 max_open=1 max_open=1",
    "capacity_mb=8 zone_size_mb=2 max_active=1 max_active=1",
    // No key, and no number.
    "capacity_mb=8 zone_size_mb=2 zones=4",
    "capacity_mb=8 zone_size_mb=2 max_open",
    "capacity_mb=8 zone_size_mb=2 max_open=",
    "capacity_mb=8 zone_size_mb=2 max_open=01",
    "capacity_mb=8 zone_size_mb=2 max_open=-1",
    "capacity_mb=8 zone_size_mb=2 -f",
    // More than 32 bits hold.
    "capacity_mb=4294967296 zone_size_mb=2",
    "capacity_blocks=4294967296 zone_blocks=2",
    "capacity_mb=8 zone_size_mb=4294967296",
    "capacity_blocks=8 zone_blocks=4294967296",
    "capacity_mb=8 zone_size_mb=2 conv_zones=4294967296",
    "capacity_mb=8 zone_size_mb=2 max_active=4294967296",
    // A limit is broken.
    "capacity_blocks=0 zone_blocks=2",
    "capacity_blocks=8193 zone_blocks=2",
    "capacity_blocks=4 zone_blocks=1",
    "capacity_blocks=65537 zone_blocks=65537",
    "capacity_mb=8 zone_size_mb=257",
    "capacity_mb=8 zone_size_mb=2 zone_capacity_blocks=1",
    "capacity_mb=8 zone_size_mb=2 zone_capacity_blocks=513",
    "capacity_mb=8 zone_size_mb=2 zone_capacity_mb=3",
    "capacity_mb=8 zone_size_mb=2 conv_zones=5",
    "capacity_mb=8 zone_size_mb=2 max_open=4097",
    "capacity_mb=8 zone_size_mb=2 max_active=4097",
    "capacity_mb=8 zone_size_mb=2 max_open=4 max_active=3",
];

/// Other words that no command has.
const WORDS: [&str; 16] = [
    "add",
    "add capacity_mb=8 zone_size_mb=2",
    "add -f D capacity_mb=8 zone_size_mb=2",
    "mkfs",
    "mkfs D D",
    "mkfs D -f -f",
    "mkfs D -L",
    "mkfs D -L -f",
    "mkfs D -U 6ba7b810",
    "mkfs D -o perm=888",
    "mkfs D -o aggr_cnv,aggr_cnv",
    "run",
    "run D D",
    "run D -f",
    "run D -o",
    "run D -o errors=repair -o explicit-open",
];

/// These words are a bad command line: no call is made on the directory, and nothing is read.
fn is_refused<R: Abort + Copy>(rt: R, alloc: Global, words: &str) -> Result<(), Fail> {
    let list = words_of(alloc, words)?;
    let mut source = source_of(alloc, b"size 0\n", &[1])?;
    let mut sink = MemSink::new(alloc, ROOM, Vec::new(alloc))?;
    let files = MemFiles::new(alloc);
    let ended = zonefs_main(alloc, &list, ENTROPY, &mut source, files, &mut sink);
    assert_eq!(&rt;
        sink.bytes(),
        "zonefs: bad command line\n".as_bytes(),
        "{words}"
    );
    assert_eq!(&rt; ended.status, Status::Usage, "{words}");
    assert_eq!(&rt; ended.files.calls(), 0, "{words}");
    assert_eq!(&rt; source.faults(), 0, "{words}");
    Ok(())
}

#[test]
fn words_of_no_command(rt: HostRuntime) -> Result<(), Fail> {
    for keys in KEYS {
        let words = format!(in rt.alloc(); "add D {keys}")?;
        is_refused(rt, rt.alloc(), &words)?;
    }
    for words in WORDS {
        is_refused(rt, rt.alloc(), words)?;
    }
    Ok(())
}

#[test]
fn limits_of_a_device_are_taken(rt: HostRuntime) -> Result<(), Fail> {
    for words in [
        "add D capacity_blocks=1 zone_blocks=2",
        "add D zone_capacity_blocks=2 conv_zones=3 capacity_blocks=13 zone_blocks=5",
        "add D capacity_blocks=4 zone_blocks=2 conv_zones=2 max_open=4096 max_active=4096",
        "add D capacity_blocks=4 zone_blocks=2 max_open=4096 max_active=0",
        "add D capacity_mb=512 zone_size_mb=256 zone_capacity_mb=256",
        "add D capacity_blocks=65537 zone_blocks=65536 zone_capacity_blocks=65536",
    ] {
        let run = done("run D", "", "");
        follow_all(rt, rt.alloc(), &[is_ok(words), run])?;
    }
    Ok(())
}

/// Whether these bytes are the replies of all lines before one, the host's failure in that line, and nothing more. The
/// line is 0 where none was replied to, and else has the number of replies before it, since line 0 has one.
fn is_cut_short(alloc: Global, bytes: &[u8], due: &str) -> Result<bool, AllocError> {
    let lines = bytes.iter().filter(|byte| **byte == b'\n').count();
    if lines == 0 {
        return Ok(false);
    }
    let mut front = String::new(alloc);
    for line in due.split_inclusive('\n').take(lines - 1) {
        front.push_str(line)?;
    }
    let told = format!(in alloc; "{front}host-fault {}\n", lines - 1)?;
    Ok(told.as_bytes() == bytes)
}

/// Carries out a device's commands on a directory of which one call fails. Whether it came, as it must: the command ends
/// with status 5 behind the replies of the lines before. What is left opens, unless the device was being made.
fn strikes<R: Abort + Copy>(rt: R, alloc: Global, call: FileCall, nth: u64) -> Result<bool, Fail> {
    let mut files = MemFiles::new(alloc);
    assert!(&rt; 1 <= nth);
    files.fail(call, nth)?;
    for (i, case) in open_limit().iter().enumerate() {
        let list = words_of(alloc, case.words)?;
        let mut source = source_of(alloc, case.script.as_bytes(), &[])?;
        let mut sink = MemSink::new(alloc, ROOM, Vec::new(alloc))?;
        let ended = zonefs_main(alloc, &list, ENTROPY, &mut source, files, &mut sink);
        if ended.status == Status::HostFault {
            assert!(&rt;
                is_cut_short(alloc, sink.bytes(), case.written)?,
                "{call:?} {nth}"
            );
            assert_eq!(&rt; ended.files.faults(), 1);
            let list = words_of(alloc, "run D")?;
            let mut source = source_of(alloc, b"", &[])?;
            let again = zonefs_main(alloc, &list, ENTROPY, &mut source, ended.files, &mut sink);
            let opens = again.status == Status::Done;
            assert!(&rt;
                opens || (i == 0 && again.status == Status::Directory),
                "{call:?} {nth}"
            );
            return Ok(true);
        }
        assert_eq!(&rt; sink.bytes(), case.written.as_bytes(), "{call:?} {nth}");
        assert_eq!(&rt; ended.status, Status::Done);
        files = ended.files;
    }
    Ok(false)
}

#[test]
fn each_call_on_a_file_fails(rt: HostRuntime) -> Result<(), Fail> {
    // How many calls of each kind there are: as the device is made, and as it is formatted and as it is used, with those
    // that open it.
    let calls = [
        (FileCall::Names, 1 + 1 + 1),
        (FileCall::Len, 7 + 7),
        (FileCall::ReadAt, 2 + 2),
        (FileCall::WriteAt, 1 + 3),
        (FileCall::SetLen, 1 + 5 + 1),
        (FileCall::Create, 7),
        (FileCall::Sync, 7 + (7 + 8) + (7 + 2)),
    ];
    for (call, count) in calls {
        let mut struck = 0;
        for nth in 1..100 {
            if !strikes(rt, rt.alloc(), call, nth)? {
                break;
            }
            struck = nth;
        }
        assert_eq!(rt; struck, count, "of {call:?}");
    }
    Ok(())
}
