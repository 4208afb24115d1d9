mod directories;
mod faults;
mod host;
mod policies;
mod power;
mod recovery;
mod requests;
mod volumes;

use std::alloc::{AllocError, Global};
use std::process::Abort;
use std::test::Fail;
use zn_base::Source;
use zn_base::memory::{MemSink, MemSource};
use zn_cli::zonefs_main;
use zn_files::MemFiles;
use zn_run::Status;

/// How many bytes a sink has room for.
const ROOM: usize = 8192;

/// The bytes from which identifiers are made.
const ENTROPY: [u8; 16] = [0xA5; 16];

/// A command line, a script, and how the run ends.
#[derive(Clone, Copy)]
struct Case {
    words: &'static str,
    script: &'static str,
    status: Status,
    written: &'static str,
}

/// A script that is carried out to its end.
fn done(words: &'static str, script: &'static str, written: &'static str) -> Case {
    Case {
        words,
        script,
        status: Status::Done,
        written,
    }
}

fn words_of(alloc: Global, line: &str) -> Result<Vec<String>, AllocError> {
    let mut words = Vec::new(alloc);
    for word in line.split_ascii_whitespace() {
        words.push(String::from_str(alloc, word)?)?;
    }
    Ok(words)
}

/// A source of these bytes. The reads with these numbers fail.
fn source_of(alloc: Global, script: &[u8], fails: &[u64]) -> Result<MemSource, AllocError> {
    Ok(MemSource::new(
        Vec::from_slice(alloc, script)?,
        Vec::from_slice(alloc, fails)?,
    ))
}

fn ends_so<R: Abort + Copy>(
    rt: R,
    alloc: Global,
    words: &str,
    source: &mut MemSource,
    status: Status,
    written: &str,
) -> Result<(), Fail> {
    let list = words_of(alloc, words)?;
    let mut sink = MemSink::new(alloc, ROOM, Vec::new(alloc))?;
    let files = MemFiles::new(alloc);
    let got = zonefs_main(alloc, &list, ENTROPY, source, files, &mut sink).status;
    assert_eq!(&rt; sink.bytes(), written.as_bytes(), "{words}: {written}");
    assert_eq!(&rt; got, status, "{words}: {written}");
    Ok(())
}

fn runs<R: Abort + Copy>(rt: R, alloc: Global, case: Case) -> Result<(), Fail> {
    let mut source = source_of(alloc, case.script.as_bytes(), &[])?;
    ends_so(
        rt,
        alloc,
        case.words,
        &mut source,
        case.status,
        case.written,
    )
}

/// Carries out a script to its end.
fn carried_out<R: Abort + Copy>(
    rt: R,
    alloc: Global,
    words: &str,
    script: &str,
    written: &str,
) -> Result<(), Fail> {
    let mut source = source_of(alloc, script.as_bytes(), &[])?;
    ends_so(rt, alloc, words, &mut source, Status::Done, written)
}

/// A write, a read of what it wrote, and the size after it.
fn first_row() -> Case {
    done(
        "scratch 4 1 2",
        "write 0 0 61*4096\nread 0 0 4096\nsize 0\n",
        "ok\nok 4096 61*4096\nok 4096\n",
    )
}

/// The sums of a long script, as a program in C counts them.
fn twenty_thousand_steps() -> Case {
    done(
        "churn 7 20000",
        "",
        "churn seed=7 steps=20000 lines=24873 ok=24873 errors=0 read=321003520 blocks=318\n",
    )
}

#[test]
fn sequential_files_grow(rt: HostRuntime) -> Result<(), Fail> {
    for case in [
        first_row(),
        done("scratch 4 1 2", "", ""),
        done("scratch 4 1 2", "size 0", "ok 0\n"),
        done(
            "scratch 4 1 2",
            "write 0 4096 61*4096\nsize 0\n",
            "error bad-offset\nok 0\n",
        ),
        done(
            "scratch 4 1 2",
            "write 0 0 61*100\nwrite 0 0 61*0\nsize 0\n",
            "error unaligned\nok\nok 0\n",
        ),
        done(
            "scratch 4 1 2",
            "write 0 0 61*8192\nwrite 0 8192 61*4096\nread 0 8192 4096\nread 0 8193 1\n",
            "ok\nerror too-big\nok 0\nerror too-big\n",
        ),
        done(
            "scratch 4 1 2",
            "write 0 0 61*4095+62*1\nread 0 4094 2\n",
            "ok\nok 2 61*1+62*1\n",
        ),
        done(
            "scratch 4 1 2",
            "write 0 0 61*4096\nwrite 0 0 62*4096\nwrite 0 4096 62*4096\nread 0 4000 200\n",
            "ok\nerror bad-offset\nok\nok 200 61*96+62*104\n",
        ),
    ] {
        runs(rt, rt.alloc(), case)?;
    }
    Ok(())
}

#[test]
fn files_are_truncated(rt: HostRuntime) -> Result<(), Fail> {
    for case in [
        done(
            "scratch 4 2 4",
            "write 0 0 61*4096\ntruncate 0 8192\ntruncate 0 16384\nread 0 0 16384\ntruncate 0 0\nsize 0\nopen 1 cnv/0 rw\ntruncate 1 0\n",
            "ok\nerror not-allowed\nok\nok 16384 61*4096+00*12288\nok\nok 0\nok\nerror not-allowed\n",
        ),
        done(
            "scratch 4 2 4",
            "sync 0\nclose 0\nsync 0\nopen 0 seq/0 r\nsync 0\ntruncate 0 0\ntruncate 1 0\n",
            "ok\nok\nerror bad-handle\nok\nok\nerror bad-mode\nerror bad-handle\n",
        ),
    ] {
        runs(rt, rt.alloc(), case)?;
    }
    Ok(())
}

#[test]
fn zones_are_opened_explicitly(rt: HostRuntime) -> Result<(), Fail> {
    for case in [
        done(
            "scratch 4 2 4",
            "close 0\numount\nmount explicit-open\nattr\nopen 0 seq/0 rw\nattr\ntruncate 0 16384\nattr\ntruncate 0 0\nattr\nclose 0\nattr\n",
            "ok\nok\nok\nok max_wro_seq_files=0 nr_wro_seq_files=0 max_active_seq_files=0 nr_active_seq_files=0\nok\nok max_wro_seq_files=0 nr_wro_seq_files=1 max_active_seq_files=0 nr_active_seq_files=1\nok\nok max_wro_seq_files=0 nr_wro_seq_files=1 max_active_seq_files=0 nr_active_seq_files=0\nok\nok max_wro_seq_files=0 nr_wro_seq_files=1 max_active_seq_files=0 nr_active_seq_files=0\nok\nok max_wro_seq_files=0 nr_wro_seq_files=0 max_active_seq_files=0 nr_active_seq_files=0\n",
        ),
        done(
            "scratch 1 0 2",
            "attr\numount\nattr\n",
            "ok max_wro_seq_files=0 nr_wro_seq_files=0 max_active_seq_files=0 nr_active_seq_files=0\nok\nerror not-mounted\n",
        ),
    ] {
        runs(rt, rt.alloc(), case)?;
    }
    Ok(())
}

#[test]
fn devices_fail(rt: HostRuntime) -> Result<(), Fail> {
    for case in [
        done(
            "scratch 4 2 2",
            "fault 2 write 1\nwrite 0 0 61*8192\nsize 0\nread 0 4000 200\nwrite 0 4096 62*4096\nfault 4 read\nturn 1 off\nstat cnv/0\n",
            "ok\nerror io-error\nok 4096\nok 96 61*96\nerror fs-read-only\nerror bad-fault\nok\nok file cnv/0 zone 1 zones 1 size 8192 blocks 16 mode 640 uid 0 gid 0 writers 0\n",
        ),
        done(
            "scratch 4 2 2",
            "turn 2 ro\nwrite 0 0 61*4096\nsize 0\nturn 2 ro\nturn 2 off\nread 0 0 1\nsync 0\nclose 0\numount\nmount\nopen 0 seq/0 r\n",
            "ok\nerror io-error\nok 0\nerror bad-fault\nok\nok 0\nok\nok\nok\nok\nerror file-offline\n",
        ),
    ] {
        runs(rt, rt.alloc(), case)?;
    }
    Ok(())
}

#[test]
fn handles_and_names(rt: HostRuntime) -> Result<(), Fail> {
    for case in [
        done(
            "scratch 4 1 2",
            "open 0 seq/1 r\nopen 1 seq/1 r\nwrite 1 0 61*4096\nclose 2\nstat seq/00\n",
            "error handle-in-use\nok\nerror bad-mode\nerror bad-handle\nerror no-such-file\n",
        ),
        done(
            "scratch 4 1 2",
            "chmod seq/0 777\ncreate a\nremove a\nrename a b\nchown a 1 2\n",
            "error not-allowed\nerror not-allowed\nerror not-allowed\nerror not-allowed\nerror not-allowed\n",
        ),
        done(
            "scratch 4 1 2",
            "stat seq/0\nclose 0\nsize 0\n",
            "ok file seq/0 zone 1 zones 1 size 0 blocks 16 mode 640 uid 0 gid 0 writers 1\n\
             ok\nerror bad-handle\n",
        ),
        // A number that is closed opens another file.
        done(
            "scratch 4 1 2",
            "open 1 seq/1 r\nclose 1\nopen 1 seq/2 w\nwrite 1 0 61*4096\nsize 1\nstat seq/1\nstat seq/2\n",
            "ok\nok\nok\nok\nok 4096\n\
             ok file seq/1 zone 2 zones 1 size 0 blocks 16 mode 640 uid 0 gid 0 writers 0\n\
             ok file seq/2 zone 3 zones 1 size 4096 blocks 16 mode 640 uid 0 gid 0 writers 1\n",
        ),
        done(
            "scratch 2 1 2",
            "list /\nlist cnv\nstat /\n",
            "ok 1\nseq\nerror no-such-file\nok dir / size 1\n",
        ),
        done(
            "scratch 2 2 2",
            "size 0\nlist /\n",
            "error bad-handle\nok 1\ncnv\n",
        ),
        done("scratch 1 0 2", "list /\n", "ok 0\n"),
    ] {
        runs(rt, rt.alloc(), case)?;
    }
    Ok(())
}

#[test]
fn conventional_files_keep_their_size(rt: HostRuntime) -> Result<(), Fail> {
    for case in [
        // Two handles on one file: what one writes the other reads.
        done(
            "scratch 6 4 2",
            "open 1 cnv/0 rw\nopen 2 cnv/0 rw\nread 1 0 8192\n\
             write 1 4096 61*4096\nread 2 4095 3\nwrite 2 0 62*4096\nread 1 4000 200\n\
             write 1 0 63*8192\nread 2 0 8192\nwrite 2 4096 64*4096\nread 1 1 8191\nsize 1\nsize 2\n",
            "ok\nok\nok 8192 00*8192\n\
             ok\nok 3 00*1+61*2\nok\nok 200 62*96+61*104\n\
             ok\nok 8192 63*8192\nok\nok 8191 63*4095+64*4096\nok 8192\nok 8192\n",
        ),
        // Nothing is written past the capacity.
        done(
            "scratch 6 4 2",
            "open 1 cnv/2 rw\nwrite 1 4096 65*8192\nwrite 1 8192 65*4096\nwrite 1 8192 65*0\n\
             write 1 100 65*4096\nread 1 8192 1\nread 1 8193 1\nread 1 8000 4096\nsize 1\n",
            "ok\nerror too-big\nerror too-big\nok\n\
             error unaligned\nok 0\nerror too-big\nok 192 00*192\nok 8192\n",
        ),
        // Three files, each with bytes of its own.
        done(
            "scratch 6 4 2",
            "open 3 cnv/1 w\nopen 4 cnv/2 rw\nwrite 3 4096 66*4096\nread 3 0 1\nwrite 4 0 67*4096\n\
             read 4 0 8192\nopen 5 cnv/1 r\nread 5 0 8192\nwrite 5 0 61*4096\nsize 3\nsize 4\n\
             open 6 cnv/0 r\nread 6 0 8192\nopen 7 cnv/3 r\nstat cnv/1\n",
            "ok\nok\nok\nerror bad-mode\nok\n\
             ok 8192 67*4096+00*4096\nok\nok 8192 00*4096+66*4096\nerror bad-mode\nok 8192\nok 8192\n\
             ok\nok 8192 00*8192\nerror no-such-file\n\
             ok file cnv/1 zone 2 zones 1 size 8192 blocks 16 mode 640 uid 0 gid 0 writers 1\n",
        ),
    ] {
        runs(rt, rt.alloc(), case)?;
    }
    Ok(())
}

#[test]
fn volumes_are_mounted_anew(rt: HostRuntime) -> Result<(), Fail> {
    for case in [
        done(
            "scratch 4 1 2",
            "open 0 seq/1 r\nopen 1 seq/1 r\nwrite 1 0 61*4096\nclose 2\nstat seq/00\nchmod seq/0 777\n\
             umount\nmount\n",
            "error handle-in-use\nok\nerror bad-mode\nerror bad-handle\nerror no-such-file\nerror not-allowed\n\
             error busy\nerror already-mounted\n",
        ),
        done(
            "scratch 4 1 2",
            "close 0\numount\nmount errors=panic\nmount explicit-open,foo\nmount explicit-open,explicit-open\n\
             size 0\n",
            "ok\nok\nerror bad-value 7\nerror unknown-option 14\nerror repeated-option 14\n\
             error not-mounted\n",
        ),
        // What was written is there after the mount, and no number has a handle.
        done(
            "scratch 4 2 2",
            "write 0 0 61*4096\nopen 1 cnv/0 w\nwrite 1 4096 62*4096\nclose 1\nclose 0\numount\numount\n\
             list /\nstat seq/0\nmkfs\nmount errors=zone-ro,explicit-open\nsize 0\nopen 5 seq/0 rw\n\
             size 5\nread 5 4095 9\nwrite 5 4096 63*4096\nopen 6 cnv/0 r\nread 6 4095 2\n",
            "ok\nok\nok\nok\nok\nok\nerror not-mounted\n\
             error not-mounted\nerror not-mounted\nerror already-formatted\nok\nerror bad-handle\nok\n\
             ok 4096\nok 1 61*1\nok\nok\nok 2 00*1+62*1\n",
        ),
        // A format empties sequential files, and no others.
        done(
            "scratch 4 2 2",
            "write 0 0 61*8192\nopen 1 cnv/0 w\nwrite 1 0 62*4096\nmkfs force\nclose 0\nclose 1\numount\n\
             mkfs force\nmount\nopen 0 seq/0 rw\nsize 0\nopen 1 cnv/0 r\nread 1 4095 2\n",
            "ok\nok\nok\nerror already-mounted\nok\nok\nok\n\
             ok\nok\nok\nok 0\nok\nok 2 62*1+00*1\n",
        ),
        // The super block's zone is sequential, and full.
        done(
            "scratch 2 0 3",
            "stat seq/0\nclose 0\numount\nmkfs\nmkfs force\nmount\nstat seq/0\n",
            "ok file seq/0 zone 1 zones 1 size 0 blocks 24 mode 640 uid 0 gid 0 writers 1\n\
             ok\nok\nerror already-formatted\nok\nok\n\
             ok file seq/0 zone 1 zones 1 size 0 blocks 24 mode 640 uid 0 gid 0 writers 0\n",
        ),
    ] {
        runs(rt, rt.alloc(), case)?;
    }
    Ok(())
}

#[test]
fn zones_are_joined_and_owned(rt: HostRuntime) -> Result<(), Fail> {
    for case in [
        done(
            "scratch 6 4 2",
            "close 0\numount\nmkfs force features=aggr_cnv,uid=7,gid=8,perm=640\nmount\nlist cnv\n\
             stat cnv/0\nopen 0 cnv/0 rw uid=9 gid=8\nopen 0 cnv/0 r uid=9 gid=8\nopen 1 cnv/0 rw uid=7\n\
             write 1 4096 61*8192\nread 0 8191 2\nread 0 12287 2\n",
            "ok\nok\nok\nok\nok 1\n0\n\
             ok file cnv/0 zone 1 zones 3 size 24576 blocks 48 mode 640 uid 7 gid 8 writers 0\n\
             error denied\nok\nok\nok\nok 2 61*2\nok 2 61*1+00*1\n",
        ),
        // Each digit of the permissions speaks of others.
        done(
            "scratch 4 1 2",
            "close 0\numount\nmkfs force features=uid=7,gid=8,perm=421\nmount\nstat seq/1\n\
             open 0 seq/0 r uid=7 gid=8\nopen 1 seq/0 w uid=7 gid=8\nopen 1 seq/0 w uid=9 gid=8\n\
             open 2 seq/0 r uid=9 gid=8\nopen 2 seq/0 r uid=9\nopen 2 seq/0 rw gid=8\n",
            "ok\nok\nok\nok\n\
             ok file seq/1 zone 2 zones 1 size 0 blocks 16 mode 421 uid 7 gid 8 writers 0\n\
             ok\nerror denied\nok\nerror denied\nerror denied\nok\n",
        ),
        // One file again, without aggregation.
        done(
            "scratch 5 4 2",
            "close 0\numount\nmkfs force features=aggr_cnv\nmount\nstat cnv\numount\nmkfs force\nmount\nstat cnv\n",
            "ok\nok\nok\nok\nok dir cnv size 1\nok\nok\nok\nok dir cnv size 3\n",
        ),
    ] {
        runs(rt, rt.alloc(), case)?;
    }
    Ok(())
}

/// What is asked of a format of a device that is formatted already, and the reply.
#[test]
fn formats_are_asked_for(rt: HostRuntime) -> Result<(), Fail> {
    for (words, reply) in [
        ("force", "ok"),
        ("label=data", "error already-formatted"),
        ("label=data force", "ok"),
        (
            "force label=0123456789012345678901234567890123456789012345678901234567890123",
            "ok",
        ),
        (
            "force label=01234567890123456789012345678901234567890123456789012345678901234",
            "error bad-label",
        ),
        ("force uuid=6ba7b810-9dad-11d1-80b4-00c04fd430c8", "ok"),
        ("uuid=6ba7b8109dad11d180b400c04fd430c8 force", "ok"),
        ("force uuid={6ba7b810-9dad-11d1-80b4-00c04fd430c8}", "ok"),
        (
            "force uuid=urn:uuid:6BA7B810-9DAD-11D1-80B4-00C04FD430C8",
            "ok",
        ),
        (
            "force uuid=6ba7b810-9dad-11d1-80b4-00c04fd430c",
            "error bad-uuid",
        ),
        ("force uuid=x features=foo", "error bad-uuid"),
        ("features=uid=1,uid=2", "error repeated-option 6"),
        ("features=uid=1,perm=1777", "error bad-value 11"),
        ("features=aggr_cnv,", "error unknown-option 9"),
        ("features=perm=7,gid=4294967295 force", "ok"),
    ] {
        let script = format!(in rt.alloc(); "close 0\numount\nmkfs {words}\nmount\n")?;
        let written = format!(in rt.alloc(); "ok\nok\n{reply}\nok\n")?;
        let mut source = source_of(rt.alloc(), script.as_bytes(), &[])?;
        ends_so(
            rt,
            rt.alloc(),
            "scratch 4 1 2",
            &mut source,
            Status::Done,
            &written,
        )?;
    }
    Ok(())
}

#[test]
fn other_command_lines_are_refused(rt: HostRuntime) -> Result<(), Fail> {
    for words in [
        "scratch 4 1 1",
        "scratch 04 1 2",
        "scratch 4 5 2",
        "scratch 4 1",
        "scratch 4 1 2 3",
        "scratsch 4 1 2",
        "scratch 32 1 2049",
        "scratch 0 0 2",
        "churn 7",
        "churn 7 1000001",
        "churn -1 5",
        "",
    ] {
        // A read would fail, and be counted.
        let mut source = source_of(rt.alloc(), b"size 0\n", &[1])?;
        ends_so(
            rt,
            rt.alloc(),
            words,
            &mut source,
            Status::Usage,
            "zonefs: bad command line\n",
        )?;
        assert_eq!(rt; source.faults(), 0, "{words}");
    }
    Ok(())
}

#[test]
fn faults_end_runs(rt: HostRuntime) -> Result<(), Fail> {
    let alloc = rt.alloc();
    let mut source = source_of(alloc, b"size 0\n", &[1])?;
    ends_so(
        rt,
        alloc,
        "scratch 4 1 2",
        &mut source,
        Status::ReadFault,
        "read-fault\n",
    )?;
    let words = words_of(alloc, "scratch 4 1 2")?;
    let mut source = source_of(alloc, b"size 0\nsize 0\n", &[])?;
    let mut sink = MemSink::new(alloc, ROOM, vec![in alloc; 1]?)?;
    let files = MemFiles::new(alloc);
    let got = zonefs_main(alloc, &words, ENTROPY, &mut source, files, &mut sink).status;
    assert_eq!(rt; got, Status::WriteFault);
    assert_eq!(rt; sink.bytes().len(), 0);
    Ok(())
}

#[test]
fn other_lines_are_refused(rt: HostRuntime) -> Result<(), Fail> {
    for (line, column) in [
        ("mount a b", 9),
        ("mount ", 7),
        ("umount 0", 8),
        ("mkfs force force", 12),
        ("mkfs label=", 6),
        ("mkfs uuid=1 label=a uuid=2", 21),
        ("mkfs Force", 6),
        ("open 1 seq/0 r gid=1 uid=1", 22),
        ("open 1 seq/0 r uid=1 uid=1", 22),
        ("open 1 seq/0 r uid=4294967296", 16),
        ("open 1 seq/0 r gid=01", 16),
        ("open 1 seq/0 r root", 16),
        (" size 0", 1),
        ("size 0 ", 8),
        ("size  0", 6),
        ("size 0\r", 6),
        ("SIZE 0", 1),
        (" ", 1),
        ("size", 5),
        ("size 00", 6),
        ("size 2048", 6),
        ("open 1 seq/0", 13),
        ("open 1 seq/0 wr", 14),
        ("read 0 0", 9),
        ("read 0 0 1048577", 10),
        ("write 0 18446744073709551616 61*0", 9),
        ("write 0 0 61", 11),
        ("write 0 0 6A*1", 11),
        ("write 0 0 61*1+", 11),
        ("write 0 0 61*1048576+61*1", 11),
        ("chmod seq/0 4294967296", 13),
        ("list", 5),
        ("power-loss fill=EE", 12),
        ("power-loss-in 1 write 1:1 done", 27),
    ] {
        let script = format!(in rt.alloc(); "size 0\n\n# {line}\n{line}\nsize 0\n")?;
        let written = format!(in rt.alloc(); "ok 0\nscript-error 4 {column}\n")?;
        let mut source = source_of(rt.alloc(), script.as_bytes(), &[])?;
        ends_so(
            rt,
            rt.alloc(),
            "scratch 4 1 2",
            &mut source,
            Status::Script,
            &written,
        )?;
    }
    for (script, written) in [
        (
            "size 0\nsize 0\nsizes 0\nsize 0\n",
            "ok 0\nok 0\nscript-error 3 1\n",
        ),
        ("read 0", "script-error 1 7\n"),
        ("size 0 ", "script-error 1 8\n"),
    ] {
        let case = Case {
            words: "scratch 4 1 2",
            script,
            status: Status::Script,
            written,
        };
        runs(rt, rt.alloc(), case)?;
    }
    // The greatest numbers.
    runs(
        rt,
        rt.alloc(),
        done(
            "scratch 4 1 2",
            "size 2047\nread 0 8192 1048576\nread 0 18446744073709551615 1\n\
             write 0 18446744073709551615 61*0\nwrite 0 0 61*1048576\nchown a 4294967295 0\n",
            "error bad-handle\nok 0\nerror too-big\nok\nerror too-big\nerror not-allowed\n",
        ),
    )
}

/// A script that is made makes no use of the source. No line of these is refused.
#[test]
fn scripts_are_made_from_seeds(rt: HostRuntime) -> Result<(), Fail> {
    for case in [
        done(
            "churn 1 0",
            "size 0\n",
            "churn seed=1 steps=0 lines=7 ok=7 errors=0 read=0 blocks=0\n",
        ),
        done(
            "churn 1 3",
            "",
            "churn seed=1 steps=3 lines=10 ok=10 errors=0 read=0 blocks=7\n",
        ),
        done(
            "churn 18446744073709551615 5",
            "",
            "churn seed=18446744073709551615 steps=5 lines=12 ok=12 errors=0 read=0 blocks=10\n",
        ),
        twenty_thousand_steps(),
        twenty_thousand_steps(),
    ] {
        runs(rt, rt.alloc(), case)?;
    }
    Ok(())
}

/// So many comments of this length, each with a newline behind it, and then more bytes.
fn comments(alloc: Global, count: usize, len: usize, more: &[u8]) -> Result<Vec<u8>, AllocError> {
    let mut line = vec![in alloc; b'#'; len]?;
    line.push(b'\n')?;
    let mut script = Vec::new(alloc);
    for _ in 0..count {
        script.extend_from_slice(&line)?;
    }
    script.extend_from_slice(more)?;
    Ok(script)
}

#[test]
fn long_scripts_are_carried_out(rt: HostRuntime) -> Result<(), Fail> {
    for (count, len, status, written) in [
        (1, 65_536, Status::Done, "ok 0\n"),
        (1, 65_537, Status::Script, "line-too-long 1\n"),
        (300, 65_536, Status::Done, "ok 0\n"),
    ] {
        let script = comments(rt.alloc(), count, len, b"size 0\n")?;
        let mut source = source_of(rt.alloc(), &script, &[])?;
        ends_so(
            rt,
            rt.alloc(),
            "scratch 4 1 2",
            &mut source,
            status,
            written,
        )?;
    }
    Ok(())
}

/// Number 0 is open already, so these are 1,024 handles, and one too many.
#[test]
fn handles_are_limited(rt: HostRuntime) -> Result<(), Fail> {
    let alloc = rt.alloc();
    let mut script = String::new(alloc);
    let mut written = String::new(alloc);
    for number in 1..1024 {
        script.push_str(&format!(in alloc; "open {number} seq/0 r\n")?)?;
        written.push_str("ok\n")?;
    }
    script.push_str("open 1024 seq/0 r\nclose 1\nopen 1024 seq/0 r\n")?;
    written.push_str("error too-many-handles\nok\nok\n")?;
    let mut source = source_of(alloc, script.as_bytes(), &[])?;
    ends_so(
        rt,
        alloc,
        "scratch 2 1 2",
        &mut source,
        Status::Done,
        &written,
    )
}

/// How the first row ends, and what it writes.
fn first_run(alloc: Global) -> Result<(Status, MemSink), AllocError> {
    let case = first_row();
    let words = words_of(alloc, case.words)?;
    let mut source = source_of(alloc, case.script.as_bytes(), &[])?;
    let mut sink = MemSink::new(alloc, ROOM, Vec::new(alloc))?;
    let files = MemFiles::new(alloc);
    let ended = zonefs_main(alloc, &words, ENTROPY, &mut source, files, &mut sink);
    Ok((ended.status, sink))
}

/// Runs the first row, whose answer is its own or that memory is wanting, whichever allocation fails.
#[test]
fn an_allocation_may_fail(rt: HostRuntime) {
    if let Ok((status, sink)) = first_run(rt.alloc()) {
        let written = match status {
            Status::Memory => "out-of-memory\n",
            _ => first_row().written,
        };
        assert_eq!(rt; sink.bytes(), written.as_bytes());
        assert!(rt; status == Status::Done || status == Status::Memory);
    }
}
