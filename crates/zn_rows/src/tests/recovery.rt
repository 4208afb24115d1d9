// What failed commands leave of files.

use super::{carried_out, done, runs};
use std::alloc::{AllocError, Global};
use std::test::Fail;

/// A write of three blocks is cut short after the first: what each policy leaves of the file to another handle.
#[test]
fn writes_are_cut_short(rt: HostRuntime) -> Result<(), Fail> {
    for (policy, told) in [
        (
            "remount-ro",
            "ok 4096\nerror fs-read-only\nok 4096 61*4096\n",
        ),
        (
            "zone-ro",
            "ok 4096\nerror file-read-only\nok 4096 61*4096\n",
        ),
        (
            "zone-offline",
            "ok 0\nerror file-offline\nerror file-offline\n",
        ),
        ("repair", "ok 4096\nok\nok 4096 61*4096\n"),
    ] {
        let script = format!(in rt.alloc();
            "close 0\numount\nmount errors={policy}\nopen 0 seq/0 rw\nopen 1 seq/0 rw\nfault 1 write 1\n\
             write 0 0 61*12288\nsize 1\nwrite 1 4096 62*4096\nread 1 0 4096\n"
        )?;
        let written = format!(in rt.alloc(); "ok\nok\nok\nok\nok\nok\nerror io-error\n{told}")?;
        carried_out(rt, rt.alloc(), "scratch 3 1 4", &script, &written)?;
    }
    Ok(())
}

#[test]
fn zones_turn(rt: HostRuntime) -> Result<(), Fail> {
    for case in [
        // A file keeps what it shows until a command fails, and with a read-only zone even then. A mount shows it empty.
        done(
            "scratch 3 1 4",
            "write 0 0 61*4096\nturn 1 ro\nread 0 0 4096\nwrite 0 4096 62*4096\nread 0 0 4096\nwrite 0 4096 62*4096\n\
             close 0\numount\nmount\nstat seq/0\nopen 0 seq/0 r\n",
            "ok\nok\nok 4096 61*4096\nerror io-error\nok 4096 61*4096\nerror fs-read-only\n\
             ok\nok\nok\nok file seq/0 zone 1 zones 1 size 0 blocks 32 mode 000 uid 0 gid 0 writers 0\nerror file-offline\n",
        ),
        // A file of three zones goes by the worst of them, and each command by its own zone.
        done(
            "scratch 5 4 2",
            "close 0\numount\nmkfs force features=aggr_cnv\nmount errors=repair\nopen 0 cnv/0 rw\nfault 2 write 1\n\
             write 0 4096 61*16384\nread 0 0 24576\nturn 3 ro\nwrite 0 20480 62*4096\nstat cnv/0\nwrite 0 0 62*4096\n\
             turn 2 off\nread 0 0 4096\nread 0 8192 4096\nsize 0\nread 0 0 4096\n",
            "ok\nok\nok\nok\nok\nok\n\
             error io-error\nok 24576 00*4096+61*8192+00*12288\nok\nerror io-error\n\
             ok file cnv/0 zone 1 zones 3 size 24576 blocks 48 mode 440 uid 0 gid 0 writers 1\nerror file-read-only\n\
             ok\nok 4096 00*4096\nerror io-error\nok 0\nerror file-offline\n",
        ),
    ] {
        runs(rt, rt.alloc(), case)?;
    }
    Ok(())
}

/// A failed flush loses a block of another file, which shows it until a command on it fails.
#[test]
fn flushes_lose_blocks_of_other_files(rt: HostRuntime) -> Result<(), Fail> {
    for line in ["read 1 0 8192", "write 1 8192 63*4096"] {
        let script = format!(in rt.alloc();
            "close 0\numount\nmount errors=repair\nopen 0 seq/0 rw\nopen 1 seq/1 rw\nwrite 0 0 61*4096\n\
             write 1 0 62*8192\nfault 2 flush 1\nsync 0\nsize 1\nread 1 0 4096\n{line}\nsize 1\n\
             write 1 4096 63*4096\nread 1 0 8192\n"
        )?;
        carried_out(
            rt,
            rt.alloc(),
            "scratch 4 1 4",
            &script,
            "ok\nok\nok\nok\nok\nok\nok\nok\nerror io-error\nok 8192\nok 4096 62*4096\nerror io-error\nok 4096\n\
             ok\nok 8192 62*4096+63*4096\n",
        )?;
    }
    Ok(())
}

/// A read meets blocks that a failed flush lost: what each policy leaves of the file, by the condition of its zone. A
/// read-only zone leaves the size as it is, though it holds less.
#[test]
fn lost_blocks_are_read(rt: HostRuntime) -> Result<(), Fail> {
    for (policy, turn, size, mode, read) in [
        ("remount-ro", "", 4096, "440", "ok 4096 62*4096"),
        ("remount-ro", "turn 2 ro\n", 8192, "440", "ok 4096 62*4096"),
        ("remount-ro", "turn 2 off\n", 0, "000", "error file-offline"),
        ("zone-ro", "", 4096, "440", "ok 4096 62*4096"),
        ("zone-ro", "turn 2 ro\n", 8192, "440", "ok 4096 62*4096"),
        ("zone-ro", "turn 2 off\n", 0, "000", "error file-offline"),
        ("zone-offline", "", 0, "000", "error file-offline"),
        (
            "zone-offline",
            "turn 2 ro\n",
            0,
            "000",
            "error file-offline",
        ),
        (
            "zone-offline",
            "turn 2 off\n",
            0,
            "000",
            "error file-offline",
        ),
        ("repair", "", 4096, "640", "ok 4096 62*4096"),
        ("repair", "turn 2 ro\n", 8192, "440", "ok 4096 62*4096"),
        ("repair", "turn 2 off\n", 0, "000", "error file-offline"),
    ] {
        let script = format!(in rt.alloc();
            "close 0\numount\nmount errors={policy}\nopen 0 seq/0 rw\nopen 1 seq/1 rw\nwrite 1 0 62*8192\nfault 2 flush 1\n\
             sync 0\n{turn}read 1 0 8192\nstat seq/1\nread 1 0 4096\n"
        )?;
        let turned = if turn.is_empty() { "" } else { "ok\n" };
        let written = format!(in rt.alloc();
            "ok\nok\nok\nok\nok\nok\nok\nerror io-error\n{turned}error io-error\n\
             ok file seq/1 zone 2 zones 1 size {size} blocks 32 mode {mode} uid 0 gid 0 writers 1\n{read}\n"
        )?;
        carried_out(rt, rt.alloc(), "scratch 4 1 4", &script, &written)?;
    }
    Ok(())
}

/// A script that lets the device fail, and then opens and closes a file twice on a volume with explicit opens, with every
/// other command between. The volume is mounted a second time at the end.
fn each_command(alloc: Global, faults: &str) -> Result<String, AllocError> {
    format!(in alloc;
        "close 0\numount\nmount errors=repair,explicit-open\n{faults}\
         open 0 seq/0 rw\nwrite 0 0 61*8192\nread 0 0 8192\ntruncate 0 0\nwrite 0 0 62*4096\nsync 0\nclose 0\nstat seq/0\n\
         open 0 seq/0 rw\ntruncate 0 16384\nread 0 0 16384\nclose 0\numount\nmount\nstat seq/0\n"
    )
}

/// What `stat` tells of the file of this size, while it has all rights and nobody writes to it.
fn told(alloc: Global, size: u32) -> Result<String, AllocError> {
    format!(in alloc;
        "ok file seq/0 zone 1 zones 1 size {size} blocks 32 mode 640 uid 0 gid 0 writers 0\n"
    )
}

/// One fault of each kind. The sizes are those at the first close, and at the second mount.
#[test]
fn each_command_fails(rt: HostRuntime) -> Result<(), Fail> {
    for (faults, first, closed, second, mounted) in [
        // The file shows what its zone holds, and stays as it is.
        (
            "fault 1 read\n",
            "ok\nok\nok\nerror io-error\nok\nok\nok\nok\n",
            4096,
            "ok\nok\nok 16384 62*4096+00*12288\nok\nok\nok\n",
            16384,
        ),
        (
            "fault 1 write\n",
            "ok\nok\nerror io-error\nok 0\nok\nok\nok\nok\n",
            4096,
            "ok\nok\nok 16384 62*4096+00*12288\nok\nok\nok\n",
            16384,
        ),
        (
            "fault 1 write 1\n",
            "ok\nok\nerror io-error\nok 4096 61*4096\nok\nok\nok\nok\n",
            4096,
            "ok\nok\nok 16384 62*4096+00*12288\nok\nok\nok\n",
            16384,
        ),
        (
            "fault 1 reset\n",
            "ok\nok\nok\nok 8192 61*8192\nerror io-error\nerror bad-offset\nok\nok\n",
            8192,
            "ok\nok\nok 16384 61*8192+00*8192\nok\nok\nok\n",
            16384,
        ),
        (
            "fault 1 finish\n",
            "ok\nok\nok\nok 8192 61*8192\nok\nok\nok\nok\n",
            4096,
            "ok\nerror io-error\nok 4096 62*4096\nok\nok\nok\n",
            4096,
        ),
        (
            "fault 1 flush\n",
            "ok\nok\nok\nok 8192 61*8192\nok\nok\nerror io-error\nok\n",
            0,
            "ok\nok\nok 16384 00*16384\nok\nok\nok\n",
            16384,
        ),
        // There is no handle.
        (
            "fault 1 open\n",
            "ok\nerror io-error\nerror bad-handle\nerror bad-handle\nerror bad-handle\nerror bad-handle\n\
             error bad-handle\nerror bad-handle\n",
            0,
            "ok\nok\nok 16384 00*16384\nok\nok\nok\n",
            16384,
        ),
        // The handle has ended all the same.
        (
            "fault 1 close\n",
            "ok\nok\nok\nok 8192 61*8192\nok\nok\nok\nerror io-error\n",
            4096,
            "ok\nok\nok 16384 62*4096+00*12288\nok\nok\nok\n",
            16384,
        ),
    ] {
        let script = each_command(rt.alloc(), faults)?;
        let closed = told(rt.alloc(), closed)?;
        let mounted = told(rt.alloc(), mounted)?;
        let written = format!(in rt.alloc(); "ok\nok\nok\n{first}{closed}{second}{mounted}")?;
        carried_out(rt, rt.alloc(), "scratch 3 1 4", &script, &written)?;
    }
    Ok(())
}

/// A report follows a failed command, and begins a mount. The file whose report fails counts as offline, until a mount
/// finds its zone good and what it holds.
#[test]
fn reports_fail(rt: HostRuntime) -> Result<(), Fail> {
    for (faults, written) in [
        (
            "fault 1 write 1\nfault 1 report\n",
            "ok\nok\nok\nok\nok\nok\nerror io-error\nerror file-offline\nerror file-offline\nerror file-offline\n\
             error file-offline\nok\n\
             ok file seq/0 zone 1 zones 1 size 0 blocks 32 mode 000 uid 0 gid 0 writers 0\n\
             error file-offline\nerror bad-handle\nerror bad-handle\nerror bad-handle\nok\nok\n\
             ok file seq/0 zone 1 zones 1 size 4096 blocks 32 mode 640 uid 0 gid 0 writers 0\n",
        ),
        // No command fails before the second mount.
        (
            "fault 1 report\n",
            "ok\nok\nok\nok\nok\nok\nok 8192 61*8192\nok\nok\nok\nok\n\
             ok file seq/0 zone 1 zones 1 size 4096 blocks 32 mode 640 uid 0 gid 0 writers 0\n\
             ok\nok\nok 16384 62*4096+00*12288\nok\nok\nerror io-error\nerror not-mounted\n",
        ),
    ] {
        let script = each_command(rt.alloc(), faults)?;
        carried_out(rt, rt.alloc(), "scratch 3 1 4", &script, written)?;
    }
    Ok(())
}

/// A truncation to 0 whose zone was reset, and could not be opened again: the file is empty and still held open.
#[test]
fn truncations_fail_half_way(rt: HostRuntime) -> Result<(), Fail> {
    runs(
        rt,
        rt.alloc(),
        done(
            "scratch 3 1 4",
            "close 0\numount\nmount errors=repair,explicit-open\nopen 0 seq/0 rw\nwrite 0 0 61*4096\nfault 1 open\n\
             truncate 0 0\nsize 0\nattr\nwrite 0 0 62*4096\nclose 0\nattr\n",
            "ok\nok\nok\nok\nok\nok\nerror io-error\nok 0\n\
             ok max_wro_seq_files=0 nr_wro_seq_files=1 max_active_seq_files=0 nr_active_seq_files=1\nok\nok\n\
             ok max_wro_seq_files=0 nr_wro_seq_files=0 max_active_seq_files=0 nr_active_seq_files=1\n",
        ),
    )
}
