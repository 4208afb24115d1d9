ghost use Rattle.std.specs.Prelude.{◌≡◌, ◌+◌, ◌<◌, ◌≤◌, ◌^◌, length, IfOk};

use crate::{Queue, QueueError};
use std::alloc::{AllocError, Global};
use std::process::Abort;
use std::test::Fail;
use zn_model::{Done, Handle, MOST_BYTES, Outcome};
use zn_truth::BLOCK_SIZE;

// A write of so many blocks of a byte to a file, and what its submit answers.
#[derive(Clone, Copy)]
struct Written {
    file: u32,
    blocks: usize,
    byte: u8,
    want: Result<u64, QueueError>,
}

fn row(file: u32, blocks: usize, byte: u8, want: Result<u64, QueueError>) -> Written {
    Written {
        file,
        blocks,
        byte,
        want,
    }
}

fn handle(key: u32) -> Handle {
    Handle { key, generation: 7 }
}

// So many bytes.
fn filled(alloc: Global, byte: u8, len: usize) -> Result<Vec<u8>, AllocError>
    ensures { IfOk result (λ v. length v.items ≡ len) }
{
    vec![in alloc; byte; len]
}

// Submits a write, through the handle of a key that is the file's number.
fn submit(rt: &impl Abort, alloc: Global, queue: &mut Queue, row: Written) -> Result<(), AllocError>
    requires { queue.old.queue.last_ticket < 2 ^ 32 }
    ensures { queue.new.queue.last_ticket ≤ queue.old.queue.last_ticket + 1 }
{
    assert!(rt; row.blocks != 0 && row.blocks <= 256);
    let bytes = filled(alloc, row.byte, BLOCK_SIZE * row.blocks)?;
    let told = queue.submit(row.file, handle(row.file), 4096, &bytes);
    assert_eq!(rt; told, row.want);
    Ok(())
}

fn submit_all(
    rt: &impl Abort,
    alloc: Global,
    queue: &mut Queue,
    rows: &[Written],
) -> Result<(), AllocError>
    requires { queue.old.queue.last_ticket + length rows.now < 2 ^ 32 }
    ensures { queue.new.queue.last_ticket ≤ queue.old.queue.last_ticket + length rows.now }
{
    for row in rows {
        submit(rt, alloc, queue, *row)?;
    }
    Ok(())
}

// The oldest request's ticket, its file, its blocks and the byte that it holds; its bytes are all the same.
fn oldest(
    rt: &impl Abort,
    alloc: Global,
    queue: &Queue,
) -> Result<Option<(u64, u32, usize, u8)>, AllocError> {
    let mut out = filled(alloc, 99, MOST_BYTES as usize)?;
    let Some(request) = queue.next(&mut out) else {
        return Ok(None);
    };
    assert_eq!(rt; (request.key, request.offset), (handle(request.file), 4096));
    let (bytes, rest) = out.split_at(request.len as usize);
    assert!(rt; !bytes.is_empty());
    let byte = bytes[0];
    assert!(rt; bytes.iter().all(|b| *b == byte));
    assert!(rt; rest.iter().all(|b| *b == 99));
    Ok(Some((request.ticket, request.file, bytes.len() / BLOCK_SIZE, byte)))
}

// Ends the oldest request, which has this ticket.
fn finish(
    rt: &impl Abort,
    alloc: Global,
    queue: &mut Queue,
    ticket: u64,
    outcome: Outcome,
) -> Result<(), AllocError>
    ensures { queue.new.queue.last_ticket ≡ queue.old.queue.last_ticket }
{
    let mut out = filled(alloc, 99, MOST_BYTES as usize)?;
    let request = queue.next(&mut out).expect(rt, "one waits");
    assert_eq!(rt; (request.ticket, queue.finish(outcome)), (ticket, ticket));
    Ok(())
}

// Takes the outcomes of requests that ended, in this order.
fn reap_all(rt: &impl Abort, queue: &mut Queue, dones: &[(u64, Outcome)])
    ensures { queue.new.queue.last_ticket ≡ queue.old.queue.last_ticket }
{
    for (ticket, outcome) in dones {
        let done = Done {
            ticket: *ticket,
            outcome: *outcome,
        };
        assert_eq!(rt; queue.reap(), Some(done));
    }
}

// The free blocks, the bytes that wait for files 1 and 2, and whether something waits through their handles.
fn assert_seen(rt: &impl Abort, queue: &Queue, free: u32, bytes: [u64; 2]) {
    assert_eq!(rt; queue.pool().free(), free);
    assert_eq!(rt; [queue.queued(1), queue.queued(2)], bytes);
    assert_eq!(rt;
        [queue.through(handle(1)), queue.through(handle(2))],
        [bytes[0] != 0, bytes[1] != 0]
    );
}

#[test]
fn sixty_four_requests(rt: HostRuntime) -> Result<(), Fail> {
    let alloc = rt.alloc();
    let mut queue = Queue::new(alloc)?;
    let full = row(3, 1, 5, Err(QueueError::QueueFull));
    for i in 0..64 {
        submit(&rt, alloc, &mut queue, row(3, 1, 5, Ok(i + 1)))?;
    }
    submit(&rt, alloc, &mut queue, full)?;
    for i in 0..64 {
        finish(&rt, alloc, &mut queue, i + 1, Outcome::Ok)?;
    }
    submit(&rt, alloc, &mut queue, full)?;
    reap_all(&rt, &mut queue, &[(1, Outcome::Ok)]);
    submit_all(&rt, alloc, &mut queue, &[row(3, 1, 5, Ok(65)), full])?;
    reap_all(&rt, &mut queue, &[(2, Outcome::Ok), (3, Outcome::Ok)]);
    Ok(())
}

#[test]
fn pool_empty_exactly(rt: HostRuntime) -> Result<(), Fail> {
    let alloc = rt.alloc();
    let mut queue = Queue::new(alloc)?;
    submit_all(
        &rt,
        alloc,
        &mut queue,
        &[
            row(1, 256, 1, Ok(1)),
            row(1, 256, 2, Ok(2)),
            row(1, 256, 3, Ok(3)),
            row(1, 255, 4, Ok(4)),
            row(1, 2, 5, Err(QueueError::PoolEmpty)),
            row(1, 1, 5, Ok(5)),
            row(1, 1, 6, Err(QueueError::PoolEmpty)),
        ],
    )?;
    assert_seen(&rt, &queue, 0, [4_194_304, 0]);
    finish(&rt, alloc, &mut queue, 1, Outcome::TooManyOpen)?;
    assert_seen(&rt, &queue, 256, [3_145_728, 0]);
    submit(&rt, alloc, &mut queue, row(2, 256, 7, Ok(6)))?;
    assert_seen(&rt, &queue, 0, [3_145_728, 1_048_576]);
    reap_all(&rt, &mut queue, &[(1, Outcome::TooManyOpen)]);
    Ok(())
}

// Two files' requests by turns, and one file fails.
#[test]
fn a_file_fails(rt: HostRuntime) -> Result<(), Fail> {
    let alloc = rt.alloc();
    let mut queue = Queue::new(alloc)?;
    submit_all(
        &rt,
        alloc,
        &mut queue,
        &[
            row(1, 1, 10, Ok(1)),
            row(2, 2, 20, Ok(2)),
            row(1, 3, 30, Ok(3)),
            row(2, 4, 40, Ok(4)),
            row(1, 5, 50, Ok(5)),
        ],
    )?;
    assert_seen(&rt, &queue, 1009, [36_864, 24_576]);
    queue.fail(1);
    assert_seen(&rt, &queue, 1018, [0, 24_576]);
    assert_eq!(rt; oldest(&rt, alloc, &queue)?, Some((2, 2, 2, 20)));
    finish(&rt, alloc, &mut queue, 2, Outcome::Ok)?;
    assert_eq!(rt; oldest(&rt, alloc, &queue)?, Some((4, 2, 4, 40)));
    submit(&rt, alloc, &mut queue, row(1, 1, 60, Ok(6)))?;
    let error = Outcome::IoError;
    reap_all(
        &rt,
        &mut queue,
        &[(1, error), (3, error), (5, error), (2, Outcome::Ok)],
    );
    assert_eq!(rt; queue.reap(), None);
    Ok(())
}
