// The queue of writes.
ghost use Rattle.std.specs.Prelude.{◌≡◌, ◌+◌, ◌-◌, ◌*◌, ◌/◌, ◌<◌, ◌≤◌, ◌↔◌, ◌^◌, [], ◌∷◌, ◌++◌, length, map, filter, take, drop, not, ◌==◌, slice_index, sum, IsErr, IfOk, OnOk, OnErr, IfSome, IfNone, IsTrue, MatchResult, None, Some};
ghost use Rattle.std.specs.List.{list_any};
ghost use Rattle.std.specs.VecDeque.{deque_capacity};
ghost use Rattle.zn_truth.specs.Obeying.{IsWhole};
ghost use Rattle.zn_model.specs.declared.limits.TheConstants.{MOST_BYTES};
ghost use Rattle.zn_model.specs.Volume.{is_same_handle, failed, queued_bytes, queued_blocks, is_queued, is_queued_through};
ghost use Rattle.zn_model.specs.Requests.{queue_refusal};
ghost use Rattle.zn_pool.specs.PoolState.{first_of, IsLive, given};
ghost use Rattle.zn_queue.specs.QueueState.{empty_queue, IsBacked, refusal_by, with_request, request_of, with_outcome};
ghost use Rattle.zn_queue.specs.Kept.{IsShared, request_in};

use std::alloc::{AllocError, Global};
use std::collections::VecDeque;
use std::marker::Model;
use zn_model::{Done, Handle, MAX_REQUESTS, Outcome, POOL_BLOCKS, Refusal};
use zn_pool::{Lease, Pool};
use zn_truth::BLOCK_SIZE;

/// A write that waits.
#[derive(Clone, Copy, Debug, PartialEq, Eq)]
pub struct Request {
    pub ticket: u64,
    pub file: u32,
    /// The handle that it was submitted through.
    pub key: Handle,
    pub offset: u64,
    /// How many bytes it writes.
    pub len: u32,
}

/// Why a write was not queued.
#[derive(Clone, Copy, Debug, PartialEq, Eq)]
pub enum QueueError {
    /// So many requests wait or are not reaped that no more may be queued.
    QueueFull,
    /// Too few blocks are free.
    PoolEmpty,
}

impl From<QueueError> for Refusal {
    ghost use Rattle.std.specs.Prelude.{◌≡◌};
    ghost use Rattle.zn_queue.specs.QueueState.{refusal_by};

    ghost from_gives = { λ error refusal. refusal ≡ refusal_by error };

    fn from(error: QueueError) -> Refusal {
        match error {
            QueueError::QueueFull => Refusal::QueueFull,
            QueueError::PoolEmpty => Refusal::PoolEmpty,
        }
    }
}

// A request, and the lease that holds its bytes.
#[derive(Drop)]
struct Waiting {
    request: Request,
    lease: Lease,
}

/// The writes that wait, oldest first, and the outcomes of those that ended, oldest first. Only `new` takes memory.
#[derive(Drop)]
pub struct Queue {
    pool: Pool,
    waiting: VecDeque<Waiting>,
    ended: VecDeque<Done>,
    last_ticket: u64,
}

impl Model for Queue {
    ghost use Rattle.zn_queue.specs.QueueState.{QueueState};

    ghost Value = { QueueState };

    ghost use Rattle.zn_queue.specs.Kept.{seen_of, IsKept};

    ghost view = { seen_of };

    ghost invariant = { IsKept };
}

// Ends a request: its blocks are free again, and its outcome stands behind the others.
fn end(pool: &mut Pool, ended: &mut VecDeque<Done>, oldest: Waiting, outcome: Outcome)
    requires live { IsLive pool.old oldest.lease }
    requires room { length ended.old.items < deque_capacity ended.old }
    ensures pool { pool.new ≡ given pool.old (first_of oldest.lease) }
    ensures ended { ended.new.items
        ≡ ended.old.items ++ (record { ticket = oldest.request.ticket; outcome = outcome }) ∷ [] }
    ensures capacity { deque_capacity ended.new ≡ deque_capacity ended.old }
{
    let Waiting { request, lease } = oldest;
    pool.give(lease);
    ended.push_back_reserved(Done {
        ticket: request.ticket,
        outcome,
    });
}

// How many bytes requests write to a file.
fn bytes_for(waiting: &VecDeque<Waiting>, file: u32) -> u64
    requires { length waiting.now.items ≤ MAX_REQUESTS }
    ensures { result ≡ sum (map (λ it. it.request.len) (filter (λ it. it.request.file == file) waiting.now.items)) }
{
    waiting
        .iter()
        .filter(|it| it.request.file == file)
        .map(|it| u64::from(it.request.len))
        .sum()
}

// Whether a request was submitted through a handle.
fn waits_through(waiting: &VecDeque<Waiting>, key: Handle) -> bool
    ensures { result ≡ list_any (λ it. is_same_handle it.request.key key) waiting.now.items }
{
    waiting.iter().any(|it| it.request.key == key)
}

impl Queue {
    /// No requests, with room for all that may be queued, and for their blocks.
    pub fn new(alloc: Global) -> Result<Queue, AllocError>
        ensures { IfOk result (λ queue. queue ≡ empty_queue) }
    {
        Ok(Queue {
            pool: Pool::new(alloc, POOL_BLOCKS)?,
            waiting: VecDeque::with_capacity(alloc, MAX_REQUESTS as usize)?,
            ended: VecDeque::with_capacity(alloc, MAX_REQUESTS as usize)?,
            last_ticket: 0,
        })
    }

    /// Queues a write, and answers its ticket.
    pub fn submit(
        &mut self,
        file: u32,
        key: Handle,
        offset: u64,
        bytes: &[u8],
    ) -> Result<u64, QueueError>
        requires whole { IsWhole bytes.now }
        requires most { length bytes.now ≤ MOST_BYTES }
        requires tickets { self.old.queue.last_ticket < 2 ^ 63 }

        // It is refused exactly where 64 requests wait or are not reaped, or else too few blocks are free: those that
        // no request holds.
        ensures full { (result ≡ Err QueueError.QueueFull)
            ↔ (MAX_REQUESTS ≤ length self.old.queue.queued + length self.old.queue.finished) }
        ensures empty { (result ≡ Err QueueError.PoolEmpty)
            ↔ ((length self.old.queue.queued + length self.old.queue.finished < MAX_REQUESTS)
            × (length self.old.pool.free < length bytes.now / BLOCK_SIZE)) }
        ensures free { length self.old.pool.free ≡ POOL_BLOCKS - queued_blocks self.old.queue }
        ensures refusal { MatchResult result
            (λ ticket. queue_refusal self.old.queue (length bytes.now) ≡ None)
            (λ error. queue_refusal self.old.queue (length bytes.now) ≡ Some (refusal_by error)) }
        ensures err { OnErr result (self.new ≡ self.old) }

        // The write waits behind the others.
        ensures ticket { IfOk result (λ ticket. ticket ≡ self.old.queue.last_ticket + 1) }
        ensures queued { OnOk result (self.new.queue ≡ with_request self.old.queue file key offset bytes.now) }
    {
        if self.waiting.len() + self.ended.len() >= MAX_REQUESTS as usize {
            return Err(QueueError::QueueFull);
        }
        let blocks = (bytes.len() / BLOCK_SIZE) as u32;
        let Some(lease) = self.pool.take(blocks) else {
            return Err(QueueError::PoolEmpty);
        };
        self.pool.fill(&lease, bytes);
        let ticket = self.last_ticket + 1;
        self.last_ticket = ticket;
        let request = Request {
            ticket,
            file,
            key,
            offset,
            len: bytes.len() as u32,
        };
        self.waiting.push_back_reserved(Waiting { request, lease });
        Ok(ticket)
    }

    /// The oldest request that waits, with its bytes in the front of `out`. None exactly where none waits.
    pub fn next(&self, out: &mut [u8]) -> Option<Request>
        requires { length out.old ≡ MOST_BYTES }
        ensures none { IfNone result ((self.now.queue.queued ≡ []) × (out.new ≡ out.old)) }
        ensures oldest { IfSome result (λ it. self.now.queue.queued
            ≡ request_of it (take it.len out.new) ∷ drop 1 self.now.queue.queued) }
        ensures whole { IfSome result (λ it. IsWhole (take it.len out.new)) }
        ensures len { IfSome result (λ it. it.len ≤ MOST_BYTES) }
        ensures rest { IfSome result (λ it. drop it.len out.new ≡ drop it.len out.old) }
    {
        let oldest = self.waiting.front()?;
        let len = oldest.request.len as usize;
        self.pool.bytes(&oldest.lease, &mut out[..len]);
        Some(oldest.request)
    }

    /// Ends the oldest request that waits, and answers its ticket.
    pub fn finish(&mut self, outcome: Outcome) -> u64
        requires { 0 < length self.old.queue.queued }
        ensures ticket { result ≡ slice_index (map (λ request. request.ticket) self.old.queue.queued) 0 }
        ensures queue { self.new.queue ≡ with_outcome self.old.queue outcome }
    {
        let oldest = self.waiting.pop_front().unwrap();
        let ticket = oldest.request.ticket;
        end(&mut self.pool, &mut self.ended, oldest, outcome);
        ticket
    }

    /// Ends all requests of a file that wait with an input or output error, in their order.
    pub fn fail(&mut self, file: u32)
        ensures { self.new.queue ≡ failed self.old.queue file }
    {
        end_all_of(&mut self.pool, &mut self.waiting, &mut self.ended, file);
    }

    /// Takes the outcome of the request that ended first. None exactly where there is none.
    pub fn reap(&mut self) -> Option<Done>
        ensures none { IfNone result ((self.old.queue.finished ≡ []) × (self.new ≡ self.old)) }
        ensures first { IfSome result (λ done. self.old.queue.finished ≡ done ∷ self.new.queue.finished) }
        ensures rest { self.new ≡ record self.old {
          queue = record self.old.queue { finished = drop 1 self.old.queue.finished };
        } }
    {
        self.ended.pop_front()
    }

    /// The pool, for looking.
    pub fn pool(&self) -> &Pool
        ensures pool { result.now ≡ self.now.pool }
        ensures backed { IsBacked self.now }
    {
        &self.pool
    }

    /// How many bytes wait for a file.
    pub fn queued(&self, file: u32) -> u64
        ensures bytes { result ≡ queued_bytes self.now.queue file }
        ensures some { (0 < result) ↔ IsTrue (is_queued self.now.queue file) }
        ensures most { result ≤ BLOCK_SIZE * POOL_BLOCKS }
    {
        bytes_for(&self.waiting, file)
    }

    /// Whether a request waits that was submitted through a handle.
    pub fn through(&self, key: Handle) -> bool
        ensures { result ≡ is_queued_through self.now.queue key }
    {
        waits_through(&self.waiting, key)
    }
}

// Ends all requests of a file with an input or output error, in their order. The others wait on, in theirs.
fn end_all_of(
    pool: &mut Pool,
    waiting: &mut VecDeque<Waiting>,
    ended: &mut VecDeque<Done>,
    file: u32,
)
    requires shared { IsShared pool.old waiting.old.items }
    requires room { length waiting.old.items + length ended.old.items ≤ deque_capacity ended.old }
    ensures shared { IsShared pool.new waiting.new.items }
    ensures requests { map (request_in pool.new.live) waiting.new.items
        ≡ filter (λ request. not (request.file == file)) (map (request_in pool.old.live) waiting.old.items) }
    ensures ended { ended.new.items ≡ ended.old.items
        ++ map (λ it. record { ticket = it.request.ticket; outcome = Outcome.IoError })
        (filter (λ it. it.request.file == file) waiting.old.items) }
    ensures count { length waiting.new.items + length ended.new.items
        ≡ length waiting.old.items + length ended.old.items }
    ensures waiting_room { deque_capacity waiting.new ≡ deque_capacity waiting.old }
    ensures ended_room { deque_capacity ended.new ≡ deque_capacity ended.old }
{
    for _ in 0..waiting.len() {
        let oldest = waiting.pop_front().unwrap();
        if oldest.request.file == file {
            end(pool, ended, oldest, Outcome::IoError);
        } else {
            waiting.push_back_reserved(oldest);
        }
    }
}
