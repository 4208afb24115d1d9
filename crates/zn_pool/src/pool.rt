// The pool and its leases.
ghost use Rattle.std.specs.Prelude.{◌≡◌, ◌*◌, ◌<◌, ◌≤◌, ◌↔◌, length, IfOk, IsNone, IsTrue, IfNone, IfSome};
ghost use Rattle.zn_pool.specs.PoolState.{first_of, size_of, bytes_at, IsLive, IsParted, all_free, Takes, filled, given};

use crate::chains::{block_after, fill_chain, links_in_order, read_chain};
use std::alloc::{AllocError, Global};
use std::marker::Model;
use zn_truth::BLOCK_SIZE;

/// Blocks of a pool that were taken and not given back. It can't be copied, and only `Pool::take` makes one. A lease
/// that is dropped keeps its blocks from every other lease.
#[derive(Debug, Drop)]
pub struct Lease {
    first: u32,
    blocks: u32,
}

/// A region of blocks that is shared out in leases. The blocks of a lease make a chain by links, and so do the free
/// ones. Only `new` takes memory.
#[derive(Drop)]
pub struct Pool {
    // The bytes of the blocks from the first on, one after another. Those of the blocks behind its end are zeros. It has
    // the room for all of them from the start.
    region: Vec<u8>,
    // For each block, the next one of its chain. The link of a chain's last block means nothing.
    links: Vec<u32>,
    // For each block, how many blocks the live lease has that starts there, or 0.
    counts: Vec<u32>,
    // The first free block, and how many are free.
    head: u32,
    free: u32,
}

impl Lease {
    /// How many blocks it has.
    pub fn blocks(&self) -> u32
        ensures { result ≡ size_of self.now }
    {
        self.blocks
    }
}

impl Model for Pool {
    ghost use Rattle.zn_pool.specs.PoolState.{PoolState};

    ghost Value = { PoolState };

    ghost use Rattle.zn_pool.specs.Kept.{seen_of, IsKept};

    ghost view = { seen_of };

    ghost invariant = { IsKept };
}

impl Pool {
    /// A pool of so many blocks, all of them free. The region is touched only where it is used.
    pub fn new(alloc: Global, blocks: u32) -> Result<Pool, AllocError>
        requires { 1 ≤ blocks }
        ensures { IfOk result (λ pool. pool ≡ all_free blocks) }
    {
        Ok(Pool {
            region: Vec::with_capacity(alloc, BLOCK_SIZE * blocks as usize)?,
            links: links_in_order(alloc, blocks)?,
            counts: vec![in alloc; 0; blocks as usize]?,
            head: 0,
            free: blocks,
        })
    }

    /// Takes so many blocks, in as many steps.
    pub fn take(&mut self, n: u32) -> Option<Lease>
        requires { 1 ≤ n }

        // None exactly where fewer are free, and then nothing changes.
        ensures short { IsNone result ↔ (length self.old.free < n) }
        ensures none { IfNone result (self.new ≡ self.old) }
        ensures taken { IfSome result (Takes self.old self.new n) }
    {
        if n > self.free {
            return None;
        }
        let first = self.head;
        self.head = block_after(&self.links, first, n);
        self.free -= n;
        self.counts[first as usize] = n;
        Some(Lease { first, blocks: n })
    }

    /// Puts bytes into the blocks of a lease.
    pub fn fill(&mut self, lease: &Lease, bytes: &[u8])
        requires live { IsLive self.old lease.now }
        requires long { length bytes.now ≡ BLOCK_SIZE * size_of lease.now }
        ensures { self.new ≡ filled self.old (first_of lease.now) bytes.now }
    {
        fill_chain(
            &mut self.region,
            &self.links,
            lease.first,
            lease.blocks,
            bytes,
        );
    }

    /// What was last put into the blocks of a lease.
    pub fn bytes(&self, lease: &Lease, out: &mut [u8])
        requires live { IsLive self.now lease.now }
        requires long { length out.old ≡ BLOCK_SIZE * size_of lease.now }
        ensures { out.new ≡ bytes_at self.now (first_of lease.now) }
    {
        read_chain(&self.region, &self.links, lease.first, lease.blocks, out);
    }

    /// Gives the blocks of a lease back, in as many steps.
    pub fn give(&mut self, lease: Lease)
        requires { IsLive self.old lease }
        ensures { self.new ≡ given self.old (first_of lease) }
    {
        let Lease { first, blocks } = lease;
        let last = block_after(&self.links, first, blocks - 1);
        self.links[last as usize] = self.head;
        self.head = first;
        self.free += blocks;
        self.counts[first as usize] = 0;
    }

    /// How many blocks are free.
    pub fn free(&self) -> u32
        ensures count { result ≡ length self.now.free }
        ensures parted { IsParted self.now }
    {
        self.free
    }

    /// Whether a lease is live in this pool.
    pub fn is_live(&self, lease: &Lease) -> bool
        ensures { IsTrue result ↔ IsLive self.now lease.now }
    {
        let first = lease.first as usize;
        if lease.blocks == 0 || first >= self.counts.len() {
            return false;
        }
        self.counts[first] == lease.blocks
    }
}
