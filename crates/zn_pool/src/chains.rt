// Chains of blocks by links: the link of a block is the next block of its chain.
ghost use Rattle.std.specs.Prelude.{◌≡◌, ℕ, ◌+◌, ◌*◌, ◌<◌, ◌≤◌, ◌++◌, length, IfOk, vec_capacity};
ghost use Rattle.std.specs.List.{range_with_len};
ghost use Rattle.zn_truth.specs.Orders.{replaced};
ghost use Rattle.zn_pool.specs.Chains.{chain, block_after, AreBelow, block_bytes, chain_bytes, chain_filled, padded, AreWhole, IsRegion};

use std::alloc::{AllocError, Global};
use zn_truth::BLOCK_SIZE;

// Links that make one chain of all blocks, in their order.
pub(crate) fn links_in_order(alloc: Global, blocks: u32) -> Result<Vec<u32>, AllocError>
    ensures { IfOk result (λ links. links.items ≡ range_with_len 1 blocks) }
{
    let mut links = Vec::with_capacity(alloc, blocks as usize)?;
    for b in 0..blocks {
        links.push(b + 1)?;
    }
    Ok(links)
}

// The block so many links behind one.
pub(crate) fn block_after(links: &[u32], first: u32, steps: u32) -> u32
    requires { AreBelow (length links.now) (chain links.now first steps) }
    ensures { result ≡ block_after links.now first steps }
{
    let mut at = first;
    for _ in 0..steps {
        at = links[at as usize];
    }
    at
}

// Puts bytes in the place of those of one block.
fn put_block(region: &mut Vec<u8>, b: u32, bytes: &[u8])
    requires region { BLOCK_SIZE * b + BLOCK_SIZE ≤ length region.old.items }
    requires bytes { length bytes.now ≡ BLOCK_SIZE }
    ensures bytes { region.new.items ≡ replaced region.old.items (BLOCK_SIZE * b) bytes.now }
    ensures room { vec_capacity region.new ≡ vec_capacity region.old }
{
    let from = BLOCK_SIZE * b as usize;
    region[from..from + BLOCK_SIZE].copy_from_slice(bytes);
}

// Puts bytes into one block behind the end. Blocks between it and the end become zeros.
fn append_block(region: &mut Vec<u8>, b: u32, bytes: &[u8])
    requires region { length region.old.items ≤ BLOCK_SIZE * b }
    requires room { BLOCK_SIZE * b + BLOCK_SIZE ≤ vec_capacity region.old }
    requires bytes { length bytes.now ≡ BLOCK_SIZE }
    ensures bytes { region.new.items ≡ padded b region.old.items ++ bytes.now }
    ensures room { vec_capacity region.old ≤ vec_capacity region.new }
{
    region.resize(BLOCK_SIZE * b as usize, 0).unwrap();
    region.extend_from_slice(bytes).unwrap();
}

// Puts bytes into one block of a region.
fn fill_block(region: &mut Vec<u8>, b: u32, bytes: &[u8])
    requires region { AreWhole region.old.items }
    requires room { BLOCK_SIZE * b + BLOCK_SIZE ≤ vec_capacity region.old }
    requires bytes { length bytes.now ≡ BLOCK_SIZE }
    ensures bytes { (count : ℕ) → b < count →
        padded count region.new.items ≡ replaced (padded count region.old.items) (BLOCK_SIZE * b) bytes.now }
    ensures region { (count : ℕ) → b < count → IsRegion count region.old → IsRegion count region.new }
{
    if BLOCK_SIZE * (b as usize) < region.len() {
        put_block(region, b, bytes);
    } else {
        append_block(region, b, bytes);
    }
}

// Puts bytes into the blocks of a chain.
pub(crate) fn fill_chain(region: &mut Vec<u8>, links: &[u32], first: u32, blocks: u32, bytes: &[u8])
    requires region { IsRegion (length links.now) region.old }
    requires blocks { AreBelow (length links.now) (chain links.now first blocks) }
    requires bytes { length bytes.now ≡ BLOCK_SIZE * blocks }
    ensures region { IsRegion (length links.now) region.new }
    ensures bytes { padded (length links.now) region.new.items
        ≡ chain_filled (padded (length links.now) region.old.items) (chain links.now first blocks) bytes.now }
{
    let mut at = first;
    for i in 0..blocks as usize {
        let from = BLOCK_SIZE * i;
        fill_block(region, at, &bytes[from..from + BLOCK_SIZE]);
        at = links[at as usize];
    }
}

// Reads one block of a region.
fn read_block(region: &[u8], b: u32, out: &mut [u8])
    requires region { AreWhole region.now }
    requires out { length out.old ≡ BLOCK_SIZE }
    ensures { (count : ℕ) → b < count → out.new ≡ block_bytes (padded count region.now) b }
{
    let from = BLOCK_SIZE * b as usize;
    if from < region.len() {
        out.copy_from_slice(&region[from..from + BLOCK_SIZE]);
    } else {
        out.fill(0);
    }
}

// Reads the blocks of a chain.
pub(crate) fn read_chain(region: &[u8], links: &[u32], first: u32, blocks: u32, out: &mut [u8])
    requires region { AreWhole region.now }
    requires blocks { AreBelow (length links.now) (chain links.now first blocks) }
    requires out { length out.old ≡ BLOCK_SIZE * blocks }
    ensures { out.new ≡ chain_bytes (padded (length links.now) region.now) (chain links.now first blocks) }
{
    let mut at = first;
    for i in 0..blocks as usize {
        let to = BLOCK_SIZE * i;
        read_block(region, at, &mut out[to..to + BLOCK_SIZE]);
        at = links[at as usize];
    }
}
