use crate::{Lease, Pool};
use std::alloc::{AllocError, Global};
use std::process::Abort;
use std::test::Fail;
use zn_truth::BLOCK_SIZE;

// Puts a byte into all of a lease.
fn fill(
    rt: &impl Abort,
    alloc: Global,
    pool: &mut Pool,
    lease: &Lease,
    byte: u8,
) -> Result<(), AllocError> {
    assert!(rt; pool.is_live(lease));
    let bytes = vec![in alloc; byte; BLOCK_SIZE * lease.blocks() as usize]?;
    pool.fill(lease, &bytes);
    Ok(())
}

// All of a lease holds a byte.
fn assert_holds(
    rt: &impl Abort,
    alloc: Global,
    pool: &Pool,
    lease: &Lease,
    byte: u8,
) -> Result<(), AllocError> {
    assert!(rt; pool.is_live(lease));
    let mut out = vec![in alloc; 0; BLOCK_SIZE * lease.blocks() as usize]?;
    pool.bytes(lease, &mut out);
    assert!(rt; out.iter().all(|b| *b == byte));
    Ok(())
}

fn give(rt: &impl Abort, pool: &mut Pool, lease: Lease) {
    assert!(rt; pool.is_live(&lease));
    pool.give(lease);
}

// Four leases of 1, 256, 2 and 5 blocks are all of a pool, hold a byte each, and are given back in one of 24 orders.
fn four_leases(rt: &impl Abort, alloc: Global, order: usize) -> Result<(), Fail> {
    let mut pool = Pool::new(alloc, 264)?;
    let mut leases = Vec::new(alloc);
    for (n, byte, free) in [(1, 10, 263), (256, 11, 7), (2, 12, 5), (5, 13, 0)] {
        let lease = pool.take(n).expect(rt, "enough is free");
        assert_eq!(rt; (lease.blocks(), pool.free()), (n, free));
        fill(rt, alloc, &mut pool, &lease, byte)?;
        leases.push((lease, byte))?;
    }
    assert!(rt; pool.take(1).is_none());
    let mut order = order;
    while !leases.is_empty() {
        let left = leases.len();
        let (lease, byte) = leases.remove(order % left);
        order /= left;
        assert_holds(rt, alloc, &pool, &lease, byte)?;
        let free = pool.free().checked_add(lease.blocks());
        give(rt, &mut pool, lease);
        assert_eq!(rt; Some(pool.free()), free);
    }
    assert!(rt; pool.take(265).is_none());
    let all = pool.take(264).expect(rt, "all are free");
    fill(rt, alloc, &mut pool, &all, 77)?;
    assert_holds(rt, alloc, &pool, &all, 77)?;
    give(rt, &mut pool, all);
    assert_eq!(rt; pool.free(), 264);
    Ok(())
}

#[test]
fn every_order_of_four(rt: HostRuntime) -> Result<(), Fail> {
    for order in 0..24 {
        four_leases(&rt, rt.alloc(), order)?;
    }
    Ok(())
}

// A lease of blocks that don't lie side by side, the last of them before the first, beside one that stays.
#[test]
fn blocks_apart(rt: HostRuntime) -> Result<(), Fail> {
    let alloc = rt.alloc();
    let mut pool = Pool::new(alloc, 3)?;
    let first = pool.take(1).expect(&rt, "three are free");
    let second = pool.take(1).expect(&rt, "two are free");
    let third = pool.take(1).expect(&rt, "one is free");
    fill(&rt, alloc, &mut pool, &second, 2)?;
    give(&rt, &mut pool, first);
    give(&rt, &mut pool, third);
    let apart = pool.take(2).expect(&rt, "two are free");
    assert!(rt; pool.is_live(&apart));
    let mut bytes = vec![in alloc; 5; 2 * BLOCK_SIZE]?;
    bytes[BLOCK_SIZE..].fill(6);
    assert_eq!(rt; apart.blocks(), 2);
    pool.fill(&apart, &bytes);
    let mut out = vec![in alloc; 0; 2 * BLOCK_SIZE]?;
    pool.bytes(&apart, &mut out);
    assert_eq!(rt; out, bytes);
    assert_holds(&rt, alloc, &pool, &second, 2)?;
    give(&rt, &mut pool, second);
    assert_eq!(rt; pool.free(), 1);
    Ok(())
}

// A block that was taken and never filled holds zeros, before a later block is filled and after, and the last one too.
#[test]
fn never_filled(rt: HostRuntime) -> Result<(), Fail> {
    let alloc = rt.alloc();
    let mut pool = Pool::new(alloc, 4)?;
    let first = pool.take(2).expect(&rt, "four are free");
    let second = pool.take(1).expect(&rt, "two are free");
    let last = pool.take(1).expect(&rt, "one is free");
    assert_holds(&rt, alloc, &pool, &first, 0)?;
    fill(&rt, alloc, &mut pool, &second, 3)?;
    assert_holds(&rt, alloc, &pool, &first, 0)?;
    assert_holds(&rt, alloc, &pool, &second, 3)?;
    assert_holds(&rt, alloc, &pool, &last, 0)?;
    Ok(())
}
