// Blocks of a zone's file in which a byte takes the place of each.
ghost use Rattle.std.specs.Prelude.{◌≡◌, ◌*◌, ◌≤◌, length, Some};
ghost use Rattle.std.specs.Option.{option_map};
ghost use Rattle.zn_truth.specs.declared.limits.TheConstants.{BLOCK_SIZE, MAX_BLOCKS};
ghost use Rattle.zn_truth.specs.Power.{with_fill, with_filled_blocks, with_fill_unflushed};
ghost use Rattle.zn_files.specs.States.{WhereTold};
ghost use Rattle.zn_zloop.specs.Served.{IsThere, Served};
ghost use Rattle.zn_zloop.specs.Settled.{block_of, BytesBecame, synced_with, block_put, cut_file};

use crate::calls::{resize, sync, write};
use zn_files::Files;
use zn_truth::{BLOCK_SIZE, DevError};

/// A block of which each byte is this one.
#[tactic(auto, unfolding(crate::specs::Settled::block_of))]
fn block_of(byte: u8) -> [u8; 4096]
    ensures { result ≡ block_of byte }
{
    [byte; 4096]
}

/// Writes a byte over the blocks of a file from one on.
fn fill_blocks<F: Files>(
    files: &mut F,
    name: &str,
    from: u32,
    len: u32,
    byte: u8,
) -> Result<(), DevError>
    requires there { IsThere (F.state files.old) name.now }
    requires order { from ≤ len }
    requires long { WhereTold (F.state files.old) name.now (λ bytes. length bytes ≡ BLOCK_SIZE * len) }
    ensures { Served name.now (BytesBecame (with_fill (Some byte) from)) result
        (F.state files.old) (F.state files.new) }
{
    let block = block_of(byte);
    for i in from..len {
        write(files, name, BLOCK_SIZE as u64 * i as u64, &block)?;
    }
    Ok(())
}

/// Where a byte is given, writes it over the blocks of a file from one on.
fn fill_from<F: Files>(
    files: &mut F,
    name: &str,
    from: u32,
    len: u32,
    fill: Option<u8>,
) -> Result<(), DevError>
    requires there { IsThere (F.state files.old) name.now }
    requires order { from ≤ len }
    requires long { WhereTold (F.state files.old) name.now (λ bytes. length bytes ≡ BLOCK_SIZE * len) }
    ensures { Served name.now (BytesBecame (with_fill fill from)) result (F.state files.old) (F.state files.new) }
{
    match fill {
        None => Ok(()),
        Some(byte) => fill_blocks(files, name, from, len, byte),
    }
}

/// Fills a file from a block on, and syncs it.
fn fill_through<F: Files>(
    files: &mut F,
    name: &str,
    from: u32,
    len: u32,
    fill: Option<u8>,
) -> Result<(), DevError>
    requires there { IsThere (F.state files.old) name.now }
    requires order { from ≤ len }
    requires long { WhereTold (F.state files.old) name.now (λ bytes. length bytes ≡ BLOCK_SIZE * len) }
    ensures { Served name.now (λ o p. p ≡ option_map (synced_with (with_fill fill from)) o) result
        (F.state files.old) (F.state files.new) }
{
    fill_from(files, name, from, len, fill)?;
    sync(files, name)
}

/// Cuts a file to so many blocks, fills it from one on, and syncs it.
pub fn cut_through<F: Files>(
    files: &mut F,
    name: &str,
    from: u32,
    len: u32,
    fill: Option<u8>,
) -> Result<(), DevError>
    requires there { IsThere (F.state files.old) name.now }
    requires order { from ≤ len }
    ensures { Served name.now (λ o p. p ≡ option_map (cut_file from len fill) o) result
        (F.state files.old) (F.state files.new) }
{
    resize(files, name, BLOCK_SIZE as u64 * len as u64)?;
    fill_through(files, name, from, len, fill)
}

/// Writes a block over the one of a file with this number, where that has a flag.
fn put_block<F: Files>(
    files: &mut F,
    name: &str,
    i: usize,
    flag: bool,
    block: &[u8; 4096],
) -> Result<(), DevError>
    requires there { IsThere (F.state files.old) name.now }
    requires within { WhereTold (F.state files.old) name.now (λ bytes. BLOCK_SIZE * i ≤ length bytes) }
    requires small { i ≤ MAX_BLOCKS }
    ensures { Served name.now (λ o p. p ≡ option_map (block_put flag i block.now) o) result
        (F.state files.old) (F.state files.new) }
{
    if !flag {
        return Ok(());
    }
    write(files, name, BLOCK_SIZE as u64 * i as u64, block)
}

/// Writes a byte over the blocks of a file that have a flag.
fn fill_flagged<F: Files>(
    files: &mut F,
    name: &str,
    flags: &Vec<bool>,
    byte: u8,
) -> Result<(), DevError>
    requires there { IsThere (F.state files.old) name.now }
    requires long { WhereTold (F.state files.old) name.now
        (λ bytes. BLOCK_SIZE * length flags.now.items ≤ length bytes) }
    requires small { length flags.now.items ≤ MAX_BLOCKS }
    ensures { Served name.now (BytesBecame (with_filled_blocks byte flags.now.items)) result
        (F.state files.old) (F.state files.new) }
{
    let block = block_of(byte);
    for i in 0..flags.len() {
        put_block(files, name, i, flags[i], &block)?;
    }
    Ok(())
}

/// Where a byte is given, writes it over the blocks of a file that have a flag.
fn fill_unflushed<F: Files>(
    files: &mut F,
    name: &str,
    flags: &Vec<bool>,
    fill: Option<u8>,
) -> Result<(), DevError>
    requires there { IsThere (F.state files.old) name.now }
    requires long { WhereTold (F.state files.old) name.now
        (λ bytes. BLOCK_SIZE * length flags.now.items ≤ length bytes) }
    requires small { length flags.now.items ≤ MAX_BLOCKS }
    ensures { Served name.now (BytesBecame (with_fill_unflushed fill flags.now.items)) result
        (F.state files.old) (F.state files.new) }
{
    match fill {
        None => Ok(()),
        Some(byte) => fill_flagged(files, name, flags, byte),
    }
}

/// Fills the blocks of a file that have a flag, and syncs it.
pub fn scrub_through<F: Files>(
    files: &mut F,
    name: &str,
    flags: &Vec<bool>,
    fill: Option<u8>,
) -> Result<(), DevError>
    requires there { IsThere (F.state files.old) name.now }
    requires long { WhereTold (F.state files.old) name.now
        (λ bytes. BLOCK_SIZE * length flags.now.items ≤ length bytes) }
    requires small { length flags.now.items ≤ MAX_BLOCKS }
    ensures { Served name.now
        (λ o p. p ≡ option_map (synced_with (with_fill_unflushed fill flags.now.items)) o) result
        (F.state files.old) (F.state files.new) }
{
    fill_unflushed(files, name, flags, fill)?;
    sync(files, name)
}
