// The bytes of a zone in memory.
ghost use Rattle.std.specs.Prelude.{◌≡◌, ◌+◌, ◌-◌, ◌*◌, ◌/◌, ◌≤◌, ◌++◌, [], length, take, drop, replicate, IfOk, vec_capacity};
ghost use Rattle.zn_truth.specs.Truth.{room};
ghost use Rattle.zn_truth.specs.Orders.{replaced, placed, written, managed, flushed};
ghost use Rattle.zn_truth.specs.Loss.{turned_by};
ghost use Rattle.zn_truth.specs.Power.{settled, with_filled_blocks, with_fill_unflushed};
ghost use Rattle.zn_truth.specs.Obeying.{IsWhole};
ghost use Rattle.zn_truth.specs.declared.Kind.TheVariants.{Conventional, Sequential};
ghost use Rattle.zn_truth.specs.Fresh.{fresh_zone};
ghost use Rattle.zn_device.specs.Harms.{scrubbed};
ghost use Rattle.zn_device.specs.Stores.{zone_of, Keeps, HasBuffer, held_before};

use std::alloc::{AllocError, Global};
use zn_truth::{BLOCK_SIZE, Cond, Kind, Shape, ZoneInfo, ZoneOp};

/// What is kept of a zone beside its condition and its length.
#[derive(Drop)]
pub struct Store {
    /// The bytes of the blocks that the zone holds. From the start it has the room for all that the zone may come to
    /// hold, so that no command takes memory.
    buffer: Vec<u8>,
    /// How many blocks, from the start, are durable.
    durable: u32,
    /// For each block of a conventional zone, whether it was written since it was last made durable.
    unflushed: Vec<bool>,
}

/// The bytes of a zone to which nothing was written, and the room for all that it may come to hold. That of a
/// sequential zone is not touched until the zone is written.
fn fresh_buffer(alloc: Global, shape: Shape, kind: Kind) -> Result<Vec<u8>, AllocError>
    ensures bytes { IfOk result (λ buffer. buffer.items ≡ (fresh_zone shape kind).bytes) }
    ensures room { IfOk result (λ buffer. BLOCK_SIZE * room shape kind ≤ vec_capacity buffer) }
{
    match kind {
        Kind::Conventional => vec![in alloc; 0; BLOCK_SIZE * shape.zone_blocks as usize],
        Kind::Sequential => Vec::with_capacity(alloc, BLOCK_SIZE * shape.zone_capacity as usize),
    }
}

impl Store {
    /// The store of a zone to which nothing was written.
    pub fn new(alloc: Global, shape: Shape, kind: Kind) -> Result<Store, AllocError>
        ensures zone { IfOk result (λ store. Keeps store (fresh_zone shape kind)) }
        ensures buffer { IfOk result (HasBuffer shape kind) }
    {
        let held = match kind {
            Kind::Conventional => shape.zone_blocks,
            Kind::Sequential => 0,
        };
        Ok(Store {
            buffer: fresh_buffer(alloc, shape, kind)?,
            durable: held,
            unflushed: vec![in alloc; false; held as usize]?,
        })
    }

    /// Reads blocks of a zone, from one on.
    pub fn read(&self, at: u32, out: &mut [u8])
        requires { BLOCK_SIZE * at + length out.old ≤ length self.now.buffer.items }
        ensures { out.new ≡ take (length out.old) (drop (BLOCK_SIZE * at) self.now.buffer.items) }
    {
        let start = BLOCK_SIZE * at as usize;
        out.copy_from_slice(&self.buffer[start..start + out.len()]);
    }

    /// Puts bytes in place, from a block on.
    fn put(&mut self, at: u32, bytes: &[u8])
        requires { BLOCK_SIZE * at + length bytes.now ≤ length self.old.buffer.items }
        ensures bytes { self.new.buffer.items ≡ replaced self.old.buffer.items (BLOCK_SIZE * at) bytes.now }
        ensures buffer { vec_capacity self.new.buffer ≡ vec_capacity self.old.buffer }
        ensures same { self.new ≡ record self.old { buffer = self.new.buffer } }
    {
        let from = BLOCK_SIZE * at as usize;
        self.buffer[from..from + bytes.len()].copy_from_slice(bytes);
    }

    /// Writes to a sequential zone at its end.
    fn append(&mut self, shape: Shape, at: u32, bytes: &[u8])
        requires whole { IsWhole bytes.now }
        requires end { length self.old.buffer.items ≡ BLOCK_SIZE * at }
        requires room { at + length bytes.now / BLOCK_SIZE ≤ shape.zone_capacity }
        requires buffer { HasBuffer shape Sequential self.old }
        ensures zone { (info : ZoneInfo) → info.held ≡ at →
            Keeps self.new (written Sequential shape (zone_of Sequential info self.old) at bytes.now) }
        ensures buffer { HasBuffer shape Sequential self.new }
    {
        self.buffer.extend_from_slice(bytes).unwrap();
        let held = at + (bytes.len() / BLOCK_SIZE) as u32;
        if held == shape.zone_capacity {
            self.durable = held;
        }
    }

    /// Writes to a conventional zone at any place.
    fn replace(&mut self, at: u32, bytes: &[u8])
        requires whole { IsWhole bytes.now }
        requires buffer { BLOCK_SIZE * at + length bytes.now ≤ length self.old.buffer.items }
        requires flags { at + length bytes.now / BLOCK_SIZE ≤ length self.old.unflushed.items }
        ensures zone { (info : ZoneInfo) →
            Keeps self.new (placed Conventional (zone_of Conventional info self.old) at bytes.now) }
        ensures buffer { vec_capacity self.new.buffer ≡ vec_capacity self.old.buffer }
    {
        self.put(at, bytes);
        let first = at as usize;
        self.unflushed[first..first + bytes.len() / BLOCK_SIZE].fill(true);
    }

    /// Writes to a zone from a block on.
    pub fn write(&mut self, shape: Shape, kind: Kind, at: u32, bytes: &[u8])
        requires whole { IsWhole bytes.now }
        requires held { length self.old.buffer.items ≡ BLOCK_SIZE * held_before kind shape at }
        requires room { at + length bytes.now / BLOCK_SIZE ≤ room shape kind }
        requires buffer { HasBuffer shape kind self.old }
        requires flags { kind ≡ Conventional → length self.old.unflushed.items ≡ shape.zone_blocks }
        ensures zone { (info : ZoneInfo) → info.held ≡ held_before kind shape at →
            Keeps self.new (written kind shape (zone_of kind info self.old) at bytes.now) }
        ensures buffer { HasBuffer shape kind self.new }
    {
        match kind {
            Kind::Conventional => self.replace(at, bytes),
            Kind::Sequential => self.append(shape, at, bytes),
        }
    }

    /// Leaves nothing of the bytes of a zone. The room stays.
    fn clear(&mut self)
        ensures bytes { self.new.buffer.items ≡ [] }
        ensures buffer { vec_capacity self.new.buffer ≡ vec_capacity self.old.buffer }
        ensures same { self.new ≡ record self.old { buffer = self.new.buffer; durable = 0 } }
    {
        self.buffer.clear();
        self.durable = 0;
    }

    /// Fills the rest of a sequential zone with zeros.
    fn finish(&mut self, shape: Shape)
        requires buffer { HasBuffer shape Sequential self.old }
        ensures zone { (info : ZoneInfo) → info.held ≤ shape.zone_capacity →
            length self.old.buffer.items ≡ BLOCK_SIZE * info.held →
            Keeps self.new (managed ZoneOp.Finish shape (zone_of Sequential info self.old)) }
        ensures buffer { HasBuffer shape Sequential self.new }
    {
        let room = BLOCK_SIZE * shape.zone_capacity as usize;
        self.buffer.resize(room, 0).unwrap();
        self.durable = shape.zone_capacity;
    }

    /// Opens, closes, resets or finishes a sequential zone.
    pub fn manage(&mut self, shape: Shape, op: ZoneOp)
        requires buffer { HasBuffer shape Sequential self.old }
        ensures zone { (info : ZoneInfo) → info.held ≤ shape.zone_capacity →
            length self.old.buffer.items ≡ BLOCK_SIZE * info.held →
            Keeps self.new (managed op shape (zone_of Sequential info self.old)) }
        ensures buffer { HasBuffer shape Sequential self.new }
    {
        match op {
            ZoneOp::Open | ZoneOp::Close => (),
            ZoneOp::Reset => self.clear(),
            ZoneOp::Finish => self.finish(shape),
        }
    }

    /// Makes all of a zone durable.
    pub fn flush(&mut self, info: ZoneInfo)
        ensures zone { (kind : Kind) → Keeps self.new (flushed (zone_of kind info self.old)) }
        ensures buffer { vec_capacity self.new.buffer ≡ vec_capacity self.old.buffer }
    {
        self.durable = info.held;
        self.unflushed.fill(false);
    }

    /// How many blocks, from the start, are durable.
    pub fn durable(&self) -> u32
        ensures { result ≡ self.now.durable }
    {
        self.durable
    }

    /// Turns a zone to a condition: all of it is durable, or, offline, none is left.
    pub fn turn(&mut self, info: ZoneInfo, to: Cond)
        ensures zone { (kind : Kind) → Keeps self.new (turned_by to (zone_of kind info self.old)) }
        ensures buffer { vec_capacity self.new.buffer ≡ vec_capacity self.old.buffer }
    {
        match to {
            Cond::Good | Cond::ReadOnly => self.flush(info),
            Cond::Offline => {
                self.clear();
                self.unflushed.clear();
            }
        }
    }

    /// Cuts a sequential zone to so many blocks, all of them durable. Where a byte is given, it takes the place of each
    /// byte from block `from` on.
    pub fn settle(&mut self, from: u32, len: u32, fill: Option<u8>)
        requires order { from ≤ len }
        requires held { BLOCK_SIZE * len ≤ length self.old.buffer.items }
        ensures zone { (info : ZoneInfo) →
            Keeps self.new (settled (zone_of Sequential info self.old) from len fill) }
        ensures buffer { vec_capacity self.new.buffer ≡ vec_capacity self.old.buffer }
    {
        self.buffer.truncate(BLOCK_SIZE * len as usize);
        if let Some(byte) = fill {
            self.buffer[BLOCK_SIZE * from as usize..].fill(byte);
        }
        self.durable = len;
    }

    /// Where a byte is given, it takes the place of each byte of the unflushed blocks.
    fn fill_unflushed(&mut self, fill: Option<u8>)
        requires { BLOCK_SIZE * length self.old.unflushed.items ≤ length self.old.buffer.items }
        ensures bytes { self.new.buffer.items
            ≡ with_fill_unflushed fill self.old.unflushed.items self.old.buffer.items }
        ensures buffer { vec_capacity self.new.buffer ≡ vec_capacity self.old.buffer }
        ensures same { self.new ≡ record self.old { buffer = self.new.buffer } }
    {
        if let Some(byte) = fill {
            fill_blocks(&mut self.buffer, &self.unflushed, byte);
        }
    }

    /// Where a byte is given, it takes the place of each byte of the unflushed blocks. None is unflushed any more.
    pub fn scrub(&mut self, fill: Option<u8>)
        requires { BLOCK_SIZE * length self.old.unflushed.items ≤ length self.old.buffer.items }
        ensures zone { (info : ZoneInfo) → Keeps self.new (scrubbed (zone_of Conventional info self.old) fill) }
        ensures buffer { vec_capacity self.new.buffer ≡ vec_capacity self.old.buffer }
    {
        self.fill_unflushed(fill);
        self.unflushed.fill(false);
    }
}

/// Puts the byte in the place of each byte from one place on, up to another.
fn fill_part(buffer: &mut Vec<u8>, from: usize, to: usize, byte: u8)
    requires order { from ≤ to }
    requires within { to ≤ length buffer.old.items }
    ensures bytes { buffer.new.items ≡ take from buffer.old.items ++ replicate (to - from) byte ++ drop to buffer.old.items }
    ensures room { vec_capacity buffer.new ≡ vec_capacity buffer.old }
{
    buffer[from..to].fill(byte);
}

/// Puts the byte in the place of each byte of the blocks that have a flag.
fn fill_blocks(buffer: &mut Vec<u8>, flags: &[bool], byte: u8)
    requires { BLOCK_SIZE * length flags.now ≤ length buffer.old.items }
    ensures bytes { buffer.new.items ≡ with_filled_blocks byte flags.now buffer.old.items }
    ensures room { vec_capacity buffer.new ≡ vec_capacity buffer.old }
{
    for (i, flag) in flags.iter().enumerate() {
        if *flag {
            let from = BLOCK_SIZE * i;
            fill_part(buffer, from, from + BLOCK_SIZE, byte);
        }
    }
}
