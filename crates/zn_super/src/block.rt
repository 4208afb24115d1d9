// The super block, and its block of 4,096 bytes.
ghost use Rattle.std.specs.Prelude.{◌≡◌, ◌+◌, ◌-◌, ◌*◌, ◌<◌, ◌≤◌, ◌++◌, length, take, drop, replicate, Ok, IsTrue, IfOk, IfSome};
ghost use Rattle.std.specs.Int.{w32, w64, to_le_bytes};
ghost use Rattle.zn_truth.specs.declared.limits.TheConstants.{BLOCK_SIZE};
ghost use Rattle.zn_model.specs.SuperBlock.{IsSuperBlock, is_label, padded, features, encoded, decoded, fields_of, bad_field, number_at, features_of};
ghost use Rattle.zn_model.specs.Mounting.{super_block_of};
ghost use Rattle.zn_super.specs.Copies.{AreCopies};

use crate::label::{LABEL_SIZE, Label};
use crate::scan::{first_bad_label, first_difference, first_nonzero_from};
use byteorder::{ByteOrder, LittleEndian};
use std::marker::Model;
use zn_model::SuperError;
use zn_truth::BLOCK_SIZE;

const MAGIC: u32 = 0x5A4F_4653;

const VERSION: u32 = 1;

// Where each field begins.
const MAGIC_AT: usize = 0;

const VERSION_AT: usize = 4;

const LABEL_AT: usize = 8;

const UUID_AT: usize = 72;

const FEATURES_AT: usize = 88;

const UID_AT: usize = 96;

const GID_AT: usize = 100;

const PERM_AT: usize = 104;

const ZEROS_AT: usize = 108;

const UUID_SIZE: usize = 16;

/// The greatest permissions, of three octal digits.
const MOST_PERM: u32 = 0o777;

/// What the super block of a formatted device says.
#[derive(Clone, Copy, Debug, PartialEq, Eq)]
pub struct Super {
    pub label: Label,
    pub uuid: [u8; UUID_SIZE],
    /// Whether conventional zones are joined to one file.
    pub aggr_cnv: bool,
    /// The owner, group and permissions of files.
    pub uid: u32,
    pub gid: u32,
    pub perm: u32,
}

impl Model for Super {
    ghost use Rattle.zn_model.specs.SuperBlock.{SuperBlock};

    ghost Value = { SuperBlock };

    ghost view = { λ s. record {
      label = s.label;
      uuid = s.uuid;
      aggr_cnv = s.aggr_cnv;
      uid = s.uid;
      gid = s.gid;
      perm = s.perm;
    } };

    ghost inverse = { λ s. record {
      label = s.label;
      uuid = s.uuid;
      aggr_cnv = s.aggr_cnv;
      uid = s.uid;
      gid = s.gid;
      perm = s.perm;
    } };
}

// ---- writing

/// Writes bytes from a place on up to another, behind what stands before them.
fn put_bytes(out: &mut [u8; BLOCK_SIZE], from: usize, to: usize, bytes: &[u8])
    requires length { from + length bytes.now ≡ to }
    requires within { to ≤ BLOCK_SIZE }
    ensures { take to out.new ≡ take from out.old ++ bytes.now }
{
    out[from..to].copy_from_slice(bytes);
}

/// Writes a number of four bytes to a place, behind what stands before it.
fn put_number(out: &mut [u8; BLOCK_SIZE], at: usize, number: u32)
    requires { at + 4 ≤ BLOCK_SIZE }
    ensures { take (at + 4) out.new ≡ take at out.old ++ to_le_bytes w32 number }
{
    LittleEndian::write_u32(&mut out[at..], number);
}

/// Writes a number of eight bytes to a place, behind what stands before it.
fn put_wide_number(out: &mut [u8; BLOCK_SIZE], at: usize, number: u64)
    requires { at + 8 ≤ BLOCK_SIZE }
    ensures { take (at + 8) out.new ≡ take at out.old ++ to_le_bytes w64 number }
{
    LittleEndian::write_u64(&mut out[at..], number);
}

/// Writes a label to its place.
fn put_label(out: &mut [u8; BLOCK_SIZE], label: &Label)
    ensures label { IsTrue (is_label label.now) }
    ensures front { take UUID_AT out.new ≡ take LABEL_AT out.old ++ padded LABEL_SIZE label.now }
{
    put_bytes(out, LABEL_AT, UUID_AT, label.as_field());
}

/// Writes the features to their place.
fn put_features(out: &mut [u8; BLOCK_SIZE], aggr_cnv: bool)
    ensures { take UID_AT out.new ≡ take FEATURES_AT out.old ++ to_le_bytes w64 (features aggr_cnv) }
{
    put_wide_number(out, FEATURES_AT, if aggr_cnv { 1 } else { 0 });
}

/// Writes zeros from a place on.
fn put_zeros(out: &mut [u8; BLOCK_SIZE], at: usize)
    requires { at ≤ BLOCK_SIZE }
    ensures { out.new ≡ take at out.old ++ replicate (BLOCK_SIZE - at) 0 }
{
    out[at..].fill(0);
}

/// Writes the fields of a super block, one behind another.
fn put_fields(
    out: &mut [u8; BLOCK_SIZE],
    label: &Label,
    uuid: &[u8; UUID_SIZE],
    aggr_cnv: bool,
    uid: u32,
    gid: u32,
    perm: u32,
)
    ensures block { out.new ≡ encoded (record {
      label = label.now;
      uuid = uuid.now;
      aggr_cnv = aggr_cnv;
      uid = uid;
      gid = gid;
      perm = perm;
    }) }
    ensures sound { perm ≤ 0o777 → IsSuperBlock (record {
      label = label.now;
      uuid = uuid.now;
      aggr_cnv = aggr_cnv;
      uid = uid;
      gid = gid;
      perm = perm;
    }) }
{
    put_number(out, MAGIC_AT, MAGIC);
    put_number(out, VERSION_AT, VERSION);
    put_label(out, label);
    put_bytes(out, UUID_AT, FEATURES_AT, uuid);
    put_features(out, aggr_cnv);
    put_number(out, UID_AT, uid);
    put_number(out, GID_AT, gid);
    put_number(out, PERM_AT, perm);
    put_zeros(out, ZEROS_AT);
}

// ---- reading

/// The number of four bytes at a place.
fn number_at(block: &[u8], at: usize) -> u32
    requires { at + 4 ≤ length block.now }
    ensures { result ≡ number_at block.now at }
{
    LittleEndian::read_u32(&block[at..])
}

/// The number whose bits are the features.
fn features_of(block: &[u8]) -> u64
    requires { length block.now ≡ BLOCK_SIZE }
    ensures { result ≡ features_of block.now }
{
    LittleEndian::read_u64(&block[FEATURES_AT..])
}

/// The identifier of a block.
fn uuid_of(block: &[u8]) -> [u8; UUID_SIZE]
    requires { length block.now ≡ BLOCK_SIZE }
    ensures { result ≡ take 16 (drop 72 block.now) }
{
    let mut uuid = [0; UUID_SIZE];
    uuid.copy_from_slice(&block[UUID_AT..UUID_AT + UUID_SIZE]);
    uuid
}

/// What the fields of a block say.
#[tactic(auto, unfolding(zn_model::specs::SuperBlock::fields_of))]
fn fields_of(block: &[u8]) -> Super
    requires { length block.now ≡ BLOCK_SIZE }
    ensures { result ≡ fields_of block.now }
{
    Super {
        label: Label::in_field(&block[LABEL_AT..LABEL_AT + LABEL_SIZE]),
        uuid: uuid_of(block),
        aggr_cnv: features_of(block) % 2 == 1,
        uid: number_at(block, UID_AT),
        gid: number_at(block, GID_AT),
        perm: number_at(block, PERM_AT),
    }
}

/// The place of the first field that is out of its form.
#[tactic(auto, using(crate::proofs::Blocks::field_refusals))]
fn bad_field(block: &[u8]) -> Option<usize>
    requires { length block.now ≡ BLOCK_SIZE }
    ensures place { result ≡ bad_field block.now }
    ensures within { IfSome result (λ place. place < BLOCK_SIZE) }
{
    if let Some(place) = first_bad_label(&block[LABEL_AT..LABEL_AT + LABEL_SIZE]) {
        return Some(LABEL_AT + place);
    }
    if features_of(block) > 1 {
        return Some(FEATURES_AT);
    }
    if number_at(block, PERM_AT) > MOST_PERM {
        return Some(PERM_AT);
    }
    first_nonzero_from(block, ZEROS_AT)
}

/// The super block of which both blocks are copies, or the first reason why there is none.
#[tactic(auto, using(crate::proofs::Blocks::refusals))]
fn read(first: &[u8], second: &[u8]) -> Result<Super, SuperError>
    requires first { length first.now ≡ BLOCK_SIZE }
    requires second { length second.now ≡ BLOCK_SIZE }
    ensures { result ≡ decoded first.now second.now }
{
    if number_at(first, MAGIC_AT) != MAGIC {
        return Err(SuperError::BadMagic);
    }
    if let Some(place) = first_difference(first, second) {
        return Err(SuperError::CopiesDiffer(place as u32));
    }
    let version = number_at(first, VERSION_AT);
    if version != VERSION {
        return Err(SuperError::BadVersion(version));
    }
    match bad_field(first) {
        Some(place) => Err(SuperError::BadField(place as u32)),
        None => Ok(fields_of(first)),
    }
}

impl Super {
    /// Writes the block of the super block.
    pub fn encode(&self, out: &mut [u8; BLOCK_SIZE])
        requires { self.now.perm ≤ 0o777 }
        ensures block { out.new ≡ encoded self.now }
        ensures back { decoded out.new out.new ≡ Ok self.now }
    {
        put_fields(
            out,
            &self.label,
            &self.uuid,
            self.aggr_cnv,
            self.uid,
            self.gid,
            self.perm,
        );
    }

    /// The super block of which both blocks are copies, or the first reason why there is none.
    pub fn decode(first: &[u8; BLOCK_SIZE], second: &[u8; BLOCK_SIZE]) -> Result<Super, SuperError>
        ensures answer { result ≡ decoded first.now second.now }
        ensures copies { IfOk result (λ s. AreCopies first.now second.now s) }
    {
        read(first, second)
    }

    /// The same of two copies that one read gave, one behind the other.
    pub fn decode_copies(copies: &[u8]) -> Result<Super, SuperError>
        requires { length copies.now ≡ 2 * BLOCK_SIZE }
        ensures answer { result ≡ super_block_of copies.now }
        ensures copies { IfOk result (λ s. AreCopies (take BLOCK_SIZE copies.now) (drop BLOCK_SIZE copies.now) s) }
    {
        read(&copies[..BLOCK_SIZE], &copies[BLOCK_SIZE..])
    }
}
