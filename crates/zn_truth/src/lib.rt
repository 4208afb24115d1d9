//! What a zoned device holds, what commands, faults and losses of power make of it, and laws over that.
//! The definitions stand in `specs/`.
#![tactic(auto)]

pub mod cases;
mod cuts;
pub mod failure_laws;
pub mod laws;
mod limits;
pub mod loss_laws;
pub mod order_laws;

pub use cuts::Cuts;
pub use limits::{BLOCK_SIZE, MAX_BLOCKS, MAX_CUTS, MAX_FAULTS, MAX_ZONES, is_reached};

/// The number of a zone of the device, from 0 on.
#[derive(Clone, Copy, Debug, PartialEq, Eq, PartialOrd, Ord)]
pub struct ZoneNo(pub u32);

/// The kind of a zone, which never changes.
#[derive(Clone, Copy, Debug, PartialEq, Eq)]
pub enum Kind {
    /// Written in place, at any block.
    Conventional,
    /// Written at its write pointer alone.
    Sequential,
}

/// The condition of a zone. Each is worse than the one before, and a zone never gets better.
#[derive(Clone, Copy, Debug, PartialEq, Eq, PartialOrd, Ord)]
pub enum Cond {
    Good,
    ReadOnly,
    Offline,
}

/// What all zones of a device share. Sizes are in blocks of 4,096 bytes, and a limit of 0 is no limit.
#[derive(Clone, Copy, Debug, PartialEq, Eq)]
pub struct Shape {
    /// The blocks from one zone's start to the next one's: what a conventional zone has room for.
    pub zone_blocks: u32,
    /// The blocks that a sequential zone has room for.
    pub zone_capacity: u32,
    /// The greatest number of open zones.
    pub max_open: u32,
    /// The greatest number of active zones.
    pub max_active: u32,
}

/// What a report tells of a zone.
#[derive(Clone, Copy, Debug, PartialEq, Eq)]
pub struct ZoneInfo {
    pub cond: Cond,
    /// The blocks that the zone holds: up to the write pointer, or all of a conventional zone.
    pub held: u32,
    /// Whether the zone is explicitly open.
    pub explicit: bool,
}

/// A command that manages a sequential zone.
#[derive(Clone, Copy, Debug, PartialEq, Eq)]
pub enum ZoneOp {
    Open,
    Close,
    Reset,
    Finish,
}

/// The kind of a command to a device, as a scripted fault names it.
#[derive(Clone, Copy, Debug, PartialEq, Eq)]
pub enum Command {
    Read,
    Write,
    Reset,
    Finish,
    Flush,
    Open,
    Close,
    Report,
}

/// Why a device did not do a command.
#[derive(Clone, Copy, Debug, PartialEq, Eq)]
pub enum DevError {
    ReadOnly,
    Offline,
    /// A sequential write that does not begin at the write pointer.
    Unaligned,
    TooManyActive,
    TooManyOpen,
    /// A read past the write pointer.
    BeyondWp,
    /// A fault of the device.
    Fault,
    PowerLost,
    /// What the device is kept in has failed.
    Broken,
    Memory,
}

/// The zones that a command names: `count` of them from `first` on, or all.
#[derive(Clone, Copy, Debug, PartialEq, Eq)]
pub struct Span {
    pub all: bool,
    pub first: u32,
    pub count: u32,
}

/// A fault that waits for a command of this kind on this zone.
#[derive(Clone, Copy, Debug, PartialEq, Eq)]
pub struct FaultSpec {
    pub zone: ZoneNo,
    pub command: Command,
    /// How many blocks of a write are carried out, or what a flush leaves of the zone.
    pub keep: Option<u32>,
}

/// What a loss of power leaves of what is not durable: the blocks that zones are cut to, and a byte that
/// takes the place of each byte that was not durable.
#[derive(Drop)]
pub struct LossSpec {
    pub cuts: Cuts,
    pub fill: Option<u8>,
}

/// A loss of power that waits for a command of this kind on this zone.
#[derive(Drop)]
pub struct Armed {
    pub zone: ZoneNo,
    pub command: Command,
    /// Whether a reset or finish is carried out before the power goes.
    pub carried_out: bool,
    pub loss: LossSpec,
}

/// Why a scripted fault, a turn of condition or a loss of power is refused.
#[derive(Clone, Copy, Debug, PartialEq, Eq)]
pub enum InjectError {
    BadFault,
    TooManyFaults,
    PowerLost,
    Broken,
    Memory,
}
