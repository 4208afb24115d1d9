// A session.
ghost use Rattle.std.specs.Prelude.{◌≡◌, ◌<◌, ◌+◌, ◌^◌, ℕ, List, length, false, Ok, Some, IfOk, IfErr, IsSome, vec_capacity, ◌≤◌};
ghost use Rattle.zn_lines.specs.Session.{line_now, line_step};
ghost use Rattle.zn_lines.specs.Table.{no_numbers};
ghost use Rattle.zn_io.specs.declared.reading.TheConstants.{SCRATCH};
ghost use Rattle.zn_run.specs.States.{state_of};
ghost use Rattle.zn_run.specs.Steps.{Stepped};
ghost use Rattle.zn_truth.specs.World.{geometry_of};
ghost use Rattle.zn_script.specs.Data.{CallFits};
ghost use Rattle.zn_script.specs.Meant.{line_meant};
ghost use Rattle.zn_session.specs.Replies.{kept_as, kept_in, text_of, IsWritable};
ghost use Rattle.zn_session.specs.declared.room.ZoneTold.{ZoneTold as TheZoneTold};
ghost use Rattle.zn_session.specs.SessionState.{held_by, begun, machine_of, zones_in, AreNumbered, HasRoom, used_on};
ghost use Rattle.zn_session.specs.Steps.{IsCall, Means, Performed, ends, is_starved, ended_by, told_by, stops, Said};

use crate::calls;
use crate::formats::mkfs;
use crate::held::{Held, breaks, device, drop_unpowered, into_device, mount, umount};
use crate::injecting::{fault, power_loss, power_loss_in, power_on, turn};
use crate::replies::{Reply, write_reply};
use crate::reporting::zones;
use crate::room::{Room, take_room};
use std::alloc::{AllocError, Global};
use std::marker::Model;
use zn_base::Sink;
use zn_device::{Injects, Zoned};
use zn_lines::MAX_NUMBERS;
use zn_model::{FormatError, Handle, MountError, Refusal};
use zn_run::{Machine, Step};
use zn_runs::RunBuffer;
use zn_script::{Line, parse};
use zn_truth::InjectError;

/// A session on a device. It begins without a volume; lines format the device, mount and unmount it. Only `new`, lines
/// that format or mount, and the device's commands take memory.
#[derive(Drop)]
pub struct Session<D: Injects + Drop> {
    alloc: Global,
    /// The device, bare or with a volume. It is there but while a line has it in hand.
    held: Option<Held<D>>,
    /// The handle of each number.
    numbers: Vec<Option<Handle>>,
    /// Room for the bytes of a call, and for a report of all zones.
    room: Room,
    /// Where the runs of a read are put.
    runs: RunBuffer,
    /// What a format without an identifier makes one of.
    entropy: [u8; 16],
    /// Whether no further line may come.
    is_over: bool,
    /// How many lines it was given. No more handles were opened and tickets given.
    steps: u64,
}

impl<D: Injects + Drop> Model for Session<D> {
    ghost use Rattle.std.specs.Prelude.{length, is_some};
    ghost use Rattle.zn_session.specs.SessionState.{SessionState, IsSession, held_by, session_of};

    ghost Value = { SessionState };

    ghost view = { λ s. session_of (held_by D.state s.held) s.numbers.items s.entropy s.is_over s.steps };

    ghost invariant = { λ s.
        IsSession (session_of (held_by D.state s.held) s.numbers.items s.entropy s.is_over s.steps)
        (is_some s.held) s.room };
}

/// A device for which there was no memory to begin a session, as it was.
#[derive(Drop)]
pub struct SessionFail<D> {
    pub dev: D,
}

/// No handle for each number.
fn no_handles(alloc: Global) -> Result<Vec<Option<Handle>>, AllocError>
    ensures { IfOk result (λ numbers. numbers.items ≡ no_numbers) }
{
    let mut numbers = Vec::new(alloc);
    for _ in 0..MAX_NUMBERS {
        numbers.push(None)?;
    }
    Ok(numbers)
}

/// All the memory that a session keeps: the handles of its numbers, and room for its calls, reports and replies.
fn take_parts<D: Zoned>(
    alloc: Global,
    dev: &D,
) -> Result<(Vec<Option<Handle>>, Room, RunBuffer), AllocError>
    ensures numbers { IfOk result (λ parts. parts.0.items ≡ no_numbers) }
    ensures room { IfOk result (λ parts. HasRoom (length (geometry_of (D.state dev.now).world).kinds) parts.1) }
{
    let numbers = no_handles(alloc)?;
    let room = take_room(alloc, dev)?;
    let runs = RunBuffer::new(alloc)?;
    Ok((numbers, room, runs))
}

/// Whether a reply ends the run.
fn ends(reply: &Reply<'_>) -> bool
    ensures { result ≡ ends reply.now }
{
    matches!(
        reply,
        Reply::Refused(Refusal::Broken | Refusal::Memory)
            | Reply::FormatRefused(FormatError::Broken | FormatError::Memory)
            | Reply::MountRefused(MountError::Broken | MountError::Memory)
            | Reply::InjectRefused(InjectError::Broken | InjectError::Memory)
    )
}

/// Whether a reply tells want of memory.
fn tells_memory(reply: &Reply<'_>) -> bool
    ensures { result ≡ is_starved (told_by reply.now) }
{
    matches!(
        reply,
        Reply::Refused(Refusal::Memory)
            | Reply::FormatRefused(FormatError::Memory)
            | Reply::MountRefused(MountError::Memory)
            | Reply::InjectRefused(InjectError::Memory)
    )
}

/// How a reply ends a run, by whether what the device is kept in failed.
fn ending(has_failed: bool, reply: &Reply<'_>) -> Step
    ensures { result ≡ ended_by has_failed (told_by reply.now) }
{
    if !has_failed && tells_memory(reply) {
        Step::Memory
    } else {
        Step::Broken
    }
}

/// Whether no line may follow.
fn stops(step: Step) -> bool
    ensures { result ≡ stops step }
{
    !matches!(step, Step::Done)
}

/// Writes the text of a reply.
fn say<K: Sink>(sink: &mut K, reply: &Reply<'_>, room: &Room, runs: &mut RunBuffer) -> Step
    requires { IsWritable reply.now (kept_in room.now) }
    ensures { Said result (text_of reply.now (kept_in room.now)) (K.state sink.old) (K.state sink.new) }
{
    match write_reply(sink, reply, room, runs) {
        Ok(()) => Step::Done,
        Err(_) => Step::SinkFault,
    }
}

/// Does what a line asks of a volume, where one is mounted.
fn call<'a, D: Zoned + Drop>(
    held: &mut Option<Held<D>>,
    numbers: &mut Vec<Option<Handle>>,
    buffer: &mut Vec<u8>,
    line: &Line<'a>,
) -> Reply<'a>
    requires call { IsCall line.now }
    requires fits { CallFits line.now }
    requires room { SCRATCH ≤ vec_capacity buffer.old }
    requires there { IsSome held.old }
    requires unspoilt { (held_by D.state held.old).device.spoilt ≡ false }
    requires few { used_on (held_by D.state held.old).volume < 2 ^ 63 }
    requires numbered { AreNumbered (held_by D.state held.old) numbers.old.items }
    ensures means { (zones : List TheZoneTold) (entropy : List ℕ) → Means line_now (line_meant line.now) result
        (kept_as buffer.new.items zones) entropy
        (held_by D.state held.old) (held_by D.state held.new) numbers.old.items numbers.new.items }
    ensures room { SCRATCH ≤ vec_capacity buffer.new }
    ensures there { IsSome held.new }
{
    match held {
        Some(Held::Mounted(volume)) => calls::answer(volume, numbers, buffer, line),
        Some(Held::Bare(_)) => Reply::NotMounted,
        None => Reply::NotMounted,
    }
}

/// Does what a line asks for.
fn answer<'a, D: Injects + Drop>(
    alloc: Global,
    held: &mut Option<Held<D>>,
    numbers: &mut Vec<Option<Handle>>,
    room: &mut Room,
    entropy: &[u8; 16],
    line: &Line<'a>,
) -> Reply<'a>
    requires fits { CallFits line.now }
    requires room { HasRoom (zones_in (held_by D.state held.old)) room.old }
    requires there { IsSome held.old }
    requires unspoilt { (held_by D.state held.old).device.spoilt ≡ false }
    requires few { used_on (held_by D.state held.old).volume < 2 ^ 63 }
    requires numbered { AreNumbered (held_by D.state held.old) numbers.old.items }
    ensures means { Means line_now (line_meant line.now) result (kept_in room.new) entropy.now
        (held_by D.state held.old) (held_by D.state held.new) numbers.old.items numbers.new.items }
    ensures room { HasRoom (zones_in (held_by D.state held.old)) room.new }
    ensures there { IsSome held.new }
{
    match line {
        Line::Mkfs(words) => mkfs(alloc, held, entropy, words),
        Line::Mount(text) => mount(alloc, held, *text),
        Line::Umount => umount(held, numbers),
        Line::Fault(zone, command, keep) => fault(held, *zone, *command, *keep),
        Line::Turn(zone, to) => turn(held, *zone, *to),
        Line::Zones => zones(held, room),
        Line::PowerLoss(fill, words) => power_loss(held, *fill, words),
        Line::PowerLossIn(zone, command, done, fill, words) => {
            power_loss_in(held, *zone, *command, *done, *fill, words)
        }
        Line::PowerOn => power_on(held),
        _ => call(held, numbers, &mut room.bytes, line),
    }
}

/// Does what a line asks for, and what its end does.
fn carry_out<'a, D: Injects + Drop>(
    alloc: Global,
    held: &mut Option<Held<D>>,
    numbers: &mut Vec<Option<Handle>>,
    room: &mut Room,
    entropy: &[u8; 16],
    line: &Line<'a>,
) -> Reply<'a>
    requires fits { CallFits line.now }
    requires room { HasRoom (zones_in (held_by D.state held.old)) room.old }
    requires there { IsSome held.old }
    requires unspoilt { (held_by D.state held.old).device.spoilt ≡ false }
    requires few { used_on (held_by D.state held.old).volume < 2 ^ 63 }
    requires numbered { AreNumbered (held_by D.state held.old) numbers.old.items }
    ensures means { Means line_step (line_meant line.now) result (kept_in room.new) entropy.now
        (held_by D.state held.old) (held_by D.state held.new) numbers.old.items numbers.new.items }
    ensures room { HasRoom (zones_in (held_by D.state held.old)) room.new }
    ensures there { IsSome held.new }
{
    let reply = answer(alloc, held, numbers, room, entropy, line);
    if !ends(&reply) {
        drop_unpowered(held, numbers);
    }
    reply
}

impl<D: Injects + Drop> Session<D> {
    /// A session on a device, on which nothing is mounted. It is refused for want of memory alone.
    pub fn new(alloc: Global, dev: D, entropy: [u8; 16]) -> Result<Session<D>, SessionFail<D>>
        requires unspoilt { (D.state dev).spoilt ≡ false }
        ensures begun { IfOk result (λ s. s ≡ begun (D.state dev) entropy) }
        ensures failed { IfErr result (λ fail. D.state fail.dev ≡ D.state dev) }
    {
        let Ok((numbers, room, runs)) = take_parts(alloc, &dev) else {
            return Err(SessionFail { dev });
        };
        Ok(Session {
            alloc,
            held: Some(Held::Bare(dev)),
            numbers,
            room,
            runs,
            entropy,
            is_over: false,
            steps: 0,
        })
    }

    /// As long as lines may come, no command of the device answered `Broken` or `Memory`.
    pub fn sound(&self)
        ensures { self.now.over ≡ false → self.now.held.device.spoilt ≡ false }
    {
        let _ = &self.alloc;
    }

    /// The device.
    pub fn device(&self) -> &D
        ensures { D.state result.now ≡ self.now.held.device }
    {
        device(&self.held)
    }

    /// Gives the device back. No command is issued; what was mounted is gone.
    pub fn into_device(self) -> D
        ensures { D.state result ≡ self.held.device }
    {
        let Session { held, .. } = self;
        into_device(held)
    }

    /// Carries out a line of the grammar without writing its reply. It answers whether lines may follow: not where the
    /// device is broken, or where memory is wanting.
    pub fn perform(&mut self, line: &Line<'_>) -> bool
        requires fits { CallFits line.now }
        requires goes_on { self.old.over ≡ false }
        requires few { self.old.steps < 2 ^ 62 }
        ensures { Performed result (line_meant line.now) self.old self.new }
    {
        self.steps += 1;
        let reply = carry_out(
            self.alloc,
            &mut self.held,
            &mut self.numbers,
            &mut self.room,
            &self.entropy,
            line,
        );
        self.is_over = ends(&reply);
        !self.is_over
    }

    /// Carries out a line of the grammar, and writes its reply.
    pub fn carry_out<K: Sink>(&mut self, line: &Line<'_>, sink: &mut K) -> Step
        requires fits { CallFits line.now }
        requires goes_on { self.old.over ≡ false }
        requires few { self.old.steps < 2 ^ 62 }
        ensures { Stepped result (Ok (Some (line_meant line.now)))
            (state_of (machine_of self.old) (K.state sink.old)) (state_of (machine_of self.new) (K.state sink.new)) }
    {
        self.steps += 1;
        let before = breaks(&self.held);
        let reply = carry_out(
            self.alloc,
            &mut self.held,
            &mut self.numbers,
            &mut self.room,
            &self.entropy,
            line,
        );
        if ends(&reply) {
            self.is_over = true;
            return ending(breaks(&self.held) != before, &reply);
        }
        let step = say(sink, &reply, &self.room, &mut self.runs);
        self.is_over = stops(step);
        step
    }

    /// Counts a line that asks for nothing.
    fn pass(&mut self, step: Step) -> Step
        requires { self.old.steps < 2 ^ 62 }
        ensures step { result ≡ step }
        ensures counted { self.new ≡ record self.old { steps = self.old.steps + 1 } }
    {
        self.steps += 1;
        step
    }
}

impl<D: Injects + Drop> Machine for Session<D> {
    ghost state = { machine_of };

    fn step<K: Sink>(&mut self, line: &[u8], sink: &mut K) -> Step {
        match parse(line) {
            Ok(Some(line)) => self.carry_out(&line, sink),
            Ok(None) => self.pass(Step::Done),
            Err(column) => self.pass(Step::BadLine(column)),
        }
    }
}
