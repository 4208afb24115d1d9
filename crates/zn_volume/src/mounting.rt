// Mounts.
ghost use Rattle.std.specs.Prelude.{◌≡◌, List, length, false, true, Ok, IfOk, IfErr, vec_capacity};
ghost use Rattle.zn_truth.specs.declared.Kind.{Kind as TheKind};
ghost use Rattle.zn_truth.specs.declared.Shape.{Shape as TheShape};
ghost use Rattle.zn_truth.specs.Truth.{Truth, geometry};
ghost use Rattle.zn_model.specs.declared.files.MountOpts.{MountOpts as TheMountOpts};
ghost use Rattle.zn_model.specs.Looks.{all_infos};
ghost use Rattle.zn_model.specs.Mounting.{fresh_inodes, fresh_handles, fresh_queue};
ghost use Rattle.zn_model.specs.ZoneFiles.{layout_of, files_of};
ghost use Rattle.zn_volume.specs.Mounts.{IsMounted, MountCause};
ghost use Rattle.zn_truth.specs.World.{geometry_of};
ghost use Rattle.zn_volume.specs.MountSteps.{ArePrepared, mount_orders, Finds};
ghost use Rattle.zn_volume.specs.VolumeState.{Agrees};

use crate::commands::carry_out;
use crate::prepared::{Files, Room, take_room};
use crate::volume::Volume;
use std::alloc::Global;
use zn_device::Zoned;
use zn_handle::Handles;
use zn_inode::Inodes;
use zn_model::{MountError, MountOpts};
use zn_queue::Queue;
use zn_super::Super;
use zn_truth::ZoneInfo;

/// A device that could not be mounted, and why.
#[derive(Drop)]
pub struct MountFail<D> {
    pub dev: D,
    pub why: MountError,
}

/// The files with aggregation or without it.
fn chosen(single: Files, joined: Files, aggr: bool) -> Files
    ensures { (kinds : List TheKind) (zones : TheShape) → ArePrepared kinds false zones single.inodes single.handles →
        ArePrepared kinds true zones joined.inodes joined.handles →
        ArePrepared kinds aggr zones result.inodes result.handles }
{
    if aggr { joined } else { single }
}

/// What a volume keeps besides its device and options.
#[derive(Drop)]
struct Parts {
    super_block: Super,
    inodes: Inodes,
    handles: Handles,
    queue: Queue,
    infos: Vec<ZoneInfo>,
    scratch: Vec<u8>,
}

/// The files that the super block asks for, with what a mount shows of them after the report in their room.
fn filled<D: Zoned>(dev: &D, room: Room, super_block: Super) -> Parts
    requires single { let g = geometry_of (D.state dev.now).world in
        ArePrepared g.kinds false g.shape room.single.inodes room.single.handles }
    requires joined { let g = geometry_of (D.state dev.now).world in
        ArePrepared g.kinds true g.shape room.joined.inodes room.joined.handles }
    requires infos { length room.infos.items ≡ length (geometry_of (D.state dev.now).world).kinds }
    ensures inodes { (t : Truth) → geometry t ≡ geometry_of (D.state dev.now).world → room.infos.items ≡ all_infos t →
        result.inodes ≡ fresh_inodes t (layout_of (geometry t).kinds super_block.aggr_cnv) }
    ensures fresh { result.handles.handles ≡ fresh_handles }
    ensures cnv { result.handles.cnv ≡ length result.inodes.layout.cnv }
    ensures known { result.handles.files ≡ length (files_of result.inodes.layout) }
    ensures queue { result.queue ≡ room.queue }
    ensures infos { result.infos ≡ room.infos }
    ensures scratch { result.scratch ≡ room.scratch }
    ensures super_block { result.super_block ≡ super_block }
{
    let Room {
        single,
        joined,
        queue,
        infos,
        scratch,
    } = room;
    let Files {
        mut inodes,
        handles,
    } = chosen(single, joined, super_block.aggr_cnv);
    inodes.mount(&infos);
    Parts {
        super_block,
        inodes,
        handles,
        queue,
        infos,
        scratch,
    }
}

/// All memory, and then the commands of a mount.
fn take_parts<D: Zoned>(alloc: Global, dev: &mut D) -> Result<Parts, MountError>
    requires unspoilt { (D.state dev.old).spoilt ≡ false }
    ensures found { IfOk result (λ p. Finds mount_orders (Ok p.super_block) (D.state dev.old) (D.state dev.new)) }
    ensures inodes { let t = (D.state dev.old).world.truth in
        IfOk result (λ p. p.inodes ≡ fresh_inodes t (layout_of (geometry t).kinds p.super_block.aggr_cnv)) }
    ensures handles { IfOk result (λ p. p.handles.handles ≡ fresh_handles) }
    ensures queue { IfOk result (λ p. p.queue.queue ≡ fresh_queue) }
    ensures agrees { IfOk result (λ p. Agrees (D.state dev.new).world p.inodes p.handles p.queue.queue.queued
        (length p.infos.items) (vec_capacity p.scratch)) }
    ensures failed { IfErr result (λ why. (opts : TheMountOpts) →
        MountCause opts why (D.state dev.old) (D.state dev.new)) }
{
    let Ok(mut room) = take_room(alloc, dev) else {
        return Err(MountError::Memory);
    };
    let super_block = carry_out(dev, &mut room.infos, &mut room.scratch)?;
    Ok(filled(dev, room, super_block))
}

impl<D: Zoned + Drop> Volume<D> {
    /// Mounts a formatted device: a report of all its zones, a read of its super block, and a close of each good zone
    /// that is explicitly open. All memory that the volume needs is taken here, before the first command.
    ///
    /// `NotFormatted` where zone 0 is sequential and not full, or its first two blocks are no super block; `IoError`
    /// where a command fails, `PowerLost` without power, `Broken` and `Memory` as the device answers; and `Memory` for
    /// want of it, with the device as it was.
    pub fn mount(alloc: Global, dev: D, opts: MountOpts) -> Result<Volume<D>, MountFail<D>>
        requires unspoilt { (D.state dev).spoilt ≡ false }
        ensures ok { IfOk result (λ v. IsMounted opts (D.state dev) v) }
        ensures failed { IfErr result (λ e. MountCause opts e.why (D.state dev) (D.state e.dev)) }
    {
        let mut dev = dev;
        match take_parts(alloc, &mut dev) {
            Ok(parts) => Ok(Volume {
                dev,
                policy: opts.policy,
                explicit_open: opts.explicit_open,
                super_block: parts.super_block,
                inodes: parts.inodes,
                handles: parts.handles,
                queue: parts.queue,
                infos: parts.infos,
                scratch: parts.scratch,
            }),
            Err(why) => Err(MountFail { dev, why }),
        }
    }
}
