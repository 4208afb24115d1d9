// What a mount takes of memory, before it gives the device a command.
ghost use Rattle.std.specs.Prelude.{◌≡◌, ◌*◌, ◌≤◌, length, false, true, IfOk, vec_capacity};
ghost use Rattle.zn_io.specs.declared.reading.TheConstants.{SCRATCH};
ghost use Rattle.zn_truth.specs.declared.limits.TheConstants.{BLOCK_SIZE, MAX_ZONES};
ghost use Rattle.zn_truth.specs.World.{geometry_of};
ghost use Rattle.zn_model.specs.Mounting.{fresh_queue};
ghost use Rattle.zn_volume.specs.MountSteps.{ArePrepared};

use std::alloc::{AllocError, Global};
use zn_device::Zoned;
use zn_handle::Handles;
use zn_inode::Inodes;
use zn_io::{SCRATCH, lengthen};
use zn_queue::Queue;
use zn_report::layout;
use zn_truth::{BLOCK_SIZE, Cond, Kind, Shape, ZoneInfo, ZoneNo};

/// Files of which nothing is shown yet, and room for their handles.
#[derive(Drop)]
pub(crate) struct Files {
    pub(crate) inodes: Inodes,
    pub(crate) handles: Handles,
}

/// The files without aggregation and with it, since only the super block tells which of them there are, an empty queue,
/// a place for each zone of the device, and room for the blocks of a read.
#[derive(Drop)]
pub(crate) struct Room {
    pub(crate) single: Files,
    pub(crate) joined: Files,
    pub(crate) queue: Queue,
    pub(crate) infos: Vec<ZoneInfo>,
    pub(crate) scratch: Vec<u8>,
}

/// The kind of each zone.
fn kinds_of<D: Zoned>(alloc: Global, dev: &D) -> Result<Vec<Kind>, AllocError>
    ensures { IfOk result (λ kinds. kinds.items ≡ (geometry_of (D.state dev.now).world).kinds) }
{
    let mut kinds = Vec::new(alloc);
    for z in 0..dev.zones() {
        kinds.push(dev.kind(ZoneNo(z)))?;
    }
    Ok(kinds)
}

/// A place for what a report tells of each zone: as long as none did, each is as if it were offline.
fn places<D: Zoned>(alloc: Global, dev: &D) -> Result<Vec<ZoneInfo>, AllocError>
    ensures { IfOk result (λ infos. length infos.items ≡ length (geometry_of (D.state dev.now).world).kinds) }
{
    let untold = ZoneInfo {
        cond: Cond::Offline,
        held: 0,
        explicit: false,
    };
    vec![in alloc; untold; dev.zones() as usize]
}

/// The files of zones of these kinds, with what a mount shows of them where a report told this.
fn files_of(
    alloc: Global,
    kinds: &[Kind],
    aggr: bool,
    infos: &[ZoneInfo],
    shape: Shape,
) -> Result<Files, AllocError>
    requires some { 1 ≤ length kinds.now }
    requires most { length kinds.now ≤ MAX_ZONES }
    requires places { length infos.now ≡ length kinds.now }
    ensures { IfOk result (λ files. ArePrepared kinds.now aggr shape files.inodes files.handles) }
{
    let layout = layout(alloc, kinds, aggr)?;
    let handles = Handles::new(alloc, layout.cnv_files(), layout.files())?;
    let inodes = Inodes::new(alloc, layout, infos, shape)?;
    Ok(Files { inodes, handles })
}

/// All that a volume over this device needs.
pub(crate) fn take_room<D: Zoned>(alloc: Global, dev: &D) -> Result<Room, AllocError>
    ensures single { let g = geometry_of (D.state dev.now).world in
        IfOk result (λ room. ArePrepared g.kinds false g.shape room.single.inodes room.single.handles) }
    ensures joined { let g = geometry_of (D.state dev.now).world in
        IfOk result (λ room. ArePrepared g.kinds true g.shape room.joined.inodes room.joined.handles) }
    ensures queue { IfOk result (λ room. room.queue.queue ≡ fresh_queue) }
    ensures infos { IfOk result (λ room. length room.infos.items ≡ length (geometry_of (D.state dev.now).world).kinds) }
    ensures scratch { IfOk result (λ room. SCRATCH ≤ vec_capacity room.scratch) }
    ensures copies { IfOk result (λ room. 2 * BLOCK_SIZE ≤ length room.scratch.items) }
{
    let kinds = kinds_of(alloc, dev)?;
    let infos = places(alloc, dev)?;
    let single = files_of(alloc, &kinds, false, &infos, dev.shape())?;
    let joined = files_of(alloc, &kinds, true, &infos, dev.shape())?;
    let queue = Queue::new(alloc)?;
    let mut scratch = Vec::with_capacity(alloc, SCRATCH)?;
    lengthen(&mut scratch, 2 * BLOCK_SIZE);
    Ok(Room {
        single,
        joined,
        queue,
        infos,
        scratch,
    })
}
