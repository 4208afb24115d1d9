// What a session takes once, for the calls and the reports of its lines.
ghost use Rattle.std.specs.Prelude.{length, IfOk};
ghost use Rattle.zn_truth.specs.World.{geometry_of};
ghost use Rattle.zn_session.specs.SessionState.{HasRoom};

use std::alloc::{AllocError, Global};
use zn_device::Zoned;
use zn_io::SCRATCH;
use zn_model::Place;
use zn_truth::{Cond, Kind, ZoneInfo};

/// What the line of a zone tells.
#[derive(Clone, Copy)]
pub struct ZoneTold {
    pub kind: Kind,
    pub info: ZoneInfo,
    /// The blocks that it has room for.
    pub room: u32,
    pub place: Place,
}

/// Room for the bytes of a call, for a report of all zones, and for what is told of them. That for bytes is as long as a
/// call has needed it.
#[derive(Drop)]
pub struct Room {
    pub bytes: Vec<u8>,
    pub infos: Vec<ZoneInfo>,
    pub zones: Vec<ZoneTold>,
}

/// Takes it for a device. As long as there was no report, each zone is as if it were offline.
pub fn take_room<D: Zoned>(alloc: Global, dev: &D) -> Result<Room, AllocError>
    ensures { IfOk result (λ room. HasRoom (length (geometry_of (D.state dev.now).world).kinds) room) }
{
    let zones = dev.zones() as usize;
    let info = ZoneInfo {
        cond: Cond::Offline,
        held: 0,
        explicit: false,
    };
    let told = ZoneTold {
        kind: Kind::Sequential,
        info,
        room: 0,
        place: Place::Unplaced,
    };
    let bytes = Vec::with_capacity(alloc, SCRATCH)?;
    let infos = vec![in alloc; info; zones]?;
    let zones = vec![in alloc; told; zones]?;
    Ok(Room {
        bytes,
        infos,
        zones,
    })
}
