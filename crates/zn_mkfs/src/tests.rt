ghost use Rattle.std.specs.Prelude.{◌≡◌, ◌<◌, false, length};
ghost use Rattle.zn_truth.specs.Truth.{room, kind_at};
ghost use Rattle.zn_truth.specs.World.{geometry_of};

use crate::format;
use std::process::Abort;
use std::test::Fail;
use zn_device::{MemDevice, Zoned};
use zn_model::{FormatError, FormatOpts};
use zn_super::{Label, Super, SuperError};
use zn_truth::{Cond, Kind, Shape, ZoneInfo, ZoneNo};

const UUID: [u8; 16] = [7; 16];

const OPTS: FormatOpts = FormatOpts {
    aggr_cnv: true,
    uid: 1000,
    gid: 100,
    perm: 0o660,
};

const SHAPE: Shape = Shape {
    zone_blocks: 4,
    zone_capacity: 3,
    max_open: 1,
    max_active: 2,
};

/// The blocks that a zone holds.
fn held(rt: &impl Abort, dev: &mut MemDevice, z: u32) -> u32 {
    let mut infos = [ZoneInfo {
        cond: Cond::Offline,
        held: 9,
        explicit: false,
    }; 1];
    assert!(rt; z < dev.zones());
    assert_eq!(rt; dev.report(ZoneNo(z), &mut infos), Ok(()));
    infos[0].held
}

/// The blocks that a zone has room for.
fn room_of<D: Zoned>(dev: &D, z: u32) -> u32
    requires { z < length (geometry_of (D.state dev.now).world).kinds }
    ensures { let g = geometry_of (D.state dev.now).world in result ≡ room g.shape (kind_at g z) }
{
    match dev.kind(ZoneNo(z)) {
        Kind::Conventional => dev.shape().zone_blocks,
        Kind::Sequential => dev.shape().zone_capacity,
    }
}

/// Writes a block at the front of a zone.
fn write<D: Zoned>(rt: &impl Abort, dev: &mut D, z: u32)
    requires { (D.state dev.old).spoilt ≡ false }
    ensures { (D.state dev.new).spoilt ≡ false }
{
    assert!(rt; z < dev.zones());
    assert!(rt; 0 < room_of(dev, z));
    let reply = dev.write(ZoneNo(z), 0, &[1; 4096]);
    assert!(rt; reply.is_ok());
}

/// What blocks 0 and 1 of zone 0 say.
fn copies(rt: &impl Abort, dev: &mut MemDevice) -> Result<Super, SuperError> {
    let mut copies = [0; 8192];
    assert!(rt; 0 < dev.zones());
    assert!(rt; dev.shape().zone_blocks == 4 && dev.shape().zone_capacity == 3);
    assert_eq!(rt; dev.read(ZoneNo(0), 0, &mut copies), Ok(()));
    Super::decode_copies(&copies)
}

/// The super block that is asked for.
fn asked(label: &Label) -> Super {
    Super {
        label: *label,
        uuid: UUID,
        aggr_cnv: true,
        uid: 1000,
        gid: 100,
        perm: 0o660,
    }
}

// Zones of both kinds are written to; those behind zone 0 are emptied where they are sequential.
#[test]
fn formatted_twice(rt: HostRuntime) -> Result<(), Fail> {
    let label = Label::new(b"data").ok_or("no label")?;
    let conventional = [Kind::Conventional, Kind::Conventional, Kind::Sequential];
    let sequential = [Kind::Sequential, Kind::Sequential, Kind::Sequential];
    for (kinds, zone0, zone1) in [(conventional, 4, 4), (sequential, 3, 0)] {
        let mut dev = MemDevice::new(rt.alloc(), &kinds, SHAPE)?;
        for force in [false, true] {
            write(&rt, &mut dev, 2);
            let reply = format(rt.alloc(), &mut dev, &label, &OPTS, UUID, force);
            assert_eq!(rt; reply, Ok(()));
            assert_eq!(rt; held(&rt, &mut dev, 0), zone0);
            assert_eq!(rt; held(&rt, &mut dev, 1), zone1);
            assert_eq!(rt; held(&rt, &mut dev, 2), 0);
            assert_eq!(rt; copies(&rt, &mut dev), Ok(asked(&label)));
            let again = format(rt.alloc(), &mut dev, &label, &OPTS, UUID, false);
            assert_eq!(rt; again, Err(FormatError::AlreadyFormatted));
        }
    }
    Ok(())
}
