// The device that a command line asks for.
ghost use Rattle.std.specs.Prelude.{◌≡◌, IfOk};
ghost use Rattle.zn_lines.specs.Scratch.{kinds_of, shape_of};
ghost use Rattle.zn_words.specs.CommandsMeant.{IsWithin};
ghost use Rattle.zn_cli.specs.Scratch.{scratch_device};

use std::alloc::{AllocError, Global};
use zn_device::{MemDevice, Zoned};
use zn_fault::Faulty;
use zn_lines::Scratch;
use zn_truth::{Kind, Shape};

/// The kind of each zone, the conventional ones first.
fn kinds(alloc: Global, scratch: Scratch) -> Result<Vec<Kind>, AllocError>
    requires { IsWithin scratch }
    ensures { IfOk result (λ kinds. kinds.items ≡ kinds_of scratch) }
{
    let mut kinds = vec![in alloc; Kind::Conventional; scratch.conv as usize]?;
    for _ in scratch.conv..scratch.zones {
        kinds.push(Kind::Sequential)?;
    }
    Ok(kinds)
}

/// What the zones share: no limits, and sequential zones that have room for all their blocks.
fn shape(scratch: Scratch) -> Shape
    ensures { result ≡ shape_of scratch }
{
    Shape {
        zone_blocks: scratch.blocks,
        zone_capacity: scratch.blocks,
        max_open: 0,
        max_active: 0,
    }
}

/// The new device that is asked for, which takes faults and turns.
#[tactic(auto, unfolding(zn_truth::specs::Fresh::fresh_truth))]
pub fn device(alloc: Global, scratch: Scratch) -> Result<Faulty<MemDevice>, AllocError>
    requires { IsWithin scratch }
    ensures { IfOk result (λ device. ⟦<Faulty<MemDevice> as Zoned>⟧.state device ≡ scratch_device scratch) }
{
    let kinds = kinds(alloc, scratch)?;
    let device = MemDevice::new(alloc, &kinds, shape(scratch))?;
    match Faulty::new(alloc, device) {
        Ok(device) => Ok(device),
        Err(_) => Err(AllocError),
    }
}
