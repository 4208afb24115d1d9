// Moves that no command makes, over the list of zones: the start, turns of condition, and what a loss of power leaves.
ghost use Rattle.std.specs.Prelude.{◌≡◌, ◌<◌, map, length, slice_set, IfOk};
ghost use Rattle.std.specs.List.{zip};
ghost use Rattle.zn_zone.specs.Machine.{at_rest, cut_to, state_in, state_at_start, turned_to};

use crate::state::State;
use crate::states::States;
use std::alloc::{AllocError, Global};
use zn_truth::{Cond, Kind, Shape, ZoneInfo};

/// Zones of these kinds with what a report tells of them, where none is open.
pub fn states_at_start(
    alloc: Global,
    shape: Shape,
    kinds: &[Kind],
    infos: &[ZoneInfo],
) -> Result<Vec<State>, AllocError>
    ensures { IfOk result (λ zones. zones.items ≡ map (state_at_start shape) (zip kinds.now infos.now)) }
{
    kinds
        .iter()
        .zip(infos)
        .map(|(kind, info)| State::at_start(shape, *kind, info))
        .collect(alloc)
}

/// A zone turns to a worse condition.
pub fn turn_at(zones: &mut States, z: usize, to: Cond)
    requires { z < length zones.old }
    ensures { zones.new ≡ slice_set zones.old z (turned_to to (state_in zones.old z)) }
{
    let turned = zones.at(z).turned_to(to);
    zones.put(z, turned);
}

/// A zone is cut to so many blocks.
pub fn cut_at(shape: Shape, zones: &mut States, z: usize, len: u32)
    requires { z < length zones.old }
    ensures { zones.new ≡ slice_set zones.old z (cut_to shape (state_in zones.old z) len) }
{
    let cut = zones.at(z).cut_to(shape, len);
    zones.put(z, cut);
}

/// Closes every open zone.
pub fn rest_all(zones: &mut States)
    ensures { zones.new ≡ map at_rest zones.old }
{
    for z in 0..zones.len() {
        let zone = zones.at(z).at_rest();
        zones.put(z, zone);
    }
}
