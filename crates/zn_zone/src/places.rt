// The places among the open and the active zones, and the steps that take them.
ghost use Rattle.std.specs.Prelude.{◌≡◌, ◌<◌, length, OnOk, OnErr};
ghost use Rattle.zn_zone.specs.Table.{needs};
ghost use Rattle.zn_zone.specs.Machine.{state_in, with_open_place, no_open_place, with_places, no_places, stepped};
ghost use Rattle.zn_zone.specs.Machine.{unless};

use crate::state::State;
use crate::states::States;
use crate::table::{Places, Step};
use crate::{Raw, ZoneError};
use zn_truth::{Shape, is_reached};

/// Takes a place among the open zones. Where none is free, the lowest-numbered implicitly open zone is
/// closed and gives its place.
fn take_open_place(shape: Shape, zones: &mut States) -> Result<(), ZoneError>
    ensures reply { result ≡ unless (no_open_place shape zones.old) }
    ensures zones { zones.new ≡ with_open_place shape zones.old }
{
    if !is_reached(shape.max_open, zones.open()) {
        return Ok(());
    }
    match zones.first_implicit() {
        Some(i) => {
            let closed = State {
                raw: Raw::Closed,
                ..zones.at(i)
            };
            zones.put(i, closed);
            Ok(())
        }
        None => Err(ZoneError::TooManyOpen),
    }
}

/// Takes the places, or changes nothing.
fn take_places(shape: Shape, zones: &mut States, places: Places) -> Result<(), ZoneError>
    ensures reply { result ≡ unless (no_places shape zones.old places) }
    ensures ok { OnOk result (zones.new ≡ with_places shape zones.old places) }
    ensures err { OnErr result (zones.new ≡ zones.old) }
{
    match places {
        Places::NoPlace => Ok(()),
        Places::OpenPlace => take_open_place(shape, zones),
        Places::BothPlaces => {
            if is_reached(shape.max_active, zones.active()) {
                return Err(ZoneError::TooManyActive);
            }
            take_open_place(shape, zones)
        }
    }
}

/// A step of a zone, which then holds so many blocks.
pub fn take_step(
    shape: Shape,
    zones: &mut States,
    z: usize,
    step: Step,
    held: u32,
) -> Result<(), ZoneError>
    requires zone { z < length zones.old }
    ensures reply { result ≡ unless (no_places shape zones.old (needs (state_in zones.old z).raw step)) }
    ensures ok { OnOk result (zones.new ≡ stepped shape zones.old z step held) }
    ensures err { OnErr result (zones.new ≡ zones.old) }
{
    let zone = zones.at(z);
    take_places(shape, zones, zone.raw.needs(step))?;
    let stepped = State {
        raw: zone.raw.next(step),
        held,
        ..zone
    };
    zones.put(z, stepped);
    Ok(())
}
