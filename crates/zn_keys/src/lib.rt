//! Reads the keys of the command `add`: the zoned device that its words ask for.
#![tactic(auto)]

pub mod cases;
mod given;
mod limits;
mod settings;

ghost use Rattle.std.specs.Prelude.{◌≡◌, IfSome, IsTrue, map};
ghost use Rattle.zn_stand.specs.DeviceText.{is_within};
ghost use Rattle.zn_keys.specs.Keys.{geometry_asked};

use given::given_in;
use limits::geometry_by;
use std::convert::AsStr;
use zn_stand::Geometry;

/// The device that words ask for, each of them a key, `=` and a decimal number, as `capacity_mb=64`. Sizes are in MiB
/// or in blocks of 4,096 bytes. There is none where a word is anything else, a value is given twice, the size of the
/// device or of a zone is missing, or a limit of a device is broken.
#[tactic(auto, unfolding(crate::specs::Keys::geometry_asked))]
pub fn geometry_of<S: AsStr>(words: &[S]) -> Option<Geometry>
    ensures asked { result ≡ geometry_asked (map S.text words.now) }
    ensures within { IfSome result (λ geo. IsTrue (is_within geo)) }
{
    geometry_by(given_in(words)?)
}

#[cfg(test)]
mod tests;
