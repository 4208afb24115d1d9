// The first places at which bytes aren't as they should be.
ghost use Rattle.std.specs.Prelude.{◌≡◌, ◌+◌, ◌<◌, ◌≤◌, length, drop, option_map, IfSome};
ghost use Rattle.zn_truth.specs.declared.limits.TheConstants.{BLOCK_SIZE};
ghost use Rattle.zn_model.specs.SuperBlock.{first_difference, first_nonzero, first_bad_label};

use crate::label::label_len;
use zn_truth::BLOCK_SIZE;

static ZEROS: [u8; BLOCK_SIZE] = [0; BLOCK_SIZE];

/// The first place where two lists of bytes differ. Blocks that are the same are compared many bytes at a time.
#[tactic(auto, using(crate::proofs::Places::no_difference), unfolding(zn_model::specs::SuperBlock::first_difference))]
pub(crate) fn first_difference(first: &[u8], second: &[u8]) -> Option<usize>
    requires { length first.now ≡ length second.now }
    ensures place { result ≡ first_difference first.now second.now }
    ensures within { IfSome result (λ place. place < length first.now) }
{
    if first == second {
        return None;
    }
    first.iter().zip(second).position(|(a, b)| *a != *b)
}

/// The first place of a byte that isn't zero. Zeros are compared many bytes at a time.
#[tactic(auto, using(crate::proofs::Places::no_nonzero), unfolding(zn_model::specs::SuperBlock::first_nonzero))]
fn first_nonzero(bytes: &[u8]) -> Option<usize>
    requires { length bytes.now ≤ BLOCK_SIZE }
    ensures place { result ≡ first_nonzero bytes.now }
    ensures within { IfSome result (λ place. place < length bytes.now) }
{
    if bytes == &ZEROS[..bytes.len()] {
        return None;
    }
    bytes.iter().position(|byte| *byte != 0)
}

/// The same from a place on.
#[tactic(auto, using(crate::proofs::Places::to_the_end))]
pub(crate) fn first_nonzero_from(bytes: &[u8], from: usize) -> Option<usize>
    requires from { from ≤ length bytes.now }
    requires most { length bytes.now ≤ BLOCK_SIZE }
    ensures place { result ≡ option_map (λ k. from + k) (first_nonzero (drop from bytes.now)) }
    ensures within { IfSome result (λ place. place < length bytes.now) }
{
    match first_nonzero(&bytes[from..]) {
        Some(place) => Some(from + place),
        None => None,
    }
}

/// The first place of a label's field that no label has: the first byte behind the label that isn't zero.
#[tactic(auto, using(crate::proofs::Places::label_within, crate::proofs::Places::bad_label))]
pub(crate) fn first_bad_label(field: &[u8]) -> Option<usize>
    requires { length field.now ≤ BLOCK_SIZE }
    ensures place { result ≡ first_bad_label field.now }
    ensures within { IfSome result (λ place. place < length field.now) }
{
    first_nonzero_from(field, label_len(field))
}
