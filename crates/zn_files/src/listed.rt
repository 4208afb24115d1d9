// Calls that are to fail.
ghost use Rattle.std.specs.Prelude.{◌≡◌};
ghost use Rattle.zn_files.specs.Listed.{is_next, is_due, passed_one, passed};

use crate::FileCall;

/// A call that is to fail: the one of its kind that is the `left`th from now. At 0 it has come.
#[derive(Clone, Copy)]
pub struct Listed {
    pub call: FileCall,
    pub left: u64,
}

/// Whether the next call of this kind is this one.
fn is_next(call: FileCall, listed: Listed) -> bool
    ensures { result ≡ is_next call listed }
{
    listed.call == call && listed.left == 1
}

/// Whether the next call of this kind is to fail.
pub fn is_due(listed: &[Listed], call: FileCall) -> bool
    ensures { result ≡ is_due listed.now call }
{
    listed.iter().any(|l| is_next(call, *l))
}

/// What is listed once a call of this kind has come.
fn passed_one(call: FileCall, listed: Listed) -> Listed
    ensures { result ≡ passed_one call listed }
{
    if listed.call != call {
        return listed;
    }
    Listed {
        call: listed.call,
        left: listed.left.saturating_sub(1),
    }
}

/// A call of this kind has come.
pub fn pass(listed: &mut Vec<Listed>, call: FileCall)
    ensures { listed.new.items ≡ passed listed.old.items call }
{
    for i in 0..listed.len() {
        listed[i] = passed_one(call, listed[i]);
    }
}
