// Names in a listing, and a directory that is synced whole.
ghost use Rattle.std.specs.Prelude.{◌≡◌, ◌≢◌, ◌<◌, ◌≤◌, ℕ, [], length, slice_index_or, Some, None, IfErr};
ghost use Rattle.std.specs.FinMap.{keys};
ghost use Rattle.std.specs.declared.cmp.Ordering.TheVariants.{Less};
ghost use Rattle.zn_stand.specs.Maps.{name_cmp};
ghost use Rattle.zn_stand.specs.Directory.{Directory, contents, rested};
ghost use Rattle.zn_files.specs.States.{directory};
ghost use Rattle.zn_backing.specs.Failures.{cause_of};
ghost use Rattle.zn_backing.specs.Listing.{is_among};
ghost use Rattle.zn_backing.specs.Steps.{Syncs, all_synced};

use crate::OpenError;
use crate::calls::sync;
use zn_files::{Files, Names};

/// How many names are below this one.
fn place_of(names: &Names, name: &str) -> usize
    ensures most { result ≤ length names.now }
    ensures below { (k : ℕ) → k < result → name_cmp (slice_index_or names.now k []) name.now ≡ Less }
    ensures above { (k : ℕ) → result ≤ k → k < length names.now
        → name_cmp (slice_index_or names.now k []) name.now ≢ Less }
{
    let mut low = 0;
    let mut high = names.count();
    while low < high {
        let middle = low + (high - low) / 2;
        if names.at(middle).cmp(name).is_lt() {
            low = middle + 1;
        } else {
            high = middle;
        }
    }
    low
}

/// Whether a name is among these.
pub fn contains(names: &Names, name: &str) -> bool
    ensures { result ≡ is_among names.now name.now }
{
    let at = place_of(names, name);
    at < names.count() && names.at(at) == name
}

/// Syncs all files, in the order of their names.
pub fn sync_all<F: Files>(files: &mut F, names: &Names) -> Result<(), OpenError>
    requires { (d : Directory) → directory (F.state files.old) ≡ Some d → names.now ≡ keys d }
    ensures done { Syncs result (λ d. all_synced d names.now) (F.state files.old) (F.state files.new) }
    ensures plain { IfErr result (λ e. cause_of e ≡ None) }
{
    for i in 0..names.count() {
        sync(files, names.at(i))?;
    }
    Ok(())
}
