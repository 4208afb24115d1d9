// Calls on the files of a directory, while it is looked at.
ghost use Rattle.std.specs.Prelude.{◌≡◌, length, Some, None, IfOk, IfErr, OnOk};
ghost use Rattle.std.specs.FinMap.{keys};
ghost use Rattle.zn_stand.specs.Directory.{Directory};
ghost use Rattle.zn_stand.specs.Calls.{SyncFile, made};
ghost use Rattle.zn_files.specs.States.{directory, WhereTold};
ghost use Rattle.zn_backing.specs.Failures.{cause_of};
ghost use Rattle.zn_backing.specs.Steps.{Steps, Syncs, IsFileIn};

use crate::OpenError;
use zn_files::{Files, Names};

/// The names of all files.
#[tactic(auto, using(crate::proofs::Stepping::failed_plain))]
pub fn names_of<F: Files>(files: &mut F) -> Result<Names, OpenError>
    ensures steps { Steps result (F.state files.old) (F.state files.new) }
    ensures names { (d : Directory) → directory (F.state files.old) ≡ Some d
        → IfOk result (λ names. names ≡ keys d) }
    ensures plain { IfErr result (λ e. cause_of e ≡ None) }
{
    match files.names() {
        Ok(names) => Ok(names),
        Err(fault) => Err(OpenError::from(fault)),
    }
}

/// The length of a file that is there.
#[tactic(auto, using(crate::proofs::Stepping::failed_plain))]
pub fn len_of<F: Files>(files: &mut F, name: &str) -> Result<u64, OpenError>
    requires { IsFileIn (F.state files.old) name.now }
    ensures steps { Steps result (F.state files.old) (F.state files.new) }
    ensures len { WhereTold (F.state files.old) name.now (λ bytes. IfOk result (λ len. len ≡ length bytes)) }
    ensures plain { IfErr result (λ e. cause_of e ≡ None) }
{
    match files.len(name) {
        Ok(len) => Ok(len),
        Err(fault) => Err(OpenError::from(fault)),
    }
}

/// All bytes of a file that is there.
#[tactic(auto, using(crate::proofs::Stepping::failed_plain))]
pub fn read_all<F: Files>(files: &mut F, name: &str, out: &mut [u8]) -> Result<(), OpenError>
    requires there { IsFileIn (F.state files.old) name.now }
    requires whole { WhereTold (F.state files.old) name.now (λ bytes. length out.old ≡ length bytes) }
    ensures steps { Steps result (F.state files.old) (F.state files.new) }
    ensures bytes { WhereTold (F.state files.old) name.now (λ bytes. OnOk result (out.new ≡ bytes)) }
    ensures plain { IfErr result (λ e. cause_of e ≡ None) }
{
    match files.read_at(name, 0, out) {
        Ok(()) => Ok(()),
        Err(fault) => Err(OpenError::from(fault)),
    }
}

/// Makes a file that is there durable.
#[tactic(auto, using(crate::proofs::Stepping::failed_plain))]
pub fn sync<F: Files>(files: &mut F, name: &str) -> Result<(), OpenError>
    requires { IsFileIn (F.state files.old) name.now }
    ensures done { Syncs result (λ d. made (SyncFile name.now) d) (F.state files.old) (F.state files.new) }
    ensures plain { IfErr result (λ e. cause_of e ≡ None) }
{
    match files.sync(name) {
        Ok(()) => Ok(()),
        Err(fault) => Err(OpenError::from(fault)),
    }
}
