// What is counted of the calls on a directory in memory.
ghost use Rattle.std.specs.Prelude.{◌≡◌, ◌≤◌, ◌++◌, ◌∷◌, [], OnOk, OnErr};
ghost use Rattle.std.specs.Bool.{OnTrue, OnFalse};
ghost use Rattle.zn_base.specs.Causes.{one_more};
ghost use Rattle.zn_files.specs.Listed.{is_due, passed};

use crate::FileCall;
use crate::listed::{Listed, is_due, pass};
use std::alloc::{AllocError, Global};

/// Which calls are to fail, how many there were, but for those that lacked memory, and how many faults.
#[derive(Drop)]
pub struct Tally {
    pub listed: Vec<Listed>,
    pub calls: u64,
    pub faults: u64,
}

impl Tally {
    /// No call yet, and none that is to fail.
    pub fn new(alloc: Global) -> Tally
        ensures listed { result.listed.items ≡ [] }
        ensures calls { result.calls ≡ 0 }
        ensures faults { result.faults ≡ 0 }
    {
        Tally {
            listed: Vec::new(alloc),
            calls: 0,
            faults: 0,
        }
    }

    /// Lists a call: the `nth` of this kind from now on is to fail.
    pub fn list(&mut self, call: FileCall, nth: u64) -> Result<(), AllocError>
        ensures ok { OnOk result (self.new.listed.items
            ≡ self.old.listed.items ++ (record { call = call; left = nth }) ∷ []) }
        ensures err { OnErr result (self.new.listed.items ≡ self.old.listed.items) }
        ensures calls { self.new.calls ≡ self.old.calls }
        ensures faults { self.new.faults ≡ self.old.faults }
    {
        self.listed.push(Listed { call, left: nth })?;
        Ok(())
    }

    /// Counts a call of this kind.
    pub fn count(&mut self, call: FileCall)
        ensures listed { self.new.listed.items ≡ passed self.old.listed.items call }
        ensures calls { self.new.calls ≡ one_more self.old.calls }
        ensures faults { self.new.faults ≡ self.old.faults }
    {
        pass(&mut self.listed, call);
        self.calls = self.calls.saturating_add(1);
    }

    /// Whether this call is to fail; then it is counted, and so is its fault.
    pub fn is_struck(&mut self, call: FileCall) -> bool
        ensures due { result ≡ is_due self.old.listed.items call }
        ensures listed { OnTrue result (self.new.listed.items ≡ passed self.old.listed.items call) }
        ensures calls { OnTrue result (self.new.calls ≡ one_more self.old.calls) }
        ensures faults { OnTrue result (self.new.faults ≡ one_more self.old.faults) }
        ensures no_fewer { self.old.faults ≤ self.new.faults }
        ensures listed_same { OnFalse result (self.new.listed.items ≡ self.old.listed.items) }
        ensures calls_same { OnFalse result (self.new.calls ≡ self.old.calls) }
        ensures faults_same { OnFalse result (self.new.faults ≡ self.old.faults) }
    {
        if !is_due(&self.listed, call) {
            return false;
        }
        self.count(call);
        self.faults = self.faults.saturating_add(1);
        true
    }
}
