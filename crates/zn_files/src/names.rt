// Names in order.
ghost use Rattle.std.specs.Prelude.{◌≡◌, ◌<◌, ◌++◌, ◌∷◌, [], length, slice_get, Some, All, Contains, OnOk, OnErr};
ghost use Rattle.std.specs.declared.cmp.Ordering.TheVariants.{Less};
ghost use Rattle.zn_stand.specs.Maps.{name_cmp};
ghost use Rattle.zn_files.specs.Names.{IsInOrder, with_name};

use std::alloc::{AllocError, Global};
use std::marker::Model;

/// The names of files, each once, in the order of their bytes.
#[derive(Drop)]
pub struct Names {
    alloc: Global,
    names: Vec<String>,
}

impl Model for Names {
    ghost use Rattle.std.specs.Prelude.{ℕ, List, map};
    ghost use Rattle.std.specs.String.{string_bytes};
    ghost use Rattle.zn_files.specs.Names.{IsInOrder};

    ghost Value = { List (List ℕ) };

    ghost view = { λ n. map string_bytes n.names.items };

    ghost invariant = { λ n. IsInOrder (map string_bytes n.names.items) };
}

impl Names {
    /// No names.
    pub fn new(alloc: Global) -> Names
        ensures { result ≡ [] }
    {
        Names {
            alloc,
            names: Vec::new(alloc),
        }
    }

    /// How many names there are.
    pub fn count(&self) -> usize
        ensures count { result ≡ length self.now }
        ensures order { IsInOrder self.now }
    {
        self.names.len()
    }

    /// The name at place `i`, counted from 0.
    pub fn at(&self, i: usize) -> &str
        requires { i < length self.now }
        ensures { slice_get self.now i ≡ Some result.now }
    {
        self.names[i].as_str()
    }

    /// Puts a name in its place.
    pub fn add(&mut self, name: &str) -> Result<(), AllocError>
        requires { ¬ Contains self.old name.now }
        ensures ok { OnOk result (self.new ≡ with_name name.now self.old) }
        ensures err { OnErr result (self.new ≡ self.old) }
    {
        let at = self.names.partition_point(|n| n.as_str().cmp(name).is_lt());
        self.names.insert(at, String::from_str(self.alloc, name)?)?;
        Ok(())
    }

    /// Puts a name behind all others, which are below it.
    pub fn push(&mut self, name: &str) -> Result<(), AllocError>
        requires { All (λ other. name_cmp other name.now ≡ Less) self.old }
        ensures ok { OnOk result (self.new ≡ self.old ++ name.now ∷ []) }
        ensures err { OnErr result (self.new ≡ self.old) }
    {
        self.names.push(String::from_str(self.alloc, name)?)?;
        Ok(())
    }
}
