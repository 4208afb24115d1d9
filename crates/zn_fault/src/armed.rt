// The loss of power that waits for a command.
ghost use Rattle.std.specs.Prelude.{◌≡◌, None, Some, false, is_some, IfOk, MatchOption};
ghost use Rattle.zn_fault.specs.Losses.{is_met, Meets};

use crate::pending::meets;
use std::alloc::{AllocError, Global};
use std::marker::Model;
use zn_truth::{Armed, Command, Span};

/// The loss of power that waits for a command, if one does. Only `new` takes memory, for one.
#[derive(Drop)]
pub struct Waiting {
    /// At most one. It lies apart, so that the device moves as fast as without it.
    losses: Vec<Armed>,
}

impl Model for Waiting {
    ghost use Rattle.std.specs.Prelude.{◌≤◌, Option, length, slice_get, vec_capacity};
    ghost use Rattle.zn_truth.specs.declared.Armed.{Armed};

    ghost Value = { Option Armed };

    ghost view = { λ w. slice_get w.losses.items 0 };

    ghost invariant = { λ w. (1 ≤ vec_capacity w.losses) × (length w.losses.items ≤ 1) };
}

impl Waiting {
    /// None that waits, and room for one.
    pub fn new(alloc: Global) -> Result<Waiting, AllocError>
        ensures { IfOk result (λ w. w ≡ None) }
    {
        Ok(Waiting {
            losses: Vec::with_capacity(alloc, 1)?,
        })
    }

    /// Whether one waits.
    pub fn is_some(&self) -> bool
        ensures { result ≡ is_some self.now }
    {
        !self.losses.is_empty()
    }

    /// The loss that waits, if the command on these zones meets it.
    pub fn met(&self, command: Command, zones: Span) -> Option<&Armed>
        ensures { MatchOption result (is_met command zones self.now ≡ false)
            (λ armed. Meets command zones self.now armed.now) }
    {
        let armed = self.losses.first()?;
        meets(command, zones, armed.command, armed.zone).then_some(armed)
    }

    /// This loss waits.
    pub fn arm(&mut self, armed: Armed)
        requires { self.old ≡ None }
        ensures { self.new ≡ Some armed }
    {
        self.losses.push_reserved(armed);
    }

    /// None waits any more.
    pub fn clear(&mut self)
        ensures { self.new ≡ None }
    {
        self.losses.clear();
    }
}
