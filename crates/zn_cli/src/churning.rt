// The run of a script that is made from a seed, on a new device in memory.
ghost use Rattle.std.specs.Prelude.{◌≡◌, ◌≤◌};
ghost use Rattle.zn_gen.specs.declared.script.TheConstants.{MOST_STEPS};
ghost use Rattle.zn_words.specs.CommandsMeant.{IsWithin};
ghost use Rattle.zn_cli.specs.Churn.{churn_device, ChurnRuns};

use crate::scratch::{never_breaks, session};
use std::alloc::Global;
use zn_base::Sink;
use zn_churn::churn;
use zn_lines::Scratch;
use zn_run::{Status, end_starved};
use zn_words::Churn;

/// The device of such a script: two conventional zones and eight sequential ones, of 64 blocks each.
fn churn_device() -> Scratch
    ensures device { result ≡ churn_device }
    ensures within { IsWithin result }
{
    Scratch {
        zones: 10,
        conv: 2,
        blocks: 64,
    }
}

/// Carries out a script that is made from a seed, on a new device in memory, and writes what its replies add up to.
pub fn run_churn<K: Sink>(alloc: Global, asked: Churn, entropy: [u8; 16], sink: &mut K) -> Status
    requires { asked.steps ≤ MOST_STEPS }
    ensures { ChurnRuns asked entropy result (K.state sink.old) (K.state sink.new) }
{
    match session(alloc, churn_device(), entropy) {
        Ok(mut session) => {
            let status = churn(alloc, &mut session, asked.seed, asked.steps, sink);
            never_breaks(&session);
            status
        }
        Err(_) => end_starved(sink),
    }
}
