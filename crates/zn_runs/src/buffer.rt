// A buffer for the texts of runs.
ghost use Rattle.std.specs.Prelude.{◌≤◌, length};
ghost use Rattle.zn_base.specs.States.{Writes};
ghost use Rattle.zn_base.specs.Runs.{data_text};
ghost use Rattle.zn_runs.specs.declared.runs.TheConstants.{MOST_RUN};

use crate::runs::write_runs;
use std::alloc::{AllocError, Global};
use zn_base::{Sink, WriteFault};

/// How many bytes of texts go to a sink at once.
const ROOM: usize = 4096;

/// Where the texts of runs are put before they go to a sink. Only `new` takes memory.
#[derive(Drop)]
pub struct RunBuffer {
    bytes: Vec<u8>,
    ghost room: { MOST_RUN ≤ length bytes.items },
}

impl RunBuffer {
    pub fn new(alloc: Global) -> Result<RunBuffer, AllocError> {
        let bytes = vec![in alloc; 0; ROOM]?;
        Ok(RunBuffer { bytes })
    }

    /// Writes bytes as runs, each as long as it may be: `61*2+62*1` for two bytes of 0x61 and one of 0x62.
    pub fn write<K: Sink>(&mut self, sink: &mut K, bytes: &[u8]) -> Result<(), WriteFault>
        ensures { Writes result (data_text bytes.now) (K.state sink.old) (K.state sink.new) }
    {
        write_runs(sink, bytes, &mut self.bytes)
    }
}
