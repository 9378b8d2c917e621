// A sink in memory.
ghost use Rattle.std.specs.Prelude.{◌≡◌, [], Some};

use crate::{Outside, Sink, WriteFault};
use std::alloc::Global;

/// A sink in memory, which takes each piece whole. The calls that `failing` names, counted from 0, fail,
/// and so does one that finds no memory.
#[derive(Drop)]
pub struct MemorySink {
    bytes: Vec<u8>,
    failing: Vec<u64>,
    calls: u64,
    faults: u64,
}

impl MemorySink {
    ghost use Rattle.lti_outside.specs.Memory.{sink_told, sink_traffic};

    /// A sink to which nothing was given.
    pub fn new(alloc: Global, failing: Vec<u64>) -> MemorySink
        ensures { sink_traffic result ≡ record {
          told = Some (record { taken = []; left = []; given = [] });
          read_faults = 0;
          write_faults = 0;
        } }
    {
        MemorySink {
            bytes: Vec::new(alloc),
            failing,
            calls: 0,
            faults: 0,
        }
    }

    /// All bytes that were given to it.
    pub fn given(&self) -> &[u8]
        ensures { result.now ≡ (sink_told self.now).given }
    {
        &self.bytes
    }
}

impl Outside for MemorySink {
    ghost use Rattle.lti_outside.specs.Memory.{sink_traffic};

    ghost traffic = { sink_traffic };
}

impl Sink for MemorySink {
    fn give(&mut self, piece: &[u8]) -> Result<usize, WriteFault> {
        let call = self.calls;
        self.calls = self.calls.saturating_add(1);
        if self.failing.contains(&call) || self.bytes.extend_from_slice(piece).is_err() {
            self.faults = self.faults.saturating_add(1);
            return Err(WriteFault);
        }
        Ok(piece.len())
    }
}
