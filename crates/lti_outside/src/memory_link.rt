// Both ends of a connection in memory.
ghost use Rattle.std.specs.Prelude.{◌≡◌, Some};

use crate::{Link, MemorySink, MemorySource, Outside, ReadFault, Sink, Source, WriteFault};

/// Both ends of a connection in memory.
#[derive(Drop)]
pub struct MemoryLink {
    source: MemorySource,
    sink: MemorySink,
}

impl MemoryLink {
    ghost use Rattle.lti_outside.specs.Memory.{source_told, source_traffic, sink_told, sink_traffic, link_told, link_traffic};

    /// A connection that gives what the source gives and takes what the sink takes.
    pub fn new(source: MemorySource, sink: MemorySink) -> MemoryLink
        ensures { link_traffic result ≡ record {
          told = Some (record (source_told source) { given = (sink_told sink).given });
          read_faults = (source_traffic source).read_faults;
          write_faults = (sink_traffic sink).write_faults;
        } }
    {
        MemoryLink { source, sink }
    }

    /// All bytes that were given to it.
    pub fn given(&self) -> &[u8]
        ensures { result.now ≡ (link_told self.now).given }
    {
        self.sink.given()
    }
}

impl Outside for MemoryLink {
    ghost use Rattle.lti_outside.specs.Memory.{link_traffic};

    ghost traffic = { link_traffic };
}

impl Source for MemoryLink {
    fn take(&mut self, buf: &mut [u8]) -> Result<usize, ReadFault> {
        self.source.take(buf)
    }
}

impl Sink for MemoryLink {
    fn give(&mut self, piece: &[u8]) -> Result<usize, WriteFault> {
        self.sink.give(piece)
    }
}

impl Link for MemoryLink {}
