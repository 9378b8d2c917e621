// A source in memory.
ghost use Rattle.std.specs.Prelude.{◌≡◌, ◌≤◌, ◌<◌, ◌+◌, [], length, vec_len, take, drop, Some};
ghost use Rattle.lti_outside.specs.Pieces.{lists, joined, piece_at};

use crate::{Bytes, Outside, ReadFault, Source};
use std::alloc::Global;

/// A source in memory. Each call gives bytes of one piece, and the calls that `failing` names, counted
/// from 0, fail.
#[derive(Drop)]
pub struct MemorySource {
    pieces: Vec<Bytes>,
    failing: Vec<u64>,
    place: usize,
    at: usize,
    calls: u64,
    faults: u64,
}

// Copies bytes from a place on, as many as there is room for.
fn copy_from(piece: &[u8], at: usize, buf: &mut [u8]) -> usize
    requires { at ≤ length piece.now }
    ensures bound { result ≤ length buf.new }
    ensures within { at + result ≤ length piece.now }
    ensures bytes { take result buf.new ≡ take result (drop at piece.now) }
    ensures some { 0 < length buf.old → at < length piece.now → 0 < result }
{
    let count = buf.len().min(piece.len() - at);
    buf[..count].copy_from_slice(&piece[at..at + count]);
    count
}

impl MemorySource {
    ghost use Rattle.lti_outside.specs.Memory.{source_told, source_traffic};

    /// A source that gives the pieces in order.
    pub fn new(pieces: Vec<Bytes>, failing: Vec<u64>) -> MemorySource
        ensures { source_traffic result ≡ record {
          told = Some (record { taken = []; left = joined (lists pieces.items); given = [] });
          read_faults = 0;
          write_faults = 0;
        } }
    {
        MemorySource {
            pieces,
            failing,
            place: 0,
            at: 0,
            calls: 0,
            faults: 0,
        }
    }

    // Goes on to the next piece that has a byte left.
    fn skip(&mut self)
        ensures told { source_told self.new ≡ source_told self.old }
        ensures faults { self.new.faults ≡ self.old.faults }
        ensures open { self.new.place < vec_len self.new.pieces
            → self.new.at < length (piece_at (lists self.new.pieces.items) self.new.place) }
    {
        while self.place < self.pieces.len() && self.at >= self.pieces[self.place].get().len() {
            self.place += 1;
            self.at = 0;
        }
    }
}

impl Outside for MemorySource {
    ghost use Rattle.lti_outside.specs.Memory.{source_traffic};

    ghost traffic = { source_traffic };
}

impl Source for MemorySource {
    fn take(&mut self, buf: &mut [u8]) -> Result<usize, ReadFault> {
        let call = self.calls;
        self.calls = self.calls.saturating_add(1);
        if self.failing.contains(&call) {
            self.faults = self.faults.saturating_add(1);
            return Err(ReadFault);
        }
        self.skip();
        if self.place >= self.pieces.len() {
            return Ok(0);
        }
        let piece = self.pieces[self.place].get();
        let count = copy_from(piece, self.at, buf);
        self.at += count;
        Ok(count)
    }
}
