// Bytes of a source, held in a buffer.
ghost use Rattle.std.specs.Prelude.{◌≡◌, ◌≤◌, ◌++◌, ◌-◌, ℕ, List, [], length, take, drop, MatchResult};
ghost use Rattle.lti_outside.specs.Traffic.{Moves, no_fault, read_fault, IsAtEnd};

use lti_outside::{ReadFault, Source};
use std::marker::Model;

const ROOM: usize = 16_384;

/// A buffer over a source, seen as the bytes that it has taken and not given on.
#[derive(Drop)]
pub struct Intake {
    buf: [u8; ROOM],
    at: usize,
    end: usize,
}

impl Model for Intake {
    ghost Value = { List ℕ };

    ghost view = { λ r. take (r.end - r.at) (drop r.at r.buf) };

    ghost invariant = { λ r. (r.at ≤ r.end) × (r.end ≤ 16384) };
}

impl Intake {
    /// A buffer that holds nothing.
    pub fn new() -> Intake
        ensures { result ≡ [] }
    {
        Intake {
            buf: [0; ROOM],
            at: 0,
            end: 0,
        }
    }

    /// Takes bytes where none are held. Then none are held only at the end of input.
    pub fn fill<S: Source>(&mut self, source: &mut S) -> Result<(), ReadFault>
        ensures { MatchResult result
            (λ _. (read : List ℕ) × Moves (S.traffic source.old) (S.traffic source.new) read [] no_fault
            × (self.new ≡ self.old ++ read) × (self.new ≡ [] → IsAtEnd (S.traffic source.new)))
            (λ _. Moves (S.traffic source.old) (S.traffic source.new) [] [] read_fault
            × (self.old ≡ []) × (self.new ≡ [])) }
    {
        if self.at < self.end {
            return Ok(());
        }
        self.at = 0;
        self.end = 0;
        self.end = source.take(&mut self.buf)?;
        Ok(())
    }

    /// The bytes that are held.
    pub fn held(&self) -> &[u8]
        ensures { result.now ≡ self.now }
    {
        &self.buf[self.at..self.end]
    }

    /// Gives on the first `count` bytes.
    pub fn skip(&mut self, count: usize)
        requires { count ≤ length self.old }
        ensures { self.new ≡ drop count self.old }
    {
        self.at += count;
    }
}
