//! Something that is fed bytes.
ghost use Rattle.std.specs.Prelude.{ℕ, List, ◌++◌};

/// Takes bytes in pieces, as a hash does. Where a piece ends says nothing.
pub trait Tap {
    /// The bytes that the tap was fed.
    ghost holds: { Self → List ℕ → Type 0 };

    /// Feeds `piece` behind what was fed before.
    fn feed(&mut self, piece: &[u8])
        ensures { (fed : List ℕ) → holds self.old fed → holds self.new (fed ++ piece.now) };
}
