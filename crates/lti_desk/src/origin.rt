// What the history of an office begins with.
use gate_journal::{Piece, Position};
use std::snapshot::Snapshot;

/// What the history of an office begins with: the pieces that its mounting read, where the journal stood then, how
/// many nonces a key may have that aren't forgotten, and how many calls of the disk had failed before the mounting.
/// The pieces are there for contracts alone, and take no memory.
#[derive(Drop)]
pub struct Origin {
    pub pieces: Snapshot<Vec<Piece>>,
    pub journal: Position,
    pub window: u32,
    pub faults: u64,
}
