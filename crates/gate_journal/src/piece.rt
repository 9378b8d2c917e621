// A piece as it was read.
use lti_outside::Bytes;

/// A piece of a journal: the place of its gate on the disk, counted from 0, and its payload.
#[derive(Drop)]
pub struct Piece {
    pub at: u64,
    pub payload: Bytes,
}
