//! What a pass knows. No value of these types is made: they are for the proof alone.
use std::collections::LinkedList;

/// Where a pass stands: it has no ticket, waits for the turn with this number, or has it.
pub enum Phase {
    Idle,
    Waiting(u64),
    Called(u64),
}

/// A number that a pass answers for, and its places in the trail.
pub struct OwnPlaces {
    pub number: u64,
    pub places: LinkedList<u64>,
}

/// `J` is a job, `A` an answer, and `K` what the lock keeps.
pub struct View<J, A, K> {
    pub phase: Phase,
    /// The beginning of the trail that the pass has seen.
    pub seen: LinkedList<(J, A)>,
    /// The numbers that the pass answers for, its own first.
    pub own: LinkedList<OwnPlaces>,
    /// The numbers from 1 to this one aren't given to a pass yet.
    pub spare: u64,
    /// The value with which the lock was made, or nothing in a pass that was met into another.
    pub base: Option<K>,
    /// The greatest spare number with which the lock was made.
    pub first: u64,
    /// Of this pass and the one that was met into it last, the shorter list of what they had seen.
    pub met_seen: LinkedList<(J, A)>,
    /// The spare numbers of the pass that was met into this one last.
    pub met_spare: u64,
}
