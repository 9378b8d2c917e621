//! A journal of pieces on a disk, each behind a gate that is opened by a write of its own.
//!
//! A disk has two halves. Pieces are committed to the current one, and a compaction writes a new list of
//! pieces to the other. A crash at any moment leaves the pieces from before or those from after, so an
//! answer `Ok` is kept. Where a write or a sync failed after which both may be found, the journal says that
//! it is doubtful, until a repair.
#![tactic(auto)]

mod commit;
mod commit_fault;
mod compact;
mod doubt;
mod frames;
mod heads;
mod journal;
mod laws;
mod mount;
mod mount_fault;
mod piece;
mod position;
mod reading;
mod repair;
#[cfg(test)]
mod tests;
mod write;

pub use commit_fault::CommitFault;
pub use frames::{frame, pack};
pub use journal::Journal;
pub use laws::{kept_images, one_damage, one_reading};
pub use mount_fault::{MountFault, Unmounted};
pub use piece::Piece;
pub use position::Position;
