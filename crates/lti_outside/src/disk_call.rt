// The calls of a disk, as a record keeps them.
use crate::Bytes;

/// A call of a disk in memory. A read or a write that failed stands as one that didn't; a sync says whether
/// it was done.
#[derive(Drop)]
pub enum DiskCall {
    Read { place: u64, len: u64 },
    Write { place: u64, piece: Bytes },
    Sync { done: bool },
}
