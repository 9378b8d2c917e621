// Want of memory.
use std::alloc::{AllocError, AllocFailed};

/// A growth was refused for want of memory. Each call that takes memory may answer it, and no clause says
/// when; what it leaves unchanged, its own entry says.
#[derive(Clone, Copy, Debug, PartialEq, Eq)]
pub struct NoMemory;

impl From<AllocError> for NoMemory {
    fn from(_: AllocError) -> Self {
        NoMemory
    }
}

impl<T: Drop> From<AllocFailed<T>> for NoMemory {
    fn from(_: AllocFailed<T>) -> Self {
        NoMemory
    }
}
