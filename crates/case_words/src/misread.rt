// Why a line has no answer.
use lti_outside::NoMemory;
use std::alloc::{AllocError, AllocFailed};

/// Why a line has no answer.
#[derive(Clone, Copy, Debug, PartialEq, Eq)]
pub enum Misread {
    /// The line isn't written as a case is.
    NoCase,
    /// There was no memory.
    NoMemory,
}

impl From<NoMemory> for Misread {
    fn from(_: NoMemory) -> Self {
        Misread::NoMemory
    }
}

impl From<AllocError> for Misread {
    fn from(_: AllocError) -> Self {
        Misread::NoMemory
    }
}

impl<T: Drop> From<AllocFailed<T>> for Misread {
    fn from(_: AllocFailed<T>) -> Self {
        Misread::NoMemory
    }
}
