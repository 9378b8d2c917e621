// Why a disk was not mounted.
ghost use Rattle.std.specs.Prelude.{◌≡◌};
ghost use Rattle.gate_journal.specs.declared.mount_fault.MountFault.TheVariants as fault;

use lti_outside::{Disk, DiskFault};
use std::alloc::{AllocError, AllocFailed};

/// Why a disk was not mounted.
#[derive(Clone, Copy, Debug, PartialEq, Eq)]
pub enum MountFault {
    /// The disk has `size` bytes, which is below two halves. No call of it was made.
    TooSmall { size: u64 },
    /// A call of the disk failed.
    DiskFault,
    /// An open gate at the place `at` of the disk stands before a piece that passes the end of its half.
    Damaged { at: u64 },
    /// Memory for the pieces was wanting.
    NoMemory,
}

impl From<DiskFault> for MountFault {
    ghost from_gives = { λ _ made. made ≡ fault.DiskFault };

    fn from(_: DiskFault) -> Self {
        MountFault::DiskFault
    }
}

impl From<AllocError> for MountFault {
    ghost from_gives = { λ _ made. made ≡ fault.NoMemory };

    fn from(_: AllocError) -> Self {
        MountFault::NoMemory
    }
}

impl<T: Drop> From<AllocFailed<T>> for MountFault {
    ghost from_gives = { λ _ made. made ≡ fault.NoMemory };

    fn from(_: AllocFailed<T>) -> Self {
        MountFault::NoMemory
    }
}

/// A disk that was not mounted. It is as it was, but for its count of faults.
#[derive(Drop)]
pub struct Unmounted<D: Disk> {
    pub fault: MountFault,
    pub disk: D,
}
