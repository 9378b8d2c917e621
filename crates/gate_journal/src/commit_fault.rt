// Why pieces were not written.
ghost use Rattle.std.specs.Prelude.{◌≡◌};
ghost use Rattle.gate_journal.specs.declared.commit_fault.CommitFault.TheVariants as fault;

use lti_outside::DiskFault;

/// Why pieces were not committed.
#[derive(Clone, Copy, Debug, PartialEq, Eq)]
pub enum CommitFault {
    /// They don't fit. `free` is how many bytes a payload may have; no call of the disk was made.
    Full { free: u64 },
    /// A call of the disk failed. Whether the pieces are in doubt, `doubtful` says.
    DiskFault,
}

impl From<DiskFault> for CommitFault {
    ghost from_gives = { λ _ made. made ≡ fault.DiskFault };

    fn from(_: DiskFault) -> Self {
        CommitFault::DiskFault
    }
}
