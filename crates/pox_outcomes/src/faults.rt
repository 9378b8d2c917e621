// Why an envelope was not read or written.
use lti_outside::NoMemory;
use std::alloc::AllocError;

/// Why bytes gave no outcome or answer.
#[derive(Clone, Copy, Debug, PartialEq, Eq)]
pub enum EnvelopeFault {
    /// Whoever wrote the bytes wrote no envelope. The first `at` bytes begin some envelope, and no more of them do.
    BadEnvelope { at: u64 },
    /// There was no memory for the texts, and the bytes may be good.
    NoMemory,
}

/// Why no envelope was written.
#[derive(Clone, Copy, Debug, PartialEq, Eq)]
pub enum EnvelopeRefusal {
    /// A text holds a character that XML 1.0 doesn't allow.
    NotXml,
    /// There was no memory for the envelope.
    NoMemory,
}

impl From<AllocError> for EnvelopeRefusal {
    ghost use Rattle.std.specs.Prelude.{◌≡◌};
    ghost use Rattle.pox_outcomes.specs.declared.faults.EnvelopeRefusal.TheVariants as refusal;

    ghost from_gives = { λ _ made. made ≡ refusal.NoMemory };

    fn from(_error: AllocError) -> EnvelopeRefusal {
        EnvelopeRefusal::NoMemory
    }
}

impl From<NoMemory> for EnvelopeRefusal {
    ghost use Rattle.std.specs.Prelude.{◌≡◌};
    ghost use Rattle.pox_outcomes.specs.declared.faults.EnvelopeRefusal.TheVariants as refusal;

    ghost from_gives = { λ _ made. made ≡ refusal.NoMemory };

    fn from(_error: NoMemory) -> EnvelopeRefusal {
        EnvelopeRefusal::NoMemory
    }
}
