// Why a grade that was sent back has no answer.
use http_wire::WireFault;
use lti_outside::NoMemory;
use thiserror::Error;

/// Why a grade that was sent back has no answer. The faults stand in the order in which they are met; `NoMemory` may come
/// before the others and between them.
#[derive(Debug, Drop, Error)]
pub enum PassbackFault {
    /// A text of the outcome holds a character that XML 1.0 doesn't allow. Nothing was sent.
    #[error("no xml text")]
    NotXml,
    /// A write to the service failed. It may have got a front of the request, but never all of it.
    #[error("write fault")]
    WriteFault,
    /// The request was sent whole, and what came back is no answer of HTTP, for this cause, which is never `NoMemory`. The
    /// service may have done what was asked.
    #[error("no answer")]
    Wire(WireFault),
    /// The service answered with a status other than 200 (RFC 9110, section 15).
    #[error("status {status}")]
    BadStatus { status: u16 },
    /// The service answered with a body that is no envelope. The first `at` bytes begin some envelope, and no more of them
    /// do.
    #[error("bad envelope at {at}")]
    BadEnvelope { at: u64 },
    /// There was no memory. Either nothing was sent, or the request was sent whole and its answer is lost.
    #[error("want of memory")]
    NoMemory,
}

impl From<WireFault> for PassbackFault {
    ghost use Rattle.std.specs.Prelude.{◌≡◌};
    ghost use Rattle.lti_provider.specs.Causes.{fault_by};

    ghost from_gives = { λ cause made. made ≡ fault_by cause };

    fn from(cause: WireFault) -> PassbackFault {
        match cause {
            WireFault::NoMemory => PassbackFault::NoMemory,
            cause => PassbackFault::Wire(cause),
        }
    }
}

impl From<NoMemory> for PassbackFault {
    ghost use Rattle.std.specs.Prelude.{◌≡◌};
    ghost use Rattle.lti_provider.specs.declared.passback_fault.PassbackFault.TheVariants as fault;

    ghost from_gives = { λ _ made. made ≡ fault.NoMemory };

    fn from(_: NoMemory) -> PassbackFault {
        PassbackFault::NoMemory
    }
}
