// Why a header's value gave no pairs.
use lti_outside::NoMemory;
use std::alloc::AllocError;

/// Why the value of an Authorization header gave no pairs.
#[derive(Clone, Copy, Debug, PartialEq, Eq)]
pub enum HeaderFault {
    /// Whoever wrote the header wrote an item that isn't a name, `=` and a value between quotation marks, or that
    /// doesn't decode to UTF-8. The first such item begins at the place `at`, in bytes from the value's start.
    BadAuthorization { at: u64 },
    /// There was no memory for the pairs, and the value may be good.
    NoMemory,
}

impl From<AllocError> for HeaderFault {
    ghost use Rattle.std.specs.Prelude.{◌≡◌};
    ghost use Rattle.oauth_header.specs.declared.faults.HeaderFault.TheVariants as fault;

    ghost from_gives = { λ _ made. made ≡ fault.NoMemory };

    fn from(_error: AllocError) -> HeaderFault {
        HeaderFault::NoMemory
    }
}

impl From<NoMemory> for HeaderFault {
    ghost use Rattle.std.specs.Prelude.{◌≡◌};
    ghost use Rattle.oauth_header.specs.declared.faults.HeaderFault.TheVariants as fault;

    ghost from_gives = { λ _ made. made ≡ fault.NoMemory };

    fn from(_error: NoMemory) -> HeaderFault {
        HeaderFault::NoMemory
    }
}
