// Why a request isn't well signed.
ghost use Rattle.std.specs.Prelude.{◌≡◌};

use crate::Field;
use lti_outside::NoMemory;
use oauth_header::HeaderFault;
use oauth_text::FormFault;
use std::alloc::AllocError;

/// Why a request isn't well signed: the first of these that holds. The order is this project's own, as is the refusal
/// of a token, since no token is ever given.
#[derive(Clone, Copy, Debug, PartialEq, Eq)]
pub enum AuthFault {
    /// An item of the Authorization header has no reading; the first such item begins at the place `at`, in bytes
    /// from the value's start.
    BadAuthorization { at: u64 },
    /// The query, or the body of a form, isn't UTF-8 when decoded.
    BadForm,
    /// A name of the protocol stands twice, in the query, the header and the form together.
    Duplicate(Field),
    /// A name that is needed stands nowhere. The body hash is needed where the body isn't a form.
    Missing(Field),
    /// The signature method isn't `HMAC-SHA1` (RFC 5849, section 3.4.2).
    UnsupportedMethod,
    /// A version stands and isn't `1.0`.
    BadVersion,
    /// A token stands and isn't empty.
    TokenNotSupported,
    /// The timestamp isn't 1 to 15 digits, or is 0.
    BadTimestamp,
    /// The nonce is empty.
    BadNonce,
    /// The key or the nonce has more bytes than `Limits::field` allows.
    TooLong,
    /// No secret is known for the key.
    UnknownKey,
    /// The body isn't a form, and the hash that was sent isn't the body's: the body was changed on its way.
    BodyHashMismatch,
    /// The signature that was sent isn't the request's: the secret is another one, or the request was changed.
    SignatureMismatch,
    /// There was no memory to find out, and the request may be well signed.
    NoMemory,
}

impl AuthFault {
    ghost use Rattle.oauth_request.specs.Status.{status_of};

    /// The HTTP status that says so: 400 where the request says too little or too much, 401 where it isn't
    /// believed, 503 for want of memory.
    pub fn status(self) -> u16
        ensures { result ≡ status_of self }
    {
        match self {
            AuthFault::UnknownKey | AuthFault::BodyHashMismatch | AuthFault::SignatureMismatch =>
                401,
            AuthFault::NoMemory => 503,
            _ => 400,
        }
    }
}

impl From<NoMemory> for AuthFault {
    ghost use Rattle.oauth_request.specs.declared.faults.AuthFault.TheVariants as fault;

    ghost from_gives = { λ _ made. made ≡ fault.NoMemory };

    fn from(_error: NoMemory) -> AuthFault {
        AuthFault::NoMemory
    }
}

impl From<AllocError> for AuthFault {
    ghost use Rattle.oauth_request.specs.declared.faults.AuthFault.TheVariants as fault;

    ghost from_gives = { λ _ made. made ≡ fault.NoMemory };

    fn from(_error: AllocError) -> AuthFault {
        AuthFault::NoMemory
    }
}

impl From<FormFault> for AuthFault {
    ghost use Rattle.oauth_request.specs.Status.{fault_of_form};

    ghost from_gives = { λ fault made. made ≡ fault_of_form fault };

    fn from(fault: FormFault) -> AuthFault {
        match fault {
            FormFault::BadForm => AuthFault::BadForm,
            FormFault::NoMemory => AuthFault::NoMemory,
        }
    }
}

impl From<HeaderFault> for AuthFault {
    ghost use Rattle.oauth_request.specs.Status.{fault_of_header};

    ghost from_gives = { λ fault made. made ≡ fault_of_header fault };

    fn from(fault: HeaderFault) -> AuthFault {
        match fault {
            HeaderFault::BadAuthorization { at } => AuthFault::BadAuthorization { at },
            HeaderFault::NoMemory => AuthFault::NoMemory,
        }
    }
}
