// Why there is no message.
ghost use Rattle.std.specs.Prelude.{◌≡◌};

/// Why a connection gave no message. The faults stand in the order in which they are looked for, but for `CutShort`,
/// which a head and a body may meet.
#[derive(Clone, Copy, Debug, PartialEq, Eq)]
pub enum WireFault {
    /// The peer sent no head within the limit on its bytes.
    HeadTooLong,
    /// The head has more header lines than the limit allows.
    TooManyHeaders,
    /// The head is none of HTTP/1.0 or HTTP/1.1: a line ends in a bare LF, the first line is empty, the grammar doesn't
    /// read it, `Authorization` or `Content-Type` stands twice, or a header that is read has a byte that is no tab and
    /// not from 0x20 to 0x7E.
    BadHead,
    /// The target isn't a path with or without a query: it doesn't begin with `/`, has a `#`, or has a byte that isn't
    /// from 0x21 to 0x7E.
    BadTarget,
    /// `Host` doesn't stand exactly once, or names no host.
    BadHost,
    /// The body is sent by a `Transfer-Encoding`, which isn't supported.
    Chunked,
    /// `Content-Length` stands twice, or isn't 1 to 19 digits.
    BadLength,
    /// A method whose requests have a body came without `Content-Length`.
    LengthMissing,
    /// The body is longer than the limit.
    BodyTooLong,
    /// The input ended inside the message.
    CutShort,
    /// A read failed before the message was whole.
    ReadFault,
    /// There was no memory for the message.
    NoMemory,
}

impl From<lti_outside::ReadFault> for WireFault {
    ghost use Rattle.http_wire.specs.declared.fault.WireFault.TheVariants.{ReadFault};

    ghost from_gives = { λ _ fault. fault ≡ ReadFault };

    fn from(_: lti_outside::ReadFault) -> Self {
        WireFault::ReadFault
    }
}

impl From<lti_outside::NoMemory> for WireFault {
    ghost use Rattle.http_wire.specs.declared.fault.WireFault.TheVariants.{NoMemory};

    ghost from_gives = { λ _ fault. fault ≡ NoMemory };

    fn from(_: lti_outside::NoMemory) -> Self {
        WireFault::NoMemory
    }
}
