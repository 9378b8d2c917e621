// Why a `check` ended before its work was done.
ghost use Rattle.std.specs.Prelude.{◌≡◌};

use lti_words::Status;
use std::alloc::{AllocError, AllocFailed};

/// Why `check` ended before its work was done.
#[derive(Clone, Copy, Debug, PartialEq, Eq)]
pub enum Stop {
    /// The input couldn't be read.
    ReadFault,
    /// The output couldn't be written.
    WriteFault,
    /// Memory ran out.
    NoMemory,
    /// The input is over a limit: a line is too long, or there are too many.
    Refused,
}

impl Stop {
    ghost use Rattle.lti_check.specs.Stops.{stop_status};

    /// How the run ends.
    pub fn status(self) -> Status
        ensures { result ≡ stop_status self }
    {
        match self {
            Stop::ReadFault => Status::ReadFault,
            Stop::WriteFault => Status::WriteFault,
            Stop::NoMemory => Status::NoMemory,
            Stop::Refused => Status::Refused,
        }
    }
}

impl From<lti_outside::ReadFault> for Stop {
    ghost use Rattle.lti_check.specs.declared.stop.Stop.TheVariants.{ReadFault};

    ghost from_gives = { λ _ e. e ≡ ReadFault };

    fn from(_: lti_outside::ReadFault) -> Self {
        Stop::ReadFault
    }
}

impl From<lti_outside::WriteFault> for Stop {
    ghost use Rattle.lti_check.specs.declared.stop.Stop.TheVariants.{WriteFault};

    ghost from_gives = { λ _ e. e ≡ WriteFault };

    fn from(_: lti_outside::WriteFault) -> Self {
        Stop::WriteFault
    }
}

impl From<lti_outside::NoMemory> for Stop {
    ghost use Rattle.lti_check.specs.declared.stop.Stop.TheVariants.{NoMemory};

    ghost from_gives = { λ _ e. e ≡ NoMemory };

    fn from(_: lti_outside::NoMemory) -> Self {
        Stop::NoMemory
    }
}

impl From<AllocError> for Stop {
    ghost use Rattle.lti_check.specs.declared.stop.Stop.TheVariants.{NoMemory};

    ghost from_gives = { λ _ e. e ≡ NoMemory };

    fn from(_: AllocError) -> Self {
        Stop::NoMemory
    }
}

impl<T: Drop> From<AllocFailed<T>> for Stop {
    ghost use Rattle.lti_check.specs.declared.stop.Stop.TheVariants.{NoMemory};

    ghost from_gives = { λ _ e. e ≡ NoMemory };

    fn from(_: AllocFailed<T>) -> Self {
        Stop::NoMemory
    }
}
