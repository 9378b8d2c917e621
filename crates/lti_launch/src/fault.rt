// Why pairs are no launch.
ghost use Rattle.std.specs.Prelude.{◌≡◌};

use crate::LaunchField;
use lti_outside::NoMemory;
use std::alloc::AllocError;

/// Why pairs are no launch: the first of these that holds. The order is this project's own.
#[derive(Clone, Copy, Debug, PartialEq, Eq)]
pub enum LaunchFault {
    /// No `lti_message_type` stands, or one isn't `basic-lti-launch-request`: the message is none or another one.
    WrongType,
    /// No `lti_version` stands, or one isn't `LTI-1p0`: the other end speaks another version of the standard.
    WrongVersion,
    /// No `resource_link_id` stands, or one is empty: the launch doesn't say from where it comes.
    Missing,
    /// The parameter stands twice, and which value is meant can't be told. It is the first such one in the standard's
    /// order.
    Repeated(LaunchField),
    /// There was no memory to find out, and the pairs may be a launch.
    NoMemory,
}

impl From<NoMemory> for LaunchFault {
    ghost use Rattle.lti_launch.specs.declared.fault.LaunchFault.TheVariants as fault;

    ghost from_gives = { λ _ made. made ≡ fault.NoMemory };

    fn from(_error: NoMemory) -> LaunchFault {
        LaunchFault::NoMemory
    }
}

impl From<AllocError> for LaunchFault {
    ghost use Rattle.lti_launch.specs.declared.fault.LaunchFault.TheVariants as fault;

    ghost from_gives = { λ _ made. made ≡ fault.NoMemory };

    fn from(_error: AllocError) -> LaunchFault {
        LaunchFault::NoMemory
    }
}
