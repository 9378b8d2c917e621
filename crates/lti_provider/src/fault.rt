// Why a message asks nothing of the machine.
use lti_launch::LaunchFault;
use lti_outside::NoMemory;
use thiserror::Error;

/// Why a message asks nothing of the machine.
#[derive(Debug, Drop, Error)]
pub enum ProviderFault {
    /// The parameters are no basic launch, for this cause, which is never `NoMemory`.
    #[error("no basic launch")]
    Launch(LaunchFault),
    /// There was no memory to find out, and the message may be a launch.
    #[error("want of memory")]
    NoMemory,
}

impl From<NoMemory> for ProviderFault {
    ghost use Rattle.std.specs.Prelude.{◌≡◌};
    ghost use Rattle.lti_provider.specs.declared.fault.ProviderFault.TheVariants as fault;

    ghost from_gives = { λ _ made. made ≡ fault.NoMemory };

    fn from(_: NoMemory) -> ProviderFault {
        ProviderFault::NoMemory
    }
}
