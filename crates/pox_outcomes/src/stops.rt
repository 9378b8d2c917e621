// Where reading stops.
use lti_outside::NoMemory;
use std::alloc::AllocError;

/// How many bytes are left behind the longest front that some document goes on from.
#[derive(Clone, Copy)]
pub struct Left {
    pub left: usize,
}

/// Why a reader that takes memory stopped.
#[derive(Clone, Copy)]
pub enum Halt {
    Stopped(Left),
    NoMemory,
}

impl From<Left> for Halt {
    ghost use Rattle.std.specs.Prelude.{◌≡◌};
    ghost use Rattle.pox_outcomes.specs.declared.stops.Halt.TheVariants as halt;

    ghost from_gives = { λ stop made. made ≡ halt.Stopped stop };

    fn from(stop: Left) -> Halt {
        Halt::Stopped(stop)
    }
}

impl From<AllocError> for Halt {
    ghost use Rattle.std.specs.Prelude.{◌≡◌};
    ghost use Rattle.pox_outcomes.specs.declared.stops.Halt.TheVariants as halt;

    ghost from_gives = { λ _ made. made ≡ halt.NoMemory };

    fn from(_error: AllocError) -> Halt {
        Halt::NoMemory
    }
}
