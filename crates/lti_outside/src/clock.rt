// Clocks, by the moments that they give.
ghost use Rattle.std.specs.Prelude.{◌≡◌, ◌≤◌, ℕ};
ghost use Rattle.lti_outside.specs.Moment.{IsTold};

use std::time;

/// The greatest moment, in seconds since 1970-01-01 00:00:00 UTC: fifteen decimal digits. This bound is this
/// project's own.
const GREATEST_MOMENT: u64 = 999_999_999_999_999;

/// Something that gives moments, in seconds since 1970-01-01 00:00:00 UTC.
pub trait Clock {
    ghost use Rattle.std.specs.Prelude.{ℕ, Option};

    /// The one moment that it gives, where it tells that.
    ghost tells: { Self → Option ℕ };

    /// The moment now, at most 999,999,999,999,999.
    fn now(&self) -> u64
        ensures bound { result ≤ 999_999_999_999_999 }
        ensures told { IsTold (tells self.now) result };
}

/// A clock that stands, for tests and for commands that are given their moment.
#[derive(Clone, Copy, Debug)]
pub struct FixedClock {
    moment: u64,
    ghost in_range: { moment ≤ 999_999_999_999_999 },
}

impl FixedClock {
    /// A clock that gives this moment, of at most 999,999,999,999,999 seconds.
    pub fn new(moment: u64) -> FixedClock
        requires { moment ≤ 999_999_999_999_999 }
        ensures { result.moment ≡ moment }
    {
        FixedClock { moment }
    }
}

impl Clock for FixedClock {
    ghost use Rattle.std.specs.Prelude.{Some};

    ghost tells = { λ clock. Some clock.moment };

    fn now(&self) -> u64 {
        self.moment
    }
}

/// The system's clock. It tells no moment: that it is right is nothing that a contract says.
#[derive(Drop)]
pub struct SystemClock<C: time::Clock> {
    clock: C,
}

impl<C: time::Clock> SystemClock<C> {
    /// A clock that reads the runtime's.
    pub fn new(clock: C) -> SystemClock<C> {
        SystemClock { clock }
    }
}

impl<C: time::Clock> Clock for SystemClock<C> {
    ghost use Rattle.std.specs.Prelude.{None};

    ghost tells = { λ _. None };

    // A clock that can't be read gives 0, at which every signed message is outside its window.
    fn now(&self) -> u64 {
        match self.clock.since_1970() {
            Ok(time) => time.as_secs().min(GREATEST_MOMENT),
            Err(_) => 0,
        }
    }
}
