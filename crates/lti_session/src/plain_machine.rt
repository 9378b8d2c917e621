// The plain machine, as a connection asks it.
ghost use Rattle.std.specs.Prelude.{◌≡◌};

use crate::machines::Machine;
use lti_machine::{Call, Reply, Solo};
use lti_outside::Limits;
use std::marker::Model;

/// The plain machine with the limits that it answers under.
#[derive(Drop)]
pub struct PlainMachine {
    solo: Solo,
    limits: Limits,
}

impl Model for PlainMachine {
    ghost use Rattle.lti_session.specs.Plain.{PlainState};

    ghost Value = { PlainState };

    ghost view = { λ m. record { accepted = m.solo; window = m.limits.window } };
}

impl PlainMachine {
    /// The machine that goes on from what this one has accepted.
    pub fn new(solo: Solo, limits: &Limits) -> PlainMachine
        ensures { result ≡ record { accepted = solo; window = limits.now.window } }
    {
        PlainMachine {
            solo,
            limits: *limits,
        }
    }

    /// All that it has accepted.
    pub fn solo(&self) -> &Solo
        ensures { result.now ≡ self.now.accepted }
    {
        &self.solo
    }
}

impl Machine for PlainMachine {
    ghost use Rattle.lti_session.specs.Plain.{PlainStep};

    ghost step = { PlainStep };

    fn answer(&mut self, call: Call) -> Reply {
        self.solo.answer(call, &self.limits)
    }
}
