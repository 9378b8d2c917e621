// What a connection asks.
ghost use Rattle.std.specs.Prelude.{◌≡◌, true};
ghost use Rattle.lti_machine.specs.Belongs.{belongs};
ghost use Rattle.lti_machine.specs.Sound.{IsSound};
ghost use Rattle.lti_machine.specs.declared.call.Call.{Call};
ghost use Rattle.lti_machine.specs.declared.reply.Reply.{Reply};

use lti_machine::{Call, Reply};

/// Whatever answers calls one by one, and doesn't wait for others.
pub trait Machine {
    /// What a call, its reply, and the machine before and after it have to do with each other.
    ghost step: { Self → Call → Reply → Self → Type 0 };

    /// Answers a call by a reply that belongs to it.
    fn answer(&mut self, call: Call) -> Reply
        requires sound { IsSound call }
        ensures step { step self.old call result self.new }
        ensures belongs { belongs call.action result ≡ true };
}
