// A whole connection.
ghost use Rattle.lti_outside.specs.Limits.{IsSound};
ghost use Rattle.lti_session.specs.Transcript.{IsServed};

use crate::asking::Session;
use crate::asks::Ask;
use crate::machines::Machine;
use crate::session_end::SessionEnd;
use lti_outside::{Clock, Limits, Link};
use lti_settings::Settings;
use std::alloc::Global;

/// Serves a connection: asks, has the machine answer, and tells, until the connection ends. The machine is asked with the
/// caller 0.
///
/// Each message that the bytes read spell is answered in order: as its refusal says, or as the machine's reply to its call
/// is rendered. The machine makes one step for each call.
pub fn session<L: Link, M: Machine, C: Clock>(
    alloc: Global,
    link: &mut L,
    machine: &mut M,
    settings: &Settings,
    clock: &C,
    limits: &Limits,
) -> SessionEnd
    requires { IsSound limits.now }
    ensures { IsServed M.step (record { limits = limits.now; caller = 0; keys = settings.now.keys; scheme = settings.now.scheme; clock = C.tells clock.now })
        (L.traffic link.old) (L.traffic link.new) machine.old machine.new result }
{
    let mut session = Session::new(0);
    'calls: loop {
        match session.ask(alloc, link, settings, clock, limits) {
            Ask::End(end) => return end,
            Ask::Call(call) => {
                let reply = machine.answer(call);
                match session.tell(link, reply) {
                    Ok(()) => {}
                    Err(_) => return SessionEnd::WriteFault,
                }
            }
        }
    }
}
