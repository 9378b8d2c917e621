// A session: the requests of a connection, their answers, and the calls that they make.
ghost use Rattle.std.specs.Prelude.{◌≡◌, ◌<◌, ◌+◌, ◌^◌};
ghost use Rattle.http_wire.specs.Message.{parts_of};
ghost use Rattle.lti_session.specs.Exchange as exchange;

use crate::asks::{Ask, Next};
use crate::before::{Before, judge};
use crate::pending::{Pending, reserve_answer};
use crate::rendering::render_into;
use crate::session_end::SessionEnd;
use crate::wire_faults::refuse;
use http_wire::{Request, Untapped, Wire, WireFault, write_answer, write_response};
use lti_machine::{Action, Call, Reply};
use lti_outside::{Clock, Limits, Link, WriteFault};
use lti_settings::Settings;
use oauth_request::Signed;
use std::alloc::Global;
use std::marker::Model;

/// A session: the reading end of a connection, how many requests it has answered, and whether it owes an answer.
#[derive(Drop)]
pub struct Session {
    wire: Wire,
    caller: u32,
    count: u32,
    over: bool,
    pending: Option<Pending>,
    ended: bool,
}

impl Model for Session {
    ghost use Rattle.std.specs.Prelude.{◌≡◌, false};
    ghost use Rattle.std.specs.Option.{option_map};
    ghost use Rattle.lti_session.specs.State.{SessionState};

    ghost Value = { SessionState };

    ghost view = { λ s. record {
      kept = s.wire.kept;
      caller = s.caller;
      count = s.count;
      over = s.over;
      pending = option_map (λ p. record { ends = p.ends; outcome = p.outcome }) s.pending;
      ended = s.ended;
    } };

    ghost invariant = { λ s. s.ended ≡ false → s.wire.failed ≡ false };
}

// Whether the connection ends with the answer to this request.
fn ends_with(request: &Request, count: u32, limits: &Limits) -> bool
    requires { count < limits.now.requests }
    ensures fits { count + 1 < 2 ^ 32 }
    ensures ends { result ≡ exchange.ends_with limits.now count (parts_of request.now) }
{
    let allowed = limits.requests;
    request.close || count + 1 >= allowed
}

// The call that a well signed request makes.
fn signed_call(caller: u32, moment: u64, signed: Signed, action: Action) -> Call
    ensures { result ≡ record { caller = caller; moment = moment; key = signed.key; timestamp = signed.timestamp; nonce = signed.nonce; action = action } }
{
    Call {
        caller,
        moment,
        key: signed.key,
        timestamp: signed.timestamp,
        nonce: signed.nonce,
        action,
    }
}

impl Session {
    ghost use Rattle.std.specs.Prelude.{◌≡◌, ◌<◌, ◌+◌, ℕ, List, [], ◌++◌, true, false, None, is_some, OnOk, OnErr};
    ghost use Rattle.lti_outside.specs.Limits.{IsSound};
    ghost use Rattle.lti_outside.specs.Traffic.{Moves, Fault, no_fault, GivesFront};
    ghost use Rattle.http_wire.specs.Message.{parts_of};
    ghost use Rattle.http_wire.specs.Spelling.{Spelling};
    ghost use Rattle.lti_session.specs.Talk.{Talks, Spoken, stage_of, next_stage, OnRefused, IsOwed, HasAnswer, ends_then};

    /// A session of a connection from which nothing was taken. `caller` is the number that its calls have.
    pub fn new(caller: u32) -> Session
        ensures { result ≡ record { kept = []; caller = caller; count = 0; over = false; pending = None; ended = false } }
    {
        Session {
            wire: Wire::new(),
            caller,
            count: 0,
            over: false,
            pending: None,
            ended: false,
        }
    }

    /// Whether it waits for the reply to a call.
    pub fn waiting(&self) -> bool
        ensures { result ≡ is_some self.now.pending }
    {
        self.pending.is_some()
    }

    /// Whether the connection has ended: an `ask` has answered `End`, or a `tell` has failed.
    pub fn ended(&self) -> bool
        ensures { result ≡ self.now.ended }
    {
        self.ended
    }

    // Answers a request that was read, or makes its call.
    fn take<L: Link, C: Clock>(
        &mut self,
        alloc: Global,
        request: Request,
        link: &mut L,
        settings: &Settings,
        clock: &C,
        limits: &Limits,
    ) -> Next
        requires sound { IsSound limits.now }
        requires idle { self.old.pending ≡ None }
        requires lives { self.old.ended ≡ false }
        requires open { self.old.over ≡ false }
        requires below { self.old.count < limits.now.requests }
        ensures talk { (written : List ℕ) × (fault : Fault) × Moves (L.traffic link.old) (L.traffic link.new) [] written fault
            × ((spelled : List ℕ) → Spelling limits.now spelled (parts_of request)
            → Talks (record { limits = limits.now; caller = self.old.caller; keys = settings.now.keys; scheme = settings.now.scheme; clock = C.tells clock.now })
            (L.traffic link.new) (record self.old { kept = spelled ++ self.old.kept }) self.new [] written [] fault (next_stage result)) }
        ensures caller { self.new.caller ≡ self.old.caller }
        ensures count { OnRefused result (self.new.count ≡ self.old.count + 1) }
    {
        let ends = ends_with(&request, self.count, limits);
        match judge(alloc, &request, &settings.keys, settings.scheme, limits) {
            Ok(Before::Refused(response)) => {
                self.count += 1;
                match write_response(link, &response, ends) {
                    Ok(()) => {
                        self.over = ends;
                        Next::Refused
                    }
                    Err(_) => {
                        self.ended = true;
                        Next::Over(SessionEnd::WriteFault)
                    }
                }
            }
            Ok(
                Before::Asked {
                    signed,
                    outcome,
                    action,
                },
            ) => match reserve_answer(alloc, ends, outcome) {
                Ok(pending) => {
                    self.count += 1;
                    self.pending = Some(pending);
                    Next::Asked(signed_call(self.caller, clock.now(), signed, action))
                }
                Err(_) => {
                    self.ended = true;
                    Next::Over(refuse(link, WireFault::NoMemory))
                }
            },
            Err(_) => {
                self.ended = true;
                Next::Over(refuse(link, WireFault::NoMemory))
            }
        }
    }

    // Reads a message, and answers it or makes its call.
    fn next<L: Link, C: Clock>(
        &mut self,
        alloc: Global,
        link: &mut L,
        settings: &Settings,
        clock: &C,
        limits: &Limits,
    ) -> Next
        requires sound { IsSound limits.now }
        requires idle { self.old.pending ≡ None }
        requires lives { self.old.ended ≡ false }
        ensures talk { Spoken (record { limits = limits.now; caller = self.old.caller; keys = settings.now.keys; scheme = settings.now.scheme; clock = C.tells clock.now })
            (L.traffic link.old) (L.traffic link.new) self.old self.new [] (next_stage result) }
        ensures caller { self.new.caller ≡ self.old.caller }
        ensures count { OnRefused result ((self.new.count ≡ self.old.count + 1) × (self.old.count < limits.now.requests)) }
    {
        if self.count >= limits.requests {
            self.ended = true;
            return Next::Over(SessionEnd::LimitReached);
        }
        if self.over {
            self.ended = true;
            return Next::Over(SessionEnd::Ended);
        }
        match self.wire.read_request(alloc, link, &mut Untapped, limits) {
            Ok(Some(request)) => self.take(alloc, request, link, settings, clock, limits),
            Ok(None) => {
                self.ended = true;
                Next::Over(SessionEnd::Ended)
            }
            Err(fault) => {
                self.ended = true;
                Next::Over(refuse(link, fault))
            }
        }
    }

    /// Reads messages, and answers those that are refused before the machine is asked, until one makes a call or the
    /// connection ends. All memory that the answer to the call can need is then taken.
    ///
    /// It neither waits for a reply nor has it ended before. Behind an answer that ends the connection, and where
    /// `limits.requests` messages were answered, it answers `End` and doesn't touch the link.
    pub fn ask<L: Link, C: Clock>(
        &mut self,
        alloc: Global,
        link: &mut L,
        settings: &Settings,
        clock: &C,
        limits: &Limits,
    ) -> Ask
        requires sound { IsSound limits.now }
        requires idle { self.old.pending ≡ None }
        requires lives { self.old.ended ≡ false }
        ensures talk { Spoken (record { limits = limits.now; caller = self.old.caller; keys = settings.now.keys; scheme = settings.now.scheme; clock = C.tells clock.now })
            (L.traffic link.old) (L.traffic link.new) self.old self.new [] (stage_of result) }
        ensures caller { self.new.caller ≡ self.old.caller }
    {
        'messages: loop {
            match self.next(alloc, link, settings, clock, limits) {
                Next::Refused => {}
                Next::Asked(call) => return Ask::Call(call),
                Next::Over(end) => return Ask::End(end),
            }
        }
    }

    /// Writes the answer to the call that waits; the reply belongs to that call, and so has an answer
    /// (`what_belongs_is_answered`). At an `Err` a proper front of it was written, and the session has ended. It takes no
    /// memory.
    pub fn tell<L: Link>(&mut self, link: &mut L, reply: Reply) -> Result<(), WriteFault>
        requires fits { HasAnswer self.old.pending reply }
        requires lives { self.old.ended ≡ false }
        ensures told { OnOk result ((answer : List ℕ) × IsOwed self.old.pending reply answer × Moves (L.traffic link.old) (L.traffic link.new) [] answer no_fault) }
        ensures cut { OnErr result ((answer : List ℕ) × IsOwed self.old.pending reply answer × GivesFront (L.traffic link.old) (L.traffic link.new) answer) }
        ensures ok { OnOk result (self.new ≡ record self.old { pending = None; over = ends_then self.old.pending }) }
        ensures err { OnErr result (self.new.ended ≡ true) }
    {
        let Some(pending) = self.pending.take() else {
            unreachable!()
        };
        let Pending {
            ends,
            outcome,
            mut body,
        } = pending;
        let (status, media) = render_into(&mut body, &outcome, reply);
        self.over = ends;
        let told = write_answer(link, status, media, body.get(), ends);
        self.ended = told.is_err();
        told
    }
}
