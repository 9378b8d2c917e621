// Messages of a connection.
ghost use Rattle.std.specs.Prelude.{◌≡◌, ◌++◌, ℕ, List, [], true, false, OnOk, OnErr, IfOk, IfSome};
ghost use Rattle.lti_outside.specs.Limits.{IsSound};
ghost use Rattle.lti_outside.specs.Traffic.{Moves, IsAtEnd};
ghost use Rattle.http_wire.specs.Spelling.{ReadTells, fault_of};
ghost use Rattle.http_wire.specs.Answer.{AnswerTells};

use crate::head::read_head;
use crate::intake::Intake;
use crate::message::{Answered, Request};
use crate::taking::{take_answer_body, take_body, take_head};
use crate::{WireFault, answer_head};
use lti_outside::{Limits, Link, Source, Tap};
use std::alloc::Global;
use std::marker::Model;

/// The reading end of a connection, seen as the bytes that it has taken and not given, and whether it has failed. It
/// has a buffer of 16,384 bytes within.
#[derive(Drop)]
pub struct Wire {
    intake: Intake,
    failed: bool,
}

impl Model for Wire {
    ghost use Rattle.http_wire.specs.Spelling.{WireState};

    ghost Value = { WireState };

    ghost view = { λ w. record { kept = w.intake; failed = w.failed } };
}

// The next request. After an error what the buffer holds is no longer meant.
fn read_message<S: Source, T: Tap>(
    intake: &mut Intake,
    alloc: Global,
    source: &mut S,
    tap: &mut T,
    limits: &Limits,
) -> Result<Option<Request>, WireFault>
    requires { IsSound limits.now }
    ensures bytes { (read : List ℕ) × Moves (S.traffic source.old) (S.traffic source.new) read [] (fault_of result)
        × ReadTells limits.now (intake.old ++ read) intake.new (IsAtEnd (S.traffic source.new)) result }
    ensures fed { IfOk result (λ found. IfSome found (λ request. (fed : List ℕ) → T.holds tap.old fed → T.holds tap.new (fed ++ request.body.list))) }
{
    let Some(head) = take_head(intake, alloc, source, limits.head)? else {
        return Ok(None);
    };
    let front = read_head(alloc, head.get(), limits)?;
    let body = take_body(intake, alloc, source, tap, front.length)?;
    Ok(Some(Request {
        body,
        ..front.request
    }))
}

// The next answer. After an error what the buffer holds is no longer meant.
fn read_answer<S: Source>(
    intake: &mut Intake,
    alloc: Global,
    source: &mut S,
    limits: &Limits,
) -> Result<Answered, WireFault>
    requires { IsSound limits.now }
    ensures { (read : List ℕ) × Moves (S.traffic source.old) (S.traffic source.new) read [] (fault_of result)
        × AnswerTells limits.now (intake.old ++ read) intake.new (IsAtEnd (S.traffic source.new)) result }
{
    let Some(head) = take_head(intake, alloc, source, limits.head)? else {
        return Err(WireFault::CutShort);
    };
    let front = answer_head::read_head(alloc, head.get(), limits)?;
    let body = take_answer_body(intake, alloc, source, front.length, limits.body)?;
    Ok(Answered {
        status: front.status,
        media: front.media,
        body,
    })
}

impl Wire {
    /// A wire that has taken nothing.
    pub fn new() -> Wire
        ensures { result ≡ record { kept = []; failed = false } }
    {
        Wire {
            intake: Intake::new(),
            failed: false,
        }
    }

    /// Whether a call on it has failed. It gives no further message then.
    pub fn failed(&self) -> bool
        ensures { result ≡ self.now.failed }
    {
        self.failed
    }

    /// Takes one request (RFC 9112, section 2), or none where the input is at its end and no byte of a request has come.
    /// The tap is fed the body in pieces, as they come. Bytes behind the request are kept for the next call. After an
    /// `Err` the wire has failed, and the tap may have been fed a front of the body.
    pub fn read_request<L: Link, T: Tap>(
        &mut self,
        alloc: Global,
        link: &mut L,
        tap: &mut T,
        limits: &Limits,
    ) -> Result<Option<Request>, WireFault>
        requires sound { IsSound limits.now }
        requires lives { self.old.failed ≡ false }
        ensures bytes { (read : List ℕ) × Moves (L.traffic link.old) (L.traffic link.new) read [] (fault_of result)
            × ReadTells limits.now (self.old.kept ++ read) self.new.kept (IsAtEnd (L.traffic link.new)) result }
        ensures fed { IfOk result (λ found. IfSome found (λ request. (fed : List ℕ) → T.holds tap.old fed → T.holds tap.new (fed ++ request.body.list))) }
        ensures ok { OnOk result (self.new.failed ≡ false) }
        ensures err { OnErr result (self.new.failed ≡ true) }
    {
        let found = read_message(&mut self.intake, alloc, link, tap, limits);
        self.failed = found.is_err();
        found
    }

    /// Takes one answer (RFC 9112, section 4). Without `Content-Length` its body is all up to the end of input. Bytes
    /// behind the answer are kept for the next call. After an `Err` the wire has failed.
    pub fn read_response<L: Link>(
        &mut self,
        alloc: Global,
        link: &mut L,
        limits: &Limits,
    ) -> Result<Answered, WireFault>
        requires sound { IsSound limits.now }
        requires lives { self.old.failed ≡ false }
        ensures bytes { (read : List ℕ) × Moves (L.traffic link.old) (L.traffic link.new) read [] (fault_of result)
            × AnswerTells limits.now (self.old.kept ++ read) self.new.kept (IsAtEnd (L.traffic link.new)) result }
        ensures ok { OnOk result (self.new.failed ≡ false) }
        ensures err { OnErr result (self.new.failed ≡ true) }
    {
        let found = read_answer(&mut self.intake, alloc, link, limits);
        self.failed = found.is_err();
        found
    }
}
