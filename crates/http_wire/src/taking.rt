// Heads and bodies, taken from a connection.
ghost use Rattle.std.specs.Prelude.{◌≡◌, ◌≤◌, ◌<◌, ◌-◌, ◌++◌, ℕ, List, [], IfOk, MatchOption, length, take, true, false, ⊤};
ghost use Rattle.lti_outside.specs.Traffic.{Moves, IsAtEnd};
ghost use Rattle.http_wire.specs.Shape.{head_end};
ghost use Rattle.http_wire.specs.Spelling.{fault_of};
ghost use Rattle.http_wire.specs.Taking.{HasNoLineFeed, IsRun, HandTells, HeadTaken, BodyTaken};
ghost use Rattle.http_wire.specs.AnswerFront.{RestTaken, AnswerBodyTaken};

use crate::WireFault;
use crate::intake::Intake;
use lti_outside::{Bytes, Source, Tap};
use memchr::memchr;
use std::alloc::Global;

// The place of the first LF.
fn line_end(bytes: &[u8]) -> Option<usize>
    ensures { MatchOption result (HasNoLineFeed bytes.now)
        (λ end. (end < length bytes.now) × HasNoLineFeed (take end bytes.now)) }
{
    memchr(b'\n', bytes)
}

// How many bytes stand up to the first LF and with it, or all of them.
fn run_len(bytes: &[u8]) -> usize
    ensures bound { result ≤ length bytes.now }
    ensures some { 0 < length bytes.now → 0 < result }
    ensures run { HasNoLineFeed (take (result - 1) bytes.now) }
{
    match line_end(bytes) {
        Some(place) => place + 1,
        None => bytes.len(),
    }
}

// Hands on the next bytes up to an LF, at most so many. None come only at the end.
fn hand_run<S: Source>(
    intake: &mut Intake,
    source: &mut S,
    most: usize,
    head: &mut Bytes,
) -> Result<usize, WireFault>
    requires { 0 < most }
    ensures { (read : List ℕ) × Moves (S.traffic source.old) (S.traffic source.new) read [] (fault_of result)
        × HandTells IsRun most (intake.old ++ read) intake.new head.old.list head.new.list (IsAtEnd (S.traffic source.new)) result }
{
    intake.fill(source)?;
    let held = intake.held();
    let count = most.min(run_len(held));
    head.push(&held[..count])?;
    intake.skip(count);
    Ok(count)
}

// Hands on the next bytes, at most so many, to a list and to a tap. None come only at the end.
fn hand<S: Source, T: Tap>(
    intake: &mut Intake,
    source: &mut S,
    most: usize,
    body: &mut Bytes,
    tap: &mut T,
) -> Result<usize, WireFault>
    requires { 0 < most }
    ensures bytes { (read : List ℕ) × Moves (S.traffic source.old) (S.traffic source.new) read [] (fault_of result)
        × HandTells (λ _. ⊤) most (intake.old ++ read) intake.new body.old.list body.new.list (IsAtEnd (S.traffic source.new)) result }
    ensures fed { IfOk result (λ _. (piece : List ℕ) × (body.new.list ≡ body.old.list ++ piece)
        × ((fed : List ℕ) → T.holds tap.old fed → T.holds tap.new (fed ++ piece))) }
{
    intake.fill(source)?;
    let held = intake.held();
    let count = most.min(held.len());
    let piece = &held[..count];
    body.push(piece)?;
    tap.feed(piece);
    intake.skip(count);
    Ok(count)
}

fn ends_head(bytes: &[u8]) -> bool
    ensures yes { result ≡ true → (front : List ℕ) × (bytes.now ≡ front ++ head_end) }
    ensures no { result ≡ false → (front : List ℕ) → bytes.now ≡ front ++ head_end → ⊥ }
{
    bytes.ends_with(b"\r\n\r\n")
}

/// The bytes up to the first CR LF CR LF, or none at the end of input.
pub fn take_head<S: Source>(
    intake: &mut Intake,
    alloc: Global,
    source: &mut S,
    most: u32,
) -> Result<Option<Bytes>, WireFault>
    ensures { (read : List ℕ) × Moves (S.traffic source.old) (S.traffic source.new) read [] (fault_of result)
        × HeadTaken most (intake.old ++ read) intake.new (IsAtEnd (S.traffic source.new)) result }
{
    let most = most as usize;
    let mut head = Bytes::new(alloc);
    'runs: while head.get().len() < most {
        let left = most - head.get().len();
        if hand_run(intake, source, left, &mut head)? == 0 {
            if head.get().is_empty() {
                return Ok(None);
            }
            return Err(WireFault::CutShort);
        }
        if ends_head(head.get()) {
            return Ok(Some(head));
        }
    }
    Err(WireFault::HeadTooLong)
}

/// So many bytes. The tap is fed each piece as it comes.
pub fn take_body<S: Source, T: Tap>(
    intake: &mut Intake,
    alloc: Global,
    source: &mut S,
    tap: &mut T,
    count: usize,
) -> Result<Bytes, WireFault>
    ensures bytes { (read : List ℕ) × Moves (S.traffic source.old) (S.traffic source.new) read [] (fault_of result)
        × BodyTaken count (intake.old ++ read) intake.new (IsAtEnd (S.traffic source.new)) result }
    ensures fed { IfOk result (λ body. (fed : List ℕ) → T.holds tap.old fed → T.holds tap.new (fed ++ body.list)) }
{
    let most = count;
    let mut body = Bytes::new(alloc);
    body.reserve(count)?;
    'pieces: while body.get().len() < most {
        let left = most - body.get().len();
        if hand(intake, source, left, &mut body, tap)? == 0 {
            return Err(WireFault::CutShort);
        }
    }
    Ok(body)
}

/// A tap that keeps nothing.
#[derive(Drop)]
pub struct Untapped;

impl Tap for Untapped {
    ghost holds = { λ _ _. Unit {0} };

    fn feed(&mut self, _: &[u8]) {}
}

// All bytes up to the end of input, at most so many.
fn take_rest<S: Source>(
    intake: &mut Intake,
    alloc: Global,
    source: &mut S,
    most: u32,
) -> Result<Bytes, WireFault>
    ensures { (read : List ℕ) × Moves (S.traffic source.old) (S.traffic source.new) read [] (fault_of result)
        × RestTaken most (intake.old ++ read) intake.new (IsAtEnd (S.traffic source.new)) result }
{
    let most = most as usize;
    let mut rest = Bytes::new(alloc);
    'pieces: while rest.get().len() <= most {
        let left = most + 1 - rest.get().len();
        if hand(intake, source, left, &mut rest, &mut Untapped)? == 0 {
            return Ok(rest);
        }
    }
    Err(WireFault::BodyTooLong)
}

/// The body of an answer: so many bytes, or all up to the end of input, at most `most`.
pub fn take_answer_body<S: Source>(
    intake: &mut Intake,
    alloc: Global,
    source: &mut S,
    said: Option<usize>,
    most: u32,
) -> Result<Bytes, WireFault>
    ensures { (read : List ℕ) × Moves (S.traffic source.old) (S.traffic source.new) read [] (fault_of result)
        × AnswerBodyTaken most said (intake.old ++ read) intake.new (IsAtEnd (S.traffic source.new)) result }
{
    match said {
        Some(count) => take_body(intake, alloc, source, &mut Untapped, count),
        None => take_rest(intake, alloc, source, most),
    }
}
