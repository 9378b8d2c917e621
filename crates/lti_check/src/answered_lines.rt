// The verdicts of lines that come in whatever pieces.
ghost use Rattle.std.specs.Prelude.{◌≡◌, ◌<◌, length, take, slice_index, MatchOption};
ghost use Rattle.std.specs.Str.Lines.{strip_carriage_return};
ghost use Rattle.lti_check.specs.Lines.{HasNoNewline};

use crate::checker::{Checked, Checker};
use crate::noting::note;
use crate::stop::Stop;
use crate::verdict::{Verdict, push_verdict};
use lti_outside::{Limits, NoMemory, Sink, WriteFault, give_all};
use memchr::memchr;
use nonce_window::NonceWindow;
use std::alloc::Global;
use std::mem;

/// The lines that were answered so far, whatever pieces their bytes came in.
#[derive(Drop)]
pub struct AnsweredLines {
    // The nonces of the calls that were accepted.
    window: NonceWindow,
    // The front of a line whose end wasn't read yet.
    held: Vec<u8>,
    // How many lines have a verdict.
    count: u32,
    // The verdict lines that weren't written yet.
    pending: String,
}

// The place of the first LF.
fn line_end(bytes: &[u8]) -> Option<usize>
    ensures { MatchOption result (HasNoNewline bytes.now)
        (λ end. (end < length bytes.now) × HasNoNewline (take end bytes.now) × (slice_index bytes.now end ≡ 10)) }
{
    memchr(b'\n', bytes)
}

// The line without the CR that stands before its LF.
fn without_carriage_return(line: &[u8]) -> &[u8]
    ensures { result.now ≡ strip_carriage_return line.now }
{
    match line {
        [front @ .., b'\r'] => front,
        _ => line,
    }
}

impl AnsweredLines {
    ghost use Rattle.std.specs.Prelude.{◌≡◌, [], ◌∷◌, ◌++◌, IfOk, OnOk, OnErr, string_bytes};
    ghost use Rattle.lti_outside.specs.Traffic.{Moves, no_fault, GivesFront};
    ghost use Rattle.lti_check.specs.Lines.{HasNoNewline};
    ghost use Rattle.lti_check.specs.CheckerView.{asked, IsReady};
    ghost use Rattle.lti_check.specs.SoFar.{JudgesOver, LineTold, Feeds, Finishes, IsFresh};

    /// No line yet.
    pub fn new(alloc: Global, limits: &Limits) -> Result<AnsweredLines, NoMemory>
        ensures { IfOk result (IsFresh limits.now) }
    {
        Ok(AnsweredLines {
            window: NonceWindow::new(alloc, limits.window)?,
            held: Vec::new(alloc),
            count: 0,
            pending: String::new(alloc),
        })
    }

    // The verdict of a line, after which the call that it may make is noted.
    fn verdict(
        &mut self,
        alloc: Global,
        checker: &Checker,
        line: &[u8],
    ) -> Result<Verdict, NoMemory>
        requires { IsReady checker.now }
        ensures ok { IfOk result (λ verdict. JudgesOver (asked checker.now) checker.now.limits self.old.window line.now verdict self.new.window) }
        ensures same { self.new ≡ record self.old { window = self.new.window } }
    {
        match checker.check(alloc, line)? {
            Checked::BadForm => Ok(Verdict::BadForm),
            Checked::BadSignature => Ok(Verdict::BadSignature),
            Checked::Signed(call) => Ok(Verdict::Replied(note(&mut self.window, &call)?)),
        }
    }

    // Answers a line.
    fn answer(&mut self, alloc: Global, checker: &Checker, line: &[u8]) -> Result<(), Stop>
        requires { IsReady checker.now }
        ensures { LineTold (asked checker.now) checker.now.limits self.old line.now self.new result }
    {
        if self.count >= checker.limits.calls {
            return Err(Stop::Refused);
        }
        if line.len() > checker.limits.body as usize {
            return Err(Stop::Refused);
        }
        match self.verdict(alloc, checker, line) {
            Ok(verdict) => push_verdict(&mut self.pending, alloc, &verdict)?,
            Err(NoMemory) => return Err(Stop::NoMemory),
        }
        self.count += 1;
        Ok(())
    }

    // Holds the front of a line.
    fn begin_line(&mut self, checker: &Checker, part: &[u8]) -> Result<(), Stop>
        requires { HasNoNewline part.now }
        ensures { Feeds (asked checker.now) checker.now.limits self.old part.now self.new result }
    {
        if part.is_empty() {
            return Ok(());
        }
        if self.count >= checker.limits.calls {
            return Err(Stop::Refused);
        }
        if self.held.len() + part.len() > checker.limits.body as usize + 1 {
            return Err(Stop::Refused);
        }
        self.held.extend_from_slice(part)?;
        Ok(())
    }

    // Answers the line that ends with this part and an LF.
    fn end_line(&mut self, alloc: Global, checker: &Checker, part: &[u8]) -> Result<(), Stop>
        requires ready { IsReady checker.now }
        requires part { HasNoNewline part.now }
        ensures { Feeds (asked checker.now) checker.now.limits self.old (part.now ++ 10 ∷ []) self.new result }
    {
        if self.held.is_empty() {
            return self.answer(alloc, checker, without_carriage_return(part));
        }
        self.begin_line(checker, part)?;
        let line = mem::replace(&mut self.held, Vec::new(alloc));
        self.answer(alloc, checker, without_carriage_return(&line))
    }

    /// Answers the lines that end in these bytes, and holds the rest.
    pub fn feed(&mut self, alloc: Global, checker: &Checker, bytes: &[u8]) -> Result<(), Stop>
        requires { IsReady checker.now }
        ensures { Feeds (asked checker.now) checker.now.limits self.old bytes.now self.new result }
    {
        let mut rest = bytes;
        while let Some(end) = line_end(rest) {
            self.end_line(alloc, checker, &rest[..end])?;
            rest = &rest[end + 1..];
        }
        self.begin_line(checker, rest)
    }

    /// Writes the verdict lines that are pending. On an `Err` they stay, and a proper front of them was written.
    pub fn write_to<O: Sink>(&mut self, sink: &mut O) -> Result<(), WriteFault>
        ensures given { OnOk result (Moves (O.traffic sink.old) (O.traffic sink.new) [] (string_bytes self.old.pending) no_fault) }
        ensures none { OnOk result (string_bytes self.new.pending ≡ []) }
        ensures same { OnOk result (self.new ≡ record self.old { pending = self.new.pending }) }
        ensures failed { OnErr result (GivesFront (O.traffic sink.old) (O.traffic sink.new) (string_bytes self.old.pending)) }
        ensures err { OnErr result (self.new ≡ self.old) }
    {
        give_all(sink, self.pending.as_bytes())?;
        self.pending.clear();
        Ok(())
    }

    /// Answers the last line, where the input ended without an LF.
    pub fn finish(&mut self, alloc: Global, checker: &Checker) -> Result<(), Stop>
        requires { IsReady checker.now }
        ensures { Finishes (asked checker.now) checker.now.limits self.old self.new result }
    {
        if self.held.is_empty() {
            return Ok(());
        }
        let line = mem::replace(&mut self.held, Vec::new(alloc));
        self.answer(alloc, checker, &line)
    }
}
