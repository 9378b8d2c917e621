// The command `check`: a verdict line for each line of input.
ghost use Rattle.std.specs.Prelude.{◌<◌, length};
ghost use Rattle.lti_outside.specs.Limits.{IsSound};
ghost use Rattle.lti_words.specs.Command.{IsInRange};
ghost use Rattle.lti_words.specs.CommandView.{check_of};
ghost use Rattle.lti_check.specs.CheckerView.{asked, IsReady};
ghost use Rattle.lti_check.specs.SoFar.{Turns};
ghost use Rattle.lti_check.specs.Ending.{EndsWith};
ghost use Rattle.lti_check.specs.Verdicts.{Checks};

use crate::answered_lines::AnsweredLines;
use crate::checker::Checker;
use crate::stop::Stop;
use lti_outside::{Limits, Link};
use lti_words::{Check, Status};
use std::alloc::Global;

// How many bytes are asked of the link at a time.
const BLOCK_LEN: usize = 65_536;

// Takes bytes once, and writes the verdicts of the lines that they end. Answers whether the input has ended.
fn turn<I: Link>(
    alloc: Global,
    checker: &Checker,
    answered: &mut AnsweredLines,
    block: &mut [u8],
    ends: &mut I,
) -> Result<bool, Stop>
    requires ready { IsReady checker.now }
    requires room { 0 < length block.old }
    ensures { Turns (asked checker.now) checker.now.limits (I.traffic ends.old) (I.traffic ends.new) answered.old answered.new result }
{
    let count = ends.take(block)?;
    if count == 0 {
        let finished = answered.finish(alloc, checker);
        answered.write_to(ends)?;
        finished?;
        return Ok(true);
    }
    let fed = answered.feed(alloc, checker, &block[..count]);
    answered.write_to(ends)?;
    fed?;
    Ok(false)
}

/// Answers the lines of the link, until it ends or a line is refused. The verdicts of the lines of one read
/// are written before the next.
pub fn check_lines<I: Link>(
    alloc: Global,
    check: &Check<'_>,
    ends: &mut I,
    limits: &Limits,
) -> Result<(), Stop>
    requires sound { IsSound limits.now }
    requires range { IsInRange (check_of check.now) }
    ensures { Checks (check_of check.now) limits.now (I.traffic ends.old) (I.traffic ends.new) result }
{
    let checker = Checker::new(alloc, check, limits)?;
    let mut answered = AnsweredLines::new(alloc, limits)?;
    let mut block = vec![in alloc; 0u8; BLOCK_LEN]?;
    // Each turn takes at least one of the bytes that the limits allow.
    'turns: loop {
        if turn(alloc, &checker, &mut answered, &mut block, ends)? {
            return Ok(());
        }
    }
}

/// Does what `check` is asked: writes a verdict line for each line of the link, until it ends or a line is refused, and
/// answers how the run ends. The verdicts of the lines of one read are written before the next.
pub fn check<I: Link>(alloc: Global, asked: &Check<'_>, ends: &mut I, limits: &Limits) -> Status
    requires sound { IsSound limits.now }
    requires range { IsInRange (check_of asked.now) }
    ensures { EndsWith (check_of asked.now) limits.now (I.traffic ends.old) (I.traffic ends.new) result }
{
    match check_lines(alloc, asked, ends, limits) {
        Ok(()) => Status::Done,
        Err(stop) => stop.status(),
    }
}
