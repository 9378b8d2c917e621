//! The report of grades, over a machine in memory. What the commands do over a journal is shown by the cases of `run_cases`.
ghost use Rattle.score_decimal.specs.Points.{IsAsked, IsNear};

use super::*;
use lti_machine::{Action, Call, Solo};
use lti_outside::{Limits, MemoryLink, MemorySink, MemorySource, Text};
use lti_words::Rounding;
use score_decimal::{Scale, Score, ceiling_points, floor_points, nearest_points};
use std::alloc::Global;
use std::process::Abort;
use std::test::Fail;

fn floor(n: u128, max: u32) -> u32
    requires { IsAsked n max }
    ensures { IsNear n max result }
{
    floor_points(n, max)
}

fn nearest(n: u128, max: u32) -> u32
    requires { IsAsked n max }
    ensures { IsNear n max result }
{
    nearest_points(n, max)
}

fn ceiling(n: u128, max: u32) -> u32
    requires { IsAsked n max }
    ensures { IsNear n max result }
{
    ceiling_points(n, max)
}

fn scales(alloc: Global) -> Result<Scales, Fail> {
    Ok(Scales {
        floor: Scale::new(Box::new(alloc, floor)?),
        nearest: Scale::new(Box::new(alloc, nearest)?),
        ceiling: Scale::new(Box::new(alloc, ceiling)?),
    })
}

// A call that is signed at this moment, with this nonce.
fn signed(alloc: Global, nonce: &str, action: Action) -> Result<Call, Fail> {
    Ok(Call {
        caller: 0,
        moment: 1_400_000_000,
        key: Text::new(alloc, "12345")?,
        timestamp: 1_400_000_000,
        nonce: Text::new(alloc, nonce)?,
        action,
    })
}

fn issued(alloc: Global, id: &str) -> Result<Call, Fail> {
    Ok(Call {
        timestamp: 0,
        ..signed(
            alloc,
            "",
            Action::Issue {
                id: Text::new(alloc, id)?,
            },
        )?
    })
}

// Has the machine accept a call.
fn accept(rt: &impl Abort, solo: &mut Solo, call: Call) {
    assert!(rt; call.sound());
    let accepted = solo.answer(call, &Limits::usual()).is_acceptance();
    assert!(rt; accepted);
}

// A machine that has issued two ids and graded the first of them.
fn graded(rt: &impl Abort, alloc: Global) -> Result<Solo, Fail> {
    let mut solo = Solo::new(alloc);
    accept(rt, &mut solo, issued(alloc, "3124567")?);
    accept(rt, &mut solo, issued(alloc, "3124568")?);
    let grade = Action::Replace {
        id: Text::new(alloc, "3124567")?,
        score: Score::read("0.92"),
    };
    accept(rt, &mut solo, signed(alloc, "n", grade)?);
    Ok(solo)
}

// Whether the report by the scale of this word, out of 10, is this one.
fn is_reported(
    rt: &impl Abort,
    alloc: Global,
    scales: &Scales,
    rounding: Rounding,
    want: &str,
) -> Result<bool, Fail> {
    let solo = graded(rt, alloc)?;
    let book = book_of(alloc, &solo)?;
    let source = MemorySource::new(Vec::new(alloc), Vec::new(alloc));
    let sink = MemorySink::new(alloc, Vec::new(alloc));
    let mut ends = MemoryLink::new(source, sink);
    let end = report(alloc, &book, scales.of(rounding), 10, &mut ends);
    Ok(end.is_ok() && ends.given() == want.as_bytes())
}

#[test]
fn grades_are_reported_in_order_of_issue(rt: HostRuntime) -> Result<(), Fail> {
    let alloc = rt.alloc();
    let scales = scales(alloc)?;
    let nine = "12345\t3124567\t0.92\t9\n12345\t3124568\t-\t-\ntotal\t1\t9\n";
    let ten = "12345\t3124567\t0.92\t10\n12345\t3124568\t-\t-\ntotal\t1\t10\n";
    assert!(rt; is_reported(&rt, alloc, &scales, Rounding::Nearest, nine)?);
    assert!(rt; is_reported(&rt, alloc, &scales, Rounding::Floor, nine)?);
    assert!(rt; is_reported(&rt, alloc, &scales, Rounding::Ceiling, ten)?);
    Ok(())
}
