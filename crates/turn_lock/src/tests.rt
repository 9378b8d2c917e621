//! Turns in one thread and in several: what the record of the value says afterwards.
ghost use Rattle.std.specs.Prelude.{◌≡◌, All, IfOk, IfSome};
ghost use Rattle.turn_lock.specs.Passes.{IsPassOf};

mod tally;

use super::*;
use std::alloc::{AllocError, Global};
use std::sync::Wait;
use std::test::*;
use std::thread;
use std::thread::{Threads, join};
use tally::Tally;

const THREADS: u32 = 8;

const TURNS: u64 = 20_000;

// Hands the value back, if the pass is whole.
fn closed(lock: TurnLock<Tally>, pass: Pass<Tally>) -> Option<Tally>
    requires { IsPassOf lock pass }
{
    if pass.whole() {
        Some(lock.close(pass))
    } else {
        None
    }
}

// One turn, in a thread of its own.
fn one_turn<R: Wait>(
    rt: &R,
    lock: &TurnLock<Tally>,
    mut pass: Pass<Tally>,
    job: u64,
) -> (Pass<Tally>, bool)
    requires pass { IsPassOf lock.now pass }
    ensures pass { IsPassOf lock.now result.0 }
{
    let refused = lock.turn(rt, &mut pass, job);
    (pass, refused)
}

// A turn in each of two threads, and then one pass that has seen both.
fn two_turns<R: Threads + Wait + Sync>(
    rt: &R,
    lock: &TurnLock<Tally>,
    one: Pass<Tally>,
    other: Pass<Tally>,
    jobs: [u64; 2],
) -> (Pass<Tally>, [bool; 2])
    requires one { IsPassOf lock.now one }
    requires other { IsPassOf lock.now other }
    ensures { IsPassOf lock.now result.0 }
{
    let [first, second] = jobs;
    let (here, there) = join(
        rt,
        move || -> (Pass<Tally>, bool)
            requires pass { IsPassOf lock.now one }
            ensures pass { IsPassOf lock.entry.now result.0 }
        { one_turn(rt, lock, one, first) },
        move || -> (Pass<Tally>, bool)
            requires pass { IsPassOf lock.now other }
            ensures pass { IsPassOf lock.entry.now result.0 }
        { one_turn(rt, lock, other, second) },
    );
    let (mut pass, refused) = here;
    let (met, also) = there;
    lock.meet(&mut pass, met);
    (pass, [refused, also])
}

#[test]
fn two_threads_fill_the_trail(rt: HostRuntime) -> Result<(), Fail> {
    let tally = Tally::new(rt.alloc(), 3, 0)?;
    let Ok((lock, mut pass)) = TurnLock::new(rt.alloc(), tally, 1) else {
        return Err(Fail::from("no memory"));
    };
    assert!(rt; !lock.turn(&rt, &mut pass, 1));
    let Ok(other) = lock.split(&mut pass) else {
        return Err(Fail::from("no memory"));
    };
    let (pass, refused) = two_turns(&rt, &lock, pass, other, [2, 3]);
    assert_eq!(rt; refused, [false, false]);
    let tally = closed(lock, pass).ok_or("the pass isn't whole")?;
    let said = tally.said();
    assert_eq!(rt; said.len(), 3);
    assert_eq!(rt; said[0], (1, false));
    assert!(rt; (said[1].0 == 2 && said[2].0 == 3) || (said[1].0 == 3 && said[2].0 == 2));
    Ok(())
}

#[test]
fn a_split_takes_the_greatest_spare_number(rt: HostRuntime) -> Result<(), Fail> {
    let tally = Tally::new(rt.alloc(), 3, 0)?;
    let Ok((lock, mut pass)) = TurnLock::new(rt.alloc(), tally, 2) else {
        return Err(Fail::from("no memory"));
    };
    assert!(rt; pass.whole());
    let Ok(other) = lock.split(&mut pass) else {
        return Err(Fail::from("no memory"));
    };
    assert_eq!(rt; (pass.number(), other.number()), (0, 2));
    assert_eq!(rt; (pass.spare(), other.spare()), (1, 0));
    assert!(rt; !pass.whole() && !other.whole());
    lock.meet(&mut pass, other);
    assert_eq!(rt; (pass.number(), pass.spare()), (0, 1));
    let tally = closed(lock, pass).ok_or("the pass isn't whole")?;
    assert!(rt; tally.said().is_empty());
    Ok(())
}

#[test]
fn a_pass_takes_over_spare_numbers(rt: HostRuntime) -> Result<(), Fail> {
    let tally = Tally::new(rt.alloc(), 3, 0)?;
    let Ok((lock, mut pass)) = TurnLock::new(rt.alloc(), tally, 2) else {
        return Err(Fail::from("no memory"));
    };
    let Ok(mut other) = lock.split(&mut pass) else {
        return Err(Fail::from("no memory"));
    };
    lock.meet(&mut other, pass);
    assert_eq!(rt; (other.number(), other.spare()), (2, 1));
    assert!(rt; other.whole());
    Ok(())
}

#[test]
fn a_full_trail_refuses(rt: HostRuntime) -> Result<(), Fail> {
    let tally = Tally::new(rt.alloc(), 1, u64::MAX)?;
    let Ok((lock, mut pass)) = TurnLock::new(rt.alloc(), tally, 0) else {
        return Err(Fail::from("no memory"));
    };
    assert!(rt; !lock.turn(&rt, &mut pass, 5));
    assert!(rt; lock.turn(&rt, &mut pass, 6));
    let tally = closed(lock, pass).ok_or("the pass isn't whole")?;
    assert_eq!(rt; tally.said(), [(5, false)].as_slice());
    assert_eq!(rt; tally.turns(), 1);
    Ok(())
}

// Says as many numbers as `TURNS`, each with the number of the pass.
fn many_turns<R: Wait>(rt: &R, lock: &TurnLock<Tally>, mut pass: Pass<Tally>) -> Pass<Tally>
    requires { IsPassOf lock.now pass }
    ensures { IsPassOf lock.now result }
{
    let caller = u64::from(pass.number()) << 32;
    for turn in 0..TURNS {
        let _refused = lock.turn(rt, &mut pass, caller | turn);
    }
    pass
}

// Has each pass take its turns in a thread of its own.
fn all_turns<R: Threads + Wait + Sync>(
    rt: &R,
    lock: &TurnLock<Tally>,
    passes: Vec<Pass<Tally>>,
) -> Result<Vec<Pass<Tally>>, AllocError>
    requires { All (λ p. IsPassOf lock.now p) passes.items }
    ensures { IfOk result (λ v. All (λ p. IsPassOf lock.now p) v.items) }
{
    thread::map_vec(rt, passes, &|pass| many_turns(rt, lock, pass))
}

// A pass for each thread.
fn split_all(
    alloc: Global,
    lock: &TurnLock<Tally>,
    first: Pass<Tally>,
) -> Result<Vec<Pass<Tally>>, AllocError>
    requires { IsPassOf lock.now first }
    ensures { IfOk result (λ v. All (λ p. IsPassOf lock.now p) v.items) }
{
    let mut first = first;
    let mut passes = Vec::with_capacity(alloc, THREADS as usize)?;
    for _ in 1..THREADS {
        if first.spare() > 0 {
            if let Ok(pass) = lock.split(&mut first) {
                passes.push(pass)?;
            }
        }
    }
    passes.push(first)?;
    Ok(passes)
}

// One pass that has seen what each had seen.
fn meet_all(lock: &TurnLock<Tally>, mut passes: Vec<Pass<Tally>>) -> Option<Pass<Tally>>
    requires { All (λ p. IsPassOf lock.now p) passes.items }
    ensures { IfSome result (λ p. IsPassOf lock.now p) }
{
    let mut whole = passes.pop()?;
    while let Some(pass) = passes.pop() {
        lock.meet(&mut whole, pass);
    }
    Some(whole)
}

// Whether each caller's numbers stand there once, in its order.
fn in_order(said: &[(u64, bool)]) -> bool {
    let mut next = [0u64; THREADS as usize];
    for (job, refused) in said {
        let caller = (*job >> 32) as usize;
        if *refused
            || caller >= next.len()
            || *job & 0xffff_ffff != next[caller]
            || next[caller] >= TURNS
        {
            return false;
        }
        next[caller] += 1;
    }
    next.iter().all(|count| *count == TURNS)
}

#[test]
fn each_call_of_many_threads_stands_once_in_its_callers_order(rt: HostRuntime) -> Result<(), Fail> {
    let tally = Tally::new(rt.alloc(), u64::from(THREADS) * TURNS, 0)?;
    let Ok((lock, pass)) = TurnLock::new(rt.alloc(), tally, THREADS - 1) else {
        return Err(Fail::from("no memory"));
    };
    let passes = split_all(rt.alloc(), &lock, pass)?;
    let passes = all_turns(&rt, &lock, passes)?;
    let pass = meet_all(&lock, passes).ok_or("no pass")?;
    let tally = closed(lock, pass).ok_or("the pass isn't whole")?;
    assert_eq!(rt; tally.said().len() as u64, u64::from(THREADS) * TURNS);
    assert!(rt; in_order(tally.said()));
    Ok(())
}
