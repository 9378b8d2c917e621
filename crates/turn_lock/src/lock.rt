//! The lock.
ghost use Rattle.std.specs.Prelude.{◌≡◌, ℕ, ◌+◌, ◌<◌, ◌≤◌, [], ◌∷◌, ◌++◌, length, IfOk, IfErr, IsOkAnd};
ghost use Rattle.turn_lock.specs.Counts.{once_below};
ghost use Rattle.turn_lock.specs.Trail.{StartsWith, longer};
ghost use Rattle.turn_lock.specs.Owned.{without_places, in_places};
ghost use Rattle.turn_lock.specs.Passes.{IsPassOf, Answers, AreApart, IsWhole, numbers};

use crate::kept::Kept;
use crate::pass::Pass;
use crate::plays::{Compare, Give, Meet};
use crate::rule::{InTurn, Terms};
use crate::turns::take_turn;
use crate::view::View;
use atomic_table::{Refused, Table};
use lti_outside::NoMemory;
use std::alloc::Global;
use std::marker::Model;
use std::snapshot::Snapshot;
use std::sync::Wait;

/// Keeps a value. Those who have a pass take turns at it.
///
/// A lock is shared by reference between threads. What it keeps is known again once it is closed; where that can
/// be dropped, so can the lock.
#[derive(Drop)]
pub struct TurnLock<K: Kept> {
    table: Table<K, View<K::Job, K::Answer, K>, Terms<K>, InTurn, Global>,
}

impl<K: Kept> Model for TurnLock<K> {
    ghost use Rattle.std.specs.Prelude.{◌≡◌};
    ghost use Rattle.turn_lock.specs.Passes.{Lock};

    ghost Value = { Lock K };

    ghost view = { λ l. record { table = l.table.shared.table_id; base = l.table.shared.key.kept.value; first = l.table.shared.key.first } };

    ghost invariant = { λ l. (l.table.shared.table_id.words ≡ 2) × (l.table.shared.table_id.slots ≡ 1) };
}

impl<K: Kept> TurnLock<K> {
    /// Makes a lock of `kept`, whose trail is empty, and the first pass, which has number 0 and the spare
    /// numbers from 1 to `spare`, so that `spare` further passes can be split off. `Err` hands `kept` back for
    /// want of memory.
    pub fn new(alloc: Global, kept: K, spare: u32) -> Result<(TurnLock<K>, Pass<K>), K>
        requires spare { spare ≤ 64 }
        requires trail { K.trail kept ≡ [] }
        ensures lock { IfOk result (λ r. (r.0.base ≡ kept) × (r.0.first ≡ spare)) }
        ensures pass { IfOk result (λ r. IsPassOf r.0 r.1 × (r.1.number ≡ 0) × (r.1.spare ≡ spare) × (r.1.seen ≡ []) × (r.1.own ≡ without_places 0 ∷ [])) }
        ensures refused { IfErr result (λ k. k ≡ kept) }
    {
        let begin = kept.turns();
        let terms = Terms {
            kept: Snapshot::of(&kept),
            first: u64::from(spare),
        };
        let mut slots = match Vec::with_capacity(alloc, 1) {
            Ok(slots) => slots,
            Err(_) => return Err(kept),
        };
        slots.push_reserved(kept);
        match Table::new(alloc, &[begin, begin], slots, &terms) {
            Ok((table, seat)) => {
                let pass = Pass {
                    seat,
                    number: 0,
                    spare,
                    answered: 1,
                    first: spare,
                };
                Ok((TurnLock { table }, pass))
            }
            Err(Refused { mut slots }) => {
                let Some(kept) = slots.pop() else {
                    unreachable!()
                };
                slots.destroy_empty();
                Err(kept)
            }
        }
    }

    /// Takes one turn: the value answers `job`, and nobody else's. It waits, asleep, until its turn comes, which
    /// nothing promises.
    ///
    /// Afterwards the pass has seen the trail as this turn left it, which begins with what the pass had seen
    /// before. The last member is this job with this answer, at a place of the pass's own, unless the answer
    /// refuses because the trail is full.
    pub fn turn<R: Wait>(&self, rt: &R, pass: &mut Pass<K>, job: K::Job) -> K::Answer
        requires pass { IsPassOf self.now pass.old }
        requires job { K.accepts job }
        ensures pass { IsPassOf self.now pass.new × (pass.new.number ≡ pass.old.number) × (pass.new.spare ≡ pass.old.spare) }
        ensures answer { Answers (K.refuses result) (K.limit self.now.base) job result pass.old.seen pass.old.own pass.new.seen pass.new.own }
        ensures law { K.law (K.origin self.now.base) pass.new.seen }
    {
        take_turn(rt, &self.table.shared, &mut pass.seat, job)
    }

    /// Splits a new pass off, which takes the greatest spare number, has seen what `pass` has seen, and has no
    /// place in the trail yet. It takes no memory and answers `Ok`.
    pub fn split(&self, pass: &mut Pass<K>) -> Result<Pass<K>, NoMemory>
        requires pass { IsPassOf self.now pass.old }
        requires spare { 0 < pass.old.spare }
        ensures pass { IsPassOf self.now pass.new × (pass.new.number ≡ pass.old.number) × (pass.new.spare + 1 ≡ pass.old.spare) × (pass.new.seen ≡ pass.old.seen) × (pass.new.own ≡ pass.old.own) }
        ensures new { IsOkAnd result (λ p. IsPassOf self.now p × (p.number ≡ pass.old.spare) × (p.spare ≡ 0) × (p.seen ≡ pass.old.seen) × (p.own ≡ without_places pass.old.spare ∷ [])) }
    {
        let seat = self.table.shared.split_seat::<Give>(&mut pass.seat);
        let number = pass.spare;
        pass.spare -= 1;
        Ok(Pass {
            seat,
            number,
            spare: 0,
            answered: 1,
            first: pass.first,
        })
    }

    /// Meets `other` into `pass`, which afterwards has seen what either had seen, answers for the calls of both,
    /// and has the spare numbers of both. It keeps its own number.
    ///
    /// What one of them had seen begins what the other had seen. No number stood in both.
    pub fn meet(&self, pass: &mut Pass<K>, other: Pass<K>)
        requires pass { IsPassOf self.now pass.old }
        requires other { IsPassOf self.now other }
        ensures pass { IsPassOf self.now pass.new × (pass.new.number ≡ pass.old.number) × (pass.new.spare ≡ pass.old.spare + other.spare) }
        ensures seen { (pass.new.seen ≡ longer pass.old.seen other.seen) × StartsWith pass.new.seen pass.old.seen × StartsWith pass.new.seen other.seen }
        ensures own { pass.new.own ≡ pass.old.own ++ other.own }
        ensures apart { AreApart pass.old other }
    {
        let (seat, spare, answered) = other.into_seat();
        self.table.shared.join_seat::<Meet>(&mut pass.seat, seat);
        self.table.shared.load::<Compare>(&mut pass.seat, 0);
        pass.spare += spare;
        pass.answered += answered;
    }

    /// Hands the value back. The pass is whole, so no other pass is left, and it has seen the whole trail; each
    /// place there is an own place of one of its numbers, and of one alone.
    pub fn close(self, pass: Pass<K>) -> K
        requires pass { IsPassOf self pass }
        requires whole { numbers pass ≡ pass.first + 1 }
        ensures origin { K.origin result ≡ K.origin self.base }
        ensures limit { K.limit result ≡ K.limit self.base }
        ensures trail { K.trail result ≡ pass.seen }
        ensures law { K.law (K.origin result) (K.trail result) }
        ensures places { (p : ℕ) → in_places p pass.own ≡ once_below p (length (K.trail result)) }
        ensures numbers { IsWhole pass }
    {
        let TurnLock { table } = self;
        let (seat, _, _) = pass.into_seat();
        let mut closed = table.close_with(seat);
        let kept = closed.take(0);
        closed.free();
        kept
    }
}
