//! One turn, by single steps on the words and plain access to the value in between.
ghost use Rattle.std.specs.Prelude.{◌≡◌, ℕ, ◌%◌, ◌^◌, ◌≤◌, [], length, Some};
ghost use Rattle.turn_lock.specs.declared.view.Phase.TheVariants.{Idle, Waiting};
ghost use Rattle.turn_lock.specs.Views.{in_phase, done};
ghost use Rattle.turn_lock.specs.Steps.{Holds, Waits, Comes, Extends, IsAnswered};
ghost use Rattle.turn_lock.specs.Passes.{Answers};

use crate::kept::Kept;
use crate::plays::{Draw, End, Look};
use crate::rule::{LockSeat, SERVING, TICKET, VALUE, Words};
use std::sync::Wait;

// Draws a ticket.
fn draw<K: Kept>(words: &Words<K>, seat: &mut LockSeat<K>) -> u64
    requires words { (words.now.table_id.words ≡ 2) × (words.now.table_id.slots ≡ 1) }
    requires seat { (seat.old.table_id ≡ words.now.table_id) × (seat.old.me.0.phase ≡ Idle) × (seat.old.me.1 ≡ []) × (1 ≤ length seat.old.me.0.own) }
    ensures seat { (seat.new.table_id ≡ seat.old.table_id) × (seat.new.id ≡ seat.old.id) }
    ensures drawn { (t : ℕ) × (t % 2 ^ 64 ≡ result) × (seat.new.me ≡ (in_phase (Waiting t) seat.old.me.0, [])) }
{
    words.fetch_add::<Draw>(seat, TICKET, 1)
}

// Looks until the ticket is served, and then has the value. Between two looks it sleeps, and only if the word
// still is what the look found: a turn that ends in between has changed it, so that its wake isn't missed.
fn await_turn<K: Kept, R: Wait>(rt: &R, words: &Words<K>, seat: &mut LockSeat<K>, ticket: u64)
    requires words { (words.now.table_id.words ≡ 2) × (words.now.table_id.slots ≡ 1) }
    requires seat { (seat.old.table_id ≡ words.now.table_id) × Waits seat.old.me ticket }
    ensures seat { (seat.new.table_id ≡ seat.old.table_id) × (seat.new.id ≡ seat.old.id) }
    ensures comes { Comes K.Kept seat.old.me seat.new.me }
{
    for _ in rt.forever() {
        let served = words.load::<Look>(seat, SERVING);
        if served == ticket {
            return;
        }
        words.park(rt, SERVING, (served & 0xffff_ffff) as u32);
    }
    unreachable!()
}

// Has the value answer the job.
fn answer<K: Kept>(words: &Words<K>, seat: &mut LockSeat<K>, job: K::Job) -> K::Answer
    requires seat { (seat.old.table_id ≡ words.now.table_id) × Holds seat.old.me (λ y. Unit {0}) }
    requires job { K.accepts job }
    ensures seat { (seat.new.table_id ≡ seat.old.table_id) × (seat.new.id ≡ seat.old.id) × (seat.new.me.0 ≡ seat.old.me.0) }
    ensures answer { Holds seat.old.me (λ y. Holds seat.new.me (λ z. Extends K.Kept y job result z)) }
{
    seat.slot_mut(words, VALUE).answer(job)
}

// Gives the value back, and wakes all who wait, since only one of them has the ticket that is served now.
fn end<K: Kept>(words: &Words<K>, seat: &mut LockSeat<K>)
    requires words { (words.now.table_id.words ≡ 2) × (words.now.table_id.slots ≡ 1) }
    requires seat { seat.old.table_id ≡ words.now.table_id }
    requires value { Holds seat.old.me (λ y. IsAnswered K.Kept words.now.key.kept.value seat.old.me.0 y) }
    ensures seat { (seat.new.table_id ≡ seat.old.table_id) × (seat.new.id ≡ seat.old.id) }
    ensures ends { Holds seat.old.me (λ y. seat.new.me ≡ (done (K.trail y) seat.old.me.0, [])) }
{
    words.fetch_add::<End>(seat, SERVING, 1);
    words.wake_all(SERVING);
}

/// Draws a ticket, waits for its turn, has the value answer the job, and ends the turn.
pub fn take_turn<K: Kept, R: Wait>(
    rt: &R,
    words: &Words<K>,
    seat: &mut LockSeat<K>,
    job: K::Job,
) -> K::Answer
    requires words { (words.now.table_id.words ≡ 2) × (words.now.table_id.slots ≡ 1) }
    requires seat { (seat.old.table_id ≡ words.now.table_id) × (seat.old.me.0.phase ≡ Idle) × (seat.old.me.1 ≡ []) × (1 ≤ length seat.old.me.0.own) × (seat.old.me.0.base ≡ Some words.now.key.kept.value) }
    requires job { K.accepts job }
    ensures seat { (seat.new.table_id ≡ seat.old.table_id) × (seat.new.id ≡ seat.old.id) }
    ensures rests { (seat.new.me.0.phase ≡ Idle) × (seat.new.me.1 ≡ []) × (seat.new.me.0.base ≡ seat.old.me.0.base) × (seat.new.me.0.spare ≡ seat.old.me.0.spare) × (seat.new.me.0.first ≡ seat.old.me.0.first) }
    ensures answer { Answers (K.refuses result) (K.limit words.now.key.kept.value) job result seat.old.me.0.seen seat.old.me.0.own seat.new.me.0.seen seat.new.me.0.own }
    ensures law { K.law (K.origin words.now.key.kept.value) seat.new.me.0.seen }
{
    let ticket = draw(words, seat);
    await_turn(rt, words, seat, ticket);
    let answer = answer(words, seat, job);
    end(words, seat);
    answer
}
