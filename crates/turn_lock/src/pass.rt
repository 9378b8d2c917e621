//! The right to take turns.
ghost use Rattle.std.specs.Prelude.{◌≡◌, ◌+◌, ◌==◌, ◌↔◌, IsTrue};
ghost use mathlib.Core.Option.{some};
ghost use Rattle.turn_lock.specs.Owned.{first_number};
ghost use Rattle.turn_lock.specs.Passes.{IsWhole, numbers};

use crate::kept::Kept;
use crate::rule::LockSeat;
use std::marker::Model;

/// The right to take turns at one lock. It knows the beginning of the trail that it has seen, and the places
/// there of its own calls.
///
/// A pass has a number, which no other pass of the lock has, and may have spare numbers for further passes. It
/// answers for its own number and for those of the passes that were met into it. A pass may be dropped, and then
/// no pass is ever whole again and the lock can't be closed.
pub struct Pass<K: Kept> {
    pub(crate) seat: LockSeat<K>,
    pub(crate) number: u32,
    pub(crate) spare: u32,
    pub(crate) answered: u32,
    pub(crate) first: u32,
}

impl<K: Kept> Model for Pass<K> {
    ghost use Rattle.turn_lock.specs.Passes.{Token};
    ghost use Rattle.turn_lock.specs.Resting.{Rests};

    ghost Value = { Token K.Job K.Answer K };

    ghost view = { λ p. record { table = p.seat.table_id; base = p.seat.me.0.base; first = p.first; number = p.number; spare = p.spare; seen = p.seat.me.0.seen; own = p.seat.me.0.own } };

    ghost invariant = { λ p. Rests K.Kept p.seat p.number p.spare p.answered p.first };
}

impl<K: Kept> Drop for Pass<K> {
    fn drop(self) {
        let Pass {
            seat: _,
            number: _,
            spare: _,
            answered: _,
            first: _,
        } = self;
    }
}

impl<K: Kept> Pass<K> {
    ghost use Rattle.turn_lock.specs.Resting.{IsTaken};

    // The seat, how many spare numbers the pass has, and how many numbers it answers for.
    pub(crate) fn into_seat(self) -> (LockSeat<K>, u32, u32)
        ensures { IsTaken K.Kept self result.0 result.1 result.2 }
    {
        let Pass {
            seat,
            number: _,
            spare,
            answered,
            first: _,
        } = self;
        (seat, spare, answered)
    }

    /// The pass's own number: 0 of the first pass, and of another the spare number that it was given.
    pub fn number(&self) -> u32
        ensures number { result ≡ self.now.number }
        ensures own { first_number self.now.own ≡ some result }
    {
        self.number
    }

    /// How many further passes can be split off. The spare numbers are those from 1 to this one.
    pub fn spare(&self) -> u32
        ensures { result ≡ self.now.spare }
    {
        self.spare
    }

    /// Whether every other pass that the lock has made was met into this one, directly or through others: each
    /// number that the lock has stands in this pass.
    pub fn whole(&self) -> bool
        ensures whole { IsTrue result ↔ IsWhole self.now }
        ensures count { result ≡ (numbers self.now == self.now.first + 1) }
    {
        self.answered + self.spare == self.first + 1
    }
}
