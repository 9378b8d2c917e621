//! The table of two words and one slot, and its rule.
use crate::kept::Kept;
use crate::view::View;
use atomic_table::{Seat, Shared, TableRule};
use std::snapshot::Snapshot;

/// The word with the next ticket.
pub const TICKET: usize = 0;

/// The word with the ticket that is served.
pub const SERVING: usize = 1;

/// The slot with the value.
pub const VALUE: usize = 0;

/// What the table is told when it is made: the value, and the greatest spare number.
pub struct Terms<K> {
    pub kept: Snapshot<K>,
    pub first: u64,
}

impl<K> Drop for Terms<K> {
    fn drop(self) {
        let Terms { kept: _, first: _ } = self;
    }
}

/// The rule that one pass at most has the value, and that the trail is that of all turns so far.
pub struct InTurn;

impl<K: Kept> TableRule<K, View<K::Job, K::Answer, K>, Terms<K>> for InTurn {
    ghost use Rattle.turn_lock.specs.Rule.{Turns};
    ghost use Rattle.turn_lock.specs.Views.{opened};

    ghost holds = { λ key. Turns K.Kept key.kept.value key.first };

    ghost first = { λ key. opened key.kept.value key.first };
}

/// The words and the slot, as all passes share them.
pub type Words<K> = Shared<K, View<<K as Kept>::Job, <K as Kept>::Answer, K>, Terms<K>, InTurn>;

/// What a pass steps with.
pub type LockSeat<K> = Seat<K, View<<K as Kept>::Job, <K as Kept>::Answer, K>>;
