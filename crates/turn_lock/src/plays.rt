//! The kinds of step, with what each does to a view and what it tells.
use crate::kept::Kept;
use crate::view::View;
use atomic_table::{Join, Play, Split};

/// The raise of the next ticket, which draws the one found.
pub struct Draw;

impl<K: Kept> Play<K, View<K::Job, K::Answer, K>> for Draw {
    ghost use Rattle.turn_lock.specs.Steps.{Draws};

    ghost then = { Draws };
}

/// The load of the ticket that is served, which takes the value where it finds the pass's own.
pub struct Look;

impl<K: Kept> Play<K, View<K::Job, K::Answer, K>> for Look {
    ghost use Rattle.turn_lock.specs.Steps.{Looks};

    ghost then = { Looks K.Kept };
}

/// The raise of the ticket that is served, which gives the value back.
pub struct End;

impl<K: Kept> Play<K, View<K::Job, K::Answer, K>> for End {
    ghost use Rattle.turn_lock.specs.Steps.{Ends};

    ghost then = { Ends K.Kept };
}

/// Gives the greatest spare number to a new pass.
pub struct Give;

impl<J, A, K> Split<View<J, A, K>> for Give {
    ghost use Rattle.turn_lock.specs.Views.{giver, newcomer};

    ghost left = { giver };

    ghost right = { newcomer };
}

/// Meets one pass into another.
pub struct Meet;

impl<J, A, K> Join<View<J, A, K>> for Meet {
    ghost use Rattle.turn_lock.specs.Views.{both, spent};

    ghost both = { both };

    ghost spent = { spent };
}

/// The load that tells how the two passes of a meeting agree.
pub struct Compare;

impl<J, A, K> Play<K, View<J, A, K>> for Compare {
    ghost use Rattle.turn_lock.specs.Steps.{Compares};

    ghost then = { Compares };
}
