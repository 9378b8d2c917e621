// A value with a full record of its answers.
ghost use Rattle.std.specs.Prelude.{◌≡◌, ◌≤◌, [], vec_len, vec_capacity, IfOk};

use crate::Kept;
use std::alloc::{AllocError, Global};

// Says each number once, until it has said as many as its limit.
#[derive(Drop)]
pub struct Tally {
    said: Vec<(u64, bool)>,
    limit: u64,
    turns: u64,
    ghost room: { limit ≤ vec_capacity said },
    ghost most: { vec_len said ≤ limit },
}

impl Tally {
    // `turns` is the count that the tally begins with.
    pub fn new(alloc: Global, limit: u64, turns: u64) -> Result<Tally, AllocError>
        ensures { IfOk result (λ t. t.said.items ≡ []) }
    {
        let said = Vec::with_capacity(alloc, limit as usize)?;
        Ok(Tally { said, limit, turns })
    }

    pub fn said(&self) -> &[(u64, bool)] {
        self.said.as_slice()
    }
}

impl Kept for Tally {
    ghost use Rattle.std.specs.Prelude.{◌≤◌, length};

    type Job = u64;

    // Whether the number was refused.
    type Answer = bool;

    type Origin = u64;

    ghost trail = { λ s. s.said.items };

    ghost origin = { λ s. s.limit };

    ghost limit = { λ s. s.limit };

    ghost turned = { λ s. s.turns };

    ghost accepts = { λ _. Unit {0} };

    ghost refuses = { λ refused. refused };

    ghost law = { λ limit trail. length trail ≤ limit };

    fn answer(&mut self, job: u64) -> bool {
        self.turns = self.turns.wrapping_add(1);
        if self.said.len() as u64 == self.limit {
            return true;
        }
        self.said.push_reserved((job, false));
        false
    }

    fn turns(&self) -> u64 {
        self.turns
    }
}
