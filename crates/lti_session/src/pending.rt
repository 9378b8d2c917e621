// The answer that a session owes.
ghost use Rattle.std.specs.Prelude.{◌≡◌, [], IfOk};
ghost use Rattle.lti_session.specs.Room.{HasRoom};

use crate::rendering::LONGEST_BODY;
use lti_outside::{Bytes, NoMemory};
use pox_outcomes::{Outcome, answer_room};
use std::alloc::Global;

/// What is kept of a request whose call waits for a reply: whether the connection ends with the answer, the outcome that
/// it asks for, if it asks for one, and room for the answer's body.
#[derive(Drop)]
pub struct Pending {
    pub ends: bool,
    pub outcome: Option<Outcome>,
    pub body: Bytes,
    pub ghost empty: { body.list ≡ [] },
    pub ghost room: { HasRoom outcome body.room },
}

// How many bytes the body of an answer may need.
fn room_for(outcome: &Option<Outcome>) -> Result<usize, NoMemory>
    ensures { IfOk result (λ room. HasRoom outcome.now room) }
{
    let Some(outcome) = outcome else {
        return Ok(LONGEST_BODY);
    };
    let room = answer_room(outcome);
    // the greatest number stands for all that are greater
    if room == usize::MAX {
        return Err(NoMemory);
    }
    Ok(room)
}

/// Room for the answer to a reply.
pub fn reserve_answer(
    alloc: Global,
    ends: bool,
    outcome: Option<Outcome>,
) -> Result<Pending, NoMemory>
    ensures ends { IfOk result (λ pending. pending.ends ≡ ends) }
    ensures outcome { IfOk result (λ pending. pending.outcome ≡ outcome) }
{
    let mut body = Bytes::new(alloc);
    body.reserve(room_for(&outcome)?)?;
    Ok(Pending {
        ends,
        outcome,
        body,
    })
}
