// How the reply to an outcome's call is told.
ghost use Rattle.std.specs.Prelude.{◌≡◌, ◌≤◌, ◌++◌};
ghost use Rattle.pox_outcomes.specs.Answered.{answer_text, room_of};
ghost use Rattle.lti_asks.specs.Outcomes.{IsTold};

use lti_machine::Reply;
use lti_outside::Bytes;
use pox_outcomes::{Outcome, Told, write_answer};
use score_decimal::Score;

// What the reply tells.
fn told_of(outcome: &Outcome, reply: Reply) -> Told
    requires { (told : Told) × IsTold outcome.now reply told }
    ensures { IsTold outcome.now reply result }
{
    match reply {
        Reply::Graded => match Score::read(outcome.score_text.get()) {
            Some(score) => Told::Replaced(score),
            None => unreachable!(),
        },
        Reply::GradeRead { score: Some(score) } => Told::ReadScore(score),
        Reply::GradeRead { score: None } => Told::ReadNothing,
        Reply::Deleted => Told::Deleted,
        Reply::UnknownId => Told::UnknownId,
        Reply::BadScore => Told::BadScore,
        _ => unreachable!(),
    }
}

/// Appends the envelope that tells the reply to an outcome's call (LTI 1.1.1, section 6). Takes no memory.
///
/// The reply tells something of this outcome, which `lti_asks::accepted_is_told` says of the replies to its call, and the bytes have
/// the room that `pox_outcomes::answer_room` counts.
pub fn outcome_answer(outcome: &Outcome, reply: Reply, out: &mut Bytes)
    requires told { (told : Told) × IsTold outcome.now reply told }
    requires room { room_of outcome.now ≤ out.old.room }
    ensures { (told : Told) × IsTold outcome.now reply told × (out.new.list ≡ out.old.list ++ answer_text outcome.now told) }
{
    let told = told_of(outcome, reply);
    write_answer(outcome, told, out);
}
