// What an outcome request asks of the machine.
ghost use Rattle.std.specs.Prelude.{IfOk, IfErr};
ghost use Rattle.pox_outcomes.specs.BadRequest.{IsBadRequest};
ghost use Rattle.lti_asks.specs.Outcomes.{IsAskedBy, IsOutcomeCall};

use lti_machine::Action;
use lti_outside::NoMemory;
use pox_outcomes::{EnvelopeFault, Operation, Outcome, read_request};
use score_decimal::Score;
use std::alloc::Global;

// What the outcome asks.
fn asked_by(outcome: &Outcome) -> Result<Action, NoMemory>
    ensures { IfOk result (IsAskedBy outcome.now) }
{
    let score = Score::read(outcome.score_text.get());
    let id = outcome.sourced_id.copy()?;
    Ok(match outcome.operation {
        Operation::ReplaceResult => Action::Replace { id, score },
        Operation::ReadResult => Action::Read { id },
        Operation::DeleteResult => Action::Delete { id },
    })
}

/// What the bytes of an outcome request ask of the machine, and the outcome that they spell (LTI 1.1.1, section 6): to set
/// the grade of its sourcedId, to tell it, or to take it away. A score text that `Score::read` refuses is still asked, as a
/// score of `None`, so that the machine can answer it.
///
/// `BadEnvelope` says that the bytes spell no outcome, and how many of them begin one; `NoMemory` says nothing of them.
pub fn outcome_call(alloc: Global, body: &[u8]) -> Result<(Action, Outcome), EnvelopeFault>
    ensures call { IfOk result (λ made. IsOutcomeCall body.now made.1 made.0) }
    ensures bad { IfErr result (IsBadRequest body.now) }
{
    let outcome = read_request(alloc, body)?;
    match asked_by(&outcome) {
        Ok(action) => Ok((action, outcome)),
        Err(NoMemory) => Err(EnvelopeFault::NoMemory),
    }
}
