// The command `passback`: a grade sent back.
ghost use Rattle.std.specs.Prelude.{◌≡◌, List, IfOk, Err};
ghost use Rattle.lti_outside.specs.Limits.{IsSound};
ghost use Rattle.score_decimal.specs.Printed.{score_text};
ghost use Rattle.pox_outcomes.specs.declared.outcome.Operation.TheVariants.{ReplaceResult};
ghost use Rattle.lti_machine.specs.declared.entry.Entry.{Entry};
ghost use Rattle.gradebook.specs.Book.{Holds};
ghost use Rattle.lti_words.specs.Command.{IsKey};
ghost use Rattle.lti_words.specs.CommandView.{passback_of};
ghost use Rattle.lti_operator.specs.Passing.{came_to, by_major, IsPassed};

use crate::making::{made_moment, made_nonce};
use gradebook::Gradebook;
use http_wire::WireFault;
use lti_outside::{Clock, Limits, Link, NoMemory, Random, Text};
use lti_provider::PassbackFault;
use lti_words::{Passback, Status};
use oauth_text::{Url, UrlFault};
use pox_outcomes::{Major, Operation, Outcome};
use score_decimal::Score;
use std::alloc::Global;

// The outcome that sets the grade of an id.
fn outcome_of(alloc: Global, message: &str, id: &str, score: Score) -> Result<Outcome, NoMemory>
    ensures { IfOk result (λ outcome. outcome ≡ record { message = message.now; operation = ReplaceResult; sourced_id = id.now; score_text = score_text score }) }
{
    Ok(Outcome {
        message: Text::new(alloc, message)?,
        operation: Operation::ReplaceResult,
        sourced_id: Text::new(alloc, id)?,
        score_text: Text::from_string(score.print(alloc)?),
    })
}

// How the command ends, by the answer.
fn by_major(major: Major) -> Status
    ensures { result ≡ by_major major }
{
    match major {
        Major::Success => Status::Done,
        _ => Status::NotSuccess,
    }
}

// How the command ends, by a fault.
fn status_of(fault: PassbackFault) -> Status
    ensures { result ≡ came_to (Err fault) }
{
    match fault {
        PassbackFault::NotXml => Status::NoPlacement,
        PassbackFault::WriteFault => Status::WriteFault,
        PassbackFault::Wire(WireFault::CutShort) => Status::CutShort,
        PassbackFault::Wire(WireFault::ReadFault) => Status::ReadFault,
        PassbackFault::Wire(_) | PassbackFault::BadEnvelope { .. } => Status::Refused,
        PassbackFault::BadStatus { .. } => Status::NotSuccess,
        PassbackFault::NoMemory => Status::NoMemory,
    }
}

/// Sends a score back to where the last launch of the user from the link says, as a signed envelope over the link, and
/// reads what comes for it (LTI 1.1.1, section 6). The message's identifier is the nonce that it is signed with, of two
/// random words.
pub fn send_score<I: Link, C: Clock, R: Random>(
    alloc: Global,
    passback: &Passback<'_>,
    secret: &str,
    book: &Gradebook,
    ends: &mut I,
    clock: &C,
    random: &mut R,
    limits: &Limits,
) -> Status
    requires sound { IsSound limits.now }
    requires key { IsKey passback.now.key.now }
    ensures { (entries : List Entry) → Holds book.now entries → IsPassed (passback_of passback.now) secret.now entries (C.tells clock.now)
        (R.tells random.old) (R.tells random.new) limits.now (I.traffic ends.old) (I.traffic ends.new) result }
{
    let Some(placement) = book.placement(passback.key, passback.link, passback.user) else {
        return Status::NoPlacement;
    };
    let url = match Url::read(alloc, placement.service) {
        Ok(url) => url,
        Err(UrlFault::BadUrl) => return Status::NoPlacement,
        Err(UrlFault::NoMemory) => return Status::NoMemory,
    };
    let Ok(nonce) = made_nonce(alloc, random) else {
        return Status::NoMemory;
    };
    let moment = made_moment(clock);
    let nonce = nonce.as_str();
    let Ok(outcome) = outcome_of(alloc, nonce, placement.sourced_id, passback.score) else {
        return Status::NoMemory;
    };
    let came = lti_provider::passback(
        alloc,
        ends,
        &url,
        &outcome,
        passback.key,
        secret,
        moment,
        nonce,
        limits,
    );
    match came {
        Ok(answer) => by_major(answer.major),
        Err(fault) => status_of(fault),
    }
}
