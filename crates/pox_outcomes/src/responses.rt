// Reading answers to outcome requests (LTI 1.1.1, section 6, and the schema imsoms_v1p0).
ghost use Rattle.std.specs.Prelude.{◌≡◌, ◌<◌, ◌==◌, true, ℕ, List, length, codes, IfOk, IfErr, MatchResult};
ghost use Rattle.pox_outcomes.specs.Language.{Any, Reads};
ghost use Rattle.pox_outcomes.specs.Answer.{AnswerOf, major_place};
ghost use Rattle.pox_outcomes.specs.BadRequest.{IsFaultOf};
ghost use Rattle.pox_outcomes.specs.Stops.{IsHalt};

use crate::details::read_details;
use crate::documents::{Document, head, read};
use crate::markup::one_of;
use crate::stops::Halt;
use crate::{Answer, EnvelopeFault, Major};
use std::alloc::Global;

const ROOT: &[u8] = b" <imsx_POXEnvelopeResponse";

const HEADER: &[u8] =
    b" <imsx_POXHeader > <imsx_POXResponseHeaderInfo > <imsx_version > V1.0 </imsx_version > <imsx_messageIdentifier";

// From behind the message identifier up to the end of the major code.
const MAJORS: [&[u8]; 4] = [
    b" <imsx_statusInfo > <imsx_codeMajor > success </imsx_codeMajor >",
    b" <imsx_statusInfo > <imsx_codeMajor > processing </imsx_codeMajor >",
    b" <imsx_statusInfo > <imsx_codeMajor > failure </imsx_codeMajor >",
    b" <imsx_statusInfo > <imsx_codeMajor > unsupported </imsx_codeMajor >",
];

fn major_at(place: usize) -> Major
    requires { place < 4 }
    ensures { major_place result ≡ place }
{
    match place {
        0 => Major::Success,
        1 => Major::Processing,
        2 => Major::Failure,
        _ => Major::Unsupported,
    }
}

impl Document for Answer {
    ghost use Rattle.pox_outcomes.specs.Answer.{IsAnswer};

    ghost spelled = { IsAnswer };

    fn read_root(alloc: Global, bytes: &[u8]) -> Result<(Answer, &[u8]), Halt> {
        let (message, stated) = head(alloc, bytes, ROOT, HEADER)?;
        let (place, coded) = one_of(stated, &MAJORS)?;
        let major = major_at(place);
        let (said, behind) = read_details(alloc, coded)?;
        let answer = Answer {
            message,
            major,
            severity: said.severity,
            description: said.description,
            message_ref: said.message_ref,
            operation_ref: said.operation_ref,
            score_text: said.score_text,
        };
        Ok((answer, behind))
    }
}

/// The answer to an outcome request (LTI 1.1.1, section 6, and the schema imsoms_v1p0): an XML declaration or none,
/// the root `imsx_POXEnvelopeResponse` with an attribute `xmlns`, the header with the message identifier and the
/// status, and a body that holds nothing, one element without content, or a `readResultResponse` with a score. White
/// bytes may stand between tags and round texts.
pub fn read_answer(alloc: Global, bytes: &[u8]) -> Result<Answer, EnvelopeFault>
    ensures answer { IfOk result (AnswerOf bytes.now) }
    ensures only { (a : Answer) → AnswerOf bytes.now a → MatchResult result (λ found. found ≡ a) (λ fault. fault ≡ EnvelopeFault.NoMemory) }
    ensures bad { IfErr result (IsFaultOf AnswerOf bytes.now) }
{
    read(alloc, bytes)
}
