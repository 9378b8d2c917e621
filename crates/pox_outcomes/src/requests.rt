// Reading outcome requests (LTI 1.1.1, section 6, and the schema imsoms_v1p0).
ghost use Rattle.std.specs.Prelude.{◌≡◌, ◌<◌, ◌==◌, true, ℕ, List, length, codes, IfOk, IfErr, MatchResult};
ghost use Rattle.pox_outcomes.specs.Language.{Any, Reads};
ghost use Rattle.pox_outcomes.specs.Request as spec;
ghost use Rattle.pox_outcomes.specs.Request.{IsNoScore, IsTail, EnvelopeOf, place_of};
ghost use Rattle.pox_outcomes.specs.Markup.{is_plain};
ghost use Rattle.pox_outcomes.specs.BadRequest.{IsBadRequest};
ghost use Rattle.pox_outcomes.specs.declared.outcome.Operation.TheVariants as operation;
ghost use Rattle.pox_outcomes.specs.Stops.{IsHalt};

use crate::documents::{Document, head, read};
use crate::leaves::leaf;
use crate::markup::{follow, one_of};
use crate::scores::score;
use crate::stops::Halt;
use crate::{EnvelopeFault, Operation, Outcome};
use lti_outside::Text;
use std::alloc::Global;

const ROOT: &[u8] = b" <imsx_POXEnvelopeRequest";

const HEADER: &[u8] =
    b" <imsx_POXHeader > <imsx_POXRequestHeaderInfo > <imsx_version > V1.0 </imsx_version > <imsx_messageIdentifier";

// From behind the message identifier up to the id, for each operation.
const OPERATIONS: [&[u8]; 3] = [
    b" </imsx_POXRequestHeaderInfo > </imsx_POXHeader > <imsx_POXBody > <replaceResultRequest > <resultRecord > <sourcedGUID > <sourcedId",
    b" </imsx_POXRequestHeaderInfo > </imsx_POXHeader > <imsx_POXBody > <readResultRequest > <resultRecord > <sourcedGUID > <sourcedId",
    b" </imsx_POXRequestHeaderInfo > </imsx_POXHeader > <imsx_POXBody > <deleteResultRequest > <resultRecord > <sourcedGUID > <sourcedId",
];

// From behind the id up to the text string, with or without a language.
const SCORES: [&[u8]; 2] = [
    b" </sourcedGUID > <result > <resultScore > <language",
    b" </sourcedGUID > <result > <resultScore > <textString",
];

const REPLACE_END: &[u8] =
    b" </resultScore > </result > </resultRecord > </replaceResultRequest > </imsx_POXBody > </imsx_POXEnvelopeRequest >";

const READ_END: &[u8] =
    b" </sourcedGUID > </resultRecord > </readResultRequest > </imsx_POXBody > </imsx_POXEnvelopeRequest >";

const DELETE_END: &[u8] =
    b" </sourcedGUID > </resultRecord > </deleteResultRequest > </imsx_POXBody > </imsx_POXEnvelopeRequest >";

fn operation_at(place: usize) -> Operation
    requires { place < 3 }
    ensures { place_of result ≡ place }
{
    match place {
        0 => Operation::ReplaceResult,
        1 => Operation::ReadResult,
        _ => Operation::DeleteResult,
    }
}

// The empty score of a request from behind its id on, and what stands behind the root.
fn no_score<'a>(alloc: Global, bytes: &'a [u8], end: &[u8]) -> Result<(Text, &'a [u8]), Halt>
    requires { is_plain end.now ≡ true }
    ensures reads { IfOk result (λ found. Reads (IsNoScore end.now found.0) bytes.now found.1.now) }
    ensures stops { IfErr result (IsHalt (Any (IsNoScore end.now)) bytes.now) }
{
    let behind = follow(bytes, end)?;
    Ok((Text::empty(alloc), behind))
}

// The score of the operation from behind its id on, and what stands behind the root.
fn tail(alloc: Global, bytes: &[u8], asked: Operation) -> Result<(Text, &[u8]), Halt>
    ensures reads { IfOk result (λ found. Reads (IsTail asked found.0) bytes.now found.1.now) }
    ensures stops { IfErr result (IsHalt (Any (IsTail asked)) bytes.now) }
{
    match asked {
        Operation::ReplaceResult => score(alloc, bytes, &SCORES, REPLACE_END),
        Operation::ReadResult => no_score(alloc, bytes, READ_END),
        Operation::DeleteResult => no_score(alloc, bytes, DELETE_END),
    }
}

impl Document for Outcome {
    ghost use Rattle.pox_outcomes.specs.Request.{IsEnvelope};

    ghost spelled = { IsEnvelope };

    fn read_root(alloc: Global, bytes: &[u8]) -> Result<(Outcome, &[u8]), Halt> {
        let (message, asked) = head(alloc, bytes, ROOT, HEADER)?;
        let (place, identified) = one_of(asked, &OPERATIONS)?;
        let operation = operation_at(place);
        let (sourced_id, scored) = leaf(alloc, identified, b"/sourcedId >")?;
        let (score_text, behind) = tail(alloc, scored, operation)?;
        let outcome = Outcome {
            message,
            operation,
            sourced_id,
            score_text,
        };
        Ok((outcome, behind))
    }
}

/// The outcome that an envelope asks for (LTI 1.1.1, section 6, and the schema imsoms_v1p0): an XML declaration or
/// none, the root `imsx_POXEnvelopeRequest` with an attribute `xmlns`, the header with the message identifier, and
/// one of the three requests. White bytes may stand between tags and round texts.
pub fn read_request(alloc: Global, bytes: &[u8]) -> Result<Outcome, EnvelopeFault>
    ensures outcome { IfOk result (EnvelopeOf bytes.now) }
    ensures only { (o : Outcome) → EnvelopeOf bytes.now o → MatchResult result (λ found. found ≡ o) (λ fault. fault ≡ EnvelopeFault.NoMemory) }
    ensures bad { IfErr result (IsBadRequest bytes.now) }
{
    read(alloc, bytes)
}
