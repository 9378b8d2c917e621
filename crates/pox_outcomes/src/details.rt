// What an answer says behind its major code (LTI 1.1.1, section 6, and the schema imsoms_v1p0).
ghost use Rattle.std.specs.Prelude.{◌≡◌, ℕ, List, IfOk, IfErr};
ghost use Rattle.pox_outcomes.specs.Language.{Any, Reads};
ghost use Rattle.pox_outcomes.specs.Answer.{IsDetails};
ghost use Rattle.pox_outcomes.specs.Stops.{IsHalt};

use crate::bodies::body;
use crate::leaves::optional_leaf;
use crate::markup::follow;
use crate::stops::Halt;
use lti_outside::Text;
use std::alloc::Global;

/// The texts behind the major code. The text of an element that is left out is empty.
#[derive(Drop)]
pub struct Details {
    pub severity: Text,
    pub description: Text,
    pub message_ref: Text,
    pub operation_ref: Text,
    pub score_text: Text,
}

const SEVERITY: &[u8] = b" <imsx_severity";

const DESCRIPTION: &[u8] = b" <imsx_description";

const MESSAGE_REF: &[u8] = b" <imsx_messageRefIdentifier";

const OPERATION_REF: &[u8] = b" <imsx_operationRefIdentifier";

const STATUS_END: &[u8] =
    b" </imsx_statusInfo > </imsx_POXResponseHeaderInfo > </imsx_POXHeader > <imsx_POXBody";

// What may stand behind the major code, and behind each of these leaves.
const FROM_SEVERITY: [&[u8]; 5] = [
    SEVERITY,
    DESCRIPTION,
    MESSAGE_REF,
    OPERATION_REF,
    STATUS_END,
];

const FROM_DESCRIPTION: [&[u8]; 4] = [DESCRIPTION, MESSAGE_REF, OPERATION_REF, STATUS_END];

const FROM_MESSAGE_REF: [&[u8]; 3] = [MESSAGE_REF, OPERATION_REF, STATUS_END];

const FROM_OPERATION_REF: [&[u8]; 2] = [OPERATION_REF, STATUS_END];

const SEVERITY_END: &[u8] = b"/imsx_severity >";

const DESCRIPTION_END: &[u8] = b"/imsx_description >";

const MESSAGE_REF_END: &[u8] = b"/imsx_messageRefIdentifier >";

const OPERATION_REF_END: &[u8] = b"/imsx_operationRefIdentifier >";

const RESPONSE_END: &[u8] = b" </imsx_POXEnvelopeResponse >";

/// The texts behind the major code, and what stands behind the end tag of the root.
pub fn read_details(alloc: Global, bytes: &[u8]) -> Result<(Details, &[u8]), Halt>
    ensures reads { IfOk result (λ found. Reads (IsDetails found.0) bytes.now found.1.now) }
    ensures stops { IfErr result (IsHalt (Any IsDetails) bytes.now) }
{
    let (severity, graded) = optional_leaf(alloc, bytes, &FROM_SEVERITY, SEVERITY_END)?;
    let (description, described) = optional_leaf(
        alloc,
        graded,
        &FROM_DESCRIPTION,
        DESCRIPTION_END,
    )?;
    let (message_ref, referred) = optional_leaf(
        alloc,
        described,
        &FROM_MESSAGE_REF,
        MESSAGE_REF_END,
    )?;
    let (operation_ref, operated) = optional_leaf(
        alloc,
        referred,
        &FROM_OPERATION_REF,
        OPERATION_REF_END,
    )?;
    let opened = follow(operated, STATUS_END)?;
    let (score_text, closed) = body(alloc, opened)?;
    let behind = follow(closed, RESPONSE_END)?;
    let details = Details {
        severity,
        description,
        message_ref,
        operation_ref,
        score_text,
    };
    Ok((details, behind))
}
