//! What outcome requests ask of the machine, and the envelopes that tell its replies.
ghost use Rattle.std.specs.Prelude.{◌≡◌};
ghost use Rattle.pox_outcomes.specs.declared.told.Told.{Told};
ghost use Rattle.lti_asks.specs.Outcomes.{IsTold};
ghost use Rattle.lti_asks.specs.Outcomes as spec;

use super::*;
use lti_asks::{accepted_is_told, one_telling};
use lti_machine::{Action, Reply, Standing};
use lti_outside::{Bytes, NoMemory};
use pox_outcomes::{EnvelopeFault, Operation, Outcome, answer_room};
use score_decimal::Score;
use std::alloc::Global;
use std::test::Fail;

const ONE: u128 = 1_000_000_000_000_000_000_000_000_000_000;

// A request of message 999999123 round the element of its body.
const REQUEST: &str =
    "<?xml version=\"1.0\" encoding=\"UTF-8\"?><imsx_POXEnvelopeRequest xmlns=\"http://www.imsglobal.org/services/ltiv1p1/xsd/imsoms_v1p0\"><imsx_POXHeader><imsx_POXRequestHeaderInfo><imsx_version>V1.0</imsx_version><imsx_messageIdentifier>999999123</imsx_messageIdentifier></imsx_POXRequestHeaderInfo></imsx_POXHeader><imsx_POXBody>";

const REQUEST_END: &str = "</imsx_POXBody></imsx_POXEnvelopeRequest>";

// A replace of the result 3124567 round the text of its score.
const REPLACE: &str =
    "<replaceResultRequest><resultRecord><sourcedGUID><sourcedId>3124567</sourcedId></sourcedGUID><result><resultScore><language>en</language><textString>";

const REPLACE_END: &str =
    "</textString></resultScore></result></resultRecord></replaceResultRequest>";

const READ: &str =
    "<readResultRequest><resultRecord><sourcedGUID><sourcedId>3124567</sourcedId></sourcedGUID></resultRecord></readResultRequest>";

const DELETE: &str =
    "<deleteResultRequest><resultRecord><sourcedGUID><sourcedId>3124567</sourcedId></sourcedGUID></resultRecord></deleteResultRequest>";

// The texts one after another.
fn joined(alloc: Global, texts: &[&str]) -> Result<Bytes, NoMemory> {
    let mut bytes = Bytes::new(alloc);
    for text in texts {
        bytes.push(text.as_bytes())?;
    }
    Ok(bytes)
}

// The score that a replace with this text asks for, in units of 10^-30.
fn score_asked(alloc: Global, text: &str) -> Result<Option<u128>, Fail> {
    let body = joined(alloc, &[REQUEST, REPLACE, text, REPLACE_END, REQUEST_END])?;
    let (action, outcome) = outcome_call(alloc, body.get())?;
    if outcome.message.get() != "999999123" || outcome.operation != Operation::ReplaceResult {
        return Err("another outcome".into());
    }
    let Action::Replace { id, score } = &action else {
        return Err("another action".into());
    };
    if id.get() != "3124567" {
        return Err("another id".into());
    }
    match score {
        Some(score) => Ok(Some(score.parts())),
        None => Ok(None),
    }
}

#[test]
fn a_replace_asks_for_the_score_of_its_text(rt: HostRuntime) -> Result<(), Fail> {
    let texts = [
        ("0.92", Some(92 * (ONE / 100))),
        ("1.0", Some(ONE)),
        ("0.920", Some(92 * (ONE / 100))),
        (".5", Some(ONE / 2)),
        ("1.", Some(ONE)),
        ("1.0000001", None),
        ("-0", None),
        ("1e-2", None),
        ("", None),
        ("0.0000000000000000000000000000001", None),
    ];
    for (text, score) in texts {
        assert_eq!(rt; score_asked(rt.alloc(), text)?, score, "for {text}");
    }
    Ok(())
}

#[test]
fn a_read_and_a_delete_ask_for_their_id(rt: HostRuntime) -> Result<(), Fail> {
    let alloc = rt.alloc();
    let body = joined(alloc, &[REQUEST, READ, REQUEST_END])?;
    let (read, outcome) = outcome_call(alloc, body.get())?;
    assert!(rt; matches!(&read, Action::Read { id } if id.get() == "3124567"));
    assert!(rt; outcome.operation == Operation::ReadResult);
    let body = joined(alloc, &[REQUEST, DELETE, REQUEST_END])?;
    let (delete, outcome) = outcome_call(alloc, body.get())?;
    assert!(rt; matches!(&delete, Action::Delete { id } if id.get() == "3124567"));
    assert!(rt; outcome.operation == Operation::DeleteResult);
    Ok(())
}

#[test]
fn bytes_that_are_no_envelope_are_refused(rt: HostRuntime) {
    let fault = match outcome_call(rt.alloc(), b"<imsx_POXEnvelopeRequest>") {
        Ok(_) => None,
        Err(fault) => Some(fault),
    };
    assert_eq!(rt; fault, Some(EnvelopeFault::BadEnvelope { at: 24 }));
}

// Whether the reply is one that an accepted outcome has.
fn is_of_outcomes(reply: &Reply) -> bool
    ensures { result ≡ spec.is_of_outcomes reply.now }
{
    matches!(
        reply,
        Reply::Graded
            | Reply::GradeRead { .. }
            | Reply::Deleted
            | Reply::UnknownId
            | Reply::BadScore
    )
}

// The answer that tells the reply to the outcome.
fn told(alloc: Global, outcome: &Outcome, reply: Reply) -> Result<Bytes, Fail>
    requires { (told : Told) × IsTold outcome.now reply told }
{
    let room = answer_room(outcome);
    if room > 4096 {
        return Err("a long answer".into());
    }
    let mut out = Bytes::new(alloc);
    out.reserve(room)?;
    outcome_answer(outcome, reply, &mut out);
    Ok(out)
}

// The answer to a request with this element, where its id stands so.
fn answer(alloc: Global, element: &[&str; 3], standing: Standing) -> Result<Bytes, Fail> {
    let [before, text, behind] = element;
    let body = joined(alloc, &[REQUEST, before, text, behind, REQUEST_END])?;
    let (action, outcome) = outcome_call(alloc, body.get())?;
    let reply = action.result(standing);
    if !is_of_outcomes(&reply) {
        return Err("no reply to an outcome".into());
    }
    accepted_is_told();
    told(alloc, &outcome, reply)
}

// Whether the bytes are the answer to message 999999123 with these texts: the major code, the severity, the description,
// the operation, and what the body holds.
fn is_answer(alloc: Global, bytes: &Bytes, texts: &[&str; 5]) -> Result<bool, Fail> {
    let [major, severity, description, operation, response] = texts;
    let wanted = joined(
        alloc,
        &[
            "<?xml version=\"1.0\" encoding=\"UTF-8\"?><imsx_POXEnvelopeResponse xmlns=\"http://www.imsglobal.org/services/ltiv1p1/xsd/imsoms_v1p0\"><imsx_POXHeader><imsx_POXResponseHeaderInfo><imsx_version>V1.0</imsx_version><imsx_messageIdentifier>999999123</imsx_messageIdentifier><imsx_statusInfo><imsx_codeMajor>",
            major,
            "</imsx_codeMajor><imsx_severity>",
            severity,
            "</imsx_severity><imsx_description>",
            description,
            "</imsx_description><imsx_messageRefIdentifier>999999123</imsx_messageRefIdentifier><imsx_operationRefIdentifier>",
            operation,
            "</imsx_operationRefIdentifier></imsx_statusInfo></imsx_POXResponseHeaderInfo></imsx_POXHeader><imsx_POXBody>",
            response,
            "</imsx_POXBody></imsx_POXEnvelopeResponse>",
        ],
    )?;
    Ok(bytes.get() == wanted.get())
}

const UNKNOWN: &str = "Unknown sourcedId 3124567";

#[test]
fn replies_to_a_replace_are_told(rt: HostRuntime) -> Result<(), Fail> {
    let alloc = rt.alloc();
    let graded = "Score for 3124567 is now 0.92";
    let bad = "Score for 3124567 is no number from 0 to 1";
    let cases = [
        ("0.920", Standing::Empty, ["success", "status", graded]),
        ("1.0000001", Standing::Empty, ["failure", "error", bad]),
        ("0.920", Standing::Unknown, ["failure", "error", UNKNOWN]),
        (
            "1.0000001",
            Standing::Unknown,
            ["failure", "error", UNKNOWN],
        ),
    ];
    for (text, standing, [major, severity, description]) in cases {
        let answer = answer(alloc, &[REPLACE, text, REPLACE_END], standing)?;
        let texts = [
            major,
            severity,
            description,
            "replaceResult",
            "<replaceResultResponse/>",
        ];
        assert!(rt; is_answer(alloc, &answer, &texts)?, "for {text}");
    }
    Ok(())
}

#[test]
fn replies_to_a_read_are_told(rt: HostRuntime) -> Result<(), Fail> {
    let alloc = rt.alloc();
    let Some(score) = Score::read(".920") else {
        return Err("no score".into());
    };
    let scored =
        "<readResultResponse><result><resultScore><language>en</language><textString>0.92</textString></resultScore></result></readResultResponse>";
    let empty =
        "<readResultResponse><result><resultScore><language>en</language><textString></textString></resultScore></result></readResultResponse>";
    let cases = [
        (
            Standing::Scored(score),
            ["success", "status", "Score for 3124567 is 0.92", scored],
        ),
        (
            Standing::Empty,
            ["success", "status", "No score for 3124567", empty],
        ),
        (
            Standing::Unknown,
            ["failure", "error", UNKNOWN, "<readResultResponse/>"],
        ),
    ];
    for (standing, [major, severity, description, response]) in cases {
        let answer = answer(alloc, &[READ, "", ""], standing)?;
        let texts = [major, severity, description, "readResult", response];
        assert!(rt; is_answer(alloc, &answer, &texts)?, "for {description}");
    }
    Ok(())
}

#[test]
fn replies_to_a_delete_are_told(rt: HostRuntime) -> Result<(), Fail> {
    let alloc = rt.alloc();
    let deleted = "Score for 3124567 is deleted";
    let cases = [
        (Standing::Empty, ["success", "status", deleted]),
        (Standing::Unknown, ["failure", "error", UNKNOWN]),
    ];
    for (standing, [major, severity, description]) in cases {
        let answer = answer(alloc, &[DELETE, "", ""], standing)?;
        let texts = [
            major,
            severity,
            description,
            "deleteResult",
            "<deleteResultResponse/>",
        ];
        assert!(rt; is_answer(alloc, &answer, &texts)?, "for {description}");
    }
    one_telling();
    Ok(())
}
