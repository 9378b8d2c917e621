// Writing outcome requests (LTI 1.1.1, section 6, and the schema imsoms_v1p0).
ghost use Rattle.std.specs.Prelude.{◌≡◌, ◌++◌, ◌+◌, ◌*◌, ◌≤◌, ◌↔◌, length, IsTrue, OnOk, IfOk, IfErr, IfSome};
ghost use Rattle.pox_outcomes.specs.Refusal.{IsRefusalOf};
ghost use Rattle.pox_outcomes.specs.Written as spec;
ghost use Rattle.pox_outcomes.specs.declared.outcome.Operation.TheVariants as asked_for;
ghost use Rattle.pox_outcomes.specs.Written.{IsXml, IsXmlText, escape_text, request_text, request_start, asked, request_end};

use crate::characters::after_character;
use crate::puts::{put, put_text};
use crate::{EnvelopeRefusal, Operation, Outcome};
use lti_outside::{Bytes, NoMemory};
use std::alloc::Global;

const REQUEST_START: &[u8] =
    b"<?xml version=\"1.0\" encoding=\"UTF-8\"?><imsx_POXEnvelopeRequest xmlns=\"http://www.imsglobal.org/services/ltiv1p1/xsd/imsoms_v1p0\"><imsx_POXHeader><imsx_POXRequestHeaderInfo><imsx_version>V1.0</imsx_version><imsx_messageIdentifier>";

// Whether the text holds characters alone that XML 1.0 allows.
fn is_xml(text: &[u8]) -> bool
    ensures { IsTrue result ↔ IsXmlText text.now }
{
    let mut rest = text;
    'characters: while !rest.is_empty() {
        match after_character(rest) {
            Ok(others) => rest = others,
            Err(_) => return false,
        }
    }
    true
}

fn push_asked(out: &mut Bytes, operation: Operation)
    requires { 160 ≤ out.old.room }
    ensures list { out.new.list ≡ out.old.list ++ asked operation }
    ensures room { out.old.room ≤ out.new.room + 160 }
{
    match operation {
        Operation::ReplaceResult => put(
            out,
            b"</imsx_messageIdentifier></imsx_POXRequestHeaderInfo></imsx_POXHeader><imsx_POXBody><replaceResultRequest><resultRecord><sourcedGUID><sourcedId>",
        ),
        Operation::ReadResult => put(
            out,
            b"</imsx_messageIdentifier></imsx_POXRequestHeaderInfo></imsx_POXHeader><imsx_POXBody><readResultRequest><resultRecord><sourcedGUID><sourcedId>",
        ),
        Operation::DeleteResult => put(
            out,
            b"</imsx_messageIdentifier></imsx_POXRequestHeaderInfo></imsx_POXHeader><imsx_POXBody><deleteResultRequest><resultRecord><sourcedGUID><sourcedId>",
        ),
    }
}

fn push_replaced(out: &mut Bytes, score: &[u8])
    requires { 240 + 5 * length score.now ≤ out.old.room }
    ensures { out.new.list ≡ out.old.list ++ request_end asked_for.ReplaceResult score.now }
{
    put(
        out,
        b"</sourcedId></sourcedGUID><result><resultScore><language>en</language><textString>",
    );
    put_text(out, score);
    put(
        out,
        b"</textString></resultScore></result></resultRecord></replaceResultRequest></imsx_POXBody></imsx_POXEnvelopeRequest>",
    );
}

fn push_end(out: &mut Bytes, operation: Operation, score: &[u8])
    requires { 240 + 5 * length score.now ≤ out.old.room }
    ensures { out.new.list ≡ out.old.list ++ request_end operation score.now }
{
    match operation {
        Operation::ReplaceResult => push_replaced(out, score),
        Operation::ReadResult => put(
            out,
            b"</sourcedId></sourcedGUID></resultRecord></readResultRequest></imsx_POXBody></imsx_POXEnvelopeRequest>",
        ),
        Operation::DeleteResult => put(
            out,
            b"</sourcedId></sourcedGUID></resultRecord></deleteResultRequest></imsx_POXBody></imsx_POXEnvelopeRequest>",
        ),
    }
}

// Whether each text holds allowed characters alone.
fn are_xml(outcome: &Outcome) -> bool
    ensures { IsTrue result ↔ IsXml outcome.now }
{
    is_xml(outcome.message.get().as_bytes())
        && is_xml(outcome.sourced_id.get().as_bytes())
        && is_xml(outcome.score_text.get().as_bytes())
}

// Room enough for the texts, where a number counts it.
fn room_for(message: &[u8], sourced_id: &[u8], score: &[u8]) -> Option<usize>
    ensures { IfSome result (λ room. room ≡ 1024 + 5 * length message.now + 5 * length sourced_id.now + 5 * length score.now) }
{
    let message = message.len().checked_mul(5)?;
    let sourced_id = sourced_id.len().checked_mul(5)?;
    let score = score.len().checked_mul(5)?;
    let texts = message.checked_add(sourced_id)?.checked_add(score)?;
    texts.checked_add(1024)
}

fn request(alloc: Global, outcome: &Outcome) -> Result<Bytes, NoMemory>
    ensures { IfOk result (λ made. made.list ≡ request_text outcome.now) }
{
    let message = outcome.message.get().as_bytes();
    let sourced_id = outcome.sourced_id.get().as_bytes();
    let score = outcome.score_text.get().as_bytes();
    let Some(room) = room_for(message, sourced_id, score) else {
        return Err(NoMemory);
    };
    let mut out = Bytes::new(alloc);
    out.reserve(room)?;
    put(&mut out, REQUEST_START);
    put_text(&mut out, message);
    push_asked(&mut out, outcome.operation);
    put_text(&mut out, sourced_id);
    push_end(&mut out, outcome.operation, score);
    Ok(out)
}

/// The one envelope that asks for the outcome, without white bytes between its tags. Tab, LF and CR in a text are
/// written as references, and so is a space at its edge. The score text is written where the operation is
/// `ReplaceResult`.
pub fn write_request(alloc: Global, outcome: &Outcome) -> Result<Bytes, EnvelopeRefusal>
    ensures text { IfOk result (λ made. made.list ≡ request_text outcome.now) }
    ensures xml { OnOk result (IsXml outcome.now) }
    ensures refused { IfErr result (IsRefusalOf outcome.now) }
{
    if !are_xml(outcome) {
        return Err(EnvelopeRefusal::NotXml);
    }
    match request(alloc, outcome) {
        Ok(made) => Ok(made),
        Err(NoMemory) => Err(EnvelopeRefusal::NoMemory),
    }
}
