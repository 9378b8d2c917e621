// Writing answers to outcome requests (LTI 1.1.1, section 6, and the schema imsoms_v1p0).
ghost use Rattle.std.specs.Prelude.{◌≡◌, ◌+◌, ◌*◌, ◌-◌, ◌^◌, ◌≤◌, ◌++◌, ◌∷◌, true, false, codes, length, min};
ghost use Rattle.score_decimal.specs.Printed.{score_text};
ghost use Rattle.pox_outcomes.specs.Written.{escape_part};
ghost use Rattle.pox_outcomes.specs.Answered as spec;
ghost use Rattle.pox_outcomes.specs.Answered.{Belongs, answer_text, read_response, room_of};

use crate::puts::{put, put_part, put_text};
use crate::{Operation, Outcome, Told};
use lti_outside::Bytes;
use score_decimal::Score;

const ANSWER_START: &[u8] =
    b"<?xml version=\"1.0\" encoding=\"UTF-8\"?><imsx_POXEnvelopeResponse xmlns=\"http://www.imsglobal.org/services/ltiv1p1/xsd/imsoms_v1p0\"><imsx_POXHeader><imsx_POXResponseHeaderInfo><imsx_version>V1.0</imsx_version><imsx_messageIdentifier>";

const SUCCESS: &[u8] =
    b"</imsx_messageIdentifier><imsx_statusInfo><imsx_codeMajor>success</imsx_codeMajor><imsx_severity>status</imsx_severity><imsx_description>";

const FAILURE: &[u8] =
    b"</imsx_messageIdentifier><imsx_statusInfo><imsx_codeMajor>failure</imsx_codeMajor><imsx_severity>error</imsx_severity><imsx_description>";

const REFERRING: &[u8] = b"</imsx_description><imsx_messageRefIdentifier>";

const OPERATING: &[u8] = b"</imsx_messageRefIdentifier><imsx_operationRefIdentifier>";

const ANSWERING: &[u8] =
    b"</imsx_operationRefIdentifier></imsx_statusInfo></imsx_POXResponseHeaderInfo></imsx_POXHeader><imsx_POXBody>";

const ANSWER_END: &[u8] = b"</imsx_POXBody></imsx_POXEnvelopeResponse>";

fn put_score(out: &mut Bytes, score: Score)
    requires { 32 ≤ out.old.room }
    ensures list { out.new.list ≡ out.old.list ++ score_text score }
    ensures room { out.old.room ≤ out.new.room + 32 }
{
    let mut room = [0; 32];
    let len = score.print_into(&mut room);
    put(out, &room[..len]);
}

fn put_status(out: &mut Bytes, told: &Told)
    requires { 160 ≤ out.old.room }
    ensures list { out.new.list ≡ out.old.list ++ spec.status told.now }
    ensures room { out.old.room ≤ out.new.room + 160 }
{
    match told {
        Told::Replaced(_) | Told::ReadScore(_) | Told::ReadNothing | Told::Deleted => put(
            out, SUCCESS,
        ),
        Told::UnknownId | Told::BadScore => put(out, FAILURE),
    }
}

// The id behind a space, at the end of a description.
fn put_last_id(out: &mut Bytes, id: &[u8])
    requires { 5 + 5 * length id.now ≤ out.old.room }
    ensures list { out.new.list ≡ out.old.list ++ escape_part false true (32 ∷ id.now) }
    ensures room { out.old.room ≤ out.new.room + (5 + 5 * length id.now) }
{
    put_part(out, false, id.is_empty(), b" ");
    put_part(out, false, true, id);
}

fn put_scored(out: &mut Bytes, id: &[u8], words: &[u8])
    requires { 10 + 5 * length id.now + length words.now ≤ out.old.room }
    ensures list { out.new.list ≡ out.old.list ++ (codes "Score for " ++ escape_part false false id.now ++ words.now) }
    ensures room { out.old.room ≤ out.new.room + (10 + 5 * length id.now + length words.now) }
{
    put(out, b"Score for ");
    put_part(out, false, false, id);
    put(out, words);
}

fn put_description(out: &mut Bytes, told: &Told, id: &[u8])
    requires { 100 + 5 * length id.now ≤ out.old.room }
    ensures list { out.new.list ≡ out.old.list ++ spec.description told.now id.now }
    ensures room { out.old.room ≤ out.new.room + (100 + 5 * length id.now) }
{
    match told {
        Told::Replaced(score) => {
            put_scored(out, id, b" is now ");
            put_score(out, *score);
        }
        Told::ReadScore(score) => {
            put_scored(out, id, b" is ");
            put_score(out, *score);
        }
        Told::ReadNothing => {
            put(out, b"No score for");
            put_last_id(out, id);
        }
        Told::Deleted => put_scored(out, id, b" is deleted"),
        Told::UnknownId => {
            put(out, b"Unknown sourcedId");
            put_last_id(out, id);
        }
        Told::BadScore => put_scored(out, id, b" is no number from 0 to 1"),
    }
}

fn put_operation(out: &mut Bytes, operation: Operation)
    requires { 16 ≤ out.old.room }
    ensures list { out.new.list ≡ out.old.list ++ spec.operation_name operation }
    ensures room { out.old.room ≤ out.new.room + 16 }
{
    match operation {
        Operation::ReplaceResult => put(out, b"replaceResult"),
        Operation::ReadResult => put(out, b"readResult"),
        Operation::DeleteResult => put(out, b"deleteResult"),
    }
}

fn put_empty_response(out: &mut Bytes, operation: Operation)
    requires { 32 ≤ out.old.room }
    ensures list { out.new.list ≡ out.old.list ++ spec.empty_response operation }
    ensures room { out.old.room ≤ out.new.room + 32 }
{
    match operation {
        Operation::ReplaceResult => put(out, b"<replaceResultResponse/>"),
        Operation::ReadResult => put(out, b"<readResultResponse/>"),
        Operation::DeleteResult => put(out, b"<deleteResultResponse/>"),
    }
}

fn put_read_response(out: &mut Bytes, score: &[u8])
    requires { 160 + length score.now ≤ out.old.room }
    ensures list { out.new.list ≡ out.old.list ++ read_response score.now }
    ensures room { out.old.room ≤ out.new.room + (160 + length score.now) }
{
    put(
        out,
        b"<readResultResponse><result><resultScore><language>en</language><textString>",
    );
    put(out, score);
    put(
        out,
        b"</textString></resultScore></result></readResultResponse>",
    );
}

fn put_score_response(out: &mut Bytes, score: Score)
    requires { 200 ≤ out.old.room }
    ensures list { out.new.list ≡ out.old.list ++ read_response (score_text score) }
    ensures room { out.old.room ≤ out.new.room + 200 }
{
    let mut room = [0; 32];
    let len = score.print_into(&mut room);
    put_read_response(out, &room[..len]);
}

fn put_response(out: &mut Bytes, operation: Operation, told: &Told)
    requires { 200 ≤ out.old.room }
    ensures list { out.new.list ≡ out.old.list ++ spec.response operation told.now }
    ensures room { out.old.room ≤ out.new.room + 200 }
{
    match told {
        Told::ReadScore(score) => put_score_response(out, *score),
        Told::ReadNothing => put_read_response(out, b""),
        Told::Replaced(_) | Told::Deleted | Told::UnknownId | Told::BadScore => put_empty_response(
            out, operation,
        ),
    }
}

/// Room enough for any answer to the outcome, or 2^64 - 1 where a number doesn't count it. Where `spare` of some
/// bytes is at least this room and isn't 2^64 - 1, `write_answer` may append to them.
pub fn answer_room(outcome: &Outcome) -> usize
    ensures { result ≡ min (room_of outcome.now) (2 ^ 64 - 1) }
{
    let message = outcome.message.get().len();
    let sourced_id = outcome.sourced_id.get().len();
    message
        .saturating_mul(10)
        .saturating_add(sourced_id.saturating_mul(5))
        .saturating_add(2048)
}

/// Appends the one answer that tells what became of the outcome. What is told belongs to the operation, and the
/// bytes have room for any answer to the outcome. Takes no memory.
pub fn write_answer(outcome: &Outcome, told: Told, out: &mut Bytes)
    requires belongs { Belongs outcome.now.operation told }
    requires room { room_of outcome.now ≤ out.old.room }
    ensures { out.new.list ≡ out.old.list ++ answer_text outcome.now told }
{
    let message = outcome.message.get().as_bytes();
    let sourced_id = outcome.sourced_id.get().as_bytes();
    put(out, ANSWER_START);
    put_text(out, message);
    put_status(out, &told);
    put_description(out, &told, sourced_id);
    put(out, REFERRING);
    put_text(out, message);
    put(out, OPERATING);
    put_operation(out, outcome.operation);
    put(out, ANSWERING);
    put_response(out, outcome.operation, &told);
    put(out, ANSWER_END);
}
