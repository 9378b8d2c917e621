// The answers to the machine's replies.
ghost use Rattle.std.specs.Prelude.{◌≡◌, ◌≤◌, ◌+◌, ◌++◌, ◌∷◌, [], length, decimal, Some};
ghost use Rattle.http_wire.specs.Message.{ResponseParts};
ghost use Rattle.http_wire.specs.Response.{HasReason};
ghost use Rattle.http_wire.specs.declared.message.Media.TheVariants.{Plain};
ghost use Rattle.lti_asks.specs.Outcomes as outcomes;
ghost use Rattle.lti_provider.specs.Answers.{plain_answer, IsRendered};
ghost use Rattle.lti_session.specs.Room.{HasRoom};

use http_wire::Media;
use itoa::Buffer;
use lti_consumer::outcome_answer;
use lti_machine::Reply;
use lti_outside::Bytes;
use pox_outcomes::Outcome;

/// How many bytes the body of an answer in plain text has at most.
pub const LONGEST_BODY: usize = 64;

// Appends bytes for which there is room.
fn append(body: &mut Bytes, piece: &[u8])
    requires { length piece.now ≤ body.old.room }
    ensures list { body.new.list ≡ body.old.list ++ piece.now }
    ensures room { body.old.room ≤ body.new.room + length piece.now }
{
    if body.push(piece).is_err() {
        unreachable!()
    }
}

// Appends a text, a number and LF, for which there is room.
fn append_number(body: &mut Bytes, text: &[u8], number: u64)
    requires { length text.now + 21 ≤ body.old.room }
    ensures { body.new.list ≡ body.old.list ++ text.now ++ decimal number ++ 10 ∷ [] }
{
    let mut digits = Buffer::new();
    append(body, text);
    append(body, digits.format(number).as_bytes());
    append(body, b"\n");
}

// Puts the body of the answer in plain text to a reply into an empty one with room, and answers the status.
fn render_plain(body: &mut Bytes, reply: Reply) -> u16
    requires plain { (answer : ResponseParts) × (plain_answer reply ≡ Some answer) }
    requires empty { body.old.list ≡ [] }
    requires room { 64 ≤ body.old.room }
    ensures answer { plain_answer reply ≡ Some (record { status = result; media = Plain; body = body.new.list }) }
    ensures reason { HasReason result }
{
    match reply {
        Reply::Noted => {
            append(body, b"selection requested\n");
            200
        }
        Reply::Launched => {
            append(body, b"launched\n");
            200
        }
        Reply::Outside { now } => {
            append_number(body, b"outside the window at ", now);
            401
        }
        Reply::Used => {
            append(body, b"nonce already used\n");
            401
        }
        Reply::WindowFull { live } => {
            append_number(body, b"window full at ", u64::from(live));
            503
        }
        Reply::JournalFull { free } => {
            let mut digits = Buffer::new();
            append(body, b"journal full, ");
            append(body, digits.format(free).as_bytes());
            append(body, b" free\n");
            503
        }
        Reply::DiskFault { .. } => {
            append(body, b"disk fault\n");
            503
        }
        Reply::RunFull => {
            append(body, b"run full\n");
            503
        }
        Reply::NoMemory => {
            append(body, b"want of memory\n");
            503
        }
        Reply::Graded
        | Reply::GradeRead { .. }
        | Reply::Deleted
        | Reply::UnknownId
        | Reply::BadScore
        | Reply::Issued
        | Reply::AlreadyIssued => unreachable!(),
    }
}

// Whether the reply is told in an envelope.
fn is_of_outcomes(reply: &Reply) -> bool
    ensures { result ≡ outcomes.is_of_outcomes reply.now }
{
    match reply {
        Reply::Graded
        | Reply::GradeRead { .. }
        | Reply::Deleted
        | Reply::UnknownId
        | Reply::BadScore => true,
        _ => false,
    }
}

/// Puts the body of the answer to a reply into an empty one with room, without asking for memory, and answers the status
/// and the media type. The reply to an outcome that was accepted is told in an envelope, and every other one in plain text.
pub fn render_into(body: &mut Bytes, outcome: &Option<Outcome>, reply: Reply) -> (u16, Media)
    requires fits { (answer : ResponseParts) × IsRendered outcome.now reply answer }
    requires empty { body.old.list ≡ [] }
    requires room { HasRoom outcome.now body.old.room }
    ensures answer { IsRendered outcome.now reply (record { status = result.0; media = result.1; body = body.new.list }) }
    ensures reason { HasReason result.0 }
{
    match outcome {
        Some(outcome) if is_of_outcomes(&reply) => {
            outcome_answer(outcome, reply, body);
            (200, Media::Xml)
        }
        _ => {
            let status = render_plain(body, reply);
            (status, Media::Plain)
        }
    }
}
