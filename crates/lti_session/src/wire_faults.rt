// The answers to faults of the wire.
ghost use Rattle.std.specs.Prelude.{◌≡◌, ℕ, List, [], None, Some, MatchOption};
ghost use Rattle.lti_outside.specs.Traffic.{Moves, Fault};
ghost use Rattle.http_wire.specs.Response.{HasReason};
ghost use Rattle.http_wire.specs.declared.message.Media.TheVariants.{Plain};
ghost use Rattle.lti_provider.specs.Answers.{wire_answer};
ghost use Rattle.lti_session.specs.Refusal.{Refuses, refused_end};

use crate::session_end::SessionEnd;
use http_wire::{Media, WireFault, write_answer};
use lti_outside::Link;

// The status and the body of the answer to a fault, where it has one.
fn answer_of(fault: WireFault) -> Option<(u16, &'static [u8])>
    ensures { MatchOption result (wire_answer fault ≡ None)
        (λ answer. (wire_answer fault ≡ Some (record { status = answer.0; media = Plain; body = answer.1.now })) × HasReason answer.0) }
{
    match fault {
        WireFault::BadHead => Some((400, b"bad head\n")),
        WireFault::HeadTooLong => Some((431, b"head too long\n")),
        WireFault::TooManyHeaders => Some((431, b"too many headers\n")),
        WireFault::BadTarget => Some((400, b"bad target\n")),
        WireFault::BadHost => Some((400, b"bad host\n")),
        WireFault::Chunked => Some((501, b"chunked bodies are not supported\n")),
        WireFault::BadLength => Some((400, b"bad length\n")),
        WireFault::LengthMissing => Some((411, b"length missing\n")),
        WireFault::BodyTooLong => Some((413, b"body too long\n")),
        WireFault::CutShort | WireFault::ReadFault => None,
        WireFault::NoMemory => Some((503, b"want of memory\n")),
    }
}

// The end of a connection whose fault was answered, or couldn't be.
fn end_of(fault: WireFault, is_written: bool) -> SessionEnd
    ensures { result ≡ refused_end fault is_written }
{
    match (fault, is_written) {
        (WireFault::CutShort, _) => SessionEnd::CutShort,
        (WireFault::ReadFault, _) => SessionEnd::ReadFault,
        (WireFault::NoMemory, _) => SessionEnd::NoMemory,
        (_, true) => SessionEnd::Refused(fault),
        (_, false) => SessionEnd::WriteFault,
    }
}

/// Answers a fault of the wire, where it has an answer, and so ends the connection. It takes no memory.
pub fn refuse<L: Link>(link: &mut L, fault: WireFault) -> SessionEnd
    ensures { (written : List ℕ) × (met : Fault) × Moves (L.traffic link.old) (L.traffic link.new) [] written met × Refuses written met fault result }
{
    let Some((status, body)) = answer_of(fault) else {
        return end_of(fault, true);
    };
    let answered = write_answer(link, status, Media::Plain, body, true);
    end_of(fault, answered.is_ok())
}
