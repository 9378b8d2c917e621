// The head of an answer.
ghost use Rattle.std.specs.Prelude.{◌≤◌, [], length, map, IfSome, IfNone, All, codes};
ghost use Rattle.httparse.specs.Grammar.{ReadsResponse, ResponseHead};
ghost use Rattle.httparse.specs.Spans.{IsResponseAt, IsResponseWithin, IsHeaderWithin, header_bytes};
ghost use Rattle.http_wire.specs.Headers.{values_of};
ghost use Rattle.http_wire.specs.AnswerFront.{AnswerHeadTells, AnswerPartsTell, AnswerLengthTells};

use crate::WireFault;
use crate::headers::{first_named, first_or_empty, has_bad_header, length_said};
use crate::lines::check_lines;
use crate::values::media_of;
use httparse::Status;
use httparse::spans::{EMPTY_HEADER_SPAN, HeaderSpan, ResponseSpans, parse_response};
use lti_outside::{Limits, Text};
use std::alloc::Global;

/// What the head of an answer says. Where it says no length, the body is all up to the end of input.
#[derive(Drop)]
pub struct AnswerFront {
    pub status: u16,
    pub media: Text,
    pub length: Option<usize>,
}

// The whole buffer as one complete head.
fn parse_whole(head: &[u8], headers: &mut [HeaderSpan; 64]) -> Option<ResponseSpans>
    ensures some { IfSome result (λ spans. (h : ResponseHead) × IsResponseAt head.now headers.new spans h × ReadsResponse head.now h []) }
    ensures within { IfSome result (IsResponseWithin head.now headers.new) }
    ensures none { IfNone result ((h : ResponseHead) → length h.fields ≤ 64 → ReadsResponse head.now h [] → ⊥) }
{
    match parse_response(head, headers) {
        Ok(Status::Complete(spans)) => {
            if spans.len == head.len() {
                Some(spans)
            } else {
                None
            }
        }
        _ => None,
    }
}

// The first fault of the length of a body, or the length.
fn read_length(
    head: &[u8],
    headers: &[HeaderSpan],
    limits: &Limits,
) -> Result<Option<usize>, WireFault>
    requires { All (IsHeaderWithin (length head.now)) headers.now }
    ensures { AnswerLengthTells limits.now (values_of (codes "Content-Length") (map (header_bytes head.now) headers.now)) result }
{
    match length_said(head, headers)? {
        None => Ok(None),
        Some(said) => {
            if said > u64::from(limits.body) {
                return Err(WireFault::BodyTooLong);
            }
            Ok(Some(said as usize))
        }
    }
}

// The first fault of the parts of a head, or what is kept of them.
fn read_parts(
    alloc: Global,
    head: &[u8],
    headers: &[HeaderSpan],
    status: u16,
    limits: &Limits,
) -> Result<AnswerFront, WireFault>
    requires { All (IsHeaderWithin (length head.now)) headers.now }
    ensures { AnswerPartsTell limits.now (record { status = status; headers = map (header_bytes head.now) headers.now }) result }
{
    if has_bad_header(head, headers) {
        return Err(WireFault::BadHead);
    }
    if first_named(head, headers, b"Transfer-Encoding").is_some() {
        return Err(WireFault::Chunked);
    }
    let length = read_length(head, headers, limits)?;
    let media = media_of(alloc, first_or_empty(head, headers, b"Content-Type"))?;
    Ok(AnswerFront {
        status,
        media,
        length,
    })
}

/// The first fault of a head, or what it says.
pub(crate) fn read_head(
    alloc: Global,
    head: &[u8],
    limits: &Limits,
) -> Result<AnswerFront, WireFault>
    requires { limits.now.headers ≤ 64 }
    ensures { AnswerHeadTells limits.now head.now result }
{
    check_lines(head, limits)?;
    let mut headers = [EMPTY_HEADER_SPAN; 64];
    let Some(spans) = parse_whole(head, &mut headers) else {
        return Err(WireFault::BadHead);
    };
    read_parts(alloc, head, &headers[..spans.headers], spans.code, limits)
}
