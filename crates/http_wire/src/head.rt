// The head of a request.
ghost use Rattle.std.specs.Prelude.{◌≡◌, ◌≤◌, ◌==◌, [], length, map, IfOk, IfSome, IfNone, IsErrOf, IsAscii, All, codes, true, false};
ghost use Rattle.httparse.specs.Grammar.{ReadsRequest, RequestHead};
ghost use Rattle.httparse.specs.Spans.{IsRequestAt, IsRequestWithin, IsHeaderWithin, header_bytes};
ghost use Rattle.oauth_text.specs.Host.{IsHostOf};
ghost use Rattle.http_wire.specs.Headers as spec;
ghost use Rattle.http_wire.specs.Headers.{values_of};
ghost use Rattle.http_wire.specs.Head as grammar;
ghost use Rattle.http_wire.specs.Length.{LengthTells};
ghost use Rattle.http_wire.specs.Front.{HeadTells, PartsTell, IsKept};

use crate::WireFault;
use crate::headers::{
    count_named, first_named, first_or_empty, has_bad_header, is_closed, is_encoded, length_said,
};
use crate::lines::check_lines;
use crate::message::Request;
use crate::target::{is_target, split_target};
use crate::values::{media_of, text_of};
use httparse::Status;
use httparse::spans::{EMPTY_HEADER_SPAN, HeaderSpan, RequestSpans, parse_request};
use lti_outside::{Bytes, Limits, NoMemory, Text};
use oauth_text::{Host, HostFault};
use percent_encoding::ascii_str;
use std::alloc::Global;

/// What a head says: the request without its body, and the body's length.
#[derive(Drop)]
pub struct Front {
    pub request: Request,
    pub length: usize,
}

// The first line of a request's head.
#[derive(Clone, Copy)]
struct StartLine<'b> {
    method: &'b [u8],
    target: &'b [u8],
    minor: u8,
}

// The whole buffer as one complete head.
fn parse_whole(head: &[u8], headers: &mut [HeaderSpan; 64]) -> Option<RequestSpans>
    ensures some { IfSome result (λ spans. (h : RequestHead) × IsRequestAt head.now headers.new spans h × ReadsRequest head.now h []) }
    ensures within { IfSome result (IsRequestWithin head.now headers.new) }
    ensures none { IfNone result ((h : RequestHead) → length h.fields ≤ 64 → ReadsRequest head.now h [] → ⊥) }
{
    match parse_request(head, headers) {
        Ok(Status::Complete(spans)) => {
            if spans.len == head.len() {
                Some(spans)
            } else {
                None
            }
        }
        _ => None,
    }
}

// The host of a head in which `Host` stands once.
fn read_host(alloc: Global, head: &[u8], headers: &[HeaderSpan]) -> Result<Host, HostFault>
    requires within { All (IsHeaderWithin (length head.now)) headers.now }
    requires readable { spec.has_bad_header (map (header_bytes head.now) headers.now) ≡ false }
    ensures found { IfOk result (λ host. (spec.is_one_host (values_of (codes "Host") (map (header_bytes head.now) headers.now)) ≡ true)
        × IsHostOf (spec.first_in (values_of (codes "Host") (map (header_bytes head.now) headers.now))) host.name host.port) }
    ensures bad { IsErrOf result HostFault.BadHost
        → spec.is_one_host (values_of (codes "Host") (map (header_bytes head.now) headers.now)) ≡ false }
{
    let Some(value) = first_named(head, headers, b"Host") else {
        return Err(HostFault::BadHost);
    };
    if count_named(head, headers, b"Host") > 1 {
        return Err(HostFault::BadHost);
    }
    Host::read(alloc, ascii_str(value))
}

// The first fault of the length of a body, or the length.
fn read_length(
    head: &[u8],
    headers: &[HeaderSpan],
    method: &[u8],
    limits: &Limits,
) -> Result<usize, WireFault>
    requires { All (IsHeaderWithin (length head.now)) headers.now }
    ensures { LengthTells limits.now method.now (values_of (codes "Content-Length") (map (header_bytes head.now) headers.now)) result }
{
    match length_said(head, headers)? {
        None => {
            if has_body(method) {
                return Err(WireFault::LengthMissing);
            }
            Ok(0)
        }
        Some(said) => {
            if said > u64::from(limits.body) {
                return Err(WireFault::BodyTooLong);
            }
            Ok(said as usize)
        }
    }
}

fn has_body(method: &[u8]) -> bool
    ensures { result ≡ spec.has_body method.now }
{
    method == b"POST".as_slice() || method == b"PUT".as_slice() || method == b"PATCH".as_slice()
}

// The request of a head without fault, without its body.
fn keep(
    alloc: Global,
    head: &[u8],
    headers: &[HeaderSpan],
    line: &StartLine<'_>,
    host: Host,
) -> Result<Request, NoMemory>
    requires within { All (IsHeaderWithin (length head.now)) headers.now }
    requires readable { spec.has_bad_header (map (header_bytes head.now) headers.now) ≡ false }
    requires method { IsAscii line.now.method.now }
    requires target { grammar.is_target line.now.target.now ≡ true }
    ensures { IfOk result (IsKept (record { method = line.now.method.now; target = line.now.target.now; minor = line.now.minor; headers = map (header_bytes head.now) headers.now }) host.name host.port) }
{
    let (path, query) = split_target(line.target);
    let media = first_or_empty(head, headers, b"Content-Type");
    let authorization = first_or_empty(head, headers, b"Authorization");
    Ok(Request {
        method: text_of(alloc, line.method)?,
        path: text_of(alloc, path)?,
        query: text_of(alloc, query)?,
        host,
        media: media_of(alloc, media)?,
        encoded: is_encoded(head, headers),
        authorization: text_of(alloc, authorization)?,
        body: Bytes::new(alloc),
        close: line.minor == 0 || is_closed(head, headers),
    })
}

// The first fault of the parts of a head, or what is kept of them.
fn read_parts(
    alloc: Global,
    head: &[u8],
    headers: &[HeaderSpan],
    line: &StartLine<'_>,
    limits: &Limits,
) -> Result<Front, WireFault>
    requires within { All (IsHeaderWithin (length head.now)) headers.now }
    requires method { IsAscii line.now.method.now }
    ensures { PartsTell limits.now (record { method = line.now.method.now; target = line.now.target.now; minor = line.now.minor; headers = map (header_bytes head.now) headers.now }) result }
{
    if has_bad_header(head, headers) {
        return Err(WireFault::BadHead);
    }
    if !is_target(line.target) {
        return Err(WireFault::BadTarget);
    }
    let host = match read_host(alloc, head, headers) {
        Ok(host) => host,
        Err(HostFault::BadHost) => return Err(WireFault::BadHost),
        Err(HostFault::NoMemory) => return Err(WireFault::NoMemory),
    };
    if first_named(head, headers, b"Transfer-Encoding").is_some() {
        return Err(WireFault::Chunked);
    }
    let length = read_length(head, headers, line.method, limits)?;
    let request = keep(alloc, head, headers, line, host)?;
    Ok(Front { request, length })
}

/// The first fault of a head, or what it says.
pub(crate) fn read_head(alloc: Global, head: &[u8], limits: &Limits) -> Result<Front, WireFault>
    requires { limits.now.headers ≤ 64 }
    ensures { HeadTells limits.now head.now result }
{
    check_lines(head, limits)?;
    let mut headers = [EMPTY_HEADER_SPAN; 64];
    let Some(spans) = parse_whole(head, &mut headers) else {
        return Err(WireFault::BadHead);
    };
    let line = StartLine {
        method: spans.method.of(head),
        target: spans.path.of(head),
        minor: spans.version,
    };
    read_parts(alloc, head, &headers[..spans.headers], &line, limits)
}
