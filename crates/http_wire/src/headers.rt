// The headers of a head, as places in its bytes.
ghost use Rattle.std.specs.Prelude.{◌≡◌, false, ◌<◌, ℕ, List, [], ◌∷◌, length, map, IfNone, IfSome, All, true, codes};
ghost use Rattle.std.specs.List.{list_any};
ghost use Rattle.httparse.specs.Spans.{IsHeaderWithin, header_bytes};
ghost use Rattle.http_wire.specs.Headers as spec;
ghost use Rattle.http_wire.specs.Headers.{values_of, count_of};
ghost use Rattle.http_wire.specs.Length.{LengthSaid};

use crate::WireFault;
use crate::values::{are_text_bytes, has_close, is_length, is_same_text, number};
use httparse::spans::HeaderSpan;

fn is_named(head: &[u8], header: &HeaderSpan, name: &[u8]) -> bool
    requires { IsHeaderWithin (length head.now) header.now }
    ensures { result ≡ spec.is_named name.now (header_bytes head.now header.now) }
{
    is_same_text(header.name.of(head), name)
}

/// How often a name stands.
pub(crate) fn count_named(head: &[u8], headers: &[HeaderSpan], name: &[u8]) -> usize
    requires { All (IsHeaderWithin (length head.now)) headers.now }
    ensures { result ≡ count_of name.now (map (header_bytes head.now) headers.now) }
{
    let mut count: usize = 0;
    for header in headers {
        if is_named(head, header, name) {
            count += 1;
        }
    }
    count
}

/// The first value of a name.
pub(crate) fn first_named<'b>(
    head: &'b [u8],
    headers: &[HeaderSpan],
    name: &[u8],
) -> Option<&'b [u8]>
    requires { All (IsHeaderWithin (length head.now)) headers.now }
    ensures none { IfNone result (values_of name.now (map (header_bytes head.now) headers.now) ≡ []) }
    ensures some { IfSome result (λ value. (values : List (List ℕ))
        × (values_of name.now (map (header_bytes head.now) headers.now) ≡ value.now ∷ values)) }
{
    for header in headers {
        if is_named(head, header, name) {
            return Some(header.value.of(head));
        }
    }
    None
}

fn is_body_header(head: &[u8], header: &HeaderSpan) -> bool
    requires { IsHeaderWithin (length head.now) header.now }
    ensures { result ≡ spec.is_body_header (header_bytes head.now header.now) }
{
    is_named(head, header, b"Content-Length")
        || is_named(head, header, b"Content-Type")
        || is_named(head, header, b"Content-Encoding")
        || is_named(head, header, b"Transfer-Encoding")
}

fn is_read_header(head: &[u8], header: &HeaderSpan) -> bool
    requires { IsHeaderWithin (length head.now) header.now }
    ensures { result ≡ spec.is_read_header (header_bytes head.now header.now) }
{
    is_body_header(head, header)
        || is_named(head, header, b"Host")
        || is_named(head, header, b"Authorization")
        || is_named(head, header, b"Connection")
}

fn is_bad_header(head: &[u8], header: &HeaderSpan) -> bool
    requires { IsHeaderWithin (length head.now) header.now }
    ensures { result ≡ spec.is_bad_header (header_bytes head.now header.now) }
{
    is_read_header(head, header) && !are_text_bytes(header.value.of(head))
}

fn has_bad_value(head: &[u8], headers: &[HeaderSpan]) -> bool
    requires { All (IsHeaderWithin (length head.now)) headers.now }
    ensures { result ≡ list_any spec.is_bad_header (map (header_bytes head.now) headers.now) }
{
    for header in headers {
        if is_bad_header(head, header) {
            return true;
        }
    }
    false
}

/// Whether a header that says one thing stands twice, or a header that is read has a byte that no value has.
pub(crate) fn has_bad_header(head: &[u8], headers: &[HeaderSpan]) -> bool
    requires { All (IsHeaderWithin (length head.now)) headers.now }
    ensures { result ≡ spec.has_bad_header (map (header_bytes head.now) headers.now) }
{
    count_named(head, headers, b"Authorization") > 1
        || count_named(head, headers, b"Content-Type") > 1
        || has_bad_value(head, headers)
}

fn is_encoding(head: &[u8], header: &HeaderSpan) -> bool
    requires { IsHeaderWithin (length head.now) header.now }
    ensures { result ≡ spec.is_encoding (header_bytes head.now header.now) }
{
    is_named(head, header, b"Content-Encoding") && !is_same_text(header.value.of(head), b"identity")
}

/// Whether a coding of the body stands that changes it.
pub(crate) fn is_encoded(head: &[u8], headers: &[HeaderSpan]) -> bool
    requires { All (IsHeaderWithin (length head.now)) headers.now }
    ensures { result ≡ list_any spec.is_encoding (map (header_bytes head.now) headers.now) }
{
    for header in headers {
        if is_encoding(head, header) {
            return true;
        }
    }
    false
}

fn is_closing(head: &[u8], header: &HeaderSpan) -> bool
    requires { IsHeaderWithin (length head.now) header.now }
    ensures { result ≡ spec.is_closing (header_bytes head.now header.now) }
{
    is_named(head, header, b"Connection") && has_close(header.value.of(head))
}

/// Whether `close` is one of the items of `Connection`.
pub(crate) fn is_closed(head: &[u8], headers: &[HeaderSpan]) -> bool
    requires { All (IsHeaderWithin (length head.now)) headers.now }
    ensures { result ≡ list_any spec.is_closing (map (header_bytes head.now) headers.now) }
{
    for header in headers {
        if is_closing(head, header) {
            return true;
        }
    }
    false
}

/// The length that `Content-Length` says, where it stands.
pub(crate) fn length_said(head: &[u8], headers: &[HeaderSpan]) -> Result<Option<u64>, WireFault>
    requires { All (IsHeaderWithin (length head.now)) headers.now }
    ensures { LengthSaid (values_of (codes "Content-Length") (map (header_bytes head.now) headers.now)) result }
{
    let Some(value) = first_named(head, headers, b"Content-Length") else {
        return Ok(None);
    };
    if count_named(head, headers, b"Content-Length") > 1 || !is_length(value) {
        return Err(WireFault::BadLength);
    }
    Ok(Some(number(value)))
}

/// The first value of a name, or nothing.
pub(crate) fn first_or_empty<'b>(head: &'b [u8], headers: &[HeaderSpan], name: &[u8]) -> &'b [u8]
    requires { All (IsHeaderWithin (length head.now)) headers.now }
    ensures { result.now ≡ spec.first_in (values_of name.now (map (header_bytes head.now) headers.now)) }
{
    match first_named(head, headers, name) {
        Some(value) => value,
        None => &[],
    }
}
