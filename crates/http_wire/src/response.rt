// Answers, written to a connection.
ghost use Rattle.std.specs.Prelude.{◌≡◌, ◌≤◌, ◌+◌, ◌++◌, [], length, OnOk, OnErr};
ghost use Rattle.lti_outside.specs.Traffic.{Moves, no_fault, GivesFront};
ghost use Rattle.http_wire.specs.Message.{response_parts_of};
ghost use Rattle.http_wire.specs.Response as spec;
ghost use Rattle.http_wire.specs.Response.{HasReason, response_head, response_text};

use crate::draft::Draft;
use crate::message::{Media, Response};
use itoa::Buffer;
use lti_outside::{Sink, WriteFault, give_all};

fn status_line(status: u16) -> &'static [u8]
    requires { HasReason status }
    ensures line { result.now ≡ spec.status_line status }
    ensures short { length result.now ≤ 64 }
{
    match status {
        200 => b"HTTP/1.1 200 OK\r\n",
        400 => b"HTTP/1.1 400 Bad Request\r\n",
        401 => b"HTTP/1.1 401 Unauthorized\r\n",
        404 => b"HTTP/1.1 404 Not Found\r\n",
        405 => b"HTTP/1.1 405 Method Not Allowed\r\n",
        411 => b"HTTP/1.1 411 Length Required\r\n",
        413 => b"HTTP/1.1 413 Content Too Large\r\n",
        415 => b"HTTP/1.1 415 Unsupported Media Type\r\n",
        431 => b"HTTP/1.1 431 Request Header Fields Too Large\r\n",
        501 => b"HTTP/1.1 501 Not Implemented\r\n",
        503 => b"HTTP/1.1 503 Service Unavailable\r\n",
        _ => unreachable!(),
    }
}

fn media_line(media: Media) -> &'static [u8]
    ensures line { result.now ≡ spec.media_line media }
    ensures short { length result.now ≤ 64 }
{
    match media {
        Media::Plain => b"Content-Type: text/plain; charset=utf-8\r\n",
        Media::Xml => b"Content-Type: application/xml; charset=utf-8\r\n",
    }
}

fn hint_line(status: u16) -> &'static [u8]
    ensures line { result.now ≡ spec.hint_line status }
    ensures short { length result.now ≤ 64 }
{
    match status {
        401 => b"WWW-Authenticate: OAuth\r\n",
        405 => b"Allow: POST\r\n",
        _ => b"",
    }
}

fn connection_line(close: bool) -> &'static [u8]
    ensures line { result.now ≡ spec.connection_line close }
    ensures short { length result.now ≤ 64 }
{
    if close {
        b"Connection: close\r\n"
    } else {
        b"Connection: keep-alive\r\n"
    }
}

// Appends the line of a body's length.
pub(crate) fn push_length(draft: &mut Draft, size: usize)
    requires { length draft.old ≤ 1024 }
    ensures line { draft.new ≡ draft.old ++ spec.length_line size }
    ensures short { length draft.new ≤ length draft.old + 64 }
{
    let mut digits = Buffer::new();
    draft.push(b"Content-Length: ");
    draft.push(digits.format(size).as_bytes());
    draft.push(b"\r\n");
}

// Appends the lines of the answer.
fn push_head(draft: &mut Draft, status: u16, media: Media, body: &[u8], close: bool)
    requires empty { draft.old ≡ [] }
    requires reason { HasReason status }
    ensures head { draft.new ≡ response_head (record { status = status; media = media; body = body.now }) close }
    ensures short { length draft.new ≤ 512 }
{
    draft.push(status_line(status));
    draft.push(media_line(media));
    push_length(draft, body.len());
    draft.push(hint_line(status));
    draft.push(connection_line(close));
    draft.push(b"\r\n");
}

/// Writes the answer of a status and a body that lies elsewhere, as `write_response` writes one that owns its body.
pub fn write_answer<O: Sink>(
    sink: &mut O,
    status: u16,
    media: Media,
    body: &[u8],
    close: bool,
) -> Result<(), WriteFault>
    requires { HasReason status }
    ensures written { OnOk result (Moves (O.traffic sink.old) (O.traffic sink.new) [] (response_text (record { status = status; media = media; body = body.now }) close) no_fault) }
    ensures failed { OnErr result (GivesFront (O.traffic sink.old) (O.traffic sink.new) (response_text (record { status = status; media = media; body = body.now }) close)) }
{
    let mut draft = Draft::new();
    push_head(&mut draft, status, media, body, close);
    give_message(sink, &mut draft, body)
}

/// Writes the answer (RFC 9112, section 4): the status line, `Content-Type`, `Content-Length`, for status 401
/// `WWW-Authenticate: OAuth`, for status 405 `Allow: POST`, `Connection`, and the body. `close` says that the connection
/// ends behind it. The status is 200, 400, 401, 404, 405, 411, 413, 415, 431, 501 or 503. It takes no memory. At an `Err`
/// a proper front of the answer was written.
pub fn write_response<O: Sink>(
    sink: &mut O,
    response: &Response,
    close: bool,
) -> Result<(), WriteFault>
    requires { HasReason response.now.status }
    ensures written { OnOk result (Moves (O.traffic sink.old) (O.traffic sink.new) [] (response_text (response_parts_of response.now) close) no_fault) }
    ensures failed { OnErr result (GivesFront (O.traffic sink.old) (O.traffic sink.new) (response_text (response_parts_of response.now) close)) }
{
    write_answer(
        sink,
        response.status,
        response.media,
        response.body.get(),
        close,
    )
}

/// Gives what the draft holds and then the body, in one piece where there is room for the body.
pub(crate) fn give_message<O: Sink>(
    sink: &mut O,
    draft: &mut Draft,
    body: &[u8],
) -> Result<(), WriteFault>
    ensures written { OnOk result (Moves (O.traffic sink.old) (O.traffic sink.new) [] (draft.old ++ body.now) no_fault) }
    ensures failed { OnErr result (GivesFront (O.traffic sink.old) (O.traffic sink.new) (draft.old ++ body.now)) }
{
    if body.len() <= draft.spare() {
        draft.push(body);
        return give_all(sink, draft.get());
    }
    give_all(sink, draft.get())?;
    give_all(sink, body)
}
