// Requests, written to a connection.
ghost use Rattle.std.specs.Prelude.{◌≡◌, [], ◌++◌, OnOk, OnErr, MatchOption, length as length_of, codes, decimal};
ghost use Rattle.lti_outside.specs.Traffic.{Moves, no_fault, GivesFront};
ghost use Rattle.http_wire.specs.Message.{parts_of};
ghost use Rattle.http_wire.specs.Written as spec;
ghost use Rattle.http_wire.specs.Written.{IsSoundRequest, request_text};

use crate::gather::give_pieces;
use crate::message::Request;
use itoa::Buffer;
use lti_outside::{Sink, WriteFault};

// A text that is there for as long as the request.
fn beside<'r>(_: &'r Request, text: &'static [u8]) -> &'r [u8]
    ensures { result.now ≡ text.now }
{
    text
}

// The text, where the value isn't empty.
fn where_some<'r>(value: &'r [u8], text: &'static [u8]) -> &'r [u8]
    ensures { result.now ≡ spec.where_some value.now text.now }
{
    match value {
        [] => b"",
        [_, ..] => text,
    }
}

// The end of the request line.
fn version_end(request: &Request) -> &[u8]
    ensures { result.now ≡ codes " " ++ spec.version_text request.now.close ++ codes "\r\n" }
{
    if request.close {
        b" HTTP/1.0\r\n"
    } else {
        b" HTTP/1.1\r\n"
    }
}

fn colon(request: &Request) -> &[u8]
    ensures { MatchOption request.now.host.port (result.now ≡ []) (λ _. result.now ≡ codes ":") }
{
    match request.host.port {
        Some(_) => b":",
        None => b"",
    }
}

fn port_digits(port: Option<u16>, digits: &mut Buffer) -> &[u8]
    ensures { MatchOption port (result.now ≡ []) (λ number. result.now ≡ decimal number) }
{
    match port {
        Some(number) => digits.format(number).as_bytes(),
        None => b"",
    }
}

// Gives the pieces of the request, with its port and its length in digits.
fn give_request<'r, O: Sink>(
    sink: &mut O,
    request: &'r Request,
    port: &'r [u8],
    length: &'r [u8],
) -> Result<(), WriteFault>
    requires port { MatchOption request.now.host.port (port.now ≡ []) (λ number. port.now ≡ decimal number) }
    requires length { length.now ≡ decimal (length_of request.now.body.list) }
    ensures written { OnOk result (Moves (O.traffic sink.old) (O.traffic sink.new) [] (request_text (parts_of request.now)) no_fault) }
    ensures failed { OnErr result (GivesFront (O.traffic sink.old) (O.traffic sink.new) (request_text (parts_of request.now))) }
{
    let query = request.query.get().as_bytes();
    let media = request.media.get().as_bytes();
    let authorization = request.authorization.get().as_bytes();
    give_pieces(
        sink,
        &[
            request.method.get().as_bytes(),
            beside(request, b" "),
            request.path.get().as_bytes(),
            where_some(query, b"?"),
            query,
            version_end(request),
            beside(request, b"Host: "),
            request.host.name.get().as_bytes(),
            colon(request),
            port,
            beside(request, b"\r\n"),
            where_some(media, b"Content-Type: "),
            media,
            where_some(media, b"\r\n"),
            where_some(authorization, b"Authorization: "),
            authorization,
            where_some(authorization, b"\r\n"),
            beside(request, b"Content-Length: "),
            length,
            beside(request, b"\r\n\r\n"),
            request.body.get(),
        ],
    )
}

/// Writes the request (RFC 9112, section 3): the request line, `Host`, `Content-Type` and `Authorization` where they
/// aren't empty, `Content-Length`, and the body, with HTTP/1.0 where `close` is set and HTTP/1.1 otherwise. Where
/// `sound` holds, it is read as this request. It takes no memory. At an `Err` a proper front of the text was written.
pub fn write_request<O: Sink>(sink: &mut O, request: &Request) -> Result<(), WriteFault>
    requires { IsSoundRequest (parts_of request.now) }
    ensures written { OnOk result (Moves (O.traffic sink.old) (O.traffic sink.new) [] (request_text (parts_of request.now)) no_fault) }
    ensures failed { OnErr result (GivesFront (O.traffic sink.old) (O.traffic sink.new) (request_text (parts_of request.now))) }
{
    let mut port = Buffer::new();
    let mut length = Buffer::new();
    let port = port_digits(request.host.port, &mut port);
    let length = length.format(request.body.get().len()).as_bytes();
    give_request(sink, request, port, length)
}
