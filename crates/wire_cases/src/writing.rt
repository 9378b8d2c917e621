// Messages that are written to a sink in memory.
ghost use Rattle.std.specs.Prelude.{IfOk};
ghost use Rattle.http_wire.specs.Response.{HasReason};

use case_words::{Misread, Words, spelled_bytes, spelling_of};
use http_wire::{Media, Request, Response, write_request, write_response};
use lti_outside::{Bytes, MemorySink, Text};
use oauth_text::Host;
use std::alloc::Global;

// The status of this number, if it is one that is answered.
fn status_of(number: u32) -> Result<u16, Misread>
    ensures { IfOk result HasReason }
{
    match number {
        200 => Ok(200),
        401 => Ok(401),
        405 => Ok(405),
        431 => Ok(431),
        _ => Err(Misread::NoCase),
    }
}

fn read_media(words: &mut Words<'_>) -> Result<Media, Misread> {
    match words.word()? {
        "plain" => Ok(Media::Plain),
        "xml" => Ok(Media::Xml),
        _ => Err(Misread::NoCase),
    }
}

fn read_close(words: &mut Words<'_>) -> Result<bool, Misread> {
    match words.word()? {
        "close" => Ok(true),
        "open" => Ok(false),
        _ => Err(Misread::NoCase),
    }
}

/// What is written of the answer of a status, a media type and a body: its head, and `BODY` where the body stands behind it.
/// The writes of these numbers fail.
pub fn respond(
    alloc: Global,
    words: &mut Words<'_>,
    mut body: Bytes,
    failing: &[u64],
) -> Result<String, Misread> {
    let status = status_of(words.count()?)?;
    let media = read_media(words)?;
    let close = read_close(words)?;
    body.push(spelled_bytes(alloc, words.rest())?.get())?;
    let response = Response {
        status,
        media,
        body,
    };
    let mut sink = MemorySink::new(alloc, failing.to_vec(alloc)?);
    let fault = match write_response(&mut sink, &response, close) {
        Ok(()) => "",
        Err(_) => "WriteFault",
    };
    match sink.given().strip_suffix(response.body.get()) {
        Some(head) => Ok(format!(in alloc; "{}BODY{fault}", spelling_of(alloc, head)?)?),
        None => Ok(format!(in alloc; "{}{fault}", spelling_of(alloc, sink.given())?)?),
    }
}

fn read_request(alloc: Global, words: &mut Words<'_>) -> Result<Request, Misread> {
    let Ok(host) = Host::read(alloc, "Tool.Example:8080") else {
        return Err(Misread::NoCase);
    };
    Ok(Request {
        method: words.text(alloc)?,
        path: words.text(alloc)?,
        query: Text::new(alloc, "b=c?d")?,
        host,
        media: words.text(alloc)?,
        encoded: false,
        authorization: Text::new(alloc, "OAuth a=\"b\"")?,
        body: spelled_bytes(alloc, "abc")?,
        close: true,
    })
}

/// What is written of the request of a method, a path and a media type, with the query `b=c?d`, the host `Tool.Example:8080`,
/// an `Authorization` and the body `abc`.
pub fn post(alloc: Global, words: &mut Words<'_>) -> Result<String, Misread> {
    let request = read_request(alloc, words)?;
    if !request.sound() {
        return Ok(String::from_str(alloc, "not sound")?);
    }
    let mut sink = MemorySink::new(alloc, Vec::new(alloc));
    match write_request(&mut sink, &request) {
        Ok(()) => spelling_of(alloc, sink.given()),
        Err(_) => Ok(String::from_str(alloc, "WriteFault")?),
    }
}
