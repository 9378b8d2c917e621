// The answers to requests that are refused before the machine is asked.
ghost use Rattle.std.specs.Prelude.{◌≡◌, ◌++◌, IfOk, OnOk, string_bytes};
ghost use Rattle.http_wire.specs.Message.{parts_of, response_parts_of};
ghost use Rattle.http_wire.specs.Response.{HasReason};
ghost use Rattle.lti_provider.specs.Answers.{plain, answer_to, auth_answer, auth_text, launch_answer, launch_text, envelope_answer};

use http_wire::{Media, Request, Response};
use lti_launch::{LaunchFault, LaunchField};
use lti_outside::{Bytes, NoMemory};
use oauth_request::AuthFault;
use std::alloc::{AllocError, Global};
use std::fmt::Write;

// An answer of plain text.
fn plain_response(alloc: Global, status: u16, text: &str) -> Result<Response, NoMemory>
    ensures { IfOk result (λ response. response_parts_of response ≡ plain status text.now) }
{
    let mut body = Bytes::new(alloc);
    body.reserve(text.len().saturating_add(1))?;
    body.push(text.as_bytes())?;
    body.push(b"\n")?;
    Ok(Response {
        status,
        media: Media::Plain,
        body,
    })
}

// Appends what is said of a request that isn't well signed.
fn push_auth(out: &mut String, fault: AuthFault) -> Result<(), AllocError>
    ensures { OnOk result (string_bytes out.new ≡ string_bytes out.old ++ auth_text fault) }
{
    match fault {
        AuthFault::BadAuthorization { at } => write!(out, "bad authorization at {at}"),
        AuthFault::BadForm => out.push_str("bad form"),
        AuthFault::Duplicate(field) => push_named(out, "duplicate ", field.name()),
        AuthFault::Missing(field) => push_named(out, "missing ", field.name()),
        AuthFault::UnsupportedMethod => out.push_str("unsupported signature method"),
        AuthFault::BadVersion => out.push_str("bad version"),
        AuthFault::TokenNotSupported => out.push_str("token not supported"),
        AuthFault::BadTimestamp => out.push_str("bad timestamp"),
        AuthFault::BadNonce => out.push_str("bad nonce"),
        AuthFault::TooLong => out.push_str("key or nonce too long"),
        AuthFault::UnknownKey => out.push_str("unknown key"),
        AuthFault::BodyHashMismatch => out.push_str("body hash mismatch"),
        AuthFault::SignatureMismatch => out.push_str("signature mismatch"),
        AuthFault::NoMemory => out.push_str("want of memory"),
    }
}

// Appends a text and the name of a parameter.
fn push_named(out: &mut String, text: &str, name: &str) -> Result<(), AllocError>
    ensures { OnOk result (string_bytes out.new ≡ string_bytes out.old ++ (text.now ++ name.now)) }
{
    out.push_str(text)?;
    out.push_str(name)
}

/// The answer to a request that isn't well signed.
pub fn auth_response(alloc: Global, fault: AuthFault) -> Result<Response, NoMemory>
    ensures answer { IfOk result (λ response. response_parts_of response ≡ auth_answer fault) }
    ensures reason { IfOk result (λ response. HasReason response.status) }
{
    let mut text = String::new(alloc);
    push_auth(&mut text, fault)?;
    let response = plain_response(alloc, fault.status(), text.as_str())?;
    Ok(response)
}

// Appends what is said of a message that is no launch.
fn push_launch(out: &mut String, fault: LaunchFault) -> Result<(), AllocError>
    ensures { OnOk result (string_bytes out.new ≡ string_bytes out.old ++ launch_text fault) }
{
    match fault {
        LaunchFault::WrongType => out.push_str("wrong message type"),
        LaunchFault::WrongVersion => out.push_str("wrong lti version"),
        LaunchFault::Missing => push_named(out, "missing ", LaunchField::ResourceLinkId.name()),
        LaunchFault::Repeated(field) => push_named(out, "repeated ", field.name()),
        LaunchFault::NoMemory => out.push_str("want of memory"),
    }
}

/// The answer to a well signed request whose parameters are no launch.
pub fn launch_response(alloc: Global, fault: LaunchFault) -> Result<Response, NoMemory>
    ensures answer { IfOk result (λ response. response_parts_of response ≡ launch_answer fault) }
    ensures reason { IfOk result (λ response. HasReason response.status) }
{
    let mut text = String::new(alloc);
    push_launch(&mut text, fault)?;
    let response = plain_response(alloc, 400, text.as_str())?;
    Ok(response)
}

/// The answer to a well signed request whose body is no envelope; the first `at` bytes begin one.
pub fn envelope_response(alloc: Global, at: u64) -> Result<Response, NoMemory>
    ensures answer { IfOk result (λ response. response_parts_of response ≡ envelope_answer at) }
    ensures reason { IfOk result (λ response. HasReason response.status) }
{
    let mut text = String::new(alloc);
    write!(text, "bad envelope at {at}")?;
    plain_response(alloc, 400, text.as_str())
}

/// The answer to a request that no route takes.
pub fn route_response(
    alloc: Global,
    request: &Request,
    status: u16,
    text: &str,
) -> Result<Response, NoMemory>
    ensures answer { IfOk result (λ response. response_parts_of response ≡ answer_to (parts_of request.now) (plain status text.now)) }
{
    if request.method.get() == "HEAD" {
        return Ok(Response {
            status,
            media: Media::Plain,
            body: Bytes::new(alloc),
        });
    }
    let response = plain_response(alloc, status, text)?;
    Ok(response)
}
