// Requests and answers (RFC 9110, sections 3.4 and 3.9).
use lti_outside::{Bytes, Text};
use oauth_text::Host;

/// A request. A text whose header was absent is empty.
#[derive(Drop)]
pub struct Request {
    /// The method, such as `POST`.
    pub method: Text,
    /// The target up to its first `?`. It begins with `/`.
    pub path: Text,
    /// What follows the first `?` of the target, or nothing.
    pub query: Text,
    /// What `Host` names.
    pub host: Host,
    /// `Content-Type` before its parameters, in lower case.
    pub media: Text,
    /// Whether `Content-Encoding` names a coding that changes the body.
    pub encoded: bool,
    /// `Authorization`.
    pub authorization: Text,
    /// The body.
    pub body: Bytes,
    /// Whether the connection ends behind the answer.
    pub close: bool,
}

/// What a written answer's body is.
#[derive(Clone, Copy, Debug, PartialEq, Eq)]
pub enum Media {
    /// `text/plain; charset=utf-8`
    Plain,
    /// `application/xml; charset=utf-8`
    Xml,
}

/// An answer that is written.
#[derive(Drop)]
pub struct Response {
    /// The status code.
    pub status: u16,
    /// The media type.
    pub media: Media,
    /// The body.
    pub body: Bytes,
}

/// An answer that was read.
#[derive(Drop)]
pub struct Answered {
    /// The status code.
    pub status: u16,
    /// `Content-Type` before its parameters, in lower case, or nothing.
    pub media: Text,
    /// The body.
    pub body: Bytes,
}
