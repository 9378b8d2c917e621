//! Messages of HTTP/1.1 (RFC 9112) on a connection: requests and answers, read from a link and written to it.
//!
//! `Wire` takes one message after another, however the bytes are cut, or answers the first fault of the bytes. What
//! bytes spell is one relation; `laws` says that they begin with one message at most, and that a written request is read.
//!
//! - `message`, `fault`: requests, answers, and why there is none; `wire`: the reading end of a connection, over
//!   `intake` (its buffer), `taking` (heads and bodies), `head` and `answer_head`, over `lines`, `target`, `headers` and
//!   `values`;
//! - `response`, `written`: answers and requests as bytes, over `draft` and `gather`; `sound`: which may be written.
#![tactic(auto)]

mod answer_head;
mod draft;
mod fault;
mod gather;
mod head;
mod headers;
mod intake;
mod laws;
mod lines;
mod message;
mod response;
mod sound;
mod taking;
mod target;
mod values;
mod wire;
mod written;

pub use fault::WireFault;
pub use laws::{
    faults_are_first, no_proper_front, one_spelling, only_sound_is_read, written_is_read,
};
pub use message::{Answered, Media, Request, Response};
pub use response::{write_answer, write_response};
pub use taking::Untapped;
pub use wire::Wire;
pub use written::write_request;
