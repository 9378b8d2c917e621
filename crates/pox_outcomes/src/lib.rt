//! Outcome envelopes: the XML of the Basic Outcomes service, read and written (LTI 1.1.1, section 6, and the
//! schema imsoms_v1p0).
//!
//! A closed grammar of the bytes says which envelopes there are; `specs/` states it apart from the reader.
//! Promised: a request is read as exactly the outcome that it spells, and an answer as exactly what it says; other
//! bytes are refused with the number of them that begin one. Requests and answers are written as one exact text
//! each, which is read back.
#![tactic(auto)]

mod answer;
mod answers;
mod attributes;
mod bodies;
mod characters;
mod declaration;
mod details;
mod documents;
mod elements;
mod faults;
mod laws;
mod leaves;
mod markup;
mod outcome;
mod puts;
mod references;
mod requests;
mod responses;
mod scores;
mod stops;
#[cfg(test)]
mod tests;
mod texts;
mod told;
mod writing;

pub use answer::{Answer, Major};
pub use answers::{answer_room, write_answer};
pub use faults::{EnvelopeFault, EnvelopeRefusal};
pub use laws::{read_is_writable, written_answer_is_read, written_is_read};
pub use outcome::{Operation, Outcome};
pub use requests::read_request;
pub use responses::read_answer;
pub use told::Told;
pub use writing::write_request;
