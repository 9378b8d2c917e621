//! A whole connection over a link: requests are read, judged, asked of a machine and answered (LTI 1.1.1, RFC 5849 and RFC 9112,
//! over this project's own rules). Of `session` its contract says which bytes were read and written, which calls were made of the
//! machine, and how the connection ended.
//!
//! - `sessions`, `asking`: a whole connection, and one call of it;
//! - `machines`: what a connection asks: `office_machine`, the one over a journal, and `plain_machine`, whose list is in memory;
//! - `before`: what is said of a request before the machine is asked, and `refusals`: its answers; `rendering`: the answer to a
//!   reply, with room from `pending`; `wire_faults`: the answer to bytes that spell no request;
//! - `laws`: how bytes are cut doesn't matter, and what belongs to a call is answered.
#![tactic(auto)]

mod asking;
mod asks;
mod before;
mod laws;
mod machines;
mod office_machine;
mod pending;
mod plain_machine;
mod refusals;
mod rendering;
mod session_end;
mod sessions;
#[cfg(test)]
mod tests;
mod wire_faults;

pub use asking::Session;
pub use asks::Ask;
pub use laws::{cuts_do_not_matter, what_belongs_is_answered};
pub use machines::Machine;
pub use plain_machine::PlainMachine;
pub use session_end::SessionEnd;
pub use sessions::session;
