//! The tool's end of LTI: what a signed message asks of the machine, and how a grade is sent back.
//!
//! LTI 1.1.1, section 3: a learning system starts a tool by a signed form, a basic launch. What a message asks is read from
//! its parameters (`launch_call`), or the first fault that they have is named. Section 6: the tool sends the grade back in
//! a signed envelope, and reads the answer (`passback`).
//!
//! `specs/Before.antt` and `specs/Answers.antt` say what is answered to a request, before the machine is asked and for its
//! reply; the crates above prove their answers against these.
#![tactic(auto)]

mod calls;
mod fault;
mod laws;
mod passback_fault;
#[cfg(test)]
mod passback_tests;
mod routes;
mod sending;
#[cfg(test)]
mod tests;

pub use calls::launch_call;
pub use fault::ProviderFault;
pub use laws::{sent_is_asked, signed_is_writable};
pub use passback_fault::PassbackFault;
pub use routes::{Route, route_of};
pub use sending::passback;
