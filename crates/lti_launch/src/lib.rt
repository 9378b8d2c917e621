//! Launches of LTI 1.1.1 (section 3): the parameters of a message by which a learning platform opens a tool.
//!
//! `Launch::read` reads a launch from the pairs of a message, or says the first fault that they have, in an order of this
//! project's own. Promised: each parameter has the value that stands once under its name, the other pairs are kept in
//! order, and what a launch writes is read as the same launch. Whose message it is isn't judged here.
#![tactic(auto)]

mod custom_names;
mod fault;
mod fields;
mod found;
mod kinds;
mod launch;
mod laws;
mod sorted;
#[cfg(test)]
mod tests;
mod writing;

pub use custom_names::custom_name;
pub use fault::LaunchFault;
pub use fields::LaunchField;
pub use launch::Launch;
pub use laws::{values_stand, written_is_read};
