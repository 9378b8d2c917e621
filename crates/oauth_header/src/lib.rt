//! The Authorization header of OAuth 1.0 (RFC 5849, section 3.5.1), read and written.
//!
//! `read` gives the pairs of a header's value, or the place of the first item that has no reading. `write` gives
//! a value that `read` reads back as the same pairs. Reading takes time linear in the value, and an empty item
//! takes no memory. Want of memory may stand in place of any answer.
#![tactic(auto)]

mod faults;
mod items;
mod pieces;
mod reading;
#[cfg(test)]
mod tests;
mod writing;

pub use faults::HeaderFault;
pub use reading::read;
pub use writing::write;
