//! Signed requests of OAuth 1.0 (RFC 5849, section 3), with the OAuth Request Body Hash draft for bodies that aren't
//! forms.
//!
//! `check` says of a request whether it is well signed, or the first fault that it has, in a fixed order.
//! `sign_form` and `sign_body` sign what this end sends, and what they sign is well signed. `Keys` are the consumer
//! keys with their secrets. Which nonce is new isn't judged here.
#![tactic(auto)]

mod checking;
mod credentials;
mod faults;
mod fields;
mod keys;
mod laws;
mod parameters;
mod protocol;
mod signing;
mod stated;
#[cfg(test)]
mod tests;

pub use checking::{Signed, check};
pub use faults::AuthFault;
pub use fields::Field;
pub use keys::{Keys, KeysFault};
pub use laws::{one_answer, signed_is_believed};
pub use parameters::FORM_TYPE;
pub use signing::{sign_body, sign_form};
