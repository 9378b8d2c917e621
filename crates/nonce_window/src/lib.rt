//! The window of nonces: which nonces of which key were used, for as long as they may be used again.
//!
//! OAuth 1.0 (RFC 5849 section 3.3) has each nonce used once with its timestamp and its key, and lets a
//! server refuse old timestamps so that it needn't keep nonces for ever. The verdict is `lti_machine`'s over
//! all entries that were ever admitted and loaded; the 5400 seconds, the 90 whole minutes and the limit are
//! this project's own rules. Promised: what is forgotten changes no verdict.
#![tactic(auto)]

mod keys;
mod laws;
mod minute;
mod nonces;
mod rules;
mod seconds;
mod table;
#[cfg(test)]
mod tests;
mod triple;
mod window;

pub use laws::{
    forgetting_changes_no_verdict, forgotten_stays_outside, holds_alike, kept_is_bounded,
    knows_used, live_is_bounded, unsigned_is_held,
};
pub use triple::Triple;
pub use window::NonceWindow;
