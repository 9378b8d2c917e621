//! The signatures of OAuth 1.0.
//!
//! A request is signed in RFC 5849's steps: `base_uri` (section 3.4.1.2), `base_string` (section 3.4.1.1, over the
//! normal form of `oauth_text`) and `signature` (section 3.4.2), whose HMAC-SHA1 is `Mac` (RFC 2104). `signature_of`
//! makes the last two steps in one, with no base string in memory. A body that isn't a form is covered by its hash:
//! `BodyHash` and `hash_text` (OAuth Request Body Hash 1.0, draft 4). Each call gives the one text of its definition,
//! or says that memory is wanting.
#![tactic(auto)]

mod base_strings;
mod base_uris;
mod body;
mod feed;
mod mac;
mod signatures;
mod streamed_signatures;
#[cfg(test)]
mod tests;

pub use base_strings::base_string;
pub use base_uris::base_uri;
pub use body::{BodyHash, hash_text};
pub use mac::Mac;
pub use signatures::signature;
pub use streamed_signatures::signature_of;
