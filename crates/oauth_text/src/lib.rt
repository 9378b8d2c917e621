//! The texts that OAuth 1.0 signs, and the texts that it takes them from.
//!
//! `escape` and `normalised` are RFC 5849 sections 3.6 and 3.4.1.3.2. `pairs` and `form_text` read and write
//! `application/x-www-form-urlencoded` (URL Standard, section 5). `Host` and `Url` are the parts of RFC 3986,
//! section 3, that a base string needs; `first_place`, `place_of`, `trim_front` and `trim_end` cut texts. Each reading
//! answers a fault exactly where its text has no reading; want of memory may stand in place of any answer.
#![tactic(auto)]

mod blanks;
mod escapes;
mod form_texts;
mod forms;
mod host;
mod normal;
mod order;
mod places;
#[cfg(test)]
mod tests;
mod url;

pub use blanks::{is_blank, trim_end, trim_front};
pub use escapes::{escape, escape_into, is_unreserved};
pub use form_texts::form_text;
pub use forms::{FormFault, pairs};
pub use host::{Host, HostFault};
pub use normal::normalised;
pub use order::{Parameter, ordered};
pub use places::{first_place, place_of};
pub use url::{Scheme, Url, UrlFault};
