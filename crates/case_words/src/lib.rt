//! Lines of cases, for the programs whose input is a list of them: a line is words with a blank between each two, and a text
//! spells bytes that would not stand in a line. It stands apart from what the product does, and is proved to be safe and to end.
#![tactic(auto)]

mod misread;
mod spelling;
mod words;

pub use misread::Misread;
pub use spelling::{spelled_bytes, spelling_of};
pub use words::Words;
