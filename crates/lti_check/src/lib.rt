//! The command `check`: a verdict for each signed form of an input, a form a line (this project's own, over RFC 5849).
//!
//! The bytes written are the verdict lines, in order, of the lines of the bytes read, however the input is cut into pieces:
//! `specs/Verdicts.antt` says them by what a form's signature and the rules of the machine say, `specs/Ending.antt` by how
//! the run ends.
//!
//! - `checking`: the command over a link; `answered_lines`: the lines in whatever pieces; `checker`: which kind of request a
//!   line is; `noting`: the nonces that were used; `verdict`: what is written for a line; `stop`: why the command ended before
//!   its work was done.
#![tactic(auto)]

mod answered_lines;
mod checker;
mod checking;
mod noting;
mod stop;
#[cfg(test)]
mod tests;
mod verdict;

pub use checking::check;
