//! The command line: what its words ask, and how a run ends (this project's own).
//!
//! `read_command` gives the command that the words ask for, exactly where they ask for one, and they ask for one at most
//! (`words_ask_once`). Each command is a struct with its words, whose ranges are tested: keys of 1 to 255 bytes, names of 1
//! to 1023, moments of 1 to 15 digits. `read_serve` gives the address at which the words ask to serve, and then they are no
//! command (`serving_is_no_command`). `Status` is how a run ends, with its exit status and its word.
#![tactic(auto)]

mod command;
#[cfg(test)]
mod command_tests;
mod command_words;
mod laws;
mod status;
mod words_of_launch;
mod words_of_passback;
mod words_of_serve;

pub use command::{Check, Command, Grades, Issue, LaunchForm, Passback, Rounding, read_command};
pub use laws::{serving_is_no_command, words_ask_once};
pub use status::Status;
pub use words_of_serve::read_serve;
