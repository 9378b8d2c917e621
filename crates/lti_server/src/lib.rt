//! The top call over one link: what the words ask is done (this project's own). Of `run` its contract says which bytes were read
//! and written, by what the status says, and what a crash leaves on the disk.
//!
//! - `top`: `run`; `serving`: the command `answer`.
#![tactic(auto)]

mod serving;
mod top;

pub use lti_operator::{ReportFault, Scales, book_of, report};
pub use lti_session::{
    Ask, Machine, PlainMachine, Session, SessionEnd, cuts_do_not_matter, session,
    what_belongs_is_answered,
};
pub use lti_settings::{Settings, SettingsFault};
pub use top::run;
