//! What an operator asks of this end: ids to be issued, launches as forms, grades sent back, and the report of all grades.
//!
//! LTI 1.1.1, section 3: a launch is a signed form (`launch`); section 6: a tool's grades go to the service that a launch names
//! (`passback`), for ids that were issued (`issue`). The report and its scales are this project's own (`grades`). Each command
//! says how far it came in the run (`specs/Ladder.antt`) and what it did as its own (`specs/Own.antt`), over the office of a
//! journal that it mounts (`opening`).
//!
//! - `commands`: the four; `issuing`, `launching`, `passing`: their own work, with the nonces of `making`; `books`: the grades
//!   that a machine has; `reports`: their text, by `scales`; `laws`: what the other end makes of a form, and more.
#![tactic(auto)]

mod books;
mod commands;
#[cfg(test)]
mod grade_tests;
mod issuing;
mod launching;
mod laws;
mod making;
#[cfg(test)]
mod noted_tests;
mod opening;
mod passing;
mod reports;
mod scales;

pub use books::book_of;
pub use commands::{grades, issue, launch, passback};
pub use laws::{launch_is_noted, total_is_near};
pub use opening::{open, open_journal};
pub use reports::{ReportFault, report};
pub use scales::Scales;
