//! The book of grades: which ids are issued under which keys, how each one's grade stands, and where grades go.
//!
//! In LTI 1.1.1 a launch says where the grade of a user of a resource link goes (section 3), and the Basic Outcomes service has
//! the grade of a sourcedId set, read and deleted (section 6); that an id must have been issued before is this
//! project's own rule. Promised: each answer is the one that all entries that were ever accepted give, though no
//! question walks over them.
#![tactic(auto)]

mod book;
mod laws;
mod placement;
mod placements;
mod row;
mod standings;
mod texts;

pub use book::Gradebook;
pub use laws::{holds_alike, unknown_is_not_issued};
pub use lti_machine::Standing;
pub use placement::Placement;
pub use row::Row;
