//! What messages ask of the machine, and what its replies tell: definitions and laws alone.
//!
//! LTI 1.1.1, section 3: a launch is noted with its link, its user, and where a grade goes (`specs/Launches.antt`). Section
//! 6: an outcome asks for the grade of its sourcedId to be set, told or taken away, and the reply to it tells what became of
//! that (`specs/Outcomes.antt`). Both ends prove what they read and write against these. A reply to an outcome tells one
//! thing (`one_telling`), and a reply that accepts one tells something (`accepted_is_told`).
#![tactic(auto)]

mod laws;

pub use laws::{accepted_is_told, one_telling};
