//! Scores as exact decimals, and scales that turn a score into points.
//!
//! The Basic Outcomes service of LTI 1.1.1 sends a score as the text of a decimal number from
//! 0.0 to 1.0. Which spellings are taken and that 30 places count are this project's own rules. A score
//! is a whole number of units of 10^-30, and no float stands anywhere.
//! Promised: a score text is read as exactly the number that it writes, or refused; a score is printed
//! as one exact text; a scale's points are less than one point from the exact share, whatever its rule.
#![tactic(auto)]

mod digits;
mod points;
mod print;
mod read;
mod scale;
mod score;
#[cfg(test)]
mod tests;

pub use points::{ceiling_points, floor_points, nearest_points};
pub use scale::Scale;
pub use score::Score;
