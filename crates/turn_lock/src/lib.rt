//! A turn lock: keeps one value, and lets those who have a pass call it one at a time, in the order in which
//! they drew their tickets.
//!
//! The value (`Kept`) has a trail, the list of its answers. Each pass knows the beginning of the trail that it
//! has seen and the places of its own calls in it. `turn` makes one call, `split` and `meet` make two passes of
//! one and one of two, and `close` hands the value back to a whole pass, which has then seen the whole trail.
//! Not promised: that a turn ever comes, fairness, or time.
#![tactic(auto)]

mod kept;
mod lock;
mod pass;
mod plays;
mod rule;
#[cfg(test)]
mod tests;
mod turns;
mod view;

pub use kept::Kept;
pub use lock::TurnLock;
pub use pass::Pass;
