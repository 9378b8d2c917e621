// A scale.
ghost use Rattle.std.specs.Prelude.{ℕ, ◌≤◌};
ghost use Rattle.score_decimal.specs.Points.{IsAsked, IsNear};

use crate::Score;

type Rule = Box<dyn Fn(u128, u32) -> u32>;

/// A rule that turns a score into points, with what is known of it: the rule may be called with any score
/// in units of 10^-30 and any greatest number of points from 1 to 1,000,000, and its answer is at most
/// that number and less than one point from the exact share.
#[derive(Drop)]
pub struct Scale {
    rule: Rule,
    ghost callable: { (n most : ℕ) → IsAsked n most → Rule.pre rule n most },
    ghost near: { (n most points : ℕ) → IsAsked n most → Rule.post rule n most points → IsNear n most points },
}

impl Scale {
    /// The scale of the rule. Whoever hands in the rule shows what is kept of it.
    pub fn new(rule: Box<dyn Fn(u128, u32) -> u32>) -> Scale
        requires callable { (n most : ℕ) → IsAsked n most → Rule.pre rule n most }
        requires near { (n most points : ℕ) → IsAsked n most → Rule.post rule n most points → IsNear n most points }
    {
        Scale { rule }
    }

    /// The points of the score out of `max`, which is from 1 to 1,000,000: at most `max`, and less than one
    /// point from the exact share.
    pub fn points(&self, score: Score, max: u32) -> u32
        requires least { 1 ≤ max }
        requires greatest { max ≤ 1000000 }
        ensures { IsNear score max result }
    {
        (self.rule)(score.parts(), max)
    }
}
