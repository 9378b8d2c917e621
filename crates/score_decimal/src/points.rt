// The usual rules of a scale.
ghost use Rattle.std.specs.Prelude.{◌≡◌, ◌+◌, ◌*◌, ◌^◌, ◌<◌, ◌≤◌};
ghost use Rattle.score_decimal.specs.Points.{IsAsked, IsNear};

use crate::digits::ONE;

/// The greatest whole number of points that isn't above the score's share of `max`, for a score of `n`
/// units of 10^-30.
pub fn floor_points(n: u128, max: u32) -> u32
    requires { IsAsked n max }
    ensures not_above { result * 10 ^ 30 ≤ n * max }
    ensures greatest { n * max < (result + 1) * 10 ^ 30 }
    ensures near { IsNear n max result }
{
    (n * u128::from(max) / ONE) as u32
}

/// The whole number of points nearest to the score's share of `max`, for a score of `n` units of 10^-30.
/// A half goes up.
pub fn nearest_points(n: u128, max: u32) -> u32
    requires { IsAsked n max }
    ensures half_up { n * max * 2 < result * 10 ^ 30 * 2 + 10 ^ 30 }
    ensures half_down { result * 10 ^ 30 * 2 ≤ n * max * 2 + 10 ^ 30 }
    ensures near { IsNear n max result }
{
    ((n * u128::from(max) + ONE / 2) / ONE) as u32
}

/// The least whole number of points that isn't below the score's share of `max`, for a score of `n`
/// units of 10^-30.
pub fn ceiling_points(n: u128, max: u32) -> u32
    requires { IsAsked n max }
    ensures not_below { n * max ≤ result * 10 ^ 30 }
    ensures least { result * 10 ^ 30 < n * max + 10 ^ 30 }
    ensures near { IsNear n max result }
{
    ((n * u128::from(max) + (ONE - 1)) / ONE) as u32
}
