// The rules of the scales.
ghost use Rattle.score_decimal.specs.Points.{IsAsked, IsNear};

use score_decimal::{ceiling_points, floor_points, nearest_points};

/// The greatest whole number of points that isn't above the exact share of `max`, for a score of `n` units of 10^-30.
pub fn floor(n: u128, max: u32) -> u32
    requires { IsAsked n max }
    ensures { IsNear n max result }
{
    floor_points(n, max)
}

/// The nearest whole number of points; a half goes up.
pub fn nearest(n: u128, max: u32) -> u32
    requires { IsAsked n max }
    ensures { IsNear n max result }
{
    nearest_points(n, max)
}

/// The least whole number of points that isn't below the exact share.
pub fn ceiling(n: u128, max: u32) -> u32
    requires { IsAsked n max }
    ensures { IsNear n max result }
{
    ceiling_points(n, max)
}
