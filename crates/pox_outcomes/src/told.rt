// What became of an outcome.
use score_decimal::Score;

/// What became of what a request asked for.
#[derive(Clone, Copy, Debug, PartialEq, Eq)]
pub enum Told {
    /// The score is set to this one.
    Replaced(Score),
    /// The score is this one.
    ReadScore(Score),
    /// There is no score.
    ReadNothing,
    /// The score is removed, or there was none.
    Deleted,
    /// The sourcedId was never issued.
    UnknownId,
    /// The score text is that of no score.
    BadScore,
}
