// How the grade of an id stands, by the list of what was accepted.
ghost use Rattle.std.specs.Prelude.{◌≡◌};
ghost use Rattle.lti_machine.specs.Standings as standings;

use crate::entry::{Effect, Entry};
use score_decimal::Score;

/// How the grade of an id stands under a key.
#[derive(Clone, Copy, Debug, PartialEq, Eq)]
pub enum Standing {
    /// The id was never issued under this key.
    Unknown,
    /// The id was issued, and has no grade.
    Empty,
    /// The id was issued, and has this grade.
    Scored(Score),
}

/// How the id of this key stands after all entries, in order.
pub(crate) fn standing_among(entries: &[Entry], key: &str, id: &str) -> Standing
    ensures { result ≡ standings.standing entries.now key.now id.now }
{
    entries.iter().fold(Standing::Unknown, |before, entry| {
        after_entry(before, entry, key, id)
    })
}

// How the id of this key stands after one more entry.
fn after_entry(before: Standing, entry: &Entry, key: &str, id: &str) -> Standing
    ensures { result ≡ standings.after_entry key.now id.now before entry.now }
{
    if entry.key.get() != key {
        return before;
    }
    match &entry.effect {
        Effect::Issued { id: other } if other.get() == id => when_issued(before),
        Effect::Grade { id: other, score } if other.get() == id => {
            when_set(before, Standing::Scored(*score))
        }
        Effect::Cleared { id: other } if other.get() == id => when_set(before, Standing::Empty),
        _ => before,
    }
}

// An id that is issued has no grade; issued again, it keeps its grade.
fn when_issued(before: Standing) -> Standing
    ensures { result ≡ standings.when_issued before }
{
    match before {
        Standing::Unknown => Standing::Empty,
        known => known,
    }
}

// Only the grade of an issued id changes.
fn when_set(before: Standing, wanted: Standing) -> Standing
    ensures { result ≡ standings.when_set before wanted }
{
    match before {
        Standing::Unknown => Standing::Unknown,
        _ => wanted,
    }
}
