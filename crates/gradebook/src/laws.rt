// What holds of all lists of entries.
ghost use Rattle.gradebook.specs.Laws.{UnknownIsNotIssued, HoldsAlike};

/// An id is unknown under a key exactly where it isn't among the issued ids: what has a grade was issued.
pub fn unknown_is_not_issued()
    ensures { UnknownIsNotIssued }
{}

/// A book holds each list of one summary, or none.
pub fn holds_alike()
    ensures { HoldsAlike }
{}
