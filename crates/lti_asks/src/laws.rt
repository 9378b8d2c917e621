// What holds of all replies to outcomes.
ghost use Rattle.lti_asks.specs.Outcomes.{OneTelling, AcceptedIsTold};

/// A reply to an outcome's call tells one thing, so that there is one envelope for it.
pub fn one_telling()
    ensures { OneTelling }
{}

/// A reply that the machine may give to an outcome's call, and that tells what became of the grade, tells something: it is
/// `Graded`, `GradeRead`, `Deleted`, `UnknownId` or `BadScore`.
pub fn accepted_is_told()
    ensures { AcceptedIsTold }
{}
