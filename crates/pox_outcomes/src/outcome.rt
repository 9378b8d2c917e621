// An outcome, as a request asks for it.
use lti_outside::Text;

/// What a request asks for.
#[derive(Clone, Copy, Debug, PartialEq, Eq)]
pub enum Operation {
    /// The score is set (`replaceResultRequest`).
    ReplaceResult,
    /// The score is asked for (`readResultRequest`).
    ReadResult,
    /// The score is removed (`deleteResultRequest`).
    DeleteResult,
}

/// An outcome request of the Basic Outcomes service (LTI 1.1.1, section 6).
#[derive(Drop)]
pub struct Outcome {
    /// The message identifier, which the answer gives back.
    pub message: Text,
    pub operation: Operation,
    /// The sourcedId of the result.
    pub sourced_id: Text,
    /// The text of the score, empty unless the operation is `ReplaceResult`.
    pub score_text: Text,
}
