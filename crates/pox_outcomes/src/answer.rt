// An answer to an outcome request.
use lti_outside::Text;

/// What became of a request, in a word (`imsx_codeMajor`).
#[derive(Clone, Copy, Debug, PartialEq, Eq)]
pub enum Major {
    /// What was asked for is done.
    Success,
    /// It is still being done.
    Processing,
    /// It couldn't be done.
    Failure,
    /// The consumer doesn't know the operation.
    Unsupported,
}

/// An answer to an outcome request (LTI 1.1.1, section 6). The text of an element that is left out is empty.
#[derive(Drop)]
pub struct Answer {
    /// The answer's own message identifier.
    pub message: Text,
    pub major: Major,
    pub severity: Text,
    /// What became of the request, for a reader.
    pub description: Text,
    /// The message identifier of the request.
    pub message_ref: Text,
    /// The operation of the request.
    pub operation_ref: Text,
    /// The text of the score, empty where the body holds none.
    pub score_text: Text,
}
