// An issued id.
use lti_machine::Standing;

/// An issued id and its grade (`sourcedId`, LTI 1.1.1 section 6).
#[derive(Clone, Copy)]
pub struct Row<'a> {
    /// The consumer key under which the id was issued.
    pub key: &'a str,
    /// The id.
    pub id: &'a str,
    /// Its grade; it is never `Standing::Unknown`.
    pub standing: Standing,
}
