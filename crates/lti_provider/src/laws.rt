// What holds of all grades that are sent back.
ghost use Rattle.lti_provider.specs.Laws.{SignedIsWritable, SentIsAsked};

/// A signed body that is posted to a URL can be written as a request, and is read as this request: where its media type is
/// in lower case and its length has at most 19 digits.
pub fn signed_is_writable()
    ensures { SignedIsWritable }
{}

/// The request by which `passback` sends an outcome is well signed at the other end and asks there for exactly this outcome,
/// under the conditions of `oauth_request::signed_is_believed`, where the URL's path is the one at which outcomes are
/// answered, and where the outcome has no score text unless its operation is `ReplaceResult`.
pub fn sent_is_asked()
    ensures { SentIsAsked }
{}
