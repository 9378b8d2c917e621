// What holds of all requests.
ghost use Rattle.http_wire.specs.Message.{RequestParts};
ghost use Rattle.oauth_request.specs.Checked.{Terms};
ghost use Rattle.oauth_request.specs.Laws.{OneAnswer};
ghost use Rattle.oauth_request.specs.Signing.{SignedIsBelieved};

/// A request is well signed or has one fault, and says one thing of itself.
pub fn one_answer()
    ensures { (terms : Terms) (q : RequestParts) → OneAnswer terms q }
{}

/// What `sign_form` and `sign_body` sign is well signed at the other end, and says who signed it and when, where that end
/// knows the key with this secret, takes a key and a nonce as long as these, and is reached by the URL's scheme, and where
/// the URL's query decodes and holds no name of the protocol. A form is posted with its pairs and without an Authorization
/// header.
pub fn signed_is_believed()
    ensures { SignedIsBelieved }
{}
