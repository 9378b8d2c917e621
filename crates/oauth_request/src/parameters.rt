// The parameters of a request.
ghost use Rattle.std.specs.Prelude.{◌≡◌, IfOk, IfErr, OnOk};
ghost use Rattle.http_wire.specs.Message.{parts_of};
ghost use Rattle.oauth_request.specs.Checked as spec;
ghost use Rattle.oauth_request.specs.Checked.{IsReadable};
ghost use Rattle.oauth_request.specs.Reading.{IsReadingFault};

use crate::AuthFault;
use http_wire::Request;
use lti_outside::Pairs;
use oauth_text::pairs;
use std::alloc::Global;

/// The media type of forms (URL Standard, section 5).
pub const FORM_TYPE: &str = "application/x-www-form-urlencoded";

/// Whether the body is a form.
pub fn is_form(request: &Request) -> bool
    ensures { result ≡ spec.is_form (parts_of request.now) }
{
    request.media.get() == FORM_TYPE
}

/// All parameters (RFC 5849, section 3.4.1.3.1): those of the query, of the Authorization header without `realm`, and
/// of a form.
pub fn all_pairs(alloc: Global, request: &Request) -> Result<Pairs, AuthFault>
    ensures pairs { IfOk result (λ pairs. pairs ≡ spec.all_pairs (parts_of request.now)) }
    ensures readable { OnOk result (IsReadable (parts_of request.now)) }
    ensures fault { IfErr result (IsReadingFault (parts_of request.now)) }
{
    let header = oauth_header::read(alloc, request.authorization.get())?;
    let mut all = pairs(alloc, request.query.get().as_bytes())?;
    all.append(header)?;
    if is_form(request) {
        all.append(pairs(alloc, request.body.get())?)?;
    }
    Ok(all)
}
