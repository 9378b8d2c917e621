//! Base string URIs (RFC 5849, section 3.4.1.2).
ghost use Rattle.std.specs.Prelude.{◌≡◌, IfOk};
ghost use Rattle.oauth_sign.specs.BaseUri as spec;

use lti_outside::{NoMemory, Text};
use oauth_text::{Host, Scheme};
use std::alloc::Global;

fn scheme_text(scheme: Scheme) -> &'static str
    ensures { result.now ≡ spec.scheme_text scheme }
{
    match scheme {
        Scheme::Http => "http",
        Scheme::Https => "https",
    }
}

fn default_port(scheme: Scheme) -> u16
    ensures { result ≡ spec.default_port scheme }
{
    match scheme {
        Scheme::Http => 80,
        Scheme::Https => 443,
    }
}

/// The base string URI of a request (RFC 5849, section 3.4.1.2): the scheme and the host's name in lower case, the
/// port unless it is absent or the scheme's default (80 and 443), and the path as it was sent, without the query.
pub fn base_uri(alloc: Global, scheme: Scheme, host: &Host, path: &str) -> Result<Text, NoMemory>
    ensures { IfOk result (λ uri. uri ≡ spec.base_uri_of scheme host.now.name host.now.port path.now) }
{
    let scheme_name = scheme_text(scheme);
    let name = host.name.get();
    let uri = match host.port {
        Some(port) if port != default_port(scheme) => {
            format!(in alloc; "{scheme_name}://{name}:{port}{path}")?
        }
        _ => format!(in alloc; "{scheme_name}://{name}{path}")?,
    };
    Ok(Text::from_string(uri))
}
