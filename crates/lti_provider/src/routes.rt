// Where requests are answered.
ghost use Rattle.std.specs.Prelude.{◌≡◌, None, Some, MatchResult};
ghost use Rattle.http_wire.specs.Message.{parts_of};
ghost use Rattle.lti_provider.specs.Answers.{plain};
ghost use Rattle.lti_provider.specs.Before.{route_refusal};
ghost use Rattle.lti_provider.specs.Routes.{route_at};

use http_wire::Request;
use oauth_request::FORM_TYPE;

/// A route: a path at which requests are answered, and what its requests ask (this project's own).
#[derive(Clone, Copy, Debug, PartialEq, Eq)]
pub enum Route {
    /// `/lti/launch` takes launches, which are forms (LTI 1.1.1, section 3).
    Launches,
    /// `/lti/outcomes` takes outcome requests, which are XML (LTI 1.1.1, section 6).
    Outcomes,
}

impl Route {
    ghost use Rattle.std.specs.Prelude.{◌≡◌};
    ghost use Rattle.lti_provider.specs.Routes as spec;

    /// The route of a path, if it has one.
    pub fn at(path: &str) -> Option<Route>
        ensures { result ≡ spec.route_at path.now }
    {
        match path {
            "/lti/launch" => Some(Route::Launches),
            "/lti/outcomes" => Some(Route::Outcomes),
            _ => None,
        }
    }

    /// Whether the route takes bodies of this media type.
    pub fn takes(self, media: &str) -> bool
        ensures { result ≡ spec.takes self media.now }
    {
        match self {
            Route::Launches => media == FORM_TYPE,
            Route::Outcomes => media == "application/xml" || media == "text/xml",
        }
    }
}

/// The route of a request; or the status and the text of the answer to one of another path, of another method than POST, or
/// with another body than the route takes, in this order.
pub fn route_of(request: &Request) -> Result<Route, (u16, &'static str)>
    ensures { MatchResult result
        (λ route. (route_refusal (parts_of request.now) ≡ None) × (route_at (parts_of request.now).path ≡ Some route))
        (λ refusal. route_refusal (parts_of request.now) ≡ Some (plain refusal.0 refusal.1.now)) }
{
    let Some(route) = Route::at(request.path.get()) else {
        return Err((404, "not found"));
    };
    if request.method.get() != "POST" {
        return Err((405, "method not allowed"));
    }
    if request.encoded || !route.takes(request.media.get()) {
        return Err((415, "unsupported media type"));
    }
    Ok(route)
}
