// What is said of a request before the machine is asked.
ghost use Rattle.std.specs.Prelude.{◌≡◌, false, IfOk};
ghost use Rattle.sha1.specs.Sha1.{sha1};
ghost use Rattle.lti_outside.specs.Limits.{IsSound};
ghost use Rattle.http_wire.specs.Message.{parts_of};
ghost use Rattle.oauth_request.specs.Checked.{parameters, is_form};
ghost use Rattle.lti_session.specs.BeforeView.{IsBefore, IsMessageJudged};

use crate::refusals::{auth_response, envelope_response, launch_response, route_response};
use http_wire::{Request, Response};
use lti_consumer::outcome_call;
use lti_machine::Action;
use lti_outside::{Limits, NoMemory};
use lti_provider::{ProviderFault, Route, launch_call, route_of};
use oauth_request::{AuthFault, FORM_TYPE, Keys, Signed, check};
use oauth_text::Scheme;
use pox_outcomes::{EnvelopeFault, Outcome};
use sha1::Sha1;
use std::alloc::Global;

/// What comes of a request before the machine is asked.
#[derive(Drop)]
pub enum Before {
    /// It is answered so.
    Refused(Response),
    /// It is well signed, and the machine is asked this: for the outcome, where it is an outcome request.
    Asked {
        signed: Signed,
        outcome: Option<Outcome>,
        action: Action,
    },
}

// The SHA-1 of a body that isn't a form. The signature covers a form, so nothing is hashed there.
fn body_sum(request: &Request) -> [u8; 20]
    ensures { is_form (parts_of request.now) ≡ false → result ≡ sha1 request.now.body.list }
{
    if request.media.get() == FORM_TYPE {
        return [0; 20];
    }
    Sha1::digest(request.body.get())
}

// What comes of a well signed request, which says this, by its message.
fn judge_message(
    alloc: Global,
    route: Route,
    request: &Request,
    signed: Signed,
) -> Result<Before, NoMemory>
    requires { signed.pairs ≡ parameters (parts_of request.now) }
    ensures { IfOk result (IsMessageJudged route (parts_of request.now) signed) }
{
    match route {
        Route::Launches => match launch_call(alloc, &signed) {
            Ok(action) => Ok(Before::Asked {
                signed,
                outcome: None,
                action,
            }),
            Err(ProviderFault::NoMemory) => Err(NoMemory),
            Err(ProviderFault::Launch(fault)) => {
                let response = launch_response(alloc, fault)?;
                Ok(Before::Refused(response))
            }
        },
        Route::Outcomes => match outcome_call(alloc, request.body.get()) {
            Ok((action, outcome)) => Ok(Before::Asked {
                signed,
                outcome: Some(outcome),
                action,
            }),
            Err(EnvelopeFault::NoMemory) => Err(NoMemory),
            Err(EnvelopeFault::BadEnvelope { at }) => {
                let response = envelope_response(alloc, at)?;
                Ok(Before::Refused(response))
            }
        },
    }
}

/// What comes of a request before the machine is asked: the answer to another path than those of launches and outcomes,
/// another method than POST, another body than the path's that isn't compressed, to the first fault of its signature, or to
/// a message that is no launch or no outcome request; else what it says and asks. `keys` are the consumer keys with
/// their secrets, and `scheme` is the one by which this end is reached.
pub fn judge(
    alloc: Global,
    request: &Request,
    keys: &Keys,
    scheme: Scheme,
    limits: &Limits,
) -> Result<Before, NoMemory>
    requires sound { IsSound limits.now }
    ensures { IfOk result (IsBefore (record { keys = keys.now; scheme = scheme; field = limits.now.field }) (parts_of request.now)) }
{
    let route = match route_of(request) {
        Ok(route) => route,
        Err((status, text)) => {
            let response = route_response(alloc, request, status, text)?;
            return Ok(Before::Refused(response));
        }
    };
    match check(alloc, request, &body_sum(request), keys, scheme, limits) {
        Ok(signed) => {
            let before = judge_message(alloc, route, request, signed)?;
            Ok(before)
        }
        Err(AuthFault::NoMemory) => Err(NoMemory),
        Err(fault) => {
            let response = auth_response(alloc, fault)?;
            Ok(Before::Refused(response))
        }
    }
}
