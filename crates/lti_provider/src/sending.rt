// Grades that are sent back.
ghost use Rattle.std.specs.Prelude.{[], IfOk, IfErr};
ghost use Rattle.lti_outside.specs.Limits.{IsSound};
ghost use Rattle.oauth_text.specs.UrlView as url_view;
ghost use Rattle.oauth_request.specs.Signing.{CanSign};
ghost use Rattle.http_wire.specs.Message.{parts_of};
ghost use Rattle.http_wire.specs.Written.{IsSoundRequest};
ghost use Rattle.lti_provider.specs.Judged.{IsJudged};
ghost use Rattle.lti_provider.specs.Passback.{IsPosted, IsMade, IsPassedBack};
ghost use Rattle.lti_provider.specs.Unposted.{IsUnposted};

use crate::PassbackFault;
use http_wire::{Answered, Request, Wire};
use lti_outside::{Limits, Link};
use oauth_request::sign_body;
use oauth_text::Url;
use pox_outcomes::{Answer, EnvelopeFault, EnvelopeRefusal, Outcome};
use std::alloc::Global;

// The greatest length of a body that a request tells, in 19 digits. No memory holds a longer one.
const LONGEST: usize = 9_999_999_999_999_999_999;

// The request that posts the outcome.
fn posted(
    alloc: Global,
    url: &Url,
    outcome: &Outcome,
    key: &str,
    secret: &str,
    moment: u64,
    nonce: &str,
) -> Result<Request, PassbackFault>
    requires { CanSign key.now moment nonce.now }
    ensures posted { IfOk result (λ request. IsPosted
        (record { url = url_view.parts_of url.now; outcome = outcome.now; key = key.now; secret = secret.now; moment = moment; nonce = nonce.now })
        (parts_of request)) }
    ensures sound { IfOk result (λ request. IsSoundRequest (parts_of request)) }
    ensures unposted { IfErr result (IsUnposted outcome.now) }
{
    let body = match pox_outcomes::write_request(alloc, outcome) {
        Ok(body) => body,
        Err(EnvelopeRefusal::NotXml) => return Err(PassbackFault::NotXml),
        Err(EnvelopeRefusal::NoMemory) => return Err(PassbackFault::NoMemory),
    };
    if body.get().len() > LONGEST {
        return Err(PassbackFault::NoMemory);
    }
    let request = sign_body(
        alloc,
        url,
        "application/xml",
        body,
        key,
        secret,
        moment,
        nonce,
    )?;
    Ok(request)
}

// The envelope of an answer with the status 200.
fn judged(alloc: Global, answered: &Answered) -> Result<Answer, PassbackFault>
    ensures { IsJudged answered.now.status answered.now.body.list result }
{
    let status = answered.status;
    if status != 200 {
        return Err(PassbackFault::BadStatus { status });
    }
    match pox_outcomes::read_answer(alloc, answered.body.get()) {
        Ok(answer) => Ok(answer),
        Err(EnvelopeFault::BadEnvelope { at }) => Err(PassbackFault::BadEnvelope { at }),
        Err(EnvelopeFault::NoMemory) => Err(PassbackFault::NoMemory),
    }
}

// What is made of what comes over the link.
fn made<L: Link>(alloc: Global, link: &mut L, limits: &Limits) -> Result<Answer, PassbackFault>
    requires { IsSound limits.now }
    ensures { IsMade limits.now (L.traffic link.old) (L.traffic link.new) [] result }
{
    let answered = Wire::new().read_response(alloc, link, limits)?;
    judged(alloc, &answered)
}

/// Sends a grade back, as a tool does (LTI 1.1.1, section 6): posts the outcome's envelope to the service's URL over the
/// link, signed with the hash of the envelope (RFC 5849, section 3, and the OAuth Request Body Hash draft), and reads the
/// answer. `moment` is in seconds since 1970-01-01 00:00:00 UTC. The request is one of HTTP/1.0, so that the service has no
/// ground to answer in chunks. Whether the service did what was asked is told by the answer's major code.
///
/// A link serves one call: the request asks for its end. After an error but `NotXml` and `WriteFault` it isn't known
/// whether the service did what was asked, so that the outcome may be sent again, with another nonce.
pub fn passback<L: Link>(
    alloc: Global,
    link: &mut L,
    url: &Url,
    outcome: &Outcome,
    key: &str,
    secret: &str,
    moment: u64,
    nonce: &str,
    limits: &Limits,
) -> Result<Answer, PassbackFault>
    requires signer { CanSign key.now moment nonce.now }
    requires sound { IsSound limits.now }
    ensures { IsPassedBack
        (record { url = url_view.parts_of url.now; outcome = outcome.now; key = key.now; secret = secret.now; moment = moment; nonce = nonce.now })
        limits.now (L.traffic link.old) (L.traffic link.new) result }
{
    let request = posted(alloc, url, outcome, key, secret, moment, nonce)?;
    match http_wire::write_request(link, &request) {
        Ok(()) => made(alloc, link, limits),
        Err(_) => Err(PassbackFault::WriteFault),
    }
}
