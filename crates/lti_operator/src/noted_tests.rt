//! What the tool's end reads in a form that starts it.
use super::*;
use http_wire::Request;
use lti_consumer::{Terms, launch_form};
use lti_machine::Action;
use lti_outside::{Bytes, Limits, Pair, Pairs, Tap, Text};
use lti_provider::launch_call;
use oauth_request::{Keys, check};
use oauth_sign::BodyHash;
use oauth_text::{Scheme, Url, form_text};
use std::alloc::Global;
use std::process::Abort;
use std::test::Fail;

const URL: &str = "https://tool.example/lti/launch?course=7";

// The form for this user, place and service.
fn form(alloc: Global, user: &str, sourced_id: &str, service: &str) -> Result<Pairs, Fail> {
    let url = Url::read(alloc, URL)?;
    let terms = Terms {
        link: Text::new(alloc, "429785226")?,
        user: Text::new(alloc, user)?,
        sourced_id: Text::new(alloc, sourced_id)?,
        service: Text::new(alloc, service)?,
    };
    let made = launch_form(alloc, &url, &terms, "12345", "secret", 1_400_000_000, "n 1")?;
    Ok(made)
}

// The request that posts the form.
fn posted(alloc: Global, form: &Pairs) -> Result<Request, Fail> {
    let url = Url::read(alloc, URL)?;
    Ok(Request {
        method: Text::new(alloc, "POST")?,
        path: url.path.copy()?,
        query: url.query.copy()?,
        host: url.host.copy()?,
        media: Text::new(alloc, "application/x-www-form-urlencoded")?,
        encoded: false,
        authorization: Text::empty(alloc),
        body: form_text(alloc, form)?,
        close: false,
    })
}

// What the tool's end is asked by the request.
fn asked(rt: &impl Abort, alloc: Global, request: &Request) -> Result<Action, Fail> {
    let mut list = Pairs::new(alloc);
    list.push(Pair {
        name: Text::new(alloc, "12345")?,
        value: Text::new(alloc, "secret")?,
    })?;
    assert_eq!(rt; list.len(), 1);
    let keys = Keys::new(list)?;
    let mut hash = BodyHash::start();
    hash.feed(request.body.get());
    let limits = Limits::usual();
    let signed = check(
        alloc,
        request,
        &hash.finish(),
        &keys,
        Scheme::Https,
        &limits,
    )?;
    let action = launch_call(alloc, &signed)?;
    Ok(action)
}

// Whether it is asked to note this launch.
fn is_launch(action: &Action, wanted: (&str, &str, &str, &str)) -> bool {
    let Action::Launch {
        link,
        user,
        sourced_id,
        service,
    } = action
    else {
        return false;
    };
    link.get() == wanted.0
        && user.get() == wanted.1
        && sourced_id.get() == wanted.2
        && service.get() == wanted.3
}

#[test]
fn a_form_that_is_posted_is_noted(rt: HostRuntime) -> Result<(), Fail> {
    let alloc = rt.alloc();
    let sent = posted(alloc, &form(alloc, "29123", "", "https://lms.example/lti")?)?;
    let wanted = ("429785226", "29123", "", "https://lms.example/lti");
    assert!(rt; is_launch(&asked(&rt, alloc, &sent)?, wanted));
    launch_is_noted();
    Ok(())
}
