//! Forms that start a tool, whose signatures were made with Python's hmac.
use super::*;
use lti_launch::{Launch, LaunchField};
use lti_outside::{Pair, Pairs, Text};
use oauth_text::Url;
use std::alloc::Global;
use std::test::Fail;

const URL: &str = "https://tool.example/lti/launch?course=7";

const KIND: (&str, &str) = ("lti_message_type", "basic-lti-launch-request");

const VERSION: (&str, &str) = ("lti_version", "LTI-1p0");

const LINK: (&str, &str) = ("resource_link_id", "429785226");

const KEY: (&str, &str) = ("oauth_consumer_key", "12345");

const METHOD: (&str, &str) = ("oauth_signature_method", "HMAC-SHA1");

const TIME: (&str, &str) = ("oauth_timestamp", "1400000000");

const NONCE: (&str, &str) = ("oauth_nonce", "n 1");

const OAUTH: (&str, &str) = ("oauth_version", "1.0");

const CALLBACK: (&str, &str) = ("oauth_callback", "about:blank");

// The form for this user, place and service.
fn form(alloc: Global, user: &str, sourced_id: &str, service: &str) -> Result<Pairs, Fail> {
    let url = Url::read(alloc, URL)?;
    let terms = Terms {
        link: Text::new(alloc, "429785226")?,
        user: Text::new(alloc, user)?,
        sourced_id: Text::new(alloc, sourced_id)?,
        service: Text::new(alloc, service)?,
    };
    let made = launch_form(alloc, &url, &terms, "12345", "secret", 1_400_000_000, "n 1")?;
    Ok(made)
}

// Whether the pair has this name and this value.
fn is(pair: &Pair, wanted: &(&str, &str)) -> bool {
    pair.name.get() == wanted.0 && pair.value.get() == wanted.1
}

// Whether the pairs are these.
fn are(pairs: &Pairs, wanted: &[(&str, &str)]) -> bool {
    let same = pairs
        .as_slice()
        .iter()
        .zip(wanted)
        .all(|(pair, text)| is(pair, text));
    pairs.len() == wanted.len() && same
}

#[test]
fn a_form_has_the_texts_that_are_given(rt: HostRuntime) -> Result<(), Fail> {
    let alloc = rt.alloc();
    let service = "https://lms.example/lti/outcomes?id=1";
    let whole = form(alloc, "29123", "course-2:quiz 7:29123", service)?;
    let texts = [
        KIND,
        VERSION,
        LINK,
        ("user_id", "29123"),
        ("lis_result_sourcedid", "course-2:quiz 7:29123"),
        ("lis_outcome_service_url", service),
        KEY,
        METHOD,
        TIME,
        NONCE,
        OAUTH,
        CALLBACK,
        ("oauth_signature", "5SuAzqgOBHi32DBnqQMf8XyqeJ0="),
    ];
    assert!(rt; are(&whole, &texts));
    let bare = form(alloc, "", "", "")?;
    let texts = [
        KIND,
        VERSION,
        LINK,
        KEY,
        METHOD,
        TIME,
        NONCE,
        OAUTH,
        CALLBACK,
        ("oauth_signature", "a/EET54LSNLgI/52tQvyv9VN/Oo="),
    ];
    assert!(rt; are(&bare, &texts));
    Ok(())
}

#[test]
fn a_form_is_read_as_its_launch(rt: HostRuntime) -> Result<(), Fail> {
    let alloc = rt.alloc();
    let launch = Launch::read(alloc, &form(alloc, "", "course-2:quiz 7:29123", "")?)?;
    assert_eq!(rt; launch.get(LaunchField::ResourceLinkId), Some("429785226"));
    assert_eq!(rt; launch.get(LaunchField::UserId), None);
    assert_eq!(rt;
        launch.get(LaunchField::LisResultSourcedid),
        Some("course-2:quiz 7:29123")
    );
    assert_eq!(rt; launch.get(LaunchField::LisOutcomeServiceUrl), None);
    assert_eq!(rt; launch.rest().len(), 0);
    Ok(())
}
