//! Launches as the machine is asked to note them, and messages that are none.
use super::*;
use lti_launch::{LaunchFault, LaunchField};
use lti_machine::Action;
use lti_outside::{Pair, Pairs, Text};
use oauth_request::Signed;
use std::alloc::Global;
use std::test::Fail;

// What the pairs of these names and values ask.
fn call(alloc: Global, texts: &[(&str, &str)]) -> Result<Result<Action, ProviderFault>, Fail> {
    let mut pairs = Pairs::new(alloc);
    for (name, value) in texts {
        let name = Text::new(alloc, name)?;
        let value = Text::new(alloc, value)?;
        pairs.push(Pair { name, value })?;
    }
    let signed = Signed {
        key: Text::new(alloc, "12345")?,
        timestamp: 1_400_000_000,
        nonce: Text::new(alloc, "n")?,
        pairs,
    };
    Ok(launch_call(alloc, &signed))
}

// Whether the pairs ask that this launch is noted.
fn is_launch(
    alloc: Global,
    texts: &[(&str, &str)],
    wanted: (&str, &str, &str, &str),
) -> Result<bool, Fail> {
    let Ok(
        Action::Launch {
            link,
            user,
            sourced_id,
            service,
        },
    ) = call(alloc, texts)?
    else {
        return Ok(false);
    };
    Ok(
        link.get() == wanted.0
            && user.get() == wanted.1
            && sourced_id.get() == wanted.2
            && service.get() == wanted.3,
    )
}

#[test]
fn a_launch_is_noted_with_its_four_texts(rt: HostRuntime) -> Result<(), Fail> {
    let alloc = rt.alloc();
    let whole = [
        ("user_id", "2"),
        ("roles", "Instructor"),
        ("resource_link_id", "1"),
        ("resource_link_title", "Quiz"),
        ("lis_result_sourcedid", "3124567"),
        (
            "lis_outcome_service_url",
            "https://lms.example/lti/outcomes",
        ),
        ("custom_level", "1"),
        ("oauth_consumer_key", "12345"),
        ("lti_version", "LTI-1p0"),
        ("lti_message_type", "basic-lti-launch-request"),
    ];
    let wanted = ("1", "2", "3124567", "https://lms.example/lti/outcomes");
    assert!(rt; is_launch(alloc, &whole, wanted)?);
    let bare = [
        ("resource_link_id", "1"),
        ("lti_version", "LTI-1p0"),
        ("lti_message_type", "basic-lti-launch-request"),
    ];
    assert!(rt; is_launch(alloc, &bare, ("1", "", "", ""))?);
    Ok(())
}

// Whether the pairs are refused with this fault.
fn is_refused(alloc: Global, texts: &[(&str, &str)], wanted: LaunchFault) -> Result<bool, Fail> {
    Ok(matches!(call(alloc, texts)?, Err(ProviderFault::Launch(fault)) if fault == wanted))
}

#[test]
fn a_message_that_is_no_launch_is_refused(rt: HostRuntime) -> Result<(), Fail> {
    let alloc = rt.alloc();
    let kind = ("lti_message_type", "basic-lti-launch-request");
    let version = ("lti_version", "LTI-1p0");
    let link = ("resource_link_id", "1");
    let selection = ("lti_message_type", "ContentItemSelectionRequest");
    assert!(rt; is_refused(alloc, &[selection, version, link], LaunchFault::WrongType)?);
    assert!(rt; is_refused(alloc, &[kind, link], LaunchFault::WrongVersion)?);
    assert!(rt; is_refused(alloc, &[kind, version], LaunchFault::Missing)?);
    let context = ("context_id", "3");
    let repeated = LaunchFault::Repeated(LaunchField::ContextId);
    assert!(rt; is_refused(alloc, &[kind, version, link, context, context], repeated)?);
    Ok(())
}
