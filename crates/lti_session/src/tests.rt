//! A session and a connection, over links in memory. What runs do is shown by the cases of `run_cases`. The signature was made
//! with Python's hmac.
use super::*;
use lti_machine::{Action, Reply, Solo};
use lti_outside::{Bytes, FixedClock, Limits, MemoryLink, MemorySink, MemorySource};
use lti_settings::Settings;
use std::alloc::Global;
use std::process::Abort;
use std::test::Fail;

const SETTINGS: &str =
    "{\"scheme\":\"https\",\"keys\":[{\"key\":\"12345\",\"secret\":\"secret\"}]}";

// A launch as learning systems send it, twice.
const TWICE: &str =
    "POST /lti/launch HTTP/1.1\r\nHost: tool.example\r\nContent-Type: application/x-www-form-urlencoded\r\nContent-Length: 779\r\n\r\nuser_id=2&lis_person_sourcedid=&roles=Instructor%2Curn%3Alti%3Asysrole%3Aims%2Flis%2FAdministrator&context_id=3&context_label=LTI101&context_title=LTI+Course&context_type=CourseSection&resource_link_id=1&resource_link_title=Quiz&lis_result_sourcedid=3124567&lis_outcome_service_url=https%3A%2F%2Flms.example%2Flti%2Foutcomes&lis_person_name_full=Ada+Byron&launch_presentation_locale=en&launch_presentation_document_target=iframe&ext_lms=moodle-2&tool_consumer_info_product_family_code=moodle&custom_level=1&oauth_callback=about%3Ablank&oauth_token=&lti_version=LTI-1p0&lti_message_type=basic-lti-launch-request&oauth_consumer_key=12345&oauth_signature_method=HMAC-SHA1&oauth_timestamp=1400000000&oauth_nonce=7f3c&oauth_version=1.0&oauth_signature=6LzExEl7KzU5Re%2F0hdmKxuet7iU%3DPOST /lti/launch HTTP/1.1\r\nHost: tool.example\r\nContent-Type: application/x-www-form-urlencoded\r\nContent-Length: 779\r\n\r\nuser_id=2&lis_person_sourcedid=&roles=Instructor%2Curn%3Alti%3Asysrole%3Aims%2Flis%2FAdministrator&context_id=3&context_label=LTI101&context_title=LTI+Course&context_type=CourseSection&resource_link_id=1&resource_link_title=Quiz&lis_result_sourcedid=3124567&lis_outcome_service_url=https%3A%2F%2Flms.example%2Flti%2Foutcomes&lis_person_name_full=Ada+Byron&launch_presentation_locale=en&launch_presentation_document_target=iframe&ext_lms=moodle-2&tool_consumer_info_product_family_code=moodle&custom_level=1&oauth_callback=about%3Ablank&oauth_token=&lti_version=LTI-1p0&lti_message_type=basic-lti-launch-request&oauth_consumer_key=12345&oauth_signature_method=HMAC-SHA1&oauth_timestamp=1400000000&oauth_nonce=7f3c&oauth_version=1.0&oauth_signature=6LzExEl7KzU5Re%2F0hdmKxuet7iU%3D";

const ACCEPTED_AND_USED: &str =
    "HTTP/1.1 200 OK\r\nContent-Type: text/plain; charset=utf-8\r\nContent-Length: 9\r\nConnection: keep-alive\r\n\r\nlaunched\nHTTP/1.1 401 Unauthorized\r\nContent-Type: text/plain; charset=utf-8\r\nContent-Length: 19\r\nWWW-Authenticate: OAuth\r\nConnection: keep-alive\r\n\r\nnonce already used\n";

// A link that gives the text in pieces of this size.
fn link(alloc: Global, text: &[u8], size: usize) -> Result<MemoryLink, Fail> {
    let mut pieces = Vec::new(alloc);
    for piece in text.chunks(size.max(1)) {
        let mut bytes = Bytes::new(alloc);
        bytes.push(piece)?;
        pieces.push(bytes)?;
    }
    let source = MemorySource::new(pieces, Vec::new(alloc));
    Ok(MemoryLink::new(source, MemorySink::new(alloc, Vec::new(alloc))))
}

// Whether the plain machine answers both launches so.
fn is_served(rt: &impl Abort, alloc: Global, settings: &Settings) -> Result<bool, Fail> {
    let limits = Limits::usual();
    assert!(rt; limits.sound());
    let mut machine = PlainMachine::new(Solo::new(alloc), &limits);
    let mut ends = link(alloc, TWICE.as_bytes(), 100)?;
    let clock = FixedClock::new(1_400_000_000);
    let end = session(alloc, &mut ends, &mut machine, settings, &clock, &limits);
    Ok(
        end == SessionEnd::Ended
            && ends.given() == ACCEPTED_AND_USED.as_bytes()
            && machine.solo().len() == 1,
    )
}

#[test]
fn a_connection_is_served_by_the_plain_machine(rt: HostRuntime) -> Result<(), Fail> {
    let alloc = rt.alloc();
    let settings = Settings::read(alloc, SETTINGS.as_bytes())?;
    assert!(rt; is_served(&rt, alloc, &settings)?);
    Ok(())
}

#[test]
fn a_session_asks_and_tells(rt: HostRuntime) -> Result<(), Fail> {
    let alloc = rt.alloc();
    let settings = Settings::read(alloc, SETTINGS.as_bytes())?;
    let mut ends = link(alloc, TWICE.as_bytes(), 100)?;
    let clock = FixedClock::new(1_400_000_007);
    let limits = Limits::usual();
    let mut session = Session::new(7);
    let Ask::Call(call) = session.ask(alloc, &mut ends, &settings, &clock, &limits) else {
        return Err(Fail::new("no call"));
    };
    assert_eq!(rt; call.caller, 7);
    assert_eq!(rt; call.moment, 1_400_000_007);
    assert_eq!(rt; call.timestamp, 1_400_000_000);
    assert_eq!(rt; call.key.get(), "12345");
    assert_eq!(rt; call.nonce.get(), "7f3c");
    let Action::Launch { link, user, .. } = &call.action else {
        return Err(Fail::new("no launch"));
    };
    assert_eq!(rt; link.get(), "1");
    assert_eq!(rt; user.get(), "2");
    assert!(rt; session.waiting());
    assert!(rt; !session.ended());
    assert!(rt; session.tell(&mut ends, Reply::NoMemory).is_ok());
    assert!(rt; !session.waiting());
    assert_eq!(rt;
        ends.given(),
        b"HTTP/1.1 503 Service Unavailable\r\nContent-Type: text/plain; charset=utf-8\r\nContent-Length: 15\r\nConnection: keep-alive\r\n\r\nwant of memory\n".as_slice()
    );
    cuts_do_not_matter();
    Ok(())
}
