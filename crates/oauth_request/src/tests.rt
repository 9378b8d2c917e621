//! Signed requests, each fault once, which of two faults is named, and what this end signs. The signatures and the hash
//! were made with Python's hmac and hashlib.
use super::*;
use http_wire::Request;
use lti_outside::{Bytes, Limits, Pair, Pairs, Tap, Text};
use oauth_sign::BodyHash;
use oauth_text::{Host, Scheme, Url, form_text};
use std::alloc::Global;
use std::process::Abort;
use std::test::Fail;

const XML: &str = "application/xml";

fn push(list: &mut Pairs, alloc: Global, name: &str, value: &str) -> Result<(), Fail> {
    list.push(Pair {
        name: Text::new(alloc, name)?,
        value: Text::new(alloc, value)?,
    })?;
    Ok(())
}

fn keys(rt: &impl Abort, alloc: Global) -> Result<Keys, Fail> {
    let mut list = Pairs::new(alloc);
    push(&mut list, alloc, "other", "word")?;
    push(&mut list, alloc, "12345", "secret")?;
    assert_eq!(rt; list.len(), 2);
    Ok(Keys::new(list)?)
}

// A request to https://tool.example/lti/launch.
fn request(
    alloc: Global,
    query: &str,
    media: &str,
    authorization: &str,
    body: &[u8],
) -> Result<Request, Fail> {
    let mut copy = Bytes::new(alloc);
    copy.push(body)?;
    Ok(Request {
        method: Text::new(alloc, "POST")?,
        path: Text::new(alloc, "/lti/launch")?,
        query: Text::new(alloc, query)?,
        host: Host::read(alloc, "Tool.Example")?,
        media: Text::new(alloc, media)?,
        encoded: false,
        authorization: Text::new(alloc, authorization)?,
        body: copy,
        close: false,
    })
}

fn checked(
    rt: &impl Abort,
    alloc: Global,
    request: &Request,
    field: u32,
) -> Result<Result<Signed, AuthFault>, Fail> {
    let mut hash = BodyHash::start();
    hash.feed(request.body.get());
    let mut limits = Limits::usual();
    limits.field = field;
    assert!(rt; limits.sound());
    let keys = keys(rt, alloc)?;
    let sum = hash.finish();
    Ok(check(alloc, request, &sum, &keys, Scheme::Https, &limits))
}

// Each name and value, with `=` and LF.
fn shown(alloc: Global, pairs: &Pairs) -> Result<String, Fail> {
    let mut text = String::new(alloc);
    for pair in pairs.as_slice() {
        text.push_str(pair.name.get())?;
        text.push_str("=")?;
        text.push_str(pair.value.get())?;
        text.push_str("\n")?;
    }
    Ok(text)
}

#[test]
fn requests_without_and_with_one_fault(rt: HostRuntime) -> Result<(), Fail> {
    let alloc = rt.alloc();
    for (query, media, header, body, want) in [
        (
            "",
            FORM_TYPE,
            "",
            "a=1&oauth_consumer_key=12345&oauth_signature_method=HMAC-SHA1&oauth_timestamp=1400000000&oauth_nonce=n1&oauth_version=1.0&oauth_signature=UeItB3GozT2T2NU41cFJ0zdwiZg%3D",
            None,
        ),
        (
            "course=7",
            FORM_TYPE,
            "",
            "a=1&oauth_consumer_key=12345&oauth_signature_method=HMAC-SHA1&oauth_timestamp=1400000000&oauth_nonce=n1&oauth_version=1.0&oauth_signature=iU0BHVRPiXQ8hILAwVFgx%2BFJjFY%3D",
            None,
        ),
        (
            "course=8",
            FORM_TYPE,
            "",
            "a=1&oauth_consumer_key=12345&oauth_signature_method=HMAC-SHA1&oauth_timestamp=1400000000&oauth_nonce=n1&oauth_version=1.0&oauth_signature=iU0BHVRPiXQ8hILAwVFgx%2BFJjFY%3D",
            Some(AuthFault::SignatureMismatch),
        ),
        (
            "",
            FORM_TYPE,
            "",
            "a=1&oauth_consumer_key=12345&oauth_signature_method=HMAC-SHA1&oauth_timestamp=1400000000&oauth_nonce=n1&oauth_version=1.0&oauth_signature=UeItB3GozT2T2NU41cFJ0zdwiZg%3D&b=%FF",
            Some(AuthFault::BadForm),
        ),
        (
            "",
            FORM_TYPE,
            "",
            "a=1&oauth_consumer_key=12345&oauth_signature_method=HMAC-SHA1&oauth_timestamp=1400000000&oauth_nonce=n1&oauth_version=1.0&oauth_signature=UeItB3GozT2T2NU41cFJ0zdwiZg%3D&oauth_nonce=n2",
            Some(AuthFault::Duplicate(Field::Nonce)),
        ),
        (
            "",
            FORM_TYPE,
            "",
            "oauth_signature_method=HMAC-SHA1&oauth_timestamp=1&oauth_nonce=n&oauth_signature=UeItB3GozT2T2NU41cFJ0zdwiZg%3D",
            Some(AuthFault::Missing(Field::ConsumerKey)),
        ),
        (
            "",
            FORM_TYPE,
            "",
            "a=1&oauth_consumer_key=12345&oauth_signature_method=HMAC-SHA1&oauth_timestamp=1400000000&oauth_nonce=n1&oauth_version=1.0",
            Some(AuthFault::Missing(Field::Signature)),
        ),
        (
            "",
            FORM_TYPE,
            "",
            "oauth_consumer_key=12345&oauth_signature_method=PLAINTEXT&oauth_timestamp=1&oauth_nonce=n&oauth_signature=UeItB3GozT2T2NU41cFJ0zdwiZg%3D",
            Some(AuthFault::UnsupportedMethod),
        ),
        (
            "",
            FORM_TYPE,
            "",
            "oauth_consumer_key=12345&oauth_signature_method=HMAC-SHA1&oauth_timestamp=1&oauth_nonce=n&oauth_version=1.1&oauth_signature=UeItB3GozT2T2NU41cFJ0zdwiZg%3D",
            Some(AuthFault::BadVersion),
        ),
        (
            "",
            FORM_TYPE,
            "",
            "a=1&oauth_consumer_key=12345&oauth_signature_method=HMAC-SHA1&oauth_timestamp=1400000000&oauth_nonce=n1&oauth_version=1.0&oauth_token=t&oauth_signature=UeItB3GozT2T2NU41cFJ0zdwiZg%3D",
            Some(AuthFault::TokenNotSupported),
        ),
        (
            "",
            FORM_TYPE,
            "",
            "oauth_consumer_key=12345&oauth_signature_method=HMAC-SHA1&oauth_timestamp=0&oauth_nonce=n&oauth_signature=UeItB3GozT2T2NU41cFJ0zdwiZg%3D",
            Some(AuthFault::BadTimestamp),
        ),
        (
            "",
            FORM_TYPE,
            "",
            "oauth_consumer_key=12345&oauth_signature_method=HMAC-SHA1&oauth_timestamp=1&oauth_nonce=&oauth_signature=UeItB3GozT2T2NU41cFJ0zdwiZg%3D",
            Some(AuthFault::BadNonce),
        ),
        (
            "",
            FORM_TYPE,
            "",
            "oauth_consumer_key=0000000000000000000000000000000000000000000000000000000000000000000000000000000000000000000000000000000000000000000000000000000000000000000000000000000000000000000000000000000000000000000000000000000000000000000000000000000000000000000000000000000000000001&oauth_signature_method=HMAC-SHA1&oauth_timestamp=1&oauth_nonce=n&oauth_signature=UeItB3GozT2T2NU41cFJ0zdwiZg%3D",
            Some(AuthFault::TooLong),
        ),
        (
            "",
            FORM_TYPE,
            "",
            "oauth_consumer_key=1234&oauth_signature_method=HMAC-SHA1&oauth_timestamp=1&oauth_nonce=n&oauth_signature=UeItB3GozT2T2NU41cFJ0zdwiZg%3D",
            Some(AuthFault::UnknownKey),
        ),
        (
            "",
            FORM_TYPE,
            "",
            "a=1&oauth_consumer_key=12345&oauth_signature_method=HMAC-SHA1&oauth_timestamp=1400000000&oauth_nonce=n1&oauth_version=1.0&oauth_signature=UeItB3GozT2T2NU41cFJ0zdwiZg",
            Some(AuthFault::SignatureMismatch),
        ),
        (
            "",
            FORM_TYPE,
            "",
            "a=1&oauth_consumer_key=12345&oauth_signature_method=HMAC-SHA1&oauth_timestamp=1400000000&oauth_nonce=n1&oauth_version=1.0&oauth_signature=",
            Some(AuthFault::SignatureMismatch),
        ),
        (
            "",
            XML,
            "OAuth realm=\"x\", oauth_body_hash=\"25qoZjLG8syZaEot0V0rZIKOdiI%3D\", oauth_consumer_key=\"12345\", oauth_signature_method=\"HMAC-SHA1\", oauth_timestamp=\"1400000000\", oauth_nonce=\"n1\", oauth_version=\"1.0\", oauth_signature=\"TXXFW8SPFHHQP3gjLrbBUYAHTBU%3D\"",
            "<a/>",
            None,
        ),
        (
            "",
            XML,
            "OAuth realm=\"x\", oauth_body_hash=\"25qoZjLG8syZaEot0V0rZIKOdiI%3D\", oauth_consumer_key=\"12345\", oauth_signature_method=\"HMAC-SHA1\", oauth_timestamp=\"1400000000\", oauth_nonce=\"n1\", oauth_version=\"1.0\", oauth_signature=\"TXXFW8SPFHHQP3gjLrbBUYAHTBU%3D\"",
            "<b/>",
            Some(AuthFault::BodyHashMismatch),
        ),
        (
            "",
            XML,
            "OAuth a=\"1\", b=2",
            "<a/>",
            Some(AuthFault::BadAuthorization { at: 13 }),
        ),
        (
            "",
            XML,
            "OAuth oauth_consumer_key=\"12345\", oauth_signature_method=\"HMAC-SHA1\", oauth_timestamp=\"1\", oauth_nonce=\"n\", oauth_signature=\"TXXFW8SPFHHQP3gjLrbBUYAHTBU%3D\"",
            "<a/>",
            Some(AuthFault::Missing(Field::BodyHash)),
        ),
        (
            "",
            XML,
            "OAuth realm=\"x\", oauth_body_hash=\"25qoZjLG8syZaEot0V0rZIKOdiI%3D\", oauth_consumer_key=\"12345\", oauth_signature_method=\"HMAC-SHA1\", oauth_timestamp=\"1400000000\", oauth_nonce=\"n1\", oauth_version=\"1.0\", oauth_signature=\"x\"",
            "<a/>",
            Some(AuthFault::SignatureMismatch),
        ),
    ] {
        let sent = request(alloc, query, media, header, body.as_bytes())?;
        let fault = checked(&rt, alloc, &sent, 255)?.err();
        assert_eq!(rt; fault, want, "at {body}");
    }
    Ok(())
}

#[test]
fn the_first_of_two_faults_is_named(rt: HostRuntime) -> Result<(), Fail> {
    let alloc = rt.alloc();
    for (query, media, header, body, want) in [
        (
            "b=%FF",
            FORM_TYPE,
            "OAuth a",
            "",
            Some(AuthFault::BadAuthorization { at: 6 }),
        ),
        (
            "b=%FF",
            FORM_TYPE,
            "",
            "oauth_nonce=1&oauth_nonce=2",
            Some(AuthFault::BadForm),
        ),
        (
            "oauth_token=",
            FORM_TYPE,
            "OAuth oauth_token=\"\", oauth_nonce=\"1\"",
            "oauth_nonce=2",
            Some(AuthFault::Duplicate(Field::Nonce)),
        ),
        (
            "",
            FORM_TYPE,
            "",
            "oauth_signature_method=PLAINTEXT",
            Some(AuthFault::Missing(Field::ConsumerKey)),
        ),
        (
            "",
            FORM_TYPE,
            "",
            "oauth_consumer_key=1&oauth_signature_method=HMAC-SHA1&oauth_timestamp=&oauth_nonce=&oauth_signature=&oauth_version=2",
            Some(AuthFault::BadVersion),
        ),
        (
            "",
            FORM_TYPE,
            "",
            "oauth_consumer_key=1&oauth_signature_method=HMAC-SHA1&oauth_timestamp=-1&oauth_nonce=&oauth_signature=",
            Some(AuthFault::BadTimestamp),
        ),
    ] {
        let sent = request(alloc, query, media, header, body.as_bytes())?;
        let fault = checked(&rt, alloc, &sent, 255)?.err();
        assert_eq!(rt; fault, want, "at {body}");
    }
    Ok(())
}

#[test]
fn what_a_signed_request_says(rt: HostRuntime) -> Result<(), Fail> {
    let alloc = rt.alloc();
    let form =
        "a=1&oauth_consumer_key=12345&oauth_signature_method=HMAC-SHA1&oauth_timestamp=1400000000&oauth_nonce=n1&oauth_version=1.0&oauth_token=&oauth_signature=7x%2BHedphn7CGRmVbRWMS74KoKjo%3D";
    let sent = request(alloc, "", FORM_TYPE, "", form.as_bytes())?;
    let short = checked(&rt, alloc, &sent, 4)?.err();
    assert_eq!(rt; short, Some(AuthFault::TooLong));
    let signed = checked(&rt, alloc, &sent, 5)??;
    assert_eq!(rt; signed.key.get(), "12345");
    assert_eq!(rt; signed.timestamp, 1_400_000_000);
    assert_eq!(rt; signed.nonce.get(), "n1");
    assert_eq!(rt;
        shown(alloc, &signed.pairs)?.as_str(),
        "a=1\noauth_consumer_key=12345\noauth_signature_method=HMAC-SHA1\noauth_timestamp=1400000000\noauth_nonce=n1\noauth_version=1.0\noauth_token=\n"
    );
    Ok(())
}

// The fault of a list of two keys.
fn fault_of_keys(
    rt: &impl Abort,
    alloc: Global,
    one: &str,
    other: &str,
) -> Result<Option<KeysFault>, Fail> {
    let mut list = Pairs::new(alloc);
    push(&mut list, alloc, one, "")?;
    push(&mut list, alloc, other, "")?;
    assert_eq!(rt; list.len(), 2);
    Ok(Keys::new(list).err())
}

#[test]
fn the_first_bad_key_is_named(rt: HostRuntime) -> Result<(), Fail> {
    let alloc = rt.alloc();
    for (one, other, want) in [
        (
            "000000000000000000000000000000000000000000000000000000000000000000000000000000000000000000000000000000000000000000000000000000000000000000000000000000000000000000000000000000000000000000000000000000000000000000000000000000000000000000000000000000000000001",
            "b",
            None,
        ),
        ("a", "", Some(KeysFault::Empty { at: 1 })),
        (
            "0000000000000000000000000000000000000000000000000000000000000000000000000000000000000000000000000000000000000000000000000000000000000000000000000000000000000000000000000000000000000000000000000000000000000000000000000000000000000000000000000000000000000001",
            "",
            Some(KeysFault::TooLong { at: 0 }),
        ),
        ("a", "a", Some(KeysFault::Repeated { at: 1 })),
    ] {
        assert_eq!(rt; fault_of_keys(&rt, alloc, one, other)?, want);
    }
    let keys = keys(&rt, alloc)?;
    assert_eq!(rt; keys.secret("12345"), Some("secret"));
    assert_eq!(rt; keys.secret("1234"), None);
    Ok(())
}

#[test]
fn statuses_and_names(rt: HostRuntime) -> Result<(), Fail> {
    for (fault, status) in [
        (AuthFault::BadForm, 400),
        (AuthFault::Missing(Field::Timestamp), 400),
        (AuthFault::UnknownKey, 401),
        (AuthFault::BodyHashMismatch, 401),
        (AuthFault::SignatureMismatch, 401),
        (AuthFault::NoMemory, 503),
    ] {
        assert_eq!(rt; fault.status(), status);
    }
    for (field, name) in [
        (Field::ConsumerKey, "oauth_consumer_key"),
        (Field::SignatureMethod, "oauth_signature_method"),
        (Field::Timestamp, "oauth_timestamp"),
        (Field::Nonce, "oauth_nonce"),
        (Field::Signature, "oauth_signature"),
        (Field::Version, "oauth_version"),
        (Field::Token, "oauth_token"),
        (Field::BodyHash, "oauth_body_hash"),
    ] {
        assert_eq!(rt; field.name(), name);
    }
    one_answer();
    signed_is_believed();
    Ok(())
}

#[test]
fn a_form_is_signed_and_believed(rt: HostRuntime) -> Result<(), Fail> {
    let alloc = rt.alloc();
    let url = Url::read(alloc, "HTTPS://Tool.Example/lti/launch?course=7")?;
    let none = Pairs::new(alloc);
    let signed = sign_form(alloc, &url, &none, "12345", "secret", 1_400_000_000, "n 1")?;
    assert_eq!(rt;
        shown(alloc, &signed)?.as_str(),
        "oauth_consumer_key=12345\noauth_signature_method=HMAC-SHA1\noauth_timestamp=1400000000\noauth_nonce=n 1\noauth_version=1.0\noauth_callback=about:blank\noauth_signature=fc2MpIscRGGDtcp67wQMUqEVGGw=\n"
    );
    let body = form_text(alloc, &signed)?;
    let sent = request(alloc, "course=7", FORM_TYPE, "", body.get())?;
    assert!(rt; checked(&rt, alloc, &sent, 255)?.is_ok());
    Ok(())
}

#[test]
fn a_body_is_signed_and_believed(rt: HostRuntime) -> Result<(), Fail> {
    let alloc = rt.alloc();
    let url = Url::read(alloc, "https://tool.example/lti/launch?course=7")?;
    let mut body = Bytes::new(alloc);
    body.push(b"<a/>")?;
    let sent = sign_body(
        alloc,
        &url,
        XML,
        body,
        "12345",
        "secret",
        1_400_000_000,
        "n 1",
    )?;
    assert_eq!(rt;
        sent.authorization.get(),
        "OAuth oauth_consumer_key=\"12345\", oauth_signature_method=\"HMAC-SHA1\", oauth_timestamp=\"1400000000\", oauth_nonce=\"n%201\", oauth_version=\"1.0\", oauth_body_hash=\"25qoZjLG8syZaEot0V0rZIKOdiI%3D\", oauth_signature=\"%2F2zOkjHeobGuXZ4IHKpYEB7h%2FGw%3D\""
    );
    assert!(rt; sent.close);
    assert!(rt; checked(&rt, alloc, &sent, 255)?.is_ok());
    Ok(())
}
