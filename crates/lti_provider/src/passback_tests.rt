//! Grades that are sent back over a link in memory, and what is made of what comes.
use super::*;
use http_wire::WireFault;
use lti_outside::{Bytes, Limits, MemoryLink, MemorySink, MemorySource, Text};
use oauth_text::Url;
use pox_outcomes::{Answer, Major, Operation, Outcome};
use std::alloc::Global;
use std::test::Fail;

// A link that gives this text, and whose writes of these numbers fail.
fn link(alloc: Global, text: &str, failing: &[u64]) -> Result<MemoryLink, Fail> {
    let mut piece = Bytes::new(alloc);
    piece.push(text.as_bytes())?;
    let mut pieces = Vec::new(alloc);
    pieces.push(piece)?;
    let source = MemorySource::new(pieces, Vec::new(alloc));
    let sink = MemorySink::new(alloc, failing.to_vec(alloc)?);
    Ok(MemoryLink::new(source, sink))
}

// What comes of a score of 0.5 with this message identifier.
fn sent(
    alloc: Global,
    ends: &mut MemoryLink,
    message: &str,
) -> Result<Result<Answer, PassbackFault>, Fail> {
    let Ok(url) = Url::read(alloc, "https://lms.example/lti/outcomes") else {
        return Err("no url".into());
    };
    let outcome = Outcome {
        message: Text::new(alloc, message)?,
        operation: Operation::ReplaceResult,
        sourced_id: Text::new(alloc, "3124567")?,
        score_text: Text::new(alloc, "0.5")?,
    };
    let limits = Limits::usual();
    Ok(passback(
        alloc,
        ends,
        &url,
        &outcome,
        "12345",
        "secret",
        1_400_000_000,
        "n",
        &limits,
    ))
}

const SUCCESS: &str =
    "HTTP/1.0 200 OK\r\nContent-Type: application/xml\r\n\r\n<?xml version=\"1.0\" encoding=\"UTF-8\"?><imsx_POXEnvelopeResponse xmlns=\"http://www.imsglobal.org/services/ltiv1p1/xsd/imsoms_v1p0\"><imsx_POXHeader><imsx_POXResponseHeaderInfo><imsx_version>V1.0</imsx_version><imsx_messageIdentifier>4560</imsx_messageIdentifier><imsx_statusInfo><imsx_codeMajor>success</imsx_codeMajor><imsx_severity>status</imsx_severity><imsx_description>Score for 3124567 is now 0.5</imsx_description><imsx_messageRefIdentifier>n</imsx_messageRefIdentifier><imsx_operationRefIdentifier>replaceResult</imsx_operationRefIdentifier></imsx_statusInfo></imsx_POXResponseHeaderInfo></imsx_POXHeader><imsx_POXBody><replaceResultResponse/></imsx_POXBody></imsx_POXEnvelopeResponse>";

const FAILURE: &str =
    "HTTP/1.1 200 OK\r\nContent-Length: 325\r\n\r\n<imsx_POXEnvelopeResponse xmlns=''><imsx_POXHeader><imsx_POXResponseHeaderInfo><imsx_version>V1.0</imsx_version><imsx_messageIdentifier>7</imsx_messageIdentifier><imsx_statusInfo><imsx_codeMajor>failure</imsx_codeMajor></imsx_statusInfo></imsx_POXResponseHeaderInfo></imsx_POXHeader><imsx_POXBody/></imsx_POXEnvelopeResponse>";

// Signed outside of this project.
const REQUEST: &[u8] =
    b"POST /lti/outcomes HTTP/1.0\r\nHost: lms.example\r\nContent-Type: application/xml\r\nAuthorization: OAuth oauth_consumer_key=\"12345\", oauth_signature_method=\"HMAC-SHA1\", oauth_timestamp=\"1400000000\", oauth_nonce=\"n\", oauth_version=\"1.0\", oauth_body_hash=\"TUm9Tv4%2FkoMVNJDAvRvYYCrHqFw%3D\", oauth_signature=\"dpuP8UVh2dHFlhSd0DX4Yv2nRY8%3D\"\r\nContent-Length: 581\r\n\r\n<?xml version=\"1.0\" encoding=\"UTF-8\"?><imsx_POXEnvelopeRequest xmlns=\"http://www.imsglobal.org/services/ltiv1p1/xsd/imsoms_v1p0\"><imsx_POXHeader><imsx_POXRequestHeaderInfo><imsx_version>V1.0</imsx_version><imsx_messageIdentifier>n</imsx_messageIdentifier></imsx_POXRequestHeaderInfo></imsx_POXHeader><imsx_POXBody><replaceResultRequest><resultRecord><sourcedGUID><sourcedId>3124567</sourcedId></sourcedGUID><result><resultScore><language>en</language><textString>0.5</textString></resultScore></result></resultRecord></replaceResultRequest></imsx_POXBody></imsx_POXEnvelopeRequest>";

// What comes of the score where the link gives this text.
fn answered(alloc: Global, text: &str) -> Result<Result<Answer, PassbackFault>, Fail> {
    let mut ends = link(alloc, text, &[])?;
    sent(alloc, &mut ends, "n")
}

fn is_written(alloc: Global, text: &str, wanted: &[u8]) -> Result<bool, Fail> {
    let mut ends = link(alloc, text, &[])?;
    let came = sent(alloc, &mut ends, "n")?;
    Ok(came.is_ok() && ends.given() == wanted)
}

#[test]
fn the_request_is_the_one_that_was_signed_outside(rt: HostRuntime) -> Result<(), Fail> {
    assert!(rt; is_written(rt.alloc(), SUCCESS, REQUEST)?);
    Ok(())
}

// Whether an answer comes with this message identifier, this major code and this description.
fn is_answer(
    alloc: Global,
    text: &str,
    message: &str,
    major: Major,
    description: &str,
) -> Result<bool, Fail> {
    match &answered(alloc, text)? {
        Ok(answer) => Ok(
            answer.message.get() == message
                && answer.major == major
                && answer.description.get() == description,
        ),
        Err(_) => Ok(false),
    }
}

#[test]
fn the_answer_is_for_the_caller_to_judge(rt: HostRuntime) -> Result<(), Fail> {
    let answers = [
        (
            SUCCESS,
            "4560",
            Major::Success,
            "Score for 3124567 is now 0.5",
        ),
        (FAILURE, "7", Major::Failure, ""),
    ];
    for (text, message, major, description) in answers {
        assert!(rt; is_answer(rt.alloc(), text, message, major, description)?);
    }
    Ok(())
}

fn is_no_answer(alloc: Global, text: &str, wanted: WireFault) -> Result<bool, Fail> {
    match &answered(alloc, text)? {
        Err(PassbackFault::Wire(cause)) => Ok(*cause == wanted),
        _ => Ok(false),
    }
}

#[test]
fn what_is_no_answer_has_its_cause(rt: HostRuntime) -> Result<(), Fail> {
    let texts = [
        (
            "HTTP/1.0 200 OK\r\nContent-Length: 325\r\n\r\n<imsx_POXEnvelopeResponse xmlns=''>",
            WireFault::CutShort,
        ),
        (
            "HTTP/1.1 200 OK\r\nTransfer-Encoding: chunked\r\n\r\n0\r\n\r\n",
            WireFault::Chunked,
        ),
    ];
    for (text, wanted) in texts {
        assert!(rt; is_no_answer(rt.alloc(), text, wanted)?);
    }
    Ok(())
}

fn has_status(alloc: Global, text: &str, wanted: u16) -> Result<bool, Fail> {
    match &answered(alloc, text)? {
        Err(PassbackFault::BadStatus { status }) => Ok(*status == wanted),
        _ => Ok(false),
    }
}

fn is_bad_at(alloc: Global, text: &str, wanted: u64) -> Result<bool, Fail> {
    match &answered(alloc, text)? {
        Err(PassbackFault::BadEnvelope { at }) => Ok(*at == wanted),
        _ => Ok(false),
    }
}

#[test]
fn other_answers_are_refused(rt: HostRuntime) -> Result<(), Fail> {
    let broken = "HTTP/1.0 500 Internal Server Error\r\nContent-Length: 0\r\n\r\n";
    assert!(rt; has_status(rt.alloc(), broken, 500)?);
    let pages = [
        (
            "HTTP/1.0 200 OK\r\nContent-Type: text/html\r\n\r\n<html></html>",
            1,
        ),
        (
            "HTTP/1.0 200 OK\r\n\r\n<imsx_POXEnvelopeRequest xmlns=''>",
            19,
        ),
    ];
    for (text, at) in pages {
        assert!(rt; is_bad_at(rt.alloc(), text, at)?);
    }
    Ok(())
}

fn is_write_fault(alloc: Global, failing: &[u64]) -> Result<bool, Fail> {
    let mut ends = link(alloc, SUCCESS, failing)?;
    match &sent(alloc, &mut ends, "n")? {
        Err(PassbackFault::WriteFault) => Ok(ends.given().is_empty()),
        _ => Ok(false),
    }
}

#[test]
fn a_request_that_is_not_written_is_told(rt: HostRuntime) -> Result<(), Fail> {
    assert!(rt; is_write_fault(rt.alloc(), &[0])?);
    Ok(())
}

fn is_no_xml(alloc: Global, message: &str) -> Result<bool, Fail> {
    let mut ends = link(alloc, SUCCESS, &[])?;
    match &sent(alloc, &mut ends, message)? {
        Err(PassbackFault::NotXml) => Ok(ends.given().is_empty()),
        _ => Ok(false),
    }
}

#[test]
fn a_text_that_is_not_xml_is_not_sent(rt: HostRuntime) -> Result<(), Fail> {
    assert!(rt; is_no_xml(rt.alloc(), "n\u{1}")?);
    Ok(())
}
