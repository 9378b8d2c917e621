ghost use Rattle.pox_outcomes.specs.Answered.{Belongs};

use crate::{
    EnvelopeFault, EnvelopeRefusal, Major, Operation, Outcome, Told, answer_room, read_answer,
    read_request, write_answer, write_request,
};
use lti_outside::{Bytes, Text};
use score_decimal::Score;
use std::alloc::Global;
use std::test::Fail;

const REPLACE: &str =
    "<?xml version=\"1.0\" encoding=\"UTF-8\"?><imsx_POXEnvelopeRequest xmlns=\"http://www.imsglobal.org/services/ltiv1p1/xsd/imsoms_v1p0\"><imsx_POXHeader><imsx_POXRequestHeaderInfo><imsx_version>V1.0</imsx_version><imsx_messageIdentifier>999999123</imsx_messageIdentifier></imsx_POXRequestHeaderInfo></imsx_POXHeader><imsx_POXBody><replaceResultRequest><resultRecord><sourcedGUID><sourcedId>3124567</sourcedId></sourcedGUID><result><resultScore><language>en</language><textString>0.92</textString></resultScore></result></resultRecord></replaceResultRequest></imsx_POXBody></imsx_POXEnvelopeRequest>";

// Whether the bytes are an envelope of the outcome.
fn reads(alloc: Global, bytes: &[u8], operation: Operation, id: &str, score: &str) -> bool {
    match read_request(alloc, bytes) {
        Ok(outcome) => {
            outcome.message.get() == "999999123"
                && outcome.operation == operation
                && outcome.sourced_id.get() == id
                && outcome.score_text.get() == score
        }
        Err(_) => false,
    }
}

// Whether the bytes are bad behind so many of them.
fn is_bad(alloc: Global, bytes: &[u8], place: usize) -> bool {
    match read_request(alloc, bytes) {
        Err(EnvelopeFault::BadEnvelope { at }) => at == place as u64,
        _ => false,
    }
}

#[test]
fn spellings_of_envelopes_are_read(rt: HostRuntime) {
    let spellings = [
        REPLACE,
        "<imsx_POXEnvelopeRequest xmlns='http://www.imsglobal.org/services/ltiv1p1/xsd/imsoms_v1p0'><imsx_POXHeader><imsx_POXRequestHeaderInfo><imsx_version>V1.0</imsx_version><imsx_messageIdentifier>999999123</imsx_messageIdentifier></imsx_POXRequestHeaderInfo></imsx_POXHeader><imsx_POXBody><replaceResultRequest><resultRecord><sourcedGUID><sourcedId>3124567</sourcedId></sourcedGUID><result><resultScore><language/><textString>0.92</textString></resultScore></result></resultRecord></replaceResultRequest></imsx_POXBody></imsx_POXEnvelopeRequest>",
        "<?xml version='1.0' encoding='utf-8' standalone='yes' ?>\r\n<imsx_POXEnvelopeRequest xmlns:xsi=\"http://www.w3.org/2001/XMLSchema-instance\" xmlns = \"urn:x\" >\n  <imsx_POXHeader>\n    <imsx_POXRequestHeaderInfo>\n      <imsx_version> V1.0 </imsx_version>\n      <imsx_messageIdentifier>\n        999999123\n      </imsx_messageIdentifier>\n    </imsx_POXRequestHeaderInfo>\n  </imsx_POXHeader>\n  <imsx_POXBody>\n    <replaceResultRequest>\n      <resultRecord>\n        <sourcedGUID>\n          <sourcedId>3124567</sourcedId>\n        </sourcedGUID>\n        <result>\n          <resultScore>\n            <textString >0.92</textString >\n          </resultScore>\n        </result>\n      </resultRecord>\n    </replaceResultRequest>\n  </imsx_POXBody>\n</imsx_POXEnvelopeRequest>\n",
        "<?xml version = \"1.0\"?><imsx_POXEnvelopeRequest xmlns=\"\"><imsx_POXHeader><imsx_POXRequestHeaderInfo><imsx_version>V1.0</imsx_version><imsx_messageIdentifier>&#57;99999123</imsx_messageIdentifier></imsx_POXRequestHeaderInfo></imsx_POXHeader><imsx_POXBody><replaceResultRequest><resultRecord><sourcedGUID><sourcedId>312&#x34;56&#x000037;</sourcedId></sourcedGUID><result><resultScore><language>\u{e9}</language><textString>0.92</textString></resultScore></result></resultRecord></replaceResultRequest></imsx_POXBody></imsx_POXEnvelopeRequest>",
    ];
    for spelling in spellings {
        assert!(rt;
            reads(
                rt.alloc(),
                spelling.as_bytes(),
                Operation::ReplaceResult,
                "3124567",
                "0.92"
            )
        );
    }
}

#[test]
fn other_operations_are_read(rt: HostRuntime) {
    let read =
        "<imsx_POXEnvelopeRequest xmlns='x'><imsx_POXHeader><imsx_POXRequestHeaderInfo><imsx_version>V1.0</imsx_version><imsx_messageIdentifier>999999123</imsx_messageIdentifier></imsx_POXRequestHeaderInfo></imsx_POXHeader><imsx_POXBody><readResultRequest><resultRecord><sourcedGUID><sourcedId> a &lt;&amp;&gt; \u{20ac}\u{10348} </sourcedId></sourcedGUID></resultRecord></readResultRequest></imsx_POXBody></imsx_POXEnvelopeRequest>";
    let delete =
        "<imsx_POXEnvelopeRequest xmlns='x'><imsx_POXHeader><imsx_POXRequestHeaderInfo><imsx_version>V1.0</imsx_version><imsx_messageIdentifier>999999123</imsx_messageIdentifier></imsx_POXRequestHeaderInfo></imsx_POXHeader><imsx_POXBody><deleteResultRequest><resultRecord><sourcedGUID><sourcedId/></sourcedGUID></resultRecord></deleteResultRequest></imsx_POXBody></imsx_POXEnvelopeRequest>";
    assert!(rt;
        reads(
            rt.alloc(),
            read.as_bytes(),
            Operation::ReadResult,
            "a <&> \u{20ac}\u{10348}",
            ""
        )
    );
    assert!(rt;
        reads(
            rt.alloc(),
            delete.as_bytes(),
            Operation::DeleteResult,
            "",
            ""
        )
    );
}

#[test]
fn bad_envelopes_are_refused_at_their_place(rt: HostRuntime) {
    let texts = [
        ("", 0),
        ("\u{feff}<?xml", 0),
        ("<imsx_POXEnvelopeRequest>", 24),
        ("<imsx_POXEnvelopeRequest xmlns=x", 31),
        ("<imsx_POXEnvelopeRequest xmlns='<'", 32),
        ("<imsx_POXEnvelopeResponse", 19),
        ("<?xml version='1.1'", 17),
        ("<?xml version='1.0' encoding='latin1'", 30),
        (" <?xml", 2),
    ];
    for (text, place) in texts {
        assert!(rt; is_bad(rt.alloc(), text.as_bytes(), place));
    }
}

#[test]
fn bytes_behind_the_root_and_a_missing_byte(rt: HostRuntime) {
    let whole = REPLACE.as_bytes();
    let mut long = [0; 640];
    let len = whole.len();
    assert!(rt; len < 600);
    for (place, b) in whole.iter().enumerate() {
        if place < 640 {
            long[place] = *b;
        }
    }
    long[len] = b'x';
    assert!(rt; is_bad(rt.alloc(), &long[..len + 1], len));
    assert!(rt; is_bad(rt.alloc(), &whole[..len - 1], len - 1));
}

#[test]
fn the_envelope_of_an_outcome_is_written(rt: HostRuntime) -> Result<(), Fail> {
    let outcome = Outcome {
        message: Text::new(rt.alloc(), "999999123")?,
        operation: Operation::ReplaceResult,
        sourced_id: Text::new(rt.alloc(), "3124567")?,
        score_text: Text::new(rt.alloc(), "0.92")?,
    };
    let written = write_request(rt.alloc(), &outcome)?;
    assert!(rt; written.get() == REPLACE.as_bytes());
    Ok(())
}

#[test]
fn other_characters_are_refused(rt: HostRuntime) -> Result<(), Fail> {
    let outcome = Outcome {
        message: Text::new(rt.alloc(), "1")?,
        operation: Operation::ReadResult,
        sourced_id: Text::new(rt.alloc(), "\u{1}")?,
        score_text: Text::empty(rt.alloc()),
    };
    match write_request(rt.alloc(), &outcome) {
        Err(refusal) => assert!(rt; refusal == EnvelopeRefusal::NotXml),
        Ok(_) => assert!(rt; false),
    }
    Ok(())
}

#[test]
fn answers_are_written_within_their_room(rt: HostRuntime) -> Result<(), Fail> {
    let outcome = Outcome {
        message: Text::new(rt.alloc(), "7")?,
        operation: Operation::ReadResult,
        sourced_id: Text::new(rt.alloc(), "9 ")?,
        score_text: Text::empty(rt.alloc()),
    };
    let mut out = Bytes::new(rt.alloc());
    let room = answer_room(&outcome);
    assert!(rt; room < 4096);
    out.reserve(room)?;
    let before = out.spare();
    write_answer(&outcome, Told::UnknownId, &mut out);
    assert!(rt; out.spare() < before);
    let answer =
        "<?xml version=\"1.0\" encoding=\"UTF-8\"?><imsx_POXEnvelopeResponse xmlns=\"http://www.imsglobal.org/services/ltiv1p1/xsd/imsoms_v1p0\"><imsx_POXHeader><imsx_POXResponseHeaderInfo><imsx_version>V1.0</imsx_version><imsx_messageIdentifier>7</imsx_messageIdentifier><imsx_statusInfo><imsx_codeMajor>failure</imsx_codeMajor><imsx_severity>error</imsx_severity><imsx_description>Unknown sourcedId 9&#32;</imsx_description><imsx_messageRefIdentifier>7</imsx_messageRefIdentifier><imsx_operationRefIdentifier>readResult</imsx_operationRefIdentifier></imsx_statusInfo></imsx_POXResponseHeaderInfo></imsx_POXHeader><imsx_POXBody><readResultResponse/></imsx_POXBody></imsx_POXEnvelopeResponse>";
    assert!(rt; out.get() == answer.as_bytes());
    Ok(())
}

// Whether the answer to the outcome of message 999999123 is this text.
fn is_answer(
    alloc: Global,
    operation: Operation,
    id: &str,
    told: Told,
    text: &str,
) -> Result<bool, Fail>
    requires { Belongs operation told }
{
    let outcome = Outcome {
        message: Text::new(alloc, "999999123")?,
        operation,
        sourced_id: Text::new(alloc, id)?,
        score_text: Text::empty(alloc),
    };
    let mut out = Bytes::new(alloc);
    let room = answer_room(&outcome);
    if room > 4096 {
        return Ok(false);
    }
    out.reserve(room)?;
    write_answer(&outcome, told, &mut out);
    Ok(out.get() == text.as_bytes())
}

#[test]
fn each_answer_is_its_text(rt: HostRuntime) -> Result<(), Fail> {
    let Some(score) = Score::read("0.92") else {
        assert!(rt; false);
        return Ok(());
    };
    assert!(rt;
        is_answer(
            rt.alloc(),
            Operation::ReplaceResult,
            "3124567",
            Told::Replaced(score),
            "<?xml version=\"1.0\" encoding=\"UTF-8\"?><imsx_POXEnvelopeResponse xmlns=\"http://www.imsglobal.org/services/ltiv1p1/xsd/imsoms_v1p0\"><imsx_POXHeader><imsx_POXResponseHeaderInfo><imsx_version>V1.0</imsx_version><imsx_messageIdentifier>999999123</imsx_messageIdentifier><imsx_statusInfo><imsx_codeMajor>success</imsx_codeMajor><imsx_severity>status</imsx_severity><imsx_description>Score for 3124567 is now 0.92</imsx_description><imsx_messageRefIdentifier>999999123</imsx_messageRefIdentifier><imsx_operationRefIdentifier>replaceResult</imsx_operationRefIdentifier></imsx_statusInfo></imsx_POXResponseHeaderInfo></imsx_POXHeader><imsx_POXBody><replaceResultResponse/></imsx_POXBody></imsx_POXEnvelopeResponse>"
        )?
    );
    assert!(rt;
        is_answer(
            rt.alloc(),
            Operation::ReadResult,
            "3124567",
            Told::ReadScore(score),
            "<?xml version=\"1.0\" encoding=\"UTF-8\"?><imsx_POXEnvelopeResponse xmlns=\"http://www.imsglobal.org/services/ltiv1p1/xsd/imsoms_v1p0\"><imsx_POXHeader><imsx_POXResponseHeaderInfo><imsx_version>V1.0</imsx_version><imsx_messageIdentifier>999999123</imsx_messageIdentifier><imsx_statusInfo><imsx_codeMajor>success</imsx_codeMajor><imsx_severity>status</imsx_severity><imsx_description>Score for 3124567 is 0.92</imsx_description><imsx_messageRefIdentifier>999999123</imsx_messageRefIdentifier><imsx_operationRefIdentifier>readResult</imsx_operationRefIdentifier></imsx_statusInfo></imsx_POXResponseHeaderInfo></imsx_POXHeader><imsx_POXBody><readResultResponse><result><resultScore><language>en</language><textString>0.92</textString></resultScore></result></readResultResponse></imsx_POXBody></imsx_POXEnvelopeResponse>"
        )?
    );
    assert!(rt;
        is_answer(
            rt.alloc(),
            Operation::ReadResult,
            "3124567",
            Told::ReadNothing,
            "<?xml version=\"1.0\" encoding=\"UTF-8\"?><imsx_POXEnvelopeResponse xmlns=\"http://www.imsglobal.org/services/ltiv1p1/xsd/imsoms_v1p0\"><imsx_POXHeader><imsx_POXResponseHeaderInfo><imsx_version>V1.0</imsx_version><imsx_messageIdentifier>999999123</imsx_messageIdentifier><imsx_statusInfo><imsx_codeMajor>success</imsx_codeMajor><imsx_severity>status</imsx_severity><imsx_description>No score for 3124567</imsx_description><imsx_messageRefIdentifier>999999123</imsx_messageRefIdentifier><imsx_operationRefIdentifier>readResult</imsx_operationRefIdentifier></imsx_statusInfo></imsx_POXResponseHeaderInfo></imsx_POXHeader><imsx_POXBody><readResultResponse><result><resultScore><language>en</language><textString></textString></resultScore></result></readResultResponse></imsx_POXBody></imsx_POXEnvelopeResponse>"
        )?
    );
    assert!(rt;
        is_answer(
            rt.alloc(),
            Operation::DeleteResult,
            "3124567",
            Told::Deleted,
            "<?xml version=\"1.0\" encoding=\"UTF-8\"?><imsx_POXEnvelopeResponse xmlns=\"http://www.imsglobal.org/services/ltiv1p1/xsd/imsoms_v1p0\"><imsx_POXHeader><imsx_POXResponseHeaderInfo><imsx_version>V1.0</imsx_version><imsx_messageIdentifier>999999123</imsx_messageIdentifier><imsx_statusInfo><imsx_codeMajor>success</imsx_codeMajor><imsx_severity>status</imsx_severity><imsx_description>Score for 3124567 is deleted</imsx_description><imsx_messageRefIdentifier>999999123</imsx_messageRefIdentifier><imsx_operationRefIdentifier>deleteResult</imsx_operationRefIdentifier></imsx_statusInfo></imsx_POXResponseHeaderInfo></imsx_POXHeader><imsx_POXBody><deleteResultResponse/></imsx_POXBody></imsx_POXEnvelopeResponse>"
        )?
    );
    assert!(rt;
        is_answer(
            rt.alloc(),
            Operation::DeleteResult,
            "9",
            Told::UnknownId,
            "<?xml version=\"1.0\" encoding=\"UTF-8\"?><imsx_POXEnvelopeResponse xmlns=\"http://www.imsglobal.org/services/ltiv1p1/xsd/imsoms_v1p0\"><imsx_POXHeader><imsx_POXResponseHeaderInfo><imsx_version>V1.0</imsx_version><imsx_messageIdentifier>999999123</imsx_messageIdentifier><imsx_statusInfo><imsx_codeMajor>failure</imsx_codeMajor><imsx_severity>error</imsx_severity><imsx_description>Unknown sourcedId 9</imsx_description><imsx_messageRefIdentifier>999999123</imsx_messageRefIdentifier><imsx_operationRefIdentifier>deleteResult</imsx_operationRefIdentifier></imsx_statusInfo></imsx_POXResponseHeaderInfo></imsx_POXHeader><imsx_POXBody><deleteResultResponse/></imsx_POXBody></imsx_POXEnvelopeResponse>"
        )?
    );
    assert!(rt;
        is_answer(
            rt.alloc(),
            Operation::ReplaceResult,
            "3124567",
            Told::BadScore,
            "<?xml version=\"1.0\" encoding=\"UTF-8\"?><imsx_POXEnvelopeResponse xmlns=\"http://www.imsglobal.org/services/ltiv1p1/xsd/imsoms_v1p0\"><imsx_POXHeader><imsx_POXResponseHeaderInfo><imsx_version>V1.0</imsx_version><imsx_messageIdentifier>999999123</imsx_messageIdentifier><imsx_statusInfo><imsx_codeMajor>failure</imsx_codeMajor><imsx_severity>error</imsx_severity><imsx_description>Score for 3124567 is no number from 0 to 1</imsx_description><imsx_messageRefIdentifier>999999123</imsx_messageRefIdentifier><imsx_operationRefIdentifier>replaceResult</imsx_operationRefIdentifier></imsx_statusInfo></imsx_POXResponseHeaderInfo></imsx_POXHeader><imsx_POXBody><replaceResultResponse/></imsx_POXBody></imsx_POXEnvelopeResponse>"
        )?
    );
    Ok(())
}

// Whether the bytes are an answer with these texts.
fn is_read(alloc: Global, text: &str, major: Major, texts: [&str; 6]) -> bool {
    match read_answer(alloc, text.as_bytes()) {
        Ok(answer) => {
            answer.major == major
                && answer.message.get() == texts[0]
                && answer.severity.get() == texts[1]
                && answer.description.get() == texts[2]
                && answer.message_ref.get() == texts[3]
                && answer.operation_ref.get() == texts[4]
                && answer.score_text.get() == texts[5]
        }
        Err(_) => false,
    }
}

#[test]
fn spellings_of_answers_are_read(rt: HostRuntime) {
    let spellings = [
        (
            "<?xml version=\"1.0\" encoding=\"UTF-8\"?><imsx_POXEnvelopeResponse xmlns=\"http://www.imsglobal.org/services/ltiv1p1/xsd/imsoms_v1p0\"><imsx_POXHeader><imsx_POXResponseHeaderInfo><imsx_version>V1.0</imsx_version><imsx_messageIdentifier>4560</imsx_messageIdentifier><imsx_statusInfo><imsx_codeMajor>success</imsx_codeMajor><imsx_severity>status</imsx_severity><imsx_description>Score for 3124567 is 0.92</imsx_description><imsx_messageRefIdentifier>999999123</imsx_messageRefIdentifier><imsx_operationRefIdentifier>readResult</imsx_operationRefIdentifier></imsx_statusInfo></imsx_POXResponseHeaderInfo></imsx_POXHeader><imsx_POXBody><readResultResponse><result><resultScore><language>en</language><textString>0.92</textString></resultScore></result></readResultResponse></imsx_POXBody></imsx_POXEnvelopeResponse>",
            Major::Success,
            [
                "4560",
                "status",
                "Score for 3124567 is 0.92",
                "999999123",
                "readResult",
                "0.92",
            ],
        ),
        (
            "<imsx_POXEnvelopeResponse xmlns=''><imsx_POXHeader><imsx_POXResponseHeaderInfo><imsx_version>V1.0</imsx_version><imsx_messageIdentifier>7</imsx_messageIdentifier><imsx_statusInfo><imsx_codeMajor>processing</imsx_codeMajor></imsx_statusInfo></imsx_POXResponseHeaderInfo></imsx_POXHeader><imsx_POXBody/></imsx_POXEnvelopeResponse>\n",
            Major::Processing,
            ["7", "", "", "", "", ""],
        ),
        (
            "<imsx_POXEnvelopeResponse xmlns=''><imsx_POXHeader><imsx_POXResponseHeaderInfo><imsx_version>V1.0</imsx_version><imsx_messageIdentifier>7</imsx_messageIdentifier><imsx_statusInfo><imsx_codeMajor> failure </imsx_codeMajor> <imsx_description>No</imsx_description> <imsx_operationRefIdentifier/></imsx_statusInfo></imsx_POXResponseHeaderInfo></imsx_POXHeader><imsx_POXBody> <replaceResultResponse /> </imsx_POXBody></imsx_POXEnvelopeResponse>",
            Major::Failure,
            ["7", "", "No", "", "", ""],
        ),
        (
            "<imsx_POXEnvelopeResponse xmlns=''><imsx_POXHeader><imsx_POXResponseHeaderInfo><imsx_version>V1.0</imsx_version><imsx_messageIdentifier>7</imsx_messageIdentifier><imsx_statusInfo><imsx_codeMajor>unsupported</imsx_codeMajor></imsx_statusInfo></imsx_POXResponseHeaderInfo></imsx_POXHeader><imsx_POXBody><x_1></x_1 ></imsx_POXBody ></imsx_POXEnvelopeResponse>",
            Major::Unsupported,
            ["7", "", "", "", "", ""],
        ),
        (
            "<imsx_POXEnvelopeResponse xmlns=''><imsx_POXHeader><imsx_POXResponseHeaderInfo><imsx_version>V1.0</imsx_version><imsx_messageIdentifier>7</imsx_messageIdentifier><imsx_statusInfo><imsx_codeMajor>success</imsx_codeMajor></imsx_statusInfo></imsx_POXResponseHeaderInfo></imsx_POXHeader><imsx_POXBody ></imsx_POXBody></imsx_POXEnvelopeResponse>",
            Major::Success,
            ["7", "", "", "", "", ""],
        ),
        (
            "<imsx_POXEnvelopeResponse xmlns=''><imsx_POXHeader><imsx_POXResponseHeaderInfo><imsx_version>V1.0</imsx_version><imsx_messageIdentifier>7</imsx_messageIdentifier><imsx_statusInfo><imsx_codeMajor>success</imsx_codeMajor></imsx_statusInfo></imsx_POXResponseHeaderInfo></imsx_POXHeader><imsx_POXBody><readResultResponse> </readResultResponse></imsx_POXBody></imsx_POXEnvelopeResponse>",
            Major::Success,
            ["7", "", "", "", "", ""],
        ),
        (
            "<imsx_POXEnvelopeResponse xmlns=''><imsx_POXHeader><imsx_POXResponseHeaderInfo><imsx_version>V1.0</imsx_version><imsx_messageIdentifier>7</imsx_messageIdentifier><imsx_statusInfo><imsx_codeMajor>success</imsx_codeMajor></imsx_statusInfo></imsx_POXResponseHeaderInfo></imsx_POXHeader><imsx_POXBody><readResultResponse><result> <resultScore><textString> 1 </textString></resultScore></result></readResultResponse></imsx_POXBody></imsx_POXEnvelopeResponse>",
            Major::Success,
            ["7", "", "", "", "", "1"],
        ),
    ];
    for (text, major, texts) in spellings {
        assert!(rt; is_read(rt.alloc(), text, major, texts));
    }
}

// Whether the text is bad where so many of its bytes are left.
fn is_bad_before(alloc: Global, text: &str, left: usize) -> bool {
    match read_answer(alloc, text.as_bytes()) {
        Err(EnvelopeFault::BadEnvelope { at }) => {
            left <= text.len() && at == (text.len() - left) as u64
        }
        _ => false,
    }
}

#[test]
fn bad_answers_are_refused_at_their_place(rt: HostRuntime) {
    let texts = [
        ("<imsx_POXEnvelopeRequest", 5),
        (
            "<imsx_POXEnvelopeResponse xmlns=''><imsx_POXHeader><imsx_POXResponseHeaderInfo><imsx_version>V1.0</imsx_version><imsx_messageIdentifier>7</imsx_messageIdentifier><imsx_statusInfo><imsx_codeMajor>succes</imsx_codeMajor>",
            17,
        ),
        (
            "<imsx_POXEnvelopeResponse xmlns=''><imsx_POXHeader><imsx_POXResponseHeaderInfo><imsx_version>V1.0</imsx_version><imsx_messageIdentifier>7</imsx_messageIdentifier><imsx_statusInfo><imsx_codeMajor>success</imsx_codeMajor><imsx_description/><imsx_severity/>",
            10,
        ),
        (
            "<imsx_POXEnvelopeResponse xmlns=''><imsx_POXHeader><imsx_POXResponseHeaderInfo><imsx_version>V1.0</imsx_version><imsx_messageIdentifier>7</imsx_messageIdentifier><imsx_statusInfo><imsx_codeMajor>success</imsx_codeMajor></imsx_statusInfo></imsx_POXResponseHeaderInfo></imsx_POXHeader><imsx_POXBody><a/><b/>",
            3,
        ),
        (
            "<imsx_POXEnvelopeResponse xmlns=''><imsx_POXHeader><imsx_POXResponseHeaderInfo><imsx_version>V1.0</imsx_version><imsx_messageIdentifier>7</imsx_messageIdentifier><imsx_statusInfo><imsx_codeMajor>success</imsx_codeMajor></imsx_statusInfo></imsx_POXResponseHeaderInfo></imsx_POXHeader><imsx_POXBody><a></b>",
            2,
        ),
        (
            "<imsx_POXEnvelopeResponse xmlns=''><imsx_POXHeader><imsx_POXResponseHeaderInfo><imsx_version>V1.0</imsx_version><imsx_messageIdentifier>7</imsx_messageIdentifier><imsx_statusInfo><imsx_codeMajor>success</imsx_codeMajor></imsx_statusInfo></imsx_POXResponseHeaderInfo></imsx_POXHeader><imsx_POXBody><1/>",
            3,
        ),
        (
            "<imsx_POXEnvelopeResponse xmlns=''><imsx_POXHeader><imsx_POXResponseHeaderInfo><imsx_version>V1.0</imsx_version><imsx_messageIdentifier>7</imsx_messageIdentifier><imsx_statusInfo><imsx_codeMajor>success</imsx_codeMajor></imsx_statusInfo></imsx_POXResponseHeaderInfo></imsx_POXHeader><imsx_POXBody><readResultResponses><result>",
            7,
        ),
        (
            "<imsx_POXEnvelopeResponse xmlns=''><imsx_POXHeader><imsx_POXResponseHeaderInfo><imsx_version>V1.0</imsx_version><imsx_messageIdentifier>7</imsx_messageIdentifier><imsx_statusInfo><imsx_codeMajor>success</imsx_codeMajor></imsx_statusInfo></imsx_POXResponseHeaderInfo></imsx_POXHeader><imsx_POXBody/></imsx_POXEnvelopeResponse>x",
            1,
        ),
        (
            "<imsx_POXEnvelopeResponse xmlns=''><imsx_POXHeader><imsx_POXResponseHeaderInfo><imsx_version>V1.0</imsx_version><imsx_messageIdentifier>7</imsx_messageIdentifier><imsx_statusInfo><imsx_codeMajor>success</imsx_codeMajor></imsx_statusInfo></imsx_POXResponseHeaderInfo></imsx_POXHeader><imsx_POXBody/></imsx_POXEnvelopeResponse",
            0,
        ),
    ];
    for (text, left) in texts {
        assert!(rt; is_bad_before(rt.alloc(), text, left));
    }
}
