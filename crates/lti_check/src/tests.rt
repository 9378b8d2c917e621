//! Verdicts of forms, over links in memory. The signatures were made with Python's hmac.
use crate::check;
use lti_outside::{Bytes, Limits, MemoryLink, MemorySink, MemorySource};
use lti_words::{Command, Status, read_command};
use std::alloc::Global;
use std::process::Abort;
use std::test::Fail;

const URL: &str = "https://tool.example/lti/launch";

const UNSIGNED: &str =
    "oauth_consumer_key=12345&oauth_signature_method=HMAC-SHA1&oauth_timestamp=1400000000&oauth_nonce=";

// A form of URL, signed, with this nonce.
fn signed(alloc: Global, nonce: &str, signature: &str) -> Result<String, Fail> {
    Ok(format!(in alloc; "{UNSIGNED}{nonce}&oauth_signature={signature}")?)
}

// Three such forms.
fn first(alloc: Global) -> Result<String, Fail> {
    signed(alloc, "n1", "47WJQBrKiyEoII9HaNikgJMo7v8%3D")
}

fn second(alloc: Global) -> Result<String, Fail> {
    signed(alloc, "n2", "vPm2CEMAuAjQ5o7WaPSBicc6ero%3D")
}

fn third(alloc: Global) -> Result<String, Fail> {
    signed(alloc, "n3", "NU7%2FVlBkXDFBHIb9Kx31cCzQwWI%3D")
}

// A link that gives the text in pieces of this size, and whose calls of these numbers fail.
fn link(
    alloc: Global,
    text: &[u8],
    size: usize,
    reads: &[u64],
    writes: &[u64],
) -> Result<MemoryLink, Fail> {
    let mut pieces = Vec::new(alloc);
    for piece in text.chunks(size.max(1)) {
        let mut bytes = Bytes::new(alloc);
        bytes.push(piece)?;
        pieces.push(bytes)?;
    }
    Ok(MemoryLink::new(
        MemorySource::new(pieces, reads.to_vec(alloc)?),
        MemorySink::new(alloc, writes.to_vec(alloc)?),
    ))
}

// The words of a check of forms that are posted to this URL.
fn check_words(alloc: Global, url: &str) -> Result<Vec<String>, Fail> {
    let mut words = Vec::new(alloc);
    for word in ["check", url, "12345", "secret", "1400000000"] {
        words.push(String::from_str(alloc, word)?)?;
    }
    Ok(words)
}

// How a check by these words ends.
fn run_words(
    rt: &impl Abort,
    alloc: Global,
    asked: &[String],
    ends: &mut MemoryLink,
    limits: &Limits,
) -> Result<Status, Fail> {
    assert!(rt; limits.sound());
    match read_command(alloc, asked)? {
        Some(Command::Check(asked)) => Ok(check(alloc, &asked, ends, limits)),
        _ => Ok(Status::Usage),
    }
}

#[test]
fn verdicts_in_any_pieces(rt: HostRuntime) -> Result<(), Fail> {
    let alloc = rt.alloc();
    let asked = check_words(alloc, URL)?;
    let one = first(alloc)?;
    let text = format!(in alloc; "a=%FF\n{one}\r\n{one}\n\n{UNSIGNED}n1&oauth_signature=x")?;
    let want = "bad form\naccepted\nused\nbad form\nbad signature\n";
    for size in [1, 2, 7, 150, 100_000] {
        let mut ends = link(alloc, text.as_bytes(), size, &[], &[])?;
        let status = run_words(&rt, alloc, &asked, &mut ends, &Limits::usual())?;
        assert_eq!(rt; status, Status::Done, "at {size}");
        assert_eq!(rt; ends.given(), want.as_bytes(), "at {size}");
    }
    Ok(())
}

#[test]
fn parameters_of_the_query_are_signed(rt: HostRuntime) -> Result<(), Fail> {
    let alloc = rt.alloc();
    let asked = check_words(alloc, "HTTP://Tool.Example:8080/a%20b?course=7&z")?;
    let line =
        "a=1&oauth_consumer_key=12345&oauth_signature_method=HMAC-SHA1&oauth_timestamp=1400000000&oauth_nonce=n1&oauth_signature=4BPPMH2g3pF4H0%2BPh01xVulC1zE%3D";
    let mut ends = link(alloc, line.as_bytes(), 64, &[], &[])?;
    assert_eq!(rt;
        run_words(&rt, alloc, &asked, &mut ends, &Limits::usual())?,
        Status::Done
    );
    assert_eq!(rt; ends.given(), b"accepted\n".as_slice());
    Ok(())
}

#[test]
fn how_a_run_ends(rt: HostRuntime) -> Result<(), Fail> {
    let alloc = rt.alloc();
    let asked = check_words(alloc, URL)?;
    let mut small = Limits::usual();
    small.body = 5;
    small.calls = 2;
    let cases: [(&[u8], &[u64], &[u64], Status, &[u8]); 11] = [
        (b"", &[], &[], Status::Done, b""),
        (b"a=%FF\n", &[0], &[], Status::ReadFault, b""),
        (b"a=%FF\n", &[2], &[], Status::ReadFault, b"bad form\n"),
        (b"a=%FF\n", &[], &[0], Status::WriteFault, b""),
        (
            b"a=%FF\na=1\n",
            &[],
            &[],
            Status::Done,
            b"bad form\nbad form\n",
        ),
        (
            b"a=%FF\na=1",
            &[],
            &[],
            Status::Done,
            b"bad form\nbad form\n",
        ),
        (b"a=%FF\na=%FFF\n", &[], &[], Status::Refused, b"bad form\n"),
        (b"a=%FF\na=%FFF", &[], &[], Status::Refused, b"bad form\n"),
        (
            b"a=%FF\r\na=%FF\r\n",
            &[],
            &[],
            Status::Done,
            b"bad form\nbad form\n",
        ),
        (
            b"a=%FF\na=%FF\n\n",
            &[],
            &[],
            Status::Refused,
            b"bad form\nbad form\n",
        ),
        (
            b"a=%FF\na=%FF\nb",
            &[],
            &[1],
            Status::WriteFault,
            b"bad form\n",
        ),
    ];
    for (text, reads, writes, want, given) in cases {
        let mut ends = link(alloc, text, 3, reads, writes)?;
        let status = run_words(&rt, alloc, &asked, &mut ends, &small)?;
        assert_eq!(rt; status, want, "at {text:?}");
        assert_eq!(rt; ends.given(), given, "at {text:?}");
    }
    Ok(())
}

#[test]
fn a_full_window(rt: HostRuntime) -> Result<(), Fail> {
    let alloc = rt.alloc();
    let asked = check_words(alloc, URL)?;
    let mut narrow = Limits::usual();
    narrow.window = 2;
    let one = first(alloc)?;
    let two = second(alloc)?;
    let three = third(alloc)?;
    let text = format!(in alloc; "{one}\n{two}\n{three}\n{one}\n")?;
    let mut ends = link(alloc, text.as_bytes(), 4_096, &[], &[])?;
    assert_eq!(rt;
        run_words(&rt, alloc, &asked, &mut ends, &narrow)?,
        Status::Done
    );
    assert_eq!(rt;
        ends.given(),
        b"accepted\naccepted\nwindow full\nused\n".as_slice()
    );
    Ok(())
}
