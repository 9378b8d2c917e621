//! Settings with and without a reading, in pieces, and a source that fails.
use crate::{NoSettings, Settings, read_settings};
use lti_outside::{Bytes, MemorySource};
use oauth_text::Scheme;
use std::alloc::Global;
use std::process::Abort;
use std::test::Fail;

// A source of these bytes in pieces of so many, whose calls with these numbers fail.
fn source(
    alloc: Global,
    bytes: &[u8],
    piece_len: usize,
    failing: &[u64],
) -> Result<MemorySource, Fail> {
    let mut pieces = Vec::new(alloc);
    for piece in bytes.chunks(piece_len.max(1)) {
        let mut held = Bytes::new(alloc);
        held.push(piece)?;
        pieces.push(held)?;
    }
    Ok(MemorySource::new(pieces, failing.to_vec(alloc)?))
}

// Whether the text has a reading, read in pieces of 7 bytes.
fn has_reading(alloc: Global, text: &str) -> Result<bool, Fail> {
    let mut source = source(alloc, text.as_bytes(), 7, &[])?;
    Ok(read_settings(alloc, &mut source).is_ok())
}

#[test]
fn settings_with_and_without_a_reading(rt: HostRuntime) -> Result<(), Fail> {
    let alloc = rt.alloc();
    for (text, want) in [
        (
            "{\"scheme\":\"https\",\"keys\":[{\"key\":\"12345\",\"secret\":\"secret\"}]}",
            true,
        ),
        (
            " {\"other\":1,\"keys\":[{\"key\":\"a\",\"secret\":\"\"}],\"scheme\":\"http\"}\n",
            true,
        ),
        (
            "{\"scheme\":\"ftp\",\"keys\":[{\"key\":\"a\",\"secret\":\"\"}]}",
            false,
        ),
        ("{\"scheme\":\"http\",\"keys\":[]}", false),
        (
            "{\"scheme\":\"http\",\"keys\":[{\"key\":\"a\",\"secret\":\"\"},{\"key\":\"a\",\"secret\":\"\"}]}",
            false,
        ),
        ("{\"scheme\":\"http\",\"keys\":[{\"key\":\"a\"}]}", false),
        (
            "{\"scheme\":\"http\",\"keys\":[{\"key\":1,\"secret\":\"\"}]}",
            false,
        ),
        (
            "{\"scheme\":\"http\",\"keys\":[{\"key\":\"\",\"secret\":\"\"}]}",
            false,
        ),
        (
            "{\"scheme\":\"http\",\"keys\":[{\"key\":\"0000000000000000000000000000000000000000000000000000000000000000000000000000000000000000000000000000000000000000000000000000000000000000000000000000000000000000000000000000000000000000000000000000000000000000000000000000000000000000000000000000000000000001\",\"secret\":\"\"}]}",
            false,
        ),
        (
            "[{\"scheme\":\"https\",\"keys\":[{\"key\":\"12345\",\"secret\":\"secret\"}]}]",
            false,
        ),
        (
            "{\"scheme\":\"https\",\"keys\":[{\"key\":\"12345\",\"secret\":\"secret\"}]},",
            false,
        ),
        ("{}", false),
        ("", false),
    ] {
        assert_eq!(rt; has_reading(alloc, text)?, want, "at {text}");
    }
    Ok(())
}

#[test]
fn the_parts_of_settings(rt: HostRuntime) -> Result<(), Fail> {
    let alloc = rt.alloc();
    let text =
        b"{\"scheme\":\"http\",\"keys\":[{\"key\":\"12345\",\"secret\":\"secret\"},{\"key\":\"b\",\"secret\":\"\"}]}";
    match Settings::read(alloc, text) {
        Ok(settings) => {
            assert!(rt; settings.scheme == Scheme::Http);
            assert!(rt; settings.keys.secret("12345") == Some("secret"));
            assert!(rt; settings.keys.secret("b") == Some(""));
            assert!(rt; settings.keys.secret("c").is_none());
        }
        Err(_) => assert!(rt; false),
    }
    Ok(())
}

#[test]
fn a_source_that_gives_none(rt: HostRuntime) -> Result<(), Fail> {
    let alloc = rt.alloc();
    let spaces = vec![in alloc; b' '; 1_048_577]?;
    let mut over = source(alloc, &spaces, 65_536, &[])?;
    assert!(rt; matches!(&read_settings(alloc, &mut over), Err(NoSettings::NoReading)));
    let mut failing = source(alloc, b"{}", 1, &[1])?;
    assert!(rt;
        matches!(
            &read_settings(alloc, &mut failing),
            Err(NoSettings::ReadFault)
        )
    );
    Ok(())
}
