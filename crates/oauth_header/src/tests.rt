//! Published headers, a table of good and bad items, and a header written and read back.
ghost use Rattle.std.specs.Prelude.{◌≡◌};
ghost use Rattle.oauth_header.specs.Written as spec;

use crate::{HeaderFault, read, write};
use lti_outside::{NoMemory, Pair, Pairs, Text};
use std::alloc::Global;
use std::test::Fail;

fn list(alloc: Global, texts: &[(&str, &str)]) -> Result<Pairs, NoMemory> {
    let mut made = Pairs::new(alloc);
    for (name, value) in texts {
        made.push(Pair {
            name: Text::new(alloc, name)?,
            value: Text::new(alloc, value)?,
        })?;
    }
    Ok(made)
}

// The names and values, each with an end of line behind it.
fn shown(alloc: Global, pairs: &Pairs) -> Result<Text, NoMemory> {
    let mut text = Text::empty(alloc);
    for pair in pairs.as_slice() {
        text.push(pair.name.get())?;
        text.push("\n")?;
        text.push(pair.value.get())?;
        text.push("\n")?;
    }
    Ok(text)
}

fn can_stand(pair: &Pair) -> bool
    ensures { result ≡ spec.can_stand pair.now }
{
    !pair.name.get().is_empty() && pair.name.get() != "realm"
}

fn can_be_written(pairs: &Pairs) -> bool
    ensures { result ≡ spec.can_be_written pairs.now }
{
    pairs.as_slice().iter().all(|pair| can_stand(pair))
}

// The header's value of the pairs, or none where they can't be written.
fn written(alloc: Global, pairs: &Pairs) -> Result<Option<Text>, NoMemory> {
    if !can_be_written(pairs) {
        return Ok(None);
    }
    let text = write(alloc, pairs)?;
    Ok(Some(text))
}

#[test]
fn reads_the_scheme(rt: HostRuntime) -> Result<(), Fail> {
    for (value, want) in [
        ("", ""),
        ("OAuth", ""),
        ("OAuth ", ""),
        ("OAuth\ta=\"1\"", "a\n1\n"),
        ("oAUTH a=\"1\"", "a\n1\n"),
        ("OAuthx a=\"1\"", ""),
        ("OAuth,a=\"1\"", ""),
        ("OAut", ""),
        ("Basic x", ""),
        (" OAuth a=\"1\"", ""),
    ] {
        let pairs = read(rt.alloc(), value)?;
        assert_eq!(rt; shown(rt.alloc(), &pairs)?.get(), want);
    }
    Ok(())
}

// The first is the header of RFC 5849, section 3.1, cut short; the second that of section 3.4.1.1.
#[test]
fn reads_published_headers(rt: HostRuntime) -> Result<(), Fail> {
    for (value, want) in [
        (
            "OAuth realm=\"Example\", oauth_consumer_key=\"9djdj82h48djs9d2\",oauth_nonce=\"7d8f3e4a\" ,",
            "oauth_consumer_key\n9djdj82h48djs9d2\noauth_nonce\n7d8f3e4a\n",
        ),
        (
            "OAuth realm=\"Example\",\t oauth_consumer_key=\"9djdj82h48djs9d2\",\t oauth_token=\"kkk9d7dh3k39sjv7\",\
            \t oauth_signature_method=\"HMAC-SHA1\",\t oauth_timestamp=\"137131201\",\t oauth_nonce=\"7d8f3e4a\",\
            \t oauth_signature=\"djosJKDKJSD8743243%2Fjdk33klY%3D\"",
            "oauth_consumer_key\n9djdj82h48djs9d2\noauth_token\nkkk9d7dh3k39sjv7\noauth_signature_method\nHMAC-SHA1\n\
            oauth_timestamp\n137131201\noauth_nonce\n7d8f3e4a\noauth_signature\ndjosJKDKJSD8743243/jdk33klY=\n",
        ),
    ] {
        let pairs = read(rt.alloc(), value)?;
        assert_eq!(rt; shown(rt.alloc(), &pairs)?.get(), want);
    }
    Ok(())
}

#[test]
fn reads_good_items(rt: HostRuntime) -> Result<(), Fail> {
    for (value, want) in [
        ("OAuth a=\"\"", "a\n\n"),
        ("OAuth a=\"1,2\"", "a\n1,2\n"),
        ("OAuth a=\"1,2\",b=\"3\"", "a\n1,2\nb\n3\n"),
        ("OAuth a=\"1\",a=\"1\"", "a\n1\na\n1\n"),
        ("OAuth a=\" =x \"", "a\n =x \n"),
        ("OAuth %41%7e=\"%2c%2C\"", "A~\n,,\n"),
        ("OAuth a=\"%E2%98%83\"", "a\n\u{2603}\n"),
        ("OAuth a=\"+\"", "a\n+\n"),
        ("OAuth realm=\"x\", realm=\"y\"", ""),
        ("OAuth realm=\"100%\", a=\"1\"", "a\n1\n"),
        ("OAuth realm=\"%FF%zz\"", ""),
        ("OAuth re%61lm=\"x\"", ""),
        ("OAuth Realm=\"x\"", "Realm\nx\n"),
        ("OAuth \t,, \t,", ""),
    ] {
        let pairs = read(rt.alloc(), value)?;
        assert_eq!(rt; shown(rt.alloc(), &pairs)?.get(), want);
    }
    Ok(())
}

#[test]
fn refuses_the_first_bad_item_at_its_place(rt: HostRuntime) -> Result<(), Fail> {
    for (value, place) in [
        ("OAuth a=\"1\", b=2", 13),
        ("OAuth a", 6),
        ("OAuth a=", 6),
        ("OAuth a=1", 6),
        ("OAuth a=\"", 6),
        ("OAuth a=\"1", 6),
        ("OAuth a=1\"", 6),
        ("OAuth =\"1\"", 6),
        ("OAuth \t a b=\"1\"", 8),
        ("OAuth a =\"1\"", 6),
        ("OAuth a= \"1\"", 6),
        ("OAuth a=\"1\" b=\"2\"", 6),
        ("OAuth a=\"1\"x", 6),
        ("OAuth a=\"1\"2\"", 6),
        ("OAuth a=\"\\\"", 6),
        ("OAuth a=\"%\"", 6),
        ("OAuth a=\"%4\"", 6),
        ("OAuth a=\"%zz\"", 6),
        ("OAuth a=\"%FF\"", 6),
        ("OAuth a%=\"1\"", 6),
        ("OAuth %FF=\"1\"", 6),
        ("OAuth \u{e9}=\"1\"", 6),
        ("OAuth a=\"\u{e9}\"", 6),
        ("OAuth a=\"\t\"", 6),
        ("OAuth a=\"\u{7f}\"", 6),
        ("OAuth a=\"1\",b=\"2,c=\"3\"", 12),
        ("OAuth realm=\"\\\"", 6),
        ("OAuth realm=\"x\", Realm=\"%\"", 17),
        ("OAuth realm=x", 6),
        ("OAuth a,b", 6),
    ] {
        let fault = read(rt.alloc(), value).err();
        assert_eq!(rt; fault, Some(HeaderFault::BadAuthorization { at: place }));
    }
    Ok(())
}

#[test]
fn skips_empty_items(rt: HostRuntime) -> Result<(), Fail> {
    let mut value = String::from_str(rt.alloc(), "OAuth")?;
    for _ in 0..10_000 {
        value.push_str(" ,")?;
    }
    let pairs = read(rt.alloc(), value.as_str())?;
    assert_eq!(rt; pairs.len(), 0);
    value.push_str("\"")?;
    assert_eq!(rt;
        read(rt.alloc(), value.as_str()).err(),
        Some(HeaderFault::BadAuthorization { at: 20_005 })
    );
    Ok(())
}

#[test]
fn writes_and_reads_back(rt: HostRuntime) -> Result<(), Fail> {
    let texts = [
        ("oauth_consumer_key", "9djdj82h48djs9d2"),
        ("a b", "1,\"2\"%"),
        ("\u{2603}", ""),
    ];
    let pairs = list(rt.alloc(), &texts)?;
    let text = written(rt.alloc(), &pairs)?.unwrap_or(Text::empty(rt.alloc()));
    assert_eq!(rt;
        text.get(),
        "OAuth oauth_consumer_key=\"9djdj82h48djs9d2\", a%20b=\"1%2C%222%22%25\", %E2%98%83=\"\""
    );
    let back = read(rt.alloc(), text.get())?;
    assert!(rt; back.as_slice() == pairs.as_slice());
    let none = written(rt.alloc(), &Pairs::new(rt.alloc()))?.unwrap_or(Text::empty(rt.alloc()));
    assert_eq!(rt; none.get(), "OAuth");
    Ok(())
}
