//! Published examples, and one case for each refusal.
use crate::{
    FormFault, Host, HostFault, Scheme, Url, UrlFault, escape, form_text, is_unreserved,
    normalised, ordered, pairs,
};
use lti_outside::{NoMemory, Pair, Pairs, Text};
use std::alloc::Global;
use std::test::Fail;

fn pair(alloc: Global, name: &str, value: &str) -> Result<Pair, NoMemory> {
    Ok(Pair {
        name: Text::new(alloc, name)?,
        value: Text::new(alloc, value)?,
    })
}

fn list(alloc: Global, texts: &[(&str, &str)]) -> Result<Pairs, NoMemory> {
    let mut made = Pairs::new(alloc);
    for (name, value) in texts {
        made.push(pair(alloc, name, value)?)?;
    }
    Ok(made)
}

#[test]
fn escapes(rt: HostRuntime) -> Result<(), Fail> {
    for (text, want) in [
        ("Ladies + Gentlemen", "Ladies%20%2B%20Gentlemen"),
        ("a-b.c_d~e", "a-b.c_d~e"),
        ("\u{2603}", "%E2%98%83"),
        ("An encoded string!", "An%20encoded%20string%21"),
        ("", ""),
    ] {
        let escaped = escape(rt.alloc(), text)?;
        assert_eq!(rt; escaped.get(), want);
    }
    assert!(rt; is_unreserved(b'~'));
    assert!(rt; !is_unreserved(b'%'));
    Ok(())
}

#[test]
fn orders_by_escaped_name_and_then_by_escaped_value(rt: HostRuntime) -> Result<(), Fail> {
    let braces = list(rt.alloc(), &[("az", ""), ("a{", "")])?;
    let text = normalised(rt.alloc(), &braces)?;
    assert_eq!(rt; text.get(), "a%7B=&az=");
    let order = ordered(rt.alloc(), &braces)?;
    let first = order.first().ok_or("no parameter")?;
    assert_eq!(rt; first.name, "a{");
    let equal_names = list(
        rt.alloc(),
        &[("a", "b{"), ("a", "bz"), ("a", "b"), ("a", "b")],
    )?;
    let text = normalised(rt.alloc(), &equal_names)?;
    assert_eq!(rt; text.get(), "a=b&a=b&a=b%7B&a=bz");
    let none = normalised(rt.alloc(), &Pairs::new(rt.alloc()))?;
    assert_eq!(rt; none.get(), "");
    Ok(())
}

// The parameters of RFC 5849, section 3.4.1.3.1, and their normal form of section 3.4.1.3.2.
#[test]
fn normalises_the_published_example(rt: HostRuntime) -> Result<(), Fail> {
    let parameters = list(
        rt.alloc(),
        &[
            ("b5", "=%3D"),
            ("a3", "a"),
            ("c@", ""),
            ("a2", "r b"),
            ("oauth_consumer_key", "9djdj82h48djs9d2"),
            ("oauth_token", "kkk9d7dh3k39sjv7"),
            ("oauth_signature_method", "HMAC-SHA1"),
            ("oauth_timestamp", "137131201"),
            ("oauth_nonce", "7d8f3e4a"),
            ("c2", ""),
            ("a3", "2 q"),
        ],
    )?;
    let text = normalised(rt.alloc(), &parameters)?;
    assert_eq!(rt;
        text.get(),
        "a2=r%20b&a3=2%20q&a3=a&b5=%3D%253D&c%40=&c2=&oauth_consumer_key=9djdj82h48djs9d2\
        &oauth_nonce=7d8f3e4a&oauth_signature_method=HMAC-SHA1&oauth_timestamp=137131201\
        &oauth_token=kkk9d7dh3k39sjv7"
    );
    Ok(())
}

#[test]
fn reads_forms(rt: HostRuntime) -> Result<(), Fail> {
    let form = b"b5=%3D%253D&a3=a&c%40=&a2=r%20b&&c2&a3=2+q&=&%e2%98%83=100%&x=%4G%2&y=a%2Bb+c=d";
    let read = pairs(rt.alloc(), form)?;
    let want = [
        ("b5", "=%3D"),
        ("a3", "a"),
        ("c@", ""),
        ("a2", "r b"),
        ("c2", ""),
        ("a3", "2 q"),
        ("", ""),
        ("\u{2603}", "100%"),
        ("x", "%4G%2"),
        ("y", "a+b c=d"),
    ];
    assert_eq!(rt; read.len(), want.len());
    for (place, (name, value)) in want.iter().enumerate() {
        let read = read.get(place).ok_or("too few pairs")?;
        assert_eq!(rt; read.name.get(), *name);
        assert_eq!(rt; read.value.get(), *value);
    }
    let empty = pairs(rt.alloc(), b"")?;
    assert_eq!(rt; empty.len(), 0);
    Ok(())
}

#[test]
fn refuses_forms_that_are_not_utf8(rt: HostRuntime) -> Result<(), Fail> {
    for form in [
        b"a=%FF" as &[u8],
        b"%FF=a",
        b"a=\xFF",
        b"a=+%C3",
        b"a=1&b=+%C3+",
    ] {
        match pairs(rt.alloc(), form) {
            Ok(_) => return Err("read a form that isn't UTF-8".into()),
            Err(fault) => assert_eq!(rt; fault, FormFault::BadForm),
        }
    }
    Ok(())
}

#[test]
fn writes_forms(rt: HostRuntime) -> Result<(), Fail> {
    let made = list(rt.alloc(), &[("a b", "1+1=2"), ("\u{2603}", "")])?;
    let form = form_text(rt.alloc(), &made)?;
    assert_eq!(rt; form.get(), b"a+b=1%2B1%3D2&%E2%98%83=".as_slice());
    Ok(())
}

#[test]
fn reads_hosts(rt: HostRuntime) -> Result<(), Fail> {
    for (text, name, port) in [
        ("EXAMPLE.COM:80", "example.com", Some(80)),
        ("www.example.net:8080", "www.example.net", Some(8080)),
        ("a_b-c.D", "a_b-c.d", None),
        ("a:65535", "a", Some(65535)),
        ("[2001:DB8::1]", "[2001:db8::1]", None),
        ("[::1]:443", "[::1]", Some(443)),
    ] {
        let host = Host::read(rt.alloc(), text)?;
        assert_eq!(rt; host.name.get(), name);
        assert_eq!(rt; host.port, port);
    }
    Ok(())
}

#[test]
fn refuses_hosts(rt: HostRuntime) -> Result<(), Fail> {
    for text in [
        "",
        "a:080",
        "a:",
        "a b",
        ":80",
        "a:0",
        "a:65536",
        "a:123456",
        "a:1x",
        "a:1:2",
        "[]",
        "[::1",
        "[::g]",
        "[::1]x",
        "[::1]:",
        "caf\u{E9}",
        "a/b",
    ] {
        match Host::read(rt.alloc(), text) {
            Ok(_) => return Err("read a bad host".into()),
            Err(fault) => assert_eq!(rt; fault, HostFault::BadHost),
        }
    }
    Ok(())
}

#[test]
fn reads_urls(rt: HostRuntime) -> Result<(), Fail> {
    for (text, scheme, name, port, path, query) in [
        (
            "https://tool.example/lti/launch",
            Scheme::Https,
            "tool.example",
            None,
            "/lti/launch",
            "",
        ),
        (
            "HTTP://Example.COM",
            Scheme::Http,
            "example.com",
            None,
            "/",
            "",
        ),
        (
            "http://a?b=%C3%A9",
            Scheme::Http,
            "a",
            None,
            "/",
            "b=%C3%A9",
        ),
        ("https://a:8443/?", Scheme::Https, "a", Some(8443), "/", ""),
        (
            "hTTpS://[::1]:1/r%20v/X?a=1&b=?/",
            Scheme::Https,
            "[::1]",
            Some(1),
            "/r%20v/X",
            "a=1&b=?/",
        ),
    ] {
        let url = Url::read(rt.alloc(), text)?;
        assert_eq!(rt; url.scheme, scheme);
        assert_eq!(rt; url.host.name.get(), name);
        assert_eq!(rt; url.host.port, port);
        assert_eq!(rt; url.path.get(), path);
        assert_eq!(rt; url.query.get(), query);
    }
    Ok(())
}

#[test]
fn refuses_urls(rt: HostRuntime) -> Result<(), Fail> {
    for text in [
        "",
        "http:/a",
        "ftp://a/",
        "tool.example/x",
        "https:///x",
        "http://a:0/",
        "http://u@a/",
        "http://a/#b",
        "http://a/ b",
        "http://a/<",
        "http://a/caf\u{E9}",
        "http://a/?b=%FF",
        "http://a\\b",
    ] {
        match Url::read(rt.alloc(), text) {
            Ok(_) => return Err("read a bad URL".into()),
            Err(fault) => assert_eq!(rt; fault, UrlFault::BadUrl),
        }
    }
    Ok(())
}
