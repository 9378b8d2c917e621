//! Published vectors, and signatures that Python's hmac made.
use crate::{BodyHash, Mac, base_string, base_uri, hash_text, signature, signature_of};
use lti_outside::{NoMemory, Pair, Pairs, Tap, Text};
use oauth_text::{Host, Scheme};
use std::alloc::Global;
use std::test::Fail;

fn list(alloc: Global, texts: &[(&str, &str)]) -> Result<Pairs, NoMemory> {
    let mut made = Pairs::new(alloc);
    for (name, value) in texts {
        made.push(Pair {
            name: Text::new(alloc, name)?,
            value: Text::new(alloc, value)?,
        })?;
    }
    Ok(made)
}

// The bytes in lower-case hexadecimal digits.
fn hexadecimal(alloc: Global, bytes: &[u8]) -> Result<String, NoMemory> {
    let mut text = String::new(alloc);
    for byte in bytes {
        text.push_str(&format!(in alloc; "{byte:02x}")?)?;
    }
    Ok(text)
}

fn code_whole(key: &[u8], message: &[u8]) -> [u8; 20] {
    let mut mac = Mac::start(key);
    mac.feed(message);
    mac.finish()
}

fn code_by_bytes(key: &[u8], message: &[u8]) -> [u8; 20] {
    let mut mac = Mac::start(key);
    for byte in message {
        mac.feed(&[*byte]);
    }
    mac.finish()
}

// RFC 2202, section 3, test cases 1, 2 and 6.
#[test]
fn codes_of_rfc_2202(rt: HostRuntime) -> Result<(), Fail> {
    let long_key = [0xaau8; 80];
    let long_message = "Test Using Larger Than Block-Size Key - Hash Key First";
    for (key, message, want) in [
        (
            &[0x0bu8; 20] as &[u8],
            "Hi There",
            "b617318655057264e28bc0b6fb378c8ef146be00",
        ),
        (
            b"Jefe",
            "what do ya want for nothing?",
            "effcdf6ae5eb2fa2d27416d5f184df9c259a7c79",
        ),
        (
            &long_key,
            long_message,
            "aa4ae5e15272d00e95705637ce8a3b55ed402112",
        ),
    ] {
        let whole = hexadecimal(rt.alloc(), &code_whole(key, message.as_bytes()))?;
        let by_bytes = hexadecimal(rt.alloc(), &code_by_bytes(key, message.as_bytes()))?;
        assert_eq!(rt; whole.as_str(), want);
        assert_eq!(rt; by_bytes.as_str(), want);
    }
    Ok(())
}

#[test]
fn hashes_of_bodies(rt: HostRuntime) -> Result<(), Fail> {
    for (body, digest, text) in [
        (
            b"Hello World!" as &[u8],
            "2ef7bde608ce5404e97d5f042f95f89f1c232871",
            "Lve95gjOVATpfV8EL5X4nxwjKHE=",
        ),
        (
            b"",
            "da39a3ee5e6b4b0d3255bfef95601890afd80709",
            "2jmj7l5rSw0yVb/vlWAYkK/YBwk=",
        ),
    ] {
        let mut hash = BodyHash::start();
        hash.feed(body);
        let sum = hash.finish();
        let hexadecimal = hexadecimal(rt.alloc(), &sum)?;
        let base64 = hash_text(rt.alloc(), &sum)?;
        assert_eq!(rt; hexadecimal.as_str(), digest);
        assert_eq!(rt; base64.get(), text);
    }
    Ok(())
}

#[test]
fn base_uris(rt: HostRuntime) -> Result<(), Fail> {
    for (scheme, host, path, want) in [
        (
            Scheme::Http,
            "EXAMPLE.COM:80",
            "/r%20v/X",
            "http://example.com/r%20v/X",
        ),
        (
            Scheme::Https,
            "www.example.net:8080",
            "/",
            "https://www.example.net:8080/",
        ),
        (
            Scheme::Https,
            "www.example.net:443",
            "/",
            "https://www.example.net/",
        ),
        (
            Scheme::Https,
            "www.example.net:80",
            "/",
            "https://www.example.net:80/",
        ),
        (
            Scheme::Http,
            "www.example.net:443",
            "/",
            "http://www.example.net:443/",
        ),
        (Scheme::Http, "[::1]", "/a", "http://[::1]/a"),
    ] {
        let host = Host::read(rt.alloc(), host)?;
        let uri = base_uri(rt.alloc(), scheme, &host, path)?;
        assert_eq!(rt; uri.get(), want);
    }
    Ok(())
}

// RFC 5849, section 3.4.1.1.
#[test]
fn base_string_of_rfc_5849(rt: HostRuntime) -> Result<(), Fail> {
    let parameters = list(
        rt.alloc(),
        &[
            ("b5", "=%3D"),
            ("a3", "a"),
            ("c@", ""),
            ("a2", "r b"),
            ("oauth_consumer_key", "9djdj82h48djs9d2"),
            ("oauth_token", "kkk9d7dh3k39sjv7"),
            ("oauth_signature_method", "HMAC-SHA1"),
            ("oauth_timestamp", "137131201"),
            ("oauth_nonce", "7d8f3e4a"),
            ("c2", ""),
            ("a3", "2 q"),
        ],
    )?;
    let base = base_string(
        rt.alloc(),
        "post",
        "http://example.com/request",
        &parameters,
    )?;
    assert_eq!(rt;
        base.get(),
        "POST&http%3A%2F%2Fexample.com%2Frequest&a2%3Dr%2520b%26a3%3D2%2520q%26a3%3Da\
        %26b5%3D%253D%25253D%26c%2540%3D%26c2%3D%26oauth_consumer_key%3D9djdj82h48djs9d2\
        %26oauth_nonce%3D7d8f3e4a%26oauth_signature_method%3DHMAC-SHA1%26oauth_timestamp%3D137131201\
        %26oauth_token%3Dkkk9d7dh3k39sjv7"
    );
    Ok(())
}

// OAuth Core 1.0, appendix A.5.
#[test]
fn signature_of_oauth_core(rt: HostRuntime) -> Result<(), Fail> {
    let parameters = list(
        rt.alloc(),
        &[
            ("file", "vacation.jpg"),
            ("size", "original"),
            ("oauth_consumer_key", "dpf43f3p2l4k3l03"),
            ("oauth_token", "nnch734d00sl2jdk"),
            ("oauth_signature_method", "HMAC-SHA1"),
            ("oauth_timestamp", "1191242096"),
            ("oauth_nonce", "kllo9940pd9333jh"),
            ("oauth_version", "1.0"),
        ],
    )?;
    let base = base_string(
        rt.alloc(),
        "GET",
        "http://photos.example.net/photos",
        &parameters,
    )?;
    let text = signature(
        rt.alloc(),
        base.get(),
        "kd94hf93k423kf44",
        "pfkkdhi9sl3r4s00",
    )?;
    assert_eq!(rt; text.get(), "tR3+Ty81lMeYAr/Fid0kMTYa/WM=");
    Ok(())
}

// RFC 5849, section 1.2.
#[test]
fn signature_of_rfc_5849(rt: HostRuntime) -> Result<(), Fail> {
    let parameters = list(
        rt.alloc(),
        &[
            ("file", "vacation.jpg"),
            ("size", "original"),
            ("oauth_consumer_key", "dpf43f3p2l4k3l03"),
            ("oauth_token", "nnch734d00sl2jdk"),
            ("oauth_signature_method", "HMAC-SHA1"),
            ("oauth_timestamp", "137131202"),
            ("oauth_nonce", "chapoH"),
        ],
    )?;
    let text = signature_of(
        rt.alloc(),
        "GET",
        "http://photos.example.net/photos",
        &parameters,
        "kd94hf93k423kf44",
        "pfkkdhi9sl3r4s00",
    )?;
    assert_eq!(rt; text.get(), "MdpQcU8iPSUjWoN/UDMsK2sui9I=");
    Ok(())
}

// Escaped, these stand in another order: `%`, `\u{e9}`, `A` with `%`, `{` and `1`, `A{`, `Az`, `A~`, `_`, `~`.
#[test]
fn signature_of_parameters_by_their_escaped_order(rt: HostRuntime) -> Result<(), Fail> {
    let parameters = list(
        rt.alloc(),
        &[
            ("~", ""),
            ("_", "a"),
            ("A", "1"),
            ("\u{e9}", "\u{2603}"),
            ("%", "~"),
            ("A", "%"),
            ("A", "{"),
            ("A~", "="),
            ("Az", ""),
            ("A{", "&"),
        ],
    )?;
    let text = signature_of(
        rt.alloc(),
        "post",
        "https://www.example.net:8080/a b",
        &parameters,
        "s\u{e9}cret&",
        "",
    )?;
    assert_eq!(rt; text.get(), "aC8O2WjZCxFpMuC7ddCxZBtr8Ws=");
    Ok(())
}

// A text so many times.
fn repeated(alloc: Global, text: &str, times: usize) -> Result<Text, NoMemory> {
    let mut made = Text::empty(alloc);
    for _ in 0..times {
        made.push(text)?;
    }
    Ok(made)
}

// More bytes than are held at once.
#[test]
fn signature_of_long_values(rt: HostRuntime) -> Result<(), Fail> {
    let mut parameters = Pairs::new(rt.alloc());
    for (name, text, times) in [("text", "\u{2603}", 200), ("other", "a", 700)] {
        parameters.push(Pair {
            name: Text::new(rt.alloc(), name)?,
            value: repeated(rt.alloc(), text, times)?,
        })?;
    }
    let text = signature_of(
        rt.alloc(),
        "POST",
        "http://example.com/",
        &parameters,
        "secret",
        "",
    )?;
    assert_eq!(rt; text.get(), "lXz/CaczSYOZI0+8tCVnWtbpXUQ=");
    Ok(())
}
