// URLs with a scheme, a host, a path and a query.
ghost use Rattle.std.specs.Prelude.{ℕ, List, ◌≡◌, ◌==◌, ◌||◌, ◌≤◌, ◌+◌, false, true, take, drop, length, codes, IfOk, IsErrOf, MatchOption};
ghost use Rattle.std.specs.List.{list_all, list_any, position, position_or_len};
ghost use Rattle.oauth_text.specs.Url as spec;
ghost use Rattle.oauth_text.specs.Url.{IsUrl, UrlParts};

use crate::forms::{FormFault, pairs};
use crate::host::{Host, HostFault, host_of};
use crate::places::place_of;
use lti_outside::{NoMemory, Text};
use percent_encoding::ascii_str;
use std::alloc::Global;

/// How a URL is reached.
#[derive(Clone, Copy, Debug, PartialEq, Eq)]
pub enum Scheme {
    /// Plain HTTP, by default at port 80.
    Http,
    /// HTTP over TLS, by default at port 443.
    Https,
}

/// Why a text was read as no URL.
#[derive(Clone, Copy, Debug, PartialEq, Eq)]
pub enum UrlFault {
    /// The text has another scheme, a bad host, a byte that can't stand in a path or a query, or a query whose
    /// decoded names and values aren't UTF-8.
    BadUrl,
    /// There was no memory for the parts, and the text may be a URL.
    NoMemory,
}

impl From<NoMemory> for UrlFault {
    ghost use Rattle.oauth_text.specs.declared.url.UrlFault.TheVariants.{NoMemory};

    ghost from_gives = { λ _ e. e ≡ NoMemory };

    fn from(_: NoMemory) -> Self {
        UrlFault::NoMemory
    }
}

impl From<HostFault> for UrlFault {
    ghost use Rattle.oauth_text.specs.Faults.{url_fault_of_host};

    ghost from_gives = { λ fault e. e ≡ url_fault_of_host fault };

    fn from(fault: HostFault) -> Self {
        match fault {
            HostFault::BadHost => UrlFault::BadUrl,
            HostFault::NoMemory => UrlFault::NoMemory,
        }
    }
}

/// An absolute URL with the scheme `http` or `https`. Every value is the reading of some text.
#[derive(Drop)]
pub struct Url {
    pub scheme: Scheme,
    pub host: Host,
    /// The path as it was written, which begins with `/`.
    pub path: Text,
    /// What follows the `?` as it was written, or nothing. It is a form text.
    pub query: Text,
    pub ghost reading: { ∥ ((text : List ℕ)
        × IsUrl text (record { scheme = scheme; name = host.name; port = host.port; path = path; query = query })) ∥₁ },
}

impl Url {
    ghost use Rattle.std.specs.Prelude.{◌≡◌, IfOk, IsErrOf};
    ghost use Rattle.oauth_text.specs.UrlView.{parts_of};
    ghost use Rattle.oauth_text.specs.Url.{IsUrl, UrlParts};

    /// The URL that the text is: `http://` or `https://` in any case, a host, then nothing or a path that begins
    /// with `/`, then nothing or `?` and a query. An absent path is `/`. Letters, digits and
    /// ``%-._~:/?@!$&'()*+,;=[]`` may stand in the path and the query, so there is no fragment.
    pub fn read(alloc: Global, text: &str) -> Result<Url, UrlFault>
        ensures found { IfOk result (λ url. IsUrl text.now (parts_of url)) }
        ensures bad { IsErrOf result UrlFault.BadUrl → (parts : UrlParts) → IsUrl text.now parts → ⊥ }
    {
        match read_parts(alloc, text.as_bytes()) {
            Ok((scheme, host, path, query)) => Ok(Url {
                scheme,
                host,
                path,
                query,
            }),
            Err(fault) => Err(fault),
        }
    }
}

// The scheme, the host, the path and the query of the URL that the bytes are.
fn read_parts(alloc: Global, text: &[u8]) -> Result<(Scheme, Host, Text, Text), UrlFault>
    ensures found { IfOk result (λ (scheme, host, path, query). IsUrl text.now
        (record { scheme = scheme; name = host.name; port = host.port; path = path; query = query })) }
    ensures bad { IsErrOf result UrlFault.BadUrl → (parts : UrlParts) → IsUrl text.now parts → ⊥ }
{
    let Some((scheme, rest)) = split_scheme(text) else {
        return Err(UrlFault::BadUrl);
    };
    let (name, target) = rest.split_at(len_of_host(rest));
    let host = host_of(alloc, name)?;
    if !are_target_bytes(target) {
        return Err(UrlFault::BadUrl);
    }
    let (path, query) = split_target(target);
    match pairs(alloc, query) {
        Ok(_) => {}
        Err(FormFault::BadForm) => return Err(UrlFault::BadUrl),
        Err(FormFault::NoMemory) => return Err(UrlFault::NoMemory),
    }
    let path = Text::new(alloc, ascii_str(path))?;
    let query = Text::new(alloc, ascii_str(query))?;
    Ok((scheme, host, path, query))
}

fn begins(front: &[u8], text: &[u8]) -> bool
    ensures { result ≡ spec.begins front.now text.now }
{
    text.len() >= front.len() && text[..front.len()].eq_ignore_ascii_case(front)
}

// The scheme, and what follows it.
fn split_scheme(text: &[u8]) -> Option<(Scheme, &[u8])>
    ensures { MatchOption result ((spec.is_https text.now || spec.is_http text.now) ≡ false)
        (λ split. ((spec.is_https text.now || spec.is_http text.now) ≡ true)
        × (split.0 ≡ spec.scheme_of text.now) × (split.1.now ≡ spec.after_scheme text.now)) }
{
    if begins(b"https://", text) {
        Some((Scheme::Https, &text[8..]))
    } else if begins(b"http://", text) {
        Some((Scheme::Http, &text[7..]))
    } else {
        None
    }
}

fn first_end(rest: &[u8]) -> Option<usize>
    ensures { result ≡ position (λ b. b == 47 || b == 63) rest.now }
{
    rest.iter().position(|b| *b == b'/' || *b == b'?')
}

fn len_of_host(rest: &[u8]) -> usize
    ensures len { result ≡ spec.host_len rest.now }
    ensures bound { result ≤ length rest.now }
{
    match first_end(rest) {
        Some(place) => place,
        None => rest.len(),
    }
}

fn is_target_byte(b: u8) -> bool
    ensures { result ≡ spec.is_target_byte b }
{
    b.is_ascii_alphanumeric() || b"%-._~:/?@!$&'()*+,;=[]".contains(&b)
}

fn are_target_bytes(target: &[u8]) -> bool
    ensures { result ≡ list_all spec.is_target_byte target.now }
{
    target.iter().all(|b| is_target_byte(*b))
}

// The path, which is `/` where none is given, and the query.
fn split_target(target: &[u8]) -> (&[u8], &[u8])
    ensures path { result.0.now ≡ spec.path_of target.now }
    ensures query { result.1.now ≡ spec.query_of target.now }
{
    let end = place_of(b'?', target);
    let path = if end == 0 {
        b"/" as &[u8]
    } else {
        &target[..end]
    };
    let query = if end < target.len() {
        &target[end + 1..]
    } else {
        &[]
    };
    (path, query)
}
