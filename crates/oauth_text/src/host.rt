// Hosts with their ports.
ghost use Rattle.std.specs.Prelude.{◌≡◌, ◌≤◌, ℕ, List, false, true, take, drop, map, length, IfOk, IsErrOf, MatchOption};
ghost use Rattle.std.specs.Char.{to_ascii_lowercase};
ghost use Rattle.std.specs.List.{list_all};
ghost use Rattle.oauth_text.specs.Host as spec;
ghost use Rattle.oauth_text.specs.Host.{IsHostOf};

use crate::places::place_of;
use lti_outside::{NoMemory, Text, read_decimal};
use percent_encoding::ascii_str;
use std::alloc::Global;

/// Why a text was read as no host.
#[derive(Clone, Copy, Debug, PartialEq, Eq)]
pub enum HostFault {
    /// The name is empty, too long or has a byte that can't stand in it, or what follows isn't `:` and a port.
    BadHost,
    /// There was no memory for the name, and the text may be a host.
    NoMemory,
}

impl From<NoMemory> for HostFault {
    ghost use Rattle.oauth_text.specs.declared.host.HostFault.TheVariants.{NoMemory};

    ghost from_gives = { λ _ e. e ≡ NoMemory };

    fn from(_: NoMemory) -> Self {
        HostFault::NoMemory
    }
}

/// A host with its port, as a URL or a `Host` header names it (RFC 3986, section 3.2). Every value is the
/// reading of some text.
#[derive(Drop)]
pub struct Host {
    /// The name in lower case, with its brackets where it is an address between brackets.
    pub name: Text,
    /// The port from 1 to 65535, where one was written.
    pub port: Option<u16>,
    pub ghost reading: { ∥ ((text : List ℕ) × IsHostOf text name port) ∥₁ },
}

fn is_name_byte(b: u8) -> bool
    ensures { result ≡ spec.is_name_byte b }
{
    b.is_ascii_alphanumeric() || b == b'-' || b == b'.' || b == b'_'
}

fn is_address_byte(b: u8) -> bool
    ensures { result ≡ spec.is_address_byte b }
{
    b.is_ascii_hexdigit() || b == b':' || b == b'.'
}

fn are_name_bytes(name: &[u8]) -> bool
    ensures { result ≡ list_all spec.is_name_byte name.now }
{
    name.iter().all(|b| is_name_byte(*b))
}

fn are_address_bytes(name: &[u8]) -> bool
    ensures { result ≡ list_all spec.is_address_byte name.now }
{
    name.iter().all(|b| is_address_byte(*b))
}

fn is_plain(name: &[u8]) -> bool
    ensures { result ≡ spec.is_plain_name name.now }
{
    1 <= name.len() && name.len() <= 255 && are_name_bytes(name)
}

fn is_bracketed(name: &[u8]) -> bool
    ensures { result ≡ spec.is_address name.now }
{
    match name {
        [b'[', inner @ .., b']'] => 1 <= inner.len()
            && inner.len() <= 45
            && are_address_bytes(inner),
        _ => false,
    }
}

fn len_of_name(text: &[u8]) -> usize
    ensures len { result ≡ spec.name_len text.now }
    ensures bound { result ≤ length text.now }
{
    match text {
        [b'[', inner @ ..] => text.len().min(place_of(b']', inner) + 2),
        _ => place_of(b':', text),
    }
}

fn port_of(suffix: &[u8]) -> Option<Option<u16>>
    ensures { MatchOption result (spec.is_suffix suffix.now ≡ false)
        (λ port. (spec.is_suffix suffix.now ≡ true) × (port ≡ spec.port_in suffix.now)) }
{
    match suffix {
        [] => Some(None),
        [b':', digits @ ..] => {
            let number = read_decimal(digits, 5)?;
            if digits[0] == b'0' || number > 65535 {
                return None;
            }
            Some(Some(number as u16))
        }
        _ => None,
    }
}

fn lower(alloc: Global, name: &[u8]) -> Result<Text, NoMemory>
    requires { spec.is_host_name name.now ≡ true }
    ensures { IfOk result (λ text. text ≡ map to_ascii_lowercase name.now) }
{
    let mut text = String::from_str(alloc, ascii_str(name))?;
    text.make_ascii_lowercase();
    Ok(Text::from_string(text))
}

// The host that the bytes are.
pub(crate) fn host_of(alloc: Global, text: &[u8]) -> Result<Host, HostFault>
    ensures found { IfOk result (λ host. IsHostOf text.now host.name host.port) }
    ensures bad { IsErrOf result HostFault.BadHost → spec.is_host text.now ≡ false }
{
    let (name, suffix) = text.split_at(len_of_name(text));
    if !is_plain(name) && !is_bracketed(name) {
        return Err(HostFault::BadHost);
    }
    let Some(port) = port_of(suffix) else {
        return Err(HostFault::BadHost);
    };
    Ok(Host {
        name: lower(alloc, name)?,
        port,
    })
}

impl Host {
    ghost use Rattle.std.specs.Prelude.{◌≡◌, false, IfOk, IsErrOf};
    ghost use Rattle.oauth_text.specs.Host as spec;
    ghost use Rattle.oauth_text.specs.Host.{IsHostOf};

    /// The host that the text is: a name, then nothing or `:` and a port. The name is 1 to 255 letters, digits,
    /// `-`, `.` and `_`, or 1 to 45 hexadecimal digits, `:` and `.` between `[` and `]`, and is kept in lower case.
    /// The port is a number from 1 to 65535 without a leading zero.
    pub fn read(alloc: Global, text: &str) -> Result<Host, HostFault>
        ensures found { IfOk result (λ host. IsHostOf text.now host.name host.port) }
        ensures bad { IsErrOf result HostFault.BadHost → spec.is_host text.now ≡ false }
    {
        host_of(alloc, text.as_bytes())
    }

    /// Another host of the same name and port.
    pub fn copy(&self) -> Result<Host, NoMemory>
        ensures name { IfOk result (λ host. host.name ≡ self.now.name) }
        ensures port { IfOk result (λ host. host.port ≡ self.now.port) }
    {
        Ok(Host {
            name: self.name.copy()?,
            port: self.port,
        })
    }
}
