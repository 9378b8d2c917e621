//! HMAC-SHA1 of a message that is spelt byte by byte.
ghost use Rattle.std.specs.Prelude.{◌≡◌, ◌<◌, ◌≤◌, ◌+◌, ◌*◌, true, [], ◌∷◌, ◌++◌, length, take, flat_map};
ghost use Rattle.std.specs.Fmt.{digit_glyph};
ghost use Rattle.oauth_text.specs.Escape.{twice_escaped_byte};

use crate::mac::Mac;
use oauth_text::{Parameter, is_unreserved};

// How many bytes are held at most before they are fed.
const ROOM: usize = 512;

// How many bytes there is always room for, where each is escaped twice: such an escape has at most five bytes.
const FEW: usize = 100;

/// A code under way with the bytes that it is yet to be fed, so that it is fed many at once. It takes no memory.
#[derive(Drop)]
pub struct Feed {
    mac: Mac,
    held: [u8; ROOM],
    // How many bytes are held, in front.
    len: usize,
}

// The upper-case hexadecimal digit of a number.
fn digit(number: u8) -> u8
    requires { number < 16 }
    ensures { result ≡ digit_glyph true number }
{
    if number < 10 {
        b'0' + number
    } else {
        b'A' + (number - 10)
    }
}

// Writes a byte at a place.
fn put(block: &mut [u8], at: usize, byte: u8)
    requires { at < length block.old }
    ensures len { length block.new ≡ length block.old }
    ensures put { take (at + 1) block.new ≡ take at block.old ++ byte ∷ [] }
{
    block[at] = byte;
}

// Writes a byte, escaped twice, from a place on, and gives the place behind it.
fn put_twice_escaped(block: &mut [u8], at: usize, byte: u8) -> usize
    requires { at + 5 ≤ length block.old }
    ensures len { length block.new ≡ length block.old }
    ensures end { result ≤ at + 5 }
    ensures put { take result block.new ≡ take at block.old ++ twice_escaped_byte byte }
{
    if is_unreserved(byte) {
        put(block, at, byte);
        return at + 1;
    }
    put(block, at, b'%');
    put(block, at + 1, b'2');
    put(block, at + 2, b'5');
    put(block, at + 3, digit(byte / 16));
    put(block, at + 4, digit(byte % 16));
    at + 5
}

// Writes bytes, each escaped twice, from a place on, and gives the place behind them. The place is a number of its own
// and no field, which would be written back at each byte.
fn put_all(block: &mut [u8], at: usize, bytes: &[u8]) -> usize
    requires { at + 5 * length bytes.now ≤ length block.old }
    ensures len { length block.new ≡ length block.old }
    ensures end { result ≤ at + 5 * length bytes.now }
    ensures put { take result block.new ≡ take at block.old ++ flat_map twice_escaped_byte bytes.now }
{
    let mut end = at;
    for byte in bytes {
        end = put_twice_escaped(block, end, *byte);
    }
    end
}

impl Feed {
    ghost use Rattle.std.specs.Prelude.{◌≡◌, ◌<◌, ◌≤◌, ◌+◌, ℕ, List, [], ◌∷◌, length, map, flat_map};
    ghost use Rattle.std.specs.Str.{str_to_ascii_uppercase};
    ghost use Rattle.oauth_text.specs.Escape.{escape_byte, twice_escaped_byte, escape};
    ghost use Rattle.oauth_text.specs.Normal.{pair_text, joined};
    ghost use Rattle.oauth_text.specs.Order.{escaped_parameter};
    ghost use Rattle.oauth_sign.specs.Hmac.{Holds, hmac};
    ghost use Rattle.oauth_sign.specs.Feed.{StandsFor, Takes};

    /// The message that the code was fed, with nothing held.
    pub fn start(mac: Mac) -> Feed
        ensures room { result.len ≤ 512 }
        ensures fed { (key message : List ℕ) → Holds mac key message → StandsFor result key message }
    {
        Feed {
            mac,
            held: [0; ROOM],
            len: 0,
        }
    }

    // Feeds what is held.
    fn flush(&mut self)
        requires { self.old.len ≤ 512 }
        ensures empty { self.new.len ≡ 0 }
        ensures same { Takes self.old self.new [] }
    {
        self.mac.feed(&self.held[..self.len]);
        self.len = 0;
    }

    // Makes room for so many bytes.
    fn make_room(&mut self, count: usize)
        requires len { self.old.len ≤ 512 }
        requires count { count ≤ 512 }
        ensures room { self.new.len + count ≤ 512 }
        ensures same { Takes self.old self.new [] }
    {
        if self.len > ROOM - count {
            self.flush();
        }
    }

    // Holds one more byte.
    fn hold(&mut self, byte: u8)
        requires { self.old.len < 512 }
        ensures len { self.new.len ≡ self.old.len + 1 }
        ensures held { Takes self.old self.new (byte ∷ []) }
    {
        self.held[self.len] = byte;
        self.len += 1;
    }

    /// Adds a byte to the message.
    pub fn push(&mut self, byte: u8)
        requires { self.old.len ≤ 512 }
        ensures room { self.new.len ≤ 512 }
        ensures taken { Takes self.old self.new (byte ∷ []) }
    {
        self.make_room(1);
        self.hold(byte);
    }

    /// Adds an escaped byte.
    pub fn push_escaped(&mut self, byte: u8)
        requires { self.old.len ≤ 512 }
        ensures room { self.new.len ≤ 512 }
        ensures taken { Takes self.old self.new (escape_byte byte) }
    {
        self.make_room(3);
        if is_unreserved(byte) {
            self.hold(byte);
        } else {
            self.hold(b'%');
            self.hold(digit(byte / 16));
            self.hold(digit(byte % 16));
        }
    }

    /// Adds a text in upper case.
    pub fn push_upper_case(&mut self, text: &str)
        requires { self.old.len ≤ 512 }
        ensures room { self.new.len ≤ 512 }
        ensures taken { Takes self.old self.new (str_to_ascii_uppercase text.now) }
    {
        for byte in text.as_bytes() {
            self.push(byte.to_ascii_uppercase());
        }
    }

    /// Adds an escaped text.
    pub fn push_escaped_text(&mut self, text: &str)
        requires { self.old.len ≤ 512 }
        ensures room { self.new.len ≤ 512 }
        ensures taken { Takes self.old self.new (escape text.now) }
    {
        for byte in text.as_bytes() {
            self.push_escaped(*byte);
        }
    }

    // Adds a few bytes, each escaped twice.
    fn push_few(&mut self, bytes: &[u8])
        requires len { self.old.len ≤ 512 }
        requires few { length bytes.now ≤ 100 }
        ensures room { self.new.len ≤ 512 }
        ensures taken { Takes self.old self.new (flat_map twice_escaped_byte bytes.now) }
    {
        self.make_room(5 * bytes.len());
        self.len = put_all(&mut self.held, self.len, bytes);
    }

    // Adds bytes, each escaped twice.
    fn push_many(&mut self, bytes: &[u8])
        requires { self.old.len ≤ 512 }
        ensures room { self.new.len ≤ 512 }
        ensures taken { Takes self.old self.new (flat_map twice_escaped_byte bytes.now) }
    {
        for byte in bytes {
            self.push_few(&[*byte]);
        }
    }

    // Adds a text that is escaped twice.
    fn push_twice_escaped_text(&mut self, text: &str)
        requires { self.old.len ≤ 512 }
        ensures room { self.new.len ≤ 512 }
        ensures taken { Takes self.old self.new (escape (escape text.now)) }
    {
        let bytes = text.as_bytes();
        if bytes.len() <= FEW {
            self.push_few(bytes);
        } else {
            self.push_many(bytes);
        }
    }

    // Adds the escaped name, `=` and the escaped value, all of it escaped.
    fn push_parameter(&mut self, parameter: &Parameter<'_>)
        requires { self.old.len ≤ 512 }
        ensures room { self.new.len ≤ 512 }
        ensures taken { Takes self.old self.new (escape (pair_text (escaped_parameter parameter.now))) }
    {
        self.push_twice_escaped_text(parameter.name);
        self.push_escaped(b'=');
        self.push_twice_escaped_text(parameter.value);
    }

    /// Adds the normal form of parameters in order, escaped.
    pub fn push_parameters(&mut self, order: &[Parameter<'_>])
        requires { self.old.len ≤ 512 }
        ensures room { self.new.len ≤ 512 }
        ensures taken { Takes self.old self.new (escape (joined (map escaped_parameter order.now))) }
    {
        let Some((first, others)) = order.split_first() else {
            return;
        };
        self.push_parameter(first);
        for parameter in others {
            self.push_escaped(b'&');
            self.push_parameter(parameter);
        }
    }

    /// The code of the message.
    pub fn finish(mut self) -> [u8; 20]
        requires { self.len ≤ 512 }
        ensures { (key message : List ℕ) → StandsFor self key message → result ≡ hmac key message }
    {
        self.flush();
        self.mac.finish()
    }
}
