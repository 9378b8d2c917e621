// Consumer keys with their secrets.
ghost use Rattle.std.specs.Prelude.{◌≡◌, ◌<◌, ◌≤◌, ◌^◌, None, Some, length, bytes_eq, is_some, IfOk, IfErr, OnOk, OnSome, MatchResult};
ghost use Rattle.std.specs.List.{list_any};
ghost use Rattle.std.specs.Option.{option_map, option_copied};

use lti_outside::{Pair, Pairs};
use std::marker::Model;

/// Why a list is no list of keys: the first bad pair, whose place is counted from 0.
#[derive(Clone, Copy, Debug, PartialEq, Eq)]
pub enum KeysFault {
    /// The key is empty.
    Empty { at: u32 },
    /// The key has more than 255 bytes.
    TooLong { at: u32 },
    /// The key stands before.
    Repeated { at: u32 },
}

/// Consumer keys, each with its secret (RFC 5849, section 1.1: client credentials). Each key has 1 to 255 bytes and
/// stands once; a secret may be empty. Seen as the list of its pairs.
#[derive(Drop)]
pub struct Keys {
    pairs: Pairs,
}

impl Model for Keys {
    ghost use Rattle.std.specs.Prelude.{List};
    ghost use Rattle.lti_outside.specs.declared.pairs.Pair.{Pair};
    ghost use Rattle.oauth_request.specs.Secret.{AreShort};

    ghost Value = { List Pair };

    ghost view = { λ keys. keys.pairs };

    ghost invariant = { λ keys. AreShort keys.pairs };
}

fn has_key(key: &str, pairs: &[Pair]) -> bool
    ensures { result ≡ list_any (λ pair. bytes_eq pair.name key.now) pairs.now }
{
    pairs.iter().any(|pair| pair.name.get() == key)
}

fn pair_of<'a>(key: &str, pairs: &'a [Pair]) -> Option<&'a Pair>
    ensures { option_copied result ≡ Rattle.std.specs.Prelude.find (λ pair. bytes_eq pair.name key.now) pairs.now }
{
    pairs.iter().find(|pair| pair.name.get() == key)
}

impl Keys {
    ghost use Rattle.std.specs.Prelude.{◌≡◌, ◌<◌, ◌≤◌, ◌^◌, [], None, Some, length, IfOk, IfErr, OnOk, OnSome, MatchResult};
    ghost use Rattle.std.specs.Option.{option_map};
    ghost use Rattle.oauth_request.specs.Secret.{secret_in, key_fault, first_key_fault};

    // Whether the pair is bad behind these.
    fn judge(before: &[Pair], pair: &Pair) -> Result<(), KeysFault>
        requires { length before.now < 2 ^ 32 }
        ensures fine { OnOk result (key_fault before.now pair.now ≡ None) }
        ensures short { OnOk result ((0 < length pair.now.name) × (length pair.now.name ≤ 255)) }
        ensures fault { IfErr result (λ fault. key_fault before.now pair.now ≡ Some fault) }
    {
        let at = before.len() as u32;
        let key = pair.name.get();
        if key.is_empty() {
            return Err(KeysFault::Empty { at });
        }
        if key.len() > 255 {
            return Err(KeysFault::TooLong { at });
        }
        if has_key(key, before) {
            return Err(KeysFault::Repeated { at });
        }
        Ok(())
    }

    /// The keys of a list of fewer than 2^32 pairs, each a key with its secret. Each two of them are compared.
    pub fn new(list: Pairs) -> Result<Keys, KeysFault>
        requires { length list < 2 ^ 32 }
        ensures keys { IfOk result (λ keys. keys ≡ list) }
        ensures sound { OnOk result (first_key_fault [] list ≡ None) }
        ensures fault { IfErr result (λ fault. first_key_fault [] list ≡ Some fault) }
    {
        let pairs = list.as_slice();
        for (place, pair) in pairs.iter().enumerate() {
            Keys::judge(&pairs[..place], pair)?;
        }
        Ok(Keys { pairs: list })
    }

    /// The secret of a key, or none where the key isn't known.
    pub fn secret(&self, key: &str) -> Option<&str>
        ensures secret { option_map (λ secret. secret.now) result ≡ secret_in self.now key.now }
        ensures short { OnSome result ((0 < length key.now) × (length key.now ≤ 255)) }
    {
        let pair = pair_of(key, self.pairs.as_slice())?;
        Some(pair.value.get())
    }
}
