// The keys that have nonces, each with a number.
ghost use Rattle.std.specs.Prelude.{◌≡◌, ◌<◌, [], ◌∷◌, ◌++◌, length, None, IfOk, OnOk, OnErr};
ghost use Rattle.nonce_window.specs.Keys.{key_at, IsNumber};

use indexmap::IndexSet;
use lti_outside::NoMemory;
use std::alloc::Global;
use std::marker::Model;

/// Keys, each once, in the order in which they came. The place of a key is its number. They are found by a hash: an
/// operator gives keys out, so none is chosen by whoever calls.
#[derive(Drop)]
pub(crate) struct Keys {
    keys: IndexSet<String>,
}

impl Model for Keys {
    ghost use Rattle.std.specs.Prelude.{◌<◌, ◌^◌, ℕ, List, length, map};
    ghost use Rattle.std.specs.List.{IsDistinct};
    ghost use Rattle.std.specs.String.{string_bytes, string_eq};

    ghost Value = { List (List ℕ) };

    ghost view = { λ k. map string_bytes k.keys.keys };

    ghost invariant = { λ k. IsDistinct string_eq k.keys.keys × (length k.keys.keys < 2 ^ 32) };
}

impl Keys {
    pub(crate) fn new(alloc: Global) -> Keys
        ensures { result ≡ [] }
    {
        Keys {
            keys: IndexSet::new(alloc),
        }
    }

    /// The number of a key.
    pub(crate) fn number(&self, key: &str) -> Option<u32>
        ensures { IsNumber self.now key.now result }
    {
        match self.keys.get_index_of(key) {
            Some(place) => Some(place as u32),
            None => None,
        }
    }

    /// The key of a number.
    pub(crate) fn key(&self, number: u32) -> &str
        requires { number < length self.now }
        ensures { result.now ≡ key_at self.now number }
    {
        self.keys.as_slice()[number as usize].as_str()
    }

    /// Gives a key that has no number the next one, which is returned. On `NoMemory` nothing has changed; the end of the
    /// numbers, 2^32 - 1 keys, counts as want of memory.
    pub(crate) fn add(&mut self, key: &str) -> Result<u32, NoMemory>
        requires { IsNumber self.old key.now None }
        ensures added { OnOk result (self.new ≡ self.old ++ key.now ∷ []) }
        ensures number { IfOk result (λ number. number ≡ length self.old) }
        ensures err { OnErr result (self.new ≡ self.old) }
    {
        let number = self.keys.len();
        if number == u32::MAX as usize {
            return Err(NoMemory);
        }
        let key = String::from_str(*self.keys.allocator(), key)?;
        self.keys.insert(key)?;
        Ok(number as u32)
    }
}
