// Texts that each have a number.
ghost use Rattle.std.specs.Prelude.{◌≡◌, ◌<◌, [], length, OnOk};
ghost use Rattle.gradebook.specs.Texts.{text_at, IsKnown, IsNumber, Keeps};

use indexmap::IndexSet;
use lti_outside::NoMemory;
use std::alloc::Global;
use std::marker::Model;

/// Texts, each once, in the order in which they came. The place of a text is its number.
#[derive(Drop)]
pub(crate) struct Texts {
    texts: IndexSet<String>,
}

impl Model for Texts {
    ghost use Rattle.std.specs.Prelude.{◌<◌, ◌^◌, ℕ, List, length, map};
    ghost use Rattle.std.specs.List.{IsDistinct};
    ghost use Rattle.std.specs.String.{string_bytes, string_eq};

    ghost Value = { List (List ℕ) };

    ghost view = { λ t. map string_bytes t.texts.keys };

    ghost invariant = { λ t. IsDistinct string_eq t.texts.keys × (length t.texts.keys < 2 ^ 32) };
}

impl Texts {
    pub(crate) fn new(alloc: Global) -> Texts
        ensures { result ≡ [] }
    {
        Texts {
            texts: IndexSet::new(alloc),
        }
    }

    /// The number of a text.
    pub(crate) fn number(&self, text: &str) -> Option<u32>
        ensures { IsNumber self.now text.now result }
    {
        match self.texts.get_index_of(text) {
            Some(place) => Some(place as u32),
            None => None,
        }
    }

    /// The text of a number.
    pub(crate) fn text(&self, number: u32) -> &str
        requires { number < length self.now }
        ensures { result.now ≡ text_at self.now number }
    {
        self.texts.as_slice()[number as usize].as_str()
    }

    /// Gives a text a number, if it has none. On `NoMemory` nothing has changed; the end of the numbers,
    /// 2^32 - 1 texts, counts as want of memory.
    pub(crate) fn intern(&mut self, text: &str) -> Result<(), NoMemory>
        ensures keeps { Keeps self.old self.new }
        ensures known { OnOk result (IsKnown self.new text.now) }
    {
        if self.texts.contains(text) {
            return Ok(());
        }
        if self.texts.len() == u32::MAX as usize {
            return Err(NoMemory);
        }
        let text = String::from_str(*self.texts.allocator(), text)?;
        self.texts.insert(text)?;
        Ok(())
    }
}
