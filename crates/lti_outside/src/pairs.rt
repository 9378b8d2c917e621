// Names with values, in order.
ghost use Rattle.std.specs.Prelude.{◌≡◌, List, [], ◌∷◌, ◌++◌, ◌==◌, length, filter, not, OnOk, OnErr, IfOk, slice_get};
ghost use Rattle.std.specs.Str.{bytes_eq};
ghost use Rattle.std.specs.Option.{option_copied};

use crate::{NoMemory, Text};
use std::alloc::Global;
use std::marker::Model;

/// A name with a value. Pairs are ordered by name and then by value, in byte order.
#[derive(PartialEq, Eq, PartialOrd, Ord, Drop)]
pub struct Pair {
    pub name: Text,
    pub value: Text,
}

impl Pair {
    /// The same pair in memory of its own.
    pub fn copy(&self) -> Result<Pair, NoMemory>
        ensures { IfOk result (λ made. made ≡ self.now) }
    {
        Ok(Pair {
            name: self.name.copy()?,
            value: self.value.copy()?,
        })
    }
}

/// Pairs in order, seen as their list. A name may stand more than once.
#[derive(Drop)]
pub struct Pairs {
    pairs: Vec<Pair>,
}

// Whether the pair has this name.
fn is_named(pair: &Pair, name: &str) -> bool
    ensures { result ≡ bytes_eq pair.now.name name.now }
{
    pair.name.get() == name
}

impl Model for Pairs {
    ghost use Rattle.std.specs.Prelude.{List};
    ghost use Rattle.lti_outside.specs.declared.pairs.Pair.{Pair};

    ghost Value = { List Pair };

    ghost view = { λ p. p.pairs.items };
}

impl Pairs {
    /// No pairs, which take no memory.
    pub fn new(alloc: Global) -> Pairs
        ensures { result ≡ [] }
    {
        Pairs {
            pairs: Vec::new(alloc),
        }
    }

    /// Appends `pair`. On `NoMemory` nothing has changed.
    pub fn push(&mut self, pair: Pair) -> Result<(), NoMemory>
        ensures ok { OnOk result (self.new ≡ self.old ++ pair ∷ []) }
        ensures err { OnErr result (self.new ≡ self.old) }
    {
        self.pairs.push(pair)?;
        Ok(())
    }

    /// Appends all pairs of `other`. On `NoMemory` nothing was appended.
    pub fn append(&mut self, other: Pairs) -> Result<(), NoMemory>
        ensures ok { OnOk result (self.new ≡ self.old ++ other) }
        ensures err { OnErr result (self.new ≡ self.old) }
    {
        let mut other = other.pairs;
        self.pairs.append(&mut other)?;
        Ok(())
    }

    /// The pairs of other names, in order.
    pub fn without(self, name: &str) -> Pairs
        ensures { result ≡ filter (λ pair. not (bytes_eq pair.name name.now)) self }
    {
        let mut pairs = self.pairs;
        pairs.retain(|pair| !is_named(pair, name));
        Pairs { pairs }
    }

    /// How many pairs there are.
    pub fn len(&self) -> usize
        ensures { result ≡ length self.now }
    {
        self.pairs.len()
    }

    /// Whether there is none.
    pub fn is_empty(&self) -> bool
        ensures { result ≡ (length self.now == 0) }
    {
        self.pairs.is_empty()
    }

    /// The pair at a place, or none where the place isn't below the count.
    pub fn get(&self, place: usize) -> Option<&Pair>
        ensures { option_copied result ≡ slice_get self.now place }
    {
        self.pairs.get(place)
    }

    /// The pairs.
    pub fn as_slice(&self) -> &[Pair]
        ensures { result.now ≡ self.now }
    {
        self.pairs.as_slice()
    }

    /// The same pairs in memory of their own.
    pub fn copy(&self) -> Result<Pairs, NoMemory>
        ensures { IfOk result (λ made. made ≡ self.now) }
    {
        let mut made = Pairs::new(*self.pairs.allocator());
        for pair in &self.pairs {
            made.push(pair.copy()?)?;
        }
        Ok(made)
    }
}
