// Bytes that grow, whose room is known.
ghost use Rattle.std.specs.Prelude.{◌≡◌, ◌+◌, ◌-◌, ◌≤◌, [], ◌++◌, length, vec_len, vec_capacity, IfOk, OnOk, OnErr, IsOk};

use crate::NoMemory;
use std::alloc::Global;
use std::marker::Model;

/// Bytes in memory of their own, seen as their list and the room for more.
#[derive(Drop)]
pub struct Bytes {
    bytes: Vec<u8>,
}

impl Model for Bytes {
    ghost use Rattle.std.specs.Prelude.{◌-◌, vec_len, vec_capacity};
    ghost use Rattle.lti_outside.specs.Held.{Held};

    ghost Value = { Held };

    ghost view = { λ b. record {
      list = b.bytes.items;
      room = vec_capacity b.bytes - vec_len b.bytes;
    } };
}

impl Bytes {
    /// No bytes, which take no memory.
    pub fn new(alloc: Global) -> Bytes
        ensures { result.list ≡ [] }
    {
        Bytes {
            bytes: Vec::new(alloc),
        }
    }

    /// The bytes of a vector, without a copy.
    pub fn from_vec(bytes: Vec<u8>) -> Bytes
        ensures { result.list ≡ bytes.items }
    {
        Bytes { bytes }
    }

    /// How many more bytes fit without asking for memory.
    pub fn spare(&self) -> usize
        ensures { result ≡ self.now.room }
    {
        self.bytes.capacity() - self.bytes.len()
    }

    /// Makes room for `more` bytes. On `NoMemory` nothing has changed.
    pub fn reserve(&mut self, more: usize) -> Result<(), NoMemory>
        ensures list { self.new.list ≡ self.old.list }
        ensures ok { OnOk result (more ≤ self.new.room) }
        ensures err { OnErr result (self.new ≡ self.old) }
    {
        self.bytes.reserve(more)?;
        Ok(())
    }

    /// Appends `piece`, which succeeds where there is room. On `NoMemory` no byte was appended.
    pub fn push(&mut self, piece: &[u8]) -> Result<(), NoMemory>
        ensures ok { OnOk result (self.new.list ≡ self.old.list ++ piece.now) }
        ensures room { OnOk result (self.old.room ≤ self.new.room + length piece.now) }
        ensures succeeds { length piece.now ≤ self.old.room → IsOk result }
        ensures err { OnErr result (self.new.list ≡ self.old.list) }
    {
        self.bytes.extend_from_slice(piece)?;
        Ok(())
    }

    /// The bytes.
    pub fn get(&self) -> &[u8]
        ensures { result.now ≡ self.now.list }
    {
        self.bytes.as_slice()
    }

    /// The same bytes in memory of their own.
    pub fn copy(&self) -> Result<Bytes, NoMemory>
        ensures { IfOk result (λ made. made.list ≡ self.now.list) }
    {
        Ok(Bytes {
            bytes: self.bytes.clone()?,
        })
    }
}
