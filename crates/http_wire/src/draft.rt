// Bytes that are put together before they are given to a sink.
ghost use Rattle.std.specs.Prelude.{◌≡◌, ◌≤◌, ◌+◌, ◌-◌, ◌++◌, ℕ, List, [], length, take};

use std::marker::Model;

/// How many bytes a draft has room for.
pub const ROOM: usize = 2048;

/// Bytes in a room of their own, which takes no memory, seen as their list.
#[derive(Drop)]
pub struct Draft {
    room: [u8; ROOM],
    end: usize,
}

impl Model for Draft {
    ghost Value = { List ℕ };

    ghost view = { λ d. take d.end d.room };

    ghost invariant = { λ d. d.end ≤ 2048 };
}

// Writes `piece` into `room` from a place on.
fn put(room: &mut [u8], at: usize, piece: &[u8])
    requires { at + length piece.now ≤ length room.old }
    ensures { take (at + length piece.now) room.new ≡ take at room.old ++ piece.now }
{
    room[at..at + piece.len()].copy_from_slice(piece);
}

impl Draft {
    /// No bytes.
    pub fn new() -> Draft
        ensures { result ≡ [] }
    {
        Draft {
            room: [0; ROOM],
            end: 0,
        }
    }

    /// How many more bytes there is room for.
    pub fn spare(&self) -> usize
        ensures { result + length self.now ≡ 2048 }
    {
        ROOM - self.end
    }

    /// Appends `piece`.
    pub fn push(&mut self, piece: &[u8])
        requires { length self.old + length piece.now ≤ 2048 }
        ensures { self.new ≡ self.old ++ piece.now }
    {
        put(&mut self.room, self.end, piece);
        self.end += piece.len();
    }

    /// Drops all bytes.
    pub fn clear(&mut self)
        ensures { self.new ≡ [] }
    {
        self.end = 0;
    }

    /// The bytes.
    pub fn get(&self) -> &[u8]
        ensures { result.now ≡ self.now }
    {
        &self.room[..self.end]
    }
}
