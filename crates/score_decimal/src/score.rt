// A score.
ghost use Rattle.std.specs.Prelude.{◌≡◌, ℕ, ◌^◌, ◌≤◌, ◌↔◌, Some, IfOk, take};
ghost use Rattle.std.specs.String.{string_bytes};
ghost use Rattle.score_decimal.specs.Printed.{score_text};
ghost use Rattle.score_decimal.specs.Written.{IsWritten};

use crate::digits::ONE;
use crate::print::{ascii_text, write_units};
use crate::read::units_of;
use lti_outside::NoMemory;
use std::alloc::Global;
use std::marker::Model;

/// A score from 0 to 1, exact to 30 places.
#[derive(Clone, Copy, Debug, PartialEq, Eq, PartialOrd, Ord)]
pub struct Score {
    units: u128,
}

impl Model for Score {
    ghost Value = { ℕ };

    ghost view = { λ s. s.units };

    ghost invariant = { λ s. s.units ≤ 10 ^ 30 };

    ghost inverse = { λ n. record { units = n } };
}

impl Score {
    /// The score that the text writes: digits, digits and a fraction behind a point, or a fraction alone;
    /// at most 40 characters, a number from 0 to 1, and without the fraction's trailing zeros at most 30
    /// places. There is none for any other text. Takes no memory.
    pub fn read(text: &str) -> Option<Score>
        ensures { (n : ℕ) → (result ≡ Some n) ↔ IsWritten text.now n }
    {
        match units_of(text.as_bytes()) {
            Some(units) => Some(Score { units }),
            None => None,
        }
    }

    /// The score of so many units of 10^-30; there is none of more than 10^30.
    pub fn from_parts(parts: u128) -> Option<Score>
        ensures { (n : ℕ) → (result ≡ Some n) ↔ ((n ≡ parts) × (parts ≤ 10 ^ 30)) }
    {
        if parts > ONE {
            return None;
        }
        Some(Score { units: parts })
    }

    /// The score in units of 10^-30, from 0 to 10^30.
    pub fn parts(&self) -> u128
        ensures parts { result ≡ self.now }
        ensures range { result ≤ 10 ^ 30 }
    {
        self.units
    }

    /// Prints the score at the front of `room` and answers the length of the text: `0`, `1`, or `0.` and
    /// the fraction without the zeros at its end. Takes no memory.
    pub fn print_into(&self, room: &mut [u8; 32]) -> usize
        ensures within { result ≤ 32 }
        ensures text { take result room.new ≡ score_text self.now }
        ensures writes { (n : ℕ) → IsWritten (take result room.new) n ↔ n ≡ self.now }
    {
        write_units(self.units, room)
    }

    /// The text of the score, as `print_into` prints it.
    pub fn print(&self, alloc: Global) -> Result<String, NoMemory>
        ensures text { IfOk result (λ text. string_bytes text ≡ score_text self.now) }
        ensures writes { IfOk result (λ text. (n : ℕ) → IsWritten (string_bytes text) n ↔ n ≡ self.now) }
    {
        let mut room = [0; 32];
        let len = self.print_into(&mut room);
        ascii_text(alloc, &room[..len])
    }
}
