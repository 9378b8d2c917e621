// The words of a line.
use crate::{Misread, spelled_bytes};
use lti_outside::Text;
use std::alloc::Global;

/// The words of a line that aren't read yet, with a blank between each two.
#[derive(Drop)]
pub struct Words<'a> {
    rest: &'a str,
}

impl<'a> Words<'a> {
    /// The words of a line.
    pub fn of(line: &'a str) -> Words<'a> {
        Words { rest: line }
    }

    /// All that is left of the line.
    pub fn rest(&self) -> &'a str {
        self.rest
    }

    /// The next word.
    pub fn word(&mut self) -> Result<&'a str, Misread> {
        if self.rest.is_empty() {
            return Err(Misread::NoCase);
        }
        let (word, rest) = self.rest.split_once(' ').unwrap_or((self.rest, ""));
        self.rest = rest;
        Ok(word)
    }

    /// The next word, which is a number below 2^64.
    pub fn number(&mut self) -> Result<u64, Misread> {
        let Ok(number) = self.word()?.parse::<u64>() else {
            return Err(Misread::NoCase);
        };
        Ok(number)
    }

    /// The next word, which is a number below 2^32.
    pub fn count(&mut self) -> Result<u32, Misread> {
        let Ok(count) = self.word()?.parse::<u32>() else {
            return Err(Misread::NoCase);
        };
        Ok(count)
    }

    /// The next word as a text: `-` is the empty one, and `255*k` has 255 letters `k`. It is spelled as bytes are.
    pub fn text(&mut self, alloc: Global) -> Result<Text, Misread> {
        let word = self.word()?;
        if word == "-" {
            return Ok(Text::empty(alloc));
        }
        match word.split_once('*') {
            Some((count, piece)) => match count.parse::<u32>() {
                Ok(count) => repeated(alloc, count, piece),
                Err(_) => Err(Misread::NoCase),
            },
            None => repeated(alloc, 1, word),
        }
    }
}

// The text that is spelled so, so many times.
fn repeated(alloc: Global, count: u32, spelled: &str) -> Result<Text, Misread> {
    let bytes = spelled_bytes(alloc, spelled)?;
    let Ok(piece) = str::from_utf8(bytes.get()) else {
        return Err(Misread::NoCase);
    };
    let mut text = Text::empty(alloc);
    for _ in 0..count {
        text.push(piece)?;
    }
    Ok(text)
}
