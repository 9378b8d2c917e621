//! Cases of the wire: a line of the input is one, and a line of the output is what came of it.
//!
//! A line is a word and what belongs to it; one that begins with `#` says what the next ones are for. A text has `\r`, `\n`
//! and `\s` for CR, LF and a blank, and `\x` with two hexadecimal digits for any byte. Some lines only prepare the next ones:
//!
//!     limits HEAD HEADERS BODY     the limits from here on
//!     pieces SIZE ..               the sizes of the pieces in which a link gives its bytes, from here on
//!     fails NUMBER                 the call of the next line's link that fails, counted from 0
//!     put TEXT                     bytes that stand before those of the next line
//!     repeat COUNT TEXT            the same, so many times
//!
//! The others ask:
//!
//!     read TEXT                    the requests that a link gives, with each size of the pieces
//!     answer TEXT                  the answer that a link gives, with each size
//!     tap LEAST TEXT               how many bytes a tap was fed, and whether in at least so many pieces
//!     respond STATUS MEDIA CLOSE TEXT      an answer as it is written
//!     post METHOD PATH MEDIA       a request as it is written
#![tactic(auto)]

mod reading;
mod writing;

use crate::reading::{answer, fed, link, requests};
use crate::writing::{post, respond};
use case_words::{Misread, Words, spelled_bytes};
use lti_outside::{Bytes, Limits};
use std::alloc::Global;
use std::io;
use std::mem::replace;

// What earlier lines have prepared.
#[derive(Drop)]
struct Bench {
    limits: Limits,
    sizes: Vec<usize>,
    failing: Vec<u64>,
    front: Bytes,
}

impl Bench {
    // With no failing call, pieces of one byte and the usual limits.
    fn new(alloc: Global) -> Result<Bench, Misread> {
        Ok(Bench {
            limits: Limits::usual(),
            sizes: [1].to_vec(alloc)?,
            failing: Vec::new(alloc),
            front: Bytes::new(alloc),
        })
    }

    // Prepares what the line says; `false` where it prepares nothing.
    fn prepare(&mut self, alloc: Global, words: &mut Words<'_>) -> Result<bool, Misread> {
        match words.word()? {
            "limits" => {
                self.limits = Limits {
                    head: words.count()?,
                    headers: words.count()?,
                    body: words.count()?,
                    ..Limits::usual()
                };
            }
            "pieces" => self.sizes = sizes(alloc, words)?,
            "fails" => self.failing = [words.number()?].to_vec(alloc)?,
            "put" => self.put(alloc, 1, words.rest())?,
            "repeat" => {
                let count = words.count()?;
                self.put(alloc, count, words.rest())?;
            }
            _ => return Ok(false),
        }
        Ok(true)
    }

    fn put(&mut self, alloc: Global, count: u32, text: &str) -> Result<(), Misread> {
        let bytes = spelled_bytes(alloc, text)?;
        for _ in 0..count {
            self.front.push(bytes.get())?;
        }
        Ok(())
    }

    // What a link gives that gives the bytes in pieces of this size.
    fn come(
        &self,
        alloc: Global,
        bytes: &[u8],
        size: usize,
        are_answers: bool,
    ) -> Result<String, Misread> {
        let mut ends = link(alloc, bytes, size, &self.failing)?;
        if are_answers {
            return answer(alloc, &mut ends, &self.limits);
        }
        requests(alloc, &mut ends, &self.limits)
    }

    // What a link gives with each size of its pieces, which has to be the same.
    fn each_way(&self, alloc: Global, bytes: &[u8], are_answers: bool) -> Result<String, Misread> {
        let mut told = String::new(alloc);
        for size in self.sizes.iter() {
            let came = self.come(alloc, bytes, *size, are_answers)?;
            if !told.is_empty() && told != came {
                return Ok(format!(in alloc; "{told} but {came} in pieces of {size}")?);
            }
            told = came;
        }
        Ok(told)
    }

    // What a tap is fed of a request that comes in pieces of 1000 bytes.
    fn tap(&self, alloc: Global, bytes: &[u8], least: u32) -> Result<String, Misread> {
        let mut ends = link(alloc, bytes, 1000, &self.failing)?;
        fed(alloc, &mut ends, &self.limits, least)
    }

    // What comes of a line that asks, with these bytes before its own.
    fn ask(&self, alloc: Global, line: &str, front: Bytes) -> Result<String, Misread> {
        let mut words = Words::of(line);
        match words.word()? {
            "read" => self.each_way(alloc, whole(alloc, front, &words)?.get(), false),
            "answer" => self.each_way(alloc, whole(alloc, front, &words)?.get(), true),
            "tap" => {
                let least = words.count()?;
                self.tap(alloc, whole(alloc, front, &words)?.get(), least)
            }
            "respond" => respond(alloc, &mut words, front, &self.failing),
            "post" => post(alloc, &mut words),
            _ => Err(Misread::NoCase),
        }
    }
}

// The bytes and those that the rest of the line spells.
fn whole(alloc: Global, front: Bytes, words: &Words<'_>) -> Result<Bytes, Misread> {
    let mut bytes = front;
    bytes.push(spelled_bytes(alloc, words.rest())?.get())?;
    Ok(bytes)
}

fn sizes(alloc: Global, words: &mut Words<'_>) -> Result<Vec<usize>, Misread> {
    let mut sizes = Vec::new(alloc);
    for word in words.rest().split(' ') {
        sizes.push(Words::of(word).count()? as usize)?;
    }
    Ok(sizes)
}

// What comes of a line, which is nothing where it only prepares the next ones.
fn told(alloc: Global, bench: &mut Bench, line: &str) -> Result<Option<String>, Misread> {
    if line.starts_with('#') || bench.prepare(alloc, &mut Words::of(line))? {
        return Ok(None);
    }
    let front = replace(&mut bench.front, Bytes::new(alloc));
    let told = bench.ask(alloc, line, front)?;
    bench.failing = Vec::new(alloc);
    Ok(Some(told))
}

// Prints what comes of a line.
fn print_told(rt: &HostRuntime, bench: &mut Bench, line: &str) -> io::Result<()> {
    match told(rt.alloc(), bench, line) {
        Ok(Some(text)) => println!(rt; "{text}"),
        Ok(None) => Ok(()),
        Err(fault) => println!(rt; "{fault:?}"),
    }
}

// Prints what comes of each line of the input.
fn print_all(rt: &HostRuntime, bench: &mut Bench) -> io::Result<()> {
    for line in rt.lines(rt.alloc()) {
        let line = line?;
        print_told(rt, bench, line.as_str())?;
    }
    Ok(())
}

fn main(rt: HostRuntime) -> io::Result<()> {
    match Bench::new(rt.alloc()) {
        Ok(mut bench) => print_all(&rt, &mut bench),
        Err(fault) => println!(rt; "{fault:?}"),
    }
}
