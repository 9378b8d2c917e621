//! Cases of the machine: each line of the input is one, and each line of the output is what the machine answers to it.
//!
//! A line is a word and what belongs to it; a line that begins with `#` says what the next ones are for.
//!
//!     window N                 a machine that has accepted nothing, whose keys have N nonces at most
//!     note .. launch .. grade .. read .. delete .. issue ..    a call of that machine: its reply
//!     sound CALL               whether a machine takes the call
//!     entries                  how many entries the machine has
//!     entry N                  the entry at this place, counted from 0
//!     kept REPLY NOW CALL      the entry of a call with this reply, at this moment, and how many bytes it has
//!     bytes ..                 the entry that is kept in these bytes, and how many they are
#![tactic(auto)]

mod calls;
mod texts;

use crate::calls::{read_call, read_reply};
use crate::texts::{entry_text, reply_text};
use case_words::{Misread, Words};
use lti_machine::{
    Call, Entry, EntryFault, Solo, call_len, entry_bytes, entry_len, entry_of, read_entry,
};
use lti_outside::{Bytes, Limits};
use std::alloc::Global;
use std::io;

// The machine that is asked, and how many nonces a key may have.
#[derive(Drop)]
struct Bench {
    solo: Solo,
    window: u32,
}

impl Bench {
    // Begins anew, with this window.
    fn begin(&mut self, alloc: Global, words: &mut Words<'_>) -> Result<String, Misread> {
        let window = words.count()?;
        self.solo = Solo::new(alloc);
        self.window = window;
        Ok(format!(in alloc; "window {window}")?)
    }

    // The reply to a call.
    fn ask(&mut self, alloc: Global, call: Call) -> Result<String, Misread> {
        if !call.sound() {
            return Ok(String::from_str(alloc, "not sound")?);
        }
        let limits = Limits {
            window: self.window,
            ..Limits::usual()
        };
        reply_text(alloc, self.solo.answer(call, &limits))
    }

    // The entry at a place.
    fn entry(&self, alloc: Global, words: &mut Words<'_>) -> Result<String, Misread> {
        match self.solo.entry(words.count()? as usize) {
            Some(entry) => entry_text(alloc, &entry.copy()?),
            None => Ok(String::from_str(alloc, "none")?),
        }
    }
}

fn sound(alloc: Global, words: &mut Words<'_>) -> Result<String, Misread> {
    let call = read_call(alloc, words)?;
    Ok(format!(in alloc; "{}", call.sound())?)
}

// The entry of a call with its reply.
fn kept(alloc: Global, words: &mut Words<'_>) -> Result<String, Misread> {
    let reply = read_reply(words)?;
    let now = words.number()?;
    let call = read_call(alloc, words)?;
    let entry = entry_of(&call, reply, now)?;
    let text = entry_text(alloc, &entry)?;
    Ok(format!(in alloc; "{text}, {} bytes", call_len(&call, reply))?)
}

// The bytes that the words left spell: each word is two hexadecimal digits a byte, or a text behind `'`.
fn read_bytes(alloc: Global, words: &mut Words<'_>) -> Result<Bytes, Misread> {
    let mut bytes = Bytes::new(alloc);
    for word in words.rest().split(' ') {
        match word.strip_prefix('\'') {
            Some(text) => bytes.push(Words::of(text).text(alloc)?.get().as_bytes())?,
            None => match hex::decode(alloc, word) {
                Ok(piece) => bytes.push(&piece)?,
                Err(_) => return Err(Misread::NoCase),
            },
        }
    }
    Ok(bytes)
}

// The bytes in which an entry is kept.
fn kept_bytes(alloc: Global, entry: &Entry) -> Result<Bytes, Misread> {
    if entry_len(entry) >= 4_294_967_296 {
        return Err(Misread::NoCase);
    }
    Ok(entry_bytes(alloc, entry)?)
}

// The entry that is kept in these bytes, which has to be kept in them again.
fn bytes(alloc: Global, words: &mut Words<'_>) -> Result<String, Misread> {
    let bytes = read_bytes(alloc, words)?;
    match read_entry(alloc, bytes.get()) {
        Ok(entry) => again(alloc, &entry, &bytes),
        Err(EntryFault::NoReading) => Ok(String::from_str(alloc, "no entry")?),
        Err(EntryFault::NoMemory) => Err(Misread::NoMemory),
    }
}

// An entry and how many bytes it has, if it is kept in these.
fn again(alloc: Global, entry: &Entry, bytes: &Bytes) -> Result<String, Misread> {
    let kept = kept_bytes(alloc, entry)?;
    if kept.get() != bytes.get() {
        return Ok(String::from_str(alloc, "other bytes")?);
    }
    let text = entry_text(alloc, entry)?;
    Ok(format!(in alloc; "{text}, {} bytes", entry_len(entry))?)
}

fn answer(alloc: Global, bench: &mut Bench, line: &str) -> Result<String, Misread> {
    let mut words = Words::of(line);
    match words.word()? {
        "window" => bench.begin(alloc, &mut words),
        "sound" => sound(alloc, &mut words),
        "entries" => Ok(format!(in alloc; "{}", bench.solo.len())?),
        "entry" => bench.entry(alloc, &mut words),
        "kept" => kept(alloc, &mut words),
        "bytes" => bytes(alloc, &mut words),
        _ => {
            let call = read_call(alloc, &mut Words::of(line))?;
            bench.ask(alloc, call)
        }
    }
}

// Prints what the machine answers to a line.
fn print_answer(rt: &HostRuntime, bench: &mut Bench, line: &str) -> io::Result<()> {
    if line.starts_with('#') {
        return Ok(());
    }
    match answer(rt.alloc(), bench, line) {
        Ok(text) => println!(rt; "{text}"),
        Err(fault) => println!(rt; "{fault:?}"),
    }
}

// Prints what the machine answers to each line of the input.
fn print_answers(rt: &HostRuntime, bench: &mut Bench) -> io::Result<()> {
    for line in rt.lines(rt.alloc()) {
        let line = line?;
        print_answer(rt, bench, line.as_str())?;
    }
    Ok(())
}

fn main(rt: HostRuntime) -> io::Result<()> {
    let mut bench = Bench {
        solo: Solo::new(rt.alloc()),
        window: 1,
    };
    print_answers(&rt, &mut bench)
}
