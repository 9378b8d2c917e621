//! Cases of the window of nonces: each line of the input is one, and each line of the output is what the window answers to it.
//!
//! A line is a word and what belongs to it; one that begins with `#` says what the next ones are for. Moments and timestamps are
//! seconds; where the window's moment is greater than that of a line, it stands in its place.
//!
//!     window LIMIT                         a window that holds nothing, whose keys have so many nonces at most
//!     ask MOMENT KEY TIMESTAMP NONCE       the verdict on a nonce, which is admitted where it is new
//!     load MOMENT KEY TIMESTAMP NONCE      a nonce of an earlier run
//!     fill KEY MOMENT EACH COUNT           COUNT nonces 0, 1, .. of a key, EACH of them a second: how many are new
//!     raise MOMENT                         the moment rises
//!     high                                 the moment of the window
//!     kept KEY                             how many nonces of a key aren't forgotten
//!     live MOMENT                          how many nonces aren't forgotten, the first and the last
//!     size MOMENT                          how many bytes a digest has for them
//!     draw SEED LIMIT STEP GRAIN COUNT     COUNT drawn calls of a window, beside one that keeps a list of all its entries and
//!                                          walks over it: how many both answered alike, and what the answers were
//!
//! No number of the output is the window's own. Those of drawn calls were counted by a program in another language, which draws
//! the same calls and applies the rules of the machine (RFC 5849 section 3.3, and this project's own) to a list; the others by
//! hand, and by that program too.
#![tactic(auto)]

mod calls;
mod draws;
mod plain;

use case_words::{Misread, Words};
use lti_machine::Verdict;
use nonce_window::{NonceWindow, Triple};
use std::alloc::Global;
use std::io;

// The verdict on the nonce of a line.
fn ask(alloc: Global, window: &mut NonceWindow, words: &mut Words<'_>) -> Result<String, Misread> {
    let moment = words.number()?;
    let key = words.word()?;
    let timestamp = words.number()?;
    let verdict = calls::ask(window, moment, key, timestamp, words.word()?)?;
    Ok(format!(in alloc; "{verdict:?}")?)
}

// Loads the nonce of a line.
fn load(window: &mut NonceWindow, words: &mut Words<'_>) -> Result<(), Misread> {
    let moment = words.number()?;
    let key = words.word()?;
    let timestamp = words.number()?;
    calls::load(window, moment, key, timestamp, words.word()?)
}

// How many nonces of a key were new, of which some come at each second from a moment on.
fn fill(alloc: Global, window: &mut NonceWindow, words: &mut Words<'_>) -> Result<u32, Misread> {
    let key = words.word()?;
    let moment = words.number()?;
    let each = words.number()?.max(1);
    let mut new: u32 = 0;
    for place in 0..words.number()? {
        let now = moment.saturating_add(place / each);
        let nonce = place.to_string(alloc)?;
        if let Verdict::New = calls::ask(window, now, key, now, nonce.as_str())? {
            new = new.saturating_add(1);
        }
    }
    Ok(new)
}

fn triple_text(alloc: Global, triple: &Triple) -> Result<String, Misread> {
    Ok(format!(in alloc;
        "{} {} {}",
        triple.key.get(),
        triple.timestamp,
        triple.nonce.get()
    )?)
}

// How many nonces there are, the first and the last.
fn live_text(alloc: Global, triples: &[Triple]) -> Result<String, Misread> {
    match (triples.first(), triples.last()) {
        (Some(first), Some(last)) => {
            let first = triple_text(alloc, first)?;
            let last = triple_text(alloc, last)?;
            Ok(format!(in alloc; "{}, {first} to {last}", triples.len())?)
        }
        _ => Ok(String::from_str(alloc, "none")?),
    }
}

// Changes the window as the line says; `false` where it changes nothing.
fn change(alloc: Global, window: &mut NonceWindow, words: &mut Words<'_>) -> Result<bool, Misread> {
    match words.word()? {
        "window" => *window = NonceWindow::new(alloc, words.count()?)?,
        "load" => load(window, words)?,
        "raise" => window.raise(words.number()?),
        _ => return Ok(false),
    }
    Ok(true)
}

// What the window answers to a line that asks.
fn tell(alloc: Global, window: &mut NonceWindow, words: &mut Words<'_>) -> Result<String, Misread> {
    match words.word()? {
        "ask" => ask(alloc, window, words),
        "fill" => Ok(format!(in alloc; "{} new", fill(alloc, window, words)?)?),
        "high" => Ok(format!(in alloc; "{}", window.high())?),
        "kept" => Ok(format!(in alloc; "{}", window.kept(words.word()?))?),
        "live" => live_text(alloc, &calls::live(window, words.number()?)?),
        "size" => Ok(format!(in alloc; "{}", calls::live_size(window, words.number()?))?),
        "draw" => draws::answer(alloc, words),
        _ => Err(Misread::NoCase),
    }
}

// What comes of a line, which is nothing where it only changes the window.
fn told(alloc: Global, window: &mut NonceWindow, line: &str) -> Result<Option<String>, Misread> {
    if line.starts_with('#') || change(alloc, window, &mut Words::of(line))? {
        return Ok(None);
    }
    Ok(Some(tell(alloc, window, &mut Words::of(line))?))
}

// Prints what comes of a line.
fn print_told(rt: &HostRuntime, window: &mut NonceWindow, line: &str) -> io::Result<()> {
    match told(rt.alloc(), window, line) {
        Ok(Some(text)) => println!(rt; "{text}"),
        Ok(None) => Ok(()),
        Err(fault) => println!(rt; "{fault:?}"),
    }
}

// Prints what comes of each line of the input.
fn print_all(rt: &HostRuntime, window: &mut NonceWindow) -> io::Result<()> {
    for line in rt.lines(rt.alloc()) {
        let line = line?;
        print_told(rt, window, line.as_str())?;
    }
    Ok(())
}

fn main(rt: HostRuntime) -> io::Result<()> {
    match NonceWindow::new(rt.alloc(), 1) {
        Ok(mut window) => print_all(&rt, &mut window),
        Err(fault) => println!(rt; "{fault:?}"),
    }
}
