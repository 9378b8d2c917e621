//! Cases of the book of grades: a line of the input is one, and a line of the output is what the book tells.
//!
//! A line is a word and what belongs to it; one that begins with `#` says what the next ones are for. Some lines only change
//! the book:
//!
//!     book                       a book of no entries
//!     add KEY EFFECT             room is made for an entry, and it is applied
//!     prepare KEY EFFECT         room is made for an entry, which isn't applied
//!
//! The others ask:
//!
//!     standing KEY ID            how the grade of an id stands
//!     rows                       how many ids are issued
//!     row PLACE                  the issued id at a place, counted from 0
//!     placement KEY LINK USER    where the grade of a user of a link goes
//!     ask KEY ACTION             the reply to a call
#![tactic(auto)]

mod asks;

use crate::asks::{read_action, read_effect};
use case_words::{Misread, Words};
use gradebook::Gradebook;
use lti_machine::{Call, Entry, Reply, Standing};
use lti_outside::Text;
use std::alloc::Global;
use std::io;

// The entry of a key that changes what the words say.
fn read_entry(alloc: Global, words: &mut Words<'_>) -> Result<Entry, Misread> {
    Ok(Entry {
        moment: 1_400_000_000,
        key: words.text(alloc)?,
        timestamp: 1_400_000_000,
        nonce: Text::new(alloc, "n")?,
        effect: read_effect(alloc, words)?,
    })
}

// The call of a key that asks what the words say.
fn read_call(alloc: Global, words: &mut Words<'_>) -> Result<Call, Misread> {
    Ok(Call {
        caller: 0,
        moment: 1_400_000_000,
        key: words.text(alloc)?,
        timestamp: 1_400_000_000,
        nonce: Text::new(alloc, "n")?,
        action: read_action(alloc, words)?,
    })
}

fn standing_text(alloc: Global, standing: Standing) -> Result<String, Misread> {
    Ok(match standing {
        Standing::Unknown => String::from_str(alloc, "unknown")?,
        Standing::Empty => String::from_str(alloc, "empty")?,
        Standing::Scored(score) => score.print(alloc)?,
    })
}

fn reply_text(alloc: Global, reply: Reply) -> Result<String, Misread> {
    Ok(match reply {
        Reply::GradeRead { score: None } => String::from_str(alloc, "GradeRead none")?,
        Reply::GradeRead { score: Some(score) } => {
            format!(in alloc; "GradeRead {}", score.print(alloc)?)?
        }
        told => format!(in alloc; "{told:?}")?,
    })
}

fn row_text(alloc: Global, book: &Gradebook, place: usize) -> Result<String, Misread> {
    match book.row(place) {
        Some(row) => {
            let standing = standing_text(alloc, row.standing)?;
            Ok(format!(in alloc; "{} {} {standing}", row.key, row.id)?)
        }
        None => Ok(String::from_str(alloc, "none")?),
    }
}

fn placement_text(
    alloc: Global,
    book: &Gradebook,
    words: &mut Words<'_>,
) -> Result<String, Misread> {
    match book.placement(words.word()?, words.word()?, words.word()?) {
        Some(place) => Ok(format!(in alloc; "{} {}", place.sourced_id, place.service)?),
        None => Ok(String::from_str(alloc, "none")?),
    }
}

// Changes the book as the line says; `false` where it changes nothing.
fn change(alloc: Global, book: &mut Gradebook, words: &mut Words<'_>) -> Result<bool, Misread> {
    match words.word()? {
        "book" => *book = Gradebook::new(alloc)?,
        "add" => {
            let entry = read_entry(alloc, words)?;
            book.prepare(&entry)?;
            book.apply(entry);
        }
        "prepare" => book.prepare(&read_entry(alloc, words)?)?,
        _ => return Ok(false),
    }
    Ok(true)
}

// What the book tells to a line that asks.
fn tell(alloc: Global, book: &Gradebook, words: &mut Words<'_>) -> Result<String, Misread> {
    match words.word()? {
        "standing" => standing_text(alloc, book.grade(words.word()?, words.word()?)),
        "rows" => Ok(format!(in alloc; "{}", book.rows())?),
        "row" => {
            let place = words.count()? as usize;
            row_text(alloc, book, place)
        }
        "placement" => placement_text(alloc, book, words),
        "ask" => reply_text(alloc, book.reply(&read_call(alloc, words)?)),
        _ => Err(Misread::NoCase),
    }
}

// What comes of a line, which is nothing where it only changes the book.
fn told(alloc: Global, book: &mut Gradebook, line: &str) -> Result<Option<String>, Misread> {
    if line.starts_with('#') || change(alloc, book, &mut Words::of(line))? {
        return Ok(None);
    }
    Ok(Some(tell(alloc, book, &mut Words::of(line))?))
}

// Prints what comes of a line.
fn print_told(rt: &HostRuntime, book: &mut Gradebook, line: &str) -> io::Result<()> {
    match told(rt.alloc(), book, line) {
        Ok(Some(text)) => println!(rt; "{text}"),
        Ok(None) => Ok(()),
        Err(fault) => println!(rt; "{fault:?}"),
    }
}

// Prints what comes of each line of the input.
fn print_all(rt: &HostRuntime, book: &mut Gradebook) -> io::Result<()> {
    for line in rt.lines(rt.alloc()) {
        let line = line?;
        print_told(rt, book, line.as_str())?;
    }
    Ok(())
}

fn main(rt: HostRuntime) -> io::Result<()> {
    match Gradebook::new(rt.alloc()) {
        Ok(mut book) => print_all(&rt, &mut book),
        Err(fault) => println!(rt; "{fault:?}"),
    }
}
