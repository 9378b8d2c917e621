//! Cases of whole runs, one behind another over the same disk: a line of the input is one, and a line of the output is the
//! exit status of the run and the bytes that it wrote.
//!
//! A line is a word and what belongs to it; one that begins with `#` says what the next ones are for. A text has `\r`, `\n`
//! and `\s` for CR, LF and a blank, and `\x` with two hexadecimal digits for any byte. Some lines only prepare the next runs:
//!
//!     disk SIZE HALF [PLACE TEXT]  a disk of so many bytes, zero but for these, for a journal with this half
//!     limits WINDOW REQUESTS CALLS
//!     settings TEXT                what the settings' source gives
//!     clock MOMENT                 what the clock tells
//!     random FIRST SECOND          the random words of each run
//!     pieces SIZE                  the size of the pieces in which the link gives its bytes
//!     input TEXT, more TEXT        the bytes that the link gives; and such as stand behind them
//!     reads NUMBER                 the read of the next run's link that fails, counted from 0; or the write: writes NUMBER
//!     fails NUMBER                 the call of the disk that fails from here on, counted from 0; or from which on all
//!                                  fail: stops NUMBER
//!     crash PICK                   the disk is the image with this pick that a crash now may leave
//!
//! The others ask:
//!
//!     run WORD ..                  what a run of these words does; an empty word is `-`
//!     cuts COUNT WORD ..           the same, so many times over copies of the disk, with pieces of 1 byte, 2 bytes ..
//!     images COUNT WORD ..         the same over so many images that a crash now may leave
//!     show PLACE LEN               so many bytes of the disk
//!
//! The messages of the input were signed, and the answers put together, by a program in Python that has nothing of this one.
#![tactic(auto)]

mod bench;
mod points;

use crate::bench::Bench;
use case_words::{Misread, Words};
use std::alloc::Global;
use std::io;

// What comes of a line, which is nothing where it only prepares the next ones.
fn told(alloc: Global, bench: &mut Bench, line: &str) -> Result<Option<String>, Misread> {
    if line.starts_with('#') || bench.prepare(alloc, &mut Words::of(line))? {
        return Ok(None);
    }
    Ok(Some(bench.ask(alloc, &mut Words::of(line))?))
}

// Prints what comes of a line.
fn print_told(rt: &HostRuntime, bench: &mut Bench, line: &str) -> io::Result<()> {
    match told(rt.alloc(), bench, line) {
        Ok(Some(text)) => println!(rt; "{text}"),
        Ok(None) => Ok(()),
        Err(fault) => println!(rt; "{fault:?}"),
    }
}

// Prints what comes of each line of the input.
fn print_all(rt: &HostRuntime, bench: &mut Bench) -> io::Result<()> {
    for line in rt.lines(rt.alloc()) {
        let line = line?;
        print_told(rt, bench, line.as_str())?;
    }
    Ok(())
}

fn main(rt: HostRuntime) -> io::Result<()> {
    match Bench::new(rt.alloc()) {
        Ok(mut bench) => print_all(&rt, &mut bench),
        Err(fault) => println!(rt; "{fault:?}"),
    }
}
