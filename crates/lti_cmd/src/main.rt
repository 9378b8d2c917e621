//! The program: its words, its real ends, and its status.
//!
//! All that it does is `lti_server::run`, over standard input and output or, for `passback`, a connection to the
//! address that is named, the settings file, the journal's file, the system's clock and a generator that the system
//! seeds. Here stand only the texts of `--help` and `--version`, and what is printed for a status.
#![tactic(auto)]

mod journal_file;
mod points;
mod words;

use crate::journal_file::{NoJournal, open_disk};
use crate::points::{ceiling, floor, nearest};
use crate::words::{Asked, address_of, read_words};
use gate_journal::{MountFault, Unmounted};
use lti_desk::Office;
use lti_outside::{
    Bytes, Disk, FileDisk, Limits, Link, MemoryDisk, StdLink, StdSource, SystemClock, SystemRandom,
};
use lti_server::{Scales, run};
use lti_words::{Status, read_command};
use rand::rngs::StdRng;
use score_decimal::Scale;
use std::fs::File;
use std::io::Read;
use std::net::TcpStream;
use std::process::ExitCode;
use std::rt::Env;
use std::{env, io};

const USAGE: &str = "\
lti_cmd check URL KEY SECRET MOMENT
    reads signed launch forms, one a line, and prints a verdict for each:
    accepted, bad form, bad signature, outside N, used or window full
lti_cmd answer
    answers the HTTP/1.1 requests of standard input, as a tool that signed launches start,
    by the scheme and the keys of the file lti.json
lti_cmd issue KEY ID
    takes grades of the sourcedId from now on
lti_cmd launch URL KEY LINK USER ID SERVICE
    prints a launch as a signed form
lti_cmd passback ADDRESS KEY LINK USER SCORE
    sends a score to where the last launch of the user from the link says
lti_cmd grades SCALE MAX
    prints the issued sourcedIds with their scores and points, and the total
lti_cmd --help
lti_cmd --version

What is accepted is kept in the file lti.journal, which is made where it is absent; one program at a time has it open.

URL       the address that the forms are posted to, as https://tool.example/lti/launch
KEY       the consumer key, 1 to 255 bytes
SECRET    the key's secret
MOMENT    the time of the check, in seconds since 1970, 1 to 15 digits
ID        the sourcedId of a grade; LINK, USER: the resource link and its user; 1 to 1023 bytes each
SERVICE   the address of the service that takes grades, or an empty word
ADDRESS   the host and the port of that service, as lms.example:80
SCORE     a number from 0 to 1, as 0.92
SCALE     floor, nearest or ceiling; MAX: the points of a full score, 1 to 1000000
";

// The settings, in the directory of the run.
const SETTINGS: &str = "lti.json";

const VERSION: &str = "lti_cmd 0.1.0\n";

// The words of the command line, without the program's name.
fn given_words(rt: &(impl Env + AllocGlobal)) -> io::Result<Vec<String>> {
    let mut words = Vec::new(rt.alloc());
    for word in env::args(rt)?.skip(1) {
        words.push(word)?;
    }
    Ok(words)
}

// Does what the words ask over these ends and this disk, with the settings that this reads. A system that gives no seed is a
// read fault.
fn work<R: Read + Drop, I: Link, D: Disk>(
    rt: &HostRuntime,
    words: &[String],
    settings: R,
    ends: &mut I,
    disk: D,
) -> (Status, D) {
    let Ok(generator) = rand::make_rng::<StdRng, _>(rt) else {
        return (Status::ReadFault, disk);
    };
    let alloc = rt.alloc();
    let Ok(lowest) = Box::new(alloc, floor) else {
        return (Status::NoMemory, disk);
    };
    let Ok(nearest) = Box::new(alloc, nearest) else {
        return (Status::NoMemory, disk);
    };
    let Ok(highest) = Box::new(alloc, ceiling) else {
        return (Status::NoMemory, disk);
    };
    let scales = Scales {
        floor: Scale::new(lowest),
        nearest: Scale::new(nearest),
        ceiling: Scale::new(highest),
    };
    let (number, disk) = run(
        alloc,
        words,
        &mut StdSource::new(settings),
        ends,
        disk,
        &SystemClock::new(rt),
        &mut SystemRandom::new(generator),
        &scales,
        &Limits::usual(),
    );
    (Status::of(number), disk)
}

// Does what the words ask, over the connection that they need. An address that can't be connected to is a read fault.
fn connect_and_work<R: Read + Drop, D: Disk>(
    rt: &HostRuntime,
    words: &[String],
    settings: R,
    disk: D,
) -> (Status, D) {
    let Some(address) = address_of(words) else {
        let mut ends = StdLink::new(rt.reader(), io::writer(rt));
        return work(rt, words, settings, &mut ends, disk);
    };
    match TcpStream::connect(rt, address) {
        Ok(stream) => work(
            rt,
            words,
            settings,
            &mut StdLink::new(&stream, &stream),
            disk,
        ),
        Err(_) => (Status::ReadFault, disk),
    }
}

// Does what the words ask over this disk, by the settings file, or by no bytes where it can't be opened.
fn work_on_disk<D: Disk>(rt: &HostRuntime, words: &[String], disk: D) -> (Status, D) {
    match File::open(rt, SETTINGS) {
        Ok(file) => connect_and_work(rt, words, file, disk),
        Err(_) => connect_and_work(rt, words, io::empty(), disk),
    }
}

// What is wrong with a journal that couldn't be mounted. A status has no place in it, so a damaged journal is mounted once
// more to find its place.
fn trouble_of(rt: &HostRuntime, status: Status, disk: FileDisk) -> Option<NoJournal> {
    let limits = Limits::usual();
    match status {
        Status::JournalTooSmall => Some(NoJournal::WrongSize {
            size: disk.size(),
            wanted: 2 * limits.half,
        }),
        Status::DamagedJournal => match Office::mount(rt.alloc(), disk, &limits) {
            Err(
                Unmounted {
                    fault: MountFault::Damaged { at },
                    ..
                },
            ) => Some(NoJournal::Damaged { at }),
            _ => None,
        },
        _ => None,
    }
}

// Does what the words ask, over the journal where they need it: how the run ended, and what is wrong with the journal.
fn work_on_journal(rt: &HostRuntime, words: &[String]) -> (Status, Option<NoJournal>) {
    let alloc = rt.alloc();
    let needs_journal = match read_command(alloc, words) {
        Ok(Some(command)) => command.uses_journal(),
        Ok(None) => false,
        Err(_) => return (Status::NoMemory, None),
    };
    if !needs_journal {
        let none = MemoryDisk::new(alloc, Bytes::new(alloc), Vec::new(alloc));
        let (status, _) = work_on_disk(rt, words, none);
        return (status, None);
    }
    match open_disk(rt, 2 * Limits::usual().half) {
        Ok(disk) => {
            let (status, disk) = work_on_disk(rt, words, disk);
            (status, trouble_of(rt, status, disk))
        }
        Err(none) => (Status::DiskFault, Some(none)),
    }
}

// How a run ends that printed a text.
fn printed(text: io::Result<()>) -> Status {
    match text {
        Ok(()) => Status::Done,
        Err(_) => Status::WriteFault,
    }
}

fn main(rt: HostRuntime) -> ExitCode {
    let (status, trouble) = match given_words(&rt) {
        Ok(words) => match read_words(&words) {
            Asked::Help => (printed(print!(rt; "{USAGE}")), None),
            Asked::Version => (printed(print!(rt; "{VERSION}")), None),
            Asked::Work => work_on_journal(&rt, &words),
        },
        Err(_) => (Status::Usage, None),
    };
    if status != Status::Done {
        let _ = eprintln!(rt; "{}", status.word());
    }
    if let Some(trouble) = trouble {
        let _ = eprintln!(rt; "{trouble}");
    }
    if status == Status::Usage {
        let _ = eprint!(rt; "{USAGE}");
    }
    ExitCode::from(status.number())
}
