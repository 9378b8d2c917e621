// What the runs of the cases stand on: a disk, settings, a clock, random words, and what comes over the link.
use crate::points::{ceiling, floor, nearest};
use case_words::{Misread, Words, spelled_bytes, spelling_of};
use lti_outside::{
    Bytes, Disk, FixedClock, Limits, ListRandom, MemoryDisk, MemoryLink, MemorySink, MemorySource,
};
use lti_server::{Scales, run};
use score_decimal::Scale;
use std::alloc::Global;
use std::mem::replace;

/// What earlier lines have prepared, and the disk as the last run left it.
#[derive(Drop)]
pub struct Bench {
    limits: Limits,
    disk: MemoryDisk,
    settings: Bytes,
    moment: u64,
    random: Vec<u64>,
    input: Bytes,
    size: usize,
    reads: Vec<u64>,
    writes: Vec<u64>,
}

impl Bench {
    /// With no disk, no settings, runs of 1,000 calls at most, the clock at 1400000000, and links that give 4,096 bytes at a time.
    pub fn new(alloc: Global) -> Result<Bench, Misread> {
        Ok(Bench {
            limits: Limits {
                calls: 1_000,
                ..Limits::usual()
            },
            disk: MemoryDisk::new(alloc, Bytes::new(alloc), Vec::new(alloc)),
            settings: Bytes::new(alloc),
            moment: 1_400_000_000,
            random: [1, 2].to_vec(alloc)?,
            input: Bytes::new(alloc),
            size: 4_096,
            reads: Vec::new(alloc),
            writes: Vec::new(alloc),
        })
    }

    /// Prepares what the line says; `false` where it prepares nothing.
    pub fn prepare(&mut self, alloc: Global, words: &mut Words<'_>) -> Result<bool, Misread> {
        match words.word()? {
            "disk" => self.lay(alloc, words)?,
            "limits" => {
                self.limits.window = words.count()?;
                self.limits.requests = words.count()?;
                self.limits.calls = words.count()?;
            }
            "settings" => self.settings = spelled_bytes(alloc, words.rest())?,
            "clock" => self.moment = words.number()?,
            "random" => self.random = [words.number()?, words.number()?].to_vec(alloc)?,
            "pieces" => self.size = words.count()? as usize,
            "input" => self.input = spelled_bytes(alloc, words.rest())?,
            "more" => self.input.push(spelled_bytes(alloc, words.rest())?.get())?,
            "reads" => self.reads = [words.number()?].to_vec(alloc)?,
            "writes" => self.writes = [words.number()?].to_vec(alloc)?,
            "fails" => {
                let size = self.disk.size();
                let bytes = self.bytes(alloc, 0, size)?;
                let failing = [words.number()?].to_vec(alloc)?;
                self.disk = MemoryDisk::new(alloc, bytes, failing);
            }
            "stops" => {
                let size = self.disk.size();
                let bytes = self.bytes(alloc, 0, size)?;
                self.disk = MemoryDisk::new(alloc, bytes, Vec::new(alloc));
                self.disk.stop_at(words.number()?);
            }
            "crash" => self.disk = self.disk.image(words.number()?)?,
            _ => return Ok(false),
        }
        Ok(true)
    }

    // Lays a disk of so many zero bytes, and then of these bytes in their places.
    fn lay(&mut self, alloc: Global, words: &mut Words<'_>) -> Result<(), Misread> {
        let size = words.count()?;
        self.limits.half = u64::from(words.count()?);
        let mut bytes = Bytes::new(alloc);
        if !words.rest().is_empty() {
            for _ in 0..words.count()? {
                bytes.push(&[0])?;
            }
            bytes.push(spelled_bytes(alloc, words.rest())?.get())?;
        }
        for _ in bytes.get().len()..size as usize {
            bytes.push(&[0])?;
        }
        self.disk = MemoryDisk::new(alloc, bytes, Vec::new(alloc));
        Ok(())
    }

    // So many bytes of the disk, from a place on.
    fn bytes(&mut self, alloc: Global, place: u64, len: u64) -> Result<Bytes, Misread> {
        let mut bytes = Bytes::new(alloc);
        for at in place..place.saturating_add(len) {
            bytes.push(&[byte_at(&mut self.disk, at)?])?;
        }
        Ok(bytes)
    }

    // The link of the next run.
    fn link(&self, alloc: Global) -> Result<MemoryLink, Misread> {
        let source = source(alloc, self.input.get(), self.size, &self.reads)?;
        let sink = MemorySink::new(alloc, self.writes.to_vec(alloc)?);
        Ok(MemoryLink::new(source, sink))
    }

    // Runs the words over the disk: the status, and what was written.
    fn run(&mut self, alloc: Global, line: &str) -> Result<String, Misread> {
        let asked = asked_words(alloc, line)?;
        if !self.limits.sound() || 999_999_999_999_999 < self.moment {
            return Err(Misread::NoCase);
        }
        let scales = Scales {
            floor: Scale::new(Box::new(alloc, floor)?),
            nearest: Scale::new(Box::new(alloc, nearest)?),
            ceiling: Scale::new(Box::new(alloc, ceiling)?),
        };
        let none = MemoryDisk::new(alloc, Bytes::new(alloc), Vec::new(alloc));
        let disk = replace(&mut self.disk, none);
        let mut ends = self.link(alloc)?;
        let (status, disk) = run(
            alloc,
            &asked,
            &mut source(alloc, self.settings.get(), 1_000, &[])?,
            &mut ends,
            disk,
            &FixedClock::new(self.moment),
            &mut ListRandom::new(self.random.to_vec(alloc)?),
            &scales,
            &self.limits,
        );
        self.disk = disk;
        self.reads = Vec::new(alloc);
        self.writes = Vec::new(alloc);
        Ok(format!(in alloc; "{status} {}", spelling_of(alloc, ends.given())?)?)
    }

    // What comes of the words in this many runs over copies of the disk: each with the link's bytes in pieces of another size,
    // beginning with 1; or each over another image that a crash may leave. Where not always the same comes, each other thing is
    // told too.
    fn runs(
        &mut self,
        alloc: Global,
        count: u32,
        line: &str,
        are_images: bool,
    ) -> Result<String, Misread> {
        let size = self.size;
        let mut told = String::new(alloc);
        let none = MemoryDisk::new(alloc, Bytes::new(alloc), Vec::new(alloc));
        let left = replace(&mut self.disk, none);
        for pick in 0..count {
            if are_images {
                self.disk = left.image(u64::from(pick))?;
            } else {
                self.size = pick as usize + 1;
                self.disk = left.image(1)?;
            }
            let came = self.run(alloc, line)?;
            if told.is_empty() {
                told = came;
            } else if !told.contains(came.as_str()) {
                told = format!(in alloc; "{told} or {came}")?;
            }
        }
        self.size = size;
        self.disk = left;
        Ok(told)
    }

    /// What comes of a line that asks.
    pub fn ask(&mut self, alloc: Global, words: &mut Words<'_>) -> Result<String, Misread> {
        match words.word()? {
            "run" => self.run(alloc, words.rest()),
            "cuts" => {
                let count = words.count()?;
                self.runs(alloc, count, words.rest(), false)
            }
            "images" => {
                let count = words.count()?;
                self.runs(alloc, count, words.rest(), true)
            }
            "show" => {
                let place = words.number()?;
                let len = words.number()?;
                spelling_of(alloc, self.bytes(alloc, place, len)?.get())
            }
            _ => Err(Misread::NoCase),
        }
    }
}

// The words of a command; `-` is an empty one.
fn asked_words(alloc: Global, line: &str) -> Result<Vec<String>, Misread> {
    let mut asked = Vec::new(alloc);
    for word in line.split(' ') {
        if !word.is_empty() {
            let text = Words::of(word).text(alloc)?;
            asked.push(String::from_str(alloc, text.get())?)?;
        }
    }
    Ok(asked)
}

// The byte of the disk at a place.
fn byte_at(disk: &mut MemoryDisk, at: u64) -> Result<u8, Misread> {
    if disk.size() <= at {
        return Err(Misread::NoCase);
    }
    let mut byte = [0];
    match disk.read_at(at, &mut byte) {
        Ok(()) => Ok(byte[0]),
        Err(_) => Err(Misread::NoCase),
    }
}

// A source that gives the bytes in pieces of this size, and whose calls of these numbers fail.
fn source(
    alloc: Global,
    bytes: &[u8],
    size: usize,
    failing: &[u64],
) -> Result<MemorySource, Misread> {
    let mut pieces = Vec::new(alloc);
    for piece in bytes.chunks(size.max(1)) {
        let mut made = Bytes::new(alloc);
        made.push(piece)?;
        pieces.push(made)?;
    }
    Ok(MemorySource::new(pieces, failing.to_vec(alloc)?))
}
