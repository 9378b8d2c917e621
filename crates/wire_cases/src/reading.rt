// Messages that are read from a link in memory.
use case_words::{Misread, spelling_of};
use http_wire::{Answered, Request, Wire};
use lti_outside::{Bytes, Limits, MemoryLink, MemorySink, MemorySource, Tap};
use std::alloc::Global;

/// A tap that counts its bytes and its pieces.
#[derive(Drop)]
pub struct Count {
    pub bytes: u64,
    pub pieces: u64,
}

impl Tap for Count {
    ghost holds = { λ _ _. Unit {0} };

    fn feed(&mut self, piece: &[u8]) {
        self.bytes = self.bytes.saturating_add(piece.len() as u64);
        self.pieces = self.pieces.saturating_add(1);
    }
}

impl Count {
    /// A tap that was fed nothing.
    pub fn new() -> Count {
        Count {
            bytes: 0,
            pieces: 0,
        }
    }
}

/// A link that gives the bytes in pieces of this size, and whose reads of these numbers fail.
pub fn link(
    alloc: Global,
    bytes: &[u8],
    size: usize,
    failing: &[u64],
) -> Result<MemoryLink, Misread> {
    let mut pieces = Vec::new(alloc);
    for piece in bytes.chunks(size.max(1)) {
        let mut made = Bytes::new(alloc);
        made.push(piece)?;
        pieces.push(made)?;
    }
    let source = MemorySource::new(pieces, failing.to_vec(alloc)?);
    let sink = MemorySink::new(alloc, Vec::new(alloc));
    Ok(MemoryLink::new(source, sink))
}

/// The requests of a link up to its end or a fault, and which of the two came.
pub fn requests(alloc: Global, ends: &mut MemoryLink, limits: &Limits) -> Result<String, Misread> {
    let mut told = String::new(alloc);
    let mut wire = Wire::new();
    for _ in 0..limits.requests {
        if wire.failed() || !limits.sound() {
            return Err(Misread::NoCase);
        }
        match wire.read_request(alloc, ends, &mut Count::new(), limits) {
            Ok(Some(request)) => told.push_str(request_text(alloc, &request)?.as_str())?,
            Ok(None) => {
                told.push_str("end")?;
                return Ok(told);
            }
            Err(fault) => {
                let lives = if wire.failed() {
                    ""
                } else {
                    ", and the wire lives"
                };
                told.push_str(format!(in alloc; "{fault:?}{lives}")?.as_str())?;
                return Ok(told);
            }
        }
    }
    Ok(told)
}

fn request_text(alloc: Global, request: &Request) -> Result<String, Misread> {
    let body = spelling_of(alloc, request.body.get())?;
    let head = format!(in alloc;
        "{} {} query [{}] host [{}] port {:?}",
        request.method.get(),
        request.path.get(),
        request.query.get(),
        request.host.name.get(),
        request.host.port
    )?;
    Ok(format!(in alloc;
        "{head} media [{}] authorization [{}] body [{body}] encoded {} close {}; ",
        request.media.get(),
        request.authorization.get(),
        request.encoded,
        request.close
    )?)
}

/// The answer that a link gives, or its fault.
pub fn answer(alloc: Global, ends: &mut MemoryLink, limits: &Limits) -> Result<String, Misread> {
    if !limits.sound() {
        return Err(Misread::NoCase);
    }
    let mut wire = Wire::new();
    match wire.read_response(alloc, ends, limits) {
        Ok(answered) => answered_text(alloc, &answered),
        Err(fault) => {
            let lives = if wire.failed() {
                ""
            } else {
                ", and the wire lives"
            };
            Ok(format!(in alloc; "{fault:?}{lives}")?)
        }
    }
}

fn answered_text(alloc: Global, answered: &Answered) -> Result<String, Misread> {
    let body = spelling_of(alloc, answered.body.get())?;
    let media = answered.media.get();
    Ok(format!(in alloc; "{} media [{media}] body [{body}]", answered.status)?)
}

/// How many bytes the tap was fed of a request's body, and whether in at least so many pieces.
pub fn fed(
    alloc: Global,
    ends: &mut MemoryLink,
    limits: &Limits,
    least: u32,
) -> Result<String, Misread> {
    if !limits.sound() {
        return Err(Misread::NoCase);
    }
    let mut tap = Count::new();
    let came = Wire::new().read_request(alloc, ends, &mut tap, limits);
    let cut = tap.pieces >= u64::from(least);
    Ok(format!(in alloc; "read {} fed {} in pieces {cut}", came.is_ok(), tap.bytes)?)
}
