// The real ends, over the readers and writers of std. They tell no bytes.
ghost use Rattle.std.specs.Prelude.{◌≡◌, ◌<◌, ◌≤◌, None, IfOk, OnOk, OnErr, length};
ghost use Rattle.lti_outside.specs.Faults.{Rose};

use crate::{Link, Outside, ReadFault, Sink, Source, WriteFault};
use std::io::{Read, Write};

fn read_once<R: Read>(inner: &mut R, faults: &mut u64, buf: &mut [u8]) -> Result<usize, ReadFault>
    ensures bound { IfOk result (λ n. n ≤ length buf.new) }
    ensures ok { OnOk result (faults.new ≡ faults.old) }
    ensures failed { OnErr result (Rose faults.old faults.new) }
{
    match inner.read(buf) {
        Ok(count) => Ok(count),
        Err(_) => {
            *faults = faults.saturating_add(1);
            Err(ReadFault)
        }
    }
}

fn write_once<W: Write>(inner: &mut W, faults: &mut u64, piece: &[u8]) -> Result<usize, WriteFault>
    ensures bound { IfOk result (λ n. n ≤ length piece.now) }
    ensures some { IfOk result (λ n. 0 < n) }
    ensures ok { OnOk result (faults.new ≡ faults.old) }
    ensures failed { OnErr result (Rose faults.old faults.new) }
{
    match inner.write(piece) {
        Ok(count) if count > 0 => Ok(count),
        _ => {
            *faults = faults.saturating_add(1);
            Err(WriteFault)
        }
    }
}

/// A source over a reader. A read that fails is counted; it tells no bytes.
#[derive(Drop)]
pub struct StdSource<R: Read> {
    inner: R,
    faults: u64,
}

impl<R: Read> StdSource<R> {
    /// A source that gives what the reader reads.
    pub fn new(inner: R) -> StdSource<R>
        ensures { result.faults ≡ 0 }
    {
        StdSource { inner, faults: 0 }
    }
}

impl<R: Read> Outside for StdSource<R> {
    ghost traffic = { λ s. record { told = None; read_faults = s.faults; write_faults = 0 } };
}

impl<R: Read> Source for StdSource<R> {
    fn take(&mut self, buf: &mut [u8]) -> Result<usize, ReadFault> {
        read_once(&mut self.inner, &mut self.faults, buf)
    }
}

/// A sink over a writer. A write that fails, or that writes nothing, is counted; it tells no bytes.
#[derive(Drop)]
pub struct StdSink<W: Write> {
    inner: W,
    faults: u64,
}

impl<W: Write> StdSink<W> {
    /// A sink whose bytes the writer writes.
    pub fn new(inner: W) -> StdSink<W>
        ensures { result.faults ≡ 0 }
    {
        StdSink { inner, faults: 0 }
    }
}

impl<W: Write> Outside for StdSink<W> {
    ghost traffic = { λ s. record { told = None; read_faults = 0; write_faults = s.faults } };
}

impl<W: Write> Sink for StdSink<W> {
    fn give(&mut self, piece: &[u8]) -> Result<usize, WriteFault> {
        write_once(&mut self.inner, &mut self.faults, piece)
    }
}

/// Both ends, over a reader and a writer, such as standard input and output or a socket.
#[derive(Drop)]
pub struct StdLink<R: Read, W: Write> {
    source: StdSource<R>,
    sink: StdSink<W>,
}

impl<R: Read, W: Write> StdLink<R, W> {
    /// A connection over the reader and the writer.
    pub fn new(reader: R, writer: W) -> StdLink<R, W>
        ensures reads { result.source.faults ≡ 0 }
        ensures writes { result.sink.faults ≡ 0 }
    {
        StdLink {
            source: StdSource::new(reader),
            sink: StdSink::new(writer),
        }
    }
}

impl<R: Read, W: Write> Outside for StdLink<R, W> {
    ghost traffic = { λ s. record { told = None; read_faults = s.source.faults; write_faults = s.sink.faults } };
}

impl<R: Read, W: Write> Source for StdLink<R, W> {
    fn take(&mut self, buf: &mut [u8]) -> Result<usize, ReadFault> {
        self.source.take(buf)
    }
}

impl<R: Read, W: Write> Sink for StdLink<R, W> {
    fn give(&mut self, piece: &[u8]) -> Result<usize, WriteFault> {
        self.sink.give(piece)
    }
}

impl<R: Read, W: Write> Link for StdLink<R, W> {}
