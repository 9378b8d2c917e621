// Stand-ins for a listener, its connections and a clock.
ghost use Rattle.std.specs.Prelude.{◌≡◌};
ghost use Rattle.lti_doors.specs.Accepting.{attempt_of};

use crate::Accepting;
use std::alloc::Global;
use std::cell::Cell;
use std::collections::VecDeque;
use std::io::{self, ErrorKind, Read, Write};
use std::net::{OpenStream, Shutdown};
use std::time::{Clock, Duration};

// Which call of a connection fails.
#[derive(Clone, Copy, PartialEq, Eq)]
pub enum Call {
    NoDelay,
    ReadTimeout,
    WriteTimeout,
    Shutdown,
    Read,
    Write,
}

// A connection whose peer sends so many bytes, at most so many at a time.
#[derive(Drop)]
pub struct FakeStream {
    pub left: usize,
    pub most: usize,
    pub failing: Option<Call>,
    pub no_delay: Cell<bool>,
    pub read_timeout: Cell<Option<Duration>>,
    pub write_timeout: Cell<Option<Duration>>,
    pub is_shut: Cell<bool>,
}

impl FakeStream {
    pub fn new(left: usize, most: usize, failing: Option<Call>) -> FakeStream {
        FakeStream {
            left,
            most,
            failing,
            no_delay: Cell::new(false),
            read_timeout: Cell::new(None),
            write_timeout: Cell::new(None),
            is_shut: Cell::new(false),
        }
    }

    fn call(&self, call: Call) -> io::Result<()> {
        if self.failing == Some(call) {
            return Err(io::Error::from(ErrorKind::WouldBlock));
        }
        Ok(())
    }
}

impl Read for FakeStream {
    fn read(&mut self, buf: &mut [u8]) -> io::Result<usize> {
        self.call(Call::Read)?;
        let count = self.left.min(self.most).min(buf.len());
        buf[..count].fill(b'x');
        self.left -= count;
        Ok(count)
    }
}

impl Write for FakeStream {
    fn write(&mut self, buf: &[u8]) -> io::Result<usize> {
        self.call(Call::Write)?;
        Ok(self.most.min(buf.len()))
    }

    fn flush(&mut self) -> io::Result<()> {
        Ok(())
    }
}

impl OpenStream for FakeStream {
    fn set_nodelay(&self, nodelay: bool) -> io::Result<()> {
        self.call(Call::NoDelay)?;
        self.no_delay.set(nodelay);
        Ok(())
    }

    fn set_read_timeout(&self, dur: Option<Duration>) -> io::Result<()> {
        self.call(Call::ReadTimeout)?;
        self.read_timeout.set(dur);
        Ok(())
    }

    fn set_write_timeout(&self, dur: Option<Duration>) -> io::Result<()> {
        self.call(Call::WriteTimeout)?;
        self.write_timeout.set(dur);
        Ok(())
    }

    fn shutdown(&self, how: Shutdown) -> io::Result<()> {
        self.call(Call::Shutdown)?;
        self.is_shut.set(how == Shutdown::Write);
        Ok(())
    }
}

// A listener to which these connections and errors come, and then an error that ends a door. It tells what came, as
// long as there is memory for that.
#[derive(Drop)]
pub struct FakeListener {
    coming: VecDeque<io::Result<FakeStream>>,
    made: Vec<Result<(), io::Error>>,
    is_told: bool,
}

impl FakeListener {
    pub fn new(alloc: Global, coming: VecDeque<io::Result<FakeStream>>) -> FakeListener {
        FakeListener {
            coming,
            made: Vec::new(alloc),
            is_told: true,
        }
    }

    // The next one, and what is to be told of it.
    fn take_next(&mut self) -> (io::Result<FakeStream>, Result<(), io::Error>)
        ensures attempt { attempt_of result.1 ≡ attempt_of result.0 }
        ensures told { (self.new.made ≡ self.old.made) × (self.new.is_told ≡ self.old.is_told) }
    {
        match self.coming.pop_front() {
            Some(Ok(stream)) => (Ok(stream), Ok(())),
            Some(Err(error)) => (Err(error), Err(error)),
            None => {
                let error = io::Error::from(ErrorKind::InvalidInput);
                (Err(error), Err(error))
            }
        }
    }
}

impl Accepting for FakeListener {
    ghost use Rattle.std.specs.Prelude.{map, Some, None, if◌then◌else◌};
    ghost use Rattle.lti_doors.specs.Accepting.{attempt_of};

    type Stream = FakeStream;

    ghost attempts = { λ l. if l.is_told then Some (map attempt_of l.made.items) else None };

    fn accept(&mut self) -> io::Result<FakeStream> {
        let (next, told) = self.take_next();
        if self.made.push(told).is_err() {
            self.is_told = false;
        }
        next
    }
}

// A listener all of whose connections are lost.
#[derive(Drop)]
pub struct LossyListener<'a> {
    pub accepted: &'a mut u64,
}

impl Accepting for LossyListener<'_> {
    ghost use Rattle.std.specs.Prelude.{None};

    type Stream = FakeStream;

    ghost attempts = { λ _. None };

    fn accept(&mut self) -> io::Result<FakeStream> {
        *self.accepted = self.accepted.saturating_add(1);
        Err(io::Error::from(ErrorKind::ConnectionAborted))
    }
}

// A clock that goes on by so many milliseconds at each reading, and counts those that were slept.
#[derive(Drop)]
pub struct FakeClock {
    pub step: u64,
    pub now: Cell<u64>,
    pub slept: Cell<u64>,
}

impl FakeClock {
    pub fn new(step: u64) -> FakeClock {
        FakeClock {
            step,
            now: Cell::new(0),
            slept: Cell::new(0),
        }
    }
}

impl Clock for FakeClock {
    fn monotonic(&self) -> io::Result<Duration> {
        let now = self.now.get();
        self.now.set(now.saturating_add(self.step));
        Ok(Duration::from_millis(now))
    }

    fn since_1970(&self) -> io::Result<Duration> {
        Err(io::Error::from(ErrorKind::Unsupported))
    }

    fn sleep(&self, duration: Duration) {
        let millis = duration.subsec_millis();
        self.slept
            .update(|slept| slept.saturating_add(u64::from(millis)));
    }
}
