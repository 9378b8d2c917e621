//! Each public call once, and each fault once.
ghost use Rattle.lti_outside.specs.Memory.{link_traffic};
ghost use Rattle.lti_doors.specs.Standing.{IsFresh};

mod fakes;

use super::*;
use crate::lingering::linger;
use fakes::{Call, FakeClock, FakeListener, FakeStream, LossyListener};
use lti_outside::{
    Bytes, MemoryLink, MemorySink, MemorySource, ReadFault, Sink, Source, WriteFault, give_all,
};
use std::alloc::Global;
use std::collections::VecDeque;
use std::io::{self, ErrorKind, Read, Write};
use std::net::{TcpListener, TcpStream};
use std::test::Fail;
use std::time::Duration;

// Compiles where a value of the type may be moved into a thread.
fn may_be_sent<T: Send>(_: &T) {}

// A connection in memory whose peer sends nothing.
fn quiet(alloc: Global) -> MemoryLink
    ensures { IsFresh (link_traffic result) }
{
    MemoryLink::new(
        MemorySource::new(Vec::new(alloc), Vec::new(alloc)),
        MemorySink::new(alloc, Vec::new(alloc)),
    )
}

// A door in memory of two connections, whose second call fails.
fn two_connections(alloc: Global) -> Result<MemoryDoor, Fail> {
    let mut ends = Vec::new(alloc);
    ends.push(quiet(alloc))?;
    ends.push(quiet(alloc))?;
    let failing = [1].to_vec(alloc)?;
    Ok(MemoryDoor::new(alloc, ends, failing)?)
}

#[test]
fn a_door_in_memory(rt: HostRuntime) -> Result<(), Fail> {
    let mut door = two_connections(rt.alloc())?;
    may_be_sent(&door);
    let Ok(Some(mut first)) = door.next() else {
        return Err(Fail::from("no first connection"));
    };
    assert!(rt; matches!(door.next(), Err(DoorFault)));
    let Ok(Some(mut second)) = door.next() else {
        return Err(Fail::from("no second connection"));
    };
    assert!(rt; matches!(door.next(), Ok(None)));
    assert!(rt; give_all(&mut first, b"one") == Ok(()));
    assert!(rt; give_all(&mut second, b"two") == Ok(()));
    door.back(second);
    door.back(first);
    assert_eq!(rt; door.done().len(), 2);
    assert_eq!(rt; door.done()[0].given(), b"two".as_slice());
    assert_eq!(rt; door.done()[1].given(), b"one".as_slice());
    Ok(())
}

// Whether a door hands out the connection that comes after this error, and how many milliseconds it waited.
fn after(alloc: Global, error: io::Error) -> Result<(bool, u64), Fail> {
    let clock = FakeClock::new(0);
    let mut coming = VecDeque::new(alloc);
    coming.push_back(Err(error))?;
    coming.push_back(Ok(FakeStream::new(0, 1, None)))?;
    let mut door = TcpDoor::new(FakeListener::new(alloc, coming), &clock);
    let is_handed_out = matches!(door.next(), Ok(Some(_)));
    Ok((is_handed_out, clock.slept.get()))
}

#[test]
fn errors_of_the_system(rt: HostRuntime) -> Result<(), Fail> {
    // EINTR, ENONET, EPROTO, ENOPROTOOPT, EOPNOTSUPP, ENETDOWN, ENETUNREACH, ECONNABORTED, ECONNRESET,
    // ETIMEDOUT, EHOSTDOWN, EHOSTUNREACH
    for code in [4, 64, 71, 92, 95, 100, 101, 103, 104, 110, 112, 113] {
        let error = io::Error::from_raw_os_error(code);
        assert_eq!(rt; after(rt.alloc(), error)?, (true, 0), "at {code}");
    }
    // EAGAIN, ENOMEM, ENFILE, EMFILE, ENOBUFS
    for code in [11, 12, 23, 24, 105] {
        let error = io::Error::from_raw_os_error(code);
        assert_eq!(rt; after(rt.alloc(), error)?, (true, 10), "at {code}");
    }
    // EPERM, EBADF, EACCES, EFAULT, EINVAL, ENOSYS, ENOTSOCK, and one that has no name
    for code in [1, 9, 13, 14, 22, 38, 88, -24] {
        let error = io::Error::from_raw_os_error(code);
        assert_eq!(rt; after(rt.alloc(), error)?, (false, 0), "at {code}");
    }
    let error = io::Error::from(ErrorKind::ConnectionReset);
    assert_eq!(rt; after(rt.alloc(), error)?, (true, 0));
    let error = io::Error::from(ErrorKind::Other);
    assert_eq!(rt; after(rt.alloc(), error)?, (false, 0));
    Ok(())
}

#[test]
fn a_door_gives_up_after_a_million_lost_connections(rt: HostRuntime) {
    let mut accepted = 0;
    let clock = FakeClock::new(0);
    let mut door = TcpDoor::new(
        LossyListener {
            accepted: &mut accepted,
        },
        &clock,
    );
    assert!(rt; matches!(door.next(), Err(DoorFault)));
    drop(door);
    assert_eq!(rt; accepted, 1_000_000);
}

#[test]
fn connections_are_set_up(rt: HostRuntime) -> Result<(), Fail> {
    let clock = FakeClock::new(0);
    let mut coming = VecDeque::new(rt.alloc());
    for call in [Call::NoDelay, Call::ReadTimeout, Call::WriteTimeout] {
        coming.push_back(Ok(FakeStream::new(0, 1, Some(call))))?;
    }
    coming.push_back(Ok(FakeStream::new(7, 1, None)))?;
    let mut door = TcpDoor::new(FakeListener::new(rt.alloc(), coming), &clock);
    let Ok(Some(end)) = door.next() else {
        return Err(Fail::from("no connection"));
    };
    let stream = end.into_stream();
    // the three that could not be set up were passed over
    assert_eq!(rt; stream.left, 7);
    assert!(rt; stream.no_delay.get());
    let silence = Some(Duration::from_secs(30));
    assert!(rt; stream.read_timeout.get() == silence);
    assert!(rt; stream.write_timeout.get() == silence);
    Ok(())
}

#[test]
fn ends_of_connections(rt: HostRuntime) {
    let mut end = TcpEnd::new(FakeStream::new(5, 4, None));
    assert!(rt; end.take(&mut [0; 8]) == Ok(4));
    assert!(rt; end.take(&mut [0; 8]) == Ok(1));
    assert!(rt; end.take(&mut [0; 8]) == Ok(0));
    assert!(rt; end.give(b"answer") == Ok(4));
    let mut end = TcpEnd::new(FakeStream::new(5, 4, Some(Call::Read)));
    assert!(rt; end.take(&mut [0; 8]) == Err(ReadFault));
    let mut end = TcpEnd::new(FakeStream::new(5, 4, Some(Call::Write)));
    assert!(rt; end.give(b"answer") == Err(WriteFault));
    let mut end = TcpEnd::new(FakeStream::new(5, 0, None));
    assert!(rt; end.give(b"answer") == Err(WriteFault));
}

// How many bytes are read of a connection that ends, and whether its write side was shut.
fn lingered(mut stream: FakeStream, step: u64) -> (usize, bool) {
    let count = linger(&mut stream, &FakeClock::new(step));
    (count, stream.is_shut.get())
}

#[test]
fn connections_linger(rt: HostRuntime) {
    // to the end of what comes, and at most 65,536 bytes
    assert_eq!(rt;
        lingered(FakeStream::new(10_000, 5_000, None), 0),
        (10_000, true)
    );
    assert_eq!(rt;
        lingered(FakeStream::new(70_000, 1_000, None), 0),
        (65_536, true)
    );
    // a reading each 300 milliseconds: of the times 300, 600, 900 and 1200 the last is too late
    assert_eq!(rt;
        lingered(FakeStream::new(70_000, 1_000, None), 300),
        (3_000, true)
    );
    let stream = FakeStream::new(70_000, 1_000, Some(Call::Read));
    assert_eq!(rt; lingered(stream, 0), (0, true));
    let stream = FakeStream::new(70_000, 1_000, Some(Call::ReadTimeout));
    assert_eq!(rt; lingered(stream, 0), (0, true));
    let stream = FakeStream::new(70_000, 1_000, Some(Call::Shutdown));
    assert_eq!(rt; lingered(stream, 0), (0, false));
}

// A connection to this machine, where it has a network.
#[test]
fn a_door_on_the_network(rt: HostRuntime) -> Result<(), Fail> {
    let Ok(listener) = TcpListener::bind(&rt, "127.0.0.1:0") else {
        return Ok(());
    };
    let Ok(mut peer) = TcpStream::connect(&rt, listener.local_addr()?) else {
        return Ok(());
    };
    let mut door = TcpDoor::new(listener, rt);
    may_be_sent(&door);
    let Ok(Some(mut end)) = door.next() else {
        return Err(Fail::from("no connection"));
    };
    peer.write_all(b"question")?;
    let mut buf = [0; 16];
    assert!(rt; end.take(&mut buf) == Ok(8));
    assert_eq!(rt; &buf[..8], b"question".as_slice());
    assert!(rt; give_all(&mut end, b"answer") == Ok(()));
    drop(peer);
    door.back(end);
    Ok(())
}
