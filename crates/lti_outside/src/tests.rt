//! Each public call once, and each fault once.
use super::*;
use std::alloc::Global;
use std::io::{self, ErrorKind, Read, Write};
use std::test::Fail;

fn bytes(alloc: Global, piece: &[u8]) -> Result<Bytes, Fail> {
    let mut made = Bytes::new(alloc);
    made.push(piece)?;
    Ok(made)
}

#[test]
fn reads_decimal_numbers(rt: HostRuntime) {
    let cases: [(&[u8], usize, Option<u64>); 8] = [
        (b"0", 1, Some(0)),
        (b"007", 3, Some(7)),
        (b"999999999999999", 15, Some(999_999_999_999_999)),
        (b"1234567890123456", 15, None),
        (b"12", 1, None),
        (b"", 15, None),
        (b"+1", 15, None),
        (b"12a", 15, None),
    ];
    for (text, most, want) in cases {
        assert_eq!(rt; read_decimal(text, most), want, "at {text:?}");
    }
}

#[test]
fn texts_and_bytes(rt: HostRuntime) -> Result<(), Fail> {
    let alloc = rt.alloc();
    let mut text = Text::new(alloc, "key")?;
    text.push("=")?;
    assert_eq!(rt; text.copy()?.get(), "key=");
    assert!(rt; Text::empty(alloc) < text);
    assert!(rt; Text::from_string(String::from_str(alloc, "key=")?) == text);
    let mut made = bytes(alloc, b"ab")?;
    made.reserve(10)?;
    assert!(rt; made.spare() >= 10);
    made.push(b"c")?;
    assert_eq!(rt; made.copy()?.get(), b"abc".as_slice());
    Ok(())
}

fn pair(alloc: Global, name: &str, value: &str) -> Result<Pair, Fail> {
    Ok(Pair {
        name: Text::new(alloc, name)?,
        value: Text::new(alloc, value)?,
    })
}

#[test]
fn pairs_in_order(rt: HostRuntime) -> Result<(), Fail> {
    let alloc = rt.alloc();
    let mut pairs = Pairs::new(alloc);
    assert!(rt; pairs.is_empty());
    pairs.push(pair(alloc, "b", "1")?)?;
    pairs.push(pair(alloc, "a", "2")?)?;
    let mut all = pairs.copy()?;
    all.append(pairs)?;
    assert_eq!(rt; all.len(), 4);
    assert!(rt; all.get(3).is_some_and(|pair| pair.value.get() == "2"));
    assert!(rt; all.get(4).is_none());
    assert!(rt; pair(alloc, "a", "2")? < pair(alloc, "b", "1")?);
    assert!(rt; pair(alloc, "a", "1")? < pair(alloc, "a", "2")?);
    let others = all.without("b");
    assert_eq!(rt; others.as_slice().len(), 2);
    assert!(rt; others.as_slice().iter().all(|pair| pair.name.get() == "a"));
    Ok(())
}

#[test]
fn limits_have_ranges(rt: HostRuntime) {
    let usual = Limits::usual();
    assert!(rt; usual.sound());
    let mut none = usual;
    none.calls = 0;
    assert!(rt; !none.sound());
    let mut wide = usual;
    wide.field = 256;
    assert!(rt; !wide.sound());
    let mut least = usual;
    least.body = 0;
    least.half = 64;
    assert!(rt; least.sound());
}

// The bytes that one `take` gives.
fn taken<S: Source>(alloc: Global, source: &mut S) -> Result<Vec<u8>, Fail> {
    let mut buf = [0; 4];
    let count = source.take(&mut buf).map_err(|_| "read fault")?;
    Ok(buf[..count].to_vec(alloc)?)
}

#[test]
fn ends_in_memory(rt: HostRuntime) -> Result<(), Fail> {
    let alloc = rt.alloc();
    let mut pieces = Vec::new(alloc);
    for piece in [b"ab".as_slice(), b"", b"cdefg"] {
        pieces.push(bytes(alloc, piece)?)?;
    }
    let source = MemorySource::new(pieces, [1].to_vec(alloc)?);
    let sink = MemorySink::new(alloc, [1].to_vec(alloc)?);
    let mut link = MemoryLink::new(source, sink);
    assert_eq!(rt; taken(alloc, &mut link)?.as_slice(), b"ab".as_slice());
    assert!(rt; link.take(&mut [0; 4]) == Err(ReadFault));
    assert_eq!(rt; taken(alloc, &mut link)?.as_slice(), b"cdef".as_slice());
    assert_eq!(rt; taken(alloc, &mut link)?.as_slice(), b"g".as_slice());
    assert_eq!(rt; taken(alloc, &mut link)?.as_slice(), b"".as_slice());
    assert!(rt; give_all(&mut link, b"one") == Ok(()));
    assert!(rt; give_all(&mut link, b"two") == Err(WriteFault));
    assert!(rt; give_all(&mut link, b"three") == Ok(()));
    assert_eq!(rt; link.given(), b"onethree".as_slice());
    Ok(())
}

// A reader and writer that fails, or writes nothing.
#[derive(Drop)]
struct Broken;

impl Read for Broken {
    fn read(&mut self, _: &mut [u8]) -> io::Result<usize> {
        Err(io::Error::from(ErrorKind::Other))
    }
}

impl Write for Broken {
    fn write(&mut self, _: &[u8]) -> io::Result<usize> {
        Ok(0)
    }

    fn flush(&mut self) -> io::Result<()> {
        Ok(())
    }
}

#[test]
fn ends_over_readers_and_writers(rt: HostRuntime) -> Result<(), Fail> {
    let alloc = rt.alloc();
    let mut link = StdLink::new(b"abcdef".as_slice(), Vec::new(alloc));
    assert_eq!(rt; taken(alloc, &mut link)?.as_slice(), b"abcd".as_slice());
    assert_eq!(rt; taken(alloc, &mut link)?.as_slice(), b"ef".as_slice());
    assert_eq!(rt; taken(alloc, &mut link)?.as_slice(), b"".as_slice());
    assert!(rt; give_all(&mut link, b"ok") == Ok(()));
    assert!(rt; StdSource::new(Broken).take(&mut [0; 4]) == Err(ReadFault));
    assert!(rt; give_all(&mut StdSink::new(Broken), b"x") == Err(WriteFault));
    Ok(())
}

#[test]
fn clocks_give_moments(rt: HostRuntime) {
    assert_eq!(rt; FixedClock::new(1_400_000_000).now(), 1_400_000_000);
    // a day in 2020, which any clock that was set is behind
    assert!(rt; SystemClock::new(&rt).now() > 1_600_000_000);
}

#[test]
fn listed_words_come_in_order(rt: HostRuntime) -> Result<(), Fail> {
    let mut random = ListRandom::new([7u64, u64::MAX].to_vec(rt.alloc())?);
    assert_eq!(rt; random.word(), 7);
    assert_eq!(rt; random.word(), u64::MAX);
    assert_eq!(rt; random.word(), 0);
    Ok(())
}
