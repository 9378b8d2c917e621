//! The outside as the other crates see it: plain values, the ends of a connection with counts of their
//! faults, disks by what a crash may leave of them, and the limits of a run.
//!
//! Each value is seen by contracts as a list. An end of a connection may tell its bytes, and then each
//! call says what it took and gave; a fault is answered only where its count rose.
#![tactic(auto)]

mod bytes;
mod clock;
mod decimal;
mod disk;
mod disk_call;
#[cfg(test)]
mod disk_tests;
mod ends;
mod file_disk;
mod limits;
mod memory_disk;
mod memory_link;
mod memory_sink;
mod memory_source;
mod no_memory;
mod pairs;
mod random;
mod std_ends;
mod synced;
mod tap;
#[cfg(test)]
mod tests;
mod text;

pub use bytes::Bytes;
pub use clock::{Clock, FixedClock, SystemClock};
pub use decimal::read_decimal;
pub use disk::{Disk, DiskFault};
pub use disk_call::DiskCall;
pub use ends::{Link, Outside, ReadFault, Sink, Source, WriteFault, give_all};
pub use file_disk::FileDisk;
pub use limits::Limits;
pub use memory_disk::MemoryDisk;
pub use memory_link::MemoryLink;
pub use memory_sink::MemorySink;
pub use memory_source::MemorySource;
pub use no_memory::NoMemory;
pub use pairs::{Pair, Pairs};
pub use random::{ListRandom, Random, SystemRandom};
pub use std_ends::{StdLink, StdSink, StdSource};
pub use synced::write_synced;
pub use tap::Tap;
pub use text::Text;
