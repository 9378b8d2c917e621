//! Doors, through which connections come: one in memory, which tells all that passed, and one on the network.
//!
//! A door hands out the end of a connection that nobody used yet, and takes it back when it is done with. What
//! a door has to tell (`Standing`) is the list of the connections that came back, each with what passed over
//! it, and a count of the calls that failed.
#![tactic(auto)]

mod accepting;
mod door;
mod lingering;
mod memory_door;
mod tcp_door;
mod tcp_end;
#[cfg(test)]
mod tests;

pub use accepting::Accepting;
pub use door::{Door, DoorFault};
pub use memory_door::MemoryDoor;
pub use tcp_door::{SILENCE_SECONDS, TcpDoor};
pub use tcp_end::TcpEnd;
