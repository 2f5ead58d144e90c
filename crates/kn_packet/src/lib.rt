//! Packets on their way between nodes, what a node may run, and queues of packets in order.
#![tactic(auto)]

mod packet;
mod queue;

pub use packet::{Event, Packet, Stamp};
pub use queue::Queue;
pub use std::alloc::AllocError as Memory;

#[cfg(test)]
mod tests;
