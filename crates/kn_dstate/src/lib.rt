//! Dstates over numbers: columns of states, inboxes of packets, and the histories of states.
#![tactic(auto)]

mod exchange;
mod graph;
mod known;
mod members;
mod number;
mod opening;
mod order;
mod place;
mod row;
mod table;

pub use graph::Graph;
pub use number::{DstateNo, HistoryNo, PacketNo, StateNo};
pub use place::Place;
pub use row::Entry;
pub use std::alloc::AllocError as Memory;

#[cfg(test)]
mod tests;
