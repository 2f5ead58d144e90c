//! Events of nodes, run over words on given inputs.
#![tactic(auto)]

mod beginning;
mod choices;
mod due;
mod event;
mod node;
mod opening;
mod packet;
mod queue;
mod rows;
mod run;
mod sending;
mod spot;
mod way;

pub use due::due_at;
pub use event::run_event_at;
pub use node::ConcNode;
pub use opening::open_at;
pub use packet::ConcPacket;
pub use queue::queue_at;
pub use std::alloc::AllocError as Memory;

#[cfg(test)]
mod tests;
