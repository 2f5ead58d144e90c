//! The network that is explored, as a file gives it.
#![tactic(auto)]

mod net;

pub use net::{Limits, Link, Name, Net, NodePlan};
pub use std::alloc::AllocError as Memory;

#[cfg(test)]
mod tests;
