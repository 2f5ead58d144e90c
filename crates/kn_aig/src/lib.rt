//! Circuits of and-gates over inputs, whose edges may be inverted.
#![tactic(auto)]

mod aig;
mod gates;

pub use aig::Aig;
pub use gates::{AigNode, Edge};
pub use std::alloc::AllocError as Memory;

#[cfg(test)]
mod tests;
