//! Circuits of terms: sixteen edges that have the bits of a term's word, whatever the inputs are.
#![tactic(auto)]

mod arith;
mod circuit;
mod division;
mod gates;
mod inputs;
mod nodes;
mod opening;
mod operators;
mod shifts;
mod words;

pub use circuit::{Word, blast, blast_all};
pub use inputs::{InputBits, InputMap};
pub use std::alloc::AllocError as Memory;
pub use words::is_not_zero;

#[cfg(test)]
mod tests;
