//! The generator: a valid network of any of 36 sizes, made of a number.
#![tactic(auto)]

mod laws;
mod making;
mod programs;

pub use laws::{made_is_read, made_is_valid, programs_are_assembled};
pub use making::make;
pub use std::alloc::AllocError as Memory;

#[cfg(test)]
mod tests;
