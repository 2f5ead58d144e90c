//! Conditions on the inputs of a network: lists of literals, all of which have to hold.
#![tactic(auto)]

mod condition;
mod standing;

pub use condition::Cond;
pub use standing::Standing;
pub use std::alloc::AllocError as Memory;

#[cfg(test)]
mod tests;
