//! A search for the least model of clauses, which logs its refutation.
#![tactic(auto)]

mod closing;
mod occurrences;
mod propagation;
mod searching;
mod trail;

pub use searching::{Found, search};
pub use std::alloc::AllocError as Memory;

#[cfg(test)]
mod tests;
