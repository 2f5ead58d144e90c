//! Clauses over variables, logs of refutations, and the clauses of a circuit.
#![tactic(auto)]

mod clauses;
mod encoding;
mod logs;
mod states;

pub use clauses::{Clause, Cnf, Lit};
pub use encoding::of_aig;
pub use logs::{Line, Log};
pub use states::ClauseState;
pub use std::alloc::AllocError as Memory;

#[cfg(test)]
mod tests;
