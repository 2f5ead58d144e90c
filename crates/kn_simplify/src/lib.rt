//! Simpler terms with the same words: constants are folded, and an operator or a choice that always gives a word or one
//! of its operands becomes that.
#![tactic(auto)]

mod form;
mod laws;
mod made;
mod sums;
mod top;
mod whole;

pub use made::{apply, ite};
pub use std::alloc::AllocError as Memory;
pub use top::simplify_top;
pub use whole::simplify;

#[cfg(test)]
mod tests;
