//! The assembler of the node machine: text to programs, and back.
#![tactic(auto)]

mod assembling;
mod fault;
mod labels;
mod laws;
mod line;
mod meaning;
mod operand;
mod printing;
mod words;

pub use assembling::assemble;
pub use fault::{AsmCause, AsmFault};
pub use laws::reads_back;
pub use printing::disassemble;
pub use std::alloc::AllocError as Memory;

#[cfg(test)]
mod tests;
