//! Network files: TOML text to networks, and back.
#![tactic(auto)]

mod arrays;
mod building;
mod inputs;
mod keys;
mod laws;
mod links;
mod names;
mod nodes;
mod printing;
mod programs;
mod reading;
mod refusal;
mod top;

pub use keys::NumberAt;
pub use laws::{reads_back, text_is_read};
pub use printing::print;
pub use reading::{FileFault, read};
pub use std::alloc::AllocError as Memory;

#[cfg(test)]
mod reading_tests;
#[cfg(test)]
mod tests;
