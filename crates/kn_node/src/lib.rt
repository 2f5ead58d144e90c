//! A node's state as it is kept: its machine, terms, condition and trace, and what is due for it.
#![tactic(auto)]

mod config;
mod due;
mod machine;
mod opening;

pub use config::Config;
pub use due::{next_event, quiet_until};
pub use machine::{FailKind, Machine, Outcome};
pub use opening::open_config;
pub use std::alloc::AllocError as Memory;

#[cfg(test)]
mod tests;
