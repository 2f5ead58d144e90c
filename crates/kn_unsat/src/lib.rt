//! The checker of logs, and their text.
#![tactic(auto)]

mod assigned;
mod checking;
mod reading;
mod writing;

pub use checking::check;
pub use reading::{LogFault, read_log};
pub use std::alloc::AllocError as Memory;
pub use writing::log_text;

#[cfg(test)]
mod tests;
