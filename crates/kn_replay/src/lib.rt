//! The run of a whole network on given inputs, and its text.
#![tactic(auto)]

mod line;
mod replaying;
mod run;
mod sound;
mod turn;
mod writing;

pub use line::RunLine;
pub use replaying::replay;
pub use run::{Run, failed_count};
pub use std::alloc::AllocError as Memory;
pub use writing::{text, text_tells};

#[cfg(test)]
mod tests;
