//! Command lines: which words are one, and what they ask for.
#![tactic(auto)]

mod laws;
mod line;
mod number;
mod options;
mod values;
mod words;

pub use laws::{made_in_range, one_line};
pub use line::Line;
pub use values::line_of;
pub use words::words_ok;

#[cfg(test)]
mod tests;
