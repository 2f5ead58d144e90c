//! netsym: symbolic execution of a whole network of small nodes.
#![tactic(auto)]

mod answer;
mod command;
mod output;
mod top;

pub use command::{Command, Making};
pub use kn_report::Status;
pub use kn_words::words_ok;
pub use top::run_alone;

#[cfg(test)]
mod hostile_tests;
#[cfg(test)]
mod made_tests;
#[cfg(test)]
mod protocols;
#[cfg(test)]
mod rows;
#[cfg(test)]
mod tests;
