//! Reports of an exploration, and their text in both directions.
#![tactic(auto)]

mod draft;
mod forms;
mod line_of;
mod reading;
mod report;
mod section;
mod status;
mod word;
mod writing;

pub use reading::{ReportFault, read, read_back};
pub use report::{Columns, FailureLine, Mapping, Reached, Report, StateLine};
pub use status::{Status, status_of};
pub use std::alloc::AllocError as Memory;
pub use writing::{summary, text};

#[cfg(test)]
mod tests;
