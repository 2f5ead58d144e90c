//! Copying the whole network at every branch, over event runs.
#![tactic(auto)]

mod copies;
mod exploring;
mod making;
mod node;
mod ordering;
mod run;
mod stop;

pub use exploring::explore_cob;
pub use making::report_of;
pub use run::{CobRun, Scenario};
pub use std::alloc::AllocError as Memory;
pub use stop::Stop;

#[cfg(test)]
mod tests;
