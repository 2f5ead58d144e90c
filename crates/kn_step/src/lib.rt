//! Events of nodes, run over terms on all ways at once, and what nodes receive.
#![tactic(auto)]

mod choices;
mod deciding;
mod event;
mod failures;
mod laws;
mod path;
mod receiving;
mod run;
mod steps;

pub use event::{comes_later, run_event, run_event_by};
pub use kn_machine::{Path, copy_packets};
pub use laws::over_means;
pub use path::{Done, LimitAt, LimitKind, StepStop, TooMany};
pub use receiving::{receive, receive_by};
pub use std::alloc::AllocError as Memory;
pub use steps::Steps;

#[cfg(test)]
mod tests;
