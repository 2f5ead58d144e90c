//! Questions on the inputs of a network, and what the search answers.
#![tactic(auto)]

mod asking;
mod dividing;
mod formula;
mod judge;
mod laws;
mod more;
mod trying;
mod whole;

pub use asking::{Verdict, ask};
pub use formula::Formula;
pub use judge::{Judge, Judged, Plain};
pub use laws::{
    least_is_one, least_stays, never_stays, part_far, part_never, parts_join, standing_is_live,
    without_columns,
};
pub use more::ask_more;
pub use std::alloc::AllocError as Memory;

#[cfg(test)]
mod tests;
