//! A node's machine over terms, one way through an event at a time: what each instruction makes of it.
#![tactic(auto)]

mod memory;
mod path;
mod rows;
mod sending;
mod spot;
mod way;

pub use path::Path;
pub use rows::{Step, execute, fail, take_side};
pub use spot::{Spot, links_of, program_of};
pub use std::alloc::AllocError as Memory;
pub use way::{Way, copy_packets};
