//! What an event gives.

ghost use Rattle.std.specs.Prelude.{◌≡◌};
ghost use Rattle.kn_step.specs.declared.path.StepStop.TheVariants as stops;

use kn_machine::Path;
use kn_node::Config;
use kn_packet::Event;
use std::alloc::{AllocError, Global};
use std::sync::Arc;

/// What an event gave: the state that it was run from, the event, and its paths.
#[derive(Drop)]
pub struct Done {
    pub config: Arc<Config, Global>,
    pub event: Event,
    pub paths: Vec<Path>,
}

/// An event has more paths than the network's limit of states: the state that it was run from, the event, and those of its
/// paths that were found, which are more than the limit.
#[derive(Drop)]
pub struct TooMany {
    pub config: Arc<Config, Global>,
    pub event: Event,
    pub prefixes: Vec<Path>,
}

/// Why an event was not run to its end.
#[derive(Drop)]
pub enum StepStop {
    /// It has more paths than the network's limit of states.
    TooMany(TooMany),
    /// Memory is wanting.
    Memory(AllocError),
}

impl From<AllocError> for StepStop {
    ghost from_gives = { λ e s. s ≡ stops.Memory e };

    /// Want of memory.
    fn from(error: AllocError) -> StepStop {
        StepStop::Memory(error)
    }
}

/// What a network has too many of.
#[derive(Clone, Copy, Debug, PartialEq, Eq)]
pub enum LimitKind {
    States,
    Dstates,
}

/// A limit that was passed: which one, the tick, and the count that passed it.
#[derive(Clone, Copy, Debug, PartialEq, Eq)]
pub struct LimitAt {
    pub kind: LimitKind,
    pub tick: u32,
    pub count: usize,
}
