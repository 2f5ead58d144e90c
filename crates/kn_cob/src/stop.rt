//! Why an exploration stops.

ghost use Rattle.std.specs.Prelude.{◌≡◌};
ghost use Rattle.kn_cob.specs.declared.stop.Stop.TheVariants as stops;

use kn_step::LimitAt;
use std::alloc::AllocError;

/// Why an exploration stopped.
#[derive(Debug, Drop)]
pub enum Stop {
    /// Memory is wanting.
    Memory(AllocError),
    /// A limit of the network was passed.
    Limit(LimitAt),
}

impl From<AllocError> for Stop {
    ghost from_gives = { λ e s. s ≡ stops.Memory e };

    /// Want of memory.
    fn from(error: AllocError) -> Stop {
        Stop::Memory(error)
    }
}
