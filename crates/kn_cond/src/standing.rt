//! What is known of the inputs that meet a condition.

ghost use Rattle.std.specs.Prelude.{◌≡◌, IfOk};

use kn_term::Valuation;
use std::alloc::AllocError;

/// What is known of the inputs that meet a condition.
#[derive(Debug, Drop, PartialEq)]
pub enum Standing {
    /// These inputs meet it: the least ones, where a caller says so.
    Inputs(Valuation),
    /// It was not decided: at least so many valuations come before each one that meets it.
    Open { leaves: u64 },
}

impl Standing {
    /// An equal value. Err is want of memory.
    pub fn copy(&self) -> Result<Standing, AllocError>
        ensures { IfOk result (λ s. s ≡ self.now) }
    {
        match self {
            Standing::Inputs(inputs) => Ok(Standing::Inputs(inputs.copy()?)),
            Standing::Open { leaves } => Ok(Standing::Open { leaves: *leaves }),
        }
    }
}
