//! Who is asked what is known of a formula.

ghost use Rattle.std.specs.Prelude.{◌≤◌, ℕ, IfOk, MatchOption};
ghost use Rattle.kn_cond.specs.Conditions.{Query, IsImpossible, StandsFor};
ghost use Rattle.kn_solve.specs.Formulas.{query_of};
ghost use Rattle.kn_solve.specs.Verdicts.{IsJudged};

use crate::asking::{Verdict, ask};
use crate::formula::Formula;
use kn_cond::Standing;
use kn_term::Valuation;
use std::alloc::AllocError;

/// What is known of the inputs that meet a formula, without the log.
#[derive(Debug, Drop)]
pub enum Judged {
    /// These are the least inputs that meet it, in order of node and index.
    Met(Valuation),
    /// No inputs meet it.
    Never,
    /// It was not decided: at least so many valuations come before each one that meets it.
    Undecided { leaves: u64 },
}

impl Judged {
    /// What is kept of the answer with a condition: None where no inputs meet it.
    pub fn standing(self) -> Option<Standing>
        ensures { (budget : ℕ) (q : Query) → IsJudged budget q self → MatchOption result (IsImpossible q) (StandsFor budget q) }
    {
        match self {
            Judged::Met(inputs) => Some(Standing::Inputs(inputs)),
            Judged::Never => None,
            Judged::Undecided { leaves } => Some(Standing::Open { leaves }),
        }
    }
}

/// Answers what is known of formulas.
pub trait Judge {
    /// The least inputs that meet a formula, that none do, or that it was not decided: then `leaves` is the budget, at
    /// least 1, the formula has more valuations than that, and so many of them come before each one that meets it. Err is
    /// want of memory.
    fn ask(&mut self, f: &Formula, budget: u64) -> Result<Judged, AllocError>
        requires { 1 ≤ budget }
        ensures { IfOk result (IsJudged budget (query_of f.now)) };
}

/// Asks the search each time, and keeps nothing.
#[derive(Clone, Copy, Debug)]
pub struct Plain;

impl Judge for Plain {
    fn ask(&mut self, f: &Formula, budget: u64) -> Result<Judged, AllocError> {
        match ask(f, budget)? {
            Verdict::Met(inputs) => Ok(Judged::Met(inputs)),
            Verdict::Never(_log) => Ok(Judged::Never),
            Verdict::Undecided { leaves } => Ok(Judged::Undecided { leaves }),
        }
    }
}
