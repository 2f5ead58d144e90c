//! How clauses stand under an assignment.

ghost use Rattle.std.specs.Prelude.{◌≡◌, ◌∷◌, [], ◌++◌, List};
ghost use Rattle.kn_cnf.specs.declared.clauses.Lit.{Lit};
ghost use Rattle.kn_cnf.specs.Units.{lit_value};
ghost use Rattle.kn_cnf.specs.States.{IsState};

use crate::clauses::Lit;

/// How a clause stands under an assignment.
#[derive(Clone, Copy, Debug)]
pub enum ClauseState {
    /// Each literal is false.
    False,
    /// This literal is open, and each other one is false.
    Unit(Lit),
    /// A literal is true, or two are open.
    Other,
}

impl ClauseState {
    /// How the clause stands with one literal more, which has this value if its variable is assigned. The clause without
    /// literals is `False`.
    pub fn with_literal(self, l: Lit, value: Option<bool>) -> ClauseState
        ensures { (ls xs : List Lit) → value ≡ lit_value ls l → IsState ls xs self → IsState ls (xs ++ l ∷ []) result }
    {
        match value {
            Some(true) => ClauseState::Other,
            Some(false) => self,
            None => match self {
                ClauseState::False => ClauseState::Unit(l),
                ClauseState::Unit(m) => if m == l { self } else { ClauseState::Other },
                ClauseState::Other => ClauseState::Other,
            },
        }
    }
}
