//! What is assigned while a line is checked.

ghost use Rattle.std.specs.Prelude.{◌≡◌, List, Some, true};
ghost use Rattle.std.specs.Bool.{MatchBool};
ghost use Rattle.kn_cnf.specs.declared.clauses.Lit.{Lit};
ghost use Rattle.kn_cnf.specs.Units.{lit_value};
ghost use Rattle.kn_cnf.specs.States.{IsState};
ghost use Rattle.kn_unsat.specs.Assigned.{Assigns};

use kn_cnf::{ClauseState, Lit};
use std::collections::HashMap;

/// The value of a literal, if its variable is assigned.
pub(crate) fn value_of(assigned: &HashMap<usize, bool>, l: Lit) -> Option<bool>
    ensures { (ls : List Lit) → Assigns assigned.now ls → result ≡ lit_value ls l }
{
    match assigned.get(&l.var) {
        None => None,
        Some(value) => Some(if l.neg { !*value } else { *value }),
    }
}

/// Whether the literal is assigned, and true.
pub(crate) fn is_true(assigned: &HashMap<usize, bool>, l: Lit) -> bool
    ensures { (ls : List Lit) → Assigns assigned.now ls → MatchBool result (lit_value ls l ≡ Some true) (lit_value ls l ≡ Some true → ⊥) }
{
    match value_of(assigned, l) {
        Some(value) => value,
        None => false,
    }
}

/// How this clause stands under the assignment.
pub(crate) fn state_of(assigned: &HashMap<usize, bool>, clause: &[Lit]) -> ClauseState
    ensures { (ls : List Lit) → Assigns assigned.now ls → IsState ls clause.now result }
{
    let mut state = ClauseState::False;
    for l in clause {
        state = state.with_literal(*l, value_of(assigned, *l));
    }
    state
}
