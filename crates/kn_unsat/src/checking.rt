//! The check of a log against a formula.

ghost use Rattle.std.specs.Prelude.{◌≡◌, ◌↔◌, [], ◌++◌, map, IfOk, IsTrue, MatchOption, None, Some, slice_get, List, ℕ};
ghost use Rattle.std.specs.Bool.{MatchBool};
ghost use Rattle.kn_cnf.specs.declared.clauses.Lit.{Lit};
ghost use Rattle.kn_cnf.specs.Formulas.{items_of};
ghost use Rattle.kn_cnf.specs.Truth.{AreNeverMet};
ghost use Rattle.kn_unsat.specs.Assigned.{Assigns};
ghost use Rattle.kn_cnf.specs.Good.{HasBoth, falsified, Refutes, IsGood, EndsEmpty, Checks, before};

use crate::assigned::{is_true, state_of};
use kn_cnf::{Clause, ClauseState, Cnf, Line, Lit, Log};
use std::alloc::{AllocError, Global};
use std::collections::HashMap;

/// Whether the log checks against the formula: it has a line, each line is good, and the last line's clause is empty.
/// Then no values of the variables meet the formula. Each line takes time for its clause and for the clauses that its
/// hints name. Err is want of memory.
pub fn check(cnf: &Cnf, log: &Log) -> Result<bool, AllocError>
    ensures exact { IfOk result (λ b. IsTrue b ↔ Checks cnf.now.clauses log.now) }
    ensures never { IfOk result (λ b. IsTrue b → AreNeverMet cnf.now.clauses) }
{
    let alloc = *cnf.clauses.allocator();
    let lines = log.lines.as_slice();
    for (place, line) in lines.iter().enumerate() {
        if !is_good(alloc, &cnf.clauses, &lines[..place], line)? {
            return Ok(false);
        }
    }
    Ok(ends_empty(lines))
}

/// Whether there is a last line and its clause is empty.
fn ends_empty(lines: &[Line]) -> bool
    ensures { IsTrue result ↔ EndsEmpty lines.now }
{
    match lines.last() {
        None => false,
        Some(line) => line.clause.is_empty(),
    }
}

/// Whether a line is good behind the clauses and the earlier lines.
fn is_good(
    alloc: Global,
    clauses: &[Clause],
    earlier: &[Line],
    line: &Line,
) -> Result<bool, AllocError>
    ensures { IfOk result (λ b. IsTrue b ↔ IsGood (before clauses.now earlier.now) line.now) }
{
    let mut assigned = HashMap::new(alloc);
    if !falsify(&mut assigned, &line.clause)? {
        return Ok(false);
    }
    follow(&mut assigned, clauses, earlier, &line.hints)
}

/// Assigns each literal of a clause false. False where the clause holds a literal together with its negation.
fn falsify(assigned: &mut HashMap<usize, bool>, clause: &[Lit]) -> Result<bool, AllocError>
    requires { Assigns assigned.old [] }
    ensures { IfOk result (λ b. MatchBool b ((HasBoth clause.now → ⊥) × Assigns assigned.new (falsified [] clause.now)) (HasBoth clause.now)) }
{
    for l in clause {
        if is_true(assigned, *l) {
            return Ok(false);
        }
        assigned.insert(l.var, l.neg)?;
    }
    Ok(true)
}

/// Whether the hints refute the assignment: each but the last names a unit clause, and the last one a false clause.
fn follow(
    assigned: &mut HashMap<usize, bool>,
    clauses: &[Clause],
    earlier: &[Line],
    hints: &[usize],
) -> Result<bool, AllocError>
    ensures { (ls : List Lit) → Assigns assigned.old ls → IfOk result (λ b. IsTrue b ↔ Refutes (before clauses.now earlier.now) ls hints.now) }
{
    for (place, hint) in hints.iter().enumerate() {
        let Some(clause) = named(clauses, earlier, *hint) else {
            return Ok(false);
        };
        match state_of(assigned, clause) {
            ClauseState::False => return Ok(place + 1 == hints.len()),
            ClauseState::Unit(l) => {
                assigned.insert(l.var, !l.neg)?;
            }
            ClauseState::Other => return Ok(false),
        }
    }
    Ok(false)
}

/// The clause of this number: first the formula's clauses, and then the lines'.
fn named<'a>(clauses: &'a [Clause], earlier: &'a [Line], hint: usize) -> Option<&'a [Lit]>
    ensures { MatchOption result (slice_get (before clauses.now earlier.now) hint ≡ None) (λ c. slice_get (before clauses.now earlier.now) hint ≡ Some c.now) }
{
    if hint < clauses.len() {
        return Some(clauses[hint].as_slice());
    }
    let place = hint - clauses.len();
    if place < earlier.len() {
        let line = &earlier[place];
        Some(line.clause.as_slice())
    } else {
        None
    }
}
