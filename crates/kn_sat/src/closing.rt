//! What a conflict closes.

ghost use Rattle.std.specs.Prelude.{◌≡◌, ◌<◌, ◌≤◌, ◌++◌, ◌∷◌, [], ℕ, Bool, true, List, Some, IfOk, MatchOption, map, length, slice_get};
ghost use Rattle.kn_cnf.specs.declared.clauses.Lit.{Lit};
ghost use Rattle.kn_cnf.specs.Formulas.{items_of};
ghost use Rattle.kn_cnf.specs.Good.{Checks, before};
ghost use Rattle.kn_sat.specs.Trails.{IsTrail, IsTurned};
ghost use Rattle.kn_sat.specs.Propagating.{IsConflict, Stands};
ghost use Rattle.kn_sat.specs.Resting.{marked, AreMarked, IsUnmarked, IsRest, sooner};
ghost use Rattle.kn_sat.specs.Order.{IsClosed};

use crate::trail::{Assigned, Reason, Trail};
use kn_cnf::{Clause, Line, Lit};
use std::alloc::{AllocError, Global};

/// Marks the variable of a literal.
#[tactic(auto, using(crate::proofs::Marks::marking))]
fn mark(marks: &mut [bool], l: Lit)
    ensures { (old : List Bool) (c : List Lit) → AreMarked old c marks.old → AreMarked old (c ++ l ∷ []) marks.new }
{
    if l.var < marks.len() {
        marks[l.var] = true;
    }
}

/// Marks the variables of a clause.
#[tactic(auto, using(crate::proofs::Marks::marking))]
fn mark_each(marks: &mut [bool], clause: &[Lit])
    ensures { AreMarked marks.old clause.now marks.new }
{
    for l in clause {
        mark(marks, *l);
    }
}

/// Takes the mark of a variable back.
#[tactic(auto, using(crate::proofs::Marks::marking))]
fn unmark(marks: &mut [bool], var: usize)
    ensures { IsUnmarked marks.old var marks.new }
{
    if var < marks.len() {
        marks[var] = false;
    }
}

/// Whether a variable is marked. One beyond the marks is.
fn is_marked(marks: &[bool], var: usize) -> bool
    ensures { result ≡ marked marks.now var }
{
    match marks.get(var) {
        Some(mark) => *mark,
        None => true,
    }
}

/// The clause with this number, if there is one: first the formula's clauses, and then the lines'.
fn numbered<'a>(clauses: &'a [Clause], lines: &'a [Line], number: usize) -> &'a [Lit]
    ensures { (c : List Lit) → slice_get (before clauses.now lines.now) number ≡ Some c → result.now ≡ c }
{
    if number < clauses.len() {
        return clauses[number].as_slice();
    }
    let place = number - clauses.len();
    if place < lines.len() {
        let line = &lines[place];
        line.clause.as_slice()
    } else {
        &[]
    }
}

/// The place of the latest decision, where another one was met at this place, before the one that was found so far.
fn sooner_place(latest: Option<usize>, place: usize) -> Option<usize>
    ensures { result ≡ sooner place latest }
{
    match latest {
        None => Some(place),
        Some(_) => latest,
    }
}

/// The line of a conflict, and the place of the latest decision that the conflict rests on. The conflict rests on the
/// variables of its clause, and a literal that was the open one of a unit clause on the others of that clause; the line says
/// that the decisions among them are not all true. No mark is set before, nor after.
fn line_of(
    alloc: Global,
    entries: &[Assigned],
    clauses: &[Clause],
    lines: &[Line],
    marks: &mut [bool],
    conflict: usize,
) -> Result<(Line, Option<usize>), AllocError>
    ensures { (n : ℕ) → IsTrail (before clauses.now lines.now) n [] entries.now → IsConflict (before clauses.now lines.now) entries.now conflict
        → IfOk result (λ p. IsRest (before clauses.now lines.now) entries.now conflict p.0 p.1) }
{
    let mut clause = Vec::new(alloc);
    let mut hints = Vec::new(alloc);
    let mut latest = None;
    let mut place = entries.len();
    hints.push(conflict)?;
    mark_each(marks, numbered(clauses, lines, conflict));
    'walk: while place > 0 {
        place -= 1;
        let entry = entries[place];
        if is_marked(marks, entry.literal.var) {
            match entry.reason {
                Reason::Decision => {
                    clause.push(entry.literal.negated())?;
                    latest = sooner_place(latest, place);
                    unmark(marks, entry.literal.var);
                }
                Reason::Clause(number) => {
                    hints.push(number)?;
                    mark_each(marks, numbered(clauses, lines, number));
                    unmark(marks, entry.literal.var);
                }
            }
        }
    }
    clause.reverse();
    hints.reverse();
    Ok((Line { clause, hints }, latest))
}

/// Takes the literal at a place back, with all behind it, and assigns its negation by the clause with this number. The answer
/// is its variable, or None where no literal stands there.
fn flip(trail: &mut Trail, place: usize, clause: usize) -> Result<Option<usize>, AllocError>
    ensures vars { trail.new.vars ≡ trail.old.vars }
    ensures turned { IfOk result (λ o. MatchOption o (length trail.old.entries ≤ place) (IsTurned trail.old.entries trail.new.entries place clause)) }
{
    while let Some(entry) = trail.pop() {
        if trail.entries().len() == place {
            trail.assign(entry.literal.negated(), Reason::Clause(clause))?;
            return Ok(Some(entry.literal.var));
        }
    }
    Ok(None)
}

/// Closes the assignments that begin with the decisions on which the false clause with this number rests, by a line, and goes
/// on behind them. The answer is the variable of the latest of these decisions, which is turned, or None where the line closes
/// all: then the lines are a log that checks.
pub(crate) fn close(
    trail: &mut Trail,
    clauses: &[Clause],
    lines: &mut Vec<Line>,
    marks: &mut [bool],
    conflict: usize,
) -> Result<Option<usize>, AllocError>
    ensures vars { trail.new.vars ≡ trail.old.vars }
    ensures closed { (n : ℕ) → Stands n (map items_of clauses.now) lines.old.items trail.old.entries → IsConflict (map items_of clauses.now ++ map (λ s. s.clause) lines.old.items) trail.old.entries conflict
        → IfOk result (λ o. MatchOption o (Checks (map items_of clauses.now) lines.new.items) (IsClosed n (map items_of clauses.now) lines.new.items trail.old.entries trail.new.entries)) }
{
    let Some(number) = clauses.len().checked_add(lines.len()) else {
        return Err(AllocError);
    };
    let alloc = *lines.allocator();
    let (line, latest) = line_of(alloc, trail.entries(), clauses, lines, marks, conflict)?;
    lines.push(line)?;
    match latest {
        Some(place) => flip(trail, place, number),
        None => Ok(None),
    }
}
