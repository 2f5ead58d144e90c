//! Unit propagation.

ghost use Rattle.std.specs.Prelude.{◌≡◌, ◌<◌, ◌++◌, ◌∷◌, [], ℕ, List, IfOk, IfSome, OnOk, MatchOption, None, Some, length, map};
ghost use Rattle.std.specs.List.{AllByRecursion};
ghost use Rattle.kn_cnf.specs.declared.clauses.Lit.{Lit};
ghost use Rattle.kn_cnf.specs.Formulas.{items_of, AreBelow};
ghost use Rattle.kn_cnf.specs.States.{IsState};
ghost use Rattle.kn_sat.specs.Trails.{latest, IsGrown};
ghost use Rattle.kn_sat.specs.Propagating.{IsConflict, IsVisited, IsScanned, IsSettled, IsFirstOpen, AreAssigned};

use crate::occurrences::Occurrences;
use crate::trail::{Reason, Trail};
use kn_cnf::{Clause, ClauseState, Lit};
use std::alloc::AllocError;

/// How a clause stands on the trail.
fn state_of(trail: &Trail, clause: &[Lit]) -> ClauseState
    ensures { IsState (latest trail.now.entries) clause.now result }
{
    let mut state = ClauseState::False;
    for l in clause {
        state = state.with_literal(*l, trail.value(*l));
        if let ClauseState::Other = state {
            return ClauseState::Other;
        }
    }
    state
}

/// Assigns the open literal of the clause with this number, if it is unit. The answer is how the clause stood.
fn visit(trail: &mut Trail, clauses: &[Clause], number: usize) -> Result<ClauseState, AllocError>
    requires below { AreBelow trail.old.vars (map items_of clauses.now) }
    requires number { number < length clauses.now }
    ensures vars { trail.new.vars ≡ trail.old.vars }
    ensures grown { OnOk result (IsGrown (map items_of clauses.now) trail.old.vars trail.old.entries trail.new.entries) }
    ensures visited { IfOk result (IsVisited (map items_of clauses.now) number trail.old.entries trail.new.entries) }
{
    let state = state_of(trail, &clauses[number]);
    if let ClauseState::Unit(l) = state {
        trail.assign(l, Reason::Clause(number))?;
    }
    Ok(state)
}

/// Visits the clauses with these numbers, up to the first false one. The answer is its number.
fn visit_each(
    trail: &mut Trail,
    clauses: &[Clause],
    numbers: &[usize],
) -> Result<Option<usize>, AllocError>
    requires below { AreBelow trail.old.vars (map items_of clauses.now) }
    requires numbers { AllByRecursion (λ (h : ℕ). h < length clauses.now) numbers.now }
    ensures vars { trail.new.vars ≡ trail.old.vars }
    ensures grown { OnOk result (IsGrown (map items_of clauses.now) trail.old.vars trail.old.entries trail.new.entries) }
    ensures conflict { IfOk result (λ o. IfSome o (IsConflict (map items_of clauses.now) trail.new.entries)) }
{
    for number in numbers {
        if let ClauseState::False = visit(trail, clauses, *number)? {
            return Ok(Some(*number));
        }
    }
    Ok(None)
}

/// What a visit of all clauses met.
#[derive(Clone, Copy, Debug)]
enum Scan {
    /// The clause with this number is false.
    Conflict(usize),
    /// Some clause was unit.
    Grown,
    /// No clause is false or unit.
    Calm,
}

/// Visits all clauses, up to the first false one.
fn visit_all(trail: &mut Trail, clauses: &[Clause]) -> Result<Scan, AllocError>
    requires below { AreBelow trail.old.vars (map items_of clauses.now) }
    ensures vars { trail.new.vars ≡ trail.old.vars }
    ensures grown { OnOk result (IsGrown (map items_of clauses.now) trail.old.vars trail.old.entries trail.new.entries) }
    ensures scanned { IfOk result (IsScanned (map items_of clauses.now) trail.old.entries trail.new.entries) }
{
    let mut calm = true;
    for number in 0..clauses.len() {
        match visit(trail, clauses, number)? {
            ClauseState::False => return Ok(Scan::Conflict(number)),
            ClauseState::Unit(_) => calm = false,
            ClauseState::Other => {}
        }
    }
    Ok(if calm { Scan::Calm } else { Scan::Grown })
}

/// Visits the clauses in which a literal became false, for each literal of the trail from this place on, and before the
/// first one all clauses, so that those which are unit by themselves come before any decision. The answer is the number of
/// the first false clause.
fn follow(
    trail: &mut Trail,
    clauses: &[Clause],
    occurrences: &Occurrences,
    from: usize,
) -> Result<Option<usize>, AllocError>
    requires below { AreBelow trail.old.vars (map items_of clauses.now) }
    requires count { occurrences.now.clauses ≡ length clauses.now }
    ensures vars { trail.new.vars ≡ trail.old.vars }
    ensures grown { OnOk result (IsGrown (map items_of clauses.now) trail.old.vars trail.old.entries trail.new.entries) }
    ensures conflict { IfOk result (λ o. IfSome o (IsConflict (map items_of clauses.now) trail.new.entries)) }
{
    if from == 0 {
        if let Scan::Conflict(number) = visit_all(trail, clauses)? {
            return Ok(Some(number));
        }
    }
    let mut head = from;
    while head < trail.entries().len() {
        let literal = trail.entries()[head].literal;
        let numbers = occurrences.of(literal.negated());
        if let Some(number) = visit_each(trail, clauses, numbers)? {
            return Ok(Some(number));
        }
        head += 1;
    }
    Ok(None)
}

/// The first input that is open, where those before this one are assigned.
fn open_input(trail: &Trail, inputs: usize, from: usize) -> Option<usize>
    requires { AreAssigned from (latest trail.now.entries) }
    ensures { MatchOption result (AreAssigned inputs (latest trail.now.entries)) (IsFirstOpen inputs (latest trail.now.entries)) }
{
    for var in from..inputs {
        if trail.value(Lit { var, neg: false }).is_none() {
            return Some(var);
        }
    }
    None
}

/// Where unit propagation came to.
#[derive(Clone, Copy, Debug)]
pub(crate) enum Settled {
    /// The clause with this number is false.
    Conflict(usize),
    /// No clause was found false, and this is the first open input.
    Open(usize),
    /// Each input is assigned, and no clause is false or unit.
    Calm,
}

/// Propagates units behind the latest literal. The inputs before `next` are assigned.
pub(crate) fn settle(
    trail: &mut Trail,
    clauses: &[Clause],
    occurrences: &Occurrences,
    inputs: usize,
    next: usize,
) -> Result<Settled, AllocError>
    requires below { AreBelow trail.old.vars (map items_of clauses.now) }
    requires count { occurrences.now.clauses ≡ length clauses.now }
    requires next { AreAssigned next (latest trail.old.entries) }
    ensures vars { trail.new.vars ≡ trail.old.vars }
    ensures grown { OnOk result (IsGrown (map items_of clauses.now) trail.old.vars trail.old.entries trail.new.entries) }
    ensures settled { IfOk result (IsSettled (map items_of clauses.now) inputs trail.new.entries) }
{
    let mut head = trail.entries().len().saturating_sub(1);
    'settle: loop {
        if let Some(number) = follow(trail, clauses, occurrences, head)? {
            return Ok(Settled::Conflict(number));
        }
        if let Some(var) = open_input(trail, inputs, next) {
            return Ok(Settled::Open(var));
        }
        head = trail.entries().len();
        match visit_all(trail, clauses)? {
            Scan::Conflict(number) => return Ok(Settled::Conflict(number)),
            Scan::Grown => {}
            Scan::Calm => return Ok(Settled::Calm),
        }
    }
}
