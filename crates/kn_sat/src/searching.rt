//! The search.

ghost use Rattle.std.specs.Prelude.{◌≡◌, ◌<◌, ◌≤◌, ◌^◌, IfOk, length, map};
ghost use Rattle.kn_cnf.specs.Encoding.{bits_from};
ghost use Rattle.kn_cnf.specs.Formulas.{items_of, AreBelow};
ghost use Rattle.kn_cnf.specs.Truth.{AreNeverMet};
ghost use Rattle.kn_cnf.specs.Units.{IsDecided};
ghost use Rattle.kn_cnf.specs.Good.{Checks};
ghost use Rattle.kn_sat.specs.Trails.{latest, bit};
ghost use Rattle.kn_sat.specs.Order.{number, Extends, AreRefuted};
ghost use Rattle.kn_sat.specs.Answers.{OnModel, OnClosed, OnSpent, Answers};

use crate::closing::close;
use crate::occurrences::Occurrences;
use crate::propagation::{Settled, settle};
use crate::trail::{Reason, Trail};
use kn_cnf::{Clause, Cnf, Line, Lit, Log};
use std::alloc::{AllocError, Global};

/// What a search found.
#[derive(Debug, Drop)]
pub enum Found {
    /// The values of the inputs in the least model.
    Model(Vec<bool>),
    /// There is no model: this log checks against the clauses.
    Closed(Log),
    /// So many conflicts were met before an answer was found.
    Spent(u64),
}

/// Searches the least values of the inputs, which are the first variables, that extend to values that meet the clauses.
/// Values are ordered by the first input at which they differ, false before true. Inputs are decided in order, false
/// first, and units are propagated; each conflict counts, and as soon as `budget` conflicts, at least 1, were met and
/// assignments are left, the search ends. It needs that unit propagation completes or refutes each assignment of the
/// inputs. Err is want of memory.
pub fn search(alloc: Global, cnf: &Cnf, inputs: usize, budget: u64) -> Result<Found, AllocError>
    requires below { AreBelow cnf.now.vars cnf.now.clauses }
    requires inputs { inputs ≤ cnf.now.vars }
    requires budget { 1 ≤ budget }
    requires decided { IsDecided inputs cnf.now }
    // The model has a value for each input, and extends to values that meet the clauses.
    ensures model { IfOk result (OnModel (λ bits. (length bits ≡ inputs) × Extends inputs cnf.now.clauses bits)) }
    // No assignment before the model does.
    ensures least { IfOk result (OnModel (λ bits. AreRefuted inputs cnf.now.clauses (number bits))) }
    // The log checks.
    ensures closed { IfOk result (OnClosed (Checks cnf.now.clauses)) }
    // Where a log is found, there is no model.
    ensures never { IfOk result (OnClosed (λ _. AreNeverMet cnf.now.clauses)) }
    // All of the budget was spent.
    ensures spent { IfOk result (OnSpent (λ count. count ≡ budget)) }
    // The budget was lower than the number of assignments.
    ensures left { IfOk result (OnSpent (λ _. budget < 2 ^ inputs)) }
    // As many assignments as the budget come first, and none of them extends to values that meet the clauses.
    ensures refuted { IfOk result (OnSpent (λ _. AreRefuted inputs cnf.now.clauses budget)) }
{
    run(alloc, &cnf.clauses, cnf.vars, inputs, budget)
}

/// The search over clauses of so many variables.
fn run(
    alloc: Global,
    clauses: &[Clause],
    vars: usize,
    inputs: usize,
    budget: u64,
) -> Result<Found, AllocError>
    requires below { AreBelow vars (map items_of clauses.now) }
    requires inputs { inputs ≤ vars }
    requires budget { 1 ≤ budget }
    requires decided { IsDecided inputs (record { vars = vars; clauses = map items_of clauses.now }) }
    ensures { IfOk result (Answers inputs (map items_of clauses.now) budget) }
{
    let occurrences = Occurrences::new(alloc, vars, clauses)?;
    let mut trail = Trail::new(alloc, vars)?;
    let mut marks = vec![in alloc; false; vars]?;
    let mut lines: Vec<Line> = Vec::new(alloc);
    let mut leaves = 0;
    let mut next = 0;
    'search: loop {
        match settle(&mut trail, clauses, &occurrences, inputs, next)? {
            Settled::Conflict(number) => {
                let Some(var) = close(&mut trail, clauses, &mut lines, &mut marks, number)? else {
                    return Ok(Found::Closed(Log { lines }));
                };
                leaves += 1;
                if leaves == budget {
                    return Ok(Found::Spent(leaves));
                }
                next = var;
            }
            Settled::Open(var) => {
                trail.assign(Lit { var, neg: true }, Reason::Decision)?;
                next = var;
            }
            Settled::Calm => return Ok(Found::Model(bits_of(alloc, &trail, inputs)?)),
        }
    }
}

/// The values of the first variables.
fn bits_of(alloc: Global, trail: &Trail, count: usize) -> Result<Vec<bool>, AllocError>
    ensures { IfOk result (λ v. v.items ≡ bits_from (bit (latest trail.now.entries)) 0 count) }
{
    let mut bits = Vec::new(alloc);
    for var in 0..count {
        bits.push(trail.value(Lit { var, neg: false }).unwrap_or(false))?;
    }
    Ok(bits)
}
