//! In which clauses each literal stands.

ghost use Rattle.std.specs.Prelude.{◌≡◌, ◌<◌, ◌+◌, ℕ, IfOk, OnOk, length, Some, None, []};
ghost use Rattle.kn_sat.specs.Occurrences.{AreLower, AreWithin};

use kn_cnf::{Clause, Lit};
use std::alloc::{AllocError, Global};
use std::marker::Model;

/// The numbers of the clauses in which each literal stands. It serves speed alone: what it left out, a visit of all clauses
/// would find.
#[derive(Debug, Drop)]
pub(crate) struct Occurrences {
    positive: Vec<Vec<usize>>,
    negative: Vec<Vec<usize>>,
    clauses: usize,
}

impl Model for Occurrences {
    ghost use Rattle.kn_sat.specs.Occurrences.{AreLower, AreWithin, Index};

    ghost Value = { Index };

    ghost view = { λ o. record { clauses = o.clauses } };

    ghost invariant = { λ o. AreWithin o.clauses o.positive.items × AreWithin o.clauses o.negative.items };
}

impl Occurrences {
    /// In which of these clauses each literal of so many variables stands. Err is want of memory.
    pub(crate) fn new(
        alloc: Global,
        vars: usize,
        clauses: &[Clause],
    ) -> Result<Occurrences, AllocError>
        ensures { IfOk result (λ o. o.clauses ≡ length clauses.now) }
    {
        let mut positive = empty_lists(alloc, vars)?;
        let mut negative = empty_lists(alloc, vars)?;
        for (number, clause) in clauses.iter().enumerate() {
            put_clause(&mut positive, &mut negative, clause, number)?;
        }
        Ok(Occurrences {
            positive,
            negative,
            clauses: clauses.len(),
        })
    }

    /// The numbers of the clauses in which the literal stands.
    pub(crate) fn of(&self, l: Lit) -> &[usize]
        ensures { AreLower self.now.clauses result.now }
    {
        let lists = if l.neg {
            &self.negative
        } else {
            &self.positive
        };
        match lists.get(l.var) {
            Some(list) => list.as_slice(),
            None => &[],
        }
    }
}

/// So many empty lists.
fn empty_lists(alloc: Global, count: usize) -> Result<Vec<Vec<usize>>, AllocError>
    ensures { IfOk result (λ v. AreWithin 0 v.items) }
{
    let mut lists = Vec::new(alloc);
    for _place in 0..count {
        lists.push(Vec::new(alloc))?;
    }
    Ok(lists)
}

/// Puts the number of a clause into the list of each of its literals.
fn put_clause(
    positive: &mut Vec<Vec<usize>>,
    negative: &mut Vec<Vec<usize>>,
    clause: &[Lit],
    number: usize,
) -> Result<(), AllocError>
    ensures positive { OnOk result (AreWithin number positive.old.items → AreWithin (number + 1) positive.new.items) }
    ensures negative { OnOk result (AreWithin number negative.old.items → AreWithin (number + 1) negative.new.items) }
{
    for l in clause {
        put_literal(positive, negative, *l, number)?;
    }
    Ok(())
}

/// Puts a number into the list of a literal.
fn put_literal(
    positive: &mut Vec<Vec<usize>>,
    negative: &mut Vec<Vec<usize>>,
    l: Lit,
    number: usize,
) -> Result<(), AllocError>
    ensures positive { (n : ℕ) → number < n → AreWithin n positive.old.items → AreWithin n positive.new.items }
    ensures negative { (n : ℕ) → number < n → AreWithin n negative.old.items → AreWithin n negative.new.items }
{
    if l.neg {
        put(negative, l.var, number)
    } else {
        put(positive, l.var, number)
    }
}

/// Puts a number into the list at a place, if there is one.
fn put(lists: &mut Vec<Vec<usize>>, place: usize, number: usize) -> Result<(), AllocError>
    ensures { (n : ℕ) → number < n → AreWithin n lists.old.items → AreWithin n lists.new.items }
{
    if place < lists.len() {
        lists[place].push(number)?;
    }
    Ok(())
}
