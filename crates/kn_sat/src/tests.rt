//! The rows of searches.

ghost use Rattle.std.specs.Prelude.{◌≡◌, ◌<◌, ◌≤◌, IfOk};
ghost use Rattle.std.specs.List.{AllByRecursion};
ghost use Rattle.kn_cnf.specs.declared.clauses.Lit.{Lit};
ghost use Rattle.kn_cnf.specs.Formulas.{AreBelow};

use super::*;
use kn_cnf::{Clause, Cnf, Lit};
use std::alloc::{AllocError, Global};
use std::test::Fail;

const X: Lit = Lit { var: 0, neg: false };

const NOT_X: Lit = Lit { var: 0, neg: true };

const Y: Lit = Lit { var: 1, neg: false };

const NOT_Y: Lit = Lit { var: 1, neg: true };

const Z: Lit = Lit { var: 2, neg: false };

const NOT_Z: Lit = Lit { var: 2, neg: true };

const U: Lit = Lit { var: 3, neg: false };

const NOT_U: Lit = Lit { var: 3, neg: true };

/// Four clauses over two variables that no values meet.
const SQUARE: [[Lit; 3]; 4] = [
    [X, X, Y],
    [X, X, NOT_Y],
    [NOT_X, NOT_X, Y],
    [NOT_X, NOT_X, NOT_Y],
];

/// The first variable is true, and each next one where the one before it is.
const CHAIN: [[Lit; 3]; 3] = [[X, X, X], [NOT_X, NOT_X, Y], [NOT_Y, NOT_Y, Z]];

/// The first variable is true by the third and the fourth, and the second stands in none.
const BESIDE: [[Lit; 3]; 4] = [[X, Z, U], [X, Z, NOT_U], [X, NOT_Z, U], [X, NOT_Z, NOT_U]];

fn is_shared<T: Send + Sync>(_value: &T) {}

/// The clause of these literals. Err also where a variable is not below the bound.
fn clause_of(alloc: Global, vars: usize, literals: &[Lit]) -> Result<Clause, AllocError>
    ensures { IfOk result (λ c. AllByRecursion (λ (l : Lit). l.var < vars) c.items) }
{
    let mut clause = Vec::new(alloc);
    for l in literals {
        if l.var >= vars {
            return Err(AllocError);
        }
        clause.push(*l)?;
    }
    Ok(clause)
}

/// The formula of clauses of three literals each, some of which may be the same.
fn of_triples(alloc: Global, vars: usize, triples: &[[Lit; 3]]) -> Result<Cnf, AllocError>
    ensures vars { IfOk result (λ f. f.vars ≡ vars) }
    ensures below { IfOk result (λ f. AreBelow f.vars f.clauses) }
{
    let mut clauses: Vec<Clause> = Vec::new(alloc);
    for triple in triples {
        clauses.push(clause_of(alloc, vars, triple)?)?;
    }
    Ok(Cnf { vars, clauses })
}

/// The formula of one clause.
fn one_clause(alloc: Global, vars: usize, literals: &[Lit]) -> Result<Cnf, AllocError>
    ensures vars { IfOk result (λ f. f.vars ≡ vars) }
    ensures below { IfOk result (λ f. AreBelow f.vars f.clauses) }
{
    let clause = clause_of(alloc, vars, literals)?;
    Ok(Cnf {
        vars,
        clauses: vec![in alloc; clause]?,
    })
}

/// A search where each variable is an input.
fn search_all(alloc: Global, cnf: &Cnf, budget: u64) -> Result<Found, AllocError>
    requires below { AreBelow cnf.now.vars cnf.now.clauses }
    requires budget { 1 ≤ budget }
{
    search(alloc, cnf, cnf.vars, budget)
}

/// Whether a model with these bits was found.
fn is_model(found: &Found, want: &[bool]) -> bool {
    match found {
        Found::Model(bits) => bits.as_slice() == want,
        Found::Closed(_) => false,
        Found::Spent(_) => false,
    }
}

/// Whether a log of so many lines was found.
fn is_closed(found: &Found, lines: usize) -> bool {
    match found {
        Found::Closed(log) => log.lines.len() == lines,
        Found::Model(_) => false,
        Found::Spent(_) => false,
    }
}

/// Whether so many conflicts were met.
fn is_spent(found: &Found, want: u64) -> bool {
    match found {
        Found::Spent(count) => *count == want,
        Found::Model(_) => false,
        Found::Closed(_) => false,
    }
}

#[test]
fn finds_the_least_model(rt: HostRuntime) -> Result<(), Fail> {
    let alloc = rt.alloc();
    let either = one_clause(alloc, 2, &[X, Y])?;
    let found = search_all(alloc, &either, 4)?;
    assert!(rt; is_model(&found, &[false, true]));
    is_shared(&found);
    let forty = one_clause(alloc, 40, &[NOT_X])?;
    assert!(rt; is_model(&search_all(alloc, &forty, 1)?, &[false; 40]));
    let beside = of_triples(alloc, 4, &BESIDE)?;
    assert!(rt;
        is_model(
            &search_all(alloc, &beside, 3)?,
            &[true, false, false, false]
        )
    );
    let chain = of_triples(alloc, 3, &CHAIN)?;
    assert!(rt; is_model(&search_all(alloc, &chain, 1)?, &[true; 3]));
    Ok(())
}

#[test]
fn closes_what_has_no_model(rt: HostRuntime) -> Result<(), Fail> {
    let alloc = rt.alloc();
    let square = of_triples(alloc, 2, &SQUARE)?;
    assert!(rt; is_closed(&search_all(alloc, &square, 2)?, 2));
    assert!(rt; is_spent(&search_all(alloc, &square, 1)?, 1));
    let never = one_clause(alloc, 3, &[])?;
    assert!(rt; is_closed(&search_all(alloc, &never, 1)?, 1));
    Ok(())
}

#[test]
fn an_empty_formula_has_the_first_assignment(rt: HostRuntime) -> Result<(), Fail> {
    let alloc = rt.alloc();
    for vars in [0, 1, 3] {
        let empty = Cnf {
            vars,
            clauses: Vec::new(alloc),
        };
        let found = search_all(alloc, &empty, 1)?;
        assert!(rt; is_model(&found, &[false; 3][..vars]));
    }
    Ok(())
}
