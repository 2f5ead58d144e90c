//! Literals, clauses and formulas.

ghost use Rattle.std.specs.Prelude.{◌≡◌, ◌↔◌, ◌==◌, ◌&&◌, not, map, IfOk, IsTrue};
ghost use Rattle.kn_cnf.specs.Formulas.{items_of};

use std::alloc::{AllocError, Global};
use std::marker::Model;

/// A variable, or its negation.
#[derive(Clone, Copy, Debug, Default, PartialEq, Eq, Hash)]
pub struct Lit {
    /// The variable's number, from 0.
    pub var: usize,
    /// Whether the variable is negated.
    pub neg: bool,
}

impl Lit {
    /// The literal that is true exactly where this one is not.
    pub fn negated(self) -> Lit
        ensures { result ≡ record self { neg = not self.neg } }
    {
        Lit {
            var: self.var,
            neg: !self.neg,
        }
    }
}

/// Literals of which one is to be true.
pub type Clause = Vec<Lit>;

/// Clauses all of which are to be true. Contracts see the number of variables and the list of lists of literals.
#[derive(Debug, Drop)]
pub struct Cnf {
    /// How many variables there are: their numbers are the lower ones.
    pub vars: usize,
    /// The clauses.
    pub clauses: Vec<Clause>,
}

impl Model for Cnf {
    ghost use Rattle.std.specs.Prelude.{map};
    ghost use Rattle.kn_cnf.specs.Formulas.{Formula, items_of};

    ghost Value = { Formula };

    ghost view = { λ f. record { vars = f.vars; clauses = map items_of f.clauses.items } };
}

impl Cnf {
    /// An equal formula. Err is want of memory.
    pub fn copy(&self) -> Result<Cnf, AllocError>
        ensures { IfOk result (λ f. f ≡ self.now) }
    {
        let clauses = copied(*self.clauses.allocator(), &self.clauses)?;
        Ok(Cnf {
            vars: self.vars,
            clauses,
        })
    }
}

/// Equal clauses.
fn copied(alloc: Global, clauses: &[Clause]) -> Result<Vec<Clause>, AllocError>
    ensures { IfOk result (λ v. map items_of v.items ≡ map items_of clauses.now) }
{
    let mut copy = Vec::new(alloc);
    for clause in clauses {
        copy.push(Vec::from_slice(alloc, clause)?)?;
    }
    Ok(copy)
}

impl PartialEq for Cnf {
    ghost use Rattle.std.specs.Cmp.Lexicographic.{pointwise};
    ghost use Rattle.std.specs.Cmp.Rules.{comparing};
    ghost use Rattle.std.specs.Ordering.{on, eq_of_both};
    ghost use Rattle.kn_cnf.specs.contracts.clauses.LitPartialEq.TheImpl.Laws.{laws-law as lit_law};

    ghost eq = { eq_of_both (on (λ f. f.vars) ◌==◌) (on (λ f. f.clauses) (pointwise (pointwise ⟦<Lit as PartialEq>⟧.eq))) };

    ghost laws = { Prim.search (comparing, lit_law) depth 14 };

    /// Whether two formulas have as many variables and the same clauses.
    fn eq(&self, other: &Cnf) -> bool
        ensures eq { result ≡ eq_of_both (on (λ f. f.vars) ◌==◌) (on (λ f. f.clauses) (pointwise (pointwise ⟦<Lit as PartialEq>⟧.eq))) self.now other.now }
        ensures same { IsTrue result ↔ (self.now ≡ other.now) }
    {
        both(self.vars == other.vars, self.clauses == other.clauses)
    }
}

/// Whether both hold.
pub(crate) fn both(a: bool, b: bool) -> bool
    ensures { result ≡ (a && b) }
{
    a && b
}
