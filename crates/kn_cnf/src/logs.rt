//! Logs: lists of lines, each a clause with hints why it follows.

ghost use Rattle.std.specs.Prelude.{◌≡◌, ◌↔◌, ◌==◌, [], IfOk, IsTrue};

use crate::clauses::{Clause, Lit, both};
use std::alloc::{AllocError, Global};
use std::marker::Model;

/// A clause of a log. Its hints name earlier clauses by number: first the formula's, and then the log's.
#[derive(Debug, Drop)]
pub struct Line {
    /// The clause that follows.
    pub clause: Clause,
    /// The numbers of the clauses that it follows from, in the order of their use.
    pub hints: Vec<usize>,
}

impl Model for Line {
    ghost use Rattle.kn_cnf.specs.Formulas.{Step};

    ghost Value = { Step };

    ghost view = { λ l. record { clause = l.clause.items; hints = l.hints.items } };
}

/// The lines of a refutation, in order. Contracts see the list of lines.
#[derive(Debug, Drop)]
pub struct Log {
    /// The lines.
    pub lines: Vec<Line>,
}

impl Model for Log {
    ghost use Rattle.std.specs.Prelude.{List};
    ghost use Rattle.kn_cnf.specs.Formulas.{Step};

    ghost Value = { List Step };

    ghost view = { λ l. l.lines.items };
}

impl Line {
    /// An equal line. Err is want of memory.
    pub fn copy(&self) -> Result<Line, AllocError>
        ensures { IfOk result (λ l. l ≡ self.now) }
    {
        let alloc = *self.clause.allocator();
        Ok(Line {
            clause: Vec::from_slice(alloc, &self.clause)?,
            hints: Vec::from_slice(alloc, &self.hints)?,
        })
    }
}

impl Log {
    /// The log without lines. It takes no memory.
    pub fn new(alloc: Global) -> Log
        ensures { result ≡ [] }
    {
        Log {
            lines: Vec::new(alloc),
        }
    }

    /// An equal log. Err is want of memory.
    pub fn copy(&self) -> Result<Log, AllocError>
        ensures { IfOk result (λ l. l ≡ self.now) }
    {
        let lines = copied(*self.lines.allocator(), &self.lines)?;
        Ok(Log { lines })
    }
}

/// Equal lines.
fn copied(alloc: Global, lines: &[Line]) -> Result<Vec<Line>, AllocError>
    ensures { IfOk result (λ v. v.items ≡ lines.now) }
{
    let mut copy = Vec::new(alloc);
    for line in lines {
        copy.push(line.copy()?)?;
    }
    Ok(copy)
}

impl PartialEq for Line {
    ghost use Rattle.std.specs.Cmp.Lexicographic.{pointwise};
    ghost use Rattle.std.specs.Cmp.Rules.{comparing};
    ghost use Rattle.std.specs.Ordering.{on, eq_of_both};
    ghost use Rattle.kn_cnf.specs.contracts.clauses.LitPartialEq.TheImpl.Laws.{laws-law as lit_law};

    ghost eq = { eq_of_both (on (λ l. l.clause) (pointwise ⟦<Lit as PartialEq>⟧.eq)) (on (λ l. l.hints) (pointwise ◌==◌)) };

    ghost laws = { Prim.search (comparing, lit_law) depth 14 };

    /// Whether two lines have the same clause and the same hints.
    fn eq(&self, other: &Line) -> bool
        ensures eq { result ≡ eq_of_both (on (λ l. l.clause) (pointwise ⟦<Lit as PartialEq>⟧.eq)) (on (λ l. l.hints) (pointwise ◌==◌)) self.now other.now }
        ensures same { IsTrue result ↔ (self.now ≡ other.now) }
    {
        both(self.clause == other.clause, self.hints == other.hints)
    }
}

impl PartialEq for Log {
    ghost use Rattle.std.specs.Cmp.Lexicographic.{pointwise, lists_per};
    ghost use Rattle.kn_cnf.specs.contracts.logs.LinePartialEq.TheImpl.Laws.{laws-law};

    ghost eq = { pointwise ⟦<Line as PartialEq>⟧.eq };

    ghost laws = { lists_per laws-law };

    /// Whether two logs have the same lines.
    fn eq(&self, other: &Log) -> bool
        ensures eq { result ≡ pointwise ⟦<Line as PartialEq>⟧.eq self.now other.now }
        ensures same { IsTrue result ↔ (self.now ≡ other.now) }
    {
        self.lines == other.lines
    }
}
