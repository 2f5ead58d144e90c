//! Formulas: a condition, and columns of alternatives.

ghost use Rattle.std.specs.Prelude.{◌≡◌, ◌<◌, ◌++◌, [], ◌∷◌, List, length, map, IfOk, OnOk, OnErr};
ghost use Rattle.kn_built.specs.Built.{Extends};
ghost use Rattle.kn_cond.specs.Meanings.{condition_of, literal_of, StandIn};
ghost use Rattle.kn_solve.specs.Formulas.{Asked, to_last, column_of, ColumnsStand};
ghost use Rattle.kn_term.specs.declared.node.Node.{Node as NodeOf};

use kn_cond::Cond;
use kn_term::{Literal, Terms};
use std::alloc::{AllocError, Global};
use std::marker::Model;

/// A condition on the inputs of a network, and columns of alternatives: inputs meet it where the condition and some
/// alternative of each column hold. It has terms of its own. Contracts see the condition and the columns, over terms
/// themselves, and it is kept in the allocator that `new` was given.
#[derive(Drop)]
pub struct Formula {
    pub(crate) terms: Terms,
    pub(crate) condition: Cond,
    pub(crate) columns: Vec<Vec<Cond>>,
}

impl Model for Formula {
    ghost use Rattle.std.specs.Prelude.{map};
    ghost use Rattle.std.specs.Coded.{codes};
    ghost use Rattle.kn_term.specs.TermCode.{term_code};
    ghost use Rattle.kn_cond.specs.Meanings.{condition_of, StandIn};
    ghost use Rattle.kn_solve.specs.Formulas.{Asked, column_of, ColumnsStand};

    ghost Value = { Asked };

    ghost coded = { Prim.hlevel (codes, term_code) };

    ghost view = { λ f. record { condition = condition_of f.terms f.condition; columns = map (column_of f.terms) f.columns.items } };

    ghost invariant = { λ f. StandIn f.terms f.condition × ColumnsStand f.terms f.columns.items };
}

impl Formula {
    /// The formula with an empty condition and without columns, which all inputs meet. It takes no memory.
    pub fn new(alloc: Global) -> Formula
        ensures { result ≡ record { condition = []; columns = [] } }
    {
        Formula {
            terms: Terms::new(alloc),
            condition: Cond::new(alloc),
            columns: Vec::new(alloc),
        }
    }

    /// The literals of a condition over a list of terms come to the condition. Err is want of memory, and leaves the
    /// formula as it was.
    pub fn add(&mut self, terms: &Terms, c: &Cond) -> Result<(), AllocError>
        requires { StandIn terms.now c.now }
        ensures ok { OnOk result (self.new ≡ record self.old { condition = self.old.condition ++ condition_of terms.now c.now }) }
        ensures err { OnErr result (self.new ≡ self.old) }
    {
        let own = imported(*self.columns.allocator(), &mut self.terms, terms, c)?;
        self.condition.join(&own)
    }

    /// One column more, without alternatives: no inputs meet the formula until one comes. Err is want of memory, and
    /// leaves the formula as it was.
    pub fn open_column(&mut self) -> Result<(), AllocError>
        ensures ok { OnOk result (self.new ≡ record self.old { columns = self.old.columns ++ [] ∷ [] }) }
        ensures err { OnErr result (self.new ≡ self.old) }
    {
        let none = Vec::new(*self.columns.allocator());
        self.columns.push(none)?;
        Ok(())
    }

    /// One alternative more in the column that was opened last: a condition over a list of terms. Err is want of memory,
    /// and leaves the formula as it was.
    pub fn add_alternative(&mut self, terms: &Terms, c: &Cond) -> Result<(), AllocError>
        requires stands { StandIn terms.now c.now }
        requires open { 0 < length self.old.columns }
        ensures ok { OnOk result (self.new ≡ record self.old { columns = to_last (condition_of terms.now c.now) self.old.columns }) }
        ensures err { OnErr result (self.new ≡ self.old) }
    {
        let own = imported(*self.columns.allocator(), &mut self.terms, terms, c)?;
        push_last(&mut self.columns, own)
    }

    /// The condition, over the formula's own terms.
    pub fn condition(&self) -> (&Terms, &Cond)
        ensures stands { StandIn result.0.now result.1.now }
        ensures means { condition_of result.0.now result.1.now ≡ self.now.condition }
    {
        (&self.terms, &self.condition)
    }

    /// How many columns there are.
    pub fn columns(&self) -> usize
        ensures { result ≡ length self.now.columns }
    {
        self.columns.len()
    }
}

/// One alternative more in the last column. Err is want of memory, and leaves the columns as they were.
fn push_last(columns: &mut Vec<Vec<Cond>>, c: Cond) -> Result<(), AllocError>
    requires { 0 < length columns.old.items }
    ensures ok { OnOk result ((ns : List NodeOf) → map (column_of ns) columns.new.items ≡ to_last (condition_of ns c) (map (column_of ns) columns.old.items)) }
    ensures err { OnErr result ((ns : List NodeOf) → map (column_of ns) columns.new.items ≡ map (column_of ns) columns.old.items) }
    ensures stand { (ns : List NodeOf) → StandIn ns c → ColumnsStand ns columns.old.items → ColumnsStand ns columns.new.items }
{
    let last = columns.len() - 1;
    columns[last].push(c)?;
    Ok(())
}

/// The literals of a condition over another list of terms, as literals over this one, whose earlier Refs keep their terms.
/// Err is want of memory.
fn imported(alloc: Global, own: &mut Terms, terms: &Terms, c: &Cond) -> Result<Cond, AllocError>
    requires { StandIn terms.now c.now }
    ensures same { IfOk result (λ d. condition_of own.new d ≡ condition_of terms.now c.now) }
    ensures stand { IfOk result (λ d. StandIn own.new d) }
    ensures grows { Extends own.old own.new }
{
    let mut literals = Cond::new(alloc);
    for literal in c.literals() {
        let term = own.import(terms, literal.term)?;
        literals.add(Literal {
            term,
            truth: literal.truth,
        })?;
    }
    Ok(literals)
}
