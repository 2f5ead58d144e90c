//! Conditions as lists of literals.

ghost use Rattle.std.specs.Prelude.{◌≡◌, ◌↔◌, ◌++◌, [], ◌∷◌, IfOk, OnOk, OnErr, IsTrue, length, ◌<◌};
ghost use Rattle.std.specs.Cmp.Lexicographic.{pointwise};
ghost use Rattle.kn_cond.specs.Conditions.{holds, literal_holds};
ghost use Rattle.kn_cond.specs.Meanings.{condition_of, literal_of, StandIn};

use kn_term::{Literal, Terms, Valuation};
use std::alloc::{AllocError, Global};
use std::marker::Model;

/// A condition on inputs: literals over the terms of a list, each of which has to hold. Contracts see the list of
/// literals, and it is kept in the allocator that `new` was given.
#[derive(Debug, Drop)]
pub struct Cond {
    literals: Vec<Literal>,
}

impl Model for Cond {
    ghost use Rattle.std.specs.Prelude.{List};
    ghost use Rattle.kn_term.specs.declared.node.Literal.{Literal};

    ghost Value = { List Literal };

    ghost view = { λ c. c.literals.items };
}

impl Cond {
    /// The condition without literals, which all inputs meet. It takes no memory.
    pub fn new(alloc: Global) -> Cond
        ensures { result ≡ [] }
    {
        Cond {
            literals: Vec::new(alloc),
        }
    }

    /// The literals, oldest first.
    pub fn literals(&self) -> &[Literal]
        ensures { result.now ≡ self.now }
    {
        &self.literals
    }

    /// One literal more. Err is want of memory, and leaves the condition as it was.
    pub fn add(&mut self, l: Literal) -> Result<(), AllocError>
        ensures ok { OnOk result (self.new ≡ self.old ++ l ∷ []) }
        ensures err { OnErr result (self.new ≡ self.old) }
    {
        self.literals.push(l)?;
        Ok(())
    }

    /// The literals of another condition come behind those of this one. Err is want of memory, and leaves the condition
    /// as it was.
    pub fn join(&mut self, other: &Cond) -> Result<(), AllocError>
        ensures ok { OnOk result (self.new ≡ self.old ++ other.now) }
        ensures err { OnErr result (self.new ≡ self.old) }
    {
        self.literals.extend_from_slice(&other.literals)
    }

    /// Whether inputs meet the condition: each literal's term is not 0 exactly where the literal's truth says so. Err is
    /// want of memory.
    pub fn holds(&self, terms: &Terms, a: &Valuation) -> Result<bool, AllocError>
        requires { StandIn terms.now self.now }
        ensures { IfOk result (λ b. b ≡ holds a.now (condition_of terms.now self.now)) }
    {
        all_hold(&self.literals, terms, a)
    }

    /// An equal condition. Err is want of memory.
    pub fn copy(&self) -> Result<Cond, AllocError>
        ensures { IfOk result (λ c. c ≡ self.now) }
    {
        Ok(Cond {
            literals: Vec::from_slice(*self.literals.allocator(), self.literals.as_slice())?,
        })
    }
}

impl PartialEq for Cond {
    ghost use Rattle.std.specs.Cmp.Lexicographic.{pointwise, lists_per};
    ghost use Rattle.kn_term.specs.contracts.node.LiteralPartialEq.TheImpl.Laws.{laws-law};

    ghost eq = { pointwise ⟦<Literal as PartialEq>⟧.eq };

    ghost laws = { lists_per laws-law };

    /// Two conditions are equal exactly where their literals are.
    fn eq(&self, other: &Cond) -> bool
        ensures eq { result ≡ pointwise ⟦<Literal as PartialEq>⟧.eq self.now other.now }
        ensures same { IsTrue result ↔ (self.now ≡ other.now) }
    {
        self.literals == other.literals
    }
}

/// Whether each literal holds.
fn all_hold(literals: &[Literal], terms: &Terms, a: &Valuation) -> Result<bool, AllocError>
    requires { StandIn terms.now literals.now }
    ensures { IfOk result (λ b. b ≡ holds a.now (condition_of terms.now literals.now)) }
{
    for literal in literals {
        if !literal_holds(*literal, terms, a)? {
            return Ok(false);
        }
    }
    Ok(true)
}

/// Whether one literal holds.
fn literal_holds(literal: Literal, terms: &Terms, a: &Valuation) -> Result<bool, AllocError>
    requires { literal.term.index < length terms.now }
    ensures { IfOk result (λ b. b ≡ literal_holds a.now (literal_of terms.now literal)) }
{
    let word = terms.value(a, literal.term)?;
    Ok((word != 0) == literal.truth)
}
