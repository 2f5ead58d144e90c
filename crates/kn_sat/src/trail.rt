//! The literals that are assigned true, and why.

ghost use Rattle.std.specs.Prelude.{◌≡◌, ◌<◌, ◌++◌, ◌∷◌, [], IfOk, OnOk, OnErr, IfSome, MatchOption, None, Some, length};
ghost use Rattle.kn_cnf.specs.Units.{valued, lit_value};
ghost use Rattle.kn_sat.specs.Trails.{latest};

use kn_cnf::Lit;
use std::alloc::{AllocError, Global};
use std::marker::Model;

/// Why a literal is assigned true.
#[derive(Clone, Copy, Debug)]
pub(crate) enum Reason {
    /// It was decided.
    Decision,
    /// It was the open literal of the clause with this number, which was unit.
    Clause(usize),
}

/// A literal that is assigned true, and why.
#[derive(Clone, Copy, Debug)]
pub(crate) struct Assigned {
    pub(crate) literal: Lit,
    pub(crate) reason: Reason,
}

/// The assigned literals in the order of their assignment, and the value of each variable.
#[derive(Debug, Drop)]
pub(crate) struct Trail {
    entries: Vec<Assigned>,
    values: Vec<Option<bool>>,
}

impl Model for Trail {
    ghost use Rattle.std.specs.Prelude.{length};
    ghost use Rattle.kn_sat.specs.Trails.{Assignment, AreValues};

    ghost Value = { Assignment };

    ghost view = { λ t. record { vars = length t.values.items; entries = t.entries.items } };

    ghost invariant = { λ t. AreValues t.values.items t.entries.items };
}

impl Trail {
    /// The trail of so many open variables. Err is want of memory.
    pub(crate) fn new(alloc: Global, vars: usize) -> Result<Trail, AllocError>
        ensures { IfOk result (λ t. t ≡ record { vars = vars; entries = [] }) }
    {
        Ok(Trail {
            entries: Vec::new(alloc),
            values: vec![in alloc; None; vars]?,
        })
    }

    /// The assigned literals, the earliest first.
    pub(crate) fn entries(&self) -> &[Assigned]
        ensures { result.now ≡ self.now.entries }
    {
        self.entries.as_slice()
    }

    /// The value of a literal, if its variable is assigned.
    pub(crate) fn value(&self, l: Lit) -> Option<bool>
        ensures { result ≡ lit_value (latest self.now.entries) l }
    {
        match self.values.get(l.var) {
            Some(Some(value)) => Some(if l.neg { !*value } else { *value }),
            _ => None,
        }
    }

    /// Assigns an open literal true. Err is want of memory.
    pub(crate) fn assign(&mut self, literal: Lit, reason: Reason) -> Result<(), AllocError>
        requires var { literal.var < self.old.vars }
        requires opens { valued (latest self.old.entries) literal.var ≡ None }
        ensures entries { OnOk result (self.new.entries ≡ self.old.entries ++ record { literal = literal; reason = reason } ∷ []) }
        ensures vars { self.new.vars ≡ self.old.vars }
        ensures err { OnErr result (self.new ≡ self.old) }
    {
        self.entries.push(Assigned { literal, reason })?;
        self.values[literal.var] = Some(!literal.neg);
        Ok(())
    }

    /// Takes back the latest literal, if there is one.
    pub(crate) fn pop(&mut self) -> Option<Assigned>
        ensures entries { MatchOption result ((self.old.entries ≡ []) × (self.new.entries ≡ [])) (λ e. self.old.entries ≡ self.new.entries ++ e ∷ []) }
        ensures vars { self.new.vars ≡ self.old.vars }
        ensures opens { IfSome result (λ e. (e.literal.var < self.new.vars) × (valued (latest self.new.entries) e.literal.var ≡ None)) }
    {
        let entry = self.entries.pop()?;
        self.values[entry.literal.var] = None;
        Some(entry)
    }
}
