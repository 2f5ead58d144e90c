//! A node's state, with the terms and the condition that it is kept with.

ghost use Rattle.std.specs.Prelude.{◌≡◌, ◌↔◌, IfOk, IsTrue};
ghost use Rattle.kn_node.specs.Equality.{config_eq, names_eq, contents_eq};
ghost use Rattle.kn_node.specs.Views.{IsConfig};

use crate::machine::Machine;
use kn_cond::{Cond, Standing};
use kn_term::Terms;
use kn_trace::Trace;
use std::alloc::AllocError;
use std::marker::Model;

/// A node's state: the node's number, its machine, the terms that machine and condition are over, its own condition, the
/// bits of its decisions, the number of its history in a table, and what is known of the inputs that meet the condition.
#[derive(Debug, Drop)]
pub struct Config {
    pub node: u32,
    pub machine: Machine,
    pub terms: Terms,
    pub cond: Cond,
    pub trace: Trace,
    pub history: usize,
    pub standing: Standing,
}

impl Model for Config {
    ghost use Rattle.kn_node.specs.Views.{ConfigView, IsConfig};

    ghost Value = { ConfigView };

    ghost view = { λ c. record { node = c.node; machine = c.machine; terms = c.terms; cond = c.cond; trace = c.trace; history = c.history; standing = c.standing } };

    ghost invariant = { λ c. IsConfig c.terms c.machine c.cond };
}

impl Config {
    /// An equal state. Err is want of memory.
    pub fn copy(&self) -> Result<Config, AllocError>
        ensures { IfOk result (λ c. c ≡ self.now) }
    {
        Ok(Config {
            node: self.node,
            machine: self.machine.copy()?,
            terms: self.terms.copy()?,
            cond: self.cond.copy()?,
            trace: self.trace.copy()?,
            history: self.history,
            standing: self.standing.copy()?,
        })
    }

    /// That registers, memory and condition stand among the terms, for a caller that needs it in a proof.
    pub fn stands(&self)
        ensures { IsConfig self.now.terms self.now.machine self.now.cond }
    {
        let _ = &self.node;
    }
}

impl PartialEq for Config {
    ghost use Rattle.kn_node.specs.Equality.{config_eq, config_per};

    ghost eq = { config_eq };

    ghost laws = { config_per };

    /// Two states are equal exactly where all their fields are.
    fn eq(&self, other: &Config) -> bool
        ensures eq { result ≡ config_eq self.now other.now }
        ensures same { IsTrue result ↔ (self.now ≡ other.now) }
    {
        is_same_config(self, other)
    }
}

/// Whether all fields of two states are equal.
fn is_same_config(c: &Config, d: &Config) -> bool
    ensures { result ≡ config_eq c.now d.now }
{
    has_same_names(c, d) && has_same_contents(c, d)
}

/// Whether node, trace and history are equal.
fn has_same_names(c: &Config, d: &Config) -> bool
    ensures { result ≡ names_eq c.now d.now }
{
    c.node == d.node && c.trace == d.trace && c.history == d.history
}

/// Whether machine, terms, condition and standing are equal.
fn has_same_contents(c: &Config, d: &Config) -> bool
    ensures { result ≡ contents_eq c.now d.now }
{
    c.machine == d.machine && c.terms == d.terms && c.cond == d.cond && c.standing == d.standing
}
