//! Reports: what an exploration found.

ghost use Rattle.std.specs.Prelude.{◌≡◌};
ghost use Rattle.kn_report.specs.Forms.{IsReport};

use kn_cond::Standing;
use kn_node::Outcome;
use kn_term::Valuation;
use kn_trace::Trace;
use std::marker::Model;

/// How scenarios are grouped into dstates.
#[derive(Clone, Copy, Debug, PartialEq, Eq)]
pub enum Mapping {
    /// States are shared by scenarios, and a dstate has a column of states for each node.
    Sds,
    /// Copy on branch: each dstate is one scenario, whose columns hold one state each.
    Cob,
}

/// A node's state at the last tick: its trace, how it ended, and what is known of its own condition.
#[derive(Debug, Drop)]
pub struct StateLine {
    pub node: u32,
    pub trace: Trace,
    pub outcome: Outcome,
    pub standing: Standing,
}

impl Model for StateLine {
    ghost use Rattle.kn_model.specs.Reports.{StateLine as Line};
    ghost use Rattle.kn_report.specs.Views.{outcome_of};

    ghost Value = { Line };

    ghost view = { λ l. record { node = l.node; trace = l.trace; outcome = outcome_of l.outcome; standing = l.standing } };
}

/// The columns of a dstate: for each node the numbers of its states, rising. Contracts see the list of lists.
#[derive(Debug, Drop)]
pub struct Columns {
    pub lists: Vec<Vec<usize>>,
}

impl Model for Columns {
    ghost use Rattle.std.specs.Prelude.{ℕ, List};
    ghost use Rattle.kn_report.specs.Views.{lists_of};

    ghost Value = { List (List ℕ) };

    ghost view = { λ c. lists_of c.lists.items };
}

/// Whether a failed state is in a scenario that some inputs meet.
#[derive(Debug, Drop)]
pub enum Reached {
    /// This pick of this dstate, one state for each node, on these inputs: the least that meet it, where a caller says
    /// so.
    At {
        dstate: usize,
        pick: Vec<usize>,
        inputs: Valuation,
    },
    /// It was not decided.
    Open,
    /// No inputs meet any scenario that has it.
    Nowhere,
}

/// A failed state, by its number.
#[derive(Debug, Drop)]
pub struct FailureLine {
    pub state: usize,
    pub reach: Reached,
}

impl Model for FailureLine {
    ghost use Rattle.kn_model.specs.Reports.{FailureLine as Line};
    ghost use Rattle.kn_report.specs.Views.{reach_of};

    ghost Value = { Line };

    ghost view = { λ f. record { state = f.state; reach = reach_of f.reach } };
}

/// The states, dstates and failures of an exploration, numbered by their places. Each dstate has as many columns as
/// there are nodes, each of numbers of states, rising and not none; the failure lines are those of the failed states,
/// in order; and a pick takes one state of each column of its dstate.
#[derive(Debug, Drop)]
pub struct Report {
    pub mapping: Mapping,
    pub ticks: u32,
    pub nodes: u32,
    pub states: Vec<StateLine>,
    pub dstates: Vec<Columns>,
    pub failures: Vec<FailureLine>,
}

impl Model for Report {
    ghost use Rattle.kn_model.specs.Reports.{Report as Parts};
    ghost use Rattle.kn_report.specs.Views.{mapping_of};
    ghost use Rattle.kn_report.specs.Forms.{IsReport};

    ghost Value = { Parts };

    ghost view = { λ r. record { mapping = mapping_of r.mapping; ticks = r.ticks; nodes = r.nodes; states = r.states.items; dstates = r.dstates.items; failures = r.failures.items } };

    ghost invariant = { λ r. IsReport (record { mapping = mapping_of r.mapping; ticks = r.ticks; nodes = r.nodes; states = r.states.items; dstates = r.dstates.items; failures = r.failures.items }) };
}

impl Report {
    /// That all is as a report demands, for a caller that needs it in a proof.
    pub fn form(&self)
        ensures { IsReport self.now }
    {
        let _ = &self.states;
    }
}

/// What the first line says.
#[derive(Drop)]
pub(crate) struct Head {
    pub(crate) mapping: Mapping,
    pub(crate) ticks: u32,
    pub(crate) nodes: u32,
}

impl Model for Head {
    ghost use Rattle.kn_report.specs.Heads.{HeadView};
    ghost use Rattle.kn_report.specs.Views.{mapping_of};

    ghost Value = { HeadView };

    ghost view = { λ h. record { mapping = mapping_of h.mapping; ticks = h.ticks; nodes = h.nodes } };
}

impl Head {
    /// How many nodes there are.
    pub(crate) fn nodes(&self) -> u32
        ensures { result ≡ self.now.nodes }
    {
        self.nodes
    }
}
