//! Runs of whole networks.

ghost use Rattle.std.specs.Prelude.{◌≡◌, ◌≤◌, length};
ghost use Rattle.kn_replay.specs.Views.{states_in};
ghost use Rattle.kn_replay.specs.Texts.{failed_in, is_failed};

use crate::line::RunLine;
use kn_conc::ConcNode;
use kn_node::Outcome;
use std::marker::Model;

/// A run of a network over all its ticks: the nodes after the last tick, in the order of their numbers, and the events that
/// they ran, by tick, node and the order in which they were due.
#[derive(Debug, Drop)]
pub struct Run {
    pub nodes: Vec<ConcNode>,
    pub events: Vec<RunLine>,
}

impl Model for Run {
    ghost use Rattle.kn_replay.specs.Views.{RunView};

    ghost Value = { RunView };

    ghost view = { λ r. record { nodes = r.nodes.items; events = r.events.items } };
}

/// How many nodes of a run failed.
pub fn failed_count(run: &Run) -> usize
    ensures { result ≡ failed_in (states_in run.now.nodes) }
{
    count_failed(&run.nodes)
}

/// How many of these nodes failed.
fn count_failed(nodes: &[ConcNode]) -> usize
    ensures count { result ≡ failed_in (states_in nodes.now) }
    ensures most { result ≤ length nodes.now }
{
    let mut count = 0;
    for node in nodes {
        if is_failed(node) {
            count += 1;
        }
    }
    count
}

/// Whether a node failed.
fn is_failed(node: &ConcNode) -> bool
    ensures { result ≡ is_failed node.now.state }
{
    matches!(node.outcome, Outcome::Failed { .. })
}
