//! The order of scenarios: by their names.

ghost use Rattle.std.specs.Prelude.{◌≡◌, ◌<◌, length, take, slice_get, slice_index_or};
ghost use Rattle.std.specs.Option.{option_cmp};
ghost use Rattle.std.specs.List.Sorted.{IsPermutation, IsSortedByKey};
ghost use Rattle.kn_model.specs.Reports.{trace_cmp};
ghost use Rattle.kn_cob.specs.Runs.{name_in};
ghost use Rattle.kn_cob.specs.Copies.{no_node};
ghost use Rattle.kn_cob.specs.Orders.{name_cmp, AreLong};

use crate::run::Scenario;
use kn_trace::Trace;
use std::cmp::Ordering;

/// How many nodes a scenario has.
fn nodes_in(scenario: &Scenario) -> usize
    ensures { result ≡ length scenario.now }
{
    scenario.nodes.len()
}

/// The trace of a node.
fn trace_in(scenario: &Scenario, node: u32) -> &Trace
    requires { node < length scenario.now }
    ensures { result.now ≡ (slice_index_or scenario.now node no_node.config).trace }
{
    &scenario.nodes[node as usize].trace
}

/// Compares the traces of a node. A scenario without that node comes first.
fn cmp_at(node: u32, a: &Scenario, b: &Scenario) -> Ordering
    ensures { result ≡ option_cmp trace_cmp (slice_get (name_in a.now) node) (slice_get (name_in b.now) node) }
{
    let in_a = (node as usize) < nodes_in(a);
    let in_b = (node as usize) < nodes_in(b);
    if in_a && in_b {
        trace_in(a, node).cmp(trace_in(b, node))
    } else {
        in_a.cmp(&in_b)
    }
}

/// Compares the traces of so many nodes, node after node: bit by bit, 0 before 1, and what begins another one first.
fn cmp_names(nodes: u32, a: &Scenario, b: &Scenario) -> Ordering
    ensures { result ≡ name_cmp (take nodes (name_in a.now)) (take nodes (name_in b.now)) }
{
    for node in 0..nodes {
        let order = cmp_at(node, a, b);
        if order.is_ne() {
            return order;
        }
    }
    Ordering::Equal
}

/// Sorts scenarios by their names, where each has so many nodes.
pub fn sort_by_name(nodes: u32, list: &mut Vec<Scenario>)
    ensures same { IsPermutation list.old.items list.new.items }
    ensures sorted { AreLong nodes list.old.items → IsSortedByKey name_in name_cmp list.new.items }
{
    list.sort_unstable_by(|a, b| cmp_names(nodes, a, b));
}
