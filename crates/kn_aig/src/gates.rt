//! Nodes and edges, and how a gate comes into a list of nodes.

ghost use Rattle.std.specs.Prelude.{◌≡◌, ◌≢◌, ◌≤◌, ◌<◌, ◌+◌, ◌&&◌, ◌∷◌, ◌↔◌, ℕ, Bool, List, IfSome, MatchOption, OnSome, length, vec_len, vec_capacity, false, true, not, slice_index_or};
ghost use Rattle.std.specs.Prelude.{[], ◌++◌, ◌^◌, None};
ghost use Rattle.std.specs.HashMap.{get, spare};
ghost use Rattle.kn_aig.specs.Circuits.{edge_of, pair_of, AllFit, Stands, IsIndex, IsAnd, same_pair};

use std::collections::HashMap;

/// One end of a wire: the value of a node, or its negation.
#[derive(Clone, Copy, Debug, Default, PartialEq, Eq, Hash)]
pub struct Edge {
    /// The node's place in the circuit.
    pub node: usize,
    /// Whether the value is negated.
    pub inverted: bool,
}

/// A node of a circuit.
#[derive(Clone, Copy, Debug, PartialEq, Eq)]
pub enum AigNode {
    /// The constant false.
    Constant,
    /// The input at this place, from 0.
    Input(usize),
    /// Whether both edges are true.
    And(Edge, Edge),
}

/// The children of a gate, the lower node first.
#[derive(Clone, Copy, Debug, PartialEq, Eq, Hash)]
pub(crate) struct Pair {
    pub(crate) first: Edge,
    pub(crate) second: Edge,
}

impl Edge {
    /// The same wire with the negated value.
    pub fn negated(self) -> Edge
        ensures { result ≡ record self { inverted = not self.inverted } }
    {
        Edge {
            node: self.node,
            inverted: !self.inverted,
        }
    }

    /// The edge whose value is this one.
    pub(crate) fn constant(value: bool) -> Edge
        ensures { result ≡ record { node = 0; inverted = value } }
    {
        Edge {
            node: 0,
            inverted: value,
        }
    }
}

/// The edge of a gate that needs no node, since a child is constant or both children are one node.
pub(crate) fn simplified(x: Edge, y: Edge) -> Option<Edge>
    ensures value { IfSome result (λ e. (vs : List Bool) → slice_index_or vs 0 false ≡ false → edge_of vs e ≡ (edge_of vs x && edge_of vs y)) }
    ensures stands { IfSome result (λ e. (n : ℕ) → x.node < n → y.node < n → e.node < n) }
    ensures none { MatchOption result ((0 < x.node) × (0 < y.node) × (x.node ≢ y.node)) (λ _. (0 < x.node) → (0 < y.node) → x.node ≡ y.node) }
{
    if x.node == 0 {
        return Some(if x.inverted { y } else { Edge::constant(false) });
    }
    if y.node == 0 {
        return Some(if y.inverted { x } else { Edge::constant(false) });
    }
    if x.node == y.node {
        return Some(if x.inverted == y.inverted {
            x
        } else {
            Edge::constant(false)
        });
    }
    None
}

impl Pair {
    /// The children in order.
    pub(crate) fn of(x: Edge, y: Edge) -> Pair
        ensures { result ≡ pair_of x y }
    {
        if x.node < y.node {
            Pair {
                first: x,
                second: y,
            }
        } else {
            Pair {
                first: y,
                second: x,
            }
        }
    }
}

/// The place of the gate with these children, where there is one.
pub(crate) fn place_of(gates: &HashMap<Pair, usize>, pair: &Pair) -> Option<usize>
    ensures { result ≡ get same_pair gates.now pair.now }
{
    gates.get(pair).copied()
}

/// Puts a new gate behind the nodes.
pub(crate) fn new_gate(
    nodes: &mut Vec<AigNode>,
    gates: &mut HashMap<Pair, usize>,
    pair: Pair,
) -> Edge
    requires index { IsIndex (AigNode.Constant ∷ nodes.old.items) (get same_pair gates.old) }
    requires absent { get same_pair gates.old pair ≡ None }
    requires room { vec_len nodes.old < vec_capacity nodes.old }
    requires spare { 0 < spare gates.old }
    requires small { vec_len nodes.old + 2 < 2 ^ 64 }
    ensures nodes { nodes.new.items ≡ nodes.old.items ++ AigNode.And pair.first pair.second ∷ [] }
    ensures edge { result ≡ record { node = 1 + length nodes.old.items; inverted = false } }
    ensures index { IsIndex (AigNode.Constant ∷ nodes.new.items) (get same_pair gates.new) }
    ensures capacity { vec_capacity nodes.new ≡ vec_capacity nodes.old }
    ensures spare { spare gates.old ≤ spare gates.new + 1 }
{
    let node = nodes.len() + 1;
    nodes.push_reserved(AigNode::And(pair.first, pair.second));
    let _ = gates.insert(pair, node);
    Edge {
        node,
        inverted: false,
    }
}

/// The edge that is true where both edges are: simplified, found among the gates, or the edge of a new gate.
pub(crate) fn and_gate(
    nodes: &mut Vec<AigNode>,
    gates: &mut HashMap<Pair, usize>,
    x: Edge,
    y: Edge,
) -> Edge
    requires fits { AllFit (AigNode.Constant ∷ nodes.old.items) }
    requires index { IsIndex (AigNode.Constant ∷ nodes.old.items) (get same_pair gates.old) }
    requires x { Stands (AigNode.Constant ∷ nodes.old.items) x }
    requires y { Stands (AigNode.Constant ∷ nodes.old.items) y }
    requires room { vec_len nodes.old < vec_capacity nodes.old }
    requires spare { 0 < spare gates.old }
    requires small { vec_len nodes.old + 2 < 2 ^ 64 }
    ensures gate { IsAnd (AigNode.Constant ∷ nodes.old.items) (AigNode.Constant ∷ nodes.new.items) x y result }
    ensures fits { AllFit (AigNode.Constant ∷ nodes.new.items) }
    ensures index { IsIndex (AigNode.Constant ∷ nodes.new.items) (get same_pair gates.new) }
    ensures len { vec_len nodes.new ≤ vec_len nodes.old + 1 }
    ensures capacity { vec_capacity nodes.new ≡ vec_capacity nodes.old }
    ensures spare { spare gates.old ≤ spare gates.new + 1 }
{
    if let Some(edge) = simplified(x, y) {
        return edge;
    }
    let pair = Pair::of(x, y);
    if let Some(node) = place_of(gates, &pair) {
        return Edge {
            node,
            inverted: false,
        };
    }
    new_gate(nodes, gates, pair)
}
