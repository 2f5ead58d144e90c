//! A circuit as a list of nodes.

ghost use Rattle.std.specs.Prelude.{◌≡◌, ◌≤◌, ◌<◌, ◌+◌, ◌^◌, ◌&&◌, ◌∷◌, [], ◌++◌, ℕ, Bool, List, IfOk, OnOk, OnErr, Some, true, false, not, length, vec_len, vec_capacity, slice_get, if◌then◌else◌, slice_index_or};
ghost use Rattle.std.specs.HashMap.{get, spare};
ghost use Rattle.kn_aig.specs.Circuits.{differ, value_of, inputs_of, Fits, Extends, Stands, IsAnd, IsKnown, IsCircuit, AllFit, IsIndex, IsWithin, same_pair, edge_of, node_of, values_of};

use crate::gates::{AigNode, Edge, Pair, and_gate};
use std::alloc::{AllocError, Global};
use std::collections::HashMap;
use std::marker::Model;

/// A circuit of and-gates over inputs, children before parents. Contracts see the list of its nodes, of which the
/// first is the constant false, and which takes no memory itself.
#[derive(Drop)]
pub struct Aig {
    /// The nodes behind the constant.
    nodes: Vec<AigNode>,
    /// How many inputs there are.
    inputs: usize,
    /// The places of the gates, by their children.
    gates: HashMap<Pair, usize>,
}

impl Model for Aig {
    ghost use Rattle.std.specs.Prelude.{◌∷◌, List};
    ghost use Rattle.std.specs.HashMap.{get};
    ghost use Rattle.kn_aig.specs.declared.gates.AigNode.{AigNode};
    ghost use Rattle.kn_aig.specs.declared.gates.AigNode.TheVariants.{Constant};
    ghost use Rattle.kn_aig.specs.Circuits.{IsKept, same_pair};

    ghost Value = { List AigNode };

    ghost view = { λ a. Constant ∷ a.nodes.items };

    ghost invariant = { λ a. IsKept (Constant ∷ a.nodes.items) a.inputs (get same_pair a.gates) };
}

impl Aig {
    /// The circuit without inputs and gates. It takes no memory.
    pub fn new(alloc: Global) -> Aig
        ensures { result ≡ AigNode.Constant ∷ [] }
    {
        Aig {
            nodes: Vec::new(alloc),
            inputs: 0,
            gates: HashMap::new(alloc),
        }
    }

    /// The edge whose value is this one, in each circuit.
    pub fn constant(value: bool) -> Edge
        ensures { result ≡ record { node = 0; inverted = value } }
    {
        Edge::constant(value)
    }

    /// How many nodes there are, the constant included. Children stand before their gates, and inputs are numbered in
    /// order.
    pub fn size(&self) -> usize
        ensures count { result ≡ length self.now }
        ensures circuit { IsCircuit self.now }
    {
        self.nodes.len() + 1
    }

    /// How many inputs there are.
    pub fn inputs(&self) -> usize
        ensures { result ≡ inputs_of self.now }
    {
        self.inputs
    }

    /// The node at this place, from 0. Its children stand before it, and inputs are numbered in order.
    pub fn gate(&self, node: usize) -> AigNode
        requires { node < length self.now }
        ensures node { slice_get self.now node ≡ Some result }
        ensures fits { Fits self.now node result }
    {
        if node == 0 {
            AigNode::Constant
        } else {
            self.nodes[node - 1]
        }
    }

    /// A new input, numbered behind the inputs so far. Where memory is wanting, the circuit stays as it was.
    pub fn input(&mut self) -> Result<Edge, AllocError>
        ensures edge { IfOk result (λ e. e ≡ record { node = length self.old; inverted = false }) }
        ensures value { IfOk result (λ e. (bits : List Bool) → value_of bits self.new e ≡ slice_index_or bits (inputs_of self.old) false) }
        ensures nodes { OnOk result (self.new ≡ self.old ++ AigNode.Input (inputs_of self.old) ∷ []) }
        ensures err { OnErr result (self.new ≡ self.old) }
    {
        make_room(&mut self.nodes, &mut self.gates, 1)?;
        let node = self.nodes.len() + 1;
        self.nodes.push_reserved(AigNode::Input(self.inputs));
        self.inputs += 1;
        Ok(Edge {
            node,
            inverted: false,
        })
    }

    /// The edge that is true exactly where both edges are. No node comes where a child is constant, both children are
    /// one node, or the gate stands in the circuit. Where memory is wanting, the circuit stays as it was.
    pub fn and(&mut self, x: Edge, y: Edge) -> Result<Edge, AllocError>
        requires x { Stands self.old x }
        requires y { Stands self.old y }
        ensures value { IfOk result (λ e. (bits : List Bool) → value_of bits self.new e ≡ (value_of bits self.old x && value_of bits self.old y)) }
        ensures stands { IfOk result (Stands self.new) }
        ensures grows { Extends self.old self.new }
        ensures inputs { inputs_of self.new ≡ inputs_of self.old }
        ensures known { IsKnown self.old x y → self.new ≡ self.old }
        ensures err { OnErr result (self.new ≡ self.old) }
    {
        make_room(&mut self.nodes, &mut self.gates, 1)?;
        let edge = and_gate(&mut self.nodes, &mut self.gates, x, y);
        Ok(edge)
    }

    /// The edge that is true exactly where one of the edges is and the other is not. Where memory is wanting, the
    /// circuit stays as it was.
    pub fn xor(&mut self, x: Edge, y: Edge) -> Result<Edge, AllocError>
        requires x { Stands self.old x }
        requires y { Stands self.old y }
        ensures value { IfOk result (λ e. (bits : List Bool) → value_of bits self.new e ≡ differ (value_of bits self.old x) (value_of bits self.old y)) }
        ensures stands { IfOk result (Stands self.new) }
        ensures grows { Extends self.old self.new }
        ensures inputs { inputs_of self.new ≡ inputs_of self.old }
        ensures err { OnErr result (self.new ≡ self.old) }
    {
        make_room(&mut self.nodes, &mut self.gates, 3)?;
        let both = and_gate(&mut self.nodes, &mut self.gates, x, y);
        let neither = and_gate(&mut self.nodes, &mut self.gates, x.negated(), y.negated());
        let edge = and_gate(
            &mut self.nodes,
            &mut self.gates,
            both.negated(),
            neither.negated(),
        );
        Ok(edge)
    }

    /// The edge whose value is that of x where c is true, and that of y where it is not. Where memory is wanting, the
    /// circuit stays as it was.
    pub fn ite(&mut self, c: Edge, x: Edge, y: Edge) -> Result<Edge, AllocError>
        requires c { Stands self.old c }
        requires x { Stands self.old x }
        requires y { Stands self.old y }
        ensures value { IfOk result (λ e. (bits : List Bool) → value_of bits self.new e ≡ (if value_of bits self.old c then value_of bits self.old x else value_of bits self.old y)) }
        ensures stands { IfOk result (Stands self.new) }
        ensures grows { Extends self.old self.new }
        ensures inputs { inputs_of self.new ≡ inputs_of self.old }
        ensures err { OnErr result (self.new ≡ self.old) }
    {
        make_room(&mut self.nodes, &mut self.gates, 3)?;
        let first = and_gate(&mut self.nodes, &mut self.gates, c, x);
        let second = and_gate(&mut self.nodes, &mut self.gates, c.negated(), y);
        let none = and_gate(
            &mut self.nodes,
            &mut self.gates,
            first.negated(),
            second.negated(),
        );
        Ok(none.negated())
    }

    /// The value of an edge where the inputs have these values, in order. Err is want of memory.
    pub fn value(&self, bits: &[bool], e: Edge) -> Result<bool, AllocError>
        requires bits { length bits.now ≡ inputs_of self.now }
        requires e { Stands self.now e }
        ensures { IfOk result (λ b. b ≡ value_of bits.now self.now e) }
    {
        let values = node_values(*self.nodes.allocator(), &self.nodes, bits)?;
        Ok(edge_value(&values, e))
    }
}

/// Makes room for so many nodes, all of them gates perhaps. Nodes and gates stay as they are.
fn make_room(
    nodes: &mut Vec<AigNode>,
    gates: &mut HashMap<Pair, usize>,
    count: usize,
) -> Result<(), AllocError>
    requires { count < 8 }
    ensures nodes { nodes.new.items ≡ nodes.old.items }
    ensures index { (ns : List AigNode) → IsIndex ns (get same_pair gates.old) → IsIndex ns (get same_pair gates.new) }
    ensures room { OnOk result (vec_len nodes.new + count ≤ vec_capacity nodes.new) }
    ensures spare { OnOk result (count ≤ spare gates.new) }
    ensures small { OnOk result (vec_len nodes.new + count + 1 < 2 ^ 64) }
{
    if usize::MAX - nodes.len() <= count + 1 {
        return Err(AllocError);
    }
    nodes.reserve(count)?;
    gates.reserve(count)
}

/// The values of all nodes, the constant first.
fn node_values(alloc: Global, nodes: &[AigNode], bits: &[bool]) -> Result<Vec<bool>, AllocError>
    requires fits { AllFit (AigNode.Constant ∷ nodes.now) }
    requires bits { length bits.now ≡ inputs_of nodes.now }
    ensures values { IfOk result (λ v. v.items ≡ values_of bits.now (AigNode.Constant ∷ nodes.now)) }
    ensures len { IfOk result (λ v. length v.items ≡ 1 + length nodes.now) }
{
    let mut values = Vec::new(alloc);
    values.push(false)?;
    for node in nodes {
        let value = node_value(&values, bits, *node);
        values.push(value)?;
    }
    Ok(values)
}

/// The value of one node, by those of the nodes before it.
fn node_value(values: &[bool], bits: &[bool], node: AigNode) -> bool
    requires { IsWithin (length values.now) (length bits.now) node }
    ensures { result ≡ node_of bits.now values.now node }
{
    match node {
        AigNode::Constant => false,
        AigNode::Input(place) => bits[place],
        AigNode::And(x, y) => edge_value(values, x) && edge_value(values, y),
    }
}

/// The value of an edge, by those of the nodes.
fn edge_value(values: &[bool], e: Edge) -> bool
    requires { e.node < length values.now }
    ensures { result ≡ edge_of values.now e }
{
    if e.inverted {
        !values[e.node]
    } else {
        values[e.node]
    }
}
