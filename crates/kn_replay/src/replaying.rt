//! The run of a whole network.

ghost use Rattle.std.specs.Prelude.{◌≡◌, ◌<◌, ◌≤◌, [], ℕ, length, IfOk, OnOk};
ghost use Rattle.kn_model.specs.Due.{due};
ghost use Rattle.kn_model.specs.Laws.{IsNet};
ghost use Rattle.kn_model.specs.Scenarios.{Scenario as Scenarios};
ghost use Rattle.kn_replay.specs.Nodes.{AreStarts, IsNetwork, HasNetwork, node_in};
ghost use Rattle.kn_replay.specs.Turns.{IsSettled, IsTicked, IsDone};
ghost use Rattle.kn_replay.specs.Runs.{IsReplay};

use crate::line::RunLine;
use crate::run::Run;
use crate::sound::comes_later;
use crate::turn::{Place, turn};
use kn_conc::{ConcNode, due_at, open_at};
use kn_packet::Event;
use kn_plan::Net;
use kn_term::Valuation;
use std::alloc::{AllocError, Global};

/// How many nodes a network has, 1 to 64.
fn node_count(net: &Net) -> u32
    ensures count { result ≡ length net.now.network.nodes }
    ensures most { result ≤ 64 }
{
    net.bounds();
    net.nodes.len() as u32
}

/// The first event that is due for a node in a tick, if there is one.
fn next_event(net: &Net, place: Place, nodes: &[ConcNode]) -> Option<Event>
    requires { place.node < length nodes.now }
    ensures { result ≡ due net.now.network.limits.ticks place.tick (node_in nodes.now place.node).state }
{
    due_at(net, &nodes[place.node as usize], place.tick)
}

/// All events of a node in a tick, one after another, until none is due. Err is want of memory.
fn settle(
    net: &Net,
    place: Place,
    inputs: &Valuation,
    nodes: &mut [ConcNode],
    events: &mut Vec<RunLine>,
) -> Result<(), AllocError>
    requires sound { IsNet net.now.network }
    requires node { place.node < length net.now.network.nodes }
    requires few { length net.now.network.nodes ≤ 64 }
    requires nodes { HasNetwork net.now.network nodes.old }
    ensures { (s : Scenarios ℕ) → IsNetwork net.now.network nodes.old s → OnOk result (IsSettled net.now.network inputs.now place.tick place.node s nodes.new events.old.items events.new.items) }
{
    while let Some(event) = next_event(net, place, nodes) {
        let bits = turn(net, place, inputs, nodes)?;
        events.push(RunLine {
            tick: place.tick,
            node: place.node,
            event,
            bits,
        })?;
    }
    Ok(())
}

/// The events of a tick, node after node. Err is want of memory.
fn run_tick(
    net: &Net,
    tick: u32,
    inputs: &Valuation,
    nodes: &mut [ConcNode],
    events: &mut Vec<RunLine>,
) -> Result<(), AllocError>
    requires sound { IsNet net.now.network }
    requires nodes { HasNetwork net.now.network nodes.old }
    ensures { (s : Scenarios ℕ) → IsNetwork net.now.network nodes.old s → OnOk result (IsTicked net.now.network inputs.now tick s nodes.new events.old.items events.new.items) }
{
    for node in 0..node_count(net) {
        settle(net, Place { node, tick }, inputs, nodes, events)?;
    }
    Ok(())
}

/// The events of all ticks. Err is want of memory.
fn run_all(
    net: &Net,
    inputs: &Valuation,
    nodes: &mut [ConcNode],
    events: &mut Vec<RunLine>,
) -> Result<(), AllocError>
    requires sound { IsNet net.now.network }
    requires nodes { AreStarts net.now.network 0 nodes.old }
    requires whole { length nodes.old ≡ length net.now.network.nodes }
    requires none { events.old.items ≡ [] }
    ensures { OnOk result (IsDone net.now.network inputs.now net.now.network.limits.ticks nodes.new events.new.items) }
{
    for tick in 0..net.limits.ticks {
        run_tick(net, tick, inputs, nodes, events)?;
    }
    Ok(())
}

/// All nodes at their start. Err is want of memory.
fn open_all(alloc: Global, net: &Net) -> Result<Vec<ConcNode>, AllocError>
    ensures starts { IfOk result (λ v. AreStarts net.now.network 0 v.items) }
    ensures whole { IfOk result (λ v. length v.items ≡ length net.now.network.nodes) }
{
    let mut nodes = Vec::with_capacity(alloc, net.nodes.len())?;
    for node in 0..node_count(net) {
        nodes.push(open_at(net, node)?)?;
    }
    Ok(nodes)
}

/// The run of a network on these inputs over all its ticks: each input has the word that they list for it, or 0, and each
/// decision goes by its value. Err is want of memory.
pub fn replay(net: &Net, inputs: &Valuation) -> Result<Run, AllocError>
    ensures { IfOk result (IsReplay net.now.network inputs.now) }
{
    comes_later(net);
    let alloc = *net.links.allocator();
    let mut nodes = open_all(alloc, net)?;
    let mut events = Vec::new(alloc);
    run_all(net, inputs, &mut nodes, &mut events)?;
    Ok(Run { nodes, events })
}
