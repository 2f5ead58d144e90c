//! One event of a network.

ghost use Rattle.std.specs.Prelude.{◌≡◌, ◌<◌, ◌≤◌, None, IfOk, OnOk, drop, filter, length, nat_eq};
ghost use Rattle.kn_model.specs.Due.{due};
ghost use Rattle.kn_replay.specs.Nodes.{given_to, mailed, node_in};
ghost use Rattle.kn_replay.specs.Turns.{IsEvent, IsTurn};

use kn_conc::{ConcNode, ConcPacket, queue_at, run_event_at};
use kn_plan::Net;
use kn_term::Valuation;
use kn_trace::Trace;
use std::alloc::{AllocError, Global};

/// Where a run stands: the node whose events run, and the tick.
#[derive(Clone, Copy)]
pub struct Place {
    pub node: u32,
    pub tick: u32,
}

/// Copies of those packets that are for a node. Err is want of memory.
fn mail_for(alloc: Global, node: u32, sends: &[ConcPacket]) -> Result<Vec<ConcPacket>, AllocError>
    ensures { IfOk result (λ v. v.items ≡ filter (λ p. nat_eq p.to node) sends.now) }
{
    let mut mail = Vec::new(alloc);
    for packet in sends {
        if packet.to == node {
            mail.push(packet.copy(alloc)?)?;
        }
    }
    Ok(mail)
}

/// A node is given those packets that are for it, by its number. Err is want of memory.
fn give(node: &mut ConcNode, number: u32, sends: &[ConcPacket]) -> Result<(), AllocError>
    ensures { OnOk result (node.new ≡ given_to number sends.now node.old) }
{
    let alloc = *node.registers.allocator();
    let mail = mail_for(alloc, number, sends)?;
    if mail.is_empty() {
        return Ok(());
    }
    queue_at(node, &mail)
}

/// Each node is given the packets that are for it. Err is want of memory.
fn post(nodes: &mut [ConcNode], sends: &[ConcPacket]) -> Result<(), AllocError>
    requires { length nodes.old ≤ 64 }
    ensures { OnOk result (nodes.new ≡ mailed 0 sends.now nodes.old) }
{
    if sends.is_empty() {
        return Ok(());
    }
    for (number, node) in nodes.iter_mut().enumerate() {
        give(node, number as u32, sends)?;
    }
    Ok(())
}

/// The bits of a trace from a place on. Err is want of memory.
fn bits_from(alloc: Global, bits: &[bool], place: usize) -> Result<Trace, AllocError>
    requires { place ≤ length bits.now }
    ensures { IfOk result (λ t. t ≡ drop place bits.now) }
{
    let mut trace = Trace::new(alloc);
    for bit in &bits[place..] {
        trace.push(*bit)?;
    }
    Ok(trace)
}

/// A node runs its first due event of a tick, on these inputs. The answer is the event's bits, and what it sent. Err is want
/// of memory.
fn run_one(
    net: &Net,
    tick: u32,
    inputs: &Valuation,
    node: &mut ConcNode,
) -> Result<(Trace, Vec<ConcPacket>), AllocError>
    requires node { node.old.node < length net.now.network.nodes }
    requires due { due net.now.network.limits.ticks tick node.old.state ≡ None → ⊥ }
    ensures { IfOk result (λ r. IsEvent net.now.network inputs.now tick node.old node.new r.0 r.1.items) }
{
    let before = node.trace.bits().len();
    let sends = run_event_at(net, node, tick, inputs)?;
    let bits = bits_from(*node.registers.allocator(), node.trace.bits(), before)?;
    Ok((bits, sends))
}

/// A node of a network runs its first due event of a tick, on these inputs, and what it sends is posted at once. The answer
/// is the event's bits. Err is want of memory.
pub fn turn(
    net: &Net,
    place: Place,
    inputs: &Valuation,
    nodes: &mut [ConcNode],
) -> Result<Trace, AllocError>
    requires inside { place.node < length nodes.old }
    requires few { length nodes.old ≤ 64 }
    requires node { (node_in nodes.old place.node).node < length net.now.network.nodes }
    requires due { due net.now.network.limits.ticks place.tick (node_in nodes.old place.node).state ≡ None → ⊥ }
    ensures { IfOk result (λ bits. IsTurn net.now.network inputs.now place.tick place.node nodes.old nodes.new bits) }
{
    let (bits, sends) = run_one(net, place.tick, inputs, &mut nodes[place.node as usize])?;
    post(nodes, &sends)?;
    Ok(bits)
}
