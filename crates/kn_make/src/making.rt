//! Networks of a number.

ghost use Rattle.std.specs.Prelude.{◌≡◌, ◌+◌, ◌-◌, ◌*◌, ◌≤◌, ◌<◌, map, IfOk};
ghost use Rattle.std.specs.List.{range_with_len, flat_map};
ghost use Rattle.kn_make.specs.Making;

use crate::programs::{RELAY, SINK, SOURCE, names, relay, sink, source};
use kn_plan::{Limits, Link, Net, NodePlan};
use kn_term::Valuation;
use std::alloc::{AllocError, Global};

/// How many packets each node may lose.
const LOSS: u8 = 1;

/// How many ticks a packet takes over each link.
const DELAY: u32 = 1;

/// The limits that a network file has by default.
const FUEL: u32 = 512;

const CONFLICTS: u64 = 65_536;

const STATES: usize = 4_096;

const DSTATES: usize = 4_096;

/// The program of the node at a place of a chain.
fn program_at(length: u32, place: u32) -> usize
    requires { place < length }
    ensures { result ≡ Making.program_at length place }
{
    if place == 0 {
        SINK
    } else if place + 1 == length {
        SOURCE
    } else {
        RELAY
    }
}

/// A node by its number, in chains of a length.
fn plan_of(alloc: Global, length: u32, node: u32) -> NodePlan
    requires { 1 ≤ length }
    ensures { result ≡ Making.plan_of length node }
{
    NodePlan {
        program: program_at(length, node % length),
        loss: LOSS,
        duplicate: 0,
        reboot: Vec::new(alloc),
    }
}

/// So many nodes, in chains of a length. Only want of memory is an error.
fn nodes_of(alloc: Global, length: u32, count: u32) -> Result<Vec<NodePlan>, AllocError>
    requires { 1 ≤ length }
    ensures { IfOk result (λ v. v.items ≡ map (Making.plan_of length) (range_with_len 0 count)) }
{
    let mut nodes = Vec::new(alloc);
    for node in 0..count {
        nodes.push(plan_of(alloc, length, node))?;
    }
    Ok(nodes)
}

/// The links of so many nodes, in chains of a length: from each node but a chain's first to the one before it. Only want of
/// memory is an error.
fn links_of(alloc: Global, length: u32, count: u32) -> Result<Vec<Link>, AllocError>
    requires { 1 ≤ length }
    ensures { IfOk result (λ v. v.items ≡ flat_map (Making.links_from length) (range_with_len 0 count)) }
{
    let mut links = Vec::new(alloc);
    for node in 0..count {
        if node % length != 0 {
            links.push(Link {
                from: node,
                to: node - 1,
                delay: DELAY,
            })?;
        }
    }
    Ok(links)
}

/// So many chains of a length, whose sources send so many readings. Only want of memory is an error.
fn net_of(alloc: Global, length: u32, readings: u32, chains: u32) -> Result<Net, AllocError>
    requires two { 2 ≤ length }
    requires length { length ≤ 4 }
    requires readings { readings ≤ 6 }
    requires one { 1 ≤ chains }
    requires chains { chains ≤ 2 }
    ensures { IfOk result (λ net. net ≡ Making.made_of length readings chains) }
{
    let count = chains * length;
    let tick = readings + length + 1;
    Ok(Net {
        programs: Vec::from_array(
            alloc,
            [
                sink(alloc, tick as u16)?,
                relay(alloc)?,
                source(alloc, readings as u16)?,
            ],
        )?,
        nodes: nodes_of(alloc, length, count)?,
        links: links_of(alloc, length, count)?,
        limits: Limits {
            ticks: tick + 1,
            fuel: FUEL,
            conflicts: CONFLICTS,
            states: STATES,
            dstates: DSTATES,
        },
        names: names(alloc)?,
        inputs: Valuation::new(alloc),
    })
}

/// The network that the generator makes of a number, 0 to 35: 1 or 2 chains of 2 to 4 nodes. The last node of each chain, the
/// source, sends 1 to 6 readings of four bits to the node before it; the relays between send on what they get; the first node,
/// the sink, asserts at the end that something came, and branches on the last reading. Each node may lose one packet. There are
/// no inputs for a replay. Only want of memory is an error.
#[tactic(auto, unfolding(crate::specs::Making::made))]
pub fn make(alloc: Global, number: u8) -> Result<Net, AllocError>
    requires { number < 36 }
    ensures { IfOk result (λ net. net ≡ Making.made number) }
{
    let number = u32::from(number);
    net_of(
        alloc,
        2 + number % 3,
        1 + number / 3 % 6,
        1 + number / 18 % 2,
    )
}
