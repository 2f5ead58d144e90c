//! Packets that wait, in order.

ghost use Rattle.std.specs.Prelude.{◌≡◌, ◌<◌, ◌≤◌, insert, remove, length, IfOk, OnOk, OnErr, MatchOption, None, Some, slice_get};
ghost use Rattle.kn_model.specs.Packets.{packet_le, put_in, put_all, first_at, without_first};
ghost use Rattle.kn_model.specs.Laws.{queued_all};
ghost use Rattle.kn_conc.specs.Views.{NodeView};

use crate::node::ConcNode;
use crate::packet::ConcPacket;
use std::alloc::{AllocError, Global};

/// Puts packets into a node's queue, each at its place by arrival, sender, sequence number and copy. Err is want of
/// memory, and leaves the node as it was.
pub fn queue_at(node: &mut ConcNode, packets: &[ConcPacket]) -> Result<(), AllocError>
    ensures state { OnOk result (node.new.state ≡ queued_all packets.now node.old.state) }
    ensures node { node.new.node ≡ node.old.node }
    ensures err { OnErr result (node.new ≡ node.old) }
{
    let alloc = *node.registers.allocator();
    let mut queue = copy_packets(alloc, &node.queue)?;
    put_copies(alloc, &mut queue, packets)?;
    node.queue = queue;
    Ok(())
}

/// Puts copies of packets into a queue, one after another.
fn put_copies(
    alloc: Global,
    queue: &mut Vec<ConcPacket>,
    packets: &[ConcPacket],
) -> Result<(), AllocError>
    ensures { OnOk result (queue.new.items ≡ put_all packet_le packets.now queue.old.items) }
{
    for packet in packets {
        put(queue, packet.copy(alloc)?)?;
    }
    Ok(())
}

/// Puts a packet before the first that it does not come after. Err is want of memory, and leaves the queue as it was.
pub fn put(queue: &mut Vec<ConcPacket>, p: ConcPacket) -> Result<(), AllocError>
    ensures ok { OnOk result (queue.new.items ≡ put_in packet_le p queue.old.items) }
    ensures err { OnErr result (queue.new.items ≡ queue.old.items) }
{
    let place = place_for(queue, &p);
    match queue.insert(place, p) {
        Ok(()) => Ok(()),
        Err(_) => Err(AllocError),
    }
}

/// The place of the first packet that another one does not come after.
fn place_for(queue: &[ConcPacket], p: &ConcPacket) -> usize
    ensures within { result ≤ length queue.now }
    ensures place { insert queue.now result p.now ≡ put_in packet_le p.now queue.now }
{
    for (place, packet) in queue.iter().enumerate() {
        if p.goes_before(packet) {
            return place;
        }
    }
    queue.len()
}

/// The place of the first packet that arrives at a tick.
pub fn place_at(queue: &[ConcPacket], tick: u32) -> Option<usize>
    ensures { MatchOption result
        ((first_at tick queue.now ≡ None) × (without_first tick queue.now ≡ queue.now))
        (λ i. (i < length queue.now) × ((slice_get queue.now i ≡ first_at tick queue.now) × (remove queue.now i ≡ without_first tick queue.now))) }
{
    for (place, packet) in queue.iter().enumerate() {
        if packet.arrives_at(tick) {
            return Some(place);
        }
    }
    None
}

/// The first packet that arrives at a tick, taken out.
pub fn take(queue: &mut Vec<ConcPacket>, tick: u32) -> Option<ConcPacket>
    ensures packet { result ≡ first_at tick queue.old.items }
    ensures others { queue.new.items ≡ without_first tick queue.old.items }
{
    let place = place_at(queue, tick)?;
    Some(queue.remove(place))
}

/// Equal packets, in the same order. Err is want of memory.
pub fn copy_packets(alloc: Global, packets: &[ConcPacket]) -> Result<Vec<ConcPacket>, AllocError>
    ensures { IfOk result (λ v. v.items ≡ packets.now) }
{
    let mut copies = Vec::with_capacity(alloc, packets.len())?;
    for packet in packets {
        copies.push(packet.copy(alloc)?)?;
    }
    Ok(copies)
}
