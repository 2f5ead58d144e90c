//! Queues of packets.

ghost use Rattle.std.specs.Prelude.{◌≡◌, ◌↔◌, ℕ, ◌<◌, ◌≤◌, [], insert, remove, length, IfOk, IsTrue, OnOk, IfErr, OnErr, MatchOption, None, Some, slice_get};
ghost use Rattle.std.specs.Cmp.Lexicographic.{pointwise};
ghost use Rattle.kn_packet.specs.Equality.{packet_eq};
ghost use Rattle.kn_packet.specs.Packets.{PacketView, posted, first_at, without_first_at};

use crate::packet::Packet;
use std::alloc::{AllocError, Global};
use std::marker::Model;

/// Packets in order of arrival, sender, sequence number and copy. Contracts see the list of packets, and it is kept in
/// the allocator that `new` was given.
#[derive(Debug, Drop)]
pub struct Queue {
    packets: Vec<Packet>,
}

impl Model for Queue {
    ghost use Rattle.std.specs.Prelude.{List};
    ghost use Rattle.kn_packet.specs.Packets.{PacketView, IsQueue};

    ghost Value = { List PacketView };

    ghost view = { λ q. q.packets.items };

    ghost invariant = { λ q. IsQueue q.packets.items };
}

impl Queue {
    /// The queue without packets. It takes no memory.
    pub fn new(alloc: Global) -> Queue
        ensures { result ≡ [] }
    {
        Queue {
            packets: Vec::new(alloc),
        }
    }

    /// Puts one packet in, before the first that it does not come after. Err hands it back for want of memory, and
    /// leaves the queue as it was.
    pub fn post(&mut self, p: Packet) -> Result<(), Packet>
        ensures ok { OnOk result (self.new ≡ posted p self.old) }
        ensures back { IfErr result (λ q. q ≡ p) }
        ensures err { OnErr result (self.new ≡ self.old) }
    {
        put(&mut self.packets, p)
    }

    /// The first packet that arrives at a tick. None exactly where no packet arrives at that tick.
    pub fn due(&self, tick: u32) -> Option<&Packet>
        ensures { MatchOption result (first_at tick self.now ≡ None) (λ p. first_at tick self.now ≡ Some p.now) }
    {
        let place = place_at(&self.packets, tick)?;
        Some(&self.packets[place])
    }
    /// A tick before which no packet arrives: that of the first packet that arrives, or the greatest number where there is
    /// no packet.
    pub fn quiet_until(&self) -> u32
        ensures { (tick : ℕ) → tick < result → first_at tick self.now ≡ None }
    {
        first_arrival(&self.packets)
    }

    /// The same packet, removed from the queue. It takes no memory.
    pub fn take(&mut self, tick: u32) -> Option<Packet>
        ensures packet { result ≡ first_at tick self.old }
        ensures others { self.new ≡ without_first_at tick self.old }
    {
        let place = place_at(&self.packets, tick)?;
        Some(self.packets.remove(place))
    }

    /// An equal queue. Err is want of memory.
    pub fn copy(&self) -> Result<Queue, AllocError>
        ensures { IfOk result (λ q. q ≡ self.now) }
    {
        Ok(Queue {
            packets: copy_all(*self.packets.allocator(), &self.packets)?,
        })
    }
}

impl PartialEq for Queue {
    ghost use Rattle.std.specs.Cmp.Lexicographic.{pointwise, lists_per};
    ghost use Rattle.kn_packet.specs.Equality.{packet_eq};
    ghost use Rattle.kn_packet.specs.Equality.{packet_per};

    ghost eq = { pointwise packet_eq };

    ghost laws = { lists_per packet_per };

    /// Two queues are equal exactly where their packets are, one by one.
    fn eq(&self, other: &Queue) -> bool
        ensures eq { result ≡ pointwise packet_eq self.now other.now }
        ensures same { IsTrue result ↔ (self.now ≡ other.now) }
    {
        self.packets == other.packets
    }
}

/// Puts a packet before the first that it does not come after.
fn put(packets: &mut Vec<Packet>, p: Packet) -> Result<(), Packet>
    ensures ok { OnOk result (packets.new.items ≡ posted p packets.old.items) }
    ensures back { IfErr result (λ q. q ≡ p) }
    ensures err { OnErr result (packets.new.items ≡ packets.old.items) }
{
    let place = place_for(packets, &p);
    match packets.insert(place, p) {
        Ok(()) => Ok(()),
        Err(failed) => Err(failed.value),
    }
}

/// The place of the first packet that another one does not come after.
fn place_for(packets: &[Packet], p: &Packet) -> usize
    ensures within { result ≤ length packets.now }
    ensures place { insert packets.now result p.now ≡ posted p.now packets.now }
{
    for (place, packet) in packets.iter().enumerate() {
        if p.goes_before(packet) {
            return place;
        }
    }
    packets.len()
}

/// The place of the first packet that arrives at a tick.
fn place_at(packets: &[Packet], tick: u32) -> Option<usize>
    ensures { MatchOption result
        ((first_at tick packets.now ≡ None) × (without_first_at tick packets.now ≡ packets.now))
        (λ i. (i < length packets.now) × ((slice_get packets.now i ≡ first_at tick packets.now) × (remove packets.now i ≡ without_first_at tick packets.now))) }
{
    for (place, packet) in packets.iter().enumerate() {
        if packet.arrives_at(tick) {
            return Some(place);
        }
    }
    None
}

/// The first tick in which a packet arrives, or the greatest number where there is none.
fn first_arrival(packets: &[Packet]) -> u32
    ensures { (tick : ℕ) → tick < result → first_at tick packets.now ≡ None }
{
    let mut first = u32::MAX;
    for packet in packets {
        first = first.min(packet.arrival);
    }
    first
}

/// Equal packets, in the same order.
fn copy_all(alloc: Global, packets: &[Packet]) -> Result<Vec<Packet>, AllocError>
    ensures { IfOk result (λ v. v.items ≡ packets.now) }
{
    let mut copies = Vec::with_capacity(alloc, packets.len())?;
    for packet in packets {
        copies.push(packet.copy()?)?;
    }
    Ok(copies)
}
