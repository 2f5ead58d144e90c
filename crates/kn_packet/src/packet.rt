//! Packets and their stamps.

ghost use Rattle.std.specs.Prelude.{◌≡◌, ◌↔◌, true, IfOk, IsTrue};
ghost use Rattle.kn_built.specs.Putting.{below_or};
ghost use Rattle.kn_packet.specs.Equality.{packet_eq, numbers_eq, contents_eq};
ghost use Rattle.kn_packet.specs.Packets.{packet_le, arrives_at};

use kn_term::{Literal, Ref, Terms};
use kn_trace::Trace;
use smallvec::SmallVec;
use std::alloc::AllocError;
use std::marker::Model;

/// What tells a packet from all others: the sender, its history at the start of the event that sent it, that event's
/// bits so far, and the sequence number. `history` is the number of a history in a table.
#[derive(Debug, Drop, PartialEq, Eq)]
pub struct Stamp {
    pub node: u32,
    pub history: usize,
    pub bits: Trace,
    pub seq: u32,
}

impl Stamp {
    /// An equal stamp. Err is want of memory.
    pub fn copy(&self) -> Result<Stamp, AllocError>
        ensures { IfOk result (λ s. s ≡ self.now) }
    {
        Ok(Stamp {
            node: self.node,
            history: self.history,
            bits: self.bits.copy()?,
            seq: self.seq,
        })
    }
}

/// What can happen at a node: its boot, a reboot, a packet by sender, sequence number and copy (0, or 1 for the second
/// of a duplicated one), or a timer by its number, 0 to 7.
#[derive(Clone, Copy, Debug, PartialEq, Eq)]
pub enum Event {
    Boot,
    Reboot,
    Packet { from: u32, seq: u32, copy: u8 },
    Timer { number: u8 },
}

/// A packet: who sent it, the sender's sequence number, which copy it is, for whom, and the tick at which it arrives;
/// its words, at most 8, and the condition under which it was sent, all of which name terms of the packet's own list;
/// and its stamp.
#[derive(Debug, Drop)]
pub struct Packet {
    pub from: u32,
    pub seq: u32,
    pub copy: u8,
    pub to: u32,
    pub arrival: u32,
    pub payload: SmallVec<Ref, 8>,
    pub guard: Vec<Literal>,
    pub terms: Terms,
    pub stamp: Stamp,
}

impl Model for Packet {
    ghost use Rattle.kn_packet.specs.Packets.{PacketView, IsPacket};

    ghost Value = { PacketView };

    ghost view = { λ p. record { from = p.from; seq = p.seq; copy = p.copy; to = p.to; arrival = p.arrival; payload = p.payload.items; guard = p.guard.items; terms = p.terms; stamp = p.stamp } };

    ghost invariant = { λ p. IsPacket p.terms p.payload.items p.guard.items };
}

impl Packet {
    /// An equal packet. Err is want of memory.
    pub fn copy(&self) -> Result<Packet, AllocError>
        ensures { IfOk result (λ p. p ≡ self.now) }
    {
        let alloc = *self.guard.allocator();
        Ok(Packet {
            from: self.from,
            seq: self.seq,
            copy: self.copy,
            to: self.to,
            arrival: self.arrival,
            payload: SmallVec::from_slice(alloc, self.payload.as_slice())?,
            guard: Vec::from_slice(alloc, self.guard.as_slice())?,
            terms: self.terms.copy()?,
            stamp: self.stamp.copy()?,
        })
    }

    /// Whether it arrives at a tick.
    pub(crate) fn arrives_at(&self, tick: u32) -> bool
        ensures { result ≡ arrives_at tick self.now }
    {
        self.arrival == tick
    }

    /// Whether it does not come after another one, by arrival, sender, sequence number and copy.
    pub(crate) fn goes_before(&self, other: &Packet) -> bool
        ensures { result ≡ packet_le self.now other.now }
    {
        self.arrival < other.arrival || self.arrival == other.arrival && self.is_sent_before(other)
    }

    /// The same by sender, sequence number and copy.
    fn is_sent_before(&self, other: &Packet) -> bool
        ensures { result ≡ below_or self.now.from other.now.from (below_or self.now.seq other.now.seq (below_or self.now.copy other.now.copy true)) }
    {
        self.from < other.from
            || self.from == other.from
                && (self.seq < other.seq || self.seq == other.seq && self.copy <= other.copy)
    }
}

impl PartialEq for Packet {
    ghost use Rattle.kn_packet.specs.Equality.{packet_eq};
    ghost use Rattle.kn_packet.specs.Equality.{packet_per};

    ghost eq = { packet_eq };

    ghost laws = { packet_per };

    /// Two packets are equal exactly where all their fields are.
    fn eq(&self, other: &Packet) -> bool
        ensures eq { result ≡ packet_eq self.now other.now }
        ensures same { IsTrue result ↔ (self.now ≡ other.now) }
    {
        has_same_numbers(self, other) && has_same_contents(self, other)
    }
}

/// Whether sender, sequence number, copy, destination and arrival are equal.
fn has_same_numbers(p: &Packet, q: &Packet) -> bool
    ensures { result ≡ numbers_eq p.now q.now }
{
    p.from == q.from && p.seq == q.seq && p.copy == q.copy && p.to == q.to && p.arrival == q.arrival
}

/// Whether payload, guard, terms and stamp are equal.
fn has_same_contents(p: &Packet, q: &Packet) -> bool
    ensures { result ≡ contents_eq p.now q.now }
{
    p.payload.as_slice() == q.payload.as_slice()
        && p.guard == q.guard
        && p.terms == q.terms
        && p.stamp == q.stamp
}
