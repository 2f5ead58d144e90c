//! Packets over words.

ghost use Rattle.std.specs.Prelude.{◌≡◌, true, IfOk};
ghost use Rattle.kn_built.specs.Putting.{below_or};
ghost use Rattle.kn_model.specs.Packets.{packet_le};
ghost use Rattle.kn_model.specs.Due.{comes_at};

use smallvec::SmallVec;
use std::alloc::{AllocError, Global};
use std::marker::Model;

/// A packet: who sent it, the sender's sequence number, which copy it is, for whom, and the tick at which it arrives; and
/// its words, at most 8. The sender's number is a word.
#[derive(Debug, Drop)]
pub struct ConcPacket {
    pub from: u32,
    pub seq: u32,
    pub copy: u8,
    pub to: u32,
    pub arrival: u32,
    pub payload: SmallVec<u16, 8>,
}

impl Model for ConcPacket {
    ghost use Rattle.std.specs.Prelude.{ℕ, []};
    ghost use Rattle.kn_model.specs.Packets.{Packet};
    ghost use Rattle.kn_conc.specs.Views.{IsPacket};

    ghost Value = { Packet ℕ };

    ghost view = { λ p. record { from = p.from; seq = p.seq; copy = p.copy; to = p.to; arrival = p.arrival; payload = p.payload.items; guard = []; bits = [] } };

    ghost invariant = { λ p. IsPacket p.from p.payload.items };
}

impl ConcPacket {
    /// An equal packet. Err is want of memory.
    pub fn copy(&self, alloc: Global) -> Result<ConcPacket, AllocError>
        ensures { IfOk result (λ p. p ≡ self.now) }
    {
        Ok(ConcPacket {
            from: self.from,
            seq: self.seq,
            copy: self.copy,
            to: self.to,
            arrival: self.arrival,
            payload: SmallVec::from_slice(alloc, self.payload.as_slice())?,
        })
    }

    /// Copy 1 of this packet, which arrives at a tick. Err is want of memory.
    pub fn copy_at(&self, alloc: Global, tick: u32) -> Result<ConcPacket, AllocError>
        ensures { IfOk result (λ p. p ≡ record self.now { copy = 1; arrival = tick }) }
    {
        let mut packet = self.copy(alloc)?;
        packet.copy = 1;
        packet.arrival = tick;
        Ok(packet)
    }

    /// Whether it arrives at a tick.
    pub fn arrives_at(&self, tick: u32) -> bool
        ensures { result ≡ comes_at tick self.now }
    {
        self.arrival == tick
    }

    /// Whether it does not come after another one, by arrival, sender, sequence number and copy.
    pub fn goes_before(&self, other: &ConcPacket) -> bool
        ensures { result ≡ packet_le self.now other.now }
    {
        self.arrival < other.arrival || self.arrival == other.arrival && self.is_sent_before(other)
    }

    /// The same by sender, sequence number and copy.
    fn is_sent_before(&self, other: &ConcPacket) -> bool
        ensures { result ≡ below_or self.now.from other.now.from (below_or self.now.seq other.now.seq (below_or self.now.copy other.now.copy true)) }
    {
        self.from < other.from
            || self.from == other.from
                && (self.seq < other.seq || self.seq == other.seq && self.copy <= other.copy)
    }
}
