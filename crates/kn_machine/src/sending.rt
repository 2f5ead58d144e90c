//! What a node sends.

ghost use Rattle.std.specs.Prelude.{◌≡◌, ◌+◌, ◌<◌, ◌≤◌, IfOk, OnOk, length};
ghost use Rattle.std.specs.List.{AllByRecursion};
ghost use Rattle.kn_model.specs.Terms.{terms};
ghost use Rattle.kn_model.specs.Nets.{Network, Link as LinkOf};
ghost use Rattle.kn_model.specs.Rows.{sends_over, sent_on, span};
ghost use Rattle.kn_machine.specs.Ways.{way_of, IsRow, AlikeWay};
ghost use Rattle.kn_machine.specs.Effects.{here_of, IsPlace, IsSendStep, IsPacketOf};

use crate::rows::{Step, fail};
use crate::spot::Spot;
use crate::way::Way;
use kn_node::FailKind;
use kn_packet::{Packet, Stamp};
use kn_plan::Link;
use smallvec::SmallVec;
use std::alloc::AllocError;

/// So many registers from one on are sent over links; a node that would have sent more than 65,535 packets fails by fuel.
pub fn send_over(
    spot: &Spot,
    way: &mut Way,
    b: u8,
    n: u8,
    links: &[Link],
) -> Result<Step, AllocError>
    requires spot { IsPlace spot.now }
    requires registers { b + n ≤ 16 }
    requires few { n ≤ 8 }
    requires place { way.old.pc < 4096 }
    requires fan { length links.now ≤ 16 }
    requires delays { AllByRecursion (λ (l : LinkOf). l.delay ≤ 65535) links.now }
    ensures { (net : Network) → IfOk result (IsSendStep net spot.now b n links.now way.old way.new) }
{
    if way.machine.sent + links.len() as u32 > 65535 {
        fail(spot.tick, FailKind::Fuel, way);
        return Ok(Step::Stops);
    }
    way.freeze()?;
    for link in links {
        send(spot, way, b, n, *link)?;
    }
    way.advance();
    Ok(Step::Goes)
}

/// So many registers from one on are sent over a link, under all that is known so far.
fn send(spot: &Spot, way: &mut Way, b: u8, n: u8, link: Link) -> Result<(), AllocError>
    requires spot { IsPlace spot.now }
    requires registers { b + n ≤ 16 }
    requires few { n ≤ 8 }
    requires sent { way.old.machine.sent < 65535 }
    requires delay { link.delay ≤ 65535 }
    ensures way { (net : Network) → OnOk result (AlikeWay (way_of way.new) (sent_on terms (here_of net spot.now) (span terms (way_of way.old).state.registers b n) link (way_of way.old))) }
    ensures row { OnOk result (IsRow spot.now.node spot.now.history way.old way.new) }
    ensures terms { OnOk result (way.new.terms ≡ way.old.terms) }
    ensures same { OnOk result (way.new.machine.registers ≡ way.old.machine.registers) }
    ensures sent { OnOk result (way.new.machine.sent ≡ way.old.machine.sent + 1) }
    ensures place { OnOk result (way.new.pc ≡ way.old.pc) }
{
    let packet = packet_of(spot, way, b, n, link)?;
    way.sends.push(packet)?;
    way.machine.sent += 1;
    Ok(())
}

/// The packet that such a send makes.
fn packet_of(spot: &Spot, way: &Way, b: u8, n: u8, link: Link) -> Result<Packet, AllocError>
    requires spot { IsPlace spot.now }
    requires registers { b + n ≤ 16 }
    requires few { n ≤ 8 }
    requires delay { link.delay ≤ 65535 }
    ensures { IfOk result (λ p. IsPacketOf spot.now way.now b n link p) }
{
    let alloc = *way.sends.allocator();
    let first = b as usize;
    let last = first + n as usize;
    Ok(Packet {
        from: spot.node,
        seq: way.machine.sent,
        copy: 0,
        to: link.to,
        arrival: spot.tick + link.delay,
        payload: SmallVec::from_slice(alloc, &way.machine.registers[first..last])?,
        guard: Vec::from_slice(alloc, way.cond.literals())?,
        terms: way.terms.copy()?,
        stamp: Stamp {
            node: spot.node,
            history: spot.history,
            bits: way.bits.copy()?,
            seq: way.machine.sent,
        },
    })
}
