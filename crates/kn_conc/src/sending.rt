//! What a node sends.

ghost use Rattle.std.specs.Prelude.{◌≡◌, ◌+◌, ◌<◌, ◌≤◌, IfOk, OnOk, [], length};
ghost use Rattle.std.specs.List.{AllByRecursion};
ghost use Rattle.kn_model.specs.Terms.{words};
ghost use Rattle.kn_model.specs.Nets.{Network, Link as LinkOf};
ghost use Rattle.kn_model.specs.Rows.{packet_on, sends_over, sent_on, span};
ghost use Rattle.kn_conc.specs.Ways.{IsPlace, bare, bare_packet, bare_way, here_of, seen, way_of};

use crate::packet::ConcPacket;
use crate::rows::Step;
use crate::spot::Spot;
use crate::way::Way;
use kn_node::FailKind;
use kn_plan::Link;
use smallvec::SmallVec;
use std::alloc::AllocError;

/// So many registers from one on are sent over links; a node that would have sent more than 65,535 packets fails by fuel.
pub fn send_over(
    spot: &Spot,
    way: &mut Way,
    b: u8,
    n: u8,
    links: &[Link],
) -> Result<Step, AllocError>
    requires spot { IsPlace spot.now }
    requires registers { b + n ≤ 16 }
    requires few { n ≤ 8 }
    requires place { way.old.pc < 4096 }
    requires fan { length links.now ≤ 16 }
    requires delays { AllByRecursion (λ (l : LinkOf). l.delay ≤ 65535) links.now }
    ensures step { (net : Network) → IfOk result (λ s. bare (seen s (way_of way.new)) ≡ bare (sends_over (words []) (here_of net spot.now) (way_of way.old) b n links.now)) }
    ensures node { way.new.node.node ≡ way.old.node.node }
    ensures trace { way.new.node.state.trace ≡ way.old.node.state.trace }
{
    if way.node.sent + links.len() as u32 > 65535 {
        way.fail(spot.tick, FailKind::Fuel);
        return Ok(Step::Stops);
    }
    for link in links {
        send(spot, way, b, n, *link)?;
    }
    way.advance();
    Ok(Step::Goes)
}

/// So many registers from one on are sent over a link.
fn send(spot: &Spot, way: &mut Way, b: u8, n: u8, link: Link) -> Result<(), AllocError>
    requires spot { IsPlace spot.now }
    requires registers { b + n ≤ 16 }
    requires few { n ≤ 8 }
    requires sent { way.old.node.state.sent < 65535 }
    requires delay { link.delay ≤ 65535 }
    ensures way { (net : Network) → OnOk result (bare_way (way_of way.new) ≡ bare_way (sent_on (words []) (here_of net spot.now) (span (words []) (way_of way.old).state.registers b n) link (way_of way.old))) }
    ensures registers { OnOk result (way.new.node.state.registers ≡ way.old.node.state.registers) }
    ensures sent { OnOk result (way.new.node.state.sent ≡ way.old.node.state.sent + 1) }
    ensures place { OnOk result (way.new.pc ≡ way.old.pc) }
    ensures node { way.new.node.node ≡ way.old.node.node }
    ensures trace { way.new.node.state.trace ≡ way.old.node.state.trace }
{
    let packet = packet_of(spot, way, b, n, link)?;
    way.post(packet)
}

/// The packet that such a send makes.
fn packet_of(spot: &Spot, way: &Way, b: u8, n: u8, link: Link) -> Result<ConcPacket, AllocError>
    requires spot { IsPlace spot.now }
    requires registers { b + n ≤ 16 }
    requires few { n ≤ 8 }
    requires delay { link.delay ≤ 65535 }
    ensures { (net : Network) → IfOk result (λ p. p ≡ bare_packet (packet_on (words []) (here_of net spot.now) (way_of way.now) (span (words []) (way_of way.now).state.registers b n) link)) }
{
    let alloc = *way.sends.allocator();
    let first = b as usize;
    let last = first + n as usize;
    Ok(ConcPacket {
        from: spot.node,
        seq: way.node.sent,
        copy: 0,
        to: link.to,
        arrival: spot.tick + link.delay,
        payload: SmallVec::from_slice(alloc, &way.node.registers[first..last])?,
    })
}
