//! Events.

ghost use Rattle.std.specs.Prelude.{◌≡◌, ◌<◌, [], length, None, IfOk, IfErr, OnOk, OnErr};
ghost use Rattle.kn_model.specs.Due.{due};
ghost use Rattle.kn_model.specs.Terms.{words};
ghost use Rattle.kn_model.specs.Packets.{Packet as PacketOf};
ghost use Rattle.kn_model.specs.Paths.{arrives, comes, event_ways, first_way};
ghost use Rattle.kn_model.specs.Rows.{Here};
ghost use Rattle.kn_packet.specs.declared.packet.Event.TheVariants as events;
ghost use Rattle.kn_conc.specs.Ways.{IsPlace, here_of, way_of};
ghost use Rattle.kn_conc.specs.Runs.{IsOnly, IsRun, IsSmall};

use crate::beginning::begin;
use crate::choices::{choose, clear, lose, may_double};
use crate::due::due_at;
use crate::node::ConcNode;
use crate::packet::ConcPacket;
use crate::run::run_handler;
use crate::spot::{Spot, links_of};
use crate::way::Way;
use kn_packet::Event;
use kn_plan::Net;
use kn_term::Valuation;
use std::alloc::AllocError;
use std::mem;

/// Runs the first due event of a node in a tick, on these inputs. The answer is what it sent. The node and the packets are
/// those of the event's one path over words. Err is want of memory, and leaves the node as it was.
pub fn run_event_at(
    net: &Net,
    node: &mut ConcNode,
    tick: u32,
    inputs: &Valuation,
) -> Result<Vec<ConcPacket>, AllocError>
    requires node { node.old.node < length net.now.network.nodes }
    requires due { due net.now.network.limits.ticks tick node.old.state ≡ None → ⊥ }
    ensures run { IfOk result (λ ps. IsRun net.now.network inputs.now tick node.old node.new ps.items) }
    ensures err { IfErr result (λ e. node.new ≡ node.old) }
{
    // The trace grows with every event, so it is not copied: it goes with the way that runs.
    let alloc = *net.links.allocator();
    let spare = node.without_trace()?;
    let mut way = Way::new(alloc, mem::replace(node, spare));
    if let Err(error) = run_first(net, tick, inputs, &mut way) {
        mem::swap(&mut node.trace, &mut way.node.trace);
        return Err(error);
    }
    *node = way.node;
    Ok(way.sends)
}

/// The first due event of a tick runs on a way that begins. Err is want of memory, and leaves the trace of before.
fn run_first(net: &Net, tick: u32, inputs: &Valuation, way: &mut Way) -> Result<(), AllocError>
    requires node { way.old.node.node < length net.now.network.nodes }
    requires due { due net.now.network.limits.ticks tick way.old.node.state ≡ None → ⊥ }
    requires begins { way_of way.old ≡ first_way (words []) way.old.node.state }
    ensures run { OnOk result (IsRun net.now.network inputs.now tick way.old.node way.new.node way.new.sends.items) }
    ensures err { OnErr result (way.new.node.state.trace ≡ way.old.node.state.trace) }
{
    // This is called for its clause, which the proof cites.
    net.bounds();
    let Some(event) = due_at(net, &way.node, tick) else {
        unreachable!();
    };
    let links = links_of(*net.links.allocator(), net, way.node.node)?;
    let mail = begin(event, tick, &mut way.node)?;
    let spot = Spot {
        node: way.node.node,
        tick,
        links,
        mail,
    };
    run_due(net, &spot, inputs, event, way)?;
    way.close()
}

/// What an event does to a way, on these inputs. Err is want of memory.
fn run_due(
    net: &Net,
    spot: &Spot,
    inputs: &Valuation,
    event: Event,
    way: &mut Way,
) -> Result<(), AllocError>
    requires node { spot.now.node < length net.now.network.nodes }
    requires place { IsPlace spot.now }
    requires small { IsSmall event }
    ensures way { OnOk result (IsOnly inputs.now (event_ways (words inputs.now) (here_of net.now.network spot.now) event (way_of way.old)) (way_of way.new)) }
    ensures node { way.new.node.node ≡ way.old.node.node }
    ensures trace { way.new.node.state.trace ≡ way.old.node.state.trace }
{
    match event {
        Event::Boot => run_handler(net, spot, inputs, 0, way),
        Event::Reboot => run_reboot(net, spot, inputs, way),
        Event::Packet { .. } => run_mail(net, spot, inputs, way),
        Event::Timer { number } => run_handler(net, spot, inputs, 2 + number, way),
    }
}

/// It is chosen whether a node reboots; if it does, registers, memory and timers are cleared, and boot runs. Err is want of
/// memory.
fn run_reboot(net: &Net, spot: &Spot, inputs: &Valuation, way: &mut Way) -> Result<(), AllocError>
    requires node { spot.now.node < length net.now.network.nodes }
    requires place { IsPlace spot.now }
    ensures way { OnOk result (IsOnly inputs.now (event_ways (words inputs.now) (here_of net.now.network spot.now) events.Reboot (way_of way.old)) (way_of way.new)) }
    ensures node { way.new.node.node ≡ way.old.node.node }
    ensures trace { way.new.node.state.trace ≡ way.old.node.state.trace }
{
    if choose(spot, inputs, way)? {
        clear(way)?;
        run_handler(net, spot, inputs, 0, way)?;
    }
    Ok(())
}

/// A packet comes, if the event is of one: where losses are left, it is chosen whether it is lost. Err is want of memory.
fn run_mail(net: &Net, spot: &Spot, inputs: &Valuation, way: &mut Way) -> Result<(), AllocError>
    requires node { spot.now.node < length net.now.network.nodes }
    requires place { IsPlace spot.now }
    ensures way { OnOk result (IsOnly inputs.now (comes (words inputs.now) (here_of net.now.network spot.now) spot.now.mail (way_of way.old)) (way_of way.new)) }
    ensures node { way.new.node.node ≡ way.old.node.node }
    ensures trace { way.new.node.state.trace ≡ way.old.node.state.trace }
{
    let Some(mail) = &spot.mail else {
        return Ok(());
    };
    if way.node.losses == 0 {
        return run_arrival(net, spot, inputs, mail, way);
    }
    if choose(spot, inputs, way)? {
        lose(way);
        return Ok(());
    }
    run_arrival(net, spot, inputs, mail, way)
}

/// A packet that is not lost arrives: it may be doubled, and recv runs. Err is want of memory.
fn run_arrival(
    net: &Net,
    spot: &Spot,
    inputs: &Valuation,
    mail: &ConcPacket,
    way: &mut Way,
) -> Result<(), AllocError>
    requires node { spot.now.node < length net.now.network.nodes }
    requires place { IsPlace spot.now }
    ensures way { OnOk result (IsOnly inputs.now (arrives (words inputs.now) (here_of net.now.network spot.now) mail.now (way_of way.old)) (way_of way.new)) }
    ensures node { way.new.node.node ≡ way.old.node.node }
    ensures trace { way.new.node.state.trace ≡ way.old.node.state.trace }
{
    may_double(spot, inputs, mail, way)?;
    run_handler(net, spot, inputs, 1, way)
}
