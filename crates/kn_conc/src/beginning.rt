//! What an event does before its choices.

ghost use Rattle.std.specs.Prelude.{◌≡◌, ◌<◌, [], filter, nat_eq, not, slice_set, None, IfOk, OnOk};
ghost use Rattle.kn_model.specs.Terms.{words};
ghost use Rattle.kn_model.specs.Packets.{first_at, without_first};
ghost use Rattle.kn_model.specs.Paths.{begun, mail_in};
ghost use Rattle.kn_conc.specs.Runs.{IsSmall};

use crate::node::ConcNode;
use crate::packet::ConcPacket;
use crate::queue::take;
use kn_packet::Event;
use std::alloc::{AllocError, Global};

/// What an event does before its choices: boot has run, the reboot is decided, the packet is taken, the timer is unset.
/// The answer is the event's packet, if it is of one. Err is want of memory.
pub fn begin(event: Event, tick: u32, node: &mut ConcNode) -> Result<Option<ConcPacket>, AllocError>
    requires { IsSmall event }
    ensures state { IfOk result (λ o. node.new.state ≡ begun (words []) tick event node.old.state) }
    ensures mail { IfOk result (λ o. o ≡ mail_in (words []) event tick node.old.state) }
    ensures node { node.new.node ≡ node.old.node }
    ensures trace { node.new.state.trace ≡ node.old.state.trace }
{
    match event {
        Event::Boot => {
            node.booted = true;
            Ok(None)
        }
        Event::Reboot => {
            take_reboot(tick, node)?;
            Ok(None)
        }
        Event::Packet { .. } => Ok(take_mail(tick, node)),
        Event::Timer { number } => {
            unset(number, node);
            Ok(None)
        }
    }
}

/// The reboot of a tick is decided. Err is want of memory.
fn take_reboot(tick: u32, node: &mut ConcNode) -> Result<(), AllocError>
    ensures state { OnOk result (node.new.state ≡ record node.old.state { reboots = filter (λ x. not (nat_eq x tick)) node.old.state.reboots }) }
    ensures node { node.new.node ≡ node.old.node }
    ensures trace { node.new.state.trace ≡ node.old.state.trace }
{
    let left = others(*node.registers.allocator(), &node.reboots, tick)?;
    node.reboots = left;
    Ok(())
}

/// The ticks that are not this one. Err is want of memory.
fn others(alloc: Global, ticks: &[u32], tick: u32) -> Result<Vec<u32>, AllocError>
    ensures { IfOk result (λ v. v.items ≡ filter (λ x. not (nat_eq x tick)) ticks.now) }
{
    let mut left = Vec::new(alloc);
    for other in ticks {
        if *other != tick {
            left.push(*other)?;
        }
    }
    Ok(left)
}

/// The first packet that arrives in a tick leaves the queue.
fn take_mail(tick: u32, node: &mut ConcNode) -> Option<ConcPacket>
    ensures state { node.new.state ≡ record node.old.state { queue = without_first tick node.old.state.queue } }
    ensures mail { result ≡ first_at tick node.old.state.queue }
    ensures node { node.new.node ≡ node.old.node }
{
    take(&mut node.queue, tick)
}

/// A timer is unset.
fn unset(number: u8, node: &mut ConcNode)
    requires { number < 8 }
    ensures state { node.new.state ≡ record node.old.state { timers = slice_set node.old.state.timers number None } }
    ensures node { node.new.node ≡ node.old.node }
{
    node.timers[number as usize] = None;
}
