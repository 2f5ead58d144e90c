//! What a node does next in a tick.

ghost use Rattle.std.specs.Prelude.{◌≡◌, ◌<◌, ◌≤◌, length, IfSome, OnSome};
ghost use Rattle.kn_model.specs.Packets.{first_at};
ghost use Rattle.kn_model.specs.Due.{due, has, is_open, mail_of, or_else, timer_from};
ghost use Rattle.kn_conc.specs.Runs.{IsSmall};

use crate::node::ConcNode;
use crate::packet::ConcPacket;
use crate::queue::place_at;
use kn_packet::Event;
use kn_plan::Net;

/// The first event that is due for a node in a tick: its boot at tick 0, a reboot, the first packet that arrives then, or
/// the lowest timer that is set to it. None exactly where nothing is due: the node ended, or the network has no such tick,
/// or nothing comes then.
pub fn due_at(net: &Net, node: &ConcNode, tick: u32) -> Option<Event>
    ensures due { result ≡ due net.now.network.limits.ticks tick node.now.state }
    ensures early { OnSome result (tick < net.now.network.limits.ticks) }
    ensures small { IfSome result IsSmall }
{
    if tick >= net.limits.ticks || !node.is_running() {
        return None;
    }
    if tick == 0 && !node.booted {
        return Some(Event::Boot);
    }
    if has(&node.reboots, tick) {
        return Some(Event::Reboot);
    }
    mail_or_timer(node, tick)
}

/// The first packet that arrives in a tick, or else the lowest timer that is set to it.
fn mail_or_timer(node: &ConcNode, tick: u32) -> Option<Event>
    ensures event { result ≡ or_else (mail_of (first_at tick node.now.state.queue)) (timer_from tick 0 node.now.state.timers) }
    ensures small { IfSome result IsSmall }
{
    node.sizes();
    match mail_at(&node.queue, tick) {
        Some(event) => Some(event),
        None => timer_at(&node.timers, tick),
    }
}

/// The first packet that arrives in a tick, as an event.
fn mail_at(queue: &[ConcPacket], tick: u32) -> Option<Event>
    ensures event { result ≡ mail_of (first_at tick queue.now) }
    ensures small { IfSome result IsSmall }
{
    let place = place_at(queue, tick)?;
    let packet = &queue[place];
    Some(Event::Packet {
        from: packet.from,
        seq: packet.seq,
        copy: packet.copy,
    })
}

/// The lowest timer that is set to a tick.
fn timer_at(timers: &[Option<u32>], tick: u32) -> Option<Event>
    requires { length timers.now ≤ 8 }
    ensures event { result ≡ timer_from tick 0 timers.now }
    ensures small { IfSome result IsSmall }
{
    for (number, timer) in timers.iter().enumerate() {
        if *timer == Some(tick) {
            return Some(Event::Timer {
                number: number as u8,
            });
        }
    }
    None
}

/// Whether a tick is among these.
fn has(ticks: &[u32], tick: u32) -> bool
    ensures { result ≡ has tick ticks.now }
{
    for other in ticks {
        if *other == tick {
            return true;
        }
    }
    false
}
