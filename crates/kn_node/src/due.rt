//! What a node does next in a tick.

ghost use Rattle.std.specs.Prelude.{◌≡◌, ◌<◌, ◌≤◌, drop, length, List, Option, None, ℕ};
ghost use Rattle.kn_node.specs.Due.{due, mail_or_timer, has, is_set_to, timer_from};

use crate::config::Config;
use crate::machine::{Machine, Outcome};
use kn_packet::Event;

/// The first event that is due for a node in a tick: its boot at tick 0, a reboot, the first packet that arrives then, or
/// the lowest timer that is set to it. None exactly where nothing is due.
pub fn next_event(c: &Config, tick: u32) -> Option<Event>
    ensures { result ≡ due tick c.now.machine }
{
    let machine = &c.machine;
    if machine.outcome != Outcome::Running {
        return None;
    }
    if tick == 0 && !machine.booted {
        return Some(Event::Boot);
    }
    if has(&machine.reboots, tick) {
        return Some(Event::Reboot);
    }
    mail_or_timer(machine, tick)
}

/// The first packet that arrives in a tick, or else the lowest timer that is set to it.
fn mail_or_timer(machine: &Machine, tick: u32) -> Option<Event>
    ensures { result ≡ mail_or_timer tick machine.now.queue machine.now.timers }
{
    machine.sizes();
    match machine.queue.due(tick) {
        Some(packet) => Some(Event::Packet {
            from: packet.from,
            seq: packet.seq,
            copy: packet.copy,
        }),
        None => timer_at(&machine.timers, tick),
    }
}

/// A tick up to which nothing is due for a node after tick 0: that of the first packet or timer. It is 0 for a node that
/// may boot again, and the greatest number where nothing comes, as for a node that ended.
pub fn quiet_until(c: &Config) -> u32
    ensures { (tick : ℕ) → 0 < tick → tick < result → due tick c.now.machine ≡ None }
{
    let machine = &c.machine;
    if machine.outcome != Outcome::Running {
        return u32::MAX;
    }
    if !machine.reboots.is_empty() {
        return 0;
    }
    first_timer(&machine.timers).min(machine.queue.quiet_until())
}

/// The first tick that a timer is set to, or the greatest number where none is set.
fn first_timer(timers: &[Option<u32>]) -> u32
    ensures { (tick : ℕ) → tick < result → timer_from tick 0 timers.now ≡ None }
{
    let mut first = u32::MAX;
    for timer in timers {
        first = first.min(timer.unwrap_or(u32::MAX));
    }
    first
}

/// The lowest timer that is set to a tick.
fn timer_at(timers: &[Option<u32>], tick: u32) -> Option<Event>
    requires { length timers.now ≤ 8 }
    ensures { result ≡ timer_from tick 0 timers.now }
{
    for (number, timer) in timers.iter().enumerate() {
        if *timer == Some(tick) {
            return Some(Event::Timer {
                number: number as u8,
            });
        }
    }
    None
}

/// Whether a tick is among these.
fn has(ticks: &[u32], tick: u32) -> bool
    ensures { result ≡ has tick ticks.now }
{
    for other in ticks {
        if *other == tick {
            return true;
        }
    }
    false
}
