//! All ways through an event: its failure choices, and its handler.

ghost use Rattle.std.specs.Prelude.{◌≡◌, ◌<◌, ◌≤◌, ◌∷◌, [], length};
ghost use Rattle.kn_model.specs.Terms.{terms};
ghost use Rattle.kn_model.specs.Paths.{arrives, cleared, comes, doubled, event_ways, runs, with_loss};
ghost use Rattle.kn_packet.specs.declared.packet.Event.TheVariants as events;
ghost use Rattle.kn_machine.specs.Views.{packet_of};
ghost use Rattle.kn_machine.specs.Ways.{way_of, AreStamped};
ghost use Rattle.kn_machine.specs.Effects.{here_of, mail_of, IsIn};
ghost use Rattle.kn_step.specs.Turns.{IsSound};
ghost use Rattle.kn_step.specs.Choices.{CameBehind, paths_by};
ghost use Rattle.kn_step.specs.Answers.{IsSmall};

use crate::choices::{Choice, choose, clear, double};
use crate::run::{RunStop, give, run_handler};
use kn_machine::{Path, Spot, Way};
use kn_packet::{Event, Packet};
use kn_plan::Net;
use kn_solve::Judge;

/// The number of the handler recv.
const RECV: u8 = 1;

/// The paths of a way through an event come behind the others, those on which nothing fails before those on which it does,
/// apart from paths that no inputs meet. Where there are too many in all, it stops.
pub fn run_due<J: Judge>(
    net: &Net,
    spot: &Spot,
    judge: &mut J,
    event: Event,
    way: Way,
    out: &mut Vec<Path>,
) -> Result<(), RunStop>
    requires place { IsIn net.now.network spot.now }
    requires sound { IsSound net.now.network.limits.conflicts way }
    requires stamps { AreStamped spot.now.node spot.now.history way.sends }
    requires small { IsSmall event }
    ensures { CameBehind net.now.network spot.now out.old.items out.new.items (paths_by (event_ways terms (here_of net.now.network spot.now) event) (way_of way)) result }
{
    match event {
        Event::Boot => run_handler(net, spot, judge, 0, way, out),
        Event::Reboot => run_reboot(net, spot, judge, way, out),
        Event::Packet { .. } => run_mail(net, spot, judge, way, out),
        Event::Timer { number } => run_handler(net, spot, judge, 2 + number, way, out),
    }
}

/// It is chosen whether a node reboots.
fn run_reboot<J: Judge>(
    net: &Net,
    spot: &Spot,
    judge: &mut J,
    way: Way,
    out: &mut Vec<Path>,
) -> Result<(), RunStop>
    requires place { IsIn net.now.network spot.now }
    requires sound { IsSound net.now.network.limits.conflicts way }
    requires stamps { AreStamped spot.now.node spot.now.history way.sends }
    ensures { CameBehind net.now.network spot.now out.old.items out.new.items (paths_by (event_ways terms (here_of net.now.network spot.now) events.Reboot) (way_of way)) result }
{
    let mut way = way;
    match choose(net, spot, judge, &mut way) {
        Ok(Choice::Stays) => give(net, spot, way, out),
        Ok(Choice::Takes) => run_again(net, spot, judge, way, out),
        Ok(Choice::Both(kept)) => match give(net, spot, kept, out) {
            Ok(()) => run_again(net, spot, judge, way, out),
            Err(stop) => Err(stop),
        },
        Err(error) => Err(RunStop::Memory(error)),
    }
}

/// A node reboots: registers, memory and timers are cleared, and boot runs.
fn run_again<J: Judge>(
    net: &Net,
    spot: &Spot,
    judge: &mut J,
    way: Way,
    out: &mut Vec<Path>,
) -> Result<(), RunStop>
    requires place { IsIn net.now.network spot.now }
    requires sound { IsSound net.now.network.limits.conflicts way }
    requires stamps { AreStamped spot.now.node spot.now.history way.sends }
    ensures { CameBehind net.now.network spot.now out.old.items out.new.items (paths_by (λ w. runs terms (here_of net.now.network spot.now) 0 (cleared terms w)) (way_of way)) result }
{
    let mut way = way;
    match clear(&mut way) {
        Ok(()) => run_handler(net, spot, judge, 0, way, out),
        Err(error) => Err(RunStop::Memory(error)),
    }
}

/// A packet comes, if the event is of one: where losses are left, it is chosen whether it is lost.
fn run_mail<J: Judge>(
    net: &Net,
    spot: &Spot,
    judge: &mut J,
    way: Way,
    out: &mut Vec<Path>,
) -> Result<(), RunStop>
    requires place { IsIn net.now.network spot.now }
    requires sound { IsSound net.now.network.limits.conflicts way }
    requires stamps { AreStamped spot.now.node spot.now.history way.sends }
    ensures { CameBehind net.now.network spot.now out.old.items out.new.items (paths_by (comes terms (here_of net.now.network spot.now) (mail_of spot.now.mail)) (way_of way)) result }
{
    let Some(mail) = &spot.mail else {
        return give(net, spot, way, out);
    };
    if way.machine.losses == 0 {
        return run_arrival(net, spot, judge, mail, way, out);
    }
    let mut way = way;
    match choose(net, spot, judge, &mut way) {
        Ok(Choice::Stays) => run_arrival(net, spot, judge, mail, way, out),
        Ok(Choice::Takes) => run_lost(net, spot, way, out),
        Ok(Choice::Both(kept)) => match run_arrival(net, spot, judge, mail, kept, out) {
            Ok(()) => run_lost(net, spot, way, out),
            Err(stop) => Err(stop),
        },
        Err(error) => Err(RunStop::Memory(error)),
    }
}

/// A packet is lost.
fn run_lost(net: &Net, spot: &Spot, way: Way, out: &mut Vec<Path>) -> Result<(), RunStop>
    requires sound { IsSound net.now.network.limits.conflicts way }
    requires stamps { AreStamped spot.now.node spot.now.history way.sends }
    requires some { 1 ≤ way.machine.losses }
    ensures { CameBehind net.now.network spot.now out.old.items out.new.items (paths_by (λ w. with_loss terms w ∷ []) (way_of way)) result }
{
    let mut way = way;
    way.machine.losses -= 1;
    give(net, spot, way, out)
}

/// A packet that is not lost arrives: unless it is a copy, and where duplications are left, it is chosen whether it is doubled,
/// and recv runs.
fn run_arrival<J: Judge>(
    net: &Net,
    spot: &Spot,
    judge: &mut J,
    mail: &Packet,
    way: Way,
    out: &mut Vec<Path>,
) -> Result<(), RunStop>
    requires place { IsIn net.now.network spot.now }
    requires sound { IsSound net.now.network.limits.conflicts way }
    requires stamps { AreStamped spot.now.node spot.now.history way.sends }
    ensures { CameBehind net.now.network spot.now out.old.items out.new.items (paths_by (arrives terms (here_of net.now.network spot.now) (packet_of mail.now)) (way_of way)) result }
{
    if mail.copy != 0 || way.machine.duplications == 0 {
        return run_handler(net, spot, judge, RECV, way, out);
    }
    let mut way = way;
    match choose(net, spot, judge, &mut way) {
        Ok(Choice::Stays) => run_handler(net, spot, judge, RECV, way, out),
        Ok(Choice::Takes) => run_doubled(net, spot, judge, mail, way, out),
        Ok(Choice::Both(kept)) => match run_handler(net, spot, judge, RECV, kept, out) {
            Ok(()) => run_doubled(net, spot, judge, mail, way, out),
            Err(stop) => Err(stop),
        },
        Err(error) => Err(RunStop::Memory(error)),
    }
}

/// A packet is doubled: its copy comes one tick later, and recv runs.
fn run_doubled<J: Judge>(
    net: &Net,
    spot: &Spot,
    judge: &mut J,
    mail: &Packet,
    way: Way,
    out: &mut Vec<Path>,
) -> Result<(), RunStop>
    requires place { IsIn net.now.network spot.now }
    requires sound { IsSound net.now.network.limits.conflicts way }
    requires stamps { AreStamped spot.now.node spot.now.history way.sends }
    requires some { 1 ≤ way.machine.duplications }
    ensures { CameBehind net.now.network spot.now out.old.items out.new.items (paths_by (λ w. runs terms (here_of net.now.network spot.now) 1 (doubled terms (here_of net.now.network spot.now) (packet_of mail.now) w)) (way_of way)) result }
{
    let mut way = way;
    match double(spot, mail, &mut way) {
        Ok(()) => run_handler(net, spot, judge, RECV, way, out),
        Err(error) => Err(RunStop::Memory(error)),
    }
}
