//! Event runs.

ghost use Rattle.std.specs.Prelude.{◌≡◌, ◌+◌, None, Some, Bool, List, filter, length, nat_eq, not, IfOk, IfErr, OnOk};
ghost use Rattle.std.specs.Arc.{arc_value};
ghost use Rattle.std.specs.List.{AllByRecursion};
ghost use Rattle.kn_code.specs.Code.{IsValid};
ghost use Rattle.kn_term.specs.declared.node.Node.{Node as NodeOf};
ghost use Rattle.kn_cond.specs.Conditions.{Condition};
ghost use Rattle.kn_model.specs.Terms.{terms};
ghost use Rattle.kn_model.specs.Laws.{IsNet};
ghost use Rattle.kn_model.specs.Due.{due};
ghost use Rattle.kn_model.specs.Paths.{begun, mail_in};
ghost use Rattle.kn_machine.specs.Views.{state_of, state_with};
ghost use Rattle.kn_machine.specs.Effects.{mail_of};
ghost use Rattle.kn_step.specs.Answers.{IsReady, AreRun, AreTooMany, IsSmall, OnStop};
ghost use Rattle.kn_step.specs.Turns.{OnTooMany};

use crate::failures::run_due;
use crate::path::{Done, StepStop, TooMany};
use crate::run::RunStop;
use crate::steps::Steps;
use kn_code::Program;
use kn_machine::{Path, Spot, Way, links_of};
use kn_node::{Config, Machine, next_event};
use kn_packet::{Event, Packet};
use kn_plan::Net;
use kn_solve::{Judge, Plain};
use std::alloc::{AllocError, Global};
use std::sync::Arc;
use std::sync::ledger::Ledger;

/// Runs the first due event of a node's state on all ways at once, and counts one step. The paths are those of the
/// definition, in its order, each once, apart from paths whose own condition no inputs meet; each has the least inputs
/// that meet its own condition, or its mark. TooMany comes only where the event has more than the network's limit of
/// states of them, and holds as many as were found. Err is also want of memory.
pub fn run_event<L: Ledger>(
    net: &Net,
    c: &Arc<Config, Global>,
    tick: u32,
    steps: &mut Steps<L>,
) -> Result<Done, StepStop>
    requires ready { IsReady net.now.network tick (arc_value c.now) }
    requires due { due net.now.network.limits.ticks tick (state_of (arc_value c.now)) ≡ None → ⊥ }
    ensures config { IfOk result (λ d. arc_value d.config ≡ arc_value c.now) }
    ensures run { IfOk result (λ d. AreRun net.now.network tick (arc_value c.now) d.event d.paths.items) }
    ensures many { IfErr result (OnStop (λ t. (arc_value t.config ≡ arc_value c.now) × AreTooMany net.now.network tick (arc_value c.now) t.event t.prefixes.items)) }
    ensures steps { steps.new ≡ steps.old + 1 }
{
    run_event_by(net, &mut Plain, c, tick, steps)
}

/// The same, where this judge is asked.
pub fn run_event_by<J: Judge, L: Ledger>(
    net: &Net,
    judge: &mut J,
    c: &Arc<Config, Global>,
    tick: u32,
    steps: &mut Steps<L>,
) -> Result<Done, StepStop>
    requires ready { IsReady net.now.network tick (arc_value c.now) }
    requires due { due net.now.network.limits.ticks tick (state_of (arc_value c.now)) ≡ None → ⊥ }
    ensures config { IfOk result (λ d. arc_value d.config ≡ arc_value c.now) }
    ensures run { IfOk result (λ d. AreRun net.now.network tick (arc_value c.now) d.event d.paths.items) }
    ensures many { IfErr result (OnStop (λ t. (arc_value t.config ≡ arc_value c.now) × AreTooMany net.now.network tick (arc_value c.now) t.event t.prefixes.items)) }
    ensures steps { steps.new ≡ steps.old + 1 }
{
    steps.count();
    let alloc = *net.links.allocator();
    let Some(event) = next_event(c, tick) else {
        unreachable!();
    };
    let config = Arc::try_clone(c)?;
    let mut paths = Vec::new(alloc);
    match run_from(net, judge, c, tick, event, &mut paths) {
        Ok(()) => Ok(Done {
            config,
            event,
            paths,
        }),
        Err(RunStop::TooMany) => Err(StepStop::TooMany(TooMany {
            config,
            event,
            prefixes: paths,
        })),
        Err(RunStop::Memory(error)) => Err(StepStop::Memory(error)),
    }
}

/// The paths of a due event of a node's state.
fn run_from<J: Judge>(
    net: &Net,
    judge: &mut J,
    c: &Config,
    tick: u32,
    event: Event,
    out: &mut Vec<Path>,
) -> Result<(), RunStop>
    requires ready { IsReady net.now.network tick c.now }
    requires due { due net.now.network.limits.ticks tick (state_of c.now) ≡ Some event }
    requires none { length out.old.items ≡ 0 }
    ensures run { OnOk result (AreRun net.now.network tick c.now event out.new.items) }
    ensures many { OnTooMany result (AreTooMany net.now.network tick c.now event out.new.items) }
{
    // These three are called for their clauses, which the proof cites.
    net.bounds();
    comes_later(net);
    c.machine.sizes();
    let alloc = *net.links.allocator();
    let links = links_of(alloc, net, c.node)?;
    let mut config = c.copy()?;
    let mail = begin(event, tick, &mut config.machine)?;
    let spot = Spot {
        node: c.node,
        history: c.history,
        tick,
        links,
        mail,
    };
    let way = Way::new(alloc, config);
    run_due(net, &spot, judge, event, way, out)
}

/// That packets and timers of a network come in later ticks, for a caller that needs it in a proof.
pub fn comes_later(net: &Net)
    ensures { IsNet net.now.network }
{
    net.bounds();
    // Programs are valid, each by its type.
    for program in &net.programs {
        program.validity();
    }
}

/// What an event does before its choices: boot has run, the reboot is decided, the packet is taken, the timer is unset. The
/// answer is the event's packet. Err is want of memory.
fn begin(event: Event, tick: u32, machine: &mut Machine) -> Result<Option<Packet>, AllocError>
    requires { IsSmall event }
    ensures state { IfOk result (λ o. (ns : List NodeOf) (trace : List Bool) (own : Condition) → state_with ns machine.new trace own ≡ begun terms tick event (state_with ns machine.old trace own)) }
    ensures mail { IfOk result (λ o. (ns : List NodeOf) (trace : List Bool) (own : Condition) → mail_of o ≡ mail_in terms event tick (state_with ns machine.old trace own)) }
    ensures registers { machine.new.registers ≡ machine.old.registers }
    ensures memory { machine.new.memory ≡ machine.old.memory }
{
    match event {
        Event::Boot => {
            machine.booted = true;
            Ok(None)
        }
        Event::Reboot => {
            let left = others(*machine.registers.allocator(), &machine.reboots, tick)?;
            machine.reboots = left;
            Ok(None)
        }
        Event::Packet { .. } => Ok(machine.queue.take(tick)),
        Event::Timer { number } => {
            machine.timers[number as usize] = None;
            Ok(None)
        }
    }
}

/// The ticks that are not this one. Err is want of memory.
fn others(alloc: Global, ticks: &[u32], tick: u32) -> Result<Vec<u32>, AllocError>
    ensures { IfOk result (λ v. v.items ≡ filter (λ x. not (nat_eq x tick)) ticks.now) }
{
    let mut left = Vec::new(alloc);
    for other in ticks {
        if *other != tick {
            left.push(*other)?;
        }
    }
    Ok(left)
}
