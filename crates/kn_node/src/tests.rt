//! Each call, on the nodes of a small network.

ghost use Rattle.std.specs.Prelude.{◌≡◌, ◌∷◌, [], length, IfOk};

use super::*;
use kn_code::{Program, decode};
use kn_cond::{Cond, Standing};
use kn_packet::{Event, Packet, Queue, Stamp};
use kn_plan::{Limits, Name, Net, NodePlan};
use kn_term::{Terms, Valuation};
use kn_trace::Trace;
use smallvec::SmallVec;
use std::alloc::{AllocError, Global};
use std::test::Fail;

/// The one instruction `halt`, at boot.
const HALT_AT_BOOT: [u8; 30] = [
    0x00, 0x01, 0x00, 0x00, 0xff, 0xff, 0xff, 0xff, 0xff, 0xff, 0xff, 0xff, 0xff, 0xff, 0xff, 0xff,
    0xff, 0xff, 0xff, 0xff, 0xff, 0xff, 0x24, 0x00, 0x00, 0x00, 0x00, 0x00, 0x00, 0x00,
];

fn is_shared<T: Send + Sync>() {}

fn halt_at_boot(alloc: Global) -> Result<Program, AllocError> {
    let bytes = HALT_AT_BOOT;
    match decode(alloc, &bytes) {
        Ok(program) => Ok(program),
        Err(_) => Err(AllocError),
    }
}

fn plan(alloc: Global, loss: u8, duplicate: u8) -> Result<NodePlan, AllocError>
    ensures { IfOk result (λ p. p ≡ record { program = 0; loss = loss; duplicate = duplicate; reboot = 0 ∷ 5 ∷ [] }) }
{
    Ok(NodePlan {
        program: 0,
        loss,
        duplicate,
        reboot: Vec::from_array(alloc, [0, 5])?,
    })
}

fn name(alloc: Global) -> Result<Name, AllocError>
    ensures { IfOk result (λ n. n ≡ 97 ∷ []) }
{
    Ok(Name {
        bytes: Vec::from_array(alloc, [b'a'])?,
    })
}

/// Two nodes without links; the second loses at most 2 packets and duplicates at most 3.
fn two_nodes(alloc: Global) -> Result<Net, AllocError>
    ensures { IfOk result (λ n. length n.network.nodes ≡ 2) }
{
    Ok(Net {
        programs: Vec::from_array(alloc, [halt_at_boot(alloc)?])?,
        nodes: Vec::from_array(alloc, [plan(alloc, 15, 0)?, plan(alloc, 2, 3)?])?,
        links: Vec::new(alloc),
        limits: Limits {
            ticks: 9,
            fuel: 512,
            conflicts: 65536,
            states: 4096,
            dstates: 4096,
        },
        names: Vec::from_array(alloc, [name(alloc)?])?,
        inputs: Valuation::new(alloc),
    })
}

/// A packet of node 0 to node 1.
fn packet(alloc: Global, arrival: u32, seq: u32, copy: u8) -> Result<Packet, AllocError> {
    Ok(Packet {
        from: 0,
        seq,
        copy,
        to: 1,
        arrival,
        payload: SmallVec::new(alloc),
        guard: Vec::new(alloc),
        terms: Terms::new(alloc),
        stamp: Stamp {
            node: 0,
            history: 0,
            bits: Trace::new(alloc),
            seq,
        },
    })
}

/// Packets that arrive in ticks 5 and 6.
fn queue(alloc: Global) -> Result<Queue, AllocError> {
    let mut queue = Queue::new(alloc);
    for (arrival, seq, copy) in [(6, 3, 0), (6, 2, 1), (5, 4, 0)] {
        if queue.post(packet(alloc, arrival, seq, copy)?).is_err() {
            return Err(AllocError);
        }
    }
    Ok(queue)
}

/// Node 1, with what is due up to tick 7: reboots in ticks 0 and 5, packets in 5 and 6, timers in 6 and 7.
fn busy(alloc: Global, booted: bool, outcome: Outcome) -> Result<Config, AllocError> {
    let net = two_nodes(alloc)?;
    let mut config = open_config(&net, 1)?;
    config.machine.booted = booted;
    config.machine.outcome = outcome;
    config.machine.queue = queue(alloc)?;
    config.machine.timers[2] = Some(6);
    config.machine.timers[3] = Some(7);
    config.machine.timers[4] = Some(7);
    Ok(config)
}

/// What is due for that node in a tick.
fn due_in(
    alloc: Global,
    tick: u32,
    booted: bool,
    outcome: Outcome,
) -> Result<Option<Event>, AllocError> {
    let config = busy(alloc, booted, outcome)?;
    Ok(next_event(&config, tick))
}

#[test]
fn says_what_is_due(rt: HostRuntime) -> Result<(), Fail> {
    let (from, seq, copy) = (0, 2, 1);
    for (tick, booted, event) in [
        (0, false, Some(Event::Boot)),
        (0, true, Some(Event::Reboot)),
        (5, true, Some(Event::Reboot)),
        (6, true, Some(Event::Packet { from, seq, copy })),
        (7, true, Some(Event::Timer { number: 3 })),
        (8, true, None),
    ] {
        let due = due_in(rt.alloc(), tick, booted, Outcome::Running)?;
        assert!(rt; due == event, "at {tick}");
        let due = due_in(rt.alloc(), tick, booted, Outcome::Halted)?;
        assert!(rt; due.is_none(), "at {tick}");
    }
    Ok(())
}

/// The tick up to which nothing is due for that node, with a timer in this tick and these reboots.
fn quiet_of(
    alloc: Global,
    outcome: Outcome,
    timer: u32,
    reboots: Vec<u32>,
) -> Result<u32, AllocError> {
    let mut config = busy(alloc, true, outcome)?;
    config.machine.timers[2] = Some(timer);
    config.machine.reboots = reboots;
    Ok(quiet_until(&config))
}

#[test]
fn says_up_to_when_nothing_is_due(rt: HostRuntime) -> Result<(), Fail> {
    for (outcome, timer, until) in [
        (Outcome::Running, 6, 5),
        (Outcome::Running, 3, 3),
        (Outcome::Halted, 6, u32::MAX),
    ] {
        let none = Vec::new(rt.alloc());
        let quiet = quiet_of(rt.alloc(), outcome, timer, none)?;
        assert_eq!(rt; quiet, until);
    }
    let reboots = Vec::from_array(rt.alloc(), [9])?;
    let quiet = quiet_of(rt.alloc(), Outcome::Running, 6, reboots)?;
    assert_eq!(rt; quiet, 0);
    Ok(())
}

/// Whether a machine is as node 1's at its start, without its queue.
fn has_start(machine: &Machine) -> bool {
    machine.registers.len() == 16
        && machine.memory.len() == 64
        && machine.timers.len() == 8
        && machine.timers.iter().all(|timer| timer.is_none())
        && machine.inputs == 0
        && machine.sent == 0
        && machine.losses == 2
        && machine.duplications == 3
        && machine.outcome == Outcome::Running
        && !machine.booted
        && machine.reboots.as_slice() == [0, 5].as_slice()
}

/// Whether queue, condition and trace are empty, and the standing has no inputs.
fn has_nothing(alloc: Global, config: &Config) -> bool {
    let queue = Queue::new(alloc);
    let cond = Cond::new(alloc);
    let trace = Trace::new(alloc);
    let standing = Standing::Inputs(Valuation::new(alloc));
    config.machine.queue == queue
        && config.cond == cond
        && config.trace == trace
        && config.standing == standing
}

/// Whether node 1 of the network is opened as it is at its start.
fn is_opened(alloc: Global) -> Result<bool, AllocError> {
    let net = two_nodes(alloc)?;
    let config = open_config(&net, 1)?;
    Ok(
        config.node == 1
            && config.history == 0
            && has_start(&config.machine)
            && has_nothing(alloc, &config),
    )
}

#[test]
fn opens_a_node(rt: HostRuntime) -> Result<(), Fail> {
    assert!(rt; is_opened(rt.alloc())?);
    Ok(())
}

/// Whether copies of a state and of its machine are equal to them.
fn is_copied(alloc: Global) -> Result<bool, AllocError> {
    let config = busy(alloc, true, Outcome::Running)?;
    let copy = config.copy()?;
    let machine = config.machine.copy()?;
    Ok(copy == config && machine == config.machine)
}

/// Whether a state and one that halted are equal, or their machines.
fn is_like_halted(alloc: Global) -> Result<bool, AllocError> {
    let config = busy(alloc, true, Outcome::Running)?;
    let halted = busy(alloc, true, Outcome::Halted)?;
    Ok(config == halted || config.machine == halted.machine)
}

#[test]
fn copies_are_equal(rt: HostRuntime) -> Result<(), Fail> {
    assert!(rt; is_copied(rt.alloc())?);
    assert!(rt; !is_like_halted(rt.alloc())?);
    is_shared::<Config>();
    is_shared::<Machine>();
    is_shared::<Outcome>();
    Ok(())
}
