//! Events of one node of a small network, on given inputs. What each leads to was worked out by hand.

ghost use Rattle.std.specs.Prelude.{◌≡◌, ◌<◌, ◌≤◌, ◌∷◌, [], length, IfOk};

use super::*;
use kn_code::{Program, decode};
use kn_node::{FailKind, Outcome};
use kn_plan::{Limits, Link, Name, Net, NodePlan};
use kn_term::Valuation;
use smallvec::SmallVec;
use std::alloc::{AllocError, Global};
use std::test::Fail;

fn is_shared<T: Send + Sync>() {}

/// How node 0 stands and what its program is, the ticks in which it runs an event, its first two inputs, and what becomes
/// of it. All its handlers begin at the first instruction. A packet with the words 7 and 9 waits for it.
struct Case {
    name: &'static str,
    /// Each instruction is its code, its fields a, b and c, and its fields p and q.
    instrs: &'static [[u8; 8]],
    loss: u8,
    duplicate: u8,
    reboot: u32,
    arrival: u32,
    ticks: [u32; 2],
    words: [u16; 2],
    /// Register 0, timer 3, and the bits of the trace.
    register: u16,
    timer: Option<u32>,
    trace: &'static str,
    outcome: Outcome,
    /// Inputs made, packets sent, and packets that wait.
    inputs: u32,
    sent: usize,
    waiting: usize,
}

const CONST_7: [u8; 8] = [0x01, 0, 0, 0, 0, 7, 0, 0];

const RECVW_1: [u8; 8] = [0x0f, 0, 0, 0, 0, 1, 0, 0];

const RET: [u8; 8] = [0x23, 0, 0, 0, 0, 0, 0, 0];

const HALT: [u8; 8] = [0x24, 0, 0, 0, 0, 0, 0, 0];

/// A packet's second word goes into register 0, in tick 1.
const MAIL: Case = Case {
    name: "a word of a packet",
    instrs: &[RECVW_1, RET],
    loss: 0,
    duplicate: 0,
    reboot: 8,
    arrival: 1,
    ticks: [1, 1],
    words: [0, 0],
    register: 9,
    timer: None,
    trace: "-",
    outcome: Outcome::Running,
    inputs: 0,
    sent: 0,
    waiting: 0,
};

/// A word goes into register 0 at boot, in tick 0, and the node halts.
const BOOT: Case = Case {
    name: "a word",
    instrs: &[CONST_7, HALT],
    ticks: [0, 0],
    register: 7,
    outcome: Outcome::Halted,
    waiting: 1,
    ..MAIL
};

const CASES: [Case; 16] = [
    MAIL,
    BOOT,
    Case {
        name: "an input, cut to 4 bits",
        instrs: &[[0x0a, 0, 0, 0, 0, 4, 0, 0], RET],
        words: [0xff, 0],
        register: 15,
        outcome: Outcome::Running,
        inputs: 1,
        ..BOOT
    },
    Case {
        name: "a branch on 0",
        instrs: &[[0x09, 0, 0, 0, 0, 2, 0, 0], HALT, CONST_7, RET],
        trace: "1",
        outcome: Outcome::Running,
        ..BOOT
    },
    Case {
        name: "memory at an index",
        instrs: &[
            [0x01, 1, 0, 0, 0, 2, 0, 0],
            [0x01, 2, 0, 0, 0, 7, 0, 0],
            [0x07, 2, 1, 0, 0, 4, 0, 3],
            [0x06, 0, 1, 0, 0, 4, 0, 3],
            HALT,
        ],
        trace: "00",
        ..BOOT
    },
    Case {
        name: "an index out of range",
        instrs: &[
            [0x01, 1, 0, 0, 0, 3, 0, 0],
            [0x06, 0, 1, 0, 0, 4, 0, 3],
            RET,
        ],
        register: 0,
        trace: "1",
        outcome: Outcome::Failed {
            kind: FailKind::Bounds,
            pc: 1,
            tick: 0,
        },
        ..BOOT
    },
    Case {
        name: "an assertion on 0",
        instrs: &[[0x20, 0, 0, 0, 0, 0, 0, 0], RET],
        register: 0,
        trace: "1",
        outcome: Outcome::Failed {
            kind: FailKind::Assert,
            pc: 0,
            tick: 0,
        },
        ..BOOT
    },
    Case {
        name: "too many instructions",
        instrs: &[[0x08, 0, 0, 0, 0, 0, 0, 0]],
        register: 0,
        outcome: Outcome::Failed {
            kind: FailKind::Fuel,
            pc: 0,
            tick: 0,
        },
        ..BOOT
    },
    Case {
        name: "a timer, set again where it comes due",
        instrs: &[[0x0b, 3, 0, 0, 0, 2, 0, 0], RET],
        ticks: [0, 2],
        register: 0,
        timer: Some(4),
        outcome: Outcome::Running,
        ..BOOT
    },
    Case {
        name: "a send over all links",
        instrs: &[CONST_7, [0x0e, 1, 0, 0, 0, 0, 0, 0], RET],
        outcome: Outcome::Running,
        sent: 1,
        ..BOOT
    },
    Case {
        name: "a packet that is lost, and so not doubled",
        loss: 1,
        duplicate: 1,
        words: [1, 1],
        register: 0,
        trace: "1",
        inputs: 1,
        ..MAIL
    },
    Case {
        name: "a packet that is neither lost nor doubled",
        loss: 1,
        duplicate: 1,
        trace: "00",
        inputs: 2,
        ..MAIL
    },
    Case {
        name: "a packet that is doubled: the copy waits for the next tick",
        duplicate: 1,
        words: [1, 1],
        trace: "1",
        inputs: 1,
        waiting: 1,
        ..MAIL
    },
    Case {
        name: "the copy is not doubled again",
        duplicate: 2,
        ticks: [1, 2],
        words: [1, 1],
        trace: "1",
        inputs: 1,
        ..MAIL
    },
    Case {
        name: "a reboot clears registers and runs boot, and the packet stays",
        reboot: 1,
        arrival: 2,
        words: [1, 0],
        register: 0,
        trace: "1",
        inputs: 1,
        waiting: 1,
        ..MAIL
    },
    Case {
        name: "no reboot, and then the packet",
        reboot: 1,
        trace: "0",
        inputs: 1,
        ..MAIL
    },
];

fn program(alloc: Global, instrs: &[[u8; 8]]) -> Result<Program, AllocError> {
    let mut bytes = Vec::from_array(alloc, [0, instrs.len().min(200) as u8])?;
    bytes.extend_from_slice(&[0; 20])?;
    for instr in instrs {
        bytes.extend_from_slice(instr)?;
    }
    match decode(alloc, &bytes) {
        Ok(program) => Ok(program),
        Err(_) => Err(AllocError),
    }
}

fn plan(alloc: Global, loss: u8, duplicate: u8, reboot: u32) -> Result<NodePlan, AllocError>
    ensures { IfOk result (λ p. p ≡ record { program = 0; loss = loss; duplicate = duplicate; reboot = reboot ∷ [] }) }
{
    Ok(NodePlan {
        program: 0,
        loss,
        duplicate,
        reboot: Vec::from_array(alloc, [reboot])?,
    })
}

fn name(alloc: Global) -> Result<Name, AllocError>
    ensures { IfOk result (λ n. n ≡ 97 ∷ []) }
{
    Ok(Name {
        bytes: Vec::from_array(alloc, [b'a'])?,
    })
}

/// Two nodes with a program, and a link from node 0 to node 1; at most 8 instructions in one event.
fn two_nodes(
    alloc: Global,
    program: Program,
    loss: u8,
    duplicate: u8,
    reboot: u32,
) -> Result<Net, AllocError>
    requires loss { loss ≤ 15 }
    requires duplicate { duplicate ≤ 15 }
    requires reboot { reboot ≤ 4095 }
    ensures { IfOk result (λ n. length n.network.nodes ≡ 2) }
{
    Ok(Net {
        programs: Vec::from_array(alloc, [program])?,
        nodes: Vec::from_array(
            alloc,
            [plan(alloc, loss, duplicate, reboot)?, plan(alloc, 0, 0, 0)?],
        )?,
        links: Vec::from_array(
            alloc,
            [Link {
                from: 0,
                to: 1,
                delay: 2,
            }],
        )?,
        limits: Limits {
            ticks: 9,
            fuel: 8,
            conflicts: 1,
            states: 2,
            dstates: 1,
        },
        names: Vec::from_array(alloc, [name(alloc)?])?,
        inputs: Valuation::new(alloc),
    })
}

/// A packet of node 1 to node 0, with the words 7 and 9.
fn mail(alloc: Global, arrival: u32) -> Result<ConcPacket, AllocError> {
    Ok(ConcPacket {
        from: 1,
        seq: 0,
        copy: 0,
        to: 0,
        arrival,
        payload: SmallVec::from_slice(alloc, &[7, 9])?,
    })
}

/// Runs the due event of a tick, if there is one; the answer is how many packets were sent.
fn step(net: &Net, node: &mut ConcNode, tick: u32, inputs: &Valuation) -> Result<usize, AllocError>
    requires { node.old.node < length net.now.network.nodes }
    ensures { IfOk result (λ n. node.new.node ≡ node.old.node) }
{
    if due_at(net, node, tick).is_none() {
        return Ok(0);
    }
    let sends = run_event_at(net, node, tick, inputs)?;
    Ok(sends.len())
}

/// Node 0 after a case, and how many packets it sent.
fn run(alloc: Global, case: &Case) -> Result<(ConcNode, usize), AllocError> {
    let program = program(alloc, case.instrs)?;
    let net = two_nodes(
        alloc,
        program,
        case.loss.min(15),
        case.duplicate.min(15),
        case.reboot.min(4095),
    )?;
    let mut inputs = Valuation::new(alloc);
    inputs.set(0, 0, case.words[0])?;
    inputs.set(0, 1, case.words[1])?;
    let mut node = open_at(&net, 0)?;
    queue_at(&mut node, &[mail(alloc, case.arrival)?])?;
    let first = step(&net, &mut node, case.ticks[0], &inputs)?;
    let second = step(&net, &mut node, case.ticks[1], &inputs)?;
    Ok((node, first.wrapping_add(second)))
}

#[test]
fn events_lead_where_they_should(rt: HostRuntime) -> Result<(), Fail> {
    is_shared::<ConcNode>();
    for case in &CASES {
        let (node, sent) = run(rt.alloc(), case)?;
        assert_eq!(rt;
            node.registers.first().copied(),
            Some(case.register),
            "{}",
            case.name
        );
        assert_eq!(rt;
            node.timers.get(3).copied(),
            Some(case.timer),
            "{}",
            case.name
        );
        assert_eq!(rt; node.trace.text()?.as_str(), case.trace, "{}", case.name);
        assert!(rt; node.outcome == case.outcome, "{}", case.name);
        assert_eq!(rt; node.inputs, case.inputs, "{}", case.name);
        assert_eq!(rt; node.queue.len(), case.waiting, "{}", case.name);
        assert_eq!(rt; sent, case.sent, "{}", case.name);
    }
    Ok(())
}
