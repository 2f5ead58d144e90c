//! Runs of small networks on given inputs, whose texts were worked out by hand.

ghost use Rattle.std.specs.Prelude.{◌≡◌, ◌≤◌, ◌∷◌, [], IfOk};

mod rows;

use super::*;
use kn_code::{Program, decode};
use kn_plan::{Limits, Link, Name, Net, NodePlan};
use kn_term::Valuation;
use rows::{CASES, Case, LEAF, RELAY, SINK, TREE};
use std::alloc::{AllocError, Global};
use std::test::Fail;

fn is_shared<T: Send + Sync>() {}

/// The program of these instructions. Its handlers boot, recv and timer 0 begin where `handlers` says, or are absent where
/// that is 255; all others are absent.
fn program(alloc: Global, handlers: [u8; 3], instrs: &[[u8; 8]]) -> Result<Program, AllocError> {
    let mut bytes = Vec::from_array(alloc, [0, instrs.len().min(200) as u8])?;
    for handler in handlers {
        let high = if handler == 255 { 255 } else { 0 };
        bytes.extend_from_slice(&[high, handler])?;
    }
    bytes.extend_from_slice(&[255; 14])?;
    for instr in instrs {
        bytes.extend_from_slice(instr)?;
    }
    decode(alloc, &bytes).map_err(|_| AllocError)
}

fn plan(
    alloc: Global,
    program: usize,
    loss: u8,
    duplicate: u8,
    reboot: u32,
) -> Result<NodePlan, AllocError>
    ensures { IfOk result (λ p. p ≡ record { program = program; loss = loss; duplicate = duplicate; reboot = reboot ∷ [] }) }
{
    Ok(NodePlan {
        program,
        loss,
        duplicate,
        reboot: Vec::from_array(alloc, [reboot])?,
    })
}

fn name(alloc: Global, letter: u8) -> Result<Name, AllocError>
    ensures { IfOk result (λ n. n ≡ letter ∷ []) }
{
    Ok(Name {
        bytes: Vec::from_array(alloc, [letter])?,
    })
}

fn limits(ticks: u32) -> Limits
    ensures { result ≡ record { ticks = ticks; fuel = 16; conflicts = 1; states = 64; dstates = 1 } }
{
    Limits {
        ticks,
        fuel: 16,
        conflicts: 1,
        states: 64,
        dstates: 1,
    }
}

/// A link of one tick.
fn link(from: u32, to: u32) -> Link
    ensures { result ≡ record { from = from; to = to; delay = 1 } }
{
    Link { from, to, delay: 1 }
}

/// Two nodes with these programs and a link from node 0 to node 1, for three ticks.
fn two_nodes(
    alloc: Global,
    programs: (Program, Program),
    delay: u32,
    loss: u8,
    duplicate: u8,
    reboot: u32,
) -> Result<Net, AllocError>
    requires least { 1 ≤ delay }
    requires delay { delay ≤ 9 }
    requires loss { loss ≤ 15 }
    requires duplicate { duplicate ≤ 15 }
    requires reboot { reboot ≤ 4095 }
{
    Ok(Net {
        programs: Vec::from_array(alloc, [programs.0, programs.1])?,
        nodes: Vec::from_array(
            alloc,
            [
                plan(alloc, 0, 0, 0, 4000)?,
                plan(alloc, 1, loss, duplicate, reboot)?,
            ],
        )?,
        links: Vec::from_array(
            alloc,
            [Link {
                from: 0,
                to: 1,
                delay,
            }],
        )?,
        limits: limits(3),
        names: Vec::from_array(alloc, [name(alloc, b'a')?, name(alloc, b'b')?])?,
        inputs: Valuation::new(alloc),
    })
}

/// The network of a case.
fn net_of(alloc: Global, case: &Case) -> Result<Net, AllocError> {
    let sender = program(alloc, [0, 255, 255], case.sender)?;
    let receiver = program(alloc, case.handlers, case.receiver)?;
    two_nodes(
        alloc,
        (sender, receiver),
        case.delay.clamp(1, 9),
        case.loss.min(15),
        case.duplicate.min(15),
        case.reboot.min(4095),
    )
}

/// A node of the tree, which may lose one packet.
fn tree_node(alloc: Global, program: usize) -> Result<NodePlan, AllocError>
    ensures { IfOk result (λ p. p ≡ record { program = program; loss = 1; duplicate = 0; reboot = [] }) }
{
    Ok(NodePlan {
        program,
        loss: 1,
        duplicate: 0,
        reboot: Vec::new(alloc),
    })
}

/// The tree, for twelve ticks.
fn tree(alloc: Global) -> Result<Net, AllocError> {
    Ok(Net {
        programs: Vec::from_array(
            alloc,
            [
                program(alloc, [0, 2, 7], SINK)?,
                program(alloc, [255, 0, 255], RELAY)?,
                program(alloc, [0, 255, 2], LEAF)?,
            ],
        )?,
        nodes: Vec::from_array(
            alloc,
            [
                tree_node(alloc, 0)?,
                tree_node(alloc, 1)?,
                tree_node(alloc, 1)?,
                tree_node(alloc, 2)?,
                tree_node(alloc, 2)?,
                tree_node(alloc, 2)?,
            ],
        )?,
        links: Vec::from_array(
            alloc,
            [link(1, 0), link(2, 0), link(3, 1), link(4, 2), link(5, 0)],
        )?,
        limits: limits(12),
        names: Vec::from_array(
            alloc,
            [name(alloc, b'a')?, name(alloc, b'b')?, name(alloc, b'c')?],
        )?,
        inputs: Valuation::new(alloc),
    })
}

/// The text of a network's run, and how many of its nodes failed.
fn told(net: &Net, inputs: &Valuation) -> Result<(String, usize), AllocError> {
    let run = replay(net, inputs)?;
    Ok((text(net, &run)?, failed_count(&run)))
}

fn told_case(alloc: Global, case: &Case) -> Result<(String, usize), AllocError> {
    let net = net_of(alloc, case)?;
    let mut inputs = Valuation::new(alloc);
    for (index, word) in case.words.iter().enumerate() {
        inputs.set(1, index as u32, *word)?;
    }
    told(&net, &inputs)
}

fn told_tree(alloc: Global) -> Result<(String, usize), AllocError> {
    let net = tree(alloc)?;
    let mut inputs = Valuation::new(alloc);
    for node in 0..3 {
        inputs.set(node, 0, 1)?;
    }
    told(&net, &inputs)
}

#[test]
fn runs_are_told_event_by_event(rt: HostRuntime) -> Result<(), Fail> {
    is_shared::<Run>();
    for case in &CASES {
        let (text, failed) = told_case(rt.alloc(), case)?;
        assert_eq!(rt; text.as_str(), case.text, "{}", case.name);
        assert_eq!(rt; failed, case.failed, "{}", case.name);
    }
    Ok(())
}

#[test]
fn a_tree_that_loses_all_readings_fails(rt: HostRuntime) -> Result<(), Fail> {
    let (text, failed) = told_tree(rt.alloc())?;
    assert_eq!(rt; text.as_str(), TREE);
    assert_eq!(rt; failed, 1);
    Ok(())
}
