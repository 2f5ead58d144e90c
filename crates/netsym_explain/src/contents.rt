//! What an accepted file holds, in sentences.

use crate::shown::counted;
use kn_code::Program;
use kn_plan::{Link, Name, Net, NodePlan};
use std::alloc::{AllocError, Global};

/// The handlers' labels, in the order of a program's handlers.
const HANDLERS: [&str; 10] = [
    "boot", "recv", "timer0", "timer1", "timer2", "timer3", "timer4", "timer5", "timer6", "timer7",
];

/// A name as text; a file's names are ASCII.
fn text_of(name: Option<&Name>) -> &str {
    match name {
        Some(name) => std::str::from_utf8(&name.bytes).unwrap_or(""),
        None => "",
    }
}

/// A program's length and where its handlers begin.
fn program_sentence(alloc: Global, name: &str, program: &Program) -> Result<String, AllocError> {
    let instructions = counted(alloc, program.instrs.len(), "instruction")?;
    let mut text = format!(in alloc; "Program {name}: {instructions}")?;
    for (label, entry) in HANDLERS.iter().zip(program.handlers.iter()) {
        if let Some(index) = entry {
            text.push_str(&format!(in alloc; ", {label} at {index}")?)?;
        }
    }
    text.push_str("\n")?;
    Ok(text)
}

/// A node's program, and what may go wrong with it.
fn node_sentence(
    alloc: Global,
    node: usize,
    name: &str,
    plan: &NodePlan,
) -> Result<String, AllocError> {
    let mut text = format!(in alloc; "Node {node}: runs {name}")?;
    let (loss, duplicate) = (plan.loss, plan.duplicate);
    if 0 < loss {
        let packets = counted(alloc, loss as usize, "packet")?;
        text.push_str(&format!(in alloc; ", may lose {packets}")?)?;
    }
    if 0 < duplicate {
        let packets = counted(alloc, duplicate as usize, "packet")?;
        text.push_str(&format!(in alloc; ", may be given {packets} twice")?)?;
    }
    if !plan.reboot.is_empty() {
        let ticks = counted(alloc, plan.reboot.len(), "tick")?;
        text.push_str(&format!(in alloc; ", may reboot at {ticks}")?)?;
    }
    text.push_str("\n")?;
    Ok(text)
}

/// A link's ends and delay.
fn link_sentence(alloc: Global, number: usize, link: &Link) -> Result<String, AllocError> {
    let (from, to) = (link.from, link.to);
    let ticks = counted(alloc, link.delay as usize, "tick")?;
    format!(in alloc; "Link {number}: from node {from} to node {to} in {ticks}\n")
}

/// How much there is of each.
fn counts_sentence(alloc: Global, net: &Net) -> Result<String, AllocError> {
    let nodes = counted(alloc, net.nodes.len(), "node")?;
    let programs = counted(alloc, net.programs.len(), "program")?;
    let links = counted(alloc, net.links.len(), "link")?;
    let ticks = counted(alloc, net.limits.ticks as usize, "tick")?;
    format!(in alloc; "It has {nodes}, {programs} and {links}, and runs for {ticks}.\n")
}

/// What a network holds: its programs, nodes and links.
pub fn contents(alloc: Global, net: &Net) -> Result<String, AllocError> {
    let mut text = counts_sentence(alloc, net)?;
    for (name, program) in net.names.iter().zip(net.programs.iter()) {
        text.push_str(&program_sentence(alloc, text_of(Some(name)), program)?)?;
    }
    text.push_str(&nodes_text(alloc, net)?)?;
    text.push_str(&links_text(alloc, net)?)?;
    Ok(text)
}

fn nodes_text(alloc: Global, net: &Net) -> Result<String, AllocError> {
    let mut text = String::new(alloc);
    for (node, plan) in net.nodes.iter().enumerate() {
        let name = text_of(net.names.get(plan.program));
        text.push_str(&node_sentence(alloc, node, name, plan)?)?;
    }
    Ok(text)
}

fn links_text(alloc: Global, net: &Net) -> Result<String, AllocError> {
    let mut text = String::new(alloc);
    for (number, link) in net.links.iter().enumerate() {
        text.push_str(&link_sentence(alloc, number, link)?)?;
    }
    Ok(text)
}
