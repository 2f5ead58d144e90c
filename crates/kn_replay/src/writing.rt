//! The text of a run.

ghost use Rattle.std.specs.Prelude.{◌≡◌, ◌++◌, codes, decimal, flat_map, length, string_bytes, IfOk, OnOk};
ghost use Rattle.kn_trace.specs.Text.{text_of};
ghost use Rattle.kn_conc.specs.Views.{kind_of, outcome_of};
ghost use Rattle.kn_report.specs.Texts.{kind_text, numbered_from, outcome_text};
ghost use Rattle.kn_replay.specs.Views.{states_in};
ghost use Rattle.kn_replay.specs.Texts.{event_text, line_text, node_text, head_text, end_text, replay_text};
ghost use Rattle.kn_replay.specs.Tellings.{TextTells};

use crate::line::RunLine;
use crate::run::{Run, failed_count};
use kn_conc::ConcNode;
use kn_node::{FailKind, Outcome};
use kn_packet::Event;
use kn_plan::Net;
use kn_trace::Trace;
use std::alloc::{AllocError, Global};

/// The text of a network's run: a head, a line for each event and each node, and an end. Err is want of memory.
pub fn text(net: &Net, run: &Run) -> Result<String, AllocError>
    ensures { IfOk result (λ t. string_bytes t ≡ replay_text net.now.network run.now.events (states_in run.now.nodes)) }
{
    let mut text = head_line(*net.links.allocator(), net)?;
    put_events(&mut text, &run.events)?;
    put_nodes(&mut text, &run.nodes)?;
    put_end(&mut text, run)?;
    Ok(text)
}

/// The law that this text is that of the definitions' run: of its one scenario and its events.
pub fn text_tells()
    ensures { TextTells }
{}

/// The first line, with its line feed.
fn head_line(alloc: Global, net: &Net) -> Result<String, AllocError>
    ensures { IfOk result (λ t. string_bytes t ≡ head_text net.now.network) }
{
    let ticks = net.limits.ticks;
    let nodes = net.nodes.len();
    format!(in alloc; "replay 1 ticks {ticks} nodes {nodes}\n")
}

/// Appends the line of an event.
fn put_line(text: &mut String, line: &RunLine) -> Result<(), AllocError>
    ensures { OnOk result (string_bytes text.new ≡ string_bytes text.old ++ line_text line.now) }
{
    let tick = line.tick;
    let node = line.node;
    write!(text, "tick {tick} node {node} event ")?;
    put_event(text, line.event)?;
    put_bits(text, &line.bits)
}

fn put_event(text: &mut String, event: Event) -> Result<(), AllocError>
    ensures { OnOk result (string_bytes text.new ≡ string_bytes text.old ++ event_text event) }
{
    match event {
        Event::Boot => text.push_str("boot"),
        Event::Reboot => text.push_str("reboot"),
        Event::Packet { from, seq, copy } => write!(text, "packet {from}.{seq}.{copy}"),
        Event::Timer { number } => write!(text, "timer {number}"),
    }
}

/// Appends the bits of an event, and a line feed.
fn put_bits(text: &mut String, bits: &Trace) -> Result<(), AllocError>
    ensures { OnOk result (string_bytes text.new ≡ string_bytes text.old ++ (codes " bits " ++ (text_of bits.now ++ codes "\n"))) }
{
    text.push_str(" bits ")?;
    text.push_str(&bits.text()?)?;
    text.push_str("\n")
}

fn kind_word(kind: FailKind) -> &'static str
    ensures { result.now ≡ kind_text (kind_of kind) }
{
    match kind {
        FailKind::Assert => "assert",
        FailKind::Bounds => "bounds",
        FailKind::Fuel => "fuel",
    }
}

fn put_outcome(text: &mut String, outcome: Outcome) -> Result<(), AllocError>
    ensures { OnOk result (string_bytes text.new ≡ string_bytes text.old ++ outcome_text (outcome_of outcome)) }
{
    match outcome {
        Outcome::Running => text.push_str("running"),
        Outcome::Halted => text.push_str("halted"),
        Outcome::Failed { kind, pc, tick } => {
            let word = kind_word(kind);
            write!(text, "{word}@{pc}@{tick}")
        }
    }
}

/// Appends a trace and the word behind it.
fn put_trace(text: &mut String, trace: &Trace) -> Result<(), AllocError>
    ensures { OnOk result (string_bytes text.new ≡ string_bytes text.old ++ (text_of trace.now ++ codes " outcome ")) }
{
    text.push_str(&trace.text()?)?;
    text.push_str(" outcome ")
}

/// Appends the line of a node.
fn put_node(text: &mut String, number: usize, node: &ConcNode) -> Result<(), AllocError>
    ensures { OnOk result (string_bytes text.new ≡ string_bytes text.old ++ node_text number node.now.state) }
{
    write!(text, "node {number} trace ")?;
    put_trace(text, &node.trace)?;
    put_outcome(text, node.outcome)?;
    text.push_str("\n")
}

/// Appends the lines of events.
fn put_events(text: &mut String, events: &[RunLine]) -> Result<(), AllocError>
    ensures { OnOk result (string_bytes text.new ≡ string_bytes text.old ++ flat_map line_text events.now) }
{
    for line in events {
        put_line(text, line)?;
    }
    Ok(())
}

/// Appends the lines of nodes.
fn put_nodes(text: &mut String, nodes: &[ConcNode]) -> Result<(), AllocError>
    ensures { OnOk result (string_bytes text.new ≡ string_bytes text.old ++ numbered_from node_text 0 (states_in nodes.now)) }
{
    for (number, node) in nodes.iter().enumerate() {
        put_node(text, number, node)?;
    }
    Ok(())
}

/// Appends the last line.
fn put_end(text: &mut String, run: &Run) -> Result<(), AllocError>
    ensures { OnOk result (string_bytes text.new ≡ string_bytes text.old ++ end_text (states_in run.now.nodes)) }
{
    let failed = failed_count(run);
    write!(text, "end failed {failed}\n")
}
