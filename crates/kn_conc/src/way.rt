//! A way through an event.

ghost use Rattle.std.specs.Prelude.{◌≡◌, ◌<◌, ◌≤◌, ◌%◌, ◌^◌, ◌++◌, ◌∷◌, [], IfOk, OnOk, OnErr, slice_index_or, slice_set};
ghost use Rattle.kn_model.specs.Terms.{words, input_word};
ghost use Rattle.kn_model.specs.Nodes.{Failed};
ghost use Rattle.kn_model.specs.Rows.{counted, next, jump, register, with_register, with_memory, with_timer, with_outcome};
ghost use Rattle.kn_model.specs.Paths.{first_way};
ghost use Rattle.kn_conc.specs.Views.{kind_of, outcome_of};
ghost use Rattle.kn_conc.specs.Ways.{way_of, with_bit, with_packet};

use crate::node::ConcNode;
use crate::packet::ConcPacket;
use kn_node::{FailKind, Outcome};
use kn_term::Valuation;
use kn_trace::Trace;
use std::alloc::{AllocError, Global};

/// A way so far: its node, the instruction that comes next, the bits of the event so far, and what it sent.
#[derive(Drop)]
pub struct Way {
    pub node: ConcNode,
    pub pc: u16,
    pub bits: Trace,
    pub sends: Vec<ConcPacket>,
}

impl Way {
    /// The way of an event that begins at a node.
    pub fn new(alloc: Global, node: ConcNode) -> Way
        ensures way { way_of result ≡ first_way (words []) node.state }
        ensures node { result.node ≡ node }
    {
        Way {
            node,
            pc: 0,
            bits: Trace::new(alloc),
            sends: Vec::new(alloc),
        }
    }

    /// The bits of the event follow those of before in the node's trace. Err is want of memory, and leaves the trace.
    pub fn close(&mut self) -> Result<(), AllocError>
        ensures state { OnOk result (self.new.node.state ≡ record self.old.node.state { trace = self.old.node.state.trace ++ self.old.bits }) }
        ensures node { self.new.node.node ≡ self.old.node.node }
        ensures sends { self.new.sends ≡ self.old.sends }
        ensures err { OnErr result (self.new.node.state.trace ≡ self.old.node.state.trace) }
    {
        self.node.trace.extend(&self.bits)
    }

    /// The word of a register, by its number below 16.
    pub fn register(&self, a: u8) -> u16
        requires { a < 16 }
        ensures { result ≡ register (words []) (way_of self.now) a }
    {
        self.node.registers[a as usize]
    }

    /// A word of memory, by its place below 64.
    pub fn word(&self, place: usize) -> u16
        requires { place < 64 }
        ensures { result ≡ slice_index_or (way_of self.now).state.memory place 0 }
    {
        self.node.memory[place]
    }

    /// Sets a register, by its number below 16.
    pub fn set_register(&mut self, a: u8, word: u16)
        requires { a < 16 }
        ensures way { way_of self.new ≡ with_register (words []) (way_of self.old) a word }
        ensures node { self.new.node.node ≡ self.old.node.node }
        ensures trace { self.new.node.state.trace ≡ self.old.node.state.trace }
    {
        self.node.registers[a as usize] = word;
    }

    /// Sets a word of memory, by its place below 64.
    pub fn set_word(&mut self, place: usize, word: u16)
        requires { place < 64 }
        ensures way { way_of self.new ≡ with_memory (words []) (way_of self.old) (slice_set (way_of self.old).state.memory place word) }
        ensures node { self.new.node.node ≡ self.old.node.node }
        ensures trace { self.new.node.state.trace ≡ self.old.node.state.trace }
    {
        self.node.memory[place] = word;
    }

    /// Sets a timer to a tick, or unsets it, by its number below 8.
    pub fn set_timer(&mut self, number: u8, tick: Option<u32>)
        requires { number < 8 }
        ensures way { way_of self.new ≡ with_timer (words []) (way_of self.old) number tick }
        ensures node { self.new.node.node ≡ self.old.node.node }
        ensures trace { self.new.node.state.trace ≡ self.old.node.state.trace }
    {
        self.node.timers[number as usize] = tick;
    }

    /// The node halts, or fails.
    pub fn end(&mut self, outcome: Outcome)
        ensures way { way_of self.new ≡ with_outcome (words []) (way_of self.old) (outcome_of outcome) }
        ensures node { self.new.node.node ≡ self.old.node.node }
        ensures trace { self.new.node.state.trace ≡ self.old.node.state.trace }
    {
        self.node.outcome = outcome;
    }

    /// The node fails at the instruction that comes next.
    pub fn fail(&mut self, tick: u32, kind: FailKind)
        ensures way { way_of self.new ≡ with_outcome (words []) (way_of self.old) (Failed (kind_of kind) self.old.pc tick) }
        ensures node { self.new.node.node ≡ self.old.node.node }
        ensures trace { self.new.node.state.trace ≡ self.old.node.state.trace }
    {
        let pc = self.pc;
        self.end(Outcome::Failed { kind, pc, tick });
    }

    /// Goes to the next instruction.
    pub fn advance(&mut self)
        requires { self.old.pc < 65535 }
        ensures way { way_of self.new ≡ next (words []) (way_of self.old) }
        ensures node { self.new.node.node ≡ self.old.node.node }
        ensures trace { self.new.node.state.trace ≡ self.old.node.state.trace }
    {
        self.pc += 1;
    }

    /// Goes to an instruction.
    pub fn jump(&mut self, to: u16)
        ensures way { way_of self.new ≡ jump (words []) (way_of self.old) to }
        ensures node { self.new.node.node ≡ self.old.node.node }
        ensures trace { self.new.node.state.trace ≡ self.old.node.state.trace }
    {
        self.pc = to;
    }

    /// A decision is taken. Err is want of memory.
    pub fn decide(&mut self, bit: bool) -> Result<(), AllocError>
        ensures way { OnOk result (way_of self.new ≡ with_bit bit (way_of self.old)) }
        ensures node { self.new.node.node ≡ self.old.node.node }
        ensures trace { self.new.node.state.trace ≡ self.old.node.state.trace }
    {
        self.bits.push(bit)
    }

    /// A packet is sent. Err is want of memory.
    pub fn post(&mut self, packet: ConcPacket) -> Result<(), AllocError>
        requires { self.old.node.state.sent < 65535 }
        ensures way { OnOk result (way_of self.new ≡ with_packet packet (way_of self.old)) }
        ensures node { self.new.node.node ≡ self.old.node.node }
        ensures trace { self.new.node.state.trace ≡ self.old.node.state.trace }
    {
        self.sends.push(packet)?;
        self.node.sent += 1;
        Ok(())
    }

    /// The word of the node's next input of so many bits. Where a node has made 65,535 inputs, there is no next one.
    pub fn fresh_input(&self, inputs: &Valuation, node: u32, width: u16) -> u16
        requires least { 1 ≤ width }
        requires most { width ≤ 16 }
        ensures { result ≡ input_word inputs.now node (way_of self.now).state.inputs width }
    {
        let word = inputs.get(node, self.node.inputs);
        cut(word, width)
    }

    /// One more input was made.
    pub fn count_input(&mut self)
        requires { (way_of self.old).state.inputs ≡ 65535 → ⊥ }
        ensures way { way_of self.new ≡ counted (words []) (way_of self.old) }
        ensures node { self.new.node.node ≡ self.old.node.node }
        ensures trace { self.new.node.state.trace ≡ self.old.node.state.trace }
    {
        self.node.inputs += 1;
    }
}

/// The lowest bits of a word, 1 to 16 of them.
fn cut(word: u16, width: u16) -> u16
    requires least { 1 ≤ width }
    requires most { width ≤ 16 }
    ensures { result ≡ word % 2 ^ width }
{
    if width == 16 {
        return word;
    }
    word % (1 << width)
}
