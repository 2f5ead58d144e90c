//! Nodes over words.

ghost use Rattle.std.specs.Prelude.{◌≡◌, ◌-◌, ◌≤◌, [], IfOk, OnOk, None, replicate};
ghost use Rattle.kn_model.specs.Packets.{packet_le, put_in};
ghost use Rattle.kn_model.specs.Nodes.{State, is_running};
ghost use Rattle.kn_conc.specs.Views.{IsNodeState};

use crate::packet::ConcPacket;
use crate::queue::{copy_packets, put};
use kn_node::Outcome;
use kn_trace::Trace;
use std::alloc::AllocError;
use std::marker::Model;

/// A node over words: its number, 16 registers and 64 words of memory; the tick that each of 8 timers is set to; the
/// packets that wait, in order of arrival, sender, sequence number and copy; how many inputs it made and packets it sent,
/// at most 65,535 each; the losses and duplications that are left; what became of it; whether boot has run; the reboot
/// ticks that are not decided yet; and the bits of its decisions.
#[derive(Debug, Drop)]
pub struct ConcNode {
    pub node: u32,
    pub registers: Vec<u16>,
    pub memory: Vec<u16>,
    pub timers: Vec<Option<u32>>,
    pub queue: Vec<ConcPacket>,
    pub inputs: u32,
    pub sent: u32,
    pub losses: u8,
    pub duplications: u8,
    pub outcome: Outcome,
    pub booted: bool,
    pub reboots: Vec<u32>,
    pub trace: Trace,
}

impl Model for ConcNode {
    ghost use Rattle.std.specs.Prelude.{[]};
    ghost use Rattle.kn_conc.specs.Views.{NodeView, IsNode, outcome_of};

    ghost Value = { NodeView };

    ghost view = { λ n. record { node = n.node; state = record { registers = n.registers.items; memory = n.memory.items; timers = n.timers.items; queue = n.queue.items; inputs = n.inputs; sent = n.sent; losses = n.losses; duplications = n.duplications; booted = n.booted; reboots = n.reboots.items; outcome = outcome_of n.outcome; trace = n.trace; own = [] } } };

    ghost invariant = { λ n. IsNode n.registers.items n.memory.items n.timers.items n.queue.items n.inputs n.sent };
}

impl ConcNode {
    /// A node that is equal but for its trace, which is empty. Err is want of memory.
    pub fn without_trace(&self) -> Result<ConcNode, AllocError>
        ensures { IfOk result (λ n. n ≡ record self.now { state = record self.now.state { trace = [] } }) }
    {
        let alloc = *self.registers.allocator();
        Ok(ConcNode {
            node: self.node,
            inputs: self.inputs,
            sent: self.sent,
            losses: self.losses,
            duplications: self.duplications,
            outcome: self.outcome,
            booted: self.booted,
            registers: Vec::from_slice(alloc, self.registers.as_slice())?,
            memory: Vec::from_slice(alloc, self.memory.as_slice())?,
            timers: Vec::from_slice(alloc, self.timers.as_slice())?,
            reboots: Vec::from_slice(alloc, self.reboots.as_slice())?,
            trace: Trace::new(alloc),
            queue: copy_packets(alloc, &self.queue)?,
        })
    }

    /// How many registers, words of memory and timers there are, how many inputs and packets at most, and that the queue
    /// is in order, for a caller that needs it in a proof.
    pub fn sizes(&self)
        ensures { IsNodeState self.now.state }
    {
        let _ = &self.registers;
    }

    /// Whether the node runs on.
    pub fn is_running(&self) -> bool
        ensures { result ≡ is_running self.now.state.outcome }
    {
        self.outcome == Outcome::Running
    }

    /// Registers, memory and timers are as at the start. Err is want of memory.
    pub fn clear(&mut self) -> Result<(), AllocError>
        ensures state { OnOk result (self.new.state ≡ record self.old.state { registers = replicate 16 0; memory = replicate 64 0; timers = replicate 8 None }) }
        ensures node { self.new.node ≡ self.old.node }
        ensures trace { self.new.state.trace ≡ self.old.state.trace }
    {
        let alloc = *self.registers.allocator();
        let registers = Vec::from_slice(alloc, &[0; 16])?;
        let memory = Vec::from_slice(alloc, &[0; 64])?;
        let timers = Vec::from_slice(alloc, &[None; 8])?;
        self.registers = registers;
        self.memory = memory;
        self.timers = timers;
        Ok(())
    }

    /// A duplication is used, and the copy of a packet waits. Err is want of memory.
    pub fn queue_copy(&mut self, copy: ConcPacket) -> Result<(), AllocError>
        requires { 1 ≤ self.old.state.duplications }
        ensures state { OnOk result (self.new.state ≡ record self.old.state { duplications = self.old.state.duplications - 1; queue = put_in packet_le copy self.old.state.queue }) }
        ensures node { self.new.node ≡ self.old.node }
        ensures trace { self.new.state.trace ≡ self.old.state.trace }
    {
        put(&mut self.queue, copy)?;
        self.duplications -= 1;
        Ok(())
    }
}
