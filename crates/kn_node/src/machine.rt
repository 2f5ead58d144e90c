//! What a node's program reads and changes.

ghost use Rattle.std.specs.Prelude.{◌≡◌, ◌↔◌, IfOk, IsTrue};
ghost use Rattle.kn_node.specs.Equality.{machine_eq, stores_eq, counts_eq, course_eq};
ghost use Rattle.kn_node.specs.Views.{IsMachine};

use kn_packet::Queue;
use kn_term::Ref;
use std::alloc::AllocError;
use std::marker::Model;

/// Why a node failed.
#[derive(Clone, Copy, Debug, PartialEq, Eq)]
pub enum FailKind {
    /// An assertion on 0.
    Assert,
    /// An index out of range.
    Bounds,
    /// Too many instructions, inputs or packets.
    Fuel,
}

/// What became of a node: it runs on, it halted, or it failed at an instruction, by its index, in a tick.
#[derive(Clone, Copy, Debug, PartialEq, Eq)]
pub enum Outcome {
    Running,
    Halted,
    Failed { kind: FailKind, pc: u16, tick: u32 },
}

/// What a node's events read and change: 16 registers and 64 words of memory, all over the terms that it is kept with;
/// the tick that each of 8 timers is set to; the packets that wait; how many inputs it made and packets it sent, at most
/// 65,535 each; the losses and duplications that are left; what became of it; whether boot has run; and the reboot ticks
/// that are not decided yet.
#[derive(Debug, Drop)]
pub struct Machine {
    pub registers: Vec<Ref>,
    pub memory: Vec<Ref>,
    pub timers: Vec<Option<u32>>,
    pub queue: Queue,
    pub inputs: u32,
    pub sent: u32,
    pub losses: u8,
    pub duplications: u8,
    pub outcome: Outcome,
    pub booted: bool,
    pub reboots: Vec<u32>,
}

impl Model for Machine {
    ghost use Rattle.kn_node.specs.Views.{MachineView, IsMachine};

    ghost Value = { MachineView };

    ghost view = { λ m. record { registers = m.registers.items; memory = m.memory.items; timers = m.timers.items; queue = m.queue; inputs = m.inputs; sent = m.sent; losses = m.losses; duplications = m.duplications; outcome = m.outcome; booted = m.booted; reboots = m.reboots.items } };

    ghost invariant = { λ m. IsMachine m.registers.items m.memory.items m.timers.items m.inputs m.sent };
}

impl Machine {
    /// An equal machine. Err is want of memory.
    pub fn copy(&self) -> Result<Machine, AllocError>
        ensures { IfOk result (λ m. m ≡ self.now) }
    {
        let alloc = *self.registers.allocator();
        Ok(Machine {
            registers: Vec::from_slice(alloc, self.registers.as_slice())?,
            memory: Vec::from_slice(alloc, self.memory.as_slice())?,
            timers: Vec::from_slice(alloc, self.timers.as_slice())?,
            queue: self.queue.copy()?,
            inputs: self.inputs,
            sent: self.sent,
            losses: self.losses,
            duplications: self.duplications,
            outcome: self.outcome,
            booted: self.booted,
            reboots: Vec::from_slice(alloc, self.reboots.as_slice())?,
        })
    }

    /// How many registers, words of memory and timers there are, and how many inputs and packets at most, for a caller
    /// that needs it in a proof.
    pub fn sizes(&self)
        ensures { IsMachine self.now.registers self.now.memory self.now.timers self.now.inputs self.now.sent }
    {
        let _ = &self.registers;
    }
}

impl PartialEq for Machine {
    ghost use Rattle.kn_node.specs.Equality.{machine_eq, machine_per};

    ghost eq = { machine_eq };

    ghost laws = { machine_per };

    /// Two machines are equal exactly where all their fields are.
    fn eq(&self, other: &Machine) -> bool
        ensures eq { result ≡ machine_eq self.now other.now }
        ensures same { IsTrue result ↔ (self.now ≡ other.now) }
    {
        is_same_machine(self, other)
    }
}

/// Whether all fields of two machines are equal.
fn is_same_machine(m: &Machine, n: &Machine) -> bool
    ensures { result ≡ machine_eq m.now n.now }
{
    has_same_stores(m, n) && has_same_counts(m, n) && has_same_course(m, n)
}

/// Whether registers, memory, timers and packets are equal.
fn has_same_stores(m: &Machine, n: &Machine) -> bool
    ensures { result ≡ stores_eq m.now n.now }
{
    m.registers == n.registers && m.memory == n.memory && m.timers == n.timers && m.queue == n.queue
}

/// Whether what was made and sent, and what is left of losses and duplications, are equal.
fn has_same_counts(m: &Machine, n: &Machine) -> bool
    ensures { result ≡ counts_eq m.now n.now }
{
    m.inputs == n.inputs
        && m.sent == n.sent
        && m.losses == n.losses
        && m.duplications == n.duplications
}

/// Whether outcome, boot and reboots are equal.
fn has_same_course(m: &Machine, n: &Machine) -> bool
    ensures { result ≡ course_eq m.now n.now }
{
    m.outcome == n.outcome && m.booted == n.booted && m.reboots == n.reboots
}
