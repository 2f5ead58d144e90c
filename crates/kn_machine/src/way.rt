//! A way through an event.

ghost use Rattle.std.specs.Prelude.{◌≡◌, ◌-◌, ◌<◌, ◌≤◌, ◌^◌, ◌++◌, length, IfOk, slice_index_or, slice_set};
ghost use Rattle.kn_term.specs.Terms.{Word, Input, Apply, Choice};
ghost use Rattle.kn_term.specs.Nodes.{term_at};
ghost use Rattle.kn_model.specs.Terms.{terms};
ghost use Rattle.kn_model.specs.Nodes.{is_running};
ghost use Rattle.kn_model.specs.Rows.{next, jump, register, with_register, with_memory, with_timer};
ghost use Rattle.kn_model.specs.Paths.{first_way, path_of};
ghost use Rattle.kn_model.specs.Alikes.{TermAlike, AlikePath};
ghost use Rattle.kn_machine.specs.Views.{state_of, own_of};
ghost use Rattle.kn_machine.specs.Ways.{way_of, known_of, IsStill, IsGrown};
ghost use Rattle.kn_machine.specs.Paths.{path_seen};

use crate::path::Path;
use kn_cond::{Cond, Standing};
use kn_node::{Config, Machine, Outcome};
use kn_packet::Packet;
use kn_simplify::{apply, ite};
use kn_term::{Ref, Terms};
use kn_trace::Trace;
use kn_word::Op;
use std::alloc::{AllocError, Global};
use std::marker::Model;

/// A way so far: its machine and the terms that all is over, what is known so far and of the inputs that meet it, how many
/// literals of that are of before the event, the trace of before the event, the instruction that comes next, the bits and
/// literals of the event so far, and what it sent.
#[derive(Drop)]
pub struct Way {
    pub machine: Machine,
    pub terms: Terms,
    pub cond: Cond,
    pub standing: Standing,
    pub own: usize,
    pub trace: Trace,
    pub pc: u16,
    pub bits: Trace,
    pub literals: Cond,
    pub sends: Vec<Packet>,
}

impl Model for Way {
    ghost use Rattle.kn_machine.specs.Ways.{WayView, IsWay};

    ghost Value = { WayView };

    ghost view = { λ w. record { machine = w.machine; terms = w.terms; cond = w.cond; standing = w.standing; own = w.own; trace = w.trace; pc = w.pc; bits = w.bits; literals = w.literals; sends = w.sends.items } };

    ghost invariant = { λ w. IsWay w.terms w.machine.registers w.machine.memory w.cond w.own w.literals };
}

impl Way {
    /// The way of an event that begins in a state.
    pub fn new(alloc: Global, c: Config) -> Way
        ensures way { way_of result ≡ first_way terms (state_of c) }
        ensures known { known_of result ≡ own_of c }
        ensures standing { result.standing ≡ c.standing }
        ensures machine { result.machine ≡ c.machine }
    {
        let Config {
            machine,
            terms,
            cond,
            trace,
            standing,
            ..
        } = c;
        let own = cond.literals().len();
        Way {
            machine,
            terms,
            cond,
            standing,
            own,
            trace,
            pc: 0,
            bits: Trace::new(alloc),
            literals: Cond::new(alloc),
            sends: Vec::new(alloc),
        }
    }

    /// An equal way; all terms are shared by both. Err is want of memory.
    pub fn fork(&mut self) -> Result<Way, AllocError>
        ensures fork { IfOk result (λ w. w ≡ self.old) }
        ensures same { self.new ≡ self.old }
    {
        self.freeze()?;
        // What takes least to let go of comes first, as the check has to look at what is let go of where memory is wanting.
        Ok(Way {
            own: self.own,
            pc: self.pc,
            bits: self.bits.copy()?,
            trace: self.trace.copy()?,
            literals: self.literals.copy()?,
            cond: self.cond.copy()?,
            standing: self.standing.copy()?,
            terms: self.terms.copy()?,
            sends: copy_packets(*self.sends.allocator(), &self.sends)?,
            machine: self.machine.copy()?,
        })
    }

    /// A word as a term.
    pub fn konst(&mut self, word: u16) -> Result<Ref, AllocError>
        ensures term { IfOk result (λ r. TermAlike (term_at self.new.terms r.index) (Word word)) }
        ensures stands { IfOk result (λ r. r.index < length self.new.terms) }
        ensures grows { IfOk result (λ r. IsGrown self.old self.new) }
    {
        self.terms.konst(word)
    }

    /// The input of a node by its index, with 1 to 16 bits, as a term.
    pub fn input(&mut self, node: u32, index: u32, width: u32) -> Result<Ref, AllocError>
        requires least { 1 ≤ width }
        requires most { width ≤ 16 }
        ensures term { IfOk result (λ r. TermAlike (term_at self.new.terms r.index) (Input node index width)) }
        ensures stands { IfOk result (λ r. r.index < length self.new.terms) }
        ensures grows { IfOk result (λ r. IsGrown self.old self.new) }
    {
        self.terms.input(node, index, width)
    }

    /// What an operator makes of two terms, as a simpler term.
    pub fn apply(&mut self, op: Op, x: Ref, y: Ref) -> Result<Ref, AllocError>
        requires x { x.index < length self.old.terms }
        requires y { y.index < length self.old.terms }
        ensures term { IfOk result (λ r. TermAlike (term_at self.new.terms r.index) (Apply op (term_at self.old.terms x.index) (term_at self.old.terms y.index))) }
        ensures stands { IfOk result (λ r. r.index < length self.new.terms) }
        ensures grows { IfOk result (λ r. IsGrown self.old self.new) }
    {
        apply(&mut self.terms, op, x, y)
    }

    /// The second term where the first is not 0, else the third, as a simpler term.
    pub fn choose(&mut self, c: Ref, x: Ref, y: Ref) -> Result<Ref, AllocError>
        requires c { c.index < length self.old.terms }
        requires x { x.index < length self.old.terms }
        requires y { y.index < length self.old.terms }
        ensures term { IfOk result (λ r. TermAlike (term_at self.new.terms r.index) (Choice (term_at self.old.terms c.index) (term_at self.old.terms x.index) (term_at self.old.terms y.index))) }
        ensures stands { IfOk result (λ r. r.index < length self.new.terms) }
        ensures grows { IfOk result (λ r. IsGrown self.old self.new) }
    {
        ite(&mut self.terms, c, x, y)
    }

    /// A term of another list, as a term of this one.
    pub fn import(&mut self, other: &Terms, r: Ref) -> Result<Ref, AllocError>
        requires { r.index < length other.now }
        ensures term { IfOk result (λ s. TermAlike (term_at self.new.terms s.index) (term_at other.now r.index)) }
        ensures stands { IfOk result (λ s. s.index < length self.new.terms) }
        ensures grows { IfOk result (λ s. IsGrown self.old self.new) }
    {
        self.terms.import(other, r)
    }

    /// All terms are shared by later copies. Err is want of memory.
    pub fn freeze(&mut self) -> Result<(), AllocError>
        ensures { self.new ≡ self.old }
    {
        self.terms.freeze()
    }

    /// The term of a register, by its number below 16.
    pub fn register(&self, a: u8) -> Ref
        requires { a < 16 }
        ensures term { term_at self.now.terms result.index ≡ register terms (way_of self.now) a }
        ensures stands { result.index < length self.now.terms }
    {
        self.machine.registers[a as usize]
    }

    /// The term of a word of memory, by its place below 64.
    pub fn word(&self, place: usize) -> Ref
        requires { place < 64 }
        ensures term { term_at self.now.terms result.index ≡ slice_index_or (way_of self.now).state.memory place (Word 0) }
        ensures stands { result.index < length self.now.terms }
    {
        self.machine.memory[place]
    }

    /// Sets a register, by its number below 16.
    pub fn set_register(&mut self, a: u8, r: Ref)
        requires register { a < 16 }
        requires stands { r.index < length self.old.terms }
        ensures way { way_of self.new ≡ with_register terms (way_of self.old) a (term_at self.old.terms r.index) }
        ensures still { IsStill self.old self.new }
    {
        self.machine.registers[a as usize] = r;
    }

    /// Sets a word of memory, by its place below 64.
    pub fn set_word(&mut self, place: usize, r: Ref)
        requires place { place < 64 }
        requires stands { r.index < length self.old.terms }
        ensures way { way_of self.new ≡ with_memory terms (way_of self.old) (slice_set (way_of self.old).state.memory place (term_at self.old.terms r.index)) }
        ensures still { IsStill self.old self.new }
    {
        self.machine.memory[place] = r;
    }

    /// Sets a timer to a tick, or unsets it, by its number below 8.
    pub fn set_timer(&mut self, number: u8, tick: Option<u32>)
        requires { number < 8 }
        ensures way { way_of self.new ≡ with_timer terms (way_of self.old) number tick }
        ensures still { IsStill self.old self.new }
    {
        self.machine.timers[number as usize] = tick;
    }

    /// Goes to the next instruction.
    pub fn advance(&mut self)
        requires { self.old.pc < 2 ^ 16 - 1 }
        ensures way { way_of self.new ≡ next terms (way_of self.old) }
        ensures still { IsStill self.old self.new }
    {
        self.pc += 1;
    }

    /// Goes to an instruction.
    pub fn jump(&mut self, to: u16)
        ensures way { way_of self.new ≡ jump terms (way_of self.old) to }
        ensures still { IsStill self.old self.new }
    {
        self.pc = to;
    }

    /// Whether the node runs on.
    pub fn is_running(&self) -> bool
        ensures { result ≡ is_running (way_of self.now).state.outcome }
    {
        self.machine.outcome == Outcome::Running
    }

    /// The path of a way that has ended. Copies of its state share all terms. Err is want of memory.
    pub fn finish(self, node: u32, history: usize) -> Result<Path, AllocError>
        ensures path { IfOk result (λ p. AlikePath (path_seen p) (path_of terms (way_of self))) }
        ensures own { IfOk result (λ p. own_of p.config ≡ known_of self) }
        ensures standing { IfOk result (λ p. p.config.standing ≡ self.standing) }
        ensures node { IfOk result (λ p. p.config.node ≡ node) }
        ensures history { IfOk result (λ p. p.config.history ≡ history) }
        ensures sends { IfOk result (λ p. p.sends ≡ self.sends) }
    {
        let mut way = self;
        way.freeze()?;
        let Way {
            machine,
            terms,
            cond,
            standing,
            trace,
            bits,
            literals,
            sends,
            ..
        } = way;
        let mut trace = trace;
        trace.extend(&bits)?;
        Ok(Path {
            bits,
            config: Config {
                node,
                machine,
                terms,
                cond,
                trace,
                history,
                standing,
            },
            sends,
            literals,
        })
    }
}

/// Equal packets, in the same order. Err is want of memory.
pub fn copy_packets(alloc: Global, packets: &[Packet]) -> Result<Vec<Packet>, AllocError>
    ensures { IfOk result (λ v. v.items ≡ packets.now) }
{
    let mut copies = Vec::with_capacity(alloc, packets.len())?;
    for packet in packets {
        copies.push(packet.copy()?)?;
    }
    Ok(copies)
}
