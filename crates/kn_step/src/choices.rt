//! Failure choices: whether a packet is lost or doubled, and whether a node reboots.

ghost use Rattle.std.specs.Prelude.{◌≡◌, ◌∷◌, [], ◌<◌, ◌≤◌, ◌++◌, ◌-◌, ℕ, None, false, IfOk, OnOk, OnErr, length, replicate};
ghost use Rattle.kn_cond.specs.Conditions.{that, StandsFor};
ghost use Rattle.kn_cond.specs.Meanings.{literal_of};
ghost use Rattle.kn_term.specs.Terms.{Input};
ghost use Rattle.kn_term.specs.Nodes.{term_at};
ghost use Rattle.kn_packet.specs.Packets.{posted};
ghost use Rattle.kn_model.specs.Terms.{terms};
ghost use Rattle.kn_model.specs.Nets.{Network};
ghost use Rattle.kn_model.specs.Rows.{counted};
ghost use Rattle.kn_model.specs.Paths.{cleared, decided, doubled};
ghost use Rattle.kn_model.specs.Alikes.{TermAlike};
ghost use Rattle.kn_machine.specs.Views.{packet_of};
ghost use Rattle.kn_machine.specs.Ways.{way_of, known_of, AlikeWay, IsChanged, IsStill};
ghost use Rattle.kn_machine.specs.Effects.{here_of, IsIn, IsPlace};
ghost use Rattle.kn_step.specs.Turns.{IsOn, IsSound};
ghost use Rattle.kn_step.specs.Choices.{IsAnswer, IsChoice};

use crate::deciding::{Sides, decide, negated, sides_of};
use kn_cond::Standing;
use kn_machine::{Spot, Way};
use kn_node::Machine;
use kn_packet::Packet;
use kn_plan::Net;
use kn_solve::Judge;
use kn_term::{Literal, Ref};
use std::alloc::{AllocError, Global};

/// What comes of a failure choice.
#[derive(Drop)]
pub enum Choice {
    /// Nothing fails, and the way goes on.
    Stays,
    /// It fails, and the way goes on.
    Takes,
    /// Some inputs may meet either: nothing fails on this way, and it fails on the way that was asked for.
    Both(Way),
}

/// Whether something fails, which a fresh input of one bit tells: bit 0 where it is 0 and nothing fails. Where the node has
/// made 65,535 inputs nothing fails, and there is no bit. Err is want of memory.
pub fn choose<J: Judge>(
    net: &Net,
    spot: &Spot,
    judge: &mut J,
    way: &mut Way,
) -> Result<Choice, AllocError>
    requires place { IsIn net.now.network spot.now }
    requires sound { IsSound net.now.network.limits.conflicts way.old }
    ensures { IfOk result (IsChoice net.now.network spot.now way.old way.new) }
{
    // At most so many inputs are made, by the machine's type.
    way.machine.sizes();
    if way.machine.inputs == 65535 {
        return Ok(Choice::Stays);
    }
    let literal = ask(spot, way)?;
    choose_by(net, spot, judge, literal, way)
}

/// That the node's next input of one bit is 0, and the input is made. Err is want of memory.
fn ask(spot: &Spot, way: &mut Way) -> Result<Literal, AllocError>
    requires few { way.old.machine.inputs < 65535 }
    ensures term { IfOk result (λ l. TermAlike (term_at way.new.terms l.term.index) (Input spot.now.node way.old.machine.inputs 1)) }
    ensures truth { IfOk result (λ l. l.truth ≡ false) }
    ensures stands { IfOk result (λ l. l.term.index < length way.new.terms) }
    ensures way { IfOk result (λ l. way_of way.new ≡ counted terms (way_of way.old)) }
    ensures known { IfOk result (λ l. known_of way.new ≡ known_of way.old) }
    ensures standing { IfOk result (λ l. way.new.standing ≡ way.old.standing) }
    ensures sends { IfOk result (λ l. way.new.sends ≡ way.old.sends) }
{
    let index = way.machine.inputs;
    let term = way.input(spot.node, index, 1)?;
    way.machine.inputs += 1;
    Ok(Literal { term, truth: false })
}

/// What comes of a failure choice by the literal that nothing fails. Err is want of memory.
fn choose_by<J: Judge>(
    net: &Net,
    spot: &Spot,
    judge: &mut J,
    literal: Literal,
    way: &mut Way,
) -> Result<Choice, AllocError>
    requires stands { literal.term.index < length way.old.terms }
    requires sound { IsSound net.now.network.limits.conflicts way.old }
    ensures { IfOk result (IsAnswer net.now.network spot.now literal way.old way.new) }
{
    net.bounds();
    // By its type, what a way knows is what was known before the event, with the event's literals.
    let _ = &way.cond;
    match sides_of(judge, net.limits.conflicts, way, literal)? {
        Sides::First => {
            decide(way, false, literal, None)?;
            Ok(Choice::Stays)
        }
        Sides::Second => {
            decide(way, true, negated(literal), None)?;
            Ok(Choice::Takes)
        }
        Sides::Both(first, second) => {
            let kept = stay(literal, first, way)?;
            decide(way, true, negated(literal), Some(second))?;
            Ok(Choice::Both(kept))
        }
    }
}

/// A way on which nothing fails, beside the way itself, which shares its terms. Err is want of memory.
fn stay(literal: Literal, standing: Standing, way: &mut Way) -> Result<Way, AllocError>
    requires stands { literal.term.index < length way.old.terms }
    ensures same { way.new ≡ way.old }
    ensures way { IfOk result (λ w. way_of w ≡ decided terms false (literal_of way.old.terms literal) (way_of way.old)) }
    ensures sound { (budget : ℕ) → StandsFor budget (that (known_of way.old ++ literal_of way.old.terms literal ∷ [])) standing → IsSound budget way.old → IfOk result (IsSound budget) }
    ensures sends { IfOk result (λ w. w.sends ≡ way.old.sends) }
{
    let mut kept = way.fork()?;
    decide(&mut kept, false, literal, Some(standing))?;
    Ok(kept)
}

/// Copy 1 of a packet comes one tick later. Err is want of memory.
pub fn double(spot: &Spot, mail: &Packet, way: &mut Way) -> Result<(), AllocError>
    requires place { IsPlace spot.now }
    requires some { 1 ≤ way.old.machine.duplications }
    ensures way { (net : Network) → OnOk result (way_of way.new ≡ doubled terms (here_of net spot.now) (packet_of mail.now) (way_of way.old)) }
    ensures still { OnOk result (IsStill way.old way.new) }
{
    let copy = copy_at(mail, spot.tick + 1)?;
    queue_copy(copy, &mut way.machine)
}

/// Copy 1 of a packet, which arrives at a tick. Err is want of memory.
fn copy_at(mail: &Packet, tick: u32) -> Result<Packet, AllocError>
    ensures { IfOk result (λ p. p ≡ record mail.now { copy = 1; arrival = tick }) }
{
    let mut copy = mail.copy()?;
    copy.copy = 1;
    copy.arrival = tick;
    Ok(copy)
}

/// A duplication is used, and the copy of a packet waits. Err is want of memory.
fn queue_copy(copy: Packet, machine: &mut Machine) -> Result<(), AllocError>
    requires { 1 ≤ machine.old.duplications }
    ensures ok { OnOk result (machine.new ≡ record machine.old { duplications = machine.old.duplications - 1; queue = posted copy machine.old.queue }) }
    ensures registers { machine.new.registers ≡ machine.old.registers }
    ensures memory { machine.new.memory ≡ machine.old.memory }
{
    if machine.queue.post(copy).is_err() {
        return Err(AllocError);
    }
    machine.duplications -= 1;
    Ok(())
}

/// Registers, memory and timers are as at the start. Err is want of memory.
pub fn clear(way: &mut Way) -> Result<(), AllocError>
    ensures way { OnOk result (AlikeWay (way_of way.new) (cleared terms (way_of way.old))) }
    ensures changed { OnOk result (IsChanged way.old way.new) }
{
    let alloc = *way.sends.allocator();
    let zero = way.konst(0)?;
    clear_machine(alloc, zero, &mut way.machine)
}

/// The same of a machine, with the term of 0 in its registers and its memory.
fn clear_machine(alloc: Global, zero: Ref, machine: &mut Machine) -> Result<(), AllocError>
    ensures ok { OnOk result (machine.new ≡ record machine.old { registers = replicate 16 zero; memory = replicate 64 zero; timers = replicate 8 None }) }
    ensures err { OnErr result (machine.new ≡ machine.old) }
{
    let registers = Vec::from_slice(alloc, &[zero; 16])?;
    let memory = Vec::from_slice(alloc, &[zero; 64])?;
    let timers = Vec::from_slice(alloc, &[None; 8])?;
    machine.registers = registers;
    machine.memory = memory;
    machine.timers = timers;
    Ok(())
}
