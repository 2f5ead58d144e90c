//! One instruction of a way.

ghost use Rattle.std.specs.Prelude.{◌≡◌, ◌+◌, ◌<◌, ◌≤◌, ℕ, IfOk, OnOk, length};
ghost use Rattle.kn_code.specs.declared.program.Instr.TheVariants as instrs;
ghost use Rattle.kn_code.specs.Code.{IsInstr, IsMemorySpan};
ghost use Rattle.kn_model.specs.Terms.{words};
ghost use Rattle.kn_model.specs.Nodes.{Failed, Bounds};
ghost use Rattle.kn_model.specs.Nets.{Network, code_of};
ghost use Rattle.kn_model.specs.Rows.{Goes, operate, register, sets, with_outcome};
ghost use Rattle.std.specs.Prelude.{[], true};
ghost use Rattle.kn_conc.specs.Views.{kind_of};
ghost use Rattle.kn_conc.specs.Ways.{IsPlace, IsStep, here_of, seen, way_of, with_bit};

use crate::sending::send_over;
use crate::spot::Spot;
use crate::way::Way;
use kn_code::Instr;
use kn_node::{FailKind, Outcome};
use kn_ops::grouped_rows;
use kn_plan::Net;
use kn_term::Valuation;
use kn_word::{Op, apply};
use std::alloc::AllocError;

/// What an instruction does to a way: it goes on, or it stops.
#[derive(Clone, Copy)]
pub enum Step {
    Goes,
    Stops,
}

/// A word goes into a register, and the next instruction comes.
fn set(way: &mut Way, a: u8, word: u16) -> Step
    requires register { a < 16 }
    requires place { way.old.pc < 4096 }
    ensures way { seen result (way_of way.new) ≡ sets (words []) (way_of way.old) a word }
    ensures node { way.new.node.node ≡ way.old.node.node }
    ensures trace { way.new.node.state.trace ≡ way.old.node.state.trace }
{
    way.set_register(a, word);
    way.advance();
    Step::Goes
}

/// A word goes into a register.
fn constant(
    spot: &Spot,
    inputs: &Valuation,
    way: &mut Way,
    a: u8,
    n: u16,
) -> Result<Step, AllocError>
    requires spot { IsPlace spot.now }
    requires a { a < 16 }
    requires place { way.old.pc < 4096 }
    ensures step { (net : Network) → IfOk result (IsStep inputs.now (here_of net spot.now) (instrs.Const a n) (way_of way.old) (way_of way.new)) }
    ensures node { way.new.node.node ≡ way.old.node.node }
    ensures trace { way.new.node.state.trace ≡ way.old.node.state.trace }
{
    Ok(set(way, a, n))
}

/// A register goes into a register.
fn mov(spot: &Spot, inputs: &Valuation, way: &mut Way, a: u8, b: u8) -> Result<Step, AllocError>
    requires spot { IsPlace spot.now }
    requires a { a < 16 }
    requires b { b < 16 }
    requires place { way.old.pc < 4096 }
    ensures step { (net : Network) → IfOk result (IsStep inputs.now (here_of net spot.now) (instrs.Mov a b) (way_of way.old) (way_of way.new)) }
    ensures node { way.new.node.node ≡ way.old.node.node }
    ensures trace { way.new.node.state.trace ≡ way.old.node.state.trace }
{
    let word = way.register(b);
    Ok(set(way, a, word))
}

/// The bits that a register does not have go into a register.
fn not(spot: &Spot, inputs: &Valuation, way: &mut Way, a: u8, b: u8) -> Result<Step, AllocError>
    requires spot { IsPlace spot.now }
    requires a { a < 16 }
    requires b { b < 16 }
    requires place { way.old.pc < 4096 }
    ensures step { (net : Network) → IfOk result (IsStep inputs.now (here_of net spot.now) (instrs.Not a b) (way_of way.old) (way_of way.new)) }
    ensures node { way.new.node.node ≡ way.old.node.node }
    ensures trace { way.new.node.state.trace ≡ way.old.node.state.trace }
{
    let word = apply(Op::Xor, way.register(b), 65535);
    Ok(set(way, a, word))
}

/// A word of memory goes into a register.
fn ld(spot: &Spot, inputs: &Valuation, way: &mut Way, a: u8, m: u16) -> Result<Step, AllocError>
    requires spot { IsPlace spot.now }
    requires a { a < 16 }
    requires m { m < 64 }
    requires place { way.old.pc < 4096 }
    ensures step { (net : Network) → IfOk result (IsStep inputs.now (here_of net spot.now) (instrs.Ld a m) (way_of way.old) (way_of way.new)) }
    ensures node { way.new.node.node ≡ way.old.node.node }
    ensures trace { way.new.node.state.trace ≡ way.old.node.state.trace }
{
    let word = way.word(m as usize);
    Ok(set(way, a, word))
}

/// A register goes into a word of memory.
fn st(spot: &Spot, inputs: &Valuation, way: &mut Way, m: u16, a: u8) -> Result<Step, AllocError>
    requires spot { IsPlace spot.now }
    requires m { m < 64 }
    requires a { a < 16 }
    requires place { way.old.pc < 4096 }
    ensures step { (net : Network) → IfOk result (IsStep inputs.now (here_of net spot.now) (instrs.St m a) (way_of way.old) (way_of way.new)) }
    ensures node { way.new.node.node ≡ way.old.node.node }
    ensures trace { way.new.node.state.trace ≡ way.old.node.state.trace }
{
    let word = way.register(a);
    way.set_word(m as usize, word);
    way.advance();
    Ok(Step::Goes)
}

/// The word at an index goes into a register, if the index is in range.
fn ldx(
    spot: &Spot,
    inputs: &Valuation,
    way: &mut Way,
    a: u8,
    b: u8,
    m: u16,
    n: u16,
) -> Result<Step, AllocError>
    requires spot { IsPlace spot.now }
    requires a { a < 16 }
    requires b { b < 16 }
    requires span { IsMemorySpan m n }
    requires place { way.old.pc < 4096 }
    ensures step { (net : Network) → IfOk result (IsStep inputs.now (here_of net spot.now) (instrs.Ldx a b m n) (way_of way.old) (way_of way.new)) }
    ensures node { way.new.node.node ≡ way.old.node.node }
    ensures trace { way.new.node.state.trace ≡ way.old.node.state.trace }
{
    way.node.sizes();
    let index = way.register(b);
    if index >= n {
        return out_of_range(spot, way);
    }
    let word = way.word(m as usize + index as usize);
    way.decide(false)?;
    Ok(set(way, a, word))
}

/// A register goes into the word at an index, if the index is in range.
fn stx(
    spot: &Spot,
    inputs: &Valuation,
    way: &mut Way,
    a: u8,
    b: u8,
    m: u16,
    n: u16,
) -> Result<Step, AllocError>
    requires spot { IsPlace spot.now }
    requires a { a < 16 }
    requires b { b < 16 }
    requires span { IsMemorySpan m n }
    requires place { way.old.pc < 4096 }
    ensures step { (net : Network) → IfOk result (IsStep inputs.now (here_of net spot.now) (instrs.Stx a b m n) (way_of way.old) (way_of way.new)) }
    ensures node { way.new.node.node ≡ way.old.node.node }
    ensures trace { way.new.node.state.trace ≡ way.old.node.state.trace }
{
    let index = way.register(b);
    if index >= n {
        return out_of_range(spot, way);
    }
    let word = way.register(a);
    way.decide(false)?;
    way.set_word(m as usize + index as usize, word);
    way.advance();
    Ok(Step::Goes)
}

/// It is decided that an index is out of range, and the node fails.
fn out_of_range(spot: &Spot, way: &mut Way) -> Result<Step, AllocError>
    ensures step { IfOk result (λ s. seen s (way_of way.new) ≡ Goes (with_outcome (words []) (with_bit true (way_of way.old)) (Failed Bounds way.old.pc spot.now.tick))) }
    ensures node { way.new.node.node ≡ way.old.node.node }
    ensures trace { way.new.node.state.trace ≡ way.old.node.state.trace }
{
    way.decide(true)?;
    way.fail(spot.tick, FailKind::Bounds);
    Ok(Step::Goes)
}

/// Another instruction comes.
fn jmp(spot: &Spot, inputs: &Valuation, way: &mut Way, to: u16) -> Result<Step, AllocError>
    requires spot { IsPlace spot.now }
    requires place { way.old.pc < 4096 }
    ensures step { (net : Network) → IfOk result (IsStep inputs.now (here_of net spot.now) (instrs.Jmp to) (way_of way.old) (way_of way.new)) }
    ensures node { way.new.node.node ≡ way.old.node.node }
    ensures trace { way.new.node.state.trace ≡ way.old.node.state.trace }
{
    way.jump(to);
    Ok(Step::Goes)
}

/// Another instruction comes where a register is 0, which is decided.
fn brz(spot: &Spot, inputs: &Valuation, way: &mut Way, a: u8, to: u16) -> Result<Step, AllocError>
    requires spot { IsPlace spot.now }
    requires a { a < 16 }
    requires place { way.old.pc < 4096 }
    ensures step { (net : Network) → IfOk result (IsStep inputs.now (here_of net spot.now) (instrs.Brz a to) (way_of way.old) (way_of way.new)) }
    ensures node { way.new.node.node ≡ way.old.node.node }
    ensures trace { way.new.node.state.trace ≡ way.old.node.state.trace }
{
    let is_zero = way.register(a) == 0;
    way.decide(is_zero)?;
    if is_zero {
        way.jump(to);
    } else {
        way.advance();
    }
    Ok(Step::Goes)
}

/// A fresh input goes into a register; a node that has made 65,535 inputs fails by fuel.
fn input(spot: &Spot, inputs: &Valuation, way: &mut Way, a: u8, w: u16) -> Result<Step, AllocError>
    requires spot { IsPlace spot.now }
    requires a { a < 16 }
    requires least { 1 ≤ w }
    requires most { w ≤ 16 }
    requires place { way.old.pc < 4096 }
    ensures step { (net : Network) → IfOk result (IsStep inputs.now (here_of net spot.now) (instrs.Input a w) (way_of way.old) (way_of way.new)) }
    ensures node { way.new.node.node ≡ way.old.node.node }
    ensures trace { way.new.node.state.trace ≡ way.old.node.state.trace }
{
    if way.node.inputs == 65535 {
        way.fail(spot.tick, FailKind::Fuel);
        return Ok(Step::Stops);
    }
    let word = way.fresh_input(inputs, spot.node, w);
    way.count_input();
    Ok(set(way, a, word))
}

/// A timer is set.
fn timer(spot: &Spot, inputs: &Valuation, way: &mut Way, k: u8, d: u16) -> Result<Step, AllocError>
    requires spot { IsPlace spot.now }
    requires k { k < 8 }
    requires place { way.old.pc < 4096 }
    ensures step { (net : Network) → IfOk result (IsStep inputs.now (here_of net spot.now) (instrs.Timer k d) (way_of way.old) (way_of way.new)) }
    ensures node { way.new.node.node ≡ way.old.node.node }
    ensures trace { way.new.node.state.trace ≡ way.old.node.state.trace }
{
    way.set_timer(k, Some(spot.tick + d as u32));
    way.advance();
    Ok(Step::Goes)
}

/// A timer is unset.
fn cancel(spot: &Spot, inputs: &Valuation, way: &mut Way, k: u8) -> Result<Step, AllocError>
    requires spot { IsPlace spot.now }
    requires k { k < 8 }
    requires place { way.old.pc < 4096 }
    ensures step { (net : Network) → IfOk result (IsStep inputs.now (here_of net spot.now) (instrs.Cancel k) (way_of way.old) (way_of way.new)) }
    ensures node { way.new.node.node ≡ way.old.node.node }
    ensures trace { way.new.node.state.trace ≡ way.old.node.state.trace }
{
    way.set_timer(k, None);
    way.advance();
    Ok(Step::Goes)
}

/// So many registers from one on are sent over a link, if the node has one of this number.
fn send(
    spot: &Spot,
    inputs: &Valuation,
    way: &mut Way,
    l: u16,
    b: u8,
    n: u8,
) -> Result<Step, AllocError>
    requires spot { IsPlace spot.now }
    requires registers { b + n ≤ 16 }
    requires few { n ≤ 8 }
    requires place { way.old.pc < 4096 }
    ensures step { (net : Network) → IfOk result (IsStep inputs.now (here_of net spot.now) (instrs.Send l b n) (way_of way.old) (way_of way.new)) }
    ensures node { way.new.node.node ≡ way.old.node.node }
    ensures trace { way.new.node.state.trace ≡ way.old.node.state.trace }
{
    send_over(spot, way, b, n, spot.link(l))
}

/// So many registers from one on are sent over all links of the node.
fn bcast(spot: &Spot, inputs: &Valuation, way: &mut Way, b: u8, n: u8) -> Result<Step, AllocError>
    requires spot { IsPlace spot.now }
    requires registers { b + n ≤ 16 }
    requires few { n ≤ 8 }
    requires place { way.old.pc < 4096 }
    ensures step { (net : Network) → IfOk result (IsStep inputs.now (here_of net spot.now) (instrs.Bcast b n) (way_of way.old) (way_of way.new)) }
    ensures node { way.new.node.node ≡ way.old.node.node }
    ensures trace { way.new.node.state.trace ≡ way.old.node.state.trace }
{
    send_over(spot, way, b, n, &spot.links)
}

/// A word of the event's packet goes into a register; 0 where it has none, or where the event is of no packet.
fn recvw(spot: &Spot, inputs: &Valuation, way: &mut Way, a: u8, k: u16) -> Result<Step, AllocError>
    requires spot { IsPlace spot.now }
    requires a { a < 16 }
    requires place { way.old.pc < 4096 }
    ensures step { (net : Network) → IfOk result (IsStep inputs.now (here_of net spot.now) (instrs.Recvw a k) (way_of way.old) (way_of way.new)) }
    ensures node { way.new.node.node ≡ way.old.node.node }
    ensures trace { way.new.node.state.trace ≡ way.old.node.state.trace }
{
    let word = spot.word(k);
    Ok(set(way, a, word))
}

/// How many words the event's packet has goes into a register.
fn rlen(spot: &Spot, inputs: &Valuation, way: &mut Way, a: u8) -> Result<Step, AllocError>
    requires spot { IsPlace spot.now }
    requires a { a < 16 }
    requires place { way.old.pc < 4096 }
    ensures step { (net : Network) → IfOk result (IsStep inputs.now (here_of net spot.now) (instrs.Rlen a) (way_of way.old) (way_of way.new)) }
    ensures node { way.new.node.node ≡ way.old.node.node }
    ensures trace { way.new.node.state.trace ≡ way.old.node.state.trace }
{
    let length = spot.length();
    Ok(set(way, a, length))
}

/// Who sent the event's packet goes into a register.
fn rfrom(spot: &Spot, inputs: &Valuation, way: &mut Way, a: u8) -> Result<Step, AllocError>
    requires spot { IsPlace spot.now }
    requires a { a < 16 }
    requires place { way.old.pc < 4096 }
    ensures step { (net : Network) → IfOk result (IsStep inputs.now (here_of net spot.now) (instrs.Rfrom a) (way_of way.old) (way_of way.new)) }
    ensures node { way.new.node.node ≡ way.old.node.node }
    ensures trace { way.new.node.state.trace ≡ way.old.node.state.trace }
{
    let sender = spot.sender();
    Ok(set(way, a, sender))
}

/// The node fails where a register is 0, which is decided.
fn assert(spot: &Spot, inputs: &Valuation, way: &mut Way, a: u8) -> Result<Step, AllocError>
    requires spot { IsPlace spot.now }
    requires a { a < 16 }
    requires place { way.old.pc < 4096 }
    ensures step { (net : Network) → IfOk result (IsStep inputs.now (here_of net spot.now) (instrs.Assert a) (way_of way.old) (way_of way.new)) }
    ensures node { way.new.node.node ≡ way.old.node.node }
    ensures trace { way.new.node.state.trace ≡ way.old.node.state.trace }
{
    let is_zero = way.register(a) == 0;
    way.decide(is_zero)?;
    if is_zero {
        way.fail(spot.tick, FailKind::Assert);
    } else {
        way.advance();
    }
    Ok(Step::Goes)
}

/// The node's number goes into a register.
fn node(spot: &Spot, inputs: &Valuation, way: &mut Way, a: u8) -> Result<Step, AllocError>
    requires spot { IsPlace spot.now }
    requires a { a < 16 }
    requires place { way.old.pc < 4096 }
    ensures step { (net : Network) → IfOk result (IsStep inputs.now (here_of net spot.now) (instrs.Node a) (way_of way.old) (way_of way.new)) }
    ensures node { way.new.node.node ≡ way.old.node.node }
    ensures trace { way.new.node.state.trace ≡ way.old.node.state.trace }
{
    Ok(set(way, a, spot.node as u16))
}

/// The tick goes into a register.
fn now(spot: &Spot, inputs: &Valuation, way: &mut Way, a: u8) -> Result<Step, AllocError>
    requires spot { IsPlace spot.now }
    requires a { a < 16 }
    requires place { way.old.pc < 4096 }
    ensures step { (net : Network) → IfOk result (IsStep inputs.now (here_of net spot.now) (instrs.Now a) (way_of way.old) (way_of way.new)) }
    ensures node { way.new.node.node ≡ way.old.node.node }
    ensures trace { way.new.node.state.trace ≡ way.old.node.state.trace }
{
    Ok(set(way, a, spot.tick as u16))
}

/// The way stops.
fn ret(spot: &Spot, inputs: &Valuation, way: &mut Way) -> Result<Step, AllocError>
    requires spot { IsPlace spot.now }
    requires place { way.old.pc < 4096 }
    ensures step { (net : Network) → IfOk result (IsStep inputs.now (here_of net spot.now) instrs.Ret (way_of way.old) (way_of way.new)) }
    ensures node { way.new.node.node ≡ way.old.node.node }
    ensures trace { way.new.node.state.trace ≡ way.old.node.state.trace }
{
    Ok(Step::Stops)
}

/// The node halts.
fn halt(spot: &Spot, inputs: &Valuation, way: &mut Way) -> Result<Step, AllocError>
    requires spot { IsPlace spot.now }
    requires place { way.old.pc < 4096 }
    ensures step { (net : Network) → IfOk result (IsStep inputs.now (here_of net spot.now) instrs.Halt (way_of way.old) (way_of way.new)) }
    ensures node { way.new.node.node ≡ way.old.node.node }
    ensures trace { way.new.node.state.trace ≡ way.old.node.state.trace }
{
    way.end(Outcome::Halted);
    Ok(Step::Stops)
}

/// What an operator makes of two registers goes into a register.
fn operate(way: &mut Way, op: Op, a: u8, b: u8, c: u8) -> Result<Step, AllocError>
    requires a { a < 16 }
    requires b { b < 16 }
    requires c { c < 16 }
    requires place { way.old.pc < 4096 }
    ensures step { IfOk result (λ s. seen s (way_of way.new) ≡ operate (words []) op (way_of way.old) a b c) }
    ensures node { way.new.node.node ≡ way.old.node.node }
    ensures trace { way.new.node.state.trace ≡ way.old.node.state.trace }
{
    let word = apply(op, way.register(b), way.register(c));
    Ok(set(way, a, word))
}

macro_rules! step_arms {
    (
        [$spot:ident $inputs:ident $way:ident $instr:ident]
        operators [$(($code:literal, $name:literal, $variant:ident, $shape:ident, $act:ident, $fields:tt))*]
        others [$(($c:literal, $n:literal, $other:ident, $s:ident, $does:ident, [$($field:ident $place:ident),*]))*]
    ) => {
        match $instr {
            $(Instr::$variant { a, b, c } => operate($way, Op::$variant, a, b, c),)*
            $(Instr::$other { $($field),* } => $does($spot, $inputs, $way, $($field),*),)*
        }
    };
}

/// What an instruction of an event at a place does to a way, on these inputs.
pub fn execute(
    net: &Net,
    spot: &Spot,
    inputs: &Valuation,
    instr: Instr,
    way: &mut Way,
) -> Result<Step, AllocError>
    requires place { IsPlace spot.now }
    requires fits { way.old.pc < 4096 }
    requires valid { (count : ℕ) × IsInstr count instr }
    ensures step { IfOk result (IsStep inputs.now (here_of net.now.network spot.now) instr (way_of way.old) (way_of way.new)) }
    ensures node { way.new.node.node ≡ way.old.node.node }
    ensures trace { way.new.node.state.trace ≡ way.old.node.state.trace }
{
    let _ = net;
    grouped_rows!(step_arms spot inputs way instr)
}
