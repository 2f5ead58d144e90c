//! One instruction of a way.

ghost use Rattle.std.specs.Prelude.{◌≡◌, ◌+◌, ◌<◌, ◌≤◌, ◌^◌, ℕ, true, false, IfOk, OnOk, length, slice_index_or};
ghost use Rattle.kn_code.specs.declared.program.Instr.TheVariants as instrs;
ghost use Rattle.kn_code.specs.Code.{IsInstr};
ghost use Rattle.kn_term.specs.Terms.{Term};
ghost use Rattle.kn_term.specs.Nodes.{term_at};
ghost use Rattle.kn_model.specs.Terms.{terms, Word};
ghost use Rattle.kn_model.specs.Nodes.{Failed};
ghost use Rattle.kn_model.specs.Nets.{Network, code_of};
ghost use Rattle.kn_model.specs.Rows.{Goes, sets, with_outcome, payload_of};
ghost use Rattle.kn_model.specs.Alikes.{TermAlike};
ghost use Rattle.kn_machine.specs.Views.{kind_of};
ghost use Rattle.kn_built.specs.Built.{Extends};
ghost use Rattle.kn_machine.specs.Ways.{way_of, IsStill, IsGrown, IsChanged, IsRow, AlikeWay};
ghost use Rattle.kn_machine.specs.Effects.{mail_of, here_of, side_at, IsPlace, IsIn, IsDecision, IsStep, IsRangeStep, IsOperateStep, AlikeEffect};
ghost use Rattle.kn_machine.specs.declared.spot.Spot.{Spot as SpotOf};

use crate::memory::{load, store};
use crate::sending::send_over;
use crate::spot::Spot;
use crate::way::Way;
use kn_code::Instr;
use kn_node::{FailKind, Outcome};
use kn_ops::grouped_rows;
use kn_plan::Net;
use kn_term::{Literal, Ref};
use kn_word::Op;
use std::alloc::AllocError;

/// What an instruction does to a way: it goes on, it stops, or it goes on in two ways, one under a literal and one under
/// its negation; these are made by `take_side`.
#[derive(Clone, Copy)]
pub enum Step {
    Goes,
    Stops,
    Decides(Literal),
}

/// The node fails at the instruction that comes next.
pub fn fail(tick: u32, kind: FailKind, way: &mut Way)
    ensures way { way_of way.new ≡ with_outcome terms (way_of way.old) (Failed (kind_of kind) way.old.pc tick) }
    ensures still { IsStill way.old way.new }
{
    let pc = way.pc;
    way.machine.outcome = Outcome::Failed { kind, pc, tick };
}

/// A term goes into a register, and the next instruction comes.
pub fn set(way: &mut Way, a: u8, r: Ref) -> Step
    requires register { a < 16 }
    requires stands { r.index < length way.old.terms }
    requires place { way.old.pc < 4096 }
    ensures goes { result ≡ Step.Goes }
    ensures way { (t : Term) → TermAlike (term_at way.old.terms r.index) t → AlikeEffect (Goes (way_of way.new)) (sets terms (way_of way.old) a t) }
    ensures still { IsStill way.old way.new }
{
    way.set_register(a, r);
    way.advance();
    Step::Goes
}

/// Whether the index in a register is below a number is to be decided.
fn in_range(way: &mut Way, b: u8, n: u16) -> Result<Step, AllocError>
    requires b { b < 16 }
    ensures step { IfOk result (IsRangeStep way.old b n way.new) }
    ensures grown { IfOk result (λ s. IsGrown way.old way.new) }
{
    let bound = way.konst(n)?;
    let index = way.register(b);
    let term = way.apply(Op::Ult, index, bound)?;
    Ok(Step::Decides(Literal { term, truth: true }))
}

/// A word of the event's packet by its place, as a term; 0 where it has none, or where the event is of no packet.
fn word_of(spot: &Spot, way: &mut Way, k: u16) -> Result<Ref, AllocError>
    ensures term { IfOk result (λ r. TermAlike (term_at way.new.terms r.index) (slice_index_or (payload_of (mail_of spot.now.mail)) k (Word 0))) }
    ensures stands { IfOk result (λ r. r.index < length way.new.terms) }
    ensures grown { IfOk result (λ r. IsGrown way.old way.new) }
{
    if let Some(mail) = &spot.mail {
        if let Some(word) = mail.payload.get(k as usize) {
            return way.import(&mail.terms, *word);
        }
    }
    way.konst(0)
}

/// A word goes into a register.
fn constant(spot: &Spot, way: &mut Way, a: u8, n: u16) -> Result<Step, AllocError>
    requires spot { IsPlace spot.now }
    requires a { a < 16 }
    requires place { way.old.pc < 4096 }
    ensures { (net : Network) → IfOk result (IsStep net spot.now (instrs.Const a n) way.old way.new) }
{
    let r = way.konst(n)?;
    Ok(set(way, a, r))
}

/// A register goes into a register.
fn mov(spot: &Spot, way: &mut Way, a: u8, b: u8) -> Result<Step, AllocError>
    requires spot { IsPlace spot.now }
    requires a { a < 16 }
    requires b { b < 16 }
    requires place { way.old.pc < 4096 }
    ensures { (net : Network) → IfOk result (IsStep net spot.now (instrs.Mov a b) way.old way.new) }
{
    let r = way.register(b);
    Ok(set(way, a, r))
}

/// The bits that a register does not have go into a register.
fn not(spot: &Spot, way: &mut Way, a: u8, b: u8) -> Result<Step, AllocError>
    requires spot { IsPlace spot.now }
    requires a { a < 16 }
    requires b { b < 16 }
    requires place { way.old.pc < 4096 }
    ensures { (net : Network) → IfOk result (IsStep net spot.now (instrs.Not a b) way.old way.new) }
{
    let ones = way.konst(65535)?;
    let x = way.register(b);
    let r = way.apply(Op::Xor, x, ones)?;
    Ok(set(way, a, r))
}

/// A word of memory goes into a register.
fn ld(spot: &Spot, way: &mut Way, a: u8, m: u16) -> Result<Step, AllocError>
    requires spot { IsPlace spot.now }
    requires a { a < 16 }
    requires m { m < 64 }
    requires place { way.old.pc < 4096 }
    ensures { (net : Network) → IfOk result (IsStep net spot.now (instrs.Ld a m) way.old way.new) }
{
    let r = way.word(m as usize);
    Ok(set(way, a, r))
}

/// A register goes into a word of memory.
fn st(spot: &Spot, way: &mut Way, m: u16, a: u8) -> Result<Step, AllocError>
    requires spot { IsPlace spot.now }
    requires m { m < 64 }
    requires a { a < 16 }
    requires place { way.old.pc < 4096 }
    ensures { (net : Network) → IfOk result (IsStep net spot.now (instrs.St m a) way.old way.new) }
{
    let r = way.register(a);
    way.set_word(m as usize, r);
    way.advance();
    Ok(Step::Goes)
}

/// Whether an index is in range is decided; `take_side` reads the word there.
fn ldx(spot: &Spot, way: &mut Way, a: u8, b: u8, m: u16, n: u16) -> Result<Step, AllocError>
    requires spot { IsPlace spot.now }
    requires b { b < 16 }
    requires place { way.old.pc < 4096 }
    ensures { (net : Network) → IfOk result (IsStep net spot.now (instrs.Ldx a b m n) way.old way.new) }
{
    in_range(way, b, n)
}

/// Whether an index is in range is decided; `take_side` writes the word there.
fn stx(spot: &Spot, way: &mut Way, a: u8, b: u8, m: u16, n: u16) -> Result<Step, AllocError>
    requires spot { IsPlace spot.now }
    requires b { b < 16 }
    requires place { way.old.pc < 4096 }
    ensures { (net : Network) → IfOk result (IsStep net spot.now (instrs.Stx a b m n) way.old way.new) }
{
    in_range(way, b, n)
}

/// Another instruction comes.
fn jmp(spot: &Spot, way: &mut Way, to: u16) -> Result<Step, AllocError>
    requires spot { IsPlace spot.now }
    requires place { way.old.pc < 4096 }
    ensures { (net : Network) → IfOk result (IsStep net spot.now (instrs.Jmp to) way.old way.new) }
{
    way.jump(to);
    Ok(Step::Goes)
}

/// Whether a register is 0 is decided.
fn brz(spot: &Spot, way: &mut Way, a: u8, to: u16) -> Result<Step, AllocError>
    requires spot { IsPlace spot.now }
    requires a { a < 16 }
    requires place { way.old.pc < 4096 }
    ensures { (net : Network) → IfOk result (IsStep net spot.now (instrs.Brz a to) way.old way.new) }
{
    let term = way.register(a);
    Ok(Step::Decides(Literal { term, truth: true }))
}

/// A fresh input goes into a register; a node that has made 65,535 inputs fails by fuel.
fn input(spot: &Spot, way: &mut Way, a: u8, w: u16) -> Result<Step, AllocError>
    requires spot { IsPlace spot.now }
    requires a { a < 16 }
    requires least { 1 ≤ w }
    requires most { w ≤ 16 }
    requires place { way.old.pc < 4096 }
    ensures { (net : Network) → IfOk result (IsStep net spot.now (instrs.Input a w) way.old way.new) }
{
    let index = way.machine.inputs;
    if index == 65535 {
        fail(spot.tick, FailKind::Fuel, way);
        return Ok(Step::Stops);
    }
    let r = way.input(spot.node, index, w as u32)?;
    way.machine.inputs += 1;
    Ok(set(way, a, r))
}

/// A timer is set.
fn timer(spot: &Spot, way: &mut Way, k: u8, d: u16) -> Result<Step, AllocError>
    requires spot { IsPlace spot.now }
    requires k { k < 8 }
    requires place { way.old.pc < 4096 }
    ensures { (net : Network) → IfOk result (IsStep net spot.now (instrs.Timer k d) way.old way.new) }
{
    way.set_timer(k, Some(spot.tick + d as u32));
    way.advance();
    Ok(Step::Goes)
}

/// A timer is unset.
fn cancel(spot: &Spot, way: &mut Way, k: u8) -> Result<Step, AllocError>
    requires spot { IsPlace spot.now }
    requires k { k < 8 }
    requires place { way.old.pc < 4096 }
    ensures { (net : Network) → IfOk result (IsStep net spot.now (instrs.Cancel k) way.old way.new) }
{
    way.set_timer(k, None);
    way.advance();
    Ok(Step::Goes)
}

/// So many registers from one on are sent over a link, if the node has one of this number.
fn send(spot: &Spot, way: &mut Way, l: u16, b: u8, n: u8) -> Result<Step, AllocError>
    requires spot { IsPlace spot.now }
    requires registers { b + n ≤ 16 }
    requires few { n ≤ 8 }
    requires place { way.old.pc < 4096 }
    ensures { (net : Network) → IfOk result (IsStep net spot.now (instrs.Send l b n) way.old way.new) }
{
    send_over(spot, way, b, n, spot.link(l))
}

/// So many registers from one on are sent over all links of the node.
fn bcast(spot: &Spot, way: &mut Way, b: u8, n: u8) -> Result<Step, AllocError>
    requires spot { IsPlace spot.now }
    requires registers { b + n ≤ 16 }
    requires few { n ≤ 8 }
    requires place { way.old.pc < 4096 }
    ensures { (net : Network) → IfOk result (IsStep net spot.now (instrs.Bcast b n) way.old way.new) }
{
    send_over(spot, way, b, n, &spot.links)
}

/// A word of the event's packet goes into a register; 0 where it has none, or where the event is of no packet.
fn recvw(spot: &Spot, way: &mut Way, a: u8, k: u16) -> Result<Step, AllocError>
    requires spot { IsPlace spot.now }
    requires a { a < 16 }
    requires place { way.old.pc < 4096 }
    ensures { (net : Network) → IfOk result (IsStep net spot.now (instrs.Recvw a k) way.old way.new) }
{
    let r = word_of(spot, way, k)?;
    Ok(set(way, a, r))
}

/// How many words the event's packet has goes into a register.
fn rlen(spot: &Spot, way: &mut Way, a: u8) -> Result<Step, AllocError>
    requires spot { IsPlace spot.now }
    requires a { a < 16 }
    requires place { way.old.pc < 4096 }
    ensures { (net : Network) → IfOk result (IsStep net spot.now (instrs.Rlen a) way.old way.new) }
{
    let r = way.konst(spot.length())?;
    Ok(set(way, a, r))
}

/// Who sent the event's packet goes into a register.
fn rfrom(spot: &Spot, way: &mut Way, a: u8) -> Result<Step, AllocError>
    requires spot { IsPlace spot.now }
    requires a { a < 16 }
    requires place { way.old.pc < 4096 }
    ensures { (net : Network) → IfOk result (IsStep net spot.now (instrs.Rfrom a) way.old way.new) }
{
    let r = way.konst(spot.sender() as u16)?;
    Ok(set(way, a, r))
}

/// Whether a register is 0 is decided.
fn assert(spot: &Spot, way: &mut Way, a: u8) -> Result<Step, AllocError>
    requires spot { IsPlace spot.now }
    requires a { a < 16 }
    requires place { way.old.pc < 4096 }
    ensures { (net : Network) → IfOk result (IsStep net spot.now (instrs.Assert a) way.old way.new) }
{
    let term = way.register(a);
    Ok(Step::Decides(Literal { term, truth: true }))
}

/// The node's number goes into a register.
fn node(spot: &Spot, way: &mut Way, a: u8) -> Result<Step, AllocError>
    requires spot { IsPlace spot.now }
    requires a { a < 16 }
    requires place { way.old.pc < 4096 }
    ensures { (net : Network) → IfOk result (IsStep net spot.now (instrs.Node a) way.old way.new) }
{
    let r = way.konst(spot.node as u16)?;
    Ok(set(way, a, r))
}

/// The tick goes into a register.
fn now(spot: &Spot, way: &mut Way, a: u8) -> Result<Step, AllocError>
    requires spot { IsPlace spot.now }
    requires a { a < 16 }
    requires place { way.old.pc < 4096 }
    ensures { (net : Network) → IfOk result (IsStep net spot.now (instrs.Now a) way.old way.new) }
{
    let r = way.konst(spot.tick as u16)?;
    Ok(set(way, a, r))
}

/// The way stops.
fn ret(spot: &Spot, way: &mut Way) -> Result<Step, AllocError>
    requires spot { IsPlace spot.now }
    requires place { way.old.pc < 4096 }
    ensures { (net : Network) → IfOk result (IsStep net spot.now instrs.Ret way.old way.new) }
{
    Ok(Step::Stops)
}

/// The node halts.
fn halt(spot: &Spot, way: &mut Way) -> Result<Step, AllocError>
    requires spot { IsPlace spot.now }
    requires place { way.old.pc < 4096 }
    ensures { (net : Network) → IfOk result (IsStep net spot.now instrs.Halt way.old way.new) }
{
    way.machine.outcome = Outcome::Halted;
    Ok(Step::Stops)
}

/// What an operator makes of two registers goes into a register.
fn operate(way: &mut Way, op: Op, a: u8, b: u8, c: u8) -> Result<Step, AllocError>
    requires a { a < 16 }
    requires b { b < 16 }
    requires c { c < 16 }
    requires place { way.old.pc < 4096 }
    ensures { (net : Network) (spot : SpotOf) → IfOk result (IsOperateStep net spot op a b c way.old way.new) }
{
    let x = way.register(b);
    let y = way.register(c);
    let r = way.apply(op, x, y)?;
    Ok(set(way, a, r))
}

macro_rules! step_arms {
    (
        [$spot:ident $way:ident $instr:ident]
        operators [$(($code:literal, $name:literal, $variant:ident, $shape:ident, $act:ident, $fields:tt))*]
        others [$(($c:literal, $n:literal, $other:ident, $s:ident, $does:ident, [$($field:ident $place:ident),*]))*]
    ) => {
        match $instr {
            $(Instr::$variant { a, b, c } => operate($way, Op::$variant, a, b, c),)*
            $(Instr::$other { $($field),* } => $does($spot, $way, $($field),*),)*
        }
    };
}

/// What an instruction of an event at a place does to a way.
pub fn execute(net: &Net, spot: &Spot, instr: Instr, way: &mut Way) -> Result<Step, AllocError>
    requires place { IsIn net.now.network spot.now }
    requires fits { way.old.pc < 4096 }
    requires valid { IsInstr (length (code_of net.now.network spot.now.node).instrs) instr }
    ensures { IfOk result (IsStep net.now.network spot.now instr way.old way.new) }
{
    let _ = net;
    grouped_rows!(step_arms spot way instr)
}

/// Takes one side of a decision: bit 0 where the literal holds, or bit 1 where it does not.
pub fn take_side(
    net: &Net,
    spot: &Spot,
    instr: Instr,
    bit: bool,
    way: &mut Way,
) -> Result<(), AllocError>
    requires place { IsIn net.now.network spot.now }
    requires fits { way.old.pc < 4096 }
    requires valid { IsInstr (length (code_of net.now.network spot.now.node).instrs) instr }
    requires decides { IsDecision instr }
    ensures way { OnOk result (AlikeWay (way_of way.new) (side_at (here_of net.now.network spot.now) instr bit (way_of way.old))) }
    ensures row { OnOk result (IsRow spot.now.node spot.now.history way.old way.new) }
    ensures grows { OnOk result (Extends way.old.terms way.new.terms) }
{
    let _ = net;
    if bit {
        take_second(spot, instr, way);
        return Ok(());
    }
    take_first(instr, way)
}

/// Bit 0 of a decision: a word is read or written at an index, if any, and the next instruction comes.
fn take_first(instr: Instr, way: &mut Way) -> Result<(), AllocError>
    requires fits { way.old.pc < 4096 }
    requires valid { (count : ℕ) × IsInstr count instr }
    requires decides { IsDecision instr }
    ensures way { (net : Network) (spot : SpotOf) → OnOk result (AlikeWay (way_of way.new) (side_at (here_of net spot) instr false (way_of way.old))) }
    ensures changed { OnOk result (IsChanged way.old way.new) }
{
    match instr {
        Instr::Ldx { a, b, m, n } => {
            let r = load(way, b, m, n)?;
            set(way, a, r);
        }
        Instr::Stx { a, b, m, n } => {
            store(way, a, b, m, n)?;
            way.advance();
        }
        _ => way.advance(),
    }
    Ok(())
}

/// Bit 1 of a decision: another instruction comes, or the node fails.
fn take_second(spot: &Spot, instr: Instr, way: &mut Way)
    requires decides { IsDecision instr }
    ensures way { (net : Network) → AlikeWay (way_of way.new) (side_at (here_of net spot.now) instr true (way_of way.old)) }
    ensures still { IsStill way.old way.new }
{
    match instr {
        Instr::Brz { to, .. } => way.jump(to),
        Instr::Assert { .. } => fail(spot.tick, FailKind::Assert, way),
        _ => fail(spot.tick, FailKind::Bounds, way),
    }
}
