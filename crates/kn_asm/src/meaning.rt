//! What a mnemonic and its operands mean.

ghost use Rattle.std.specs.Prelude.{◌≡◌, map, true, IfOk};
ghost use Rattle.std.specs.Option.{option_map};
ghost use Rattle.std.specs.List.{list_all};
ghost use Rattle.kn_ops.specs.Table.{entry_of};
ghost use Rattle.kn_code.specs.Rows.{the_row};
ghost use Rattle.kn_asm.specs.Words.{is_word};
ghost use Rattle.kn_asm.specs.Operands.{operand_view, number};
ghost use Rattle.kn_asm.specs.declared.meaning.Slot.TheVariants.{ByteA};
ghost use Rattle.kn_asm.specs.Meaning.{body_view, slots_lem, put_lem, filled_lem, instr_with_lem, target_in_lem, meaning_lem};

use crate::fault::AsmCause;
use crate::operand::Operand;
use crate::words::text_of;
use kn_code::{Instr, Row, instr_of};
use kn_ops::{Shape, instruction_table};
use std::alloc::{AllocError, Global};

/// An operand's kind, and the field of the bytecode where it stands.
#[derive(Clone, Copy)]
pub enum Slot {
    RegisterA,
    RegisterB,
    RegisterC,
    ByteA,
    WordP,
    WordQ,
    TargetP,
}

/// What a line holds behind its label.
#[derive(Debug, Drop)]
pub enum Body {
    Nothing,
    Wrong(AsmCause),
    /// An instruction, and the label that its target is; until that is found, the target is 0.
    Does(Instr, Option<String>),
}

/// Which operands an instruction has, in the order of its text.
pub fn slots_of(shape: Shape) -> &'static [Slot]
    ensures { result.now ≡ slots_lem shape }
{
    match shape {
        Shape::RegWord | Shape::RegMem => &[Slot::RegisterA, Slot::WordP],
        Shape::RegWidth | Shape::RegIndex => &[Slot::RegisterA, Slot::WordP],
        Shape::RegReg => &[Slot::RegisterA, Slot::RegisterB],
        Shape::MemReg => &[Slot::WordP, Slot::RegisterA],
        Shape::RegRegSpan => &[Slot::RegisterA, Slot::RegisterB, Slot::WordP, Slot::WordQ],
        Shape::Target => &[Slot::TargetP],
        Shape::RegTarget => &[Slot::RegisterA, Slot::TargetP],
        Shape::TimerDelay => &[Slot::ByteA, Slot::WordP],
        Shape::TimerOnly => &[Slot::ByteA],
        Shape::LinkRegCount => &[Slot::WordP, Slot::RegisterB, Slot::ByteA],
        Shape::RegCount => &[Slot::RegisterB, Slot::ByteA],
        Shape::RegRegReg => &[Slot::RegisterA, Slot::RegisterB, Slot::RegisterC],
        Shape::Reg => &[Slot::RegisterA],
        Shape::Bare => &[],
    }
}

fn with_byte(row: Row, value: u16) -> Option<Row>
    ensures { result ≡ put_lem ByteA (number value) row }
{
    match u8::try_from(value) {
        Ok(a) => Some(Row { a, ..row }),
        Err(_) => None,
    }
}

/// The row with an operand in its field, where it is of the right kind. A target's field stays.
fn put(slot: Slot, operand: &Operand, row: Row) -> Option<Row>
    ensures { result ≡ put_lem slot (operand_view operand.now) row }
{
    match (slot, operand) {
        (Slot::RegisterA, Operand::Register(a)) => Some(Row { a: *a, ..row }),
        (Slot::RegisterB, Operand::Register(b)) => Some(Row { b: *b, ..row }),
        (Slot::RegisterC, Operand::Register(c)) => Some(Row { c: *c, ..row }),
        (Slot::ByteA, Operand::Number(value)) => with_byte(row, *value),
        (Slot::WordP, Operand::Number(p)) => Some(Row { p: *p, ..row }),
        (Slot::WordQ, Operand::Number(q)) => Some(Row { q: *q, ..row }),
        (Slot::TargetP, Operand::Name(_)) => Some(row),
        _ => None,
    }
}

/// The row with all operands in their fields, where there are as many.
fn filled(slots: &[Slot], operands: &[Operand], bare: Row) -> Option<Row>
    ensures { result ≡ filled_lem slots.now (map operand_view operands.now) bare }
{
    let mut row = bare;
    for (index, slot) in slots.iter().enumerate() {
        if index >= operands.len() {
            return None;
        }
        match put(*slot, &operands[index], row) {
            None => return None,
            Some(next) => row = next,
        }
    }
    if operands.len() > slots.len() {
        return None;
    }
    Some(row)
}

fn bare_row(code: u8) -> Row
    ensures { result ≡ the_row code 0 0 0 0 0 }
{
    Row {
        code,
        a: 0,
        b: 0,
        c: 0,
        p: 0,
        q: 0,
    }
}

/// The instruction of a row of the instruction table with some operands, where a valid program may hold it but for its target.
fn instr_with(row: kn_ops::Row, operands: &[Operand]) -> Option<Instr>
    ensures { result ≡ instr_with_lem (entry_of row) (map operand_view operands.now) }
{
    match filled(slots_of(row.shape), operands, bare_row(row.code)) {
        None => None,
        Some(fields) => match instr_of(fields, 1, false) {
            Ok(instr) => Some(instr),
            Err(_) => None,
        },
    }
}

/// The first name among some operands.
fn target_in(operands: &[Operand]) -> Option<&str>
    ensures { option_map (λ s. s.now) result ≡ target_in_lem (map operand_view operands.now) }
{
    for operand in operands {
        if let Operand::Name(name) = operand {
            return Some(name.as_str());
        }
    }
    None
}

/// What a mnemonic and its operands mean. Only want of memory is an error.
pub fn meaning(alloc: Global, mnemonic: &[u8], operands: &[Operand]) -> Result<Body, AllocError>
    requires { list_all is_word mnemonic.now ≡ true }
    ensures { IfOk result (λ b. body_view b ≡ meaning_lem mnemonic.now (map operand_view operands.now)) }
{
    let Some(row) = instruction_table().by_name(text_of(mnemonic)) else {
        return Ok(Body::Wrong(AsmCause::Mnemonic));
    };
    let Some(instr) = instr_with(row, operands) else {
        return Ok(Body::Wrong(AsmCause::Operand));
    };
    match target_in(operands) {
        None => Ok(Body::Does(instr, None)),
        Some(name) => match String::from_str(alloc, name) {
            Ok(target) => Ok(Body::Does(instr, Some(target))),
            Err(e) => Err(e),
        },
    }
}
