//! The eight bytes of an instruction.

ghost use Rattle.std.specs.Prelude.{◌≡◌, ◌+◌, ◌≤◌, ◌++◌, length, OnOk};
ghost use Rattle.kn_code.specs.Rows.{row_bytes, row_of_lem, the_row};
ghost use Rattle.kn_code.specs.Decoding.{by_opcode_lem, is_span_lem, is_memory_span_lem, are_registers_lem, is_in_range_lem, may_stand_lem, checked_lem, instr_of_lem, row_at_lem};

use crate::program::Instr;
use kn_ops::instruction_rows;
use std::alloc::AllocError;

/// An instruction's opcode and fields, in the order of its eight bytes.
#[derive(Clone, Copy, PartialEq)]
pub struct Row {
    pub code: u8,
    pub a: u8,
    pub b: u8,
    pub c: u8,
    pub p: u16,
    pub q: u16,
}

/// What is wrong with a row.
#[derive(Clone, Copy)]
pub enum RowFault {
    /// No instruction has the opcode.
    Opcode,
    /// A field is out of its range, or one that the instruction does not use is not 0.
    Field,
    /// A target is not below the number of instructions, or the last instruction is none of `jmp`, `ret`, `halt`.
    Target,
}

fn checked(fields: bool, target: bool, instr: Instr) -> Result<Instr, RowFault>
    ensures { result ≡ checked_lem fields target instr }
{
    if !fields {
        return Err(RowFault::Field);
    }
    if !target {
        return Err(RowFault::Target);
    }
    Ok(instr)
}

macro_rules! opcode_arms {
    ([$row:expr] $(($code:literal, $name:literal, $variant:ident, $shape:ident, $act:ident, [$($field:ident $place:ident),*]))*) => {
        match $row.code {
            $($code => Some(Instr::$variant { $($field: $row.$place),* }),)*
            _ => None,
        }
    };
}

/// The instruction that the opcode makes of the fields, whatever they are; None for an opcode of no instruction.
fn by_opcode(row: Row) -> Option<Instr>
    ensures { result ≡ by_opcode_lem row }
{
    instruction_rows!(opcode_arms row)
}

/// Whether there is the first register, and so many from it on may be sent.
fn is_span(first: u8, count: u8) -> bool
    ensures { result ≡ is_span_lem first count }
{
    first < 16 && count <= 8 && first + count <= 16
}

/// Whether there are so many words of memory from one on, and 1 to 16 of them.
fn is_memory_span(first: u16, count: u16) -> bool
    ensures { result ≡ is_memory_span_lem first count }
{
    first < 64 && count >= 1 && count <= 16 && first + count <= 64
}

/// Whether there are the three registers of an operator.
fn are_registers(a: u8, b: u8, c: u8) -> bool
    ensures { result ≡ are_registers_lem a b c }
{
    a < 16 && b < 16 && c < 16
}

/// Whether the fields that the instruction uses are in range.
fn is_in_range(instr: Instr) -> bool
    ensures { result ≡ is_in_range_lem instr }
{
    match instr {
        Instr::Const { a, .. } => a < 16,
        Instr::Mov { a, b } | Instr::Not { a, b } => a < 16 && b < 16,
        Instr::Ld { a, m } => a < 16 && m < 64,
        Instr::St { m, a } => m < 64 && a < 16,
        Instr::Ldx { a, b, m, n } => a < 16 && b < 16 && is_memory_span(m, n),
        Instr::Stx { a, b, m, n } => a < 16 && b < 16 && is_memory_span(m, n),
        Instr::Brz { a, .. } => a < 16,
        Instr::Input { a, w } => a < 16 && w >= 1 && w <= 16,
        Instr::Timer { k, d } => k < 8 && d >= 1,
        Instr::Cancel { k } => k < 8,
        Instr::Send { b, n, .. } => is_span(b, n),
        Instr::Bcast { b, n } => is_span(b, n),
        Instr::Recvw { a, k } => a < 16 && k < 8,
        Instr::Add { a, b, c } => are_registers(a, b, c),
        Instr::Sub { a, b, c } => are_registers(a, b, c),
        Instr::Mul { a, b, c } => are_registers(a, b, c),
        Instr::And { a, b, c } => are_registers(a, b, c),
        Instr::Or { a, b, c } => are_registers(a, b, c),
        Instr::Xor { a, b, c } => are_registers(a, b, c),
        Instr::Shl { a, b, c } => are_registers(a, b, c),
        Instr::Shr { a, b, c } => are_registers(a, b, c),
        Instr::Sar { a, b, c } => are_registers(a, b, c),
        Instr::Udiv { a, b, c } => are_registers(a, b, c),
        Instr::Urem { a, b, c } => are_registers(a, b, c),
        Instr::Eq { a, b, c } => are_registers(a, b, c),
        Instr::Ult { a, b, c } => are_registers(a, b, c),
        Instr::Slt { a, b, c } => are_registers(a, b, c),
        Instr::Rlen { a } | Instr::Rfrom { a } | Instr::Assert { a } => a < 16,
        Instr::Node { a } | Instr::Now { a } => a < 16,
        Instr::Jmp { .. } | Instr::Ret | Instr::Halt => true,
    }
}

/// Whether the instruction may stand among `count`, as the last one or not: a jump goes to one of them, and the last one
/// does not go on to a next one.
fn may_stand(instr: Instr, count: u16, is_last: bool) -> bool
    ensures { result ≡ may_stand_lem count is_last instr }
{
    match instr {
        Instr::Jmp { to } => to < count,
        Instr::Brz { to, .. } => to < count && !is_last,
        Instr::Ret | Instr::Halt => true,
        _ => !is_last,
    }
}

/// The instruction of a row among `count`, which is the last one or not. The fields are tested before the target: they are
/// in range, and those that the instruction does not use are 0, as in its own row.
pub fn instr_of(row: Row, count: u16, is_last: bool) -> Result<Instr, RowFault>
    ensures { result ≡ instr_of_lem count is_last row }
{
    match by_opcode(row) {
        None => Err(RowFault::Opcode),
        Some(instr) => checked(
            row_of(instr) == row && is_in_range(instr),
            may_stand(instr, count, is_last),
            instr,
        ),
    }
}

/// The row of an opcode whose fields are all 0.
fn bare_row(code: u8) -> Row
    ensures { result ≡ the_row code 0 0 0 0 0 }
{
    Row {
        code,
        a: 0,
        b: 0,
        c: 0,
        p: 0,
        q: 0,
    }
}

macro_rules! row_arms {
    ([$instr:expr] $(($code:literal, $name:literal, $variant:ident, $shape:ident, $act:ident, [$($field:ident $place:ident),*]))*) => {
        match $instr {
            $(Instr::$variant { $($field),* } => Row { $($place: $field,)* ..bare_row($code) },)*
        }
    };
}

/// The row of an instruction; fields that it does not use are 0.
pub fn row_of(instr: Instr) -> Row
    ensures { result ≡ row_of_lem instr }
{
    instruction_rows!(row_arms instr)
}

/// The row at a place.
pub fn row_at(bytes: &[u8], place: usize) -> Row
    requires { place + 8 ≤ length bytes.now }
    ensures { result ≡ row_at_lem bytes.now place }
{
    Row {
        code: bytes[place],
        a: bytes[place + 1],
        b: bytes[place + 2],
        c: bytes[place + 3],
        p: u16::from_be_bytes([bytes[place + 4], bytes[place + 5]]),
        q: u16::from_be_bytes([bytes[place + 6], bytes[place + 7]]),
    }
}

/// Appends the bytes of a row.
pub fn put_row(out: &mut Vec<u8>, row: Row) -> Result<(), AllocError>
    ensures { OnOk result (out.new.items ≡ out.old.items ++ row_bytes row) }
{
    out.extend_from_slice(&[row.code, row.a, row.b, row.c])?;
    out.extend_from_slice(&row.p.to_be_bytes())?;
    out.extend_from_slice(&row.q.to_be_bytes())?;
    Ok(())
}
