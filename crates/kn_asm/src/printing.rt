//! From a program to a text.

ghost use Rattle.std.specs.Prelude.{◌≡◌, ◌<◌, [], ◌++◌, codes, length, IfOk, OnOk, if◌then◌else◌, slice_index_or, string_bytes};
ghost use Rattle.std.specs.List.{flat_map, list_any};
ghost use Rattle.kn_asm.specs.Assembling.{handler_names};
ghost use Rattle.kn_asm.specs.Printing.{slot_text, operands_text, instr_text, goes_to, is_at, label_line, handler_lines, place_text, lines_text, disassembled};

use crate::meaning::{Slot, slots_of};
use kn_code::{Instr, Program, Row, row_of};
use kn_ops::instruction_table;
use std::alloc::{AllocError, Global};

/// Appends the operand that a field holds.
fn put_slot(text: &mut String, slot: Slot, row: Row) -> Result<(), AllocError>
    ensures { OnOk result (string_bytes text.new ≡ string_bytes text.old ++ slot_text slot row) }
{
    match slot {
        Slot::RegisterA => write!(text, "r{}", row.a),
        Slot::RegisterB => write!(text, "r{}", row.b),
        Slot::RegisterC => write!(text, "r{}", row.c),
        Slot::ByteA => write!(text, "{}", row.a),
        Slot::WordP => write!(text, "{}", row.p),
        Slot::WordQ => write!(text, "{}", row.q),
        Slot::TargetP => write!(text, "L{}", row.p),
    }
}

/// Appends the operands behind the first one, each behind a comma.
fn put_others(text: &mut String, slots: &[Slot], row: Row) -> Result<(), AllocError>
    ensures { OnOk result (string_bytes text.new ≡ string_bytes text.old ++ flat_map (λ x. codes ", " ++ slot_text x row) slots.now) }
{
    for slot in slots {
        text.push_str(", ")?;
        put_slot(text, *slot, row)?;
    }
    Ok(())
}

/// Appends a blank and the operands, with commas between them.
fn put_operands(text: &mut String, slots: &[Slot], row: Row) -> Result<(), AllocError>
    ensures { OnOk result (string_bytes text.new ≡ string_bytes text.old ++ operands_text slots.now row) }
{
    match slots {
        [] => Ok(()),
        [first, others @ ..] => {
            text.push_str(" ")?;
            put_slot(text, *first, row)?;
            put_others(text, others, row)
        }
    }
}

/// Appends the line of an instruction.
#[tactic(auto, unfolding(crate::specs::Printing::instr_text))]
fn put_instr(text: &mut String, instr: Instr) -> Result<(), AllocError>
    ensures { OnOk result (string_bytes text.new ≡ string_bytes text.old ++ instr_text instr) }
{
    let row = row_of(instr);
    match instruction_table().by_code(row.code) {
        None => Ok(()),
        Some(entry) => {
            text.push_str("  ")?;
            text.push_str(entry.name)?;
            put_operands(text, slots_of(entry.shape), row)?;
            text.push_str("\n")
        }
    }
}

fn goes_to(instr: Instr, index: usize) -> bool
    ensures { result ≡ goes_to index instr }
{
    match instr {
        Instr::Jmp { to } | Instr::Brz { to, .. } => to as usize == index,
        _ => false,
    }
}

/// Whether an index is some instruction's target.
fn is_target(instrs: &[Instr], index: usize) -> bool
    ensures { result ≡ list_any (goes_to index) instrs.now }
{
    for instr in instrs {
        if goes_to(*instr, index) {
            return true;
        }
    }
    false
}

/// Appends the label of an index that is some instruction's target.
fn put_label(text: &mut String, instrs: &[Instr], index: usize) -> Result<(), AllocError>
    ensures { OnOk result (string_bytes text.new ≡ string_bytes text.old ++ label_line (list_any (goes_to index) instrs.now) index) }
{
    if is_target(instrs, index) {
        return write!(text, "L{index}:\n");
    }
    Ok(())
}

/// The label of a handler.
fn handler_name(number: usize) -> &'static str
    requires { number < 10 }
    ensures { result.now ≡ slice_index_or handler_names number [] }
{
    match number {
        0 => "boot",
        1 => "recv",
        2 => "timer0",
        3 => "timer1",
        4 => "timer2",
        5 => "timer3",
        6 => "timer4",
        7 => "timer5",
        8 => "timer6",
        _ => "timer7",
    }
}

fn is_at(entry: Option<u16>, index: usize) -> bool
    ensures { result ≡ is_at index entry }
{
    match entry {
        None => false,
        Some(place) => place as usize == index,
    }
}

/// Appends the label of a handler that begins at an index.
fn put_handler(
    text: &mut String,
    number: usize,
    entry: Option<u16>,
    index: usize,
) -> Result<(), AllocError>
    requires { number < 10 }
    ensures { OnOk result (string_bytes text.new ≡ string_bytes text.old ++ (if is_at index entry then slice_index_or handler_names number [] ++ codes ":\n" else [])) }
{
    if is_at(entry, index) {
        text.push_str(handler_name(number))?;
        return text.push_str(":\n");
    }
    Ok(())
}

/// Appends the labels of the handlers that begin at an index.
fn put_handlers(text: &mut String, handlers: &[Option<u16>], index: usize) -> Result<(), AllocError>
    requires { length handlers.now ≡ 10 }
    ensures { OnOk result (string_bytes text.new ≡ string_bytes text.old ++ handler_lines index 0 handlers.now) }
{
    for (number, entry) in handlers.iter().enumerate() {
        put_handler(text, number, *entry, index)?;
    }
    Ok(())
}

/// Appends the lines of the instruction at an index.
fn put_place(
    text: &mut String,
    instrs: &[Instr],
    handlers: &[Option<u16>],
    index: usize,
    instr: Instr,
) -> Result<(), AllocError>
    requires { length handlers.now ≡ 10 }
    ensures { OnOk result (string_bytes text.new ≡ string_bytes text.old ++ place_text instrs.now handlers.now index instr) }
{
    put_handlers(text, handlers, index)?;
    put_label(text, instrs, index)?;
    put_instr(text, instr)
}

/// Appends the lines of a program.
#[tactic(auto, unfolding(crate::specs::Printing::lines_text))]
fn put_lines(
    text: &mut String,
    instrs: &[Instr],
    handlers: &[Option<u16>],
) -> Result<(), AllocError>
    requires { length handlers.now ≡ 10 }
    ensures { OnOk result (string_bytes text.new ≡ string_bytes text.old ++ lines_text instrs.now handlers.now 0 instrs.now) }
{
    for (index, instr) in instrs.iter().enumerate() {
        put_place(text, instrs, handlers, index, *instr)?;
    }
    Ok(())
}

/// The text of a program: for each instruction in order a line for each handler label that names it, in the order of the
/// handlers, a line `L` and its index and `:` if some target is it, and a line of two spaces and the instruction, with `, `
/// between operands and decimal numbers. Each line ends with a line feed. Only want of memory is an error.
#[tactic(auto, unfolding(crate::specs::Printing::disassembled))]
pub fn disassemble(alloc: Global, program: &Program) -> Result<String, AllocError>
    ensures { IfOk result (λ s. string_bytes s ≡ disassembled program.now) }
{
    let mut text = String::new(alloc);
    put_lines(&mut text, &program.instrs, &program.handlers)?;
    Ok(text)
}
