//! From a text to a program.

ghost use Rattle.std.specs.Prelude.{◌≡◌, ◌-◌, ◌<◌, ◌^◌, ℕ, List, map, length, Ok, IfOk, IfSome};
ghost use Rattle.std.specs.List.{flat_map};
ghost use Rattle.std.specs.Option.{option_to_list};
ghost use Rattle.indexmap.specs.IndexMap.{get_by_text};
ghost use Rattle.kn_code.specs.Code.{IsValid};
ghost use Rattle.kn_asm.specs.Lines.{target_of_lem, AreSound};
ghost use Rattle.kn_asm.specs.Assembling.{instrs_in, place_of, is_miscounted, fault_given_lem, first_fault_lem, aimed_lem, target_place, settled_lem, handler_names, program_of_lem, assembled, Gives};

use crate::fault::{AsmCause, AsmFault};
use crate::labels::{collect, is_lost, is_twice, note_line, place};
use crate::line::{Line, counted, lines_of};
use indexmap::IndexMap;
use kn_code::{INSTRUCTIONS, Instr, Program};
use std::alloc::{AllocError, Global};

/// How many instructions some lines hold.
fn count_instrs(lines: &[Line]) -> usize
    ensures { result ≡ instrs_in lines.now }
{
    let mut total = 0;
    for line in lines {
        total += counted(line);
    }
    total
}

/// Whether a line holds the instruction past the last that a program may have, or is the last line and there is none.
fn is_miscounted(line: &Line, before: usize, is_last: bool) -> bool
    requires { before < 2 ^ 64 - 1 }
    ensures { result ≡ is_miscounted line.now.content before is_last }
{
    (line.is_instr() && before == INSTRUCTIONS) || (is_last && before + counted(line) == 0)
}

/// The first fault of a line: whether its label stands before and its target nowhere, how many instructions stand before and
/// after it, and whether it is the last line.
fn fault_given(
    line: &Line,
    twice: bool,
    lost: bool,
    before: usize,
    after: usize,
    is_last: bool,
) -> Option<AsmCause>
    requires { before < 2 ^ 64 - 1 }
    ensures { result ≡ fault_given_lem line.now twice lost before after is_last }
{
    if let Some(cause) = line.wrong() {
        return Some(cause);
    }
    if twice {
        return Some(AsmCause::Twice);
    }
    if lost {
        return Some(AsmCause::NoLabel);
    }
    if is_miscounted(line, before, is_last) {
        return Some(AsmCause::Count);
    }
    if after == 0 && line.is_open() {
        return Some(AsmCause::End);
    }
    None
}

/// The first fault of some lines whose labels are given. Only want of memory is an error.
fn first_fault(
    alloc: Global,
    lines: &[Line],
    labels: &IndexMap<String, usize>,
) -> Result<Option<AsmFault>, AllocError>
    requires { (q : List ℕ) → get_by_text labels.now q ≡ place_of lines.now q }
    ensures { IfOk result (λ f. f ≡ first_fault_lem lines.now) }
{
    let total = count_instrs(lines);
    let mut seen = IndexMap::new(alloc);
    let mut before = 0;
    for (index, line) in lines.iter().enumerate() {
        let count = counted(line);
        let fault = fault_given(
            line,
            is_twice(&seen, line),
            is_lost(labels, line),
            before,
            total - before - count,
            index + 1 == lines.len(),
        );
        if let Some(cause) = fault {
            return Ok(Some(AsmFault::Refused {
                line: index + 1,
                cause,
            }));
        }
        note_line(alloc, &mut seen, line, before)?;
        before += count;
    }
    Ok(None)
}

/// An instruction with its target, if it has one.
fn aimed(instr: Instr, to: u16) -> Instr
    ensures { result ≡ aimed_lem instr to }
{
    match instr {
        Instr::Jmp { .. } => Instr::Jmp { to },
        Instr::Brz { a, .. } => Instr::Brz { a, to },
        other => other,
    }
}

/// The place of a line's target, or 0 where it has none.
fn place_of_target(labels: &IndexMap<String, usize>, line: &Line) -> u16
    requires { (q : List ℕ) → IfSome (get_by_text labels.now q) (λ p. p < 2 ^ 16) }
    ensures { result ≡ target_place (λ q. get_by_text labels.now q) (target_of_lem line.now.content) }
{
    match line.target() {
        None => 0,
        Some(name) => place(labels, name).unwrap_or(0),
    }
}

/// The instruction of a line with its target's place.
fn settled(labels: &IndexMap<String, usize>, line: &Line) -> Option<Instr>
    requires { (q : List ℕ) → IfSome (get_by_text labels.now q) (λ p. p < 2 ^ 16) }
    ensures { option_to_list result ≡ settled_lem (λ q. get_by_text labels.now q) line.now.content }
{
    match line.instr() {
        None => None,
        Some(instr) => Some(aimed(instr, place_of_target(labels, line))),
    }
}

/// The instructions of some lines with their targets' places. Only want of memory is an error.
fn instrs_of(
    alloc: Global,
    lines: &[Line],
    labels: &IndexMap<String, usize>,
) -> Result<Vec<Instr>, AllocError>
    requires { (q : List ℕ) → IfSome (get_by_text labels.now q) (λ p. p < 2 ^ 16) }
    ensures { IfOk result (λ v. v.items ≡ flat_map (λ l. settled_lem (λ q. get_by_text labels.now q) l.content) lines.now) }
{
    let mut instrs = Vec::new(alloc);
    for line in lines {
        if let Some(instr) = settled(labels, line) {
            match instrs.push(instr) {
                Ok(()) => {}
                Err(_) => return Err(AllocError),
            }
        }
    }
    Ok(instrs)
}

/// The places of the handlers' labels.
fn handlers_of(labels: &IndexMap<String, usize>) -> [Option<u16>; 10]
    requires { (q : List ℕ) → IfSome (get_by_text labels.now q) (λ p. p < 2 ^ 16) }
    ensures { result ≡ map (λ q. get_by_text labels.now q) handler_names }
{
    [
        place(labels, "boot"),
        place(labels, "recv"),
        place(labels, "timer0"),
        place(labels, "timer1"),
        place(labels, "timer2"),
        place(labels, "timer3"),
        place(labels, "timer4"),
        place(labels, "timer5"),
        place(labels, "timer6"),
        place(labels, "timer7"),
    ]
}

/// The program of some lines, or their first fault.
fn program_of(alloc: Global, lines: &[Line]) -> Result<Program, AsmFault>
    requires some { 0 < length lines.now }
    requires sound { AreSound lines.now }
    ensures { Gives result (program_of_lem lines.now) }
{
    let labels = match collect(alloc, lines) {
        Ok(labels) => labels,
        Err(e) => return Err(AsmFault::Memory(e)),
    };
    match first_fault(alloc, lines, &labels) {
        Err(e) => return Err(AsmFault::Memory(e)),
        Ok(Some(fault)) => return Err(fault),
        Ok(None) => {}
    }
    let handlers = handlers_of(&labels);
    match instrs_of(alloc, lines, &labels) {
        Ok(instrs) => Ok(Program { instrs, handlers }),
        Err(e) => Err(AsmFault::Memory(e)),
    }
}

/// The program that a text describes. `Refused` gives the first line with a fault, counted from 1, and its cause; at one
/// line the causes come in this order:
/// - `Syntax`: the line is not of the form: blanks; a label with `:`, if any; blanks; a mnemonic and, behind a blank, its
///   operands, if any; blanks; a comment from `;`, if any. Blanks are spaces and tabs. A label and a mnemonic are 1 to 32
///   ASCII letters, digits and `_`, and begin with no digit. Commas separate operands, and blanks may stand round them: a
///   register `r0` to `r15`, a number to 65535 without leading zeros or `0x` with one to four hexadecimal digits, or a label.
/// - `Mnemonic`: no instruction has the name.
/// - `Operand`: the number, the kind or the range of an operand is not the instruction's.
/// - `Twice`: the label stands on an earlier line.
/// - `NoLabel`: the target is no label of the text.
/// - `Count`: it is the last line and the text has no instruction, or it holds the instruction past the 4,096th.
/// - `End`: it holds the last instruction, which is none of `jmp`, `ret`, `halt`, or a label with no instruction behind it.
///
/// A label names the next instruction, and the labels `boot`, `recv` and `timer0` to `timer7` are the handlers. A line that
/// is not of the form holds no label and no instruction; one with another fault still does. `Memory` is want of memory.
pub fn assemble(alloc: Global, text: &str) -> Result<Program, AsmFault>
    // What is read is valid, and what the text is assembled to.
    ensures found { IfOk result (λ p. IsValid p × (assembled text.now ≡ Ok p)) }
    // The program or the first fault of the text is given, unless memory runs out.
    ensures exact { Gives result (assembled text.now) }
{
    let lines = match lines_of(alloc, text) {
        Ok(lines) => lines,
        Err(e) => return Err(AsmFault::Memory(e)),
    };
    match program_of(alloc, &lines) {
        Ok(program) => {
            program.validity();
            Ok(program)
        }
        Err(fault) => Err(fault),
    }
}
