//! What is wrong with the texts of a program.

use kn_asm::{AsmCause, AsmFault, assemble};
use kn_code::{CodeFault, decode};
use kn_ops::{Shape, instruction_table};
use std::alloc::{AllocError, Global};

/// How the operands of an instruction are written.
fn operands(shape: Shape) -> &'static str {
    match shape {
        Shape::RegWord => " rA, n with n from 0 to 65535",
        Shape::RegReg => " rA, rB",
        Shape::RegMem => " rA, m with m from 0 to 63",
        Shape::MemReg => " m, rA with m from 0 to 63",
        Shape::RegRegSpan => " rA, rB, m, n with n from 1 to 16 and m + n at most 64",
        Shape::Target => " L with L a label",
        Shape::RegTarget => " rA, L with L a label",
        Shape::RegWidth => " rA, w with w from 1 to 16",
        Shape::TimerDelay => " k, d with k from 0 to 7 and d from 1 to 65535",
        Shape::TimerOnly => " k with k from 0 to 7",
        Shape::LinkRegCount => " l, rB, n with n from 0 to 8 and B + n at most 16",
        Shape::RegCount => " rB, n with n from 0 to 8 and B + n at most 16",
        Shape::RegIndex => " rA, k with k from 0 to 7",
        Shape::RegRegReg => " rA, rB, rC",
        Shape::Reg => " rA",
        Shape::Bare => " alone",
    }
}

/// What is wrong with a line.
fn cause_words(cause: AsmCause) -> &'static str {
    match cause {
        AsmCause::Syntax => "it is not of the form `label: instruction operand, operand ; comment`",
        AsmCause::Mnemonic => "no instruction has this name",
        AsmCause::Operand => "the number, the kind or the range of its operands is wrong",
        AsmCause::Twice => "its label stands on an earlier line",
        AsmCause::NoLabel => "its target is no label of the text",
        AsmCause::Count => "a program has 1 to 4096 instructions",
        AsmCause::End => {
            "the last instruction must be jmp, ret or halt, and behind each label there must be one"
        }
    }
}

/// How the instruction of a line is written, where one of its words is an instruction's name; else nothing.
fn form_of(alloc: Global, line: &str) -> Result<String, AllocError> {
    let table = instruction_table();
    for word in line.split(|c: char| !c.is_ascii_alphanumeric() && c != '_') {
        if let Some(row) = table.by_name(word) {
            let operands = operands(row.shape);
            return format!(in alloc; "It is written {word}{operands}.\n");
        }
    }
    Ok(String::new(alloc))
}

/// What is wrong with a line of assembler text, and the line.
fn line_sentence(
    alloc: Global,
    text: &str,
    line: usize,
    cause: AsmCause,
) -> Result<String, AllocError> {
    let words = cause_words(cause);
    let stands = text.split('\n').nth(line.saturating_sub(1)).unwrap_or("");
    let mut sentence = format!(in alloc; "Line {line} of the text: {words}.\n    {stands}\n")?;
    if cause == AsmCause::Operand {
        sentence.push_str(&form_of(alloc, stands)?)?;
    }
    Ok(sentence)
}

/// What is wrong with assembler text.
pub fn asm_sentence(alloc: Global, text: &str) -> Result<String, AllocError> {
    match assemble(alloc, text) {
        Err(AsmFault::Refused { line, cause }) => line_sentence(alloc, text, line, cause),
        Err(AsmFault::Memory(error)) => Err(error),
        Ok(_) => Ok(String::new(alloc)),
    }
}

/// What is wrong with bytecode.
fn bytes_sentence(alloc: Global, fault: &CodeFault) -> Result<String, AllocError> {
    match fault {
        CodeFault::Length { place } => {
            format!(in alloc;
                "There are {place} bytes, and 22 and 8 for each of the 1 to 4096 instructions that the first two bytes count are wanted.\n"
            )
        }
        CodeFault::Handler { place } => {
            format!(in alloc;
                "The handler at byte {place} is neither 65535 nor the index of an instruction.\n"
            )
        }
        CodeFault::Opcode { place } => {
            format!(in alloc; "The byte {place} is no instruction's code.\n")
        }
        CodeFault::Field { place } => {
            format!(in alloc;
                "The instruction at byte {place} has a field out of its range, or one that it does not use and that is not 0.\n"
            )
        }
        CodeFault::Target { place } => {
            format!(in alloc;
                "The instruction at byte {place} has a target that is no instruction, or is the last one and none of jmp, ret and halt.\n"
            )
        }
        CodeFault::Memory(_) => Err(AllocError),
    }
}

/// What is wrong with a program's bytecode in hexadecimal digits.
pub fn code_sentence(alloc: Global, text: &str) -> Result<String, AllocError> {
    let bytes = match hex::decode(alloc, text) {
        Ok(bytes) => bytes,
        Err(hex::FromHexError::InvalidHexCharacter { c, index }) => {
            return format!(in alloc;
                "The character {c:?} at place {index} is no hexadecimal digit.\n"
            );
        }
        Err(hex::FromHexError::OutOfMemory) => return Err(AllocError),
        Err(_) => return format!(in alloc; "The number of digits is odd.\n"),
    };
    match decode(alloc, &bytes) {
        Err(fault) => bytes_sentence(alloc, &fault),
        Ok(_) => Ok(String::new(alloc)),
    }
}
