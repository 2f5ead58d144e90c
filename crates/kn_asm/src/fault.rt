//! What is wrong with a text.

use std::alloc::AllocError;
use thiserror::Error;

/// What is wrong with a line.
#[derive(Clone, Copy, Debug, PartialEq, Eq)]
pub enum AsmCause {
    /// It is not of the form of a line.
    Syntax,
    /// No instruction has the name.
    Mnemonic,
    /// The number, the kind or the range of an operand is not the instruction's.
    Operand,
    /// Its label stands on an earlier line.
    Twice,
    /// Its target is no label of the text.
    NoLabel,
    /// It is the last line and the text has no instruction, or it holds the instruction past the 4,096th.
    Count,
    /// It holds the last instruction, which is none of `jmp`, `ret` and `halt`, or a label behind the last instruction.
    End,
}

/// The first line of a text that has a fault, and what is wrong with it, or want of memory.
#[derive(Debug, Drop, Error)]
pub enum AsmFault {
    /// Lines are counted from 1.
    #[error("line {line} is refused")]
    Refused { line: usize, cause: AsmCause },
    #[error("out of memory")]
    Memory(AllocError),
}
