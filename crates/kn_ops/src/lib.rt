//! The instruction table: one list of rows, and a table to look them up by code or name.
#![tactic(auto)]

/// Hands the instruction table to another macro of the caller, in the order of codes, behind the caller's own tokens
/// in brackets. A row is its code, its name, the variant of its instruction, the shape of its operands, the name of
/// what carries it out, and the instruction's fields, each with its place in the bytecode.
#[macro_export]
macro_rules! instruction_rows {
    (@to [$($callback:tt)*] $args:tt) => {
        $($callback)*! {
            $args
            (0x01, "const", Const, RegWord, constant, [a a, n p])
            (0x02, "mov", Mov, RegReg, mov, [a a, b b])
            (0x03, "not", Not, RegReg, not, [a a, b b])
            (0x04, "ld", Ld, RegMem, ld, [a a, m p])
            (0x05, "st", St, MemReg, st, [m p, a a])
            (0x06, "ldx", Ldx, RegRegSpan, ldx, [a a, b b, m p, n q])
            (0x07, "stx", Stx, RegRegSpan, stx, [a a, b b, m p, n q])
            (0x08, "jmp", Jmp, Target, jmp, [to p])
            (0x09, "brz", Brz, RegTarget, brz, [a a, to p])
            (0x0a, "input", Input, RegWidth, input, [a a, w p])
            (0x0b, "timer", Timer, TimerDelay, timer, [k a, d p])
            (0x0c, "cancel", Cancel, TimerOnly, cancel, [k a])
            (0x0d, "send", Send, LinkRegCount, send, [l p, b b, n a])
            (0x0e, "bcast", Bcast, RegCount, bcast, [b b, n a])
            (0x0f, "recvw", Recvw, RegIndex, recvw, [a a, k p])
            (0x10, "add", Add, RegRegReg, operate, [a a, b b, c c])
            (0x11, "sub", Sub, RegRegReg, operate, [a a, b b, c c])
            (0x12, "mul", Mul, RegRegReg, operate, [a a, b b, c c])
            (0x13, "and", And, RegRegReg, operate, [a a, b b, c c])
            (0x14, "or", Or, RegRegReg, operate, [a a, b b, c c])
            (0x15, "xor", Xor, RegRegReg, operate, [a a, b b, c c])
            (0x16, "shl", Shl, RegRegReg, operate, [a a, b b, c c])
            (0x17, "shr", Shr, RegRegReg, operate, [a a, b b, c c])
            (0x18, "sar", Sar, RegRegReg, operate, [a a, b b, c c])
            (0x19, "udiv", Udiv, RegRegReg, operate, [a a, b b, c c])
            (0x1a, "urem", Urem, RegRegReg, operate, [a a, b b, c c])
            (0x1b, "eq", Eq, RegRegReg, operate, [a a, b b, c c])
            (0x1c, "ult", Ult, RegRegReg, operate, [a a, b b, c c])
            (0x1d, "slt", Slt, RegRegReg, operate, [a a, b b, c c])
            (0x1e, "rlen", Rlen, Reg, rlen, [a a])
            (0x1f, "rfrom", Rfrom, Reg, rfrom, [a a])
            (0x20, "assert", Assert, Reg, assert, [a a])
            (0x21, "node", Node, Reg, node, [a a])
            (0x22, "now", Now, Reg, now, [a a])
            (0x23, "ret", Ret, Bare, ret, [])
            (0x24, "halt", Halt, Bare, halt, [])
        }
    };
    ($callback:ident $($args:tt)*) => {
        $crate::instruction_rows! { @to [$callback] [$($args)*] }
    };
}

/// Hands the instruction table to another macro of the caller in two groups, behind the caller's own tokens in
/// brackets: the rows of the 14 operators on two registers, and the other rows.
#[macro_export]
macro_rules! grouped_rows {
    (@group [$callback:ident $($args:tt)*] $operators:tt $others:tt) => {
        $callback! { [$($args)*] operators $operators others $others }
    };
    (
        @group $to:tt [$($operators:tt)*] $others:tt
        ($code:literal, $name:literal, $variant:ident, RegRegReg, $act:ident, $fields:tt) $($rest:tt)*
    ) => {
        $crate::grouped_rows! {
            @group $to [$($operators)* ($code, $name, $variant, RegRegReg, $act, $fields)] $others $($rest)*
        }
    };
    (@group $to:tt $operators:tt [$($others:tt)*] $row:tt $($rest:tt)*) => {
        $crate::grouped_rows! { @group $to $operators [$($others)* $row] $($rest)* }
    };
    ([@rows $to:tt] $($rows:tt)*) => {
        $crate::grouped_rows! { @group $to [] [] $($rows)* }
    };
    ($callback:ident $($args:tt)*) => {
        $crate::instruction_rows! { @to [$crate::grouped_rows] [@rows [$callback $($args)*]] }
    };
}

mod arms;
mod table;

pub use arms::{is_operator, shape_of_code};
pub use table::{INSTRS, OpTable, Row, Shape, instruction_table, one_row, rows_differ};
