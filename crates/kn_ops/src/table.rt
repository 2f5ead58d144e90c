//! Rows, and tables of rows.

ghost use Rattle.std.specs.Prelude.{◌≡◌, ℕ, find, nat_eq};
ghost use Rattle.std.specs.Option.{option_map};
ghost use Rattle.std.specs.Str.{bytes_eq};
ghost use Rattle.kn_ops.specs.Table.{Entry, entry_of, instructions, CodesDiffer, NamesDiffer, OneByCode, OneByName};

use std::marker::Model;

/// The operands of an instruction as its text has them, in this order.
#[derive(Clone, Copy, Debug, PartialEq, Eq)]
pub enum Shape {
    /// A register and a word.
    RegWord,
    /// Two registers.
    RegReg,
    /// A register and a place of the memory.
    RegMem,
    /// A place of the memory and a register.
    MemReg,
    /// Two registers, and the first place and the number of places of a span of the memory.
    RegRegSpan,
    /// The target of a jump.
    Target,
    /// A register and the target of a jump.
    RegTarget,
    /// A register and a number of bits.
    RegWidth,
    /// A timer and a number of ticks.
    TimerDelay,
    /// A timer.
    TimerOnly,
    /// A link, a register and a number of registers.
    LinkRegCount,
    /// A register and a number of registers.
    RegCount,
    /// A register and the place of a payload word.
    RegIndex,
    /// Three registers.
    RegRegReg,
    /// A register.
    Reg,
    /// No operand.
    Bare,
}

/// A row of an instruction table: the name that stands in the text, the code that stands in the bytes, and what
/// operands there are.
#[derive(Clone, Copy, Debug, PartialEq, Eq)]
pub struct Row {
    /// The name, in lower case.
    pub name: &'static str,
    /// The code, which is the first byte of the instruction.
    pub code: u8,
    /// The operands behind the name.
    pub shape: Shape,
}

/// N rows in an order; in contracts, the list of their entries. Of two rows that fit, a look-up gives the first.
#[derive(Drop)]
pub struct OpTable<const N: usize> {
    rows: [Row; N],
}

impl<const N: usize> Model for OpTable<N> {
    ghost use Rattle.std.specs.Prelude.{List, map};
    ghost use Rattle.kn_ops.specs.Table.{Entry, entry_of};

    ghost Value = { List Entry };

    ghost view = { λ t. map entry_of t.rows };
}

fn first_with_code(rows: &[Row], code: u8) -> Option<Row>
    ensures { result ≡ find (λ r. nat_eq r.code code) rows.now }
{
    for row in rows {
        if row.code == code {
            return Some(*row);
        }
    }
    None
}

fn first_with_name(rows: &[Row], name: &str) -> Option<Row>
    ensures { result ≡ find (λ r. bytes_eq r.name.now name.now) rows.now }
{
    for row in rows {
        if row.name == name {
            return Some(*row);
        }
    }
    None
}

// At the one length that there is: an array that holds references and has a parameter for its length is not covered.
impl OpTable<36> {
    /// The first row with a code; None exactly where no row has it.
    pub fn by_code(&self, code: u8) -> Option<Row>
        ensures { option_map entry_of result ≡ find (λ e. nat_eq e.code code) self.now }
    {
        first_with_code(&self.rows, code)
    }

    /// The first row with a name; None exactly where no row has it.
    pub fn by_name(&self, name: &str) -> Option<Row>
        ensures { option_map entry_of result ≡ find (λ e. bytes_eq e.name name.now) self.now }
    {
        first_with_name(&self.rows, name)
    }
}

macro_rules! row_values {
    ([] $(($code:literal, $name:literal, $variant:ident, $shape:ident, $act:ident, $fields:tt))*) => {
        [$(Row { name: $name, code: $code, shape: Shape::$shape }),*]
    };
}

/// The instruction table. What its rows are, `instruction_table` says.
pub const INSTRS: OpTable<36> = OpTable {
    rows: instruction_rows!(row_values),
};

/// The instruction table as a value: its rows are those of the definition, in the order of codes.
pub fn instruction_table() -> OpTable<36>
    ensures { result ≡ instructions }
{
    INSTRS
}

/// No two rows of the instruction table have one code, and no two have one name.
pub fn rows_differ()
    ensures codes { CodesDiffer instructions }
    ensures names { NamesDiffer instructions }
{}

/// Each row of the instruction table is the one that a look-up of its code gives, and of its name.
pub fn one_row()
    ensures codes { OneByCode instructions }
    ensures names { OneByName instructions }
{}

#[cfg(test)]
mod tests;
