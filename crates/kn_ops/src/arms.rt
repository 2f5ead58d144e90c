//! Arms that are written from the rows.

ghost use Rattle.std.specs.Prelude.{◌≡◌, find, nat_eq, ◌↔◌, ◌≤◌, IsTrue};
ghost use Rattle.std.specs.Option.{option_map};
ghost use Rattle.kn_ops.specs.Table.{instructions};

use crate::table::Shape;

macro_rules! shape_arms {
    ([$value:expr] $(($code:literal, $name:literal, $variant:ident, $shape:ident, $act:ident, $fields:tt))*) => {
        match $value {
            $($code => Some(Shape::$shape),)*
            _ => None,
        }
    };
}

/// What operands the instruction with a code has; None where no row has the code.
pub fn shape_of_code(code: u8) -> Option<Shape>
    ensures { result ≡ option_map (λ e. e.shape) (find (λ e. nat_eq e.code code) instructions) }
{
    instruction_rows!(shape_arms code)
}

macro_rules! operator_arms {
    (
        [$value:expr]
        operators [$(($code:literal, $name:literal, $variant:ident, $shape:ident, $act:ident, $fields:tt))*]
        others $others:tt
    ) => {
        match $value {
            $($code)|* => true,
            _ => false,
        }
    };
}

/// Whether a code is that of an operator on two registers.
pub fn is_operator(code: u8) -> bool
    ensures { IsTrue result ↔ ((0x10 ≤ code) × (code ≤ 0x1d)) }
{
    grouped_rows!(operator_arms code)
}
