//! What each operator always gives where something is known of its operands.

ghost use Rattle.std.specs.Prelude.{◌≡◌, ℕ, ◌<◌, true, false, MatchOption};
ghost use Rattle.kn_word.specs.Words.{val};
ghost use Rattle.kn_simplify.specs.Folded.{is_idle, is_idle_twice};
ghost use Rattle.kn_simplify.specs.Laws.{outcome_word, IsWordOf, MayBeNeeded};

use kn_ops::grouped_rows;
use kn_word::{Op, apply};

/// What an operator gives: a word, or one of its operands.
#[derive(Clone, Copy, Debug, PartialEq, Eq)]
pub enum Outcome {
    /// This word.
    Word(u16),
    /// The operand on the left.
    Left,
    /// The operand on the right.
    Right,
}

/// Writes the arms of a match on an operator from the instruction table: what another macro makes of each variant.
macro_rules! law_arms {
    (
        [$law:ident $op:ident $operands:tt]
        operators [$(($code:literal, $name:literal, $variant:ident, $shape:ident, $act:ident, $fields:tt))*]
        others $others:tt
    ) => {
        match $op {
            $(Op::$variant => $law!($variant $operands),)*
        }
    };
}

/// The outcome that is listed for an operand's word; None at other words.
macro_rules! picked {
    ($operand:ident $($word:pat => $outcome:expr),*) => {
        match $operand {
            $($word => Some($outcome),)*
            _ => None,
        }
    };
}

/// With this word on the left, and any on the right.
macro_rules! left_law {
    (Add [$x:ident]) => { picked!($x 0 => Outcome::Right) };
    (Mul [$x:ident]) => { picked!($x 0 => Outcome::Word(0), 1 => Outcome::Right) };
    (And [$x:ident]) => { picked!($x 0 => Outcome::Word(0), 0xffff => Outcome::Right) };
    (Or [$x:ident]) => { picked!($x 0 => Outcome::Right, 0xffff => Outcome::Word(0xffff)) };
    (Xor [$x:ident]) => { picked!($x 0 => Outcome::Right) };
    (Shl [$x:ident]) => { picked!($x 0 => Outcome::Word(0)) };
    (Shr [$x:ident]) => { picked!($x 0 => Outcome::Word(0)) };
    (Sar [$x:ident]) => { picked!($x 0 => Outcome::Word(0), 0xffff => Outcome::Word(0xffff)) };
    (Urem [$x:ident]) => { picked!($x 0 => Outcome::Word(0)) };
    (Ult [$x:ident]) => { picked!($x 0xffff => Outcome::Word(0)) };
    (Slt [$x:ident]) => { picked!($x 0x7fff => Outcome::Word(0)) };
    ($other:ident [$x:ident]) => { None };
}

/// With this word on the right, and any on the left.
macro_rules! right_law {
    (Add [$y:ident]) => { picked!($y 0 => Outcome::Left) };
    (Sub [$y:ident]) => { picked!($y 0 => Outcome::Left) };
    (Mul [$y:ident]) => { picked!($y 0 => Outcome::Word(0), 1 => Outcome::Left) };
    (And [$y:ident]) => { picked!($y 0 => Outcome::Word(0), 0xffff => Outcome::Left) };
    (Or [$y:ident]) => { picked!($y 0 => Outcome::Left, 0xffff => Outcome::Word(0xffff)) };
    (Xor [$y:ident]) => { picked!($y 0 => Outcome::Left) };
    (Shl [$y:ident]) => { picked!($y 0 => Outcome::Left, 16.. => Outcome::Word(0)) };
    (Shr [$y:ident]) => { picked!($y 0 => Outcome::Left, 16.. => Outcome::Word(0)) };
    (Sar [$y:ident]) => { picked!($y 0 => Outcome::Left) };
    (Udiv [$y:ident]) => { picked!($y 0 => Outcome::Word(0xffff), 1 => Outcome::Left) };
    (Urem [$y:ident]) => { picked!($y 0 => Outcome::Left, 1 => Outcome::Word(0)) };
    (Ult [$y:ident]) => { picked!($y 0 => Outcome::Word(0)) };
    (Slt [$y:ident]) => { picked!($y 0x8000 => Outcome::Word(0)) };
    ($other:ident [$y:ident]) => { None };
}

/// With one operand on both sides.
macro_rules! twice_law {
    (Sub []) => { Some(Outcome::Word(0)) };
    (And []) => { Some(Outcome::Left) };
    (Or []) => { Some(Outcome::Left) };
    (Xor []) => { Some(Outcome::Word(0)) };
    (Urem []) => { Some(Outcome::Word(0)) };
    (Eq []) => { Some(Outcome::Word(1)) };
    (Ult []) => { Some(Outcome::Word(0)) };
    (Slt []) => { Some(Outcome::Word(0)) };
    ($other:ident []) => { None };
}

/// What an operator gives with this word on its left, whatever is on its right; None where no law says so, never where
/// the operator is idle.
pub fn with_left(op: Op, x: u16) -> Option<Outcome>
    ensures { MatchOption result (is_idle op x ≡ false) (λ o. (y : ℕ) → y < 65536 → outcome_word o x y ≡ val op x y) }
{
    grouped_rows!(law_arms left_law op [x])
}

/// What an operator gives with this word on its right, whatever is on its left; None where no law says so, never where
/// the operator is idle.
pub fn with_right(op: Op, y: u16) -> Option<Outcome>
    ensures { MatchOption result (is_idle op y ≡ false) (λ o. (x : ℕ) → x < 65536 → outcome_word o x y ≡ val op x y) }
{
    grouped_rows!(law_arms right_law op [y])
}

/// What an operator gives with one operand on both sides; None where no law says so, never where the operator is idle.
pub fn of_itself(op: Op) -> Option<Outcome>
    ensures { MatchOption result (is_idle_twice op ≡ false) (λ o. (x : ℕ) → x < 65536 → outcome_word o x x ≡ val op x x) }
{
    grouped_rows!(law_arms twice_law op [])
}

/// What an operator gives where an operand may be a known word, and both may be the same; None where no law says so,
/// never where both are known or the operator is idle.
pub fn outcome_of(op: Op, left: Option<u16>, right: Option<u16>, same: bool) -> Option<Outcome>
    ensures { MatchOption result (MayBeNeeded op left right same) (λ o. (x y : ℕ) → x < 65536 → y < 65536 → IsWordOf left x → IsWordOf right y → (same ≡ true → x ≡ y) → outcome_word o x y ≡ val op x y) }
{
    match (left, right) {
        (Some(x), Some(y)) => Some(Outcome::Word(apply(op, x, y))),
        (Some(x), None) => with_left(op, x),
        (None, Some(y)) => with_right(op, y),
        (None, None) => { if same { of_itself(op) } else { None } }
    }
}
