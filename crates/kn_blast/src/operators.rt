//! The circuits of the operators on words of 16 edges.

ghost use Rattle.std.specs.Prelude.{◌≡◌, length, IfOk};
ghost use Rattle.kn_word.specs.declared.Op.TheVariants as ops;
ghost use Rattle.kn_word.specs.Words.{val};
ghost use Rattle.kn_blast.specs.Spelling.{number, AllStand, Grows, Spells};

use crate::arith::{added, below, equal, product, raised, subtracted};
use crate::division::divided;
use crate::gates::Gate;
use crate::shifts::{Way, shifted};
use crate::words::{bit_by_bit, constant};
use kn_aig::{Aig, Edge};
use kn_word::Op;
use std::alloc::{AllocError, Global};

/// The circuit of an operator.
#[tactic(auto, using(crate::proofs::Growing::growing))]
pub(crate) fn operate(
    alloc: Global,
    aig: &mut Aig,
    op: Op,
    xs: &[Edge],
    ys: &[Edge],
) -> Result<Vec<Edge>, AllocError>
    requires x { AllStand aig.old xs.now }
    requires y { AllStand aig.old ys.now }
    requires many { length xs.now ≡ 16 }
    requires same { length ys.now ≡ 16 }
    ensures word { IfOk result (λ v. Spells aig.new v.items 16 (λ bits. val op (number bits aig.old xs.now) (number bits aig.old ys.now))) }
    ensures grows { Grows aig.old aig.new }
{
    match op {
        Op::Add => added(alloc, aig, xs, ys),
        Op::Sub => subtracted(alloc, aig, xs, ys),
        Op::Mul => product(alloc, aig, xs, ys),
        Op::And => bit_by_bit(alloc, aig, Gate::And, xs, ys),
        Op::Or => bit_by_bit(alloc, aig, Gate::Or, xs, ys),
        Op::Xor => bit_by_bit(alloc, aig, Gate::Xor, xs, ys),
        Op::Shl => shifted_left(alloc, aig, xs, ys),
        Op::Shr => shifted_right(alloc, aig, xs, ys),
        Op::Sar => shifted_signed(alloc, aig, xs, ys),
        Op::Udiv => quotient(alloc, aig, xs, ys),
        Op::Urem => remainder(alloc, aig, xs, ys),
        Op::Eq => equal(alloc, aig, xs, ys),
        Op::Ult => below(alloc, aig, xs, ys),
        Op::Slt => below_signed(alloc, aig, xs, ys),
    }
}

/// Shifts to the left, and fills with 0.
#[tactic(auto, using(crate::proofs::Growing::growing))]
fn shifted_left(
    alloc: Global,
    aig: &mut Aig,
    xs: &[Edge],
    ys: &[Edge],
) -> Result<Vec<Edge>, AllocError>
    requires x { AllStand aig.old xs.now }
    requires y { AllStand aig.old ys.now }
    requires many { length xs.now ≡ 16 }
    requires same { length ys.now ≡ 16 }
    ensures word { IfOk result (λ v. Spells aig.new v.items 16 (λ bits. val ops.Shl (number bits aig.old xs.now) (number bits aig.old ys.now))) }
    ensures grows { Grows aig.old aig.new }
{
    let zero = constant(aig, false);
    shifted(alloc, aig, Way::Left, zero, xs, ys)
}

/// Shifts to the right, and fills with 0.
#[tactic(auto, using(crate::proofs::Growing::growing))]
fn shifted_right(
    alloc: Global,
    aig: &mut Aig,
    xs: &[Edge],
    ys: &[Edge],
) -> Result<Vec<Edge>, AllocError>
    requires x { AllStand aig.old xs.now }
    requires y { AllStand aig.old ys.now }
    requires many { length xs.now ≡ 16 }
    requires same { length ys.now ≡ 16 }
    ensures word { IfOk result (λ v. Spells aig.new v.items 16 (λ bits. val ops.Shr (number bits aig.old xs.now) (number bits aig.old ys.now))) }
    ensures grows { Grows aig.old aig.new }
{
    let zero = constant(aig, false);
    shifted(alloc, aig, Way::Right, zero, xs, ys)
}

/// Shifts to the right, and fills with the highest bit.
#[tactic(auto, using(crate::proofs::Growing::growing))]
fn shifted_signed(
    alloc: Global,
    aig: &mut Aig,
    xs: &[Edge],
    ys: &[Edge],
) -> Result<Vec<Edge>, AllocError>
    requires x { AllStand aig.old xs.now }
    requires y { AllStand aig.old ys.now }
    requires many { length xs.now ≡ 16 }
    requires same { length ys.now ≡ 16 }
    ensures word { IfOk result (λ v. Spells aig.new v.items 16 (λ bits. val ops.Sar (number bits aig.old xs.now) (number bits aig.old ys.now))) }
    ensures grows { Grows aig.old aig.new }
{
    shifted(alloc, aig, Way::Right, xs[15], xs, ys)
}

/// The quotient.
#[tactic(auto, using(crate::proofs::Growing::growing))]
fn quotient(alloc: Global, aig: &mut Aig, xs: &[Edge], ys: &[Edge]) -> Result<Vec<Edge>, AllocError>
    requires x { AllStand aig.old xs.now }
    requires y { AllStand aig.old ys.now }
    requires many { length xs.now ≡ 16 }
    requires same { length ys.now ≡ 16 }
    ensures word { IfOk result (λ v. Spells aig.new v.items 16 (λ bits. val ops.Udiv (number bits aig.old xs.now) (number bits aig.old ys.now))) }
    ensures grows { Grows aig.old aig.new }
{
    let (quotient, _) = divided(alloc, aig, xs, ys)?;
    Ok(quotient)
}

/// The remainder.
#[tactic(auto, using(crate::proofs::Growing::growing))]
fn remainder(
    alloc: Global,
    aig: &mut Aig,
    xs: &[Edge],
    ys: &[Edge],
) -> Result<Vec<Edge>, AllocError>
    requires x { AllStand aig.old xs.now }
    requires y { AllStand aig.old ys.now }
    requires many { length xs.now ≡ 16 }
    requires same { length ys.now ≡ 16 }
    ensures word { IfOk result (λ v. Spells aig.new v.items 16 (λ bits. val ops.Urem (number bits aig.old xs.now) (number bits aig.old ys.now))) }
    ensures grows { Grows aig.old aig.new }
{
    let (_, rest) = divided(alloc, aig, xs, ys)?;
    Ok(rest)
}

/// Whether the first word is below the second, both in two's complement.
#[tactic(auto, using(crate::proofs::Growing::growing))]
fn below_signed(
    alloc: Global,
    aig: &mut Aig,
    xs: &[Edge],
    ys: &[Edge],
) -> Result<Vec<Edge>, AllocError>
    requires x { AllStand aig.old xs.now }
    requires y { AllStand aig.old ys.now }
    requires many { length xs.now ≡ 16 }
    requires same { length ys.now ≡ 16 }
    ensures word { IfOk result (λ v. Spells aig.new v.items 16 (λ bits. val ops.Slt (number bits aig.old xs.now) (number bits aig.old ys.now))) }
    ensures grows { Grows aig.old aig.new }
{
    let first = raised(alloc, aig, xs)?;
    let second = raised(alloc, aig, ys)?;
    below(alloc, aig, &first, &second)
}
