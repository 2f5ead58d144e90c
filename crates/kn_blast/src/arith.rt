//! Arithmetic and comparison of words of 16 edges.

ghost use Rattle.std.specs.Prelude.{◌≡◌, ◌+◌, ◌-◌, ◌*◌, ◌%◌, length, nat_eq, nat_lt, IfOk};
ghost use Rattle.kn_word.specs.Words.{one_if, raised};
ghost use Rattle.kn_aig.specs.Circuits.{value_of, Stands};
ghost use Rattle.kn_blast.specs.Spelling.{number, AllStand, Grows, Spells};

use crate::gates::Gate;
use crate::shifts::{Way, before_edge, behind_edge, moved_once};
use crate::words::{bit_by_bit, choice, constant, difference, is_not_zero, sum};
use kn_aig::{Aig, Edge};
use std::alloc::{AllocError, Global};

/// The word that is 1 where an edge is true, else 0.
pub(crate) fn flag(alloc: Global, aig: &Aig, edge: Edge) -> Result<Vec<Edge>, AllocError>
    requires { Stands aig.now edge }
    ensures { IfOk result (λ v. Spells aig.now v.items 16 (λ bits. one_if (value_of bits aig.now edge))) }
{
    let zero = constant(aig, false);
    behind_edge(alloc, edge, &[zero; 15])
}

/// The sum of two words.
#[tactic(auto, using(crate::proofs::Growing::growing))]
pub(crate) fn added(
    alloc: Global,
    aig: &mut Aig,
    xs: &[Edge],
    ys: &[Edge],
) -> Result<Vec<Edge>, AllocError>
    requires x { AllStand aig.old xs.now }
    requires y { AllStand aig.old ys.now }
    requires many { length xs.now ≡ 16 }
    requires same { length ys.now ≡ 16 }
    ensures word { IfOk result (λ v. Spells aig.new v.items 16 (λ bits. (number bits aig.old xs.now + number bits aig.old ys.now) % 65536)) }
    ensures grows { Grows aig.old aig.new }
{
    let zero = constant(aig, false);
    let (word, _) = sum(alloc, aig, xs, ys, zero)?;
    Ok(word)
}

/// The difference of two words.
#[tactic(auto, using(crate::proofs::Growing::growing))]
pub(crate) fn subtracted(
    alloc: Global,
    aig: &mut Aig,
    xs: &[Edge],
    ys: &[Edge],
) -> Result<Vec<Edge>, AllocError>
    requires x { AllStand aig.old xs.now }
    requires y { AllStand aig.old ys.now }
    requires many { length xs.now ≡ 16 }
    requires same { length ys.now ≡ 16 }
    ensures word { IfOk result (λ v. Spells aig.new v.items 16 (λ bits. (number bits aig.old xs.now + 65536 - number bits aig.old ys.now) % 65536)) }
    ensures grows { Grows aig.old aig.new }
{
    let (word, _) = difference(alloc, aig, xs, ys)?;
    Ok(word)
}

/// Whether two words are equal.
#[tactic(auto, using(crate::proofs::Growing::growing))]
pub(crate) fn equal(
    alloc: Global,
    aig: &mut Aig,
    xs: &[Edge],
    ys: &[Edge],
) -> Result<Vec<Edge>, AllocError>
    requires x { AllStand aig.old xs.now }
    requires y { AllStand aig.old ys.now }
    requires many { length xs.now ≡ 16 }
    requires same { length ys.now ≡ 16 }
    ensures word { IfOk result (λ v. Spells aig.new v.items 16 (λ bits. one_if (nat_eq (number bits aig.old xs.now) (number bits aig.old ys.now)))) }
    ensures grows { Grows aig.old aig.new }
{
    let differing = bit_by_bit(alloc, aig, Gate::Xor, xs, ys)?;
    let differ = is_not_zero(aig, &differing)?;
    flag(alloc, aig, differ.negated())
}

/// Whether the first word is below the second.
#[tactic(auto, using(crate::proofs::Growing::growing))]
pub(crate) fn below(
    alloc: Global,
    aig: &mut Aig,
    xs: &[Edge],
    ys: &[Edge],
) -> Result<Vec<Edge>, AllocError>
    requires x { AllStand aig.old xs.now }
    requires y { AllStand aig.old ys.now }
    requires many { length xs.now ≡ 16 }
    requires same { length ys.now ≡ 16 }
    ensures word { IfOk result (λ v. Spells aig.new v.items 16 (λ bits. one_if (nat_lt (number bits aig.old xs.now) (number bits aig.old ys.now)))) }
    ensures grows { Grows aig.old aig.new }
{
    let (_, reaches) = difference(alloc, aig, xs, ys)?;
    flag(alloc, aig, reaches.negated())
}

/// A word with its highest bit turned round.
pub(crate) fn raised(alloc: Global, aig: &Aig, xs: &[Edge]) -> Result<Vec<Edge>, AllocError>
    requires x { AllStand aig.now xs.now }
    requires many { length xs.now ≡ 16 }
    ensures { IfOk result (λ v. Spells aig.now v.items 16 (λ bits. raised (number bits aig.now xs.now))) }
{
    let _ = aig;
    before_edge(alloc, &xs[..15], xs[15].negated())
}

/// The product of two words, by shifted sums.
#[tactic(auto, using(crate::proofs::Growing::growing))]
pub(crate) fn product(
    alloc: Global,
    aig: &mut Aig,
    xs: &[Edge],
    ys: &[Edge],
) -> Result<Vec<Edge>, AllocError>
    requires x { AllStand aig.old xs.now }
    requires y { AllStand aig.old ys.now }
    requires many { length xs.now ≡ 16 }
    requires same { length ys.now ≡ 16 }
    ensures word { IfOk result (λ v. Spells aig.new v.items 16 (λ bits. number bits aig.old xs.now * number bits aig.old ys.now % 65536)) }
    ensures grows { Grows aig.old aig.new }
{
    let zero = constant(aig, false);
    let zeros = [zero; 16];
    let mut total = Vec::from_slice(alloc, &zeros)?;
    let mut shifted = Vec::from_slice(alloc, xs)?;
    for i in 0..16_usize {
        let part = choice(alloc, aig, ys[i], &shifted, &zeros)?;
        total = added(alloc, aig, &total, &part)?;
        shifted = moved_once(alloc, aig, Way::Left, zero, &shifted)?;
    }
    Ok(total)
}
