//! Words of edges: bit by bit, chosen, added and subtracted.

ghost use Rattle.std.specs.Prelude.{◌≡◌, ◌+◌, ◌-◌, ◌^◌, Bool, List, IfOk, not, nat_eq, length, if◌then◌else◌};
ghost use Rattle.kn_word.specs.Words.{one_if, by_digits};
ghost use Rattle.kn_aig.specs.declared.gates.AigNode.{AigNode};
ghost use Rattle.kn_aig.specs.Circuits.{value_of, Stands};
ghost use Rattle.kn_blast.specs.Spelling.{number, digit, AllStand, Grows, Has, Spells, Carries};

use crate::gates::{Gate, edge_of_gate, either, full_sum};
use kn_aig::{Aig, Edge};
use std::alloc::{AllocError, Global};

/// The edge of a constant.
pub(crate) fn constant(aig: &Aig, value: bool) -> Edge
    ensures { Has aig.now result (λ bits. value) }
{
    let _ = aig.size();
    Aig::constant(value)
}

/// Bit by bit what a gate makes of two words.
#[tactic(auto, using(crate::proofs::Growing::growing))]
pub(crate) fn bit_by_bit(
    alloc: Global,
    aig: &mut Aig,
    gate: Gate,
    xs: &[Edge],
    ys: &[Edge],
) -> Result<Vec<Edge>, AllocError>
    requires x { AllStand aig.old xs.now }
    requires y { AllStand aig.old ys.now }
    requires same { length ys.now ≡ length xs.now }
    ensures word { IfOk result (λ v. Spells aig.new v.items (length xs.now) (λ bits. by_digits (digit gate) (length xs.now) (number bits aig.old xs.now) (number bits aig.old ys.now))) }
    ensures grows { Grows aig.old aig.new }
{
    let mut word = Vec::new(alloc);
    for i in 0..xs.len() {
        let e = edge_of_gate(aig, gate, xs[i], ys[i])?;
        word.push(e)?;
    }
    Ok(word)
}

/// The first word where an edge is true, else the second.
#[tactic(auto, using(crate::proofs::Growing::growing))]
pub(crate) fn choice(
    alloc: Global,
    aig: &mut Aig,
    c: Edge,
    xs: &[Edge],
    ys: &[Edge],
) -> Result<Vec<Edge>, AllocError>
    requires c { Stands aig.old c }
    requires x { AllStand aig.old xs.now }
    requires y { AllStand aig.old ys.now }
    requires same { length ys.now ≡ length xs.now }
    ensures word { IfOk result (λ v. Spells aig.new v.items (length xs.now) (λ bits. if value_of bits aig.old c then number bits aig.old xs.now else number bits aig.old ys.now)) }
    ensures grows { Grows aig.old aig.new }
{
    let mut word = Vec::new(alloc);
    for i in 0..xs.len() {
        let e = aig.ite(c, xs[i], ys[i])?;
        word.push(e)?;
    }
    Ok(word)
}

/// The edge that is true where a word is not 0. No input comes to the circuit, and earlier edges keep their values. Err is
/// want of memory.
#[tactic(auto, using(crate::proofs::Growing::growing))]
pub fn is_not_zero(aig: &mut Aig, xs: &[Edge]) -> Result<Edge, AllocError>
    requires { AllStand aig.old xs.now }
    ensures edge { IfOk result (λ e. Has aig.new e (λ bits. not (nat_eq (number bits aig.old xs.now) 0))) }
    ensures grows { Grows aig.old aig.new }
{
    let mut some = constant(aig, false);
    for i in 0..xs.len() {
        some = either(aig, some, xs[i])?;
    }
    Ok(some)
}

/// The sum of two words and a bit, and what is carried behind it.
#[tactic(auto, using(crate::proofs::Growing::growing))]
pub(crate) fn sum(
    alloc: Global,
    aig: &mut Aig,
    xs: &[Edge],
    ys: &[Edge],
    first: Edge,
) -> Result<(Vec<Edge>, Edge), AllocError>
    requires x { AllStand aig.old xs.now }
    requires y { AllStand aig.old ys.now }
    requires same { length ys.now ≡ length xs.now }
    requires first { Stands aig.old first }
    ensures word { IfOk result (λ p. Carries aig.new p.0.items p.1 (length xs.now) (λ bits. number bits aig.old xs.now + number bits aig.old ys.now + one_if (value_of bits aig.old first))) }
    ensures grows { Grows aig.old aig.new }
{
    let mut word = Vec::new(alloc);
    let mut carry = first;
    for i in 0..xs.len() {
        let (s, t) = full_sum(aig, xs[i], ys[i], carry)?;
        word.push(s)?;
        carry = t;
    }
    Ok((word, carry))
}

/// Each edge turned round.
pub(crate) fn complement(alloc: Global, xs: &[Edge]) -> Result<Vec<Edge>, AllocError>
    ensures stand { IfOk result (λ v. (ns : List AigNode) → AllStand ns xs.now → AllStand ns v.items) }
    ensures many { IfOk result (λ v. length v.items ≡ length xs.now) }
    ensures value { IfOk result (λ v. (bits : List Bool) (ns : List AigNode) → number bits ns v.items + number bits ns xs.now + 1 ≡ 2 ^ length xs.now) }
{
    let mut word = Vec::new(alloc);
    for i in 0..xs.len() {
        word.push(xs[i].negated())?;
    }
    Ok(word)
}

/// The difference of two words, and whether nothing is borrowed: the first is not below the second.
pub(crate) fn difference(
    alloc: Global,
    aig: &mut Aig,
    xs: &[Edge],
    ys: &[Edge],
) -> Result<(Vec<Edge>, Edge), AllocError>
    requires x { AllStand aig.old xs.now }
    requires y { AllStand aig.old ys.now }
    requires same { length ys.now ≡ length xs.now }
    ensures word { IfOk result (λ p. Carries aig.new p.0.items p.1 (length xs.now) (λ bits. number bits aig.old xs.now + 2 ^ length xs.now - number bits aig.old ys.now)) }
    ensures grows { Grows aig.old aig.new }
{
    let turned = complement(alloc, ys)?;
    let one = constant(aig, true);
    sum(alloc, aig, xs, &turned, one)
}
