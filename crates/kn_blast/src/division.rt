//! Division of words of 16 edges, by sixteen subtracting steps.

ghost use Rattle.std.specs.Prelude.{◌≡◌, ◌+◌, ◌-◌, ◌*◌, ◌/◌, ◌%◌, not, length, nat_eq, nat_lt, IfOk, if◌then◌else◌};
ghost use Rattle.kn_word.specs.Words.{one_if};
ghost use Rattle.kn_aig.specs.Circuits.{value_of, Stands};
ghost use Rattle.kn_blast.specs.Spelling.{number, AllStand, Grows, Has, Spells};

use crate::shifts::{before_edge, behind_edge};
use crate::words::{choice, constant, difference};
use kn_aig::{Aig, Edge};
use std::alloc::{AllocError, Global};

/// One step: whether the rest with one more bit below it reaches the divisor, and what is left of it then.
#[tactic(auto, using(crate::proofs::Growing::growing))]
fn division_step(
    alloc: Global,
    aig: &mut Aig,
    bit: Edge,
    rest: &[Edge],
    ys: &[Edge],
) -> Result<(Edge, Vec<Edge>), AllocError>
    requires bit { Stands aig.old bit }
    requires rest { AllStand aig.old rest.now }
    requires y { AllStand aig.old ys.now }
    requires many { length rest.now ≡ 16 }
    requires same { length ys.now ≡ 16 }
    ensures reaches { IfOk result (λ p. Has aig.new p.0 (λ bits. not (nat_lt (one_if (value_of bits aig.old bit) + 2 * number bits aig.old rest.now) (number bits aig.old ys.now)))) }
    ensures left { IfOk result (λ p. Spells aig.new p.1.items 16 (λ bits.
        let w = one_if (value_of bits aig.old bit) + 2 * number bits aig.old rest.now in
        (if nat_lt w (number bits aig.old ys.now) then w else w - number bits aig.old ys.now) % 65536)) }
    ensures grows { Grows aig.old aig.new }
{
    let zero = constant(aig, false);
    let wide = behind_edge(alloc, bit, rest)?;
    let divisor = before_edge(alloc, ys, zero)?;
    let (less, reaches) = difference(alloc, aig, &wide, &divisor)?;
    let next = choice(alloc, aig, reaches, &less[..16], &wide[..16])?;
    Ok((reaches, next))
}

/// The quotient and the remainder of two words; where the second is 0, 65,535 and the first word.
#[tactic(auto, using(crate::proofs::Growing::growing))]
pub(crate) fn divided(
    alloc: Global,
    aig: &mut Aig,
    xs: &[Edge],
    ys: &[Edge],
) -> Result<(Vec<Edge>, Vec<Edge>), AllocError>
    requires x { AllStand aig.old xs.now }
    requires y { AllStand aig.old ys.now }
    requires many { length xs.now ≡ 16 }
    requires same { length ys.now ≡ 16 }
    ensures quotient { IfOk result (λ p. Spells aig.new p.0.items 16 (λ bits. if nat_eq (number bits aig.old ys.now) 0 then 65535 else number bits aig.old xs.now / number bits aig.old ys.now)) }
    ensures rest { IfOk result (λ p. Spells aig.new p.1.items 16 (λ bits. if nat_eq (number bits aig.old ys.now) 0 then number bits aig.old xs.now else number bits aig.old xs.now % number bits aig.old ys.now)) }
    ensures grows { Grows aig.old aig.new }
{
    let zero = constant(aig, false);
    let mut quotient = Vec::new(alloc);
    let mut rest = Vec::from_slice(alloc, &[zero; 16])?;
    for step in 0..16_usize {
        let (reaches, next) = division_step(alloc, aig, xs[15 - step], &rest, ys)?;
        quotient.insert(0, reaches)?;
        rest = next;
    }
    Ok((quotient, rest))
}
