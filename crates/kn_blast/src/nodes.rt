//! The circuits of constants and choices.

ghost use Rattle.std.specs.Prelude.{◌≡◌, length, IfOk};
ghost use Rattle.kn_term.specs.Terms.{chosen_word};
ghost use Rattle.kn_blast.specs.Spelling.{number, AllStand, Grows, Spells};

use crate::words::{choice, constant, is_not_zero};
use kn_aig::{Aig, Edge};
use std::alloc::{AllocError, Global};

/// The edges of a word.
pub(crate) fn word_edges(alloc: Global, aig: &Aig, word: u16) -> Result<Vec<Edge>, AllocError>
    ensures { IfOk result (λ v. Spells aig.now v.items 16 (λ bits. word)) }
{
    let mut edges = Vec::new(alloc);
    for place in 0..16_u32 {
        let edge = constant(aig, (word >> place) % 2 == 1);
        edges.push(edge)?;
    }
    Ok(edges)
}

/// The second word where the first is not 0, else the third.
#[tactic(auto, using(crate::proofs::Growing::growing))]
pub(crate) fn chosen(
    alloc: Global,
    aig: &mut Aig,
    cs: &[Edge],
    xs: &[Edge],
    ys: &[Edge],
) -> Result<Vec<Edge>, AllocError>
    requires c { AllStand aig.old cs.now }
    requires x { AllStand aig.old xs.now }
    requires y { AllStand aig.old ys.now }
    requires many { length xs.now ≡ 16 }
    requires same { length ys.now ≡ 16 }
    ensures word { IfOk result (λ v. Spells aig.new v.items 16 (λ bits. chosen_word (number bits aig.old cs.now) (number bits aig.old xs.now) (number bits aig.old ys.now))) }
    ensures grows { Grows aig.old aig.new }
{
    let some = is_not_zero(aig, cs)?;
    choice(alloc, aig, some, xs, ys)
}
