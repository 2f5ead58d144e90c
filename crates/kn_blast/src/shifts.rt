//! Words of edges that are moved by places, one place at a time and by stages.

ghost use Rattle.std.specs.Prelude.{◌≡◌, ◌∷◌, ◌++◌, [], ◌+◌, not, nat_eq, take, ◌≤◌, ◌<◌, min, length, IfOk, if◌then◌else◌};
ghost use Rattle.kn_aig.specs.Circuits.{value_of, Stands};
ghost use Rattle.kn_blast.specs.Spelling.{number, AllStand, Grows, Has, Spells};
ghost use Rattle.kn_blast.specs.Shifting.{comes_in, moved_word};

use crate::words::{choice, constant, is_not_zero};
use kn_aig::{Aig, Edge};
use std::alloc::{AllocError, Global};

/// Where a word is moved to.
#[derive(Clone, Copy)]
pub(crate) enum Way {
    /// To higher places; 0 comes in from below.
    Left,
    /// To lower places; a given bit comes in from above.
    Right,
}

/// The edge that comes in.
pub(crate) fn incoming(aig: &Aig, way: Way, above: Edge) -> Edge
    requires { Stands aig.now above }
    ensures { Has aig.now result (λ bits. comes_in way (value_of bits aig.now above)) }
{
    match way {
        Way::Left => constant(aig, false),
        Way::Right => above,
    }
}

/// A word that is moved by one place.
pub(crate) fn moved_once(
    alloc: Global,
    aig: &Aig,
    way: Way,
    above: Edge,
    xs: &[Edge],
) -> Result<Vec<Edge>, AllocError>
    requires above { Stands aig.now above }
    requires stand { AllStand aig.now xs.now }
    requires many { length xs.now ≡ 16 }
    ensures { IfOk result (λ v. Spells aig.now v.items 16 (λ bits. moved_word way (value_of bits aig.now above) 1 (number bits aig.now xs.now))) }
{
    let edge = incoming(aig, way, above);
    match way {
        Way::Left => behind_edge(alloc, edge, &xs[..15]),
        Way::Right => before_edge(alloc, &xs[1..], edge),
    }
}

/// An edge and the edges behind it.
pub(crate) fn behind_edge(alloc: Global, edge: Edge, xs: &[Edge]) -> Result<Vec<Edge>, AllocError>
    ensures { IfOk result (λ v. v.items ≡ edge ∷ xs.now) }
{
    let mut word = Vec::new(alloc);
    word.push(edge)?;
    word.extend_from_slice(xs)?;
    Ok(word)
}

/// Edges, and an edge behind them.
pub(crate) fn before_edge(alloc: Global, xs: &[Edge], edge: Edge) -> Result<Vec<Edge>, AllocError>
    ensures { IfOk result (λ v. v.items ≡ xs.now ++ edge ∷ []) }
{
    let mut word = Vec::from_slice(alloc, xs)?;
    word.push(edge)?;
    Ok(word)
}

/// A word that is moved by so many places.
pub(crate) fn moved(
    alloc: Global,
    aig: &Aig,
    way: Way,
    above: Edge,
    xs: &[Edge],
    places: usize,
) -> Result<Vec<Edge>, AllocError>
    requires above { Stands aig.now above }
    requires stand { AllStand aig.now xs.now }
    requires many { length xs.now ≡ 16 }
    ensures { IfOk result (λ v. Spells aig.now v.items 16 (λ bits. moved_word way (value_of bits aig.now above) places (number bits aig.now xs.now))) }
{
    let mut word = Vec::from_slice(alloc, xs)?;
    for _place in 0..places {
        word = moved_once(alloc, aig, way, above, &word)?;
    }
    Ok(word)
}

/// A word that is moved by the number that four bits spell, by a stage for each.
#[tactic(auto, using(crate::proofs::Growing::growing))]
fn moved_by_stages(
    alloc: Global,
    aig: &mut Aig,
    way: Way,
    above: Edge,
    xs: &[Edge],
    ys: &[Edge],
) -> Result<Vec<Edge>, AllocError>
    requires above { Stands aig.old above }
    requires x { AllStand aig.old xs.now }
    requires y { AllStand aig.old ys.now }
    requires many { length xs.now ≡ 16 }
    requires four { 4 ≤ length ys.now }
    ensures word { IfOk result (λ v. Spells aig.new v.items 16 (λ bits. moved_word way (value_of bits aig.old above) (number bits aig.old (take 4 ys.now)) (number bits aig.old xs.now))) }
    ensures grows { Grows aig.old aig.new }
{
    let mut word = Vec::from_slice(alloc, xs)?;
    for stage in 0..4_usize {
        let further = moved(alloc, aig, way, above, &word, 1 << stage)?;
        word = choice(alloc, aig, ys[stage], &further, &word)?;
    }
    Ok(word)
}

/// A word that is moved by the number that a word spells.
#[tactic(auto, using(crate::proofs::Growing::growing))]
pub(crate) fn shifted(
    alloc: Global,
    aig: &mut Aig,
    way: Way,
    above: Edge,
    xs: &[Edge],
    ys: &[Edge],
) -> Result<Vec<Edge>, AllocError>
    requires above { Stands aig.old above }
    requires x { AllStand aig.old xs.now }
    requires y { AllStand aig.old ys.now }
    requires many { length xs.now ≡ 16 }
    requires same { length ys.now ≡ 16 }
    ensures word { IfOk result (λ v. Spells aig.new v.items 16 (λ bits. moved_word way (value_of bits aig.old above) (min (number bits aig.old ys.now) 16) (number bits aig.old xs.now))) }
    ensures grows { Grows aig.old aig.new }
{
    let near = moved_by_stages(alloc, aig, way, above, xs, ys)?;
    let is_far = is_not_zero(aig, &ys[4..])?;
    let edge = incoming(aig, way, above);
    let far = filled(alloc, aig, edge)?;
    choice(alloc, aig, is_far, &far, &near)
}

/// The word whose bits are all one edge.
fn filled(alloc: Global, aig: &Aig, edge: Edge) -> Result<Vec<Edge>, AllocError>
    requires { Stands aig.now edge }
    ensures { IfOk result (λ v. Spells aig.now v.items 16 (λ bits. if value_of bits aig.now edge then 65535 else 0)) }
{
    let _ = aig;
    Vec::from_slice(alloc, &[edge; 16])
}
