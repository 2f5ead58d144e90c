//! The places that roots reach.

ghost use Rattle.std.specs.Prelude.{◌≡◌, ◌⊎◌, ◌↔◌, ℕ, length, IfOk, OnOk};
ghost use Rattle.kn_term.specs.Reached.{RootsStand, IsRootAt, IsOperand, IsReached, IsAmong, AreRising, AreInOrder, IsIn};

use crate::node::{Node, Ref};
use crate::terms::Terms;
use std::alloc::{AllocError, Global};
use std::collections::BTreeSet;

/// The places of all terms that roots have in them, their own and those of their operands on and on, in rising order,
/// each once. So a node's operands come before it. It takes time by how many places these are, however long the list is.
/// Err is want of memory.
pub fn reached(alloc: Global, terms: &Terms, roots: &[Ref]) -> Result<Vec<usize>, AllocError>
    requires { RootsStand (length terms.now) roots.now }
    ensures exact { IfOk result (λ v. (place : ℕ) → IsAmong v.items place ↔ IsReached terms.now roots.now place) }
    ensures rising { IfOk result (λ v. AreRising v.items) }
    ensures order { IfOk result (λ v. AreInOrder terms.now v.items) }
{
    // 'order' is called for its clause that operands stand before their node, which the proof cites.
    terms.order();
    let mut ahead = places_of(alloc, roots)?;
    let mut places = Vec::new(alloc);
    while let Some(place) = ahead.pop_last() {
        put_operands(&mut ahead, terms.node(Ref { index: place }))?;
        places.push(place)?;
    }
    places.reverse();
    Ok(places)
}

/// The places of roots.
fn places_of(alloc: Global, roots: &[Ref]) -> Result<BTreeSet<usize>, AllocError>
    ensures { IfOk result (λ places. (k : ℕ) → IsIn places k ↔ IsRootAt roots.now k) }
{
    let mut places = BTreeSet::new(alloc);
    for root in roots {
        put_place(&mut places, root.index)?;
    }
    Ok(places)
}

/// Puts the places of a node's operands among others.
fn put_operands(places: &mut BTreeSet<usize>, node: Node) -> Result<(), AllocError>
    ensures { OnOk result ((k : ℕ) → IsIn places.new k ↔ (IsOperand node k ⊎ IsIn places.old k)) }
{
    match node {
        Node::Konst(_) | Node::Input { .. } => {}
        Node::Apply(_, x, y) => {
            put_place(places, x.index)?;
            put_place(places, y.index)?;
        }
        Node::Ite(c, x, y) => {
            put_place(places, c.index)?;
            put_place(places, x.index)?;
            put_place(places, y.index)?;
        }
    }
    Ok(())
}

/// Puts a place among others.
fn put_place(places: &mut BTreeSet<usize>, place: usize) -> Result<(), AllocError>
    ensures { OnOk result ((k : ℕ) → IsIn places.new k ↔ ((k ≡ place) ⊎ IsIn places.old k)) }
{
    places.insert(place)?;
    Ok(())
}
