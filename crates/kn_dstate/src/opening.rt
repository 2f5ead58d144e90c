//! What a new graph begins with.

ghost use Rattle.std.specs.Prelude.{◌≡◌, ◌<◌, ◌≤◌, ℕ, [], ◌∷◌, length, map, slice_get, Some, None, IfOk, false};
ghost use Rattle.kn_dstate.specs.Places.{PlaceView};
ghost use Rattle.kn_dstate.specs.Graphs.{at, Held, first_state};

use crate::known::Known;
use crate::number::{PacketNo, StateNo};
use crate::place::Place;
use slab::Slab;
use std::alloc::{AllocError, Global};

/// For each of so many nodes a column with the state of the node's number.
fn open_columns(alloc: Global, nodes: usize) -> Result<Vec<Vec<StateNo>>, AllocError>
    ensures many { IfOk result (λ v. length v.items ≡ nodes) }
    ensures each { IfOk result (λ v. (n : ℕ) → n < nodes → slice_get (map (λ c. map (λ s. s.0) c.items) v.items) n ≡ Some (n ∷ [])) }
{
    let mut columns = Vec::with_capacity(alloc, nodes)?;
    for node in 0..nodes {
        columns.push(Vec::from_slice(alloc, &[StateNo(node)])?)?;
    }
    Ok(columns)
}

/// For each of so many nodes an empty inbox.
fn open_inboxes(alloc: Global, nodes: usize) -> Result<Vec<Vec<PacketNo>>, AllocError>
    ensures many { IfOk result (λ v. length v.items ≡ nodes) }
    ensures each { IfOk result (λ v. (n : ℕ) → n < nodes → slice_get (map (λ c. map (λ k. k.0) c.items) v.items) n ≡ Some []) }
{
    let mut inboxes = Vec::with_capacity(alloc, nodes)?;
    'nodes: for _node in 0..nodes {
        inboxes.push(Vec::new(alloc))?;
    }
    Ok(inboxes)
}

/// The dstate of a new graph.
fn open_place(alloc: Global, nodes: usize) -> Result<Place, AllocError>
    ensures columns_many { IfOk result (λ p. length p.columns ≡ nodes) }
    ensures inboxes_many { IfOk result (λ p. length p.inboxes ≡ nodes) }
    ensures columns { IfOk result (λ p. (n : ℕ) → n < nodes → slice_get p.columns n ≡ Some (n ∷ [])) }
    ensures inboxes { IfOk result (λ p. (n : ℕ) → n < nodes → slice_get p.inboxes n ≡ Some []) }
{
    Ok(Place {
        columns: open_columns(alloc, nodes)?,
        inboxes: open_inboxes(alloc, nodes)?,
    })
}

/// The dstates of a new graph: one, of number 0.
pub(crate) fn open_dstates(alloc: Global, nodes: usize) -> Result<Slab<Place>, AllocError>
    ensures columns_many { IfOk result (λ t. (p : PlaceView) → at t.slots 0 ≡ Some p → length p.columns ≡ nodes) }
    ensures inboxes_many { IfOk result (λ t. (p : PlaceView) → at t.slots 0 ≡ Some p → length p.inboxes ≡ nodes) }
    ensures columns { IfOk result (λ t. (p : PlaceView) → at t.slots 0 ≡ Some p → (n : ℕ) → n < nodes → slice_get p.columns n ≡ Some (n ∷ [])) }
    ensures inboxes { IfOk result (λ t. (p : PlaceView) → at t.slots 0 ≡ Some p → (n : ℕ) → n < nodes → slice_get p.inboxes n ≡ Some []) }
    ensures one { IfOk result (λ t. (p : PlaceView) × (at t.slots 0 ≡ Some p)) }
    ensures only { IfOk result (λ t. (d : ℕ) → 0 < d → at t.slots d ≡ None) }
{
    let mut dstates = Slab::new(alloc);
    dstates.reserve(1)?;
    let place = open_place(alloc, nodes)?;
    let _key = dstates.insert_reserved(place);
    Ok(dstates)
}

/// The states of a new graph: each node's under its number. The slab gives its first keys in order; since it does not
/// promise to, another key is answered as want of memory.
pub(crate) fn open_states(alloc: Global, nodes: u32) -> Result<Slab<Known>, AllocError>
    ensures each { IfOk result (λ t. (n : ℕ) → n < nodes → (capacity : ℕ) × (at t.slots n ≡ Some (first_state n capacity))) }
    ensures none { IfOk result (λ t. (n : ℕ) → nodes ≤ n → at t.slots n ≡ None) }
{
    let mut states = Slab::new(alloc);
    for node in 0..nodes {
        states.reserve(1)?;
        let known = Known::first(alloc, node)?;
        let key = states.insert_reserved(known);
        if key != node as usize {
            return Err(AllocError);
        }
    }
    Ok(states)
}
