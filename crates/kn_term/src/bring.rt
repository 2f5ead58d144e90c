//! The nodes that a Ref reaches, on their way into another list.

ghost use Rattle.std.specs.Prelude.{◌≡◌, ◌<◌, ◌++◌, ℕ, length, IfOk, OnOk};
ghost use Rattle.kn_built.specs.Built.{Extends};
ghost use Rattle.kn_term.specs.Nodes.{term_at};
ghost use Rattle.kn_term.specs.Reached.{IsAmong, AreInOrder};
ghost use Rattle.kn_term.specs.Blocks.{front, Stands, renamed, new_place, place_in, Has, AreBrought};

use crate::block::Block;
use crate::blocks::put;
use crate::node::{Node, Ref};
use crate::reach::reached;
use crate::terms::Terms;
use std::alloc::{AllocError, Global};
use std::collections::HashMap;
use std::sync::Arc;

/// Finds or puts the nodes that a Ref of another list reaches, and answers the place of its own.
pub(crate) fn bring(
    blocks: &[Arc<Block, Global>],
    tail: &mut Block,
    before: usize,
    other: &Terms,
    r: Ref,
    alloc: Global,
) -> Result<usize, AllocError>
    requires stands { Stands (front blocks.now) tail.old before }
    requires r { r.index < length other.now }
    ensures term { IfOk result (λ place. term_at (front blocks.now ++ tail.new) place ≡ term_at other.now r.index) }
    ensures within { IfOk result (λ place. place < length (front blocks.now ++ tail.new)) }
    ensures stands { Stands (front blocks.now) tail.new before }
    ensures known { OnOk result (Has (front blocks.now ++ tail.old) other.now r.index → tail.new ≡ tail.old) }
    ensures grows { Extends tail.old tail.new }
{
    // 'order' is called for its clause that operands stand before their node, which the proof cites.
    other.order();
    let reached = reached(alloc, other, &[r])?;
    let places = bring_all(blocks, tail, before, other, &reached, alloc)?;
    Ok(place_in(r, &places).index)
}

/// Finds or puts the nodes at places of another list, and answers which place each came to.
fn bring_all(
    blocks: &[Arc<Block, Global>],
    tail: &mut Block,
    before: usize,
    other: &Terms,
    reached: &[usize],
    alloc: Global,
) -> Result<HashMap<usize, usize>, AllocError>
    requires stands { Stands (front blocks.now) tail.old before }
    requires order { AreInOrder other.now reached.now }
    ensures brought { IfOk result (λ places. AreBrought other.now (front blocks.now ++ tail.new) (new_place places) reached.now) }
    ensures stands { Stands (front blocks.now) tail.new before }
    ensures known { OnOk result (((k : ℕ) → IsAmong reached.now k → Has (front blocks.now ++ tail.old) other.now k) → tail.new ≡ tail.old) }
    ensures grows { Extends tail.old tail.new }
{
    let mut places = HashMap::new(alloc);
    for place in reached {
        let node = renamed_node(other.node(Ref { index: *place }), &places);
        let at = put(blocks, tail, before, node)?;
        places.insert(*place, at)?;
    }
    Ok(places)
}

/// A node over children that came to these places.
fn renamed_node(node: Node, places: &HashMap<usize, usize>) -> Node
    ensures { result ≡ renamed (new_place places.now) node }
{
    match node {
        Node::Konst(word) => Node::Konst(word),
        Node::Input { node, index, width } => Node::Input { node, index, width },
        Node::Apply(op, x, y) => Node::Apply(op, place_in(x, places), place_in(y, places)),
        Node::Ite(c, x, y) => Node::Ite(
            place_in(c, places),
            place_in(x, places),
            place_in(y, places),
        ),
    }
}

/// What names the node that came to a place.
fn place_in(r: Ref, places: &HashMap<usize, usize>) -> Ref
    ensures { result ≡ place_in (new_place places.now) r }
{
    Ref {
        index: places.get(&r.index).copied().unwrap_or(0),
    }
}
