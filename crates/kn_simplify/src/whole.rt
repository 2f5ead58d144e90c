//! The simpler term of a whole term.

ghost use Rattle.std.specs.Prelude.{◌≡◌, ℕ, ◌<◌, List, length, slice_get, Some, IfOk, OnErr};
ghost use Rattle.kn_built.specs.Built.{Extends};
ghost use Rattle.kn_term.specs.declared.node.Node.{Node as NodeOf};
ghost use Rattle.kn_term.specs.Terms.{Valuation, ev, Reads};
ghost use Rattle.kn_term.specs.Nodes.{term_at, term_of, terms_of, IsNodeAt};
ghost use Rattle.kn_term.specs.Reached.{AreInOrder};
ghost use Rattle.kn_simplify.specs.Folded.{IsFolded, HasFoldedOperands, HasFoldedFor, AreFolded};
ghost use Rattle.kn_simplify.specs.Simpler.{StandsFor, IsSimpler, AreSimpler, simpler_in};

use crate::form::{enter, form_of, put};
use kn_term::{Node, Ref, Terms, reached};
use std::alloc::{AllocError, Global};
use std::collections::HashMap;

/// A term with the same words as a term: each operator and each choice in it, from its operands up, is simpler where it
/// always gives a word or one of its operands. A term that several share is done once. The answer reads no other input,
/// and is folded: no operator in it is on two words, none is `add`, `and` or `or` with 0 or `mul` with 1, and no choice
/// is by a word. It takes time and memory by the nodes that the term has in it, the latter from `alloc` while it works,
/// and copies what of the list is not frozen; where the operands are simple already, `simplify_top` takes one step. Earlier Refs keep their terms. Err is want of memory, and
/// leaves the list as it was.
pub fn simplify(alloc: Global, terms: &mut Terms, r: Ref) -> Result<Ref, AllocError>
    requires { r.index < length terms.old }
    ensures value { IfOk result (λ s. (a : Valuation) → ev a (term_at terms.new s.index) ≡ ev a (term_at terms.old r.index)) }
    ensures inputs { IfOk result (λ s. (n k width : ℕ) → Reads n k width (term_at terms.new s.index) → Reads n k width (term_at terms.old r.index)) }
    ensures folded { IfOk result (λ s. IsFolded (term_at terms.new s.index)) }
    ensures stands { IfOk result (λ s. s.index < length terms.new) }
    ensures grows { Extends terms.old terms.new }
    ensures err { OnErr result (terms.new ≡ terms.old) }
{
    let needed = reached(alloc, terms, &[r])?;
    let mut grown = terms.copy()?;
    let table = simpler_terms(alloc, &mut grown, &needed)?;
    *terms = grown;
    Ok(simpler(r, &table))
}

/// For each place that is needed a simpler term that may stand for the one there; all others stand for themselves.
fn simpler_terms(
    alloc: Global,
    terms: &mut Terms,
    needed: &[usize],
) -> Result<HashMap<usize, Ref>, AllocError>
    requires { AreInOrder terms.old needed.now }
    ensures table { IfOk result (λ t. AreSimpler terms.new (length terms.old) (simpler_in t)) }
    ensures folded { IfOk result (λ t. AreFolded terms.new (simpler_in t) needed.now) }
    ensures grows { Extends terms.old terms.new }
{
    let mut table = HashMap::new(alloc);
    for place in needed {
        let r = simpler_at(terms, &table, *place)?;
        table.insert(*place, r)?;
    }
    Ok(table)
}

/// A term that may stand for the one at a place, given those that may stand for earlier ones.
fn simpler_at(
    terms: &mut Terms,
    table: &HashMap<usize, Ref>,
    place: usize,
) -> Result<Ref, AllocError>
    requires place { place < length terms.old }
    requires table { AreSimpler terms.old place (simpler_in table.now) }
    ensures simpler { IfOk result (λ r. IsSimpler terms.new place r) }
    ensures folded { IfOk result (λ r. (n : NodeOf) → slice_get terms.old place ≡ Some n → HasFoldedFor terms.old (simpler_in table.now) n → IsFolded (term_at terms.new r.index)) }
    ensures grows { Extends terms.old terms.new }
{
    terms.order();
    let node = terms.node(Ref { index: place });
    let over = over_simpler(node, table);
    match form_of(terms, over) {
        Some(form) => enter(terms, form),
        None if over == node => Ok(Ref { index: place }),
        None => put(terms, over),
    }
}

/// The node over those terms that may stand for its operands.
fn over_simpler(node: Node, table: &HashMap<usize, Ref>) -> Node
    ensures term { (ns : List NodeOf) (place : ℕ) → IsNodeAt place node → AreSimpler ns place (simpler_in table.now) → IsNodeAt (length ns) result × StandsFor (term_of (terms_of ns) result) (term_of (terms_of ns) node) }
    ensures folded { (ns : List NodeOf) → HasFoldedFor ns (simpler_in table.now) node → HasFoldedOperands (term_of (terms_of ns) result) }
{
    match node {
        Node::Konst(word) => Node::Konst(word),
        Node::Input { node, index, width } => Node::Input { node, index, width },
        Node::Apply(op, x, y) => Node::Apply(op, simpler(x, table), simpler(y, table)),
        Node::Ite(c, x, y) => Node::Ite(simpler(c, table), simpler(x, table), simpler(y, table)),
    }
}

/// What may stand for a term: what the table has for it, or itself.
fn simpler(r: Ref, table: &HashMap<usize, Ref>) -> Ref
    ensures { result ≡ simpler_in table.now r.index }
{
    table.get(&r.index).copied().unwrap_or(r)
}
