//! The simpler term of one node.

ghost use Rattle.std.specs.Prelude.{◌≡◌, ℕ, ◌<◌, true, length, slice_get, Some, IfOk, OnErr};
ghost use Rattle.kn_built.specs.Built.{Extends};
ghost use Rattle.kn_word.specs.declared.Op.{Op as OpOf};
ghost use Rattle.kn_term.specs.declared.node.Ref.{Ref as RefOf};
ghost use Rattle.kn_term.specs.declared.node.Node.TheVariants.{Apply as ApplyNode};
ghost use Rattle.kn_term.specs.Terms.{Valuation, ev, Reads};
ghost use Rattle.kn_term.specs.Nodes.{term_at};
ghost use Rattle.kn_simplify.specs.Folded.{IsFolded, HasFoldedOperands, IsWordOr, is_idle_twice};

use crate::form::{enter, form_of};
use kn_term::{Ref, Terms};
use std::alloc::AllocError;

/// A term with the same words as a term, simpler where the operator or the choice at its top always gives a word or one
/// of its operands. Its operands are taken as they are, and at most one node is new. The answer reads no other input.
/// Where the operands are folded, the answer is: no operator in it is on two words, none is `add`, `and` or `or` with 0
/// or `mul` with 1, and no choice is by a word. An operator with one Ref on both sides that always gives this operand
/// or one word, as `xor` does, becomes that. Earlier Refs keep their terms. Err is want of memory, and leaves the list
/// as it was.
pub fn simplify_top(terms: &mut Terms, r: Ref) -> Result<Ref, AllocError>
    requires { r.index < length terms.old }
    ensures value { IfOk result (λ s. (a : Valuation) → ev a (term_at terms.new s.index) ≡ ev a (term_at terms.old r.index)) }
    ensures inputs { IfOk result (λ s. (n k width : ℕ) → Reads n k width (term_at terms.new s.index) → Reads n k width (term_at terms.old r.index)) }
    ensures folded { IfOk result (λ s. HasFoldedOperands (term_at terms.old r.index) → IsFolded (term_at terms.new s.index)) }
    ensures twice { IfOk result (λ s. (op : OpOf) (x : RefOf) → slice_get terms.old r.index ≡ Some (ApplyNode op x x) → is_idle_twice op ≡ true → IsWordOr (term_at terms.old x.index) (term_at terms.new s.index)) }
    ensures stands { IfOk result (λ s. s.index < length terms.new) }
    ensures grows { Extends terms.old terms.new }
    ensures err { OnErr result (terms.new ≡ terms.old) }
{
    terms.order();
    let node = terms.node(r);
    match form_of(terms, node) {
        Some(form) => enter(terms, form),
        None => Ok(r),
    }
}
