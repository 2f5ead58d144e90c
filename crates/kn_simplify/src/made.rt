//! Terms that are simple as they are made: the node that would be simplified is never in the list.

ghost use Rattle.std.specs.Prelude.{◌≡◌, ℕ, ◌<◌, length, true, IfOk, OnErr};
ghost use Rattle.kn_built.specs.Built.{Extends};
ghost use Rattle.kn_word.specs.declared.Op.{Op as OpOf};
ghost use Rattle.kn_term.specs.declared.node.Ref.{Ref as RefOf};
ghost use Rattle.kn_term.specs.declared.node.Node.TheVariants.{Apply as ApplyNode};
ghost use Rattle.kn_term.specs.Terms.{Valuation, Apply, Choice, ev, Reads};
ghost use Rattle.kn_term.specs.Nodes.{term_at, term_of, terms_of, IsNodeAt};
ghost use Rattle.kn_simplify.specs.Folded.{IsFolded, HasFoldedOperands, IsWordOr, is_idle_twice};
ghost use Rattle.kn_simplify.specs.Sums.{sum_term};

use crate::form::{enter, form_of, put};
use crate::sums::{Sum, sum_of};
use kn_term::{Node, Ref, Terms};
use kn_word::Op;
use std::alloc::AllocError;

/// What an operator makes of two terms, as a term with the same words, simpler where the operator always gives a word
/// or one of the two, and one addition where a word is added to, or taken from, what a word was added to or taken from.
/// The two are taken as they are, and the operator on them is no new node where it is simplified. The answer reads no
/// other input. Where the two are folded, the answer is, as `simplify_top` says. An operator with one Ref on both sides
/// that always gives this operand or one word, as `xor` does, becomes that. Earlier Refs keep their terms. Err is want
/// of memory, and leaves the list as it was.
pub fn apply(terms: &mut Terms, op: Op, x: Ref, y: Ref) -> Result<Ref, AllocError>
    requires x { x.index < length terms.old }
    requires y { y.index < length terms.old }
    ensures value { IfOk result (λ s. (a : Valuation) → ev a (term_at terms.new s.index) ≡ ev a (Apply op (term_at terms.old x.index) (term_at terms.old y.index))) }
    ensures inputs { IfOk result (λ s. (n k width : ℕ) → Reads n k width (term_at terms.new s.index) → Reads n k width (Apply op (term_at terms.old x.index) (term_at terms.old y.index))) }
    ensures folded { IfOk result (λ s. HasFoldedOperands (Apply op (term_at terms.old x.index) (term_at terms.old y.index)) → IsFolded (term_at terms.new s.index)) }
    ensures twice { IfOk result (λ s. x ≡ y → is_idle_twice op ≡ true → IsWordOr (term_at terms.old x.index) (term_at terms.new s.index)) }
    ensures stands { IfOk result (λ s. s.index < length terms.new) }
    ensures grows { Extends terms.old terms.new }
    ensures err { OnErr result (terms.new ≡ terms.old) }
{
    match sum_of(terms, op, x, y) {
        Some(sum) => added(terms, sum),
        None => made(terms, Node::Apply(op, x, y)),
    }
}

/// A term with a word added to it, as one term. Err is want of memory, and leaves the list as it was.
fn added(terms: &mut Terms, sum: Sum) -> Result<Ref, AllocError>
    requires { sum.base.index < length terms.old }
    ensures value { IfOk result (λ s. (a : Valuation) → ev a (term_at terms.new s.index) ≡ ev a (sum_term terms.old sum)) }
    ensures inputs { IfOk result (λ s. (n k width : ℕ) → Reads n k width (term_at terms.new s.index) → Reads n k width (sum_term terms.old sum)) }
    ensures folded { IfOk result (λ s. IsFolded (term_at terms.old sum.base.index) → IsFolded (term_at terms.new s.index)) }
    ensures stands { IfOk result (λ s. s.index < length terms.new) }
    ensures grows { Extends terms.old terms.new }
    ensures err { OnErr result (terms.new ≡ terms.old) }
{
    let mut grown = terms.copy()?;
    let word = grown.konst(sum.word)?;
    let made = made(&mut grown, Node::Apply(Op::Add, sum.base, word))?;
    *terms = grown;
    Ok(made)
}

/// The choice of `x` where `c` is not 0, else of `y`, as a term with the same words: one side where `c` is a word or
/// both sides are one term. The three are taken as they are, and at most one node is new: the choice is none where it is
/// simplified. The answer reads no other input. Where the three are folded, the answer is, as `simplify_top` says.
/// Earlier Refs keep their terms. Err is want of memory, and leaves the list as it was.
pub fn ite(terms: &mut Terms, c: Ref, x: Ref, y: Ref) -> Result<Ref, AllocError>
    requires c { c.index < length terms.old }
    requires x { x.index < length terms.old }
    requires y { y.index < length terms.old }
    ensures value { IfOk result (λ s. (a : Valuation) → ev a (term_at terms.new s.index) ≡ ev a (Choice (term_at terms.old c.index) (term_at terms.old x.index) (term_at terms.old y.index))) }
    ensures inputs { IfOk result (λ s. (n k width : ℕ) → Reads n k width (term_at terms.new s.index) → Reads n k width (Choice (term_at terms.old c.index) (term_at terms.old x.index) (term_at terms.old y.index))) }
    ensures folded { IfOk result (λ s. HasFoldedOperands (Choice (term_at terms.old c.index) (term_at terms.old x.index) (term_at terms.old y.index)) → IsFolded (term_at terms.new s.index)) }
    ensures stands { IfOk result (λ s. s.index < length terms.new) }
    ensures grows { Extends terms.old terms.new }
    ensures err { OnErr result (terms.new ≡ terms.old) }
{
    made(terms, Node::Ite(c, x, y))
}

/// The simpler form of a node as a term of the list, or the node itself where no rule has one.
fn made(terms: &mut Terms, node: Node) -> Result<Ref, AllocError>
    requires { IsNodeAt (length terms.old) node }
    ensures value { IfOk result (λ s. (a : Valuation) → ev a (term_at terms.new s.index) ≡ ev a (term_of (terms_of terms.old) node)) }
    ensures inputs { IfOk result (λ s. (n k width : ℕ) → Reads n k width (term_at terms.new s.index) → Reads n k width (term_of (terms_of terms.old) node)) }
    ensures folded { IfOk result (λ s. HasFoldedOperands (term_of (terms_of terms.old) node) → IsFolded (term_at terms.new s.index)) }
    ensures twice { IfOk result (λ s. (op : OpOf) (x : RefOf) → node ≡ ApplyNode op x x → is_idle_twice op ≡ true → IsWordOr (term_at terms.old x.index) (term_at terms.new s.index)) }
    ensures stands { IfOk result (λ s. s.index < length terms.new) }
    ensures grows { Extends terms.old terms.new }
    ensures err { OnErr result (terms.new ≡ terms.old) }
{
    match form_of(terms, node) {
        Some(form) => enter(terms, form),
        None => put(terms, node),
    }
}
