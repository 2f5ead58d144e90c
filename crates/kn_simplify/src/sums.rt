//! Words that are added one after the other, as one addition.

ghost use Rattle.std.specs.Prelude.{◌≡◌, ◌<◌, length, IfSome};
ghost use Rattle.kn_term.specs.Terms.{Apply};
ghost use Rattle.kn_term.specs.Nodes.{term_at};
ghost use Rattle.kn_simplify.specs.Sums.{IsAdded, IsSumOf};

use kn_term::{Node, Ref, Terms};
use kn_word::{Op, apply};

/// A term and the word that is added to it.
#[derive(Clone, Copy, Debug, PartialEq, Eq)]
pub struct Sum {
    pub base: Ref,
    pub word: u16,
}

/// An operator on two terms as one addition of a word, where it adds a word to, or takes it from, what a word was added
/// to or taken from; None elsewhere.
pub fn sum_of(terms: &Terms, op: Op, x: Ref, y: Ref) -> Option<Sum>
    requires x { x.index < length terms.now }
    requires y { y.index < length terms.now }
    ensures sum { IfSome result (IsSumOf terms.now (Apply op (term_at terms.now x.index) (term_at terms.now y.index))) }
    ensures apart { IfSome result (λ s. x ≡ y → ⊥) }
{
    terms.order();
    let Some(word) = added_by(terms, op, y) else {
        return None;
    };
    let Node::Apply(inner, base, z) = terms.node(x) else {
        return None;
    };
    let Some(before) = added_by(terms, inner, z) else {
        return None;
    };
    Some(Sum {
        base,
        word: apply(Op::Add, before, word),
    })
}

/// The word that an operator adds to what is on its left, where a term is on its right; None where it is no word, or the
/// operator adds and takes nothing.
fn added_by(terms: &Terms, op: Op, y: Ref) -> Option<u16>
    requires { y.index < length terms.now }
    ensures { IfSome result (IsAdded op (term_at terms.now y.index)) }
{
    let Node::Konst(word) = terms.node(y) else {
        return None;
    };
    match op {
        Op::Add => Some(word),
        Op::Sub => Some(apply(Op::Sub, 0, word)),
        _ => None,
    }
}
