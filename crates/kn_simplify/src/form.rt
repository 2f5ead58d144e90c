//! Simpler forms of nodes.

ghost use Rattle.std.specs.Prelude.{◌≡◌, ◌↔◌, ◌<◌, length, true, IsTrue, MatchOption, IfOk, OnErr};
ghost use Rattle.kn_built.specs.Built.{Extends};
ghost use Rattle.kn_word.specs.declared.Op.{Op as OpOf};
ghost use Rattle.kn_term.specs.declared.node.Ref.{Ref as RefOf};
ghost use Rattle.kn_term.specs.declared.node.Node.TheVariants.{Apply as ApplyNode};
ghost use Rattle.kn_term.specs.Terms.{Word, Apply, Choice};
ghost use Rattle.kn_term.specs.Nodes.{term_at, term_of, terms_of, IsNodeAt};
ghost use Rattle.kn_simplify.specs.Folded.{IsWord, IsWordOr, IsFoldedTop, is_idle_twice};
ghost use Rattle.kn_simplify.specs.Simpler.{form_term, IsFormIn, IsFormOf};

use crate::laws::{Outcome, outcome_of};
use kn_term::{Node, Ref, Terms};
use kn_word::Op;
use std::alloc::AllocError;

/// What a term may be replaced by: a word, or a term of the list.
#[derive(Clone, Copy, Debug, PartialEq, Eq)]
pub enum Form {
    /// This word.
    Word(u16),
    /// The term that this names.
    Term(Ref),
}

/// A simpler form of a node over the terms of a list; None where no rule has one, and never at an operator that is not
/// needed or a choice by a word.
pub fn form_of(terms: &Terms, node: Node) -> Option<Form>
    requires { IsNodeAt (length terms.now) node }
    ensures form { MatchOption result (IsFoldedTop (term_of (terms_of terms.now) node)) (λ f. IsFormOf terms.now f (term_of (terms_of terms.now) node)) }
    ensures twice { (op : OpOf) (x : RefOf) → node ≡ ApplyNode op x x → is_idle_twice op ≡ true → MatchOption result ⊥ (λ f. IsWordOr (term_at terms.now x.index) (form_term terms.now f)) }
{
    match node {
        Node::Konst(_) => None,
        Node::Input { .. } => None,
        Node::Apply(op, x, y) => form_of_operator(terms, op, x, y),
        Node::Ite(c, x, y) => form_of_choice(terms, c, x, y),
    }
}

/// A simpler form of an operator on two terms.
fn form_of_operator(terms: &Terms, op: Op, x: Ref, y: Ref) -> Option<Form>
    requires x { x.index < length terms.now }
    requires y { y.index < length terms.now }
    ensures form { MatchOption result (IsFoldedTop (Apply op (term_at terms.now x.index) (term_at terms.now y.index))) (λ f. IsFormOf terms.now f (Apply op (term_at terms.now x.index) (term_at terms.now y.index))) }
    ensures twice { x ≡ y → is_idle_twice op ≡ true → MatchOption result ⊥ (λ f. IsWordOr (term_at terms.now x.index) (form_term terms.now f)) }
{
    terms.order();
    let left = word_of(terms, x);
    let right = word_of(terms, y);
    let same = are_same(x, y);
    match outcome_of(op, left, right, same) {
        Some(Outcome::Word(word)) => Some(Form::Word(word)),
        Some(Outcome::Left) => Some(Form::Term(x)),
        Some(Outcome::Right) => Some(Form::Term(y)),
        None => None,
    }
}

/// A simpler form of a choice: one side, where the condition is a word or both sides are the same.
fn form_of_choice(terms: &Terms, c: Ref, x: Ref, y: Ref) -> Option<Form>
    requires c { c.index < length terms.now }
    requires x { x.index < length terms.now }
    requires y { y.index < length terms.now }
    ensures { MatchOption result (IsFoldedTop (Choice (term_at terms.now c.index) (term_at terms.now x.index) (term_at terms.now y.index))) (λ f. IsFormOf terms.now f (Choice (term_at terms.now c.index) (term_at terms.now x.index) (term_at terms.now y.index))) }
{
    let condition = word_of(terms, c);
    let same = are_same(x, y);
    match condition {
        Some(0) => Some(Form::Term(y)),
        Some(_) => Some(Form::Term(x)),
        None if same => Some(Form::Term(x)),
        None => None,
    }
}

/// The word that a term is; None where it is no word.
fn word_of(terms: &Terms, r: Ref) -> Option<u16>
    requires { r.index < length terms.now }
    ensures { MatchOption result (IsWord (term_at terms.now r.index) → ⊥) (λ w. term_at terms.now r.index ≡ Word w) }
{
    match terms.node(r) {
        Node::Konst(word) => Some(word),
        _ => None,
    }
}

/// Whether two Refs name one term: no node stands twice in a list.
fn are_same(x: Ref, y: Ref) -> bool
    ensures { IsTrue result ↔ (x ≡ y) }
{
    x == y
}

/// The term of a form, as a term of the list. Err is want of memory, and leaves the list as it was.
pub fn enter(terms: &mut Terms, form: Form) -> Result<Ref, AllocError>
    requires { IsFormIn (length terms.old) form }
    ensures term { IfOk result (λ r. term_at terms.new r.index ≡ form_term terms.old form) }
    ensures stands { IfOk result (λ r. r.index < length terms.new) }
    ensures grows { Extends terms.old terms.new }
    ensures err { OnErr result (terms.new ≡ terms.old) }
{
    match form {
        Form::Word(word) => terms.konst(word),
        Form::Term(r) => Ok(r),
    }
}

/// A node as a term of the list. Err is want of memory, and leaves the list as it was.
pub fn put(terms: &mut Terms, node: Node) -> Result<Ref, AllocError>
    requires { IsNodeAt (length terms.old) node }
    ensures term { IfOk result (λ r. term_at terms.new r.index ≡ term_of (terms_of terms.old) node) }
    ensures stands { IfOk result (λ r. r.index < length terms.new) }
    ensures grows { Extends terms.old terms.new }
    ensures err { OnErr result (terms.new ≡ terms.old) }
{
    match node {
        Node::Konst(word) => terms.konst(word),
        Node::Input { node, index, width } => terms.input(node, index, width),
        Node::Apply(op, x, y) => terms.apply(op, x, y),
        Node::Ite(c, x, y) => terms.ite(c, x, y),
    }
}
