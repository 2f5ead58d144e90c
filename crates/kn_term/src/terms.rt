//! Terms as a list of nodes, children before parents.

ghost use Rattle.std.specs.Prelude.{◌≡◌, ◌↔◌, ℕ, ◌+◌, ◌<◌, ◌≤◌, ◌%◌, ◌^◌, List, [], length, map, IfOk, OnErr, IsTrue, Some, slice_get, vec_len, take};
ghost use Rattle.std.specs.Cmp.Lexicographic.{pointwise};
ghost use Rattle.kn_built.specs.Built.{Extends};
ghost use Rattle.kn_term.specs.Terms.{Word, Input, Apply, Choice, Term, ev, input_word, Valuation as Assignment, WordsByInputs};
ghost use Rattle.kn_term.specs.Nodes.{term_at, term_of, terms_of, IsNodeAt, AreNodes};

use crate::block::Block;
use crate::blocks::{joined, kept_blocks, node_at, put, shared_blocks};
use crate::bring::bring;
use crate::node::{Node, Ref};
use crate::valuation::Valuation;
use kn_word::{Op, apply};
use std::alloc::{AllocError, Global};
use std::marker::Model;
use std::sync::Arc;

/// A list of nodes, children before parents, each of which is a term. Contracts see the list of nodes, and it is kept
/// in the allocator that `new` was given. No node stands twice. Its frozen part is shared by its copies.
#[derive(Debug, Drop)]
pub struct Terms {
    blocks: Vec<Arc<Block, Global>>,
    /// How many nodes the blocks have.
    before: usize,
    tail: Block,
}

impl Model for Terms {
    ghost use Rattle.std.specs.Prelude.{◌++◌, List};
    ghost use Rattle.kn_term.specs.declared.node.Node.{Node};
    ghost use Rattle.kn_term.specs.Blocks.{front, Stands};

    ghost Value = { List Node };

    ghost view = { λ t. front t.blocks.items ++ t.tail };

    ghost invariant = { λ t. Stands (front t.blocks.items) t.tail t.before };
}

impl Terms {
    /// The list without nodes. It takes no memory.
    pub fn new(alloc: Global) -> Terms
        ensures { result ≡ [] }
    {
        Terms {
            blocks: Vec::new(alloc),
            before: 0,
            tail: Block::new(alloc),
        }
    }

    /// A word as a term. Earlier Refs keep their terms. Err is want of memory, and leaves the list as it was.
    pub fn konst(&mut self, w: u16) -> Result<Ref, AllocError>
        ensures term { IfOk result (λ r. term_at self.new r.index ≡ Word w) }
        ensures stands { IfOk result (λ r. r.index < length self.new) }
        ensures grows { Extends self.old self.new }
        ensures err { OnErr result (self.new ≡ self.old) }
    {
        self.push(Node::Konst(w))
    }

    /// The input of a node by its index, counted from 0, with 1 to 16 bits, as a term. Earlier Refs keep their terms.
    /// Err is want of memory, and leaves the list as it was.
    pub fn input(&mut self, node: u32, index: u32, width: u32) -> Result<Ref, AllocError>
        requires least { 1 ≤ width }
        requires most { width ≤ 16 }
        ensures term { IfOk result (λ r. term_at self.new r.index ≡ Input node index width) }
        ensures stands { IfOk result (λ r. r.index < length self.new) }
        ensures grows { Extends self.old self.new }
        ensures err { OnErr result (self.new ≡ self.old) }
    {
        self.push(Node::Input { node, index, width })
    }

    /// What an operator makes of two terms, as a term. Earlier Refs keep their terms. Err is want of memory, and leaves
    /// the list as it was.
    pub fn apply(&mut self, op: Op, x: Ref, y: Ref) -> Result<Ref, AllocError>
        requires x { x.index < length self.old }
        requires y { y.index < length self.old }
        ensures term { IfOk result (λ r. term_at self.new r.index ≡ Apply op (term_at self.old x.index) (term_at self.old y.index)) }
        ensures stands { IfOk result (λ r. r.index < length self.new) }
        ensures grows { Extends self.old self.new }
        ensures err { OnErr result (self.new ≡ self.old) }
    {
        self.push(Node::Apply(op, x, y))
    }

    /// The term `x` where `c` is not 0, else `y`, as a term. Earlier Refs keep their terms. Err is want of memory, and
    /// leaves the list as it was.
    pub fn ite(&mut self, c: Ref, x: Ref, y: Ref) -> Result<Ref, AllocError>
        requires c { c.index < length self.old }
        requires x { x.index < length self.old }
        requires y { y.index < length self.old }
        ensures term { IfOk result (λ r. term_at self.new r.index ≡ Choice (term_at self.old c.index) (term_at self.old x.index) (term_at self.old y.index)) }
        ensures stands { IfOk result (λ r. r.index < length self.new) }
        ensures grows { Extends self.old self.new }
        ensures err { OnErr result (self.new ≡ self.old) }
    {
        self.push(Node::Ite(c, x, y))
    }

    /// The term that a Ref names in another list, as a term of this one: of that list's nodes, those that the Ref reaches
    /// come behind the nodes of this list, where they do not stand yet. Earlier Refs keep their terms. Err is want of
    /// memory, and leaves the list as it was.
    pub fn import(&mut self, other: &Terms, r: Ref) -> Result<Ref, AllocError>
        requires { r.index < length other.now }
        ensures term { IfOk result (λ s. term_at self.new s.index ≡ term_at other.now r.index) }
        ensures stands { IfOk result (λ s. s.index < length self.new) }
        ensures grows { Extends self.old self.new }
        ensures known { (place : ℕ) → place < length self.old → term_at self.old place ≡ term_at other.now r.index → self.new ≡ self.old }
        ensures err { OnErr result (self.new ≡ self.old) }
    {
        let alloc = *self.blocks.allocator();
        let len = self.tail.len();
        match bring(
            self.blocks.as_slice(),
            &mut self.tail,
            self.before,
            other,
            r,
            alloc,
        ) {
            Ok(index) => Ok(Ref { index }),
            Err(e) => {
                self.tail.cut(len);
                Err(e)
            }
        }
    }

    /// The node that a Ref names. Its children, if it has any, stand before it.
    pub fn node(&self, r: Ref) -> Node
        requires { r.index < length self.now }
        ensures is { slice_get self.now r.index ≡ Some result }
        ensures stands { IsNodeAt r.index result }
        ensures term { term_at self.now r.index ≡ term_of (terms_of self.now) result }
    {
        node_at(self.blocks.as_slice(), &self.tail, r.index)
    }

    /// The word that a term has under a valuation. Err is want of memory.
    pub fn value(&self, a: &Valuation, r: Ref) -> Result<u16, AllocError>
        requires { r.index < length self.now }
        ensures { IfOk result (λ w. w ≡ ev a.now (term_at self.now r.index)) }
    {
        let values = values_of(*self.blocks.allocator(), self, r.index + 1, a)?;
        Ok(values[r.index])
    }

    /// That each node may stand where it stands, its children before it, that there is a number for each place, and that
    /// each term has a word under each valuation, for a caller that needs it in a proof.
    pub fn order(&self)
        ensures order { AreNodes self.now }
        ensures once { (i j : ℕ) → i < length self.now → j < length self.now → term_at self.now i ≡ term_at self.now j → i ≡ j }
        ensures few { length self.now < 2 ^ 64 }
        ensures words { (a : Assignment) (place : ℕ) → place < length self.now → ev a (term_at self.now place) < 2 ^ 16 }
    {
        let _ = &self.tail;
        let _count = self.before;
    }

    /// The same list of nodes. Err is want of memory. What is frozen is shared, and takes no time.
    pub fn copy(&self) -> Result<Terms, AllocError>
        ensures { IfOk result (λ t. t ≡ self.now) }
    {
        let alloc = *self.blocks.allocator();
        let blocks = shared_blocks(alloc, self.blocks.as_slice())?;
        let mut tail = Block::new(alloc);
        tail.append(&self.tail)?;
        Ok(Terms {
            blocks,
            before: self.before,
            tail,
        })
    }

    /// The same list, all of which is shared by later copies. Err is want of memory, and leaves the list as it was.
    pub fn freeze(&mut self) -> Result<(), AllocError>
        ensures { self.new ≡ self.old }
    {
        let more = self.tail.len();
        if more == 0 {
            return Ok(());
        }
        let alloc = *self.blocks.allocator();
        self.blocks.reserve(1)?;
        let keep = kept_blocks(self.blocks.as_slice(), more);
        let whole = joined(alloc, &self.blocks.as_slice()[keep..], &self.tail)?;
        let block = Arc::new(alloc, whole)?;
        self.blocks.truncate(keep);
        self.blocks.push_reserved(block);
        self.before += more;
        self.tail = Block::new(alloc);
        Ok(())
    }

    /// How many nodes there are.
    fn len(&self) -> usize
        ensures { result ≡ length self.now }
    {
        self.before + self.tail.len()
    }

    /// The node, which is one more where it does not stand yet. Where there is no number for its place, that is want of
    /// memory.
    fn push(&mut self, node: Node) -> Result<Ref, AllocError>
        requires { IsNodeAt (length self.old) node }
        ensures term { IfOk result (λ r. term_at self.new r.index ≡ term_of (terms_of self.old) node) }
        ensures stands { IfOk result (λ r. r.index < length self.new) }
        ensures grows { Extends self.old self.new }
        ensures node { IfOk result (λ r. slice_get self.new r.index ≡ Some node) }
        ensures known { (place : ℕ) → slice_get self.old place ≡ Some node → self.new ≡ self.old }
        ensures err { OnErr result (self.new ≡ self.old) }
    {
        let index = put(self.blocks.as_slice(), &mut self.tail, self.before, node)?;
        Ok(Ref { index })
    }
}

impl PartialEq for Terms {
    ghost use Rattle.std.specs.Cmp.Lexicographic.{pointwise, lists_per};
    ghost use Rattle.kn_term.specs.contracts.node.NodePartialEq.TheImpl.Laws.{laws-law};

    ghost eq = { pointwise ⟦<Node as PartialEq>⟧.eq };

    ghost laws = { lists_per laws-law };

    /// Two lists are equal exactly where their nodes are.
    fn eq(&self, other: &Terms) -> bool
        ensures eq { result ≡ pointwise ⟦<Node as PartialEq>⟧.eq self.now other.now }
        ensures same { IsTrue result ↔ (self.now ≡ other.now) }
    {
        let len = self.len();
        if len != other.len() {
            return false;
        }
        for index in 0..len {
            let r = Ref { index };
            if self.node(r) != other.node(r) {
                return false;
            }
        }
        true
    }
}

/// What a term's word is depends on the inputs that the term reads alone.
pub fn words_by_inputs()
    ensures { WordsByInputs }
{}

/// The words of the first terms of a list, so many.
fn values_of(
    alloc: Global,
    terms: &Terms,
    count: usize,
    a: &Valuation,
) -> Result<Vec<u16>, AllocError>
    requires { count ≤ length terms.now }
    ensures values { IfOk result (λ v. v.items ≡ map (ev a.now) (terms_of (take count terms.now))) }
    ensures count { IfOk result (λ v. vec_len v ≡ count) }
{
    let mut values = Vec::new(alloc);
    for place in 0..count {
        let node = terms.node(Ref { index: place });
        let value = value_of(values.as_slice(), a, node);
        values.push(value)?;
    }
    Ok(values)
}

/// The word of one node, out of the words of the nodes before it.
fn value_of(values: &[u16], a: &Valuation, node: Node) -> u16
    requires { IsNodeAt (length values.now) node }
    ensures { (ts : List Term) → values.now ≡ map (ev a.now) ts → result ≡ ev a.now (term_of ts node) }
{
    match node {
        Node::Konst(word) => word,
        Node::Input { node, index, width } => cut(a.get(node, index), width),
        Node::Apply(op, x, y) => apply(op, values[x.index], values[y.index]),
        Node::Ite(c, x, y) => {
            if values[c.index] != 0 {
                values[x.index]
            } else {
                values[y.index]
            }
        }
    }
}

/// The lowest bits of a word, 1 to 16 of them.
fn cut(word: u16, width: u32) -> u16
    requires { width ≤ 16 }
    ensures { result ≡ word % 2 ^ width }
{
    (u32::from(word) % (1 << width)) as u16
}
