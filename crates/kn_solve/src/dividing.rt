//! Parts of a condition that share no inputs.

ghost use Rattle.std.specs.Prelude.{◌≡◌, ◌≤◌, ◌||◌, ◌++◌, List, Bool, true, false, not, length, map, IfOk};
ghost use Rattle.std.specs.List.{filter};
ghost use Rattle.kn_term.specs.declared.node.Literal.{Literal as Listed};
ghost use Rattle.kn_term.specs.Terms.{Term};
ghost use Rattle.kn_term.specs.Nodes.{IsNodeAt, term_of, terms_of};
ghost use Rattle.kn_cond.specs.Meanings.{StandIn};
ghost use Rattle.kn_solve.specs.Parts.{IsSplit, ReadsOnly, IsLaidOver, is_among, LiteralsRead, marked, AreMarked};

use kn_aig::Aig;
use kn_blast::{InputBits, InputMap};
use kn_cond::Cond;
use kn_term::{Literal, Node, Ref, Terms, Valuation};
use std::alloc::{AllocError, Global};

/// Literals in a part and a rest, which read no input in common.
#[derive(Debug, Drop)]
pub(crate) struct Parts {
    pub(crate) part: Cond,
    pub(crate) rest: Cond,
    /// The inputs that the part reads.
    pub(crate) inputs: InputMap,
}

/// Splits literals. The part has the later ones, and those of the earlier ones that hang together with them by inputs that
/// both read, at once or by way of others. Err is want of memory.
pub(crate) fn divide(
    alloc: Global,
    terms: &Terms,
    earlier: &Cond,
    later: &Cond,
) -> Result<Parts, AllocError>
    requires earlier { StandIn terms.now earlier.now }
    requires later { StandIn terms.now later.now }
    ensures split { IfOk result (λ p. IsSplit (earlier.now ++ later.now) earlier.now p.part p.rest) }
    ensures part { IfOk result (λ p. LiteralsRead terms.now p.inputs true p.part) }
    ensures rest { IfOk result (λ p. LiteralsRead terms.now p.inputs false p.rest) }
{
    let count = count_of(terms, earlier.literals());
    let mut part = later.copy()?;
    let mut rest = earlier.copy()?;
    'grow: loop {
        let inputs = inputs_of(alloc, terms, part.literals())?;
        let marks = marks_of(alloc, terms, inputs.inputs(), count)?;
        let left = without_mark(alloc, rest.literals(), &marks)?;
        if left.literals().len() == rest.literals().len() {
            return Ok(Parts {
                part,
                rest: left,
                inputs,
            });
        }
        let near = with_mark(alloc, rest.literals(), &marks)?;
        part.join(&near)?;
        rest = left;
    }
}

/// How many terms there are up to the last one that a literal names.
fn count_of(terms: &Terms, literals: &[Literal]) -> usize
    requires { StandIn terms.now literals.now }
    ensures { result ≤ length terms.now }
{
    terms.order();
    let mut count = 0;
    for literal in literals {
        if literal.term.index >= count {
            count = literal.term.index + 1;
        }
    }
    count
}

/// The terms of literals.
fn terms_named(alloc: Global, literals: &[Literal]) -> Result<Vec<Ref>, AllocError>
    ensures { IfOk result (λ v. v.items ≡ map (λ (l : Listed). l.term) literals.now) }
{
    let mut named = Vec::new(alloc);
    for literal in literals {
        named.push(literal.term)?;
    }
    Ok(named)
}

/// The inputs that literals read.
fn inputs_of(alloc: Global, terms: &Terms, literals: &[Literal]) -> Result<InputMap, AllocError>
    requires { StandIn terms.now literals.now }
    ensures { IfOk result (λ m. LiteralsRead terms.now m true literals.now) }
{
    terms.order();
    let named = terms_named(alloc, literals)?;
    let mut aig = Aig::new(alloc);
    InputMap::open(alloc, terms, &named, &mut aig)
}

/// Whether an input is one of these.
fn is_among(inputs: &[InputBits], node: u32, index: u32) -> bool
    ensures { result ≡ is_among inputs.now node index }
{
    for input in inputs {
        if input.node == node && input.index == index {
            return true;
        }
    }
    false
}

/// A mark for each of the first terms, so many, that reads one of these inputs.
fn marks_of(
    alloc: Global,
    terms: &Terms,
    inputs: &[InputBits],
    count: usize,
) -> Result<Vec<bool>, AllocError>
    requires { count ≤ length terms.now }
    ensures { IfOk result (λ v. AreMarked (terms_of terms.now) inputs.now v.items) }
{
    let mut marks = Vec::new(alloc);
    for place in 0..count {
        let node = terms.node(Ref { index: place });
        let mark = mark_of(marks.as_slice(), inputs, node);
        marks.push(mark)?;
    }
    Ok(marks)
}

/// The mark of a node, out of those of the nodes before it.
fn mark_of(marks: &[bool], inputs: &[InputBits], node: Node) -> bool
    requires { IsNodeAt (length marks.now) node }
    ensures { (ts : List Term) → AreMarked ts inputs.now marks.now → result ≡ false → ReadsOnly (is_among inputs.now) false (term_of ts node) }
{
    match node {
        Node::Konst(_) => false,
        Node::Input { node, index, .. } => is_among(inputs, node, index),
        Node::Apply(_, x, y) => either(marks[x.index], marks[y.index]),
        Node::Ite(c, x, y) => either(marks[c.index], either(marks[x.index], marks[y.index])),
    }
}

/// Whether one of two marks is set.
fn either(one: bool, other: bool) -> bool
    ensures { result ≡ (one || other) }
{
    one || other
}

/// The mark of a literal's term. One beyond the marks has it.
fn is_marked(marks: &[bool], literal: Literal) -> bool
    ensures { result ≡ marked marks.now literal }
{
    match marks.get(literal.term.index) {
        Some(mark) => *mark,
        None => true,
    }
}

/// The literals whose terms have a mark.
fn with_mark(alloc: Global, literals: &[Literal], marks: &[bool]) -> Result<Cond, AllocError>
    ensures { IfOk result (λ c. c ≡ filter (marked marks.now) literals.now) }
{
    let mut found = Cond::new(alloc);
    for literal in literals {
        if is_marked(marks, *literal) {
            found.add(*literal)?;
        }
    }
    Ok(found)
}

/// The literals whose terms have no mark.
fn without_mark(alloc: Global, literals: &[Literal], marks: &[bool]) -> Result<Cond, AllocError>
    ensures { IfOk result (λ c. c ≡ filter (λ (l : Listed). not (marked marks.now l)) literals.now) }
{
    let mut found = Cond::new(alloc);
    for literal in literals {
        if !is_marked(marks, *literal) {
            found.add(*literal)?;
        }
    }
    Ok(found)
}

/// The words of a part for its inputs, and earlier ones for all others. Err is want of memory.
pub(crate) fn laid_over(
    earlier: &Valuation,
    part: &Valuation,
    inputs: &[InputBits],
) -> Result<Valuation, AllocError>
    ensures { IfOk result (λ v. IsLaidOver (is_among inputs.now) part.now earlier.now v) }
{
    let mut words = earlier.copy()?;
    for input in inputs {
        words.set(input.node, input.index, part.get(input.node, input.index))?;
    }
    Ok(words)
}
