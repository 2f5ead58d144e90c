//! The circuit of a term, node by node.

ghost use Rattle.std.specs.Prelude.{◌≡◌, ℕ, ◌+◌, ◌-◌, ◌<◌, ◌≤◌, ◌&&◌, Bool, false, nat_eq, nat_lt, List, length, IfOk, Some, slice_get, slice_index_or};
ghost use Rattle.kn_term.specs.declared.node.Node.{Node as NodeOf};
ghost use Rattle.kn_term.specs.Terms.{Valuation, ev};
ghost use Rattle.kn_term.specs.Terms.{input_word};
ghost use Rattle.kn_term.specs.Nodes.{term_at, term_of, terms_of};
ghost use Rattle.kn_aig.specs.Circuits.{Stands};
ghost use Rattle.kn_blast.specs.Spelling.{number, AllStand, Grows, Has, Spells};
ghost use Rattle.kn_blast.specs.Inputs.{given_by, width_of, word_before, IsGivenBy, Covers, IsOpenIn, BeginsWithInputs};
ghost use Rattle.kn_term.specs.Reached.{RootsStand, IsAmong, AreInOrder};
ghost use Rattle.kn_term.specs.declared.node.Ref.{Ref as RefOf};
ghost use Rattle.kn_aig.specs.declared.gates.Edge.{Edge as EdgeOf};
ghost use Rattle.std.specs.HashMap.{get};
ghost use Rattle.kn_blast.specs.Tables.{IsWordOf, AreWords, HasOperandWords, AreWordsOf, AreReadAt};

use crate::inputs::InputMap;
use crate::nodes::{chosen, word_edges};
use crate::operators::operate;
use crate::words::constant;
use kn_aig::{Aig, Edge};
use kn_term::{Node, Ref, Terms, reached, words_by_inputs};
use std::alloc::{AllocError, Global};
use std::collections::HashMap;

/// Sixteen edges, the lowest bit first.
pub type Word = [Edge; 16];

/// The circuit of a term: whatever the inputs of the circuit are, the edges spell the word that the term has where the
/// inputs of the network are what these bits spell. The map was opened on this circuit, or on one that it grew from, and
/// has each input that the term reads, at least as wide. No input comes to the circuit, and earlier edges keep their
/// values. A node that the term has in it several times has one word of edges. Err is want of memory.
pub fn blast(
    alloc: Global,
    terms: &Terms,
    r: Ref,
    aig: &mut Aig,
    inputs: &InputMap,
) -> Result<Word, AllocError>
    requires stands { r.index < length terms.now }
    requires open { IsOpenIn inputs.now aig.old }
    requires covers { Covers inputs.now (term_at terms.now r.index) }
    ensures stand { IfOk result (λ word. AllStand aig.new word) }
    ensures value { IfOk result (λ word. (bits : List Bool) (a : Valuation) → IsGivenBy bits inputs.now a → number bits aig.new word ≡ ev a (term_at terms.now r.index)) }
    ensures grows { Grows aig.old aig.new }
{
    let words = blast_all(alloc, terms, &[r], aig, inputs)?;
    Ok(words[0])
}

/// The circuits of terms, one for each root in their order, each as `blast` makes it; a node that several terms have in
/// them has one word of edges. Err is want of memory.
pub fn blast_all(
    alloc: Global,
    terms: &Terms,
    roots: &[Ref],
    aig: &mut Aig,
    inputs: &InputMap,
) -> Result<Vec<Word>, AllocError>
    requires stand { RootsStand (length terms.now) roots.now }
    requires open { IsOpenIn inputs.now aig.old }
    requires covers { (place : ℕ) (r : RefOf) → slice_get roots.now place ≡ Some r → Covers inputs.now (term_at terms.now r.index) }
    ensures many { IfOk result (λ words. length words.items ≡ length roots.now) }
    ensures stand { IfOk result (λ words. (place : ℕ) (word : List EdgeOf) → slice_get words.items place ≡ Some word → AllStand aig.new word) }
    ensures value { IfOk result (λ words. (place : ℕ) (r : RefOf) (word : List EdgeOf) → slice_get roots.now place ≡ Some r → slice_get words.items place ≡ Some word → (bits : List Bool) (a : Valuation) → IsGivenBy bits inputs.now a → number bits aig.new word ≡ ev a (term_at terms.now r.index)) }
    ensures grows { Grows aig.old aig.new }
{
    // 'order' is called for its clause that operands stand before their node, which the proof cites.
    terms.order();
    words_by_inputs();
    let needed = reached(alloc, terms, roots)?;
    let table = words_of(alloc, terms, aig, inputs, &needed)?;
    words_at(alloc, aig, &table, roots)
}

/// The words that a table has for roots.
fn words_at(
    alloc: Global,
    aig: &Aig,
    table: &HashMap<usize, Word>,
    roots: &[Ref],
) -> Result<Vec<Word>, AllocError>
    requires { AreWords aig.now (get nat_eq table.now) }
    ensures many { IfOk result (λ words. length words.items ≡ length roots.now) }
    ensures stand { IfOk result (λ words. (place : ℕ) (word : List EdgeOf) → slice_get words.items place ≡ Some word → AllStand aig.now word) }
    ensures read { IfOk result (λ words. AreReadAt (get nat_eq table.now) roots.now words.items) }
{
    let mut words = Vec::new(alloc);
    for root in roots {
        let word = word_at(aig, table, *root);
        words.push(word)?;
    }
    Ok(words)
}

/// For each place that is needed the word of its term.
fn words_of(
    alloc: Global,
    terms: &Terms,
    aig: &mut Aig,
    inputs: &InputMap,
    needed: &[usize],
) -> Result<HashMap<usize, Word>, AllocError>
    requires order { AreInOrder terms.now needed.now }
    requires open { IsOpenIn inputs.now aig.old }
    requires covers { (place : ℕ) → IsAmong needed.now place → Covers inputs.now (term_at terms.now place) }
    ensures words { IfOk result (λ t. AreWords aig.new (get nat_eq t)) }
    ensures values { IfOk result (λ t. AreWordsOf aig.new inputs.now terms.now (get nat_eq t) needed.now) }
    ensures grows { Grows aig.old aig.new }
{
    let mut table = HashMap::new(alloc);
    for place in needed {
        let word = word_for(alloc, terms, aig, inputs, &table, *place)?;
        table.insert(*place, word)?;
    }
    Ok(table)
}

/// The word of the term at a place, out of those of its operands.
fn word_for(
    alloc: Global,
    terms: &Terms,
    aig: &mut Aig,
    inputs: &InputMap,
    table: &HashMap<usize, Word>,
    place: usize,
) -> Result<Word, AllocError>
    requires place { place < length terms.now }
    requires words { AreWords aig.old (get nat_eq table.now) }
    requires operands { (n : NodeOf) → slice_get terms.now place ≡ Some n → HasOperandWords aig.old inputs.now terms.now (get nat_eq table.now) n }
    requires open { IsOpenIn inputs.now aig.old }
    requires covers { Covers inputs.now (term_at terms.now place) }
    ensures stand { IfOk result (λ word. AllStand aig.new word) }
    ensures many { IfOk result (λ word. length word ≡ 16) }
    ensures value { IfOk result (λ word. IsWordOf aig.new inputs.now (term_at terms.now place) word) }
    ensures grows { Grows aig.old aig.new }
{
    let node = terms.node(Ref { index: place });
    let edges = word_of(alloc, aig, inputs, table, node)?;
    let mut word = [constant(aig, false); 16];
    word.copy_from_slice(&edges);
    Ok(word)
}

/// The word of a node, out of those of its operands.
fn word_of(
    alloc: Global,
    aig: &mut Aig,
    inputs: &InputMap,
    table: &HashMap<usize, Word>,
    node: Node,
) -> Result<Vec<Edge>, AllocError>
    requires words { AreWords aig.old (get nat_eq table.now) }
    requires open { IsOpenIn inputs.now aig.old }
    ensures stand { IfOk result (λ v. AllStand aig.new v.items) }
    ensures many { IfOk result (λ v. length v.items ≡ 16) }
    ensures value { IfOk result (λ v. (ns : List NodeOf) → HasOperandWords aig.old inputs.now ns (get nat_eq table.now) node → Covers inputs.now (term_of (terms_of ns) node) → IsWordOf aig.new inputs.now (term_of (terms_of ns) node) v.items) }
    ensures grows { Grows aig.old aig.new }
{
    match node {
        Node::Konst(word) => word_edges(alloc, aig, word),
        Node::Input { node, index, width } => input_edges(alloc, aig, inputs, node, index, width),
        Node::Apply(op, x, y) => {
            let (xs, ys) = (word_at(aig, table, x), word_at(aig, table, y));
            operate(alloc, aig, op, &xs, &ys)
        }
        Node::Ite(c, x, y) => {
            let condition = word_at(aig, table, c);
            let (xs, ys) = (word_at(aig, table, x), word_at(aig, table, y));
            chosen(alloc, aig, &condition, &xs, &ys)
        }
    }
}

/// The word that a table has for a term; 0 where it has none.
fn word_at(aig: &Aig, table: &HashMap<usize, Word>, r: Ref) -> Word
    requires { AreWords aig.now (get nat_eq table.now) }
    ensures stand { AllStand aig.now result }
    ensures many { length result ≡ 16 }
    ensures value { (es : List EdgeOf) → get nat_eq table.now r.index ≡ Some es → result ≡ es }
{
    match table.get(&r.index) {
        Some(word) => *word,
        None => [constant(aig, false); 16],
    }
}

/// The word of an input.
fn input_edges(
    alloc: Global,
    aig: &Aig,
    inputs: &InputMap,
    node: u32,
    index: u32,
    width: u32,
) -> Result<Vec<Edge>, AllocError>
    requires { IsOpenIn inputs.now aig.now }
    ensures stand { IfOk result (λ v. AllStand aig.now v.items) }
    ensures many { IfOk result (λ v. length v.items ≡ 16) }
    ensures value { IfOk result (λ v. width ≤ width_of inputs.now node index → Spells aig.now v.items 16 (λ bits. input_word (given_by bits inputs.now) node index width)) }
{
    match inputs.find(node, index) {
        Some(bits) if width <= bits.width => edges_before(alloc, aig, bits.lowest, width),
        _ => word_edges(alloc, aig, 0),
    }
}

/// The word of so many inputs of a circuit, of which the lowest is the one with this number, and higher ones stand before
/// it.
fn edges_before(
    alloc: Global,
    aig: &Aig,
    lowest: usize,
    width: u32,
) -> Result<Vec<Edge>, AllocError>
    requires width { width ≤ 16 }
    requires room { width ≤ lowest + 1 }
    requires inputs { BeginsWithInputs aig.now (lowest + 1) }
    ensures { IfOk result (λ v. Spells aig.now v.items 16 (λ bits. word_before bits lowest width)) }
{
    let mut edges = Vec::new(alloc);
    for place in 0..16_u32 {
        let edge = edge_before(aig, lowest, width, place);
        edges.push(edge)?;
    }
    Ok(edges)
}

/// The edge of the bit at a place of so many inputs of a circuit; behind them there are 0.
fn edge_before(aig: &Aig, lowest: usize, width: u32, place: u32) -> Edge
    requires room { width ≤ lowest + 1 }
    requires inputs { BeginsWithInputs aig.now (lowest + 1) }
    ensures { Has aig.now result (λ bits. nat_lt place width && slice_index_or bits (lowest - place) false) }
{
    let _size = aig.size();
    if place < width {
        Edge {
            node: 1 + (lowest - place as usize),
            inverted: false,
        }
    } else {
        constant(aig, false)
    }
}
