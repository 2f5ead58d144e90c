//! Which inputs of a network the inputs of a circuit are.

ghost use Rattle.std.specs.Prelude.{◌≡◌, ℕ, ◌+◌, ◌<◌, ◌≤◌, ◌^◌, ◌&&◌, nat_eq, Bool, List, length, IfOk, MatchOption};
ghost use Rattle.kn_aig.specs.Circuits.{Extends};
ghost use Rattle.kn_term.specs.Nodes.{term_at};
ghost use Rattle.kn_term.specs.declared.node.Ref.{Ref as RefOf};
ghost use Rattle.std.specs.Prelude.{slice_get, Some};
ghost use Rattle.kn_term.specs.Terms.{listed};
ghost use Rattle.kn_aig.specs.Circuits.{inputs_of};
ghost use Rattle.kn_blast.specs.Spelling.{weight};
ghost use Rattle.kn_blast.specs.Inputs.{width_of, bits_of, word_before, given_by, IsGivenBy, AreInputBits, Covers, IsOpenIn};
ghost use Rattle.kn_term.specs.Reached.{RootsStand};
ghost use Rattle.kn_blast.specs.Reached.{RootsRead};

use crate::opening::{laid_out, widths_read};
use kn_aig::Aig;
use kn_term::{Ref, Terms, Valuation, reached};
use std::alloc::{AllocError, Global};
use std::marker::Model;

/// The input of a network's node by its index there, with so many bits, and which inputs of a circuit these are: the
/// lowest bit is the one with the number `lowest`, counted from 0, and higher ones stand before it.
#[derive(Clone, Copy, Debug, PartialEq, Eq)]
pub struct InputBits {
    pub node: u32,
    pub index: u32,
    pub width: u32,
    pub lowest: usize,
}

impl InputBits {
    /// Whether it is of an input.
    fn is_of(&self, node: u32, index: u32) -> bool
        ensures { result ≡ (nat_eq self.now.node node && nat_eq self.now.index index) }
    {
        self.node == node && self.index == index
    }
}

/// Which inputs of a network the inputs of a circuit are, bit by bit: in order of node and index, the highest bit of
/// each input first. Contracts see the list of the inputs with their widths.
#[derive(Debug, Drop)]
pub struct InputMap {
    entries: Vec<InputBits>,
}

impl Model for InputMap {
    ghost use Rattle.std.specs.Prelude.{List};
    ghost use Rattle.kn_blast.specs.declared.inputs.InputBits.{InputBits};
    ghost use Rattle.kn_blast.specs.Spelling.{weight};
    ghost use Rattle.kn_blast.specs.Inputs.{AreInputBits};

    ghost Value = { List InputBits };

    ghost view = { λ m. m.entries.items };

    ghost invariant = { λ m. AreInputBits 0 m.entries.items };
}

impl InputMap {
    /// Makes the inputs of a circuit that has none: a bit for each bit of each input that the roots read, as wide as the
    /// widest read of it. Earlier edges keep their values. Err is want of memory; then the circuit may have some of the
    /// inputs.
    pub fn open(
        alloc: Global,
        terms: &Terms,
        roots: &[Ref],
        aig: &mut Aig,
    ) -> Result<InputMap, AllocError>
        requires roots { RootsStand (length terms.now) roots.now }
        requires none { inputs_of aig.old ≡ 0 }
        ensures order { IfOk result (λ m. AreInputBits 0 m) }
        ensures covers { IfOk result (λ m. (place : ℕ) (r : RefOf) → slice_get roots.now place ≡ Some r → Covers m (term_at terms.now r.index)) }
        ensures read { IfOk result (λ m. (n k : ℕ) → 0 < width_of m n k → RootsRead terms.now roots.now n k (width_of m n k)) }
        ensures inputs { IfOk result (λ m. inputs_of aig.new ≡ bits_of m) }
        ensures open { IfOk result (λ m. IsOpenIn m aig.new) }
        ensures grows { Extends aig.old aig.new }
    {
        terms.order();
        let places = reached(alloc, terms, roots)?;
        let widths = widths_read(alloc, terms, &places)?;
        let entries = laid_out(alloc, &widths, aig)?;
        Ok(InputMap { entries })
    }

    /// What the inputs of the network are where those of the circuit are these bits, in order: each input of the map is
    /// the word that its bits spell, the highest first, and all others are 0. Err is want of memory.
    pub fn valuation(&self, bits: &[bool]) -> Result<Valuation, AllocError>
        requires { length bits.now ≡ bits_of self.now }
        ensures { IfOk result (λ a. IsGivenBy bits.now self.now a) }
    {
        words_given(*self.entries.allocator(), &self.entries, bits)
    }

    /// The inputs of the network of which the circuit has bits, in order of node and index.
    pub fn inputs(&self) -> &[InputBits]
        ensures list { result.now ≡ self.now }
        ensures order { AreInputBits 0 self.now }
    {
        self.entries.as_slice()
    }

    /// The bits of an input, if it has some.
    pub(crate) fn find(&self, node: u32, index: u32) -> Option<InputBits>
        ensures { MatchOption result (width_of self.now node index ≡ 0) (λ e. (e.width ≡ width_of self.now node index) × (e.width ≤ 16) × (e.width ≤ e.lowest + 1) × (e.lowest < bits_of self.now) × ((bits : List Bool) → listed (given_by bits self.now) node index ≡ word_before bits e.lowest e.width)) }
    {
        entry_of(&self.entries, node, index)
    }
}

/// The entry of an input, if it has one.
fn entry_of(entries: &[InputBits], node: u32, index: u32) -> Option<InputBits>
    requires { AreInputBits 0 entries.now }
    ensures { MatchOption result (width_of entries.now node index ≡ 0) (λ e. (e.width ≡ width_of entries.now node index) × (e.width ≤ 16) × (e.width ≤ e.lowest + 1) × (e.lowest < bits_of entries.now) × ((bits : List Bool) → listed (given_by bits entries.now) node index ≡ word_before bits e.lowest e.width)) }
{
    for entry in entries {
        if entry.is_of(node, index) {
            return Some(*entry);
        }
    }
    None
}

/// The words of all inputs.
fn words_given(alloc: Global, entries: &[InputBits], bits: &[bool]) -> Result<Valuation, AllocError>
    requires entries { AreInputBits 0 entries.now }
    requires bits { length bits.now ≡ bits_of entries.now }
    ensures { IfOk result (λ a. IsGivenBy bits.now entries.now a) }
{
    let mut given = Valuation::new(alloc);
    let mut place = entries.len();
    while place > 0 {
        place -= 1;
        let entry = entries[place];
        let word = word_before(bits, entry.lowest, entry.width);
        given.set(entry.node, entry.index, word)?;
    }
    Ok(given)
}

/// The word of so many bits, of which the lowest is the one at a place, and higher ones stand before it.
fn word_before(bits: &[bool], lowest: usize, width: u32) -> u16
    requires lowest { lowest < length bits.now }
    requires room { width ≤ lowest + 1 }
    requires width { width ≤ 16 }
    ensures { result ≡ word_before bits.now lowest width }
{
    let mut word = 0;
    for place in 0..width {
        word = with_bit(word, place, bits[lowest - place as usize]);
    }
    word
}

/// A word of so many bits with one more bit in front.
fn with_bit(word: u16, place: u32, bit: bool) -> u16
    requires place { place < 16 }
    requires word { word < 2 ^ place }
    ensures { result ≡ word + weight bit place }
{
    if bit { word + (1 << place) } else { word }
}
