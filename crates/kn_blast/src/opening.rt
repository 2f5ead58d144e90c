//! The widths with which roots read inputs, and the inputs of a circuit for them.

ghost use Rattle.std.specs.Prelude.{◌≡◌, ℕ, ◌+◌, ◌<◌, ◌≤◌, ◌-◌, ◌⊎◌, length, IfOk, OnOk};
ghost use Rattle.kn_aig.specs.Circuits.{Extends};
ghost use Rattle.kn_term.specs.Terms.{listed};
ghost use Rattle.kn_term.specs.Valuations.{AreEntries};
ghost use Rattle.kn_term.specs.Reached.{AreInOrder};
ghost use Rattle.kn_aig.specs.Circuits.{inputs_of};
ghost use Rattle.kn_blast.specs.Inputs.{bits_of, IsOpenIn, HasOnlyInputs, laid_out};
ghost use Rattle.kn_blast.specs.Reached.{IsWidened, AreWide, AreRead};

use crate::inputs::InputBits;
use kn_aig::Aig;
use kn_term::{Node, Ref, Terms, Valuation};
use std::alloc::{AllocError, Global};

/// The greatest width of each input at these places, as its word.
pub(crate) fn widths_read(
    alloc: Global,
    terms: &Terms,
    places: &[usize],
) -> Result<Valuation, AllocError>
    requires { AreInOrder terms.now places.now }
    ensures wide { IfOk result (λ a. AreWide terms.now places.now a) }
    ensures read { IfOk result (λ a. AreRead terms.now places.now a) }
    ensures entries { IfOk result (λ a. AreEntries a) }
{
    let mut widths = Valuation::new(alloc);
    for place in places {
        widen_at(&mut widths, terms, *place)?;
    }
    widths.order();
    Ok(widths)
}

/// Takes in the width of the input at a place, if one is there.
fn widen_at(widths: &mut Valuation, terms: &Terms, place: usize) -> Result<(), AllocError>
    requires { place < length terms.now }
    ensures { OnOk result (IsWidened terms.now place widths.old widths.new) }
{
    match terms.node(Ref { index: place }) {
        Node::Input { node, index, width } => widen(widths, node, index, width),
        _ => Ok(()),
    }
}

/// Takes in a width of an input.
fn widen(widths: &mut Valuation, node: u32, index: u32, width: u32) -> Result<(), AllocError>
    requires { width ≤ 16 }
    ensures own { OnOk result (width ≤ listed widths.new node index) }
    ensures kept { OnOk result ((n k : ℕ) → listed widths.old n k ≤ listed widths.new n k) }
    ensures read { OnOk result ((n k : ℕ) → (listed widths.new n k ≡ listed widths.old n k) ⊎ ((n ≡ node) × (k ≡ index) × (listed widths.new n k ≡ width))) }
{
    if u32::from(widths.get(node, index)) < width {
        widths.set(node, index, width as u16)
    } else {
        Ok(())
    }
}

/// Makes inputs with these words as widths.
pub(crate) fn laid_out(
    alloc: Global,
    widths: &Valuation,
    aig: &mut Aig,
) -> Result<Vec<InputBits>, AllocError>
    requires none { inputs_of aig.old ≡ 0 }
    ensures entries { IfOk result (λ v. v.items ≡ laid_out 0 widths.now) }
    ensures inputs { IfOk result (λ v. inputs_of aig.new ≡ bits_of v.items) }
    ensures open { IfOk result (λ v. IsOpenIn v.items aig.new) }
    ensures grows { Extends aig.old aig.new }
{
    let _ = aig.size();
    widths.order();
    let mut entries = Vec::new(alloc);
    let mut place = 0;
    while let Some((node, index, width)) = widths.at(place) {
        let entry = bits_for(aig, node, index, width)?;
        entries.push(entry)?;
        place += 1;
    }
    Ok(entries)
}

/// Makes the bits of an input.
fn bits_for(aig: &mut Aig, node: u32, index: u32, width: u16) -> Result<InputBits, AllocError>
    requires only { HasOnlyInputs aig.old }
    requires width { 0 < width }
    ensures entry { IfOk result (λ e. e ≡ record { node = node; index = index; width = width; lowest = inputs_of aig.old + width - 1 }) }
    ensures inputs { OnOk result (inputs_of aig.new ≡ inputs_of aig.old + width) }
    ensures only { HasOnlyInputs aig.new }
    ensures grows { Extends aig.old aig.new }
{
    for _bit in 0..width {
        let _edge = aig.input()?;
    }
    Ok(InputBits {
        node,
        index,
        width: u32::from(width),
        lowest: aig.inputs() - 1,
    })
}
