//! Tables of labels: the index of the instruction behind each label.

ghost use Rattle.std.specs.Prelude.{◌≡◌, ◌+◌, ◌<◌, ◌≤◌, ◌^◌, ℕ, List, length, IfOk, IfSome, OnOk};
ghost use Rattle.indexmap.specs.IndexMap.{get_by_text};
ghost use Rattle.kn_asm.specs.Lines.{counted_lem, target_of_lem};
ghost use Rattle.kn_asm.specs.Assembling.{place_from, is_twice, is_lost};
ghost use Rattle.kn_asm.specs.Tables.{first_place, place_at, label_at};

use crate::line::{Line, counted};
use indexmap::IndexMap;
use std::alloc::{AllocError, Global};

/// Notes a label's place, unless the label has one.
fn note(
    alloc: Global,
    labels: &mut IndexMap<String, usize>,
    name: &str,
    index: usize,
) -> Result<(), AllocError>
    ensures { OnOk result ((q : List ℕ) → get_by_text labels.new q ≡ first_place (get_by_text labels.old q) (place_at q name.now index)) }
{
    if labels.get(name).is_some() {
        return Ok(());
    }
    let key = String::from_str(alloc, name)?;
    if labels.insert(key, index).is_err() {
        return Err(AllocError);
    }
    Ok(())
}

/// Notes the label of a line, if any, before which there are so many instructions.
pub fn note_line(
    alloc: Global,
    labels: &mut IndexMap<String, usize>,
    line: &Line,
    index: usize,
) -> Result<(), AllocError>
    ensures { OnOk result ((q : List ℕ) → get_by_text labels.new q ≡ first_place (get_by_text labels.old q) (label_at q line.now.label index)) }
{
    let Some(name) = line.label() else {
        return Ok(());
    };
    match note(alloc, labels, name, index) {
        Ok(()) => Ok(()),
        Err(e) => Err(e),
    }
}

/// The labels of some lines. Only want of memory is an error.
pub fn collect(alloc: Global, lines: &[Line]) -> Result<IndexMap<String, usize>, AllocError>
    ensures { IfOk result (λ m. (q : List ℕ) → get_by_text m q ≡ place_from q 0 lines.now) }
{
    let mut labels = IndexMap::new(alloc);
    let mut index = 0;
    for line in lines {
        note_line(alloc, &mut labels, line, index)?;
        index += counted(line);
    }
    Ok(labels)
}

/// Whether a line's label is in a table.
pub fn is_twice(labels: &IndexMap<String, usize>, line: &Line) -> bool
    ensures { result ≡ is_twice (λ q. get_by_text labels.now q) line.now.label }
{
    match line.label() {
        None => false,
        Some(name) => labels.get(name).is_some(),
    }
}

/// Whether a line's target is not in a table.
pub fn is_lost(labels: &IndexMap<String, usize>, line: &Line) -> bool
    ensures { result ≡ is_lost (λ q. get_by_text labels.now q) (target_of_lem line.now.content) }
{
    match line.target() {
        None => false,
        Some(name) => labels.get(name).is_none(),
    }
}

/// The place of a label, where it has one.
pub fn place(labels: &IndexMap<String, usize>, name: &str) -> Option<u16>
    requires { IfSome (get_by_text labels.now name.now) (λ p. p < 2 ^ 16) }
    ensures { result ≡ get_by_text labels.now name.now }
{
    match labels.get(name).copied() {
        None => None,
        Some(index) => Some(index as u16),
    }
}
