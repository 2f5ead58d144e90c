//! Words of memory at an index that is a term.

ghost use Rattle.std.specs.Prelude.{◌≡◌, ◌+◌, ◌<◌, ◌≤◌, ◌++◌, IfOk, OnOk, length, take, drop};
ghost use Rattle.kn_word.specs.declared.Op.TheVariants as ops;
ghost use Rattle.kn_term.specs.Terms.{Word, Apply};
ghost use Rattle.kn_term.specs.Nodes.{term_at};
ghost use Rattle.kn_code.specs.Code.{IsMemorySpan};
ghost use Rattle.kn_model.specs.Terms.{terms};
ghost use Rattle.kn_model.specs.Rows.{element, with_element, with_memory, register, span};
ghost use Rattle.kn_model.specs.Alikes.{TermAlike};
ghost use Rattle.kn_machine.specs.Ways.{way_of, IsGrown, IsChanged, AlikeWay};

use crate::way::Way;
use kn_term::Ref;
use kn_word::Op;
use std::alloc::AllocError;

/// The word at the index in a register, of so many words from one on; 0 where the index is not below their number.
pub fn load(way: &mut Way, b: u8, m: u16, n: u16) -> Result<Ref, AllocError>
    requires b { b < 16 }
    requires span { IsMemorySpan m n }
    ensures term { IfOk result (λ r. TermAlike (term_at way.new.terms r.index) (element terms (register terms (way_of way.old) b) 0 (span terms (way_of way.old).state.memory m n))) }
    ensures stands { IfOk result (λ r. r.index < length way.new.terms) }
    ensures grown { IfOk result (λ r. IsGrown way.old way.new) }
{
    let index = way.register(b);
    element(way, index, m, 0, n)
}

/// The word at an index, of the words of memory from one on whose places are from a number to below another.
fn element(way: &mut Way, index: Ref, m: u16, place: u16, n: u16) -> Result<Ref, AllocError>
    requires index { index.index < length way.old.terms }
    requires span { IsMemorySpan m n }
    requires place { place ≤ n }
    ensures term { IfOk result (λ r. TermAlike (term_at way.new.terms r.index) (element terms (term_at way.old.terms index.index) place (drop place (span terms (way_of way.old).state.memory m n)))) }
    ensures stands { IfOk result (λ r. r.index < length way.new.terms) }
    ensures grown { IfOk result (λ r. IsGrown way.old way.new) }
{
    way.machine.sizes();
    if place == n {
        return way.konst(0);
    }
    let others = element(way, index, m, place + 1, n)?;
    let same = is_at(way, index, place)?;
    let word = way.word(m as usize + place as usize);
    way.choose(same, word, others)
}

/// 1 where an index is a place, else 0.
fn is_at(way: &mut Way, index: Ref, place: u16) -> Result<Ref, AllocError>
    requires { index.index < length way.old.terms }
    ensures term { IfOk result (λ r. TermAlike (term_at way.new.terms r.index) (Apply ops.Eq (term_at way.old.terms index.index) (Word place))) }
    ensures stands { IfOk result (λ r. r.index < length way.new.terms) }
    ensures grown { IfOk result (λ r. IsGrown way.old way.new) }
{
    let place = way.konst(place)?;
    way.apply(Op::Eq, index, place)
}

/// Writes a register to the word at the index in a register, of so many words from one on.
pub fn store(way: &mut Way, a: u8, b: u8, m: u16, n: u16) -> Result<(), AllocError>
    requires a { a < 16 }
    requires b { b < 16 }
    requires span { IsMemorySpan m n }
    ensures way { OnOk result (AlikeWay (way_of way.new) (with_memory terms (way_of way.old) (take m (way_of way.old).state.memory ++ with_element terms (register terms (way_of way.old) b) (register terms (way_of way.old) a) 0 (span terms (way_of way.old).state.memory m n) ++ drop (m + n) (way_of way.old).state.memory))) }
    ensures changed { OnOk result (IsChanged way.old way.new) }
{
    let index = way.register(b);
    let value = way.register(a);
    put(way, index, value, m, 0, n)
}

/// Writes a term to the word at an index, of the words of memory from one on whose places are from a number to below
/// another.
fn put(way: &mut Way, index: Ref, value: Ref, m: u16, place: u16, n: u16) -> Result<(), AllocError>
    requires index { index.index < length way.old.terms }
    requires value { value.index < length way.old.terms }
    requires span { IsMemorySpan m n }
    requires place { place ≤ n }
    ensures way { OnOk result (AlikeWay (way_of way.new) (with_memory terms (way_of way.old) (take (m + place) (way_of way.old).state.memory ++ with_element terms (term_at way.old.terms index.index) (term_at way.old.terms value.index) place (drop place (span terms (way_of way.old).state.memory m n)) ++ drop (m + n) (way_of way.old).state.memory))) }
    ensures changed { OnOk result (IsChanged way.old way.new) }
{
    way.machine.sizes();
    if place == n {
        return Ok(());
    }
    let same = is_at(way, index, place)?;
    let word = way.word(m as usize + place as usize);
    let chosen = way.choose(same, value, word)?;
    way.set_word(m as usize + place as usize, chosen);
    put(way, index, value, m, place + 1, n)
}
