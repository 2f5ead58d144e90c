//! Inputs that come early in the order of least inputs.

ghost use Rattle.std.specs.Prelude.{◌≡◌, ◌<◌, ◌≤◌, ◌/◌, ◌%◌, ◌^◌, ℕ, length, map, IfOk, IfSome};
ghost use Rattle.kn_term.specs.Nodes.{term_at};
ghost use Rattle.kn_term.specs.Terms.{listed};
ghost use Rattle.kn_cond.specs.Conditions.{Query, IsLeast};
ghost use Rattle.kn_blast.specs.Inputs.{AreInputBits, bits_of};
ghost use Rattle.kn_solve.specs.Asking.{IsOfTerm, read_of};
ghost use Rattle.kn_solve.specs.Orders.{word_at, words_for};

use kn_aig::Aig;
use kn_blast::{InputBits, InputMap};
use kn_term::{Ref, Terms, Valuation, one_list};
use std::alloc::{AllocError, Global};

/// How many inputs are tried. It serves speed alone: to try one takes a look at each term, and a search first makes some
/// hundred gates of it.
const TRIES: u64 = 64;

/// The least inputs under which a term is not 0, if they come early. Err is want of memory.
pub(crate) fn early(
    alloc: Global,
    terms: &Terms,
    root: Ref,
) -> Result<Option<Valuation>, AllocError>
    requires { root.index < length terms.now }
    ensures { IfOk result (λ o. (q : Query) → IsOfTerm q (term_at terms.now root.index) → IfSome o (IsLeast q)) }
{
    terms.order();
    one_list();
    let mut aig = Aig::new(alloc);
    let inputs = InputMap::open(alloc, terms, &[root], &mut aig)?;
    first_of(alloc, terms, root, inputs.inputs())
}

/// The least of these inputs under which a term that reads them is not 0, if they come early.
fn first_of(
    alloc: Global,
    terms: &Terms,
    root: Ref,
    inputs: &[InputBits],
) -> Result<Option<Valuation>, AllocError>
    requires root { root.index < length terms.now }
    requires order { AreInputBits 0 inputs.now }
    ensures { IfOk result (λ o. (q : Query) → IsOfTerm q (term_at terms.now root.index) → q.reads ≡ map read_of inputs.now → IfSome o (IsLeast q)) }
{
    one_list();
    for number in 0..TRIES {
        let (words, left) = spelled(alloc, inputs, number)?;
        if left > 0 {
            return Ok(None);
        }
        if terms.value(&words, root)? != 0 {
            words.order();
            return Ok(Some(words));
        }
    }
    Ok(None)
}

/// The words that come at a place in the order of least inputs, and 0 where there is such a place.
fn spelled(alloc: Global, inputs: &[InputBits], number: u64) -> Result<(Valuation, u64), AllocError>
    requires { AreInputBits 0 inputs.now }
    ensures left { IfOk result (λ p. p.1 ≡ number / 2 ^ bits_of inputs.now) }
    ensures words { IfOk result (λ p. (n k : ℕ) → listed p.0 n k ≡ word_at (map read_of inputs.now) (words_for (map read_of inputs.now) number) n k) }
{
    let mut words = Valuation::new(alloc);
    let mut left = number;
    let mut place = inputs.len();
    while place > 0 {
        place -= 1;
        let input = inputs[place];
        let (word, rest) = digit(left, input.width);
        words.set(input.node, input.index, word)?;
        left = rest;
    }
    Ok((words, left))
}

/// The lowest bits of a number, 1 to 16 of them, and what is left.
fn digit(number: u64, width: u32) -> (u16, u64)
    requires { width ≤ 16 }
    ensures word { result.0 ≡ number % 2 ^ width }
    ensures rest { result.1 ≡ number / 2 ^ width }
{
    let size = 1u64 << width;
    ((number % size) as u16, number / size)
}
