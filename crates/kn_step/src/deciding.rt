//! What is known of the two sides of a decision.

ghost use Rattle.std.specs.Prelude.{◌≡◌, ◌<◌, ◌≤◌, ◌++◌, ◌∷◌, [], ℕ, List, IfOk, IfSome, IsTrue, IsFalse, OnOk, None, MatchOption, length};
ghost use Rattle.kn_term.specs.declared.node.Node.{Node as NodeOf};
ghost use Rattle.kn_cond.specs.Conditions.{that, StandsFor, IsImpossible};
ghost use Rattle.kn_cond.specs.Meanings.{literal_of};
ghost use Rattle.kn_model.specs.Terms.{terms};
ghost use Rattle.kn_cond.specs.Literals.{negated};
ghost use Rattle.kn_model.specs.Paths.{decided};
ghost use Rattle.kn_machine.specs.Ways.{way_of, known_of};
ghost use Rattle.kn_cond.specs.Literals.{word_holds};
ghost use Rattle.kn_step.specs.Sides.{AreSides, IsFurther, Implies};
ghost use Rattle.kn_step.specs.Turns.{IsSound};

use kn_cond::{Cond, Standing};
use kn_machine::Way;
use kn_solve::{Judge, ask_more};
use kn_term::{Literal, Node};
use std::alloc::AllocError;

/// What is known of the two sides of a decision by a literal.
#[derive(Drop)]
pub enum Sides {
    /// What is known so far says that the literal holds.
    First,
    /// What is known so far says that it does not.
    Second,
    /// Some inputs may meet either side, and so much is known of those that meet what is known so far where the literal
    /// holds, and where it does not.
    Both(Standing, Standing),
}

/// What is known of the two sides of a decision by a literal. Err is want of memory.
pub fn sides_of<J: Judge>(
    judge: &mut J,
    budget: u64,
    way: &Way,
    literal: Literal,
) -> Result<Sides, AllocError>
    requires stands { literal.term.index < length way.now.terms }
    requires budget { 1 ≤ budget }
    requires standing { StandsFor budget (that (known_of way.now)) way.now.standing }
    ensures { IfOk result (AreSides budget (known_of way.now) (literal_of way.now.terms literal)) }
{
    match known_side(way, literal) {
        Some(true) => return Ok(Sides::First),
        Some(false) => return Ok(Sides::Second),
        None => {}
    }
    let Some(first) = asked(judge, budget, way, literal)? else {
        return Ok(Sides::Second);
    };
    match asked(judge, budget, way, negated(literal))? {
        Some(second) => Ok(Sides::Both(first, second)),
        None => Ok(Sides::First),
    }
}

/// Whether a literal on a word holds, or one that stands, itself or its negation, among what is known so far.
fn known_side(way: &Way, literal: Literal) -> Option<bool>
    requires { literal.term.index < length way.now.terms }
    ensures holds { IfSome result (λ b. IsTrue b → Implies (known_of way.now) (literal_of way.now.terms literal)) }
    ensures fails { IfSome result (λ b. IsFalse b → Implies (known_of way.now) (negated (literal_of way.now.terms literal))) }
{
    if let Node::Konst(word) = way.terms.node(literal.term) {
        return Some(holds_on(word, literal.truth));
    }
    let known = way.cond.literals();
    if known.contains(&literal) {
        return Some(true);
    }
    if known.contains(&negated(literal)) {
        return Some(false);
    }
    None
}

/// Whether a literal on a word holds.
pub fn holds_on(word: u16, truth: bool) -> bool
    ensures { result ≡ word_holds (record { value = word; truth = truth }) }
{
    if word == 0 { !truth } else { truth }
}

/// The other answer.
pub fn negated(literal: Literal) -> Literal
    ensures truth { (ns : List NodeOf) → literal_of ns result ≡ negated (literal_of ns literal) }
    ensures term { result.term ≡ literal.term }
{
    Literal {
        term: literal.term,
        truth: !literal.truth,
    }
}

/// What is known of the inputs that meet what is known so far and a literal; None where no inputs do.
fn asked<J: Judge>(
    judge: &mut J,
    budget: u64,
    way: &Way,
    literal: Literal,
) -> Result<Option<Standing>, AllocError>
    requires stands { literal.term.index < length way.now.terms }
    requires budget { 1 ≤ budget }
    requires standing { StandsFor budget (that (known_of way.now)) way.now.standing }
    ensures { IfOk result (λ o. MatchOption o (IsImpossible (that (known_of way.now ++ literal_of way.now.terms literal ∷ []))) (StandsFor budget (that (known_of way.now ++ literal_of way.now.terms literal ∷ [])))) }
{
    let alloc = *way.sends.allocator();
    let mut more = Cond::new(alloc);
    more.add(literal)?;
    let judged = ask_more(
        alloc,
        judge,
        &way.terms,
        &way.cond,
        &way.standing,
        &more,
        budget,
    )?;
    Ok(judged.standing())
}

/// A way goes on under a literal, with a bit. What is known so far implies the literal, or becomes more with it, and then
/// so much is known of the inputs. Err is want of memory.
pub fn decide(
    way: &mut Way,
    bit: bool,
    literal: Literal,
    further: Option<Standing>,
) -> Result<(), AllocError>
    requires stands { literal.term.index < length way.old.terms }
    requires implied { further ≡ None → Implies (known_of way.old) (literal_of way.old.terms literal) }
    ensures way { OnOk result (way_of way.new ≡ decided terms bit (literal_of way.old.terms literal) (way_of way.old)) }
    ensures sound { (budget : ℕ) → IsFurther budget (known_of way.old) (literal_of way.old.terms literal) further → IsSound budget way.old → OnOk result (IsSound budget way.new) }
    ensures sends { OnOk result (way.new.sends ≡ way.old.sends) }
{
    match further {
        Some(standing) => decide_further(way, bit, literal, standing),
        None => decide_implied(way, bit, literal),
    }
}

/// A way goes on under a literal that is implied by what is known.
fn decide_implied(way: &mut Way, bit: bool, literal: Literal) -> Result<(), AllocError>
    requires stands { literal.term.index < length way.old.terms }
    requires implied { Implies (known_of way.old) (literal_of way.old.terms literal) }
    ensures way { OnOk result (way_of way.new ≡ decided terms bit (literal_of way.old.terms literal) (way_of way.old)) }
    ensures known { OnOk result (known_of way.new ≡ known_of way.old) }
    ensures standing { OnOk result (way.new.standing ≡ way.old.standing) }
    ensures sends { OnOk result (way.new.sends ≡ way.old.sends) }
{
    way.bits.push(bit)?;
    way.literals.add(literal)?;
    Ok(())
}

/// A way goes on under a literal that says more, with what is known with it.
fn decide_further(
    way: &mut Way,
    bit: bool,
    literal: Literal,
    standing: Standing,
) -> Result<(), AllocError>
    requires stands { literal.term.index < length way.old.terms }
    ensures way { OnOk result (way_of way.new ≡ decided terms bit (literal_of way.old.terms literal) (way_of way.old)) }
    ensures known { OnOk result (known_of way.new ≡ known_of way.old ++ literal_of way.old.terms literal ∷ []) }
    ensures standing { OnOk result (way.new.standing ≡ standing) }
    ensures sends { OnOk result (way.new.sends ≡ way.old.sends) }
{
    way.bits.push(bit)?;
    let mut literals = way.literals.copy()?;
    literals.add(literal)?;
    way.cond.add(literal)?;
    way.literals = literals;
    way.standing = standing;
    Ok(())
}
