//! What is known of inputs that meet further literals.

ghost use Rattle.std.specs.Prelude.{◌≤◌, ◌++◌, ℕ, true, false, IfOk, IfSome};
ghost use Rattle.kn_cond.specs.Conditions.{Condition, Query, StandsFor, IsLeast, that};
ghost use Rattle.kn_cond.specs.Meanings.{condition_of, StandIn};
ghost use Rattle.kn_solve.specs.Verdicts.{IsJudged};
ghost use Rattle.kn_solve.specs.Parts.{IsSplit, AllRead, is_among};

use crate::dividing::{divide, laid_over};
use crate::formula::Formula;
use crate::judge::{Judge, Judged};
use crate::laws::{least_stays, part_far, part_never, parts_join, without_columns};
use kn_blast::InputBits;
use kn_cond::{Cond, Standing};
use kn_term::{Terms, Valuation};
use std::alloc::{AllocError, Global};

/// What is known of the inputs that meet a condition and further literals, where what is known of the condition is at
/// hand. Where its least inputs meet these literals too, they are the least of all, and nothing is searched; nor is it
/// where the condition was not decided and no literal is added. Else one further literal is asked after another, and for
/// each only those that hang together with it by the inputs that they read, and all other inputs keep their words. Err is
/// want of memory.
pub fn ask_more<J: Judge>(
    alloc: Global,
    judge: &mut J,
    terms: &Terms,
    c: &Cond,
    known: &Standing,
    more: &Cond,
    budget: u64,
) -> Result<Judged, AllocError>
    requires condition { StandIn terms.now c.now }
    requires further { StandIn terms.now more.now }
    requires budget { 1 ≤ budget }
    requires known { StandsFor budget (that (condition_of terms.now c.now)) known.now }
    ensures { IfOk result (IsJudged budget (that (condition_of terms.now c.now ++ condition_of terms.now more.now))) }
{
    if let Some(told) = told_already(terms, known, more)? {
        return Ok(told);
    }
    ask_each(alloc, judge, terms, c, known, more, budget)
}

/// What is known of the inputs that meet a condition and further literals, asked one after another.
fn ask_each<J: Judge>(
    alloc: Global,
    judge: &mut J,
    terms: &Terms,
    c: &Cond,
    known: &Standing,
    more: &Cond,
    budget: u64,
) -> Result<Judged, AllocError>
    requires condition { StandIn terms.now c.now }
    requires further { StandIn terms.now more.now }
    requires budget { 1 ≤ budget }
    requires known { StandsFor budget (that (condition_of terms.now c.now)) known.now }
    ensures { IfOk result (IsJudged budget (that (condition_of terms.now c.now ++ condition_of terms.now more.now))) }
{
    let mut all = c.copy()?;
    let mut standing = known.copy()?;
    for literal in more.literals() {
        let mut one = Cond::new(alloc);
        one.add(*literal)?;
        let judged = ask_further(alloc, judge, terms, &all, &standing, &one, budget)?;
        let Some(next) = judged.standing() else {
            return Ok(Judged::Never);
        };
        standing = next;
        all.add(*literal)?;
    }
    Ok(judged_of(standing))
}

/// What is known, as an answer.
fn judged_of(standing: Standing) -> Judged
    ensures { (budget : ℕ) (q : Query) → StandsFor budget q standing → IsJudged budget q result }
{
    match standing {
        Standing::Inputs(inputs) => Judged::Met(inputs),
        Standing::Open { leaves } => Judged::Undecided { leaves },
    }
}

/// The same of literals that are asked together.
fn ask_further<J: Judge>(
    alloc: Global,
    judge: &mut J,
    terms: &Terms,
    c: &Cond,
    known: &Standing,
    more: &Cond,
    budget: u64,
) -> Result<Judged, AllocError>
    requires condition { StandIn terms.now c.now }
    requires further { StandIn terms.now more.now }
    requires budget { 1 ≤ budget }
    requires known { StandsFor budget (that (condition_of terms.now c.now)) known.now }
    ensures { IfOk result (IsJudged budget (that (condition_of terms.now c.now ++ condition_of terms.now more.now))) }
{
    if let Some(told) = told_already(terms, known, more)? {
        return Ok(told);
    }
    match known {
        Standing::Inputs(least) => ask_part(alloc, judge, terms, c, least, more, budget),
        Standing::Open { .. } => ask_both(alloc, judge, terms, c, more, budget),
    }
}

/// What is known of the inputs that meet two conditions.
fn ask_both<J: Judge>(
    alloc: Global,
    judge: &mut J,
    terms: &Terms,
    c: &Cond,
    more: &Cond,
    budget: u64,
) -> Result<Judged, AllocError>
    requires condition { StandIn terms.now c.now }
    requires further { StandIn terms.now more.now }
    requires budget { 1 ≤ budget }
    ensures { IfOk result (IsJudged budget (that (condition_of terms.now c.now ++ condition_of terms.now more.now))) }
{
    without_columns();
    let mut f = Formula::new(alloc);
    f.add(terms, c)?;
    f.add(terms, more)?;
    judge.ask(&f, budget)
}

/// What is known of the inputs that meet a condition, whose least inputs are at hand, and further literals.
fn ask_part<J: Judge>(
    alloc: Global,
    judge: &mut J,
    terms: &Terms,
    c: &Cond,
    least: &Valuation,
    more: &Cond,
    budget: u64,
) -> Result<Judged, AllocError>
    requires condition { StandIn terms.now c.now }
    requires further { StandIn terms.now more.now }
    requires budget { 1 ≤ budget }
    requires least { IsLeast (that (condition_of terms.now c.now)) least.now }
    ensures { IfOk result (IsJudged budget (that (condition_of terms.now c.now ++ condition_of terms.now more.now))) }
{
    let parts = divide(alloc, terms, c, more)?;
    let judged = ask_one(alloc, judge, terms, &parts.part, budget)?;
    of_all(judged, least, parts.inputs.inputs())
}

/// What is known of the inputs that meet a condition.
fn ask_one<J: Judge>(
    alloc: Global,
    judge: &mut J,
    terms: &Terms,
    c: &Cond,
    budget: u64,
) -> Result<Judged, AllocError>
    requires condition { StandIn terms.now c.now }
    requires budget { 1 ≤ budget }
    ensures { IfOk result (IsJudged budget (that (condition_of terms.now c.now))) }
{
    without_columns();
    let mut f = Formula::new(alloc);
    f.add(terms, c)?;
    judge.ask(&f, budget)
}

/// What is known of all literals, by what is known of a part, which reads these inputs, and by the least inputs that meet
/// the others with literals of the part.
fn of_all(judged: Judged, least: &Valuation, inputs: &[InputBits]) -> Result<Judged, AllocError>
    ensures { (budget : ℕ) (whole earlier part rest : Condition) → IsSplit whole earlier part rest
        → AllRead (is_among inputs.now) true part → AllRead (is_among inputs.now) false rest
        → IsLeast (that earlier) least.now → IsJudged budget (that part) judged → IfOk result (IsJudged budget (that whole)) }
{
    parts_join();
    part_far();
    part_never();
    match judged {
        Judged::Met(found) => {
            let words = laid_over(least, &found, inputs)?;
            words.order();
            Ok(Judged::Met(words))
        }
        Judged::Never => Ok(Judged::Never),
        Judged::Undecided { leaves } => Ok(Judged::Undecided { leaves }),
    }
}

/// What is known of any condition with further literals by what is known of the condition alone. Err is want of memory.
fn told_already(terms: &Terms, known: &Standing, more: &Cond) -> Result<Option<Judged>, AllocError>
    requires { StandIn terms.now more.now }
    ensures { IfOk result (λ o. (budget : ℕ) (c : Condition) → StandsFor budget (that c) known.now → IfSome o (IsJudged budget (that (c ++ condition_of terms.now more.now)))) }
{
    without_columns();
    least_stays();
    match known {
        Standing::Inputs(least) => {
            if more.holds(terms, least)? {
                return Ok(Some(Judged::Met(least.copy()?)));
            }
        }
        Standing::Open { leaves } => {
            if more.literals().is_empty() {
                return Ok(Some(Judged::Undecided { leaves: *leaves }));
            }
        }
    }
    Ok(None)
}
