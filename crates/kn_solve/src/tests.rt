//! Formulas over inputs of few bits, whose least inputs are known.

ghost use Rattle.std.specs.Prelude.{◌≡◌, ◌<◌, ◌≤◌, length, IfOk, OnOk, MatchOption};
ghost use Rattle.kn_built.specs.Built.{Extends};
ghost use Rattle.kn_cond.specs.Conditions.{IsImpossible, StandsFor, that};
ghost use Rattle.kn_cond.specs.Meanings.{condition_of, StandIn};

use super::*;
use kn_cond::{Cond, Standing};
use kn_term::{Literal, Ref, Terms};
use kn_word::Op;
use std::alloc::Global;
use std::test::Fail;

fn is_shared<T: Send + Sync>() {}

/// That what an operator makes of two inputs of node 0, of 4 bits each, is a word, or that it is not.
#[derive(Clone, Copy)]
struct Claim {
    op: Op,
    inputs: [u32; 2],
    word: u16,
    truth: bool,
}

/// That input 0 is 5, and so on.
const IS_FIVE: Claim = Claim {
    op: Op::Or,
    inputs: [0, 0],
    word: 5,
    truth: true,
};

const IS_THREE: Claim = Claim {
    op: Op::Or,
    inputs: [0, 0],
    word: 3,
    truth: true,
};

const IS_ONE: Claim = Claim {
    op: Op::Or,
    inputs: [0, 0],
    word: 1,
    truth: true,
};

const IS_ZERO: Claim = Claim {
    op: Op::Or,
    inputs: [0, 0],
    word: 0,
    truth: true,
};

const IS_NOT_ZERO: Claim = Claim {
    op: Op::Or,
    inputs: [0, 0],
    word: 0,
    truth: false,
};

/// That input 1 is input 0 less 1.
const IS_ONE_LESS: Claim = Claim {
    op: Op::Sub,
    inputs: [0, 1],
    word: 1,
    truth: true,
};

/// That the product of inputs 0 and 1 is 15.
const IS_PRODUCT: Claim = Claim {
    op: Op::Mul,
    inputs: [0, 1],
    word: 15,
    truth: true,
};

/// What an operator makes of two inputs of 4 bits.
fn of_inputs(terms: &mut Terms, op: Op, inputs: [u32; 2]) -> Result<Ref, Memory>
    ensures stands { IfOk result (λ r. r.index < length terms.new) }
    ensures grows { Extends terms.old terms.new }
{
    let x = terms.input(0, inputs[0], 4)?;
    let y = terms.input(0, inputs[1], 4)?;
    terms.apply(op, x, y)
}

/// The term that is 1 where the operator makes the word of a claim, else 0.
fn of_claim(terms: &mut Terms, claim: &Claim) -> Result<Ref, Memory>
    ensures stands { IfOk result (λ r. r.index < length terms.new) }
    ensures grows { Extends terms.old terms.new }
{
    let made = of_inputs(terms, claim.op, claim.inputs)?;
    let word = terms.konst(claim.word)?;
    terms.apply(Op::Eq, made, word)
}

/// The condition of one literal.
fn condition(alloc: Global, terms: &Terms, term: Ref, truth: bool) -> Result<Cond, Memory>
    requires { term.index < length terms.now }
    ensures { IfOk result (StandIn terms.now) }
{
    let mut c = Cond::new(alloc);
    c.add(Literal { term, truth })?;
    Ok(c)
}

/// The condition of a claim, and its terms.
fn claimed(alloc: Global, claim: &Claim) -> Result<(Terms, Cond), Memory>
    ensures { IfOk result (λ p. StandIn p.0 p.1) }
{
    let mut terms = Terms::new(alloc);
    let term = of_claim(&mut terms, claim)?;
    let c = condition(alloc, &terms, term, claim.truth)?;
    Ok((terms, c))
}

/// Claims come to the condition of a formula.
fn add_claims(alloc: Global, f: &mut Formula, claims: &[Claim]) -> Result<(), Memory> {
    for claim in claims {
        let (terms, c) = claimed(alloc, claim)?;
        f.add(&terms, &c)?;
    }
    Ok(())
}

/// One alternative more in the column that was opened last.
fn add_alternative(alloc: Global, f: &mut Formula, claim: &Claim) -> Result<(), Memory>
    requires { 0 < length f.old.columns }
    ensures { OnOk result (0 < length f.new.columns) }
{
    let (terms, c) = claimed(alloc, claim)?;
    f.add_alternative(&terms, &c)
}

/// One column more, of claims.
fn add_column(alloc: Global, f: &mut Formula, claims: &[Claim]) -> Result<(), Memory> {
    f.open_column()?;
    for claim in claims {
        add_alternative(alloc, f, claim)?;
    }
    Ok(())
}

/// A condition of claims and columns of claims; and the words of the first three inputs of node 0 in the least inputs that
/// meet them, or None where no inputs do.
struct Row {
    condition: &'static [Claim],
    columns: &'static [&'static [Claim]],
    budget: u64,
    least: Option<[u16; 3]>,
}

const ROWS: [Row; 5] = [
    Row {
        condition: &[],
        columns: &[],
        budget: 1,
        least: Some([0, 0, 0]),
    },
    Row {
        condition: &[],
        columns: &[&[]],
        budget: 1,
        least: None,
    },
    Row {
        condition: &[],
        columns: &[&[IS_ONE, IS_ZERO]],
        budget: 65_536,
        least: Some([0, 0, 0]),
    },
    Row {
        condition: &[IS_NOT_ZERO],
        columns: &[&[IS_ZERO]],
        budget: 65_536,
        least: None,
    },
    Row {
        condition: &[],
        columns: &[&[IS_FIVE, IS_THREE], &[IS_ONE_LESS]],
        budget: 65_536,
        least: Some([3, 2, 0]),
    },
];

/// The formula of a row.
fn formula_of(alloc: Global, row: &Row) -> Result<Formula, Memory> {
    let mut f = Formula::new(alloc);
    add_claims(alloc, &mut f, row.condition)?;
    for column in row.columns {
        add_column(alloc, &mut f, column)?;
    }
    Ok(f)
}

/// Whether these are the words of the first three inputs of node 0 in the least inputs, or no inputs were wanted nor found.
fn is_least(judged: &Judged, least: Option<[u16; 3]>) -> bool {
    match judged {
        Judged::Met(inputs) => {
            least == Some([inputs.get(0, 0), inputs.get(0, 1), inputs.get(0, 2)])
        }
        Judged::Never => least.is_none(),
        Judged::Undecided { .. } => false,
    }
}

#[test]
fn formulas_of_few_inputs(rt: HostRuntime) -> Result<(), Fail> {
    for row in ROWS.iter() {
        let f = formula_of(rt.alloc(), row)?;
        assert_eq!(rt; f.columns(), row.columns.len());
        assert_eq!(rt; f.condition().1.literals().len(), row.condition.len());
        let judged = Plain.ask(&f, row.budget)?;
        assert!(rt; is_least(&judged, row.least));
    }
    Ok(())
}

/// 1 where a bit and an input of one bit are 1, else 0, as the input without what it has beyond the bit: so neither of them
/// tells it alone.
fn with_bit(terms: &mut Terms, bit: Ref, index: u32) -> Result<Ref, Memory>
    requires { bit.index < length terms.old }
    ensures { IfOk result (λ r. r.index < length terms.new) }
{
    let x = terms.input(0, index, 1)?;
    let beyond = terms.apply(Op::Ult, bit, x)?;
    terms.apply(Op::Xor, x, beyond)
}

/// 1 where each of the inputs of one bit up to an index is 1, else 0.
fn all_bits(terms: &mut Terms, last: u32) -> Result<Ref, Memory>
    ensures { IfOk result (λ r. r.index < length terms.new) }
{
    let mut whole = terms.input(0, 0, 1)?;
    for index in 0..last {
        whole = with_bit(terms, whole, index + 1)?;
    }
    Ok(whole)
}

/// The formula that each of the inputs of one bit up to an index is 1, as one literal.
fn of_all(alloc: Global, last: u32) -> Result<Formula, Memory> {
    let mut terms = Terms::new(alloc);
    let whole = all_bits(&mut terms, last)?;
    let c = condition(alloc, &terms, whole, true)?;
    let mut f = Formula::new(alloc);
    f.add(&terms, &c)?;
    Ok(f)
}

/// That an input of one bit is not 0 comes to the condition of a formula.
fn add_bit(alloc: Global, f: &mut Formula, index: u32) -> Result<(), Memory> {
    let mut terms = Terms::new(alloc);
    let x = terms.input(0, index, 1)?;
    let c = condition(alloc, &terms, x, true)?;
    f.add(&terms, &c)
}

/// The formula that each of so many inputs of one bit is 1, a literal for each.
fn of_each(alloc: Global, count: u32) -> Result<Formula, Memory> {
    let mut f = Formula::new(alloc);
    for index in 0..count {
        add_bit(alloc, &mut f, index)?;
    }
    Ok(f)
}

/// Twice the bits that both inputs have.
fn of_twice(terms: &mut Terms) -> Result<Ref, Memory>
    ensures stands { IfOk result (λ r. r.index < length terms.new) }
    ensures grows { Extends terms.old terms.new }
{
    let both = of_inputs(terms, Op::And, [0, 1])?;
    terms.apply(Op::Add, both, both)
}

/// The bits in which two inputs differ, with twice those that both have.
fn of_parts(terms: &mut Terms) -> Result<Ref, Memory>
    ensures { IfOk result (λ r. r.index < length terms.new) }
{
    let twice = of_twice(terms)?;
    let one = of_inputs(terms, Op::Xor, [0, 1])?;
    terms.apply(Op::Add, one, twice)
}

/// The term that is 1 where these parts are the sum of the inputs.
fn of_sum(terms: &mut Terms) -> Result<Ref, Memory>
    ensures { IfOk result (λ r. r.index < length terms.new) }
{
    let parts = of_parts(terms)?;
    let sum = of_inputs(terms, Op::Add, [0, 1])?;
    terms.apply(Op::Eq, parts, sum)
}

/// The formula that these parts are not the sum of the inputs.
fn of_no_sum(alloc: Global) -> Result<Formula, Memory> {
    let mut terms = Terms::new(alloc);
    let same = of_sum(&mut terms)?;
    let c = condition(alloc, &terms, same, false)?;
    let mut f = Formula::new(alloc);
    f.add(&terms, &c)?;
    Ok(f)
}

/// Whether so many valuations were closed, and the formula was not decided.
fn is_far(v: &Verdict, want: u64) -> bool {
    match v {
        Verdict::Undecided { leaves } => *leaves == want,
        _ => false,
    }
}

/// Whether no inputs meet the formula.
fn is_never(v: &Verdict) -> bool {
    match v {
        Verdict::Never(_) => true,
        _ => false,
    }
}

/// Whether each of the first so many inputs of node 0 is 1 in the least inputs.
fn are_ones(v: &Verdict, count: u32) -> bool {
    match v {
        Verdict::Met(inputs) => (0..count).all(|index| inputs.get(0, index) == 1),
        _ => false,
    }
}

#[test]
fn a_budget_as_great_as_all_valuations_decides(rt: HostRuntime) -> Result<(), Fail> {
    let each = of_each(rt.alloc(), 17)?;
    assert!(rt; are_ones(&ask(&each, 131_072)?, 17));
    // All but one of the 131,072 valuations come before the only one that meets it.
    let all = of_all(rt.alloc(), 16)?;
    assert!(rt; is_far(&ask(&all, 65_536)?, 65_536));
    assert!(rt; are_ones(&ask(&all, 131_072)?, 17));
    Ok(())
}

#[test]
fn the_sum_is_made_of_its_parts(rt: HostRuntime) -> Result<(), Fail> {
    let none = of_no_sum(rt.alloc())?;
    assert!(rt; is_never(&ask(&none, 256)?));
    assert!(rt; is_far(&ask(&none, 1)?, 1));
    is_shared::<Formula>();
    is_shared::<Verdict>();
    Ok(())
}

/// The conditions of two claims, and their terms.
fn two_claimed(alloc: Global, first: &Claim, second: &Claim) -> Result<(Terms, Cond, Cond), Memory>
    ensures first { IfOk result (λ p. StandIn p.0 p.1) }
    ensures second { IfOk result (λ p. StandIn p.0 p.2) }
{
    let mut terms = Terms::new(alloc);
    let x = of_claim(&mut terms, first)?;
    let y = of_claim(&mut terms, second)?;
    let c = condition(alloc, &terms, x, first.truth)?;
    let more = condition(alloc, &terms, y, second.truth)?;
    Ok((terms, c, more))
}

/// What is known of the inputs that meet a condition; None where no inputs do.
fn known_of(alloc: Global, terms: &Terms, c: &Cond, budget: u64) -> Result<Option<Standing>, Memory>
    requires stands { StandIn terms.now c.now }
    requires budget { 1 ≤ budget }
    ensures { IfOk result (λ o. MatchOption o (IsImpossible (that (condition_of terms.now c.now))) (StandsFor budget (that (condition_of terms.now c.now)))) }
{
    without_columns();
    let mut f = Formula::new(alloc);
    f.add(terms, c)?;
    let judged = Plain.ask(&f, budget)?;
    Ok(judged.standing())
}

/// What is known of a condition with further literals, where the condition was asked before.
fn asked_before(
    alloc: Global,
    terms: &Terms,
    c: &Cond,
    more: &Cond,
    budget: u64,
) -> Result<Judged, Memory>
    requires condition { StandIn terms.now c.now }
    requires further { StandIn terms.now more.now }
    requires budget { 1 ≤ budget }
{
    match known_of(alloc, terms, c, budget)? {
        Some(known) => ask_more(alloc, &mut Plain, terms, c, &known, more, budget),
        None => Ok(Judged::Never),
    }
}

/// What is known where the product of inputs 0 and 1 is 15, and a further claim comes.
fn after_product(alloc: Global, more: &Claim) -> Result<Judged, Memory> {
    let (terms, product, more) = two_claimed(alloc, &IS_PRODUCT, more)?;
    asked_before(alloc, &terms, &product, &more, 4_096)
}

/// A further claim; and the words of the first three inputs of node 0 in the least inputs that meet it and have the product
/// 15, or None where no inputs do.
struct Further {
    more: Claim,
    least: Option<[u16; 3]>,
}

/// The products are 1 times 15, 3 times 5, 5 times 3 and 15 times 1. The least inputs of the product alone are 1, 15 and 0:
/// they meet the first row and no other. The last two rows have no product.
const FURTHER: [Further; 6] = [
    Further {
        more: Claim {
            op: Op::Add,
            inputs: [0, 1],
            word: 16,
            truth: true,
        },
        least: Some([1, 15, 0]),
    },
    Further {
        more: Claim {
            op: Op::Add,
            inputs: [0, 1],
            word: 8,
            truth: true,
        },
        least: Some([3, 5, 0]),
    },
    Further {
        more: Claim {
            op: Op::Or,
            inputs: [2, 2],
            word: 7,
            truth: true,
        },
        least: Some([1, 15, 7]),
    },
    Further {
        more: Claim {
            op: Op::Add,
            inputs: [1, 2],
            word: 6,
            truth: true,
        },
        least: Some([3, 5, 1]),
    },
    Further {
        more: Claim {
            op: Op::Add,
            inputs: [0, 1],
            word: 9,
            truth: true,
        },
        least: None,
    },
    Further {
        more: Claim {
            op: Op::Mul,
            inputs: [0, 1],
            word: 15,
            truth: false,
        },
        least: None,
    },
];

#[test]
fn further_literals(rt: HostRuntime) -> Result<(), Fail> {
    for row in FURTHER.iter() {
        let judged = after_product(rt.alloc(), &row.more)?;
        assert!(rt; is_least(&judged, row.least));
    }
    Ok(())
}
