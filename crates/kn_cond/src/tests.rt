//! Each call, on conditions over one input.

use super::*;
use kn_term::{Literal, Ref, Terms, Valuation};
use std::alloc::Global;
use std::test::Fail;

fn is_shared<T: Send + Sync>() {}

/// Whether the condition "x is not 0" holds, x an input of 4 bits with this word.
#[tactic(auto, using(crate::proofs::Kept::kept))]
fn is_not_zero(alloc: Global, word: u16) -> Result<bool, Memory> {
    let mut terms = Terms::new(alloc);
    let term = terms.input(0, 0, 4)?;
    let mut condition = Cond::new(alloc);
    condition.add(Literal { term, truth: true })?;
    let mut inputs = Valuation::new(alloc);
    inputs.set(0, 0, word)?;
    condition.holds(&terms, &inputs)
}

#[test]
fn holds_where_the_input_is_not_zero(rt: HostRuntime) -> Result<(), Fail> {
    assert!(rt; is_not_zero(rt.alloc(), 1)?);
    assert!(rt; !is_not_zero(rt.alloc(), 0)?);
    assert!(rt; !is_not_zero(rt.alloc(), 16)?);
    Ok(())
}

#[test]
fn joins_and_compares(rt: HostRuntime) -> Result<(), Fail> {
    let term = Ref::default();
    let mut first = Cond::new(rt.alloc());
    let mut second = Cond::new(rt.alloc());
    second.add(Literal { term, truth: false })?;
    assert!(rt; first != second);
    first.join(&second)?;
    assert!(rt; first == second);
    first.join(&second)?;
    assert!(rt; first.literals().len() == 2 && !first.literals()[1].truth);
    let copy = first.copy()?;
    assert!(rt; copy == first && copy != second);
    Ok(())
}

#[test]
fn what_is_known_is_copied(rt: HostRuntime) -> Result<(), Fail> {
    let mut inputs = Valuation::new(rt.alloc());
    inputs.set(1, 2, 3)?;
    let known = Standing::Inputs(inputs);
    let open = Standing::Open { leaves: 7 };
    assert!(rt; known.copy()? == known);
    assert!(rt; open.copy()? == open);
    assert!(rt; open != known);
    is_shared::<Cond>();
    is_shared::<Standing>();
    Ok(())
}
