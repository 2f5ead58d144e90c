//! Each call, on the four values of two inputs.

use super::*;
use std::test::Fail;

fn is_shared<T: Send + Sync>(_value: &T) {}

#[test]
fn gates_have_their_values(rt: HostRuntime) -> Result<(), Fail> {
    let mut aig = Aig::new(rt.alloc());
    let x = aig.input()?;
    let y = aig.input()?;
    let both = aig.and(x, y)?;
    let one = aig.xor(x, y)?;
    let choice = aig.ite(x, y, Aig::constant(true))?;
    assert_eq!(rt; aig.inputs(), 2);
    is_shared(&aig);
    for (a, b, and, xor, ite) in [
        (false, false, false, false, true),
        (false, true, false, true, true),
        (true, false, false, true, false),
        (true, true, true, false, true),
    ] {
        let bits = [a, b];
        assert_eq!(rt; aig.value(&bits, both)?, and);
        assert_eq!(rt; aig.value(&bits, both.negated())?, !and);
        assert_eq!(rt; aig.value(&bits, one)?, xor);
        assert_eq!(rt; aig.value(&bits, choice)?, ite);
    }
    Ok(())
}

#[test]
fn a_gate_comes_once(rt: HostRuntime) -> Result<(), Fail> {
    let mut aig = Aig::new(rt.alloc());
    assert_eq!(rt; aig.size(), 1);
    let x = aig.input()?;
    let y = aig.input()?;
    let first = aig.and(x, y.negated())?;
    assert_eq!(rt; aig.size(), 4);
    assert_eq!(rt; aig.and(y.negated(), x)?, first);
    assert_eq!(rt; aig.and(x, x)?, x);
    assert_eq!(rt; aig.and(x, x.negated())?, Aig::constant(false));
    assert_eq!(rt; aig.and(x, Aig::constant(true))?, x);
    assert_eq!(rt; aig.size(), 4);
    assert_eq!(rt; aig.gate(0), AigNode::Constant);
    assert_eq!(rt; aig.gate(2), AigNode::Input(1));
    assert_eq!(rt; aig.gate(3), AigNode::And(x, y.negated()));
    Ok(())
}
