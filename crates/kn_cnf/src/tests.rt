//! Each call on its happy path, and the clauses of two small circuits against all values.

use super::*;
use kn_aig::{Aig, Edge};
use std::test::Fail;

fn is_shared<T: Send + Sync>(_value: &T) {}

/// Whether the clauses hold under these values.
fn is_met(cnf: &Cnf, values: &[bool]) -> bool {
    cnf.clauses.iter().all(|clause: &Clause| -> bool {
        clause.iter().any(|l: &Lit| -> bool {
            values.get(l.var).copied().unwrap_or(false) != l.neg
        })
    })
}

#[test]
fn copies_are_equal(rt: HostRuntime) -> Result<(), Fail> {
    let alloc = rt.alloc();
    let x = Lit { var: 0, neg: false };
    let cnf = Cnf {
        vars: 1,
        clauses: vec![in alloc; vec![in alloc; x, x.negated()]?]?,
    };
    let other = Cnf {
        vars: 1,
        clauses: Vec::new(alloc),
    };
    assert!(rt; cnf.copy()? == cnf);
    assert!(rt; cnf != other);
    let line = Line {
        clause: vec![in alloc; x]?,
        hints: vec![in alloc; 3usize]?,
    };
    assert!(rt; line.copy()? == line);
    let mut log = Log::new(alloc);
    assert!(rt; log.copy()? == log);
    log.lines.push(line)?;
    assert!(rt; log != Log::new(alloc));
    is_shared(&cnf);
    is_shared(&log);
    Ok(())
}

#[test]
fn only_gates_below_the_root_are_encoded(rt: HostRuntime) -> Result<(), Fail> {
    let alloc = rt.alloc();
    let mut aig = Aig::new(alloc);
    let x = aig.input()?;
    let y = aig.input()?;
    let z = aig.input()?;
    let gate = aig.and(x, y.negated())?;
    let _other = aig.and(y, z)?;
    let cnf = of_aig(alloc, &aig, gate.negated())?;
    assert_eq!(rt; cnf.vars, 4);
    assert_eq!(rt; cnf.clauses.len(), 4);
    for (values, want) in [
        ([true, false, false, true], false),
        ([true, false, false, false], false),
        ([true, true, false, false], true),
        ([false, true, true, false], true),
        ([false, true, true, true], false),
    ] {
        assert_eq!(rt; is_met(&cnf, &values), want, "{values:?}");
    }
    Ok(())
}

#[test]
fn constants_and_inputs_are_roots(rt: HostRuntime) -> Result<(), Fail> {
    let alloc = rt.alloc();
    let mut aig = Aig::new(alloc);
    let x = aig.input()?;
    assert!(rt; is_met(&of_aig(alloc, &aig, Aig::constant(true))?, &[false]));
    assert!(rt; !is_met(&of_aig(alloc, &aig, Aig::constant(false))?, &[false]));
    let cnf = of_aig(alloc, &aig, x)?;
    assert_eq!(rt; cnf.vars, 1);
    assert!(rt; is_met(&cnf, &[true]) && !is_met(&cnf, &[false]));
    Ok(())
}
