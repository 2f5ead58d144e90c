//! The rows of checks and of texts, and a refutation that a script found.

use super::*;
use kn_cnf::{Cnf, Lit, Log};
use std::test::Fail;

fn is_shared<T: Send + Sync>(_value: &T) {}

/// The formula whose clauses are those of the lines of a text.
fn formula_of(rt: &HostRuntime, vars: usize, text: &str) -> Result<Cnf, Fail> {
    let log = read_log(rt.alloc(), text)?;
    let mut clauses = Vec::new(rt.alloc());
    for line in &log.lines {
        clauses.push(line.copy()?.clause)?;
    }
    Ok(Cnf { vars, clauses })
}

/// Four clauses over two variables that no values meet.
const SQUARE: &str = "c 1 2 h\nc 1 -2 h\nc -1 2 h\nc -1 -2 h\n";

#[test]
fn accepts_good_logs_only(rt: HostRuntime) -> Result<(), Fail> {
    let square = formula_of(&rt, 2, SQUARE)?;
    for (text, want) in [
        ("c 1 h 0 1\nc h 4 2 3\n", true),
        ("", false),
        ("c 1 h 0 1\n", false),
        ("c 1 h 0\nc h 4 2 3\n", false),
        ("c h 4 2 3\nc 1 h 0 1\n", false),
        ("c 1 h 0 1\nc h 5 2 3\n", false),
        ("c 1 h 0 1\nc h 0 4 2 3\n", false),
        ("c 1 -1 h 0 1\nc 1 h 0 1\nc h 5 2 3\n", false),
        ("c 1 1 h 0 1\nc h 4 2 3\n", true),
        ("c 1 h 0 1\nc h\n", false),
    ] {
        let log = read_log(rt.alloc(), text)?;
        assert_eq!(rt; check(&square, &log)?, want, "{text}");
    }
    Ok(())
}

#[test]
fn writes_what_it_reads(rt: HostRuntime) -> Result<(), Fail> {
    for text in [
        "",
        "c 1 h 0 1\nc h 4 2 3\n",
        "c -18446744073709551616 h 18446744073709551615\n",
        "c h\n",
    ] {
        let log = read_log(rt.alloc(), text)?;
        assert_eq!(rt; log_text(&log)?.as_str(), text);
        is_shared(&log);
    }
    let log = read_log(rt.alloc(), "c -3 h 7\n")?;
    assert_eq!(rt; log.lines.len(), 1);
    assert_eq!(rt;
        log.lines[0].clause.as_slice(),
        [Lit { var: 2, neg: true }].as_slice()
    );
    assert_eq!(rt; log.lines[0].hints.as_slice(), [7usize].as_slice());
    Ok(())
}

#[test]
fn names_the_first_line_that_is_not_of_the_form(rt: HostRuntime) -> Result<(), Fail> {
    for (text, want) in [
        ("c x h 0\n", 1usize),
        ("\n", 1),
        ("c h", 1),
        ("c h\nc 1 h 0 1", 2),
        ("c h\nc 0 h\nc x\n", 2),
        ("c 01 h\n", 1),
        ("c 1  h 0\n", 1),
        ("c 1 h 00\n", 1),
        ("c 18446744073709551617 h\n", 1),
        ("c h 18446744073709551616\n", 1),
        ("c +1 h\n", 1),
        ("c 1 h -0\n", 1),
    ] {
        match read_log(rt.alloc(), text) {
            Err(LogFault::Bad { line }) => assert_eq!(rt; line, want, "{text}"),
            _ => assert!(rt; false, "{text}"),
        }
    }
    Ok(())
}

/// Four pigeons in three holes: pigeon p sits in hole h where variable 3 * p + h is true.
const PIGEONS: &str = "\
c 1 2 3 h\n\
c 4 5 6 h\n\
c 7 8 9 h\n\
c 10 11 12 h\n\
c -1 -4 h\n\
c -1 -7 h\n\
c -1 -10 h\n\
c -4 -7 h\n\
c -4 -10 h\n\
c -7 -10 h\n\
c -2 -5 h\n\
c -2 -8 h\n\
c -2 -11 h\n\
c -5 -8 h\n\
c -5 -11 h\n\
c -8 -11 h\n\
c -3 -6 h\n\
c -3 -9 h\n\
c -3 -12 h\n\
c -6 -9 h\n\
c -6 -12 h\n\
c -9 -12 h\n";

/// All lines of a refutation of the pigeons but the last.
const REFUTATION: &str = "\
c -1 -2 h 4 5 6 10 1 11 2 12 19\n\
c -1 2 -3 h 4 5 6 16 1 13 2 14 17\n\
c -1 2 3 -4 h 4\n\
c -1 2 3 4 -5 h 5 6 13 2 14 3 21\n\
c -1 2 3 4 h 5 6 25 1 19 2 15 3 20\n\
c -1 2 3 h 4 5 6 25 1 19 2 15 3 20\n\
c -1 2 h 4 5 6 23 25 1 19 2 15 3 20\n\
c -1 h 4 5 6 22 23 25 1 19 2 15 3 20\n\
c 1 -2 -3 h 10 11 12 16 1 7 2 8 17\n\
c 1 -2 3 -4 h 7 8 11 2 12 3 21\n\
c 1 -2 3 h 10 11 12 31 1 19 2 9 3 20\n\
c 1 -2 h 10 11 12 30 31 1 19 2 9 3 20\n\
c 1 2 -3 -4 h 7 8 17 2 15 3 18\n\
c 1 2 -3 h 16 17 18 34 1 13 2 9 3 14\n\
c 1 2 h 0 16 17 18 34 1 13 2 9 3 14\n\
c 1 h 33 0 16 17 18 34 1 13 2 9 3 14\n";

#[test]
fn refutes_the_pigeons(rt: HostRuntime) -> Result<(), Fail> {
    let pigeons = formula_of(&rt, 12, PIGEONS)?;
    for (last, want) in [
        ("c h 29 33 0 16 17 18 34 1 13 2 9 3 14\n", true),
        ("c h 29 0 16 17 18 34 1 13 2 9 3 14\n", false),
        ("c h 33 0 16 17 18 34 1 13 2 9 3 14 29\n", false),
    ] {
        let text = format!(in rt.alloc(); "{REFUTATION}{last}")?;
        let log: Log = read_log(rt.alloc(), text.as_str())?;
        assert_eq!(rt; check(&pigeons, &log)?, want, "{last}");
    }
    Ok(())
}
