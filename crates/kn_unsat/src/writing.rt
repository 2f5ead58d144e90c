//! The text of logs.

ghost use Rattle.std.specs.Prelude.{◌≡◌, ◌<◌, ◌^◌, ◌++◌, ℕ, IfOk, OnOk, flat_map, string_bytes};
ghost use Rattle.std.specs.Fmt.{decimal};
ghost use Rattle.std.specs.List.{AllByRecursion};
ghost use Rattle.kn_cnf.specs.declared.clauses.Lit.{Lit};
ghost use Rattle.kn_unsat.specs.Text.{literal_word, hint_word, line_text, text_of, IsNumbered};

use kn_cnf::{Line, Lit, Log};
use std::alloc::{AllocError, Global};

/// The text of a log: for each line `c`, its literals, `h` and its hints, joined by single spaces, and a line feed. A
/// literal is the variable plus 1, with `-` in front where it is negated. Err is want of memory.
pub fn log_text(log: &Log) -> Result<String, AllocError>
    ensures text { IfOk result (λ t. string_bytes t ≡ text_of log.now) }
    ensures numbered { OnOk result (AllByRecursion IsNumbered log.now) }
{
    let mut text = String::new(*log.lines.allocator());
    for line in &log.lines {
        text.push_str(&line_of(*log.lines.allocator(), line)?)?;
    }
    Ok(text)
}

/// The text of one line, with its line feed.
pub(crate) fn line_of(alloc: Global, line: &Line) -> Result<String, AllocError>
    ensures text { IfOk result (λ t. string_bytes t ≡ line_text line.now) }
    ensures numbered { OnOk result (IsNumbered line.now) }
{
    let mut text = String::from_str(alloc, "c")?;
    put_literals(&mut text, &line.clause)?;
    text.push_str(" h")?;
    put_hints(&mut text, &line.hints)?;
    text.push_str("\n")?;
    Ok(text)
}

/// Appends the literals, each behind a space.
fn put_literals(text: &mut String, clause: &[Lit]) -> Result<(), AllocError>
    ensures text { OnOk result (string_bytes text.new ≡ string_bytes text.old ++ flat_map literal_word clause.now) }
    ensures numbered { OnOk result (AllByRecursion (λ (l : Lit). l.var < 2 ^ 64) clause.now) }
{
    for l in clause {
        text.push_str(if l.neg { " -" } else { " " })?;
        put_number(text, l.var as u128 + 1)?;
    }
    Ok(())
}

/// Appends the hints, each behind a space.
fn put_hints(text: &mut String, hints: &[usize]) -> Result<(), AllocError>
    ensures text { OnOk result (string_bytes text.new ≡ string_bytes text.old ++ flat_map hint_word hints.now) }
    ensures numbered { OnOk result (AllByRecursion (λ (h : ℕ). h < 2 ^ 64) hints.now) }
{
    for hint in hints {
        text.push_str(" ")?;
        put_number(text, *hint as u128)?;
    }
    Ok(())
}

/// Appends a number in decimal.
fn put_number(text: &mut String, number: u128) -> Result<(), AllocError>
    ensures { OnOk result (string_bytes text.new ≡ string_bytes text.old ++ decimal number) }
{
    let alloc = *text.allocator();
    text.push_str(&format!(in alloc; "{number}")?)
}
