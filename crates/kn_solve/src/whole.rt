//! A formula as one term, over a list of terms.

ghost use Rattle.std.specs.Prelude.{◌≡◌, ◌<◌, List, length, map, IfOk};
ghost use Rattle.kn_built.specs.Built.{Extends};
ghost use Rattle.kn_term.specs.Terms.{Word};
ghost use Rattle.kn_term.specs.Nodes.{term_at};
ghost use Rattle.kn_cond.specs.Meanings.{condition_of, literal_of, StandIn};
ghost use Rattle.kn_solve.specs.Formulas.{column_of, ColumnStands, ColumnsStand};
ghost use Rattle.kn_solve.specs.Wholes.{with_literal, with_condition, with_alternative, some_alternative, with_column, with_columns};
ghost use Rattle.std.specs.List.{AllByRecursion};

use kn_cond::Cond;
use kn_term::{Literal, Ref, Terms};
use std::alloc::AllocError;

/// A term where a literal holds, else 0.
fn with_literal(terms: &mut Terms, literal: Literal, then: Ref) -> Result<Ref, AllocError>
    requires literal { literal.term.index < length terms.old }
    requires stands { then.index < length terms.old }
    ensures term { IfOk result (λ r. term_at terms.new r.index ≡ with_literal (literal_of terms.old literal) (term_at terms.old then.index)) }
    ensures stands { IfOk result (λ r. r.index < length terms.new) }
    ensures grows { Extends terms.old terms.new }
{
    let zero = terms.konst(0)?;
    if literal.truth {
        terms.ite(literal.term, then, zero)
    } else {
        terms.ite(literal.term, zero, then)
    }
}

/// A term where each literal holds, else 0.
fn with_condition(terms: &mut Terms, literals: &[Literal], then: Ref) -> Result<Ref, AllocError>
    requires literals { StandIn terms.old literals.now }
    requires stands { then.index < length terms.old }
    ensures term { IfOk result (λ r. term_at terms.new r.index ≡ with_condition (condition_of terms.old literals.now) (term_at terms.old then.index)) }
    ensures stands { IfOk result (λ r. r.index < length terms.new) }
    ensures grows { Extends terms.old terms.new }
{
    let mut whole = then;
    for literal in literals {
        whole = with_literal(terms, *literal, whole)?;
    }
    Ok(whole)
}

/// 1 where the alternative holds, else a term.
fn with_alternative(terms: &mut Terms, alternative: &Cond, other: Ref) -> Result<Ref, AllocError>
    requires literals { StandIn terms.old alternative.now }
    requires stands { other.index < length terms.old }
    ensures term { IfOk result (λ r. term_at terms.new r.index ≡ with_alternative (condition_of terms.old alternative.now) (term_at terms.old other.index)) }
    ensures stands { IfOk result (λ r. r.index < length terms.new) }
    ensures grows { Extends terms.old terms.new }
{
    let one = terms.konst(1)?;
    let holds = with_condition(terms, alternative.literals(), one)?;
    terms.ite(holds, one, other)
}

/// 1 where some alternative holds, else 0.
fn some_alternative(terms: &mut Terms, column: &[Cond]) -> Result<Ref, AllocError>
    requires { AllByRecursion (StandIn terms.old) column.now }
    ensures term { IfOk result (λ r. term_at terms.new r.index ≡ some_alternative (map (condition_of terms.old) column.now)) }
    ensures stands { IfOk result (λ r. r.index < length terms.new) }
    ensures grows { Extends terms.old terms.new }
{
    let mut some = terms.konst(0)?;
    for alternative in column {
        some = with_alternative(terms, alternative, some)?;
    }
    Ok(some)
}

/// A term where some alternative of the column holds, else 0.
fn with_column(terms: &mut Terms, column: &[Cond], then: Ref) -> Result<Ref, AllocError>
    requires column { AllByRecursion (StandIn terms.old) column.now }
    requires stands { then.index < length terms.old }
    ensures term { IfOk result (λ r. term_at terms.new r.index ≡ with_column (map (condition_of terms.old) column.now) (term_at terms.old then.index)) }
    ensures stands { IfOk result (λ r. r.index < length terms.new) }
    ensures grows { Extends terms.old terms.new }
{
    let some = some_alternative(terms, column)?;
    let zero = terms.konst(0)?;
    terms.ite(some, then, zero)
}

/// A term where each column has an alternative that holds, else 0.
fn with_columns(terms: &mut Terms, columns: &[Vec<Cond>], then: Ref) -> Result<Ref, AllocError>
    requires columns { ColumnsStand terms.old columns.now }
    requires stands { then.index < length terms.old }
    ensures term { IfOk result (λ r. term_at terms.new r.index ≡ with_columns (map (column_of terms.old) columns.now) (term_at terms.old then.index)) }
    ensures stands { IfOk result (λ r. r.index < length terms.new) }
    ensures grows { Extends terms.old terms.new }
{
    let mut whole = then;
    for column in columns {
        whole = with_column(terms, column, whole)?;
    }
    Ok(whole)
}

/// The term of a condition and columns: 1 where inputs meet them, else 0.
pub(crate) fn whole(
    terms: &mut Terms,
    condition: &Cond,
    columns: &[Vec<Cond>],
) -> Result<Ref, AllocError>
    requires condition { StandIn terms.old condition.now }
    requires columns { ColumnsStand terms.old columns.now }
    ensures term { IfOk result (λ r. term_at terms.new r.index ≡ with_columns (map (column_of terms.old) columns.now) (with_condition (condition_of terms.old condition.now) (Word 1))) }
    ensures stands { IfOk result (λ r. r.index < length terms.new) }
{
    let one = terms.konst(1)?;
    let holds = with_condition(terms, condition.literals(), one)?;
    with_columns(terms, columns, holds)
}
