//! Whether columns and picks are as a report demands.

ghost use Rattle.std.specs.Prelude.{◌≡◌, length, slice_get, IfOk};
ghost use Rattle.kn_report.specs.Views.{lists_of, outcome_of, reach_of};
ghost use Rattle.kn_report.specs.Forms.{rises_from, is_column, all_columns, are_columns, takes, takes_of, is_reach, is_failed, failed_from};

use crate::report::{Columns, Reached, StateLine};
use kn_node::Outcome;
use std::alloc::{AllocError, Global};

/// Whether numbers rise and are each below a count.
fn rises_below(numbers: &[usize], count: usize) -> bool
    ensures { result ≡ rises_from 0 count numbers.now }
{
    let mut low = 0;
    for number in numbers {
        if *number < low || *number >= count {
            return false;
        }
        low = *number + 1;
    }
    true
}

/// Whether columns are of so many states, each rising and not empty.
fn are_all_columns(lists: &[Vec<usize>], states: usize) -> bool
    ensures { result ≡ all_columns states (lists_of lists.now) }
{
    for column in lists {
        if column.is_empty() || !rises_below(column, states) {
            return false;
        }
    }
    true
}

/// Whether these are the columns of a dstate of so many nodes.
pub(crate) fn has_columns(columns: &Columns, states: usize, nodes: u32) -> bool
    ensures { result ≡ are_columns states nodes columns.now }
{
    columns.lists.len() as u64 == nodes as u64 && are_all_columns(&columns.lists, states)
}

/// Whether a pick takes one state from each column.
fn takes_from(columns: &Columns, pick: &[usize]) -> bool
    ensures { result ≡ takes columns.now pick.now }
{
    takes_all(&columns.lists, pick)
}

/// The same of the columns themselves.
fn takes_all(lists: &[Vec<usize>], pick: &[usize]) -> bool
    ensures { result ≡ takes (lists_of lists.now) pick.now }
{
    lists.len() == pick.len() && takes_each(lists, pick)
}

/// The same, where there are as many states as columns.
fn takes_each(lists: &[Vec<usize>], pick: &[usize]) -> bool
    requires { length lists.now ≡ length pick.now }
    ensures { result ≡ takes (lists_of lists.now) pick.now }
{
    for (place, column) in lists.iter().enumerate() {
        if !column.contains(&pick[place]) {
            return false;
        }
    }
    true
}

/// Whether a pick is of a dstate that there is.
fn is_pick(dstates: &[Columns], dstate: usize, pick: &[usize]) -> bool
    ensures { result ≡ takes_of (slice_get dstates.now dstate) pick.now }
{
    match dstates.get(dstate) {
        None => false,
        Some(columns) => takes_from(columns, pick),
    }
}

/// Whether what a failure line says is of these dstates.
pub(crate) fn has_place(dstates: &[Columns], reach: &Reached) -> bool
    ensures { result ≡ is_reach dstates.now (reach_of reach.now) }
{
    match reach {
        Reached::At { dstate, pick, .. } => is_pick(dstates, *dstate, pick),
        Reached::Open => true,
        Reached::Nowhere => true,
    }
}

fn has_failed(outcome: Outcome) -> bool
    ensures { result ≡ is_failed (outcome_of outcome) }
{
    matches!(outcome, Outcome::Failed { .. })
}

/// The numbers of the failed states.
pub(crate) fn failed_states(alloc: Global, states: &[StateLine]) -> Result<Vec<usize>, AllocError>
    ensures { IfOk result (λ v. v.items ≡ failed_from 0 states.now) }
{
    let mut failed = Vec::new(alloc);
    for (number, line) in states.iter().enumerate() {
        if has_failed(line.outcome) {
            failed.push(number)?;
        }
    }
    Ok(failed)
}
