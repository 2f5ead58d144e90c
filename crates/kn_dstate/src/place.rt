//! Dstates.

ghost use Rattle.std.specs.Prelude.{◌≡◌, ◌<◌, ◌≤◌, ◌^◌, [], length, map, IfOk, OnOk, MatchOption};
ghost use Rattle.std.specs.List.{AllByRecursion};
ghost use Rattle.kn_dstate.specs.Places.{PlaceView, column, inbox, is_in, others, choices};
ghost use Rattle.kn_dstate.specs.Graphs.{at};
ghost use Rattle.kn_dstate.specs.Gathered.{with_number, with_all, column_in, gathered};

use crate::number::{PacketNo, StateNo};
use slab::Slab;
use std::alloc::{AllocError, Global};
use std::marker::Model;

/// A dstate: for each node a column of states, and an inbox with the packets that it was sent in this tick.
#[derive(Debug, Drop)]
pub struct Place {
    pub columns: Vec<Vec<StateNo>>,
    pub inboxes: Vec<Vec<PacketNo>>,
}

impl Model for Place {
    ghost use Rattle.std.specs.Prelude.{map};
    ghost use Rattle.kn_dstate.specs.Places.{PlaceView};

    ghost Value = { PlaceView };

    ghost view = { λ p. record { columns = map (λ v. map (λ s. s.0) v.items) p.columns.items; inboxes = map (λ v. map (λ k. k.0) v.items) p.inboxes.items } };
}

impl Place {
    /// The states of a node.
    pub(crate) fn column(&self, node: usize) -> &[StateNo]
        requires { node < length self.now.columns }
        ensures { map (λ s. s.0) result.now ≡ column self.now node }
    {
        &self.columns[node]
    }

    /// The packets that a node was sent.
    pub(crate) fn inbox(&self, node: usize) -> &[PacketNo]
        requires { node < length self.now.inboxes }
        ensures { map (λ k. k.0) result.now ≡ inbox self.now node }
    {
        &self.inboxes[node]
    }

    /// The product of how many states the columns have. None exactly where that is past the greatest u128.
    pub(crate) fn pick_count(&self) -> Option<u128>
        requires { AllByRecursion (λ c. 0 < length c) self.now.columns }
        ensures { MatchOption result (2 ^ 128 ≤ choices self.now.columns) (λ n. n ≡ choices self.now.columns) }
    {
        product(&self.columns)
    }
}

/// The product of how many states some columns have. None exactly where that is past the greatest u128.
fn product(columns: &[Vec<StateNo>]) -> Option<u128>
    requires { AllByRecursion (λ c. 0 < length c) (map (λ v. map (λ s. s.0) v.items) columns.now) }
    ensures { MatchOption result (2 ^ 128 ≤ choices (map (λ v. map (λ s. s.0) v.items) columns.now)) (λ n. n ≡ choices (map (λ v. map (λ s. s.0) v.items) columns.now)) }
{
    let mut count: u128 = 1;
    for column in columns {
        let Some(next) = count.checked_mul(column.len() as u128) else {
            return None;
        };
        count = next;
    }
    Some(count)
}

/// A column without a state. Err is want of memory.
pub(crate) fn without(
    alloc: Global,
    column: &[StateNo],
    s: StateNo,
) -> Result<Vec<StateNo>, AllocError>
    ensures { IfOk result (λ v. map (λ x. x.0) v.items ≡ others s.0 (map (λ x. x.0) column.now)) }
{
    let mut out = Vec::new(alloc);
    for x in column {
        if x.0 != s.0 {
            out.push(*x)?;
        }
    }
    Ok(out)
}

/// Whether a state stands in a column.
fn has(column: &[StateNo], s: StateNo) -> bool
    ensures { result ≡ is_in s.0 (map (λ x. x.0) column.now) }
{
    for x in column {
        if x.0 == s.0 {
            return true;
        }
    }
    false
}

/// Appends a state, unless it is there already.
fn add_missing(out: &mut Vec<StateNo>, s: StateNo) -> Result<(), AllocError>
    ensures { OnOk result (map (λ x. x.0) out.new.items ≡ with_number s.0 (map (λ x. x.0) out.old.items)) }
{
    if has(out, s) {
        return Ok(());
    }
    out.push(s)?;
    Ok(())
}

/// Appends the states of a column that are not there yet.
fn add_column(out: &mut Vec<StateNo>, column: &[StateNo]) -> Result<(), AllocError>
    ensures { OnOk result (map (λ x. x.0) out.new.items ≡ with_all (map (λ x. x.0) column.now) (map (λ x. x.0) out.old.items)) }
{
    for x in column {
        add_missing(out, *x)?;
    }
    Ok(())
}

/// Appends the states of a node in a dstate that are not there yet.
fn add_from(
    out: &mut Vec<StateNo>,
    dstates: &Slab<Place>,
    key: usize,
    node: usize,
) -> Result<(), AllocError>
    ensures { OnOk result (map (λ x. x.0) out.new.items ≡ with_all (column_in (at dstates.now.slots key) node) (map (λ x. x.0) out.old.items)) }
{
    let Some(place) = dstates.get(key) else {
        return Ok(());
    };
    match place.columns.get(node) {
        Some(column) => add_column(out, column),
        None => Ok(()),
    }
}

/// The states of a node in the dstates of some numbers, each once.
pub(crate) fn gather(
    alloc: Global,
    dstates: &Slab<Place>,
    keys: &[usize],
    node: usize,
) -> Result<Vec<StateNo>, AllocError>
    ensures { IfOk result (λ v. map (λ x. x.0) v.items ≡ gathered dstates.now.slots node keys.now []) }
{
    let mut out = Vec::new(alloc);
    for key in keys {
        add_from(&mut out, dstates, *key, node)?;
    }
    Ok(out)
}
