//! A table of histories, which grows at its end.

ghost use Rattle.std.specs.Prelude.{◌≡◌, ◌<◌, ◌≤◌, ◌++◌, [], ◌∷◌, length, slice_get, Some, IfOk, ℕ};
ghost use Rattle.kn_built.specs.Built.{Extends};
ghost use Rattle.kn_packet.specs.Histories.{Done, followed};
ghost use Rattle.kn_dstate.specs.Histories.{Told, told, history_in, entry_history, entries_history, IsTable, IsHistoryOf, NamesBelow, AllNameBelow};

use crate::order::count_of;
use crate::row::{Entry, Past, Row};
use std::alloc::{AllocError, Global};

/// A table with the empty history of each of so many nodes, under the node's number.
pub(crate) fn open_rows(alloc: Global, nodes: u32) -> Result<Vec<Row>, AllocError>
    ensures table { IfOk result (λ v. IsTable v.items) }
    ensures many { IfOk result (λ v. length (told v.items) ≡ nodes) }
    ensures each { IfOk result (λ v. (n : ℕ) → n < nodes → slice_get (told v.items) n ≡ Some (record { node = n; history = Done })) }
{
    let mut rows = Vec::with_capacity(alloc, nodes as usize)?;
    for node in 0..nodes {
        rows.push(Row {
            node,
            count: 0,
            past: Past::Nothing,
        })?;
    }
    Ok(rows)
}

/// Appends a history: an earlier one of the node, and then one more entry. Answers its place.
fn push(rows: &mut Vec<Row>, node: u32, before: usize, entry: &Entry) -> Result<usize, AllocError>
    requires table { IsTable rows.old.items }
    requires before { IsHistoryOf (told rows.old.items) node before }
    requires names { NamesBelow (length rows.old.items) entry.now }
    ensures table { IsTable rows.new.items }
    ensures grows { Extends (told rows.old.items) (told rows.new.items) }
    ensures tells { IfOk result (λ k. slice_get (told rows.new.items) k ≡ Some (record { node = node; history = followed (history_in (told rows.old.items) before) (entry_history (told rows.old.items) entry.now) })) }
{
    let entry = entry.copy()?;
    let count = count_of(rows, before) + 1;
    let place = rows.len();
    rows.push(Row {
        node,
        count,
        past: Past::After { before, entry },
    })?;
    Ok(place)
}

/// Appends a history: an earlier one of the node, and then these entries. Answers its place. Err is want of memory; some
/// of the entries may have been appended then.
pub(crate) fn extend(
    rows: &mut Vec<Row>,
    node: u32,
    before: usize,
    entries: &[Entry],
) -> Result<usize, AllocError>
    requires table { IsTable rows.old.items }
    requires before { IsHistoryOf (told rows.old.items) node before }
    requires names { AllNameBelow (length rows.old.items) entries.now }
    ensures table { IsTable rows.new.items }
    ensures grows { Extends (told rows.old.items) (told rows.new.items) }
    ensures tells { IfOk result (λ k. slice_get (told rows.new.items) k ≡ Some (record { node = node; history = followed (history_in (told rows.old.items) before) (entries_history (told rows.old.items) entries.now) })) }
{
    let mut last = before;
    for entry in entries {
        last = push(rows, node, last, entry)?;
    }
    Ok(last)
}
