//! The links of a file.

ghost use Rattle.std.specs.Prelude.{◌≡◌, ◌-◌, ◌+◌, ◌<◌, ◌≤◌, ℕ, List, [], codes, map, true, nat_eq, length, slice_index, IfOk};
ghost use Rattle.toml.specs.View.{table_view};
ghost use Rattle.kn_plan.specs.Nets.{Link};
ghost use Rattle.kn_netfile.specs.Faults.{located, fault_if, item_place, key_place, wrong_link};
ghost use Rattle.kn_netfile.specs.Keys.{number_fault, number_or};
ghost use Rattle.kn_netfile.specs.Tables.{node_number, link_at, is_past_fan, link_fault, links_fault};

use crate::keys::{NumberAt, WRONG_LINK, fault_if, number_at, number_fault, unknown_fault};
use crate::refusal::{Refusal, at_item, at_key, lower};
use std::alloc::{AllocError, Global};
use toml::Table;

/// The most links of a node.
const FAN: usize = 16;

/// What stands at a key that wants the number of one of so many nodes.
pub(crate) fn node_number(table: &Table, key: &str, nodes: usize) -> NumberAt
    ensures { result ≡ node_number nodes key.now (table_view table.now) }
{
    let last = nodes.saturating_sub(1);
    number_at(table, key, 0, last as u64)
}

/// The node at a key, 0 where none of so many stands there.
pub(crate) fn node_or_first(table: &Table, key: &str, nodes: usize) -> usize
    ensures value { result ≡ number_or 0 (node_number nodes key.now (table_view table.now)) }
    ensures most { result ≤ nodes - 1 }
{
    let last = nodes.saturating_sub(1);
    match number_at(table, key, 0, last as u64) {
        NumberAt::Number(node) => node as usize,
        _ => 0,
    }
}

/// The number of the fault of what stands where the number of one of so many nodes is wanted.
fn end_fault(table: &Table, key: &str, nodes: usize) -> Option<u8>
    ensures { (place : List ℕ) → located place result ≡ number_fault true wrong_link place (node_number nodes key.now (table_view table.now)) }
{
    number_fault(true, WRONG_LINK, node_number(table, key, nodes))
}

/// Whether a link goes to the node that it comes from.
fn is_loop(table: &Table, nodes: usize) -> bool
    ensures { result ≡ nat_eq (link_at nodes (table_view table.now)).from (link_at nodes (table_view table.now)).to }
{
    node_or_first(table, "from", nodes) == node_or_first(table, "to", nodes)
}

/// What is wrong with a link between some of so many nodes, where 16 links from its node stand before it or not.
fn link_fault(
    alloc: Global,
    nodes: usize,
    index: usize,
    table: &Table,
    is_full: bool,
) -> Result<Option<Refusal>, AllocError>
    ensures { (before : List Link) → is_full ≡ is_past_fan before (link_at nodes (table_view table.now)) → IfOk result (λ f. f ≡ link_fault nodes before (item_place (codes "link") index) (table_view table.now)) }
{
    let keys = unknown_fault(&["from", "to", "delay"], table);
    let unknown = at_item(alloc, "link", index, keys)?;
    let from = at_key(
        alloc,
        "link",
        index,
        "from",
        end_fault(table, "from", nodes),
    )?;
    let fan = at_key(alloc, "link", index, "from", fault_if(is_full, WRONG_LINK))?;
    let to = at_key(alloc, "link", index, "to", end_fault(table, "to", nodes))?;
    let ends = at_key(
        alloc,
        "link",
        index,
        "to",
        fault_if(is_loop(table, nodes), WRONG_LINK),
    )?;
    let late = number_fault(true, WRONG_LINK, number_at(table, "delay", 1, 65535));
    let delay = at_key(alloc, "link", index, "delay", late)?;
    Ok(lower(
        unknown,
        lower(from, lower(fan, lower(to, lower(ends, delay)))),
    ))
}

/// So many zeros, and one at least.
fn zeros(alloc: Global, nodes: usize) -> Result<Vec<usize>, AllocError>
    ensures len { IfOk result (λ v. (1 ≤ length v.items) × (nodes ≤ length v.items)) }
    ensures none { IfOk result (λ v. (n : ℕ) → slice_index v.items n ≡ 0) }
{
    let mut counts = Vec::new(alloc);
    counts.push(0)?;
    for _node in 1..nodes {
        counts.push(0)?;
    }
    Ok(counts)
}

/// What is wrong with the links between some of so many nodes. `counts` holds how many links each node has before.
pub(crate) fn links_fault(
    alloc: Global,
    nodes: usize,
    tables: &[&Table],
) -> Result<Option<Refusal>, AllocError>
    ensures { IfOk result (λ f. f ≡ links_fault nodes 0 [] (map (λ t. table_view t.now) tables.now)) }
{
    let mut counts = zeros(alloc, nodes)?;
    let mut fault = None;
    for (index, table) in tables.iter().enumerate() {
        let from = node_or_first(table, "from", nodes);
        let is_full = FAN <= counts[from];
        let found = link_fault(alloc, nodes, index, table, is_full)?;
        fault = lower(fault, found);
        counts[from] += 1;
    }
    Ok(fault)
}
