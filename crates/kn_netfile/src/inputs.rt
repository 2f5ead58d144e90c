//! The inputs of a file.

ghost use Rattle.std.specs.Prelude.{◌≡◌, ℕ, List, None, codes, map, option_map, true, IfOk};
ghost use Rattle.toml.specs.Data.{get_member};
ghost use Rattle.toml.specs.View.{table_view};
ghost use Rattle.kn_netfile.specs.Faults.{located, fault_if, item_place, wrong_input};
ghost use Rattle.kn_netfile.specs.Keys.{number_at, number_fault};
ghost use Rattle.kn_netfile.specs.Tables.{node_number, input_at, is_not_behind, input_fault, inputs_fault};

use crate::keys::{WRONG_INPUT, fault_if, number_at, number_fault, number_of, unknown_fault};
use crate::links::{node_number, node_or_first};
use crate::refusal::{Refusal, at_item, at_key, lower};
use std::alloc::{AllocError, Global};
use toml::Table;

/// Whether an input of one of so many nodes does not come behind the one before, in order of node and index.
fn is_not_behind(nodes: usize, previous: Option<&Table>, table: &Table) -> bool
    ensures { result ≡ is_not_behind (option_map (λ t. input_at nodes (table_view t.now)) previous.entry) (input_at nodes (table_view table.now)) }
{
    let Some(previous) = previous else {
        return false;
    };
    let before = node_or_first(previous, "node", nodes);
    let node = node_or_first(table, "node", nodes);
    let before_index = number_of(previous, "index", 0, 65535, 0);
    let index = number_of(table, "index", 0, 65535, 0);
    !(before < node || before == node && before_index < index)
}

/// The number of the fault of an index or a word.
fn word_fault(table: &Table, key: &str) -> Option<u8>
    ensures { (place : List ℕ) → located place result ≡ number_fault true wrong_input place (number_at 0 65535 (get_member key.now (table_view table.now))) }
{
    number_fault(true, WRONG_INPUT, number_at(table, key, 0, 65535))
}

/// What is wrong with an input of one of so many nodes, after the one before.
fn input_fault(
    alloc: Global,
    nodes: usize,
    index: usize,
    previous: Option<&Table>,
    table: &Table,
) -> Result<Option<Refusal>, AllocError>
    ensures { IfOk result (λ f. f ≡ input_fault nodes (option_map (λ t. input_at nodes (table_view t.now)) previous.entry) (item_place (codes "input") index) (table_view table.now)) }
{
    let keys = unknown_fault(&["node", "index", "value"], table);
    let unknown = at_item(alloc, "input", index, keys)?;
    let no_node = number_fault(true, WRONG_INPUT, node_number(table, "node", nodes));
    let node = at_key(alloc, "input", index, "node", no_node)?;
    let number = at_key(alloc, "input", index, "index", word_fault(table, "index"))?;
    let back = fault_if(is_not_behind(nodes, previous, table), WRONG_INPUT);
    let order = at_key(alloc, "input", index, "index", back)?;
    let value = at_key(alloc, "input", index, "value", word_fault(table, "value"))?;
    Ok(lower(unknown, lower(node, lower(number, lower(order, value)))))
}

/// What is wrong with the inputs of some of so many nodes.
pub(crate) fn inputs_fault(
    alloc: Global,
    nodes: usize,
    tables: &[&Table],
) -> Result<Option<Refusal>, AllocError>
    ensures { IfOk result (λ f. f ≡ inputs_fault nodes 0 None (map (λ t. table_view t.now) tables.now)) }
{
    let mut fault = None;
    let mut previous: Option<&Table> = None;
    for (index, table) in tables.iter().enumerate() {
        let found = input_fault(alloc, nodes, index, previous, table)?;
        fault = lower(fault, found);
        previous = Some(*table);
    }
    Ok(fault)
}
