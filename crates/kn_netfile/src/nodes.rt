//! The nodes of a file.

ghost use Rattle.std.specs.Prelude.{◌≡◌, ℕ, List, codes, map, option_map, IfOk, is_some, false};
ghost use Rattle.std.specs.List.{list_all};
ghost use Rattle.toml.specs.Data.{as_array, get_member};
ghost use Rattle.toml.specs.View.{view, array_view, table_view};
ghost use Rattle.kn_netfile.specs.Faults.{located, item_place, no_program, wrong_plan};
ghost use Rattle.kn_netfile.specs.Keys.{all_numbers, numbers_in, is_tick, tick_of, is_rising, text_fault, number_at, number_fault};
ghost use Rattle.kn_netfile.specs.Tables.{place_of, are_reboots, reboot_fault, node_fault, nodes_fault};

use crate::keys::{
    MISSING_KEY, NO_PROGRAM, WRONG_KIND, WRONG_PLAN, look, number_at, number_fault, unknown_fault,
};
use crate::names::Names;
use crate::refusal::{Refusal, at_item, at_key, lower};
use std::alloc::{AllocError, Global};
use toml::value::Array;
use toml::{Table, Value};

/// The numbers of an array, where each of its elements is one.
fn all_numbers(alloc: Global, array: &Array) -> Result<Option<Vec<i64>>, AllocError>
    ensures { IfOk result (λ o. option_map (λ v. v.items) o ≡ all_numbers (array_view array.now)) }
{
    let mut numbers = Vec::new(alloc);
    for value in array {
        let Some(number) = value.as_integer() else {
            return Ok(None);
        };
        numbers.push(number)?;
    }
    Ok(Some(numbers))
}

/// The numbers of a value, where it is an array of numbers.
pub(crate) fn numbers_in(alloc: Global, value: &Value) -> Result<Option<Vec<i64>>, AllocError>
    ensures { IfOk result (λ o. option_map (λ v. v.items) o ≡ numbers_in (as_array (view value.now))) }
{
    match value.as_array() {
        None => Ok(None),
        Some(array) => all_numbers(alloc, array),
    }
}

fn is_tick(number: i64) -> bool
    ensures { result ≡ is_tick number }
{
    if number < 0 {
        return false;
    }
    number as u64 <= 4095
}

/// A number as a tick, 0 where it is below 0.
pub(crate) fn tick_of(number: i64) -> u64
    ensures { result ≡ tick_of number }
{
    if number < 0 { 0 } else { number as u64 }
}

fn are_ticks(numbers: &[i64]) -> bool
    ensures { result ≡ list_all is_tick numbers.now }
{
    for number in numbers {
        if !is_tick(*number) {
            return false;
        }
    }
    true
}

/// Whether each tick is below the one behind it.
fn is_rising(numbers: &[i64]) -> bool
    ensures { result ≡ is_rising (map tick_of numbers.now) }
{
    for index in 1..numbers.len() {
        if tick_of(numbers[index - 1]) >= tick_of(numbers[index]) {
            return false;
        }
    }
    true
}

fn are_reboots(numbers: &[i64]) -> bool
    ensures { result ≡ are_reboots numbers.now }
{
    numbers.len() <= 16 && are_ticks(numbers) && is_rising(numbers)
}

/// The number of the fault of the ticks at which a node may reboot.
fn reboot_fault(alloc: Global, table: &Table) -> Result<Option<u8>, AllocError>
    ensures { IfOk result (λ number. (place : List ℕ) → located place number ≡ reboot_fault place (get_member (codes "reboot") (table_view table.now))) }
{
    let Some(value) = look(table, "reboot") else {
        return Ok(None);
    };
    match numbers_in(alloc, value)? {
        None => Ok(Some(WRONG_KIND)),
        Some(numbers) if are_reboots(&numbers) => Ok(None),
        Some(_) => Ok(Some(WRONG_PLAN)),
    }
}

/// The number of the fault of the program of a node, where the programs have these names.
fn program_fault(names: &Names, table: &Table) -> Option<u8>
    ensures { (place : List ℕ) → located place result ≡ text_fault (λ s. is_some (place_of names.now s)) no_program place (get_member (codes "program") (table_view table.now)) }
{
    let Some(program) = look(table, "program") else {
        return Some(MISSING_KEY);
    };
    match program.as_str() {
        None => Some(WRONG_KIND),
        Some(name) if names.place(name).is_some() => None,
        Some(_) => Some(NO_PROGRAM),
    }
}

/// The number of the fault of how many packets a node may lose, or be given twice.
fn count_fault(table: &Table, key: &str) -> Option<u8>
    ensures { (place : List ℕ) → located place result ≡ number_fault false wrong_plan place (number_at 0 15 (get_member key.now (table_view table.now))) }
{
    number_fault(false, WRONG_PLAN, number_at(table, key, 0, 15))
}

/// What is wrong with a node, where the programs have these names.
fn node_fault(
    alloc: Global,
    names: &Names,
    index: usize,
    table: &Table,
) -> Result<Option<Refusal>, AllocError>
    ensures { IfOk result (λ f. f ≡ node_fault names.now (item_place (codes "node") index) (table_view table.now)) }
{
    let keys = unknown_fault(&["program", "loss", "duplicate", "reboot"], table);
    let unknown = at_item(alloc, "node", index, keys)?;
    let program = at_key(alloc, "node", index, "program", program_fault(names, table))?;
    let loss = at_key(alloc, "node", index, "loss", count_fault(table, "loss"))?;
    let duplicate = at_key(
        alloc,
        "node",
        index,
        "duplicate",
        count_fault(table, "duplicate"),
    )?;
    let reboot = at_key(alloc, "node", index, "reboot", reboot_fault(alloc, table)?)?;
    Ok(lower(
        unknown,
        lower(program, lower(loss, lower(duplicate, reboot))),
    ))
}

/// What is wrong with the nodes, where the programs have these names.
pub(crate) fn nodes_fault(
    alloc: Global,
    names: &Names,
    tables: &[&Table],
) -> Result<Option<Refusal>, AllocError>
    ensures { IfOk result (λ f. f ≡ nodes_fault names.now 0 (map (λ t. table_view t.now) tables.now)) }
{
    let mut fault = None;
    for (index, table) in tables.iter().enumerate() {
        let found = node_fault(alloc, names, index, table)?;
        fault = lower(fault, found);
    }
    Ok(fault)
}
