//! Arrays of tables.

ghost use Rattle.std.specs.Prelude.{◌≡◌, ℕ, ◌||◌, nat_lt, List, [], map, option_map, IfOk};
ghost use Rattle.toml.specs.Data.{as_array, get_member};
ghost use Rattle.toml.specs.View.{view, array_view, table_view};
ghost use Rattle.kn_netfile.specs.Faults.{located, fault_if, out_of_range};
ghost use Rattle.kn_netfile.specs.Keys.{all_tables, tables_in, tables_at, tables_fault};

use crate::keys::{MISSING_KEY, OUT_OF_RANGE, WRONG_KIND, fault_if, look};
use std::alloc::{AllocError, Global};
use toml::value::Array;
use toml::{Table, Value};

/// The tables of an array, none where there is no array of tables, and the number of the fault of the array.
#[derive(Drop)]
pub(crate) struct TablesAt<'a> {
    pub(crate) tables: Vec<&'a Table>,
    pub(crate) fault: Option<u8>,
}

/// The tables of an array, where each of its elements is one.
fn all_tables<'a>(alloc: Global, array: &'a Array) -> Result<Option<Vec<&'a Table>>, AllocError>
    ensures { IfOk result (λ o. option_map (λ v. map (λ t. table_view t.now) v.items) o ≡ all_tables (array_view array.now)) }
{
    let mut tables = Vec::new(alloc);
    for value in array {
        let Some(table) = value.as_table() else {
            return Ok(None);
        };
        tables.push(table)?;
    }
    Ok(Some(tables))
}

/// The tables of a value, where it is an array of tables.
fn tables_in<'a>(alloc: Global, value: &'a Value) -> Result<Option<Vec<&'a Table>>, AllocError>
    ensures { IfOk result (λ o. option_map (λ v. map (λ t. table_view t.now) v.items) o ≡ tables_in (as_array (view value.now))) }
{
    match value.as_array() {
        None => Ok(None),
        Some(array) => all_tables(alloc, array),
    }
}

fn no_tables<'a>(alloc: Global, fault: Option<u8>) -> TablesAt<'a>
    ensures tables { result.tables.items ≡ [] }
    ensures fault { result.fault ≡ fault }
{
    TablesAt {
        tables: Vec::new(alloc),
        fault,
    }
}

/// The tables of the array at a key, of which there may be from `least` to `most`.
pub(crate) fn tables_at<'a>(
    alloc: Global,
    table: &'a Table,
    key: &str,
    least: usize,
    most: usize,
) -> Result<TablesAt<'a>, AllocError>
    ensures tables { IfOk result (λ e. map (λ t. table_view t.now) e.tables.items ≡ tables_at (get_member key.now (table_view table.now))) }
    ensures fault { IfOk result (λ e. (place : List ℕ) → located place e.fault ≡ tables_fault least most place (get_member key.now (table_view table.now))) }
{
    let Some(value) = look(table, key) else {
        return Ok(no_tables(alloc, fault_if(0 < least, MISSING_KEY)));
    };
    match tables_in(alloc, value)? {
        None => Ok(no_tables(alloc, Some(WRONG_KIND))),
        Some(tables) => {
            let count = tables.len();
            let fault = fault_if(count < least || most < count, OUT_OF_RANGE);
            Ok(TablesAt { tables, fault })
        }
    }
}
