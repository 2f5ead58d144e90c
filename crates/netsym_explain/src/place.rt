//! Places in a network file, and what stands there.

use crate::keys::TableKind;
use toml::{Table, Value};

/// A table of a file, by the number of its element, and a key of it; the key is empty where the table itself is meant.
#[derive(Clone, Copy, Debug)]
pub struct Place<'a> {
    pub kind: TableKind,
    pub index: usize,
    pub key: &'a str,
}

/// The table that `program[0]` or the like names; the outermost one where it is no element of an array.
fn element_of(text: &str) -> Option<(TableKind, usize)> {
    let (name, rest) = text.split_once('[')?;
    let kind = TableKind::of_array(name)?;
    let index = rest.strip_suffix(']')?.parse::<usize>().ok()?;
    Some((kind, index))
}

impl Place<'_> {
    /// The place that a text as `ticks`, `program[0].asm` or `node[2]` names.
    pub fn of_text(text: &str) -> Place<'_> {
        if let Some((element, key)) = text.split_once('.') {
            if let Some((kind, index)) = element_of(element) {
                return Place { kind, index, key };
            }
        }
        match element_of(text) {
            Some((kind, index)) => Place {
                kind,
                index,
                key: "",
            },
            None => Place {
                kind: TableKind::Top,
                index: 0,
                key: if text == "top" { "" } else { text },
            },
        }
    }

    /// The table, where the document has it.
    pub fn table_in<'t>(&self, document: &'t Table) -> Option<&'t Table> {
        match self.kind.array() {
            None => Some(document),
            Some(name) => document.get(name)?.as_array()?.get(self.index)?.as_table(),
        }
    }

    /// What stands at the key, where anything does.
    pub fn value_in<'t>(&self, document: &'t Table) -> Option<&'t Value> {
        self.table_in(document)?.get(self.key)
    }
}
