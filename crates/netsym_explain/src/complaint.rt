//! What is wrong with a refused file, in sentences.

use crate::keys::TableKind;
use crate::place::Place;
use crate::shown::{counted, shown};
use crate::texts::{asm_sentence, code_sentence};
use std::alloc::{AllocError, Global};
use toml::{Table, Value};

/// The numbers of the faults whose sentences are of their own.
const TOO_LONG: u8 = 1;

const NO_DOCUMENT: u8 = 2;

const UNKNOWN_KEY: u8 = 3;

const MISSING_KEY: u8 = 4;

const WRONG_PROGRAM: u8 = 8;

/// The line in which a place of the file stands, where it is text.
fn line_at(bytes: &[u8], place: usize) -> &str {
    let before = bytes.iter().take(place).filter(|b| **b == b'\n').count();
    let line = bytes.split(|b| *b == b'\n').nth(before).unwrap_or(b"");
    std::str::from_utf8(line).unwrap_or("")
}

/// Why a file is no document, and the line.
fn document_sentence(alloc: Global, bytes: &[u8]) -> Result<String, AllocError> {
    let error = match toml::table_from_slice(alloc, bytes) {
        Ok(_) => return Ok(String::new(alloc)),
        Err(error) => error,
    };
    match error.span() {
        None => Err(AllocError),
        Some(span) => {
            let line = line_at(bytes, span.start);
            format!(in alloc; "It is no TOML document: {error}    {line}\n")
        }
    }
}

/// The keys that a table has and may not have, and those that it may have.
fn unknown_sentence(alloc: Global, place: &Place<'_>, table: &Table) -> Result<String, AllocError> {
    let mut sentence = String::new(alloc);
    for (key, _value) in table.iter() {
        if !place.kind.has(key) {
            sentence.push_str(&format!(in alloc; "The key {key:?} is not known here.\n")?)?;
        }
    }
    sentence.push_str("The keys here are")?;
    for rule in place.kind.keys() {
        sentence.push_str(" ")?;
        sentence.push_str(rule.name)?;
    }
    sentence.push_str(".\n")?;
    Ok(sentence)
}

/// How many elements an array of the outermost table has.
fn array_length(document: &Table, key: &str) -> usize {
    match document.get(key) {
        Some(value) => match value.as_array() {
            Some(array) => array.len(),
            None => 0,
        },
        None => 0,
    }
}

/// What a key that names a node or a program may be in this file.
fn names_sentence(
    alloc: Global,
    place: &Place<'_>,
    document: &Table,
) -> Result<String, AllocError> {
    if place.kind == TableKind::Node && place.key == "program" {
        return programs_sentence(alloc, document);
    }
    let is_link = place.kind == TableKind::Link && (place.key == "from" || place.key == "to");
    let is_input = place.kind == TableKind::Input && place.key == "node";
    let is_states = place.kind == TableKind::Top && place.key == "states";
    if !is_link && !is_input && !is_states {
        return Ok(String::new(alloc));
    }
    let nodes = counted(alloc, array_length(document, "node"), "node")?;
    format!(in alloc; "The file has {nodes}, counted from 0.\n")
}

/// The names of the programs.
fn programs_sentence(alloc: Global, document: &Table) -> Result<String, AllocError> {
    let mut sentence = String::from_str(alloc, "The programs are")?;
    let programs = match document.get("program") {
        Some(value) => value.as_array(),
        None => None,
    };
    if let Some(programs) = programs {
        for program in programs {
            if let Some(name) = program.get("name").and_then(Value::as_str) {
                sentence.push_str(" ")?;
                sentence.push_str(name)?;
            }
        }
    }
    sentence.push_str(".\n")?;
    Ok(sentence)
}

/// What stands at a key, and what may stand there.
fn value_sentence(
    alloc: Global,
    place: &Place<'_>,
    document: &Table,
) -> Result<String, AllocError> {
    let allowed = place.kind.allowed(place.key);
    let key = place.key;
    let mut sentence = match place.value_in(document) {
        Some(value) => {
            let stands = shown(alloc, value)?;
            format!(in alloc; "At {key} stands {stands}. It must be {allowed}.\n")?
        }
        None => format!(in alloc; "The key {key} is missing. It must be {allowed}.\n")?,
    };
    sentence.push_str(&names_sentence(alloc, place, document)?)?;
    Ok(sentence)
}

/// What is wrong with a program.
fn program_sentence(
    alloc: Global,
    place: &Place<'_>,
    document: &Table,
) -> Result<String, AllocError> {
    let text = match place.value_in(document) {
        Some(value) => value.as_str().unwrap_or(""),
        None => "",
    };
    let has_both = match place.table_in(document) {
        Some(table) => table.get("code").is_some() && table.get("asm").is_some(),
        None => false,
    };
    match place.key {
        "code" | "asm" if has_both => {
            format!(in alloc; "A program has code or asm, and here are both.\n")
        }
        "code" => code_sentence(alloc, text),
        "asm" => asm_sentence(alloc, text),
        _ => value_sentence(alloc, place, document),
    }
}

/// What is wrong at a place of a document.
fn document_fault(
    alloc: Global,
    number: u8,
    place: &Place<'_>,
    document: &Table,
) -> Result<String, AllocError> {
    match (number, place.table_in(document)) {
        (UNKNOWN_KEY, Some(table)) => unknown_sentence(alloc, place, table),
        (WRONG_PROGRAM, _) => program_sentence(alloc, place, document),
        _ => value_sentence(alloc, place, document),
    }
}

/// What is wrong with a file that has this fault at this place.
fn fault_sentence(
    alloc: Global,
    bytes: &[u8],
    number: u8,
    place: &str,
) -> Result<String, AllocError> {
    match number {
        TOO_LONG => format!(in alloc; "It has more than 1048576 bytes.\n"),
        NO_DOCUMENT => document_sentence(alloc, bytes),
        _ => match toml::table_from_slice(alloc, bytes) {
            Ok(document) => document_fault(alloc, number, &Place::of_text(place), &document),
            Err(_) => Err(AllocError),
        },
    }
}

/// The sentences on a file that has this fault at this place.
pub fn complaint(
    alloc: Global,
    bytes: &[u8],
    number: u8,
    place: &str,
) -> Result<String, AllocError> {
    let mut text = format!(in alloc; "The file is refused: F{number} {place}\n")?;
    text.push_str(&fault_sentence(alloc, bytes, number, place)?)?;
    Ok(text)
}
