//! The programs of a file.

ghost use Rattle.std.specs.Prelude.{◌≡◌, ◌++◌, ℕ, List, [], codes, map, IfOk, OnOk, Some, is_some};
ghost use Rattle.std.specs.List.{cons_option};
ghost use Rattle.std.specs.Result.{result_ok};
ghost use Rattle.toml.specs.Data.{as_str, get_member};
ghost use Rattle.toml.specs.View.{view, table_view};
ghost use Rattle.kn_code.specs.Code.{Code};
ghost use Rattle.kn_code.specs.Decoding.{code_at};
ghost use Rattle.kn_netfile.specs.Faults.{located, item_place, wrong_program};
ghost use Rattle.kn_netfile.specs.Keys.{text_fault};
ghost use Rattle.kn_netfile.specs.Tables.{program_of_code, program_of_asm, program_at, is_new_name, code_fault, asm_fault, program_fault, programs_fault, programs_of, names_of};

use crate::keys::{
    MISSING_KEY, WRONG_KIND, WRONG_PROGRAM, look, text_at, text_or_none, unknown_fault,
};
use crate::names::{Names, is_new_name};
use crate::refusal::{Refusal, at_item, at_key, lower};
use hex::FromHexError;
use kn_asm::{AsmFault, assemble};
use kn_code::{CodeFault, Program, decode};
use std::alloc::{AllocError, Global};
use toml::Table;

/// The programs of some tables, their names, and what is wrong with them.
#[derive(Drop)]
pub(crate) struct Programs {
    pub(crate) fault: Option<Refusal>,
    pub(crate) programs: Vec<Program>,
    pub(crate) names: Names,
}

/// The program that bytes spell, if any.
fn program_of_bytes(alloc: Global, bytes: &[u8]) -> Result<Option<Program>, AllocError>
    ensures { IfOk result (λ p. p ≡ result_ok (code_at bytes.now)) }
{
    match decode(alloc, bytes) {
        Ok(program) => Ok(Some(program)),
        Err(CodeFault::Memory(_)) => Err(AllocError),
        Err(_) => Ok(None),
    }
}

/// The program whose bytecode a text is in hexadecimal digits, if any.
fn program_of_code(alloc: Global, text: &str) -> Result<Option<Program>, AllocError>
    ensures { IfOk result (λ p. p ≡ program_of_code text.now) }
{
    match hex::decode(alloc, text) {
        Ok(bytes) => program_of_bytes(alloc, &bytes),
        Err(FromHexError::OutOfMemory) => Err(AllocError),
        Err(_) => Ok(None),
    }
}

/// The program that a text is assembled to, if any.
fn program_of_asm(alloc: Global, text: &str) -> Result<Option<Program>, AllocError>
    ensures { IfOk result (λ p. p ≡ program_of_asm text.now) }
{
    match assemble(alloc, text) {
        Ok(program) => Ok(Some(program)),
        Err(AsmFault::Memory(_)) => Err(AllocError),
        Err(AsmFault::Refused { .. }) => Ok(None),
    }
}

/// The program of a table, if it gives one.
fn program_at(alloc: Global, table: &Table) -> Result<Option<Program>, AllocError>
    ensures { IfOk result (λ p. p ≡ program_at (table_view table.now)) }
{
    match look(table, "code") {
        Some(code) => program_of_code(alloc, text_or_none(code)),
        None => match look(table, "asm") {
            Some(asm) => program_of_asm(alloc, text_or_none(asm)),
            None => Ok(None),
        },
    }
}

/// The number of the fault of the name of a program after those of some names.
fn name_fault(names: &Names, table: &Table) -> Option<u8>
    ensures { (place : List ℕ) → located place result ≡ text_fault (is_new_name names.now) wrong_program place (get_member (codes "name") (table_view table.now)) }
{
    let Some(name) = look(table, "name") else {
        return Some(MISSING_KEY);
    };
    match name.as_str() {
        None => Some(WRONG_KIND),
        Some(text) if is_new_name(names, text) => None,
        Some(_) => Some(WRONG_PROGRAM),
    }
}

/// The number of the fault of the code of a table that gives a program or none.
fn code_fault(table: &Table, is_given: bool) -> Option<u8>
    requires { is_given ≡ is_some (program_at (table_view table.now)) }
    ensures { (place : List ℕ) → located place result ≡ code_fault place (get_member (codes "code") (table_view table.now)) (get_member (codes "asm") (table_view table.now)) }
{
    let has_asm = look(table, "asm").is_some();
    match look(table, "code") {
        None if has_asm => None,
        None => Some(MISSING_KEY),
        Some(code) => match code.as_str() {
            None => Some(WRONG_KIND),
            Some(_) if !has_asm && is_given => None,
            Some(_) => Some(WRONG_PROGRAM),
        },
    }
}

/// The number of the fault of the assembler text of a table that gives a program or none.
fn asm_fault(table: &Table, is_given: bool) -> Option<u8>
    requires { is_given ≡ is_some (program_at (table_view table.now)) }
    ensures { (place : List ℕ) → located place result ≡ asm_fault place (get_member (codes "code") (table_view table.now)) (get_member (codes "asm") (table_view table.now)) }
{
    let has_code = look(table, "code").is_some();
    match look(table, "asm") {
        None => None,
        Some(asm) => match asm.as_str() {
            None => Some(WRONG_KIND),
            Some(_) if has_code || is_given => None,
            Some(_) => Some(WRONG_PROGRAM),
        },
    }
}

/// What is wrong with a program after those of some names, where its table gives a program or none.
fn program_fault(
    alloc: Global,
    names: &Names,
    index: usize,
    table: &Table,
    is_given: bool,
) -> Result<Option<Refusal>, AllocError>
    requires { is_given ≡ is_some (program_at (table_view table.now)) }
    ensures { IfOk result (λ f. f ≡ program_fault (item_place (codes "program") index) names.now (table_view table.now)) }
{
    let keys = unknown_fault(&["name", "code", "asm"], table);
    let unknown = at_item(alloc, "program", index, keys)?;
    let name = at_key(alloc, "program", index, "name", name_fault(names, table))?;
    let code = at_key(alloc, "program", index, "code", code_fault(table, is_given))?;
    let asm = at_key(alloc, "program", index, "asm", asm_fault(table, is_given))?;
    Ok(lower(unknown, lower(name, lower(code, asm))))
}

/// A program at the end of the programs, where there is one.
fn push_given(programs: &mut Vec<Program>, program: Option<Program>) -> Result<(), AllocError>
    ensures { OnOk result ((rest : List Code) → programs.new.items ++ rest ≡ programs.old.items ++ cons_option program rest) }
{
    if let Some(program) = program {
        programs.push(program)?;
    }
    Ok(())
}

/// The programs of some tables.
pub(crate) fn programs_of(alloc: Global, tables: &[&Table]) -> Result<Programs, AllocError>
    ensures fault { IfOk result (λ p. p.fault ≡ programs_fault 0 [] (map (λ t. table_view t.now) tables.now)) }
    ensures programs { IfOk result (λ p. p.programs.items ≡ programs_of (map (λ t. table_view t.now) tables.now)) }
    ensures names { IfOk result (λ p. p.names ≡ names_of (map (λ t. table_view t.now) tables.now)) }
{
    let mut fault = None;
    let mut programs = Vec::new(alloc);
    let mut names = Names::new(alloc);
    for (index, table) in tables.iter().enumerate() {
        let program = program_at(alloc, table)?;
        let found = program_fault(alloc, &names, index, table, program.is_some())?;
        fault = lower(fault, found);
        push_given(&mut programs, program)?;
        names.push(alloc, text_at(table, "name"))?;
    }
    Ok(Programs {
        fault,
        programs,
        names,
    })
}
