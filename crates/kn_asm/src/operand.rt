//! The operands of an instruction in a line.

ghost use Rattle.std.specs.Prelude.{◌≡◌, List, map, true, IfOk};
ghost use Rattle.std.specs.Option.{option_map};
ghost use Rattle.std.specs.List.{slice_split, list_all};
ghost use Rattle.kn_asm.specs.Words.{skip, is_word};
ghost use Rattle.kn_asm.specs.Operands.{operand_view, register_of_lem, operand_of_lem, operand_in_lem, is_comma, operands_of_lem, operands_after_lem};

use crate::words::{decimal_of, is_blank, is_name, number_of, skip, split_word, string_of};
use std::alloc::{AllocError, Global};

/// An operand as it stands in a line.
#[derive(Debug, Drop)]
pub enum Operand {
    /// A register, 0 to 15.
    Register(u8),
    Number(u16),
    /// A label.
    Name(String),
}

/// The register that a word names.
fn register_of(word: &[u8]) -> Option<u8>
    ensures { result ≡ register_of_lem word.now }
{
    if word.first() != Some(&b'r') {
        return None;
    }
    match decimal_of(word.split_at(1).1) {
        Some(register) if register < 16 => Some(register as u8),
        _ => None,
    }
}

/// The operand that a word is.
fn operand_of(alloc: Global, word: &[u8]) -> Result<Option<Operand>, AllocError>
    requires { list_all is_word word.now ≡ true }
    ensures { IfOk result (λ o. option_map operand_view o ≡ operand_of_lem word.now) }
{
    if let Some(register) = register_of(word) {
        return Ok(Some(Operand::Register(register)));
    }
    if let Some(number) = number_of(word) {
        return Ok(Some(Operand::Number(number)));
    }
    if !is_name(word) {
        return Ok(None);
    }
    let name = string_of(alloc, word)?;
    Ok(Some(Operand::Name(name)))
}

/// The operand that a text is but for blanks round it.
fn operand_in(alloc: Global, text: &[u8]) -> Result<Option<Operand>, AllocError>
    ensures { IfOk result (λ o. option_map operand_view o ≡ operand_in_lem text.now) }
{
    let (word, rest) = split_word(skip(text));
    if !skip(rest).is_empty() {
        return Ok(None);
    }
    operand_of(alloc, word)
}

/// The parts between commas.
fn parts_of(alloc: Global, text: &[u8]) -> Result<Vec<&[u8]>, AllocError>
    ensures { IfOk result (λ v. map (λ x. x.now) v.items ≡ slice_split is_comma text.now) }
{
    text.split(|byte| *byte == b',').collect(alloc)
}

/// The operands of some texts, or None where one is no operand.
fn operands_of(alloc: Global, texts: &[&[u8]]) -> Result<Option<Vec<Operand>>, AllocError>
    ensures { IfOk result (λ o. option_map (λ v. map operand_view v.items) o ≡ operands_of_lem (map (λ x. x.now) texts.now)) }
{
    let mut operands = Vec::new(alloc);
    for text in texts {
        match operand_in(alloc, text)? {
            None => return Ok(None),
            Some(operand) => match operands.push(operand) {
                Ok(()) => {}
                Err(_) => return Err(AllocError),
            },
        }
    }
    Ok(Some(operands))
}

/// The operands behind a mnemonic, or None where what follows is no list of operands. Only want of memory is an error.
pub fn operands_after(alloc: Global, rest: &[u8]) -> Result<Option<Vec<Operand>>, AllocError>
    ensures { IfOk result (λ o. option_map (λ v. map operand_view v.items) o ≡ operands_after_lem rest.now) }
{
    if skip(rest).is_empty() {
        return Ok(Some(Vec::new(alloc)));
    }
    match rest.first() {
        Some(byte) if is_blank(*byte) => {}
        _ => return Ok(None),
    }
    let parts = parts_of(alloc, rest)?;
    operands_of(alloc, &parts)
}
