//! The lines of a text.

ghost use Rattle.std.specs.Prelude.{◌≡◌, ◌≤◌, ◌==◌, if◌then◌else◌, List, map, drop, slice_index, true, None, Some, IfOk};
ghost use Rattle.std.specs.List.{slice_split, list_all};
ghost use Rattle.std.specs.Option.{option_map};
ghost use Rattle.kn_asm.specs.Words.{is_word};
ghost use Rattle.kn_asm.specs.Meaning.{body_view};
ghost use Rattle.kn_asm.specs.Lines.{content_in_lem, unlabelled, labelled_lem, line_at_lem, line_of_lem, is_instr_lem, counted_lem, target_of_lem, instr_of_content, is_feed, lines_of_lem};
ghost use Rattle.kn_asm.specs.Assembling.{wrong_in, is_open, ends_lem};

use crate::fault::AsmCause;
use crate::meaning::{Body, meaning};
use crate::operand::operands_after;
use crate::words::{is_name, skip, split_word, string_of, uncommented};
use kn_code::Instr;
use std::alloc::{AllocError, Global};
use std::marker::Model;

/// A line of a text: its label, and what follows it.
#[derive(Debug, Drop)]
pub struct Line {
    pub label: Option<String>,
    pub body: Body,
}

impl Model for Line {
    ghost use Rattle.std.specs.Prelude.{string_bytes};
    ghost use Rattle.std.specs.Option.{option_map};
    ghost use Rattle.kn_asm.specs.Meaning.{body_view};
    ghost use Rattle.kn_asm.specs.Lines.{Line};

    ghost Value = { Line };

    ghost view = { λ l. record { label = option_map string_bytes l.label; content = body_view l.body } };
}

impl Line {
    /// Its label, if it has one.
    pub fn label(&self) -> Option<&str>
        ensures { option_map (λ s. s.now) result ≡ self.now.label }
    {
        match &self.label {
            Some(name) => Some(name.as_str()),
            None => None,
        }
    }

    /// The label that its instruction has as its target.
    pub fn target(&self) -> Option<&str>
        ensures { option_map (λ s. s.now) result ≡ target_of_lem self.now.content }
    {
        match &self.body {
            Body::Does(_, Some(name)) => Some(name.as_str()),
            _ => None,
        }
    }

    /// Its instruction, with 0 in place of its target.
    pub fn instr(&self) -> Option<Instr>
        ensures { result ≡ instr_of_content self.now.content }
    {
        match &self.body {
            Body::Does(instr, _) => Some(*instr),
            _ => None,
        }
    }

    /// What is wrong with it alone: `Syntax`, `Mnemonic` or `Operand`.
    pub fn wrong(&self) -> Option<AsmCause>
        ensures { result ≡ wrong_in self.now.content }
    {
        match &self.body {
            Body::Wrong(cause) => Some(*cause),
            _ => None,
        }
    }

    /// Whether it counts as an instruction.
    pub fn is_instr(&self) -> bool
        ensures { result ≡ is_instr_lem self.now.content }
    {
        match &self.body {
            Body::Nothing | Body::Wrong(AsmCause::Syntax) => false,
            Body::Wrong(_) | Body::Does(_, _) => true,
        }
    }

    /// Whether an instruction must follow it.
    pub fn is_open(&self) -> bool
        ensures { result ≡ is_open self.now.label self.now.content }
    {
        match &self.body {
            Body::Nothing => self.label.is_some(),
            Body::Wrong(_) => false,
            Body::Does(instr, _) => !ends(*instr),
        }
    }
}

/// Whether no instruction is needed behind one.
fn ends(instr: Instr) -> bool
    ensures { result ≡ ends_lem instr }
{
    match instr {
        Instr::Jmp { .. } | Instr::Ret | Instr::Halt => true,
        _ => false,
    }
}

/// How many instructions a line counts as.
pub fn counted(line: &Line) -> usize
    ensures count { result ≡ counted_lem line.now.content }
    ensures most { result ≤ 1 }
{
    if line.is_instr() { 1 } else { 0 }
}

/// A mnemonic and its operands, or nothing.
fn body_in(alloc: Global, text: &[u8]) -> Result<Body, AllocError>
    ensures { IfOk result (λ b. body_view b ≡ content_in_lem text.now) }
{
    if text.is_empty() {
        return Ok(Body::Nothing);
    }
    let (word, rest) = split_word(text);
    if !is_name(word) {
        return Ok(Body::Wrong(AsmCause::Syntax));
    }
    match operands_after(alloc, rest)? {
        None => Ok(Body::Wrong(AsmCause::Syntax)),
        Some(operands) => meaning(alloc, word, &operands),
    }
}

fn unlabelled(body: Body) -> Line
    ensures { result ≡ unlabelled (body_view body) }
{
    Line { label: None, body }
}

/// The line of a label and what follows it. A line that is not of the form of a line has no label.
fn labelled(alloc: Global, label: &[u8], body: Body) -> Result<Line, AllocError>
    requires { list_all is_word label.now ≡ true }
    ensures { IfOk result (λ l. l ≡ labelled_lem label.now (body_view body)) }
{
    if let Body::Wrong(AsmCause::Syntax) = &body {
        return Ok(unlabelled(body));
    }
    match string_of(alloc, label) {
        Ok(name) => Ok(Line {
            label: Some(name),
            body,
        }),
        Err(e) => Err(e),
    }
}

/// What follows the ':' at the front.
fn after_colon(rest: &[u8]) -> Option<&[u8]>
    ensures { option_map (λ x. x.now) result ≡ (if slice_index rest.now 0 == 58 then Some (drop 1 rest.now) else None) }
{
    match rest.first() {
        Some(byte) if *byte == b':' => Some(rest.split_at(1).1),
        _ => None,
    }
}

/// The line of a text without blanks at its front and without a comment.
fn line_at(alloc: Global, text: &[u8]) -> Result<Line, AllocError>
    ensures { IfOk result (λ l. l ≡ line_at_lem text.now) }
{
    let (word, rest) = split_word(text);
    let Some(after) = after_colon(rest) else {
        return Ok(unlabelled(body_in(alloc, text)?));
    };
    if !is_name(word) {
        return Ok(unlabelled(Body::Wrong(AsmCause::Syntax)));
    }
    let body = body_in(alloc, skip(after))?;
    match labelled(alloc, word, body) {
        Ok(line) => Ok(line),
        Err(e) => Err(e),
    }
}

/// A line from its bytes.
#[tactic(auto, unfolding(crate::specs::Lines::line_of_lem))]
fn line_of(alloc: Global, bytes: &[u8]) -> Result<Line, AllocError>
    ensures { IfOk result (λ l. l ≡ line_of_lem bytes.now) }
{
    line_at(alloc, skip(uncommented(bytes)))
}

/// The parts between line feeds.
fn rows_of(alloc: Global, text: &[u8]) -> Result<Vec<&[u8]>, AllocError>
    ensures { IfOk result (λ v. map (λ x. x.now) v.items ≡ slice_split is_feed text.now) }
{
    text.split(|byte| *byte == b'\n').collect(alloc)
}

fn read_rows(alloc: Global, rows: &[&[u8]]) -> Result<Vec<Line>, AllocError>
    ensures { IfOk result (λ v. v.items ≡ map line_of_lem (map (λ x. x.now) rows.now)) }
{
    let mut lines = Vec::new(alloc);
    for row in rows {
        let line = line_of(alloc, row)?;
        match lines.push(line) {
            Ok(()) => {}
            Err(_) => return Err(AllocError),
        }
    }
    Ok(lines)
}

/// The lines of a text. Only want of memory is an error.
pub fn lines_of(alloc: Global, text: &str) -> Result<Vec<Line>, AllocError>
    ensures { IfOk result (λ v. v.items ≡ lines_of_lem text.now) }
{
    let rows = rows_of(alloc, text.as_bytes())?;
    read_rows(alloc, &rows)
}
