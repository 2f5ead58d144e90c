//! The sections of a report's text: its states, its dstates and its failures, line by line.

ghost use Rattle.std.specs.Prelude.{◌≡◌, ◌+◌, ◌<◌, ◌≤◌, ◌^◌, ℕ, Some, IfOk, IfSome, length};
ghost use Rattle.kn_report.specs.Texts.{dstate_text, state_text, failure_text};
ghost use Rattle.kn_report.specs.Heads.{HeadFits, spelled_head};
ghost use Rattle.kn_report.specs.Sections.{IsDstate, IsFailure, IsFailureOf, IsState, failure_at};
ghost use Rattle.kn_report.specs.Words.{AreRead, IsNextItem};

use crate::forms::{has_columns, has_place};
use crate::line_of::{dstate_of, failure_of, head_of, state_of};
use crate::report::{Columns, FailureLine, Head, StateLine};
use crate::word::until;
use crate::writing::{dstate_line, failure_line, head_line, state_line};
use std::alloc::{AllocError, Global};

/// The head at the front of the text, and what follows its line. None where there is none.
pub(crate) fn next_head(alloc: Global, text: &[u8]) -> Result<Option<(Head, &[u8])>, AllocError>
    ensures item { IfOk result (λ o. IsNextItem spelled_head HeadFits text.now o) }
    ensures few { IfOk result (λ o. IfSome o (λ p. 1 + length p.1.now ≤ length text.now)) }
{
    let (line, _) = until(text, b'\n');
    let Some(head) = head_of(line) else {
        return Ok(None);
    };
    let spelled = head_line(alloc, &head)?;
    match text.strip_prefix(spelled.as_bytes()) {
        None => Ok(None),
        Some(after) => Ok(Some((head, after))),
    }
}

/// The state of this number at the front of the text, and what follows its line. None where there is none.
fn next_state(
    alloc: Global,
    number: usize,
    text: &[u8],
) -> Result<Option<(StateLine, &[u8])>, AllocError>
    ensures item { IfOk result (λ o. IsNextItem (state_text number) (IsState number) text.now o) }
    ensures few { IfOk result (λ o. IfSome o (λ p. 1 + length p.1.now ≤ length text.now)) }
{
    let (line, _) = until(text, b'\n');
    let Some(state) = state_of(alloc, line)? else {
        return Ok(None);
    };
    let spelled = state_line(alloc, number, &state)?;
    match text.strip_prefix(spelled.as_bytes()) {
        None => Ok(None),
        Some(after) => Ok(Some((state, after))),
    }
}

/// The states at the front of the text, numbered from 0, and what follows them.
pub(crate) fn read_states(alloc: Global, text: &[u8]) -> Result<(Vec<StateLine>, &[u8]), AllocError>
    ensures read { IfOk result (λ p. AreRead state_text IsState text.now p.0.items p.1.now) }
    ensures few { IfOk result (λ p. length p.0.items + length p.1.now ≤ length text.now) }
{
    let mut states = Vec::new(alloc);
    let mut rest = text;
    while let Some((state, after)) = next_state(alloc, states.len(), rest)? {
        states.push(state)?;
        rest = after;
    }
    Ok((states, rest))
}

/// The dstate of this number at the front of the text, where there are so many states and nodes, and what follows its
/// line. None where there is none.
fn next_dstate(
    alloc: Global,
    number: usize,
    states: usize,
    nodes: u32,
    text: &[u8],
) -> Result<Option<(Columns, &[u8])>, AllocError>
    ensures item { IfOk result (λ o. IsNextItem (dstate_text number) (IsDstate states nodes number) text.now o) }
    ensures few { IfOk result (λ o. IfSome o (λ p. 1 + length p.1.now ≤ length text.now)) }
{
    let (line, _) = until(text, b'\n');
    let Some(columns) = dstate_of(alloc, line)? else {
        return Ok(None);
    };
    if !has_columns(&columns, states, nodes) {
        return Ok(None);
    }
    let spelled = dstate_line(alloc, number, &columns)?;
    match text.strip_prefix(spelled.as_bytes()) {
        None => Ok(None),
        Some(after) => Ok(Some((columns, after))),
    }
}

/// The dstates at the front of the text, numbered from 0, and what follows them.
pub(crate) fn read_dstates(
    alloc: Global,
    states: usize,
    nodes: u32,
    text: &[u8],
) -> Result<(Vec<Columns>, &[u8]), AllocError>
    ensures read { IfOk result (λ p. AreRead dstate_text (IsDstate states nodes) text.now p.0.items p.1.now) }
    ensures few { IfOk result (λ p. length p.0.items + length p.1.now ≤ length text.now) }
{
    let mut dstates = Vec::new(alloc);
    let mut rest = text;
    while let Some((columns, after)) = next_dstate(alloc, dstates.len(), states, nodes, rest)? {
        dstates.push(columns)?;
        rest = after;
    }
    Ok((dstates, rest))
}

/// The line of this failed state at the front of the text, where these dstates stand above it, and what follows it. None
/// where there is none.
fn next_failure<'a>(
    alloc: Global,
    state: usize,
    dstates: &[Columns],
    text: &'a [u8],
) -> Result<Option<(FailureLine, &'a [u8])>, AllocError>
    ensures item { IfOk result (λ o. IsNextItem failure_text (IsFailureOf dstates.now (Some state)) text.now o) }
    ensures few { IfOk result (λ o. IfSome o (λ p. 1 + length p.1.now ≤ length text.now)) }
{
    let (line, _) = until(text, b'\n');
    let Some(reach) = failure_of(alloc, line)? else {
        return Ok(None);
    };
    if !has_place(dstates, &reach) {
        return Ok(None);
    }
    let failure = FailureLine { state, reach };
    let spelled = failure_line(alloc, &failure)?;
    match text.strip_prefix(spelled.as_bytes()) {
        None => Ok(None),
        Some(after) => Ok(Some((failure, after))),
    }
}

/// The lines of these failed states at the front of the text, up to the first one that is not there, and what follows
/// them.
pub(crate) fn read_failures<'a>(
    alloc: Global,
    failed: &[usize],
    dstates: &[Columns],
    text: &'a [u8],
) -> Result<(Vec<FailureLine>, &'a [u8]), AllocError>
    ensures read { IfOk result (λ p. AreRead failure_at (IsFailure dstates.now failed.now) text.now p.0.items p.1.now) }
    ensures few { IfOk result (λ p. length p.0.items + length p.1.now ≤ length text.now) }
{
    let mut failures = Vec::new(alloc);
    let mut rest = text;
    for state in failed {
        match next_failure(alloc, *state, dstates, rest)? {
            None => return Ok((failures, rest)),
            Some((failure, after)) => {
                failures.push(failure)?;
                rest = after;
            }
        }
    }
    Ok((failures, rest))
}
