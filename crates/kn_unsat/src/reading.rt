//! Reading the text of logs.

ghost use Rattle.std.specs.Prelude.{◌≡◌, ◌≢◌, ◌<◌, ◌≤◌, ◌+◌, ◌^◌, ◌∷◌, [], ◌++◌, ℕ, List, Some, IfOk, IfSome, OnOk, IsErrOf, MatchOption, flat_map};
ghost use Rattle.std.specs.Fmt.{decimal};
ghost use Rattle.std.specs.List.{AllByRecursion};
ghost use Rattle.kn_cnf.specs.declared.clauses.Lit.{Lit};
ghost use Rattle.kn_cnf.specs.Formulas.{Step};
ghost use Rattle.kn_unsat.specs.Text.{literal_text, literal_word, hint_word, hints_text, body_text, line_text, text_of, IsNumbered, IsBadAt};
ghost use Rattle.kn_unsat.specs.Words.{Without, BeginsWith, IsLiteralsRead, IsHintsRead, IsLineRead};
ghost use Rattle.kn_unsat.specs.Reading.{IsReadAs};

use crate::writing::line_of;
use kn_cnf::{Line, Lit, Log};
use std::alloc::{AllocError, Global};
use thiserror::Error;

/// Why a text was not read as a log.
#[derive(Debug, Drop, Error)]
pub enum LogFault {
    /// A line is not of the form that `log_text` writes; this is the number, from 1, of the first one.
    #[error("line {line} is no line of a log")]
    Bad { line: usize },
    /// Memory for the log was wanting.
    #[error("out of memory")]
    Memory(AllocError),
}

/// The log that the text spells. Any log's text is read as that log, unless memory is wanting; the text of no line is
/// the log without lines. `Bad` names the first line that is not of the form.
pub fn read_log(alloc: Global, text: &str) -> Result<Log, LogFault>
    // What is read has this text.
    ensures found { IfOk result (λ log. text.now ≡ text_of log) }
    // What has this text is read, unless memory is wanting.
    ensures only { (log : List Step) → AllByRecursion IsNumbered log → text.now ≡ text_of log → IsReadAs log result }
    // Which fault it is.
    ensures bad { (line : ℕ) → IsErrOf result (LogFault.Bad line) → IsBadAt text.now line }
{
    let mut lines: Vec<Line> = Vec::new(alloc);
    let mut rest = text.as_bytes();
    while !rest.is_empty() {
        match next_line(alloc, rest) {
            Ok(Some((line, after))) => match put_line(&mut lines, line) {
                Ok(()) => rest = after,
                Err(error) => return Err(LogFault::Memory(error)),
            },
            Ok(None) => return Err(LogFault::Bad {
                line: lines.len() + 1,
            }),
            Err(error) => return Err(LogFault::Memory(error)),
        }
    }
    Ok(Log { lines })
}

/// Appends a line.
fn put_line(lines: &mut Vec<Line>, line: Line) -> Result<(), AllocError>
    ensures { OnOk result (lines.new.items ≡ lines.old.items ++ line ∷ []) }
{
    lines.push(line)?;
    Ok(())
}

/// The first line of the text and what follows it, or None where the first line is not of the form.
fn next_line(alloc: Global, text: &[u8]) -> Result<Option<(Line, &[u8])>, AllocError>
    ensures { IfOk result (λ o. MatchOption o ((s : Step) (after : List ℕ) → IsNumbered s → text.now ≡ line_text s ++ after → ⊥) (λ p. IsLineRead text.now p.0 p.1.now)) }
{
    let (body, rest) = until(text, b'\n');
    if rest.is_empty() {
        return Ok(None);
    }
    let Some(line) = read_body(alloc, body)? else {
        return Ok(None);
    };
    let spelled = line_of(alloc, &line)?;
    let (first, after) = text.split_at(body.len() + 1);
    let is_same = spelled.as_bytes() == first;
    if !is_same {
        return Ok(None);
    }
    Ok(Some((line, after)))
}

/// The line that a text without line feed spells. Where it spells none, the answer is any line or None.
fn read_body(alloc: Global, body: &[u8]) -> Result<Option<Line>, AllocError>
    ensures { IfOk result (λ o. (s : Step) → IsNumbered s → body.now ≡ body_text s → o ≡ Some s) }
{
    if body.is_empty() || body[0] != b'c' {
        return Ok(None);
    }
    let Some((clause, rest)) = read_literals(alloc, &body[1..])? else {
        return Ok(None);
    };
    let Some(hints) = read_hints(alloc, rest)? else {
        return Ok(None);
    };
    Ok(Some(Line { clause, hints }))
}

/// The literals up to the word `h`, and what follows that word.
fn read_literals(alloc: Global, text: &[u8]) -> Result<Option<(Vec<Lit>, &[u8])>, AllocError>
    ensures { IfOk result (λ o. (c : List Lit) (hs : List ℕ) → AllByRecursion (λ (l : Lit). l.var < 2 ^ 64) c → text.now ≡ flat_map literal_word c ++ hints_text hs → IsLiteralsRead c hs o) }
{
    let mut clause = Vec::new(alloc);
    let mut rest = text;
    while let Some((word, after)) = next_word(rest) {
        if word == b"h".as_slice() {
            return Ok(Some((clause, after)));
        }
        let Some(l) = literal_of(word) else {
            return Ok(None);
        };
        clause.push(l)?;
        rest = after;
    }
    Ok(None)
}

/// The hints of a text, each behind a space.
fn read_hints(alloc: Global, text: &[u8]) -> Result<Option<Vec<usize>>, AllocError>
    ensures { IfOk result (λ o. (hs : List ℕ) → AllByRecursion (λ (h : ℕ). h < 2 ^ 64) hs → text.now ≡ flat_map hint_word hs → IsHintsRead hs o) }
{
    let mut hints = Vec::new(alloc);
    let mut rest = text;
    while let Some((word, after)) = next_word(rest) {
        let Some(hint) = hint_of(word) else {
            return Ok(None);
        };
        hints.push(hint)?;
        rest = after;
    }
    Ok(Some(hints))
}

/// The word behind a space at the front, and what follows it. None where no space is in front.
fn next_word(text: &[u8]) -> Option<(&[u8], &[u8])>
    ensures word { MatchOption result ((w : List ℕ) → text.now ≢ 32 ∷ w) (λ p. (text.now ≡ 32 ∷ (p.0.now ++ p.1.now)) × Without 32 p.0.now × BeginsWith 32 p.1.now) }
{
    if text.is_empty() || text[0] != b' ' {
        return None;
    }
    Some(until(&text[1..], b' '))
}

/// The literal that a word spells. Where it spells none, the answer is any literal or None.
fn literal_of(word: &[u8]) -> Option<Lit>
    ensures { (l : Lit) → l.var < 2 ^ 64 → word.now ≡ literal_text l → result ≡ Some l }
{
    let (neg, digits) = signed(word);
    match number_of(digits) {
        None => None,
        Some(number) => literal_with(neg, number),
    }
}

/// Whether the word begins with a minus, and the word behind it.
fn signed(word: &[u8]) -> (bool, &[u8])
    ensures { (l : Lit) → l.var < 2 ^ 64 → word.now ≡ literal_text l → (result.0 ≡ l.neg) × (result.1.now ≡ decimal (l.var + 1)) }
{
    if word.is_empty() {
        return (false, word);
    }
    if word[0] == b'-' {
        let (_, digits) = word.split_at(1);
        return (true, digits);
    }
    (false, word)
}

/// The literal of this number, or None where it is not 1 to 2^64.
fn literal_with(neg: bool, number: u128) -> Option<Lit>
    ensures { (l : Lit) → l.var < 2 ^ 64 → number ≡ l.var + 1 → neg ≡ l.neg → result ≡ Some l }
{
    if number == 0 {
        return None;
    }
    if number > u64::MAX as u128 + 1 {
        return None;
    }
    let var = (number - 1) as usize;
    Some(Lit { var, neg })
}

/// The hint that a word spells. Where it spells none, the answer is any hint or None.
fn hint_of(word: &[u8]) -> Option<usize>
    ensures { (h : ℕ) → h < 2 ^ 64 → word.now ≡ decimal h → result ≡ Some h }
{
    match number_of(word) {
        None => None,
        Some(number) => {
            if number > u64::MAX as u128 {
                return None;
            }
            Some(number as usize)
        }
    }
}

/// The number that digits spell. Where they spell none, the answer is any number or None.
fn number_of(digits: &[u8]) -> Option<u128>
    ensures { (n : ℕ) → n ≤ 2 ^ 64 → digits.now ≡ decimal n → result ≡ Some n }
{
    let Ok(text) = str::from_utf8(digits) else {
        return None;
    };
    match u128::from_str_radix(text, 10) {
        Ok(number) => Some(number),
        Err(_) => None,
    }
}

/// What stands before the first such byte, and the rest from there on.
fn until(text: &[u8], byte: u8) -> (&[u8], &[u8])
    ensures whole { text.now ≡ result.0.now ++ result.1.now }
    ensures without { Without byte result.0.now }
    ensures begins { BeginsWith byte result.1.now }
{
    for (place, b) in text.iter().enumerate() {
        if *b == byte {
            return text.split_at(place);
        }
    }
    text.split_at(text.len())
}
