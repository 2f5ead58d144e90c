//! What a line spells. Each of these is right where the line is spelled right, and answers anything elsewhere: what is
//! read is spelled again and compared.

ghost use Rattle.std.specs.Prelude.{◌≡◌, ◌<◌, ◌^◌, ◌∷◌, [], ◌++◌, ℕ, List, Bool, Some, IfOk, flat_map, length, codes};
ghost use Rattle.std.specs.Fmt.{decimal};
ghost use Rattle.std.specs.List.{AllByRecursion};
ghost use Rattle.kn_trace.specs.Text.{text_of};
ghost use Rattle.kn_term.specs.declared.valuation.Given.{Given as Entry};
ghost use Rattle.kn_term.specs.Terms.{Valuation as Entries};
ghost use Rattle.kn_cond.specs.declared.standing.Standing.{Standing as Known};
ghost use Rattle.kn_model.specs.Nodes.{FailKind as Kinds, Failed, Outcome as Outcomes};
ghost use Rattle.kn_model.specs.Reports.{At, Mapping as Mappings, Reach as Reaches, StateLine as Line, FailureLine as Failure};
ghost use Rattle.kn_report.specs.Views.{kind_of, lists_of, mapping_of, outcome_of, reach_of};
ghost use Rattle.kn_report.specs.Forms.{ColumnsFit, FailureFits, GivenFits, InputsFit, OutcomeFits, ReachFits, StandingFits, StateFits};
ghost use Rattle.kn_report.specs.Texts.{behind_blank, column_text, column_word, dstate_body, failure_body, further, input_text, inputs_text, kind_text, mapping_text, outcome_text, reach_text, standing_text, state_body};
ghost use Rattle.kn_report.specs.Words.{EndsNumbers, Reads};
ghost use Rattle.kn_report.specs.Heads.{HeadFits, HeadView, spelled_body};

use crate::report::{Columns, Head, Mapping, Reached, StateLine};
use crate::word::{behind, next_word, number_of, u16_of, u32_of, until, usize_of, word_behind};
use kn_cond::Standing;
use kn_node::{FailKind, Outcome};
use kn_term::Valuation;
use kn_trace::{Trace, TraceFault};
use std::alloc::{AllocError, Global};

fn mapping_of_word(word: &[u8]) -> Option<Mapping>
    ensures { (m : Mappings) → word.now ≡ mapping_text m → Reads mapping_of m result }
{
    if word == b"sds".as_slice() {
        return Some(Mapping::Sds);
    }
    if word == b"cob".as_slice() {
        return Some(Mapping::Cob);
    }
    None
}

/// The head of these parts, where each was read.
fn head_with(mapping: Option<Mapping>, ticks: Option<u32>, nodes: Option<u32>) -> Option<Head>
    ensures { (h : HeadView) → Reads mapping_of h.mapping mapping → ticks ≡ Some h.ticks → nodes ≡ Some h.nodes → result ≡ Some h }
{
    Some(Head {
        mapping: mapping?,
        ticks: ticks?,
        nodes: nodes?,
    })
}

/// The head that the first line spells.
pub(crate) fn head_of(line: &[u8]) -> Option<Head>
    ensures { (h : HeadView) → HeadFits h → line.now ≡ spelled_body h → result ≡ Some h }
{
    let (mapping, rest) = word_behind(line, 17);
    let (ticks, rest) = word_behind(rest, 7);
    head_with(
        mapping_of_word(mapping),
        u32_of(ticks),
        u32_of(behind(rest, 7)),
    )
}

fn kind_of_word(word: &[u8]) -> Option<FailKind>
    ensures { (k : Kinds) → word.now ≡ kind_text k → Reads kind_of k result }
{
    if word == b"assert".as_slice() {
        return Some(FailKind::Assert);
    }
    if word == b"bounds".as_slice() {
        return Some(FailKind::Bounds);
    }
    if word == b"fuel".as_slice() {
        return Some(FailKind::Fuel);
    }
    None
}

/// The failure of these parts, where each was read.
fn failed_with(kind: Option<FailKind>, pc: Option<u16>, tick: Option<u32>) -> Option<Outcome>
    ensures { (k : Kinds) (p t : ℕ) → Reads kind_of k kind → pc ≡ Some p → tick ≡ Some t → Reads outcome_of (Failed k p t) result }
{
    Some(Outcome::Failed {
        kind: kind?,
        pc: pc?,
        tick: tick?,
    })
}

/// The failure that a word spells.
fn failed_of(word: &[u8]) -> Option<Outcome>
    ensures { (k : Kinds) (p t : ℕ) → p < 2 ^ 16 → t < 2 ^ 32 → word.now ≡ outcome_text (Failed k p t) → Reads outcome_of (Failed k p t) result }
{
    let (kind, rest) = until(word, b'@');
    let (pc, rest) = until(behind(rest, 1), b'@');
    failed_with(kind_of_word(kind), u16_of(pc), u32_of(behind(rest, 1)))
}

fn outcome_of_word(word: &[u8]) -> Option<Outcome>
    ensures { (o : Outcomes) → OutcomeFits o → word.now ≡ outcome_text o → Reads outcome_of o result }
{
    if word == b"running".as_slice() {
        return Some(Outcome::Running);
    }
    if word == b"halted".as_slice() {
        return Some(Outcome::Halted);
    }
    failed_of(word)
}

/// The entry of these parts, where each was read.
fn given_with(node: Option<u32>, index: Option<u32>, word: Option<u16>) -> Option<(u32, u32, u16)>
    ensures { (g : Entry) → node ≡ Some g.node → index ≡ Some g.index → word ≡ Some g.word → result ≡ Some (g.node, g.index, g.word) }
{
    Some((node?, index?, word?))
}

/// The entry that a word spells.
fn given_of(text: &[u8]) -> Option<(u32, u32, u16)>
    ensures { (g : Entry) → GivenFits g → text.now ≡ input_text g → result ≡ Some (g.node, g.index, g.word) }
{
    let (node, rest) = until(text, b'.');
    let (index, rest) = until(behind(rest, 1), b'=');
    given_with(u32_of(node), u32_of(index), u16_of(behind(rest, 1)))
}

/// The inputs that a text spells behind a blank.
fn inputs_of(alloc: Global, text: &[u8]) -> Result<Option<Valuation>, AllocError>
    ensures { IfOk result (λ o. (a : Entries) → InputsFit a → text.now ≡ 32 ∷ inputs_text a → o ≡ Some a) }
{
    if text == b" -".as_slice() {
        return Ok(Some(Valuation::new(alloc)));
    }
    entries_of(alloc, text)
}

/// The entries that a text spells, each behind a blank.
fn entries_of(alloc: Global, text: &[u8]) -> Result<Option<Valuation>, AllocError>
    ensures { IfOk result (λ o. (a : Entries) → InputsFit a → text.now ≡ flat_map further a → o ≡ Some a) }
{
    let mut inputs = Valuation::new(alloc);
    let mut rest = text;
    while let Some((word, after)) = next_word(rest, b' ') {
        let Some((node, index, value)) = given_of(word) else {
            return Ok(None);
        };
        inputs.set(node, index, value)?;
        rest = after;
    }
    Ok(Some(inputs))
}

/// What is known, where inputs were read, and where a number was.
fn known_inputs(inputs: Option<Valuation>) -> Option<Standing>
    ensures { (a : Entries) → inputs ≡ Some a → result ≡ Some (Known.Inputs a) }
{
    match inputs {
        None => None,
        Some(inputs) => Some(Standing::Inputs(inputs)),
    }
}

fn not_decided(leaves: Option<u64>) -> Option<Standing>
    ensures { (n : ℕ) → leaves ≡ Some n → result ≡ Some (Known.Open n) }
{
    match leaves {
        None => None,
        Some(leaves) => Some(Standing::Open { leaves }),
    }
}

/// The standing that a text spells.
fn standing_of(alloc: Global, text: &[u8]) -> Result<Option<Standing>, AllocError>
    ensures { IfOk result (λ o. (s : Known) → StandingFits s → text.now ≡ standing_text s → o ≡ Some s) }
{
    let (kind, rest) = until(text, b' ');
    if kind == b"open".as_slice() {
        return Ok(not_decided(number_of(behind(rest, 1))));
    }
    Ok(known_inputs(inputs_of(alloc, rest)?))
}

/// The trace that a word spells.
fn trace_of(alloc: Global, word: &[u8]) -> Result<Option<Trace>, AllocError>
    ensures { IfOk result (λ o. (bits : List Bool) → word.now ≡ text_of bits → o ≡ Some bits) }
{
    let Ok(text) = str::from_utf8(word) else {
        return Ok(None);
    };
    match Trace::read(alloc, text) {
        Ok(trace) => Ok(Some(trace)),
        Err(TraceFault::Bad { .. }) => Ok(None),
        Err(TraceFault::Memory(error)) => Err(error),
    }
}

/// The words of a state's line: node, trace, outcome, and the standing up to the end.
fn state_words(line: &[u8]) -> (&[u8], &[u8], &[u8], &[u8])
    ensures { (k : ℕ) (x : Line) → k < 2 ^ 64 → StateFits x → line.now ≡ state_body k x → (result.0.now ≡ decimal x.node) × (result.1.now ≡ text_of x.trace) × (result.2.now ≡ outcome_text x.outcome) × (result.3.now ≡ standing_text x.standing) }
{
    let (_, rest) = word_behind(line, 6);
    let (node, rest) = word_behind(rest, 6);
    let (trace, rest) = word_behind(rest, 7);
    let (outcome, rest) = word_behind(rest, 9);
    (node, trace, outcome, behind(rest, 1))
}

/// The state of these parts, where each was read.
fn state_with(
    node: Option<u32>,
    trace: Option<Trace>,
    outcome: Option<Outcome>,
    standing: Option<Standing>,
) -> Option<StateLine>
    ensures { (x : Line) → node ≡ Some x.node → trace ≡ Some x.trace → Reads outcome_of x.outcome outcome → standing ≡ Some x.standing → result ≡ Some x }
{
    Some(StateLine {
        node: node?,
        trace: trace?,
        outcome: outcome?,
        standing: standing?,
    })
}

/// The state that a line spells.
pub(crate) fn state_of(alloc: Global, line: &[u8]) -> Result<Option<StateLine>, AllocError>
    ensures { IfOk result (λ o. (k : ℕ) (x : Line) → k < 2 ^ 64 → StateFits x → line.now ≡ state_body k x → o ≡ Some x) }
{
    let (node, trace, outcome, standing) = state_words(line);
    let trace = trace_of(alloc, trace)?;
    let standing = standing_of(alloc, standing)?;
    Ok(state_with(u32_of(node), trace, outcome_of_word(outcome), standing))
}

/// Appends the numbers that a text spells, each behind such a byte, up to the word `inputs` or the end; and what follows
/// them.
fn numbers_behind(
    start: Vec<usize>,
    text: &[u8],
    byte: u8,
) -> Result<(Vec<usize>, &[u8]), AllocError>
    requires { byte < 48 }
    ensures { IfOk result (λ p. (is : List ℕ) (more : List ℕ) → AllByRecursion (λ (i : ℕ). i < 2 ^ 64) is → EndsNumbers byte more → text.now ≡ flat_map (λ (i : ℕ). byte ∷ decimal i) is ++ more → (p.0.items ≡ start.items ++ is) × (p.1.now ≡ more)) }
{
    let mut numbers = start;
    let mut rest = text;
    while let Some((word, after)) = next_word(rest, byte) {
        if word == b"inputs".as_slice() {
            return Ok((numbers, rest));
        }
        let Some(number) = usize_of(word) else {
            return Ok((numbers, rest));
        };
        numbers.push(number)?;
        rest = after;
    }
    Ok((numbers, rest))
}

/// The column that a word spells.
fn column_of(alloc: Global, word: &[u8]) -> Result<Option<Vec<usize>>, AllocError>
    ensures { IfOk result (λ o. (i : ℕ) (is : List ℕ) → AllByRecursion (λ (j : ℕ). j < 2 ^ 64) (i ∷ is) → word.now ≡ column_text (i ∷ is) → Reads (λ v. v.items) (i ∷ is) o) }
{
    let (first, rest) = until(word, b',');
    let Some(first) = usize_of(first) else {
        return Ok(None);
    };
    let start = vec![in alloc; first]?;
    let (column, _) = numbers_behind(start, rest, b',')?;
    Ok(Some(column))
}

/// The columns that a text spells, each behind a blank.
fn columns_of(alloc: Global, text: &[u8]) -> Result<Option<Columns>, AllocError>
    ensures { IfOk result (λ o. (cs : List (List ℕ)) → ColumnsFit cs → AllByRecursion (λ (c : List ℕ). 0 < length c) cs → text.now ≡ flat_map column_word cs → o ≡ Some cs) }
{
    let mut lists = Vec::new(alloc);
    let mut rest = text;
    while let Some((word, after)) = next_word(rest, b' ') {
        let Some(column) = column_of(alloc, word)? else {
            return Ok(None);
        };
        lists.push(column)?;
        rest = after;
    }
    Ok(Some(Columns { lists }))
}

/// The columns that a line spells.
pub(crate) fn dstate_of(alloc: Global, line: &[u8]) -> Result<Option<Columns>, AllocError>
    ensures { IfOk result (λ o. (k : ℕ) (cs : List (List ℕ)) → k < 2 ^ 64 → ColumnsFit cs → AllByRecursion (λ (c : List ℕ). 0 < length c) cs → line.now ≡ dstate_body k cs → o ≡ Some cs) }
{
    let (_, rest) = word_behind(line, 7);
    columns_of(alloc, behind(rest, 8))
}

/// The place of these parts, where each was read.
fn place_with(dstate: Option<usize>, pick: Vec<usize>, inputs: Option<Valuation>) -> Option<Reached>
    ensures { (d : ℕ) (a : Entries) → dstate ≡ Some d → inputs ≡ Some a → Reads reach_of (At d pick.items a) result }
{
    Some(Reached::At {
        dstate: dstate?,
        pick,
        inputs: inputs?,
    })
}

/// The place that a text spells behind the word `reached`.
fn place_of(alloc: Global, text: &[u8]) -> Result<Option<Reached>, AllocError>
    ensures { IfOk result (λ o. (d : ℕ) (is : List ℕ) (a : Entries) → ReachFits (At d is a) → text.now ≡ codes " dstate " ++ (decimal d ++ (codes " pick" ++ (flat_map behind_blank is ++ (codes " inputs " ++ inputs_text a)))) → Reads reach_of (At d is a) o) }
{
    let (dstate, rest) = word_behind(text, 8);
    let (pick, rest) = numbers_behind(Vec::new(alloc), behind(rest, 5), b' ')?;
    let inputs = inputs_of(alloc, behind(rest, 7))?;
    Ok(place_with(usize_of(dstate), pick, inputs))
}

/// What a failure line says behind its number.
fn reach_of_text(alloc: Global, text: &[u8]) -> Result<Option<Reached>, AllocError>
    ensures { IfOk result (λ o. (x : Reaches) → ReachFits x → text.now ≡ reach_text x → Reads reach_of x o) }
{
    let (kind, rest) = until(text, b' ');
    if kind == b"open".as_slice() {
        return Ok(Some(Reached::Open));
    }
    if kind == b"nowhere".as_slice() {
        return Ok(Some(Reached::Nowhere));
    }
    place_of(alloc, rest)
}

/// What a failure line says.
pub(crate) fn failure_of(alloc: Global, line: &[u8]) -> Result<Option<Reached>, AllocError>
    ensures { IfOk result (λ o. (f : Failure) → FailureFits f → line.now ≡ failure_body f → Reads reach_of f.reach o) }
{
    let (_, rest) = word_behind(line, 8);
    reach_of_text(alloc, behind(rest, 1))
}
