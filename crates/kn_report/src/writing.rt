//! The text of a report.

ghost use Rattle.std.specs.Prelude.{◌≡◌, ◌+◌, ◌++◌, [], ◌∷◌, IfOk, OnOk, codes, decimal, string_bytes, take, drop, flat_map, count_by, length, ◌≤◌, ◌<◌, ◌^◌, ℕ};
ghost use Rattle.std.specs.List.{AllByRecursion};
ghost use Rattle.kn_trace.specs.Text.{text_of};
ghost use Rattle.kn_model.specs.Reports.{At};
ghost use Rattle.kn_report.specs.Views.{kind_of, mapping_of, outcome_of, reach_of, lists_of};
ghost use Rattle.kn_report.specs.Forms.{given, Fits, StateFits, OutcomeFits, StandingFits, InputsFit, GivenFits, FailureFits, ReachFits, ColumnsFit};
ghost use Rattle.kn_report.specs.Heads.{HeadFits, spelled_head};
ghost use Rattle.kn_report.specs.Texts.{mapping_text, kind_text, outcome_text, further, input_text, inputs_text, standing_text, state_text, behind_comma, behind_blank, column_text, column_word, dstate_text, reach_text, failure_text, head_text, end_text, lines_text, reached_in, open_in, is_at, is_undecided, is_open, numbered_from, report_text, summary_text};

use crate::report::{Columns, FailureLine, Head, Mapping, Reached, Report, StateLine};
use kn_cond::Standing;
use kn_node::{FailKind, Outcome};
use kn_term::Valuation;
use kn_trace::Trace;
use std::alloc::{AllocError, Global};

/// The text of a report: a head, a line for each state, each dstate and each failed state, and an end. Err is want of
/// memory.
pub fn text(report: &Report) -> Result<String, AllocError>
    ensures text { IfOk result (λ t. string_bytes t ≡ report_text report.now) }
    ensures fits { OnOk result (Fits report.now) }
{
    let mut text = lines_of(report)?;
    put_end(&mut text, report)?;
    Ok(text)
}

/// The first line and the last line of a report's text. Err is want of memory.
pub fn summary(report: &Report) -> Result<String, AllocError>
    ensures { IfOk result (λ t. string_bytes t ≡ summary_text report.now) }
{
    let mut text = head_of(report)?;
    put_end(&mut text, report)?;
    Ok(text)
}

/// All lines but the end.
pub(crate) fn lines_of(report: &Report) -> Result<String, AllocError>
    ensures text { IfOk result (λ t. string_bytes t ≡ lines_text report.now) }
    ensures fits { OnOk result (Fits report.now) }
{
    let mut text = head_of(report)?;
    put_states(&mut text, &report.states)?;
    put_dstates(&mut text, &report.dstates)?;
    put_failures(&mut text, &report.failures)?;
    Ok(text)
}

/// The first line.
fn head_of(report: &Report) -> Result<String, AllocError>
    ensures text { IfOk result (λ t. string_bytes t ≡ head_text report.now) }
    ensures ticks { OnOk result (report.now.ticks < 2 ^ 32) }
    ensures nodes { OnOk result (report.now.nodes < 2 ^ 32) }
{
    let head = Head {
        mapping: report.mapping,
        ticks: report.ticks,
        nodes: report.nodes,
    };
    head_line(*report.states.allocator(), &head)
}

/// The head of a report, with its line feed.
pub(crate) fn head_line(alloc: Global, head: &Head) -> Result<String, AllocError>
    ensures text { IfOk result (λ t. string_bytes t ≡ spelled_head head.now) }
    ensures fits { OnOk result (HeadFits head.now) }
{
    let word = mapping_word(head.mapping);
    let ticks = head.ticks;
    let nodes = head.nodes;
    let mut text = format!(in alloc; "report 1 mapping {word} ticks {ticks} nodes {nodes}")?;
    text.push_str("\n")?;
    Ok(text)
}

fn mapping_word(mapping: Mapping) -> &'static str
    ensures { result.now ≡ mapping_text (mapping_of mapping) }
{
    match mapping {
        Mapping::Sds => "sds",
        Mapping::Cob => "cob",
    }
}

fn kind_word(kind: FailKind) -> &'static str
    ensures { result.now ≡ kind_text (kind_of kind) }
{
    match kind {
        FailKind::Assert => "assert",
        FailKind::Bounds => "bounds",
        FailKind::Fuel => "fuel",
    }
}

fn put_outcome(text: &mut String, outcome: Outcome) -> Result<(), AllocError>
    ensures text { OnOk result (string_bytes text.new ≡ string_bytes text.old ++ outcome_text (outcome_of outcome)) }
    ensures fits { OutcomeFits (outcome_of outcome) }
{
    match outcome {
        Outcome::Running => text.push_str("running"),
        Outcome::Halted => text.push_str("halted"),
        Outcome::Failed { kind, pc, tick } => {
            let word = kind_word(kind);
            write!(text, "{word}@{pc}@{tick}")
        }
    }
}

/// Appends an entry.
fn put_input(text: &mut String, node: u32, index: u32, word: u16) -> Result<(), AllocError>
    ensures text { OnOk result (string_bytes text.new ≡ string_bytes text.old ++ input_text (given node index word)) }
    ensures fits { GivenFits (given node index word) }
{
    write!(text, "{node}.{index}={word}")
}

/// Appends a blank and an entry.
fn put_further(text: &mut String, node: u32, index: u32, word: u16) -> Result<(), AllocError>
    ensures text { OnOk result (string_bytes text.new ≡ string_bytes text.old ++ further (given node index word)) }
    ensures fits { GivenFits (given node index word) }
{
    write!(text, " {node}.{index}={word}")
}

/// Appends a blank and an entry, for each entry but the first.
fn put_more_inputs(text: &mut String, inputs: &Valuation) -> Result<(), AllocError>
    requires first { AllByRecursion GivenFits (take 1 inputs.now) }
    ensures text { OnOk result (string_bytes text.new ≡ string_bytes text.old ++ flat_map further (drop 1 inputs.now)) }
    ensures fits { OnOk result (AllByRecursion GivenFits inputs.now) }
{
    let mut place = 1;
    while let Some((node, index, word)) = inputs.at(place) {
        put_further(text, node, index, word)?;
        place += 1;
    }
    Ok(())
}

/// Appends the inputs of a valuation, or `-` where it has none.
fn put_inputs(text: &mut String, inputs: &Valuation) -> Result<(), AllocError>
    ensures text { OnOk result (string_bytes text.new ≡ string_bytes text.old ++ inputs_text inputs.now) }
    ensures fits { OnOk result (InputsFit inputs.now) }
{
    inputs.order();
    match inputs.at(0) {
        None => text.push_str("-"),
        Some((node, index, word)) => {
            put_input(text, node, index, word)?;
            put_more_inputs(text, inputs)
        }
    }
}

/// Appends that so many valuations were not enough to decide.
fn put_open(text: &mut String, leaves: u64) -> Result<(), AllocError>
    ensures text { OnOk result (string_bytes text.new ≡ string_bytes text.old ++ (codes "open " ++ decimal leaves)) }
    ensures fits { leaves < 2 ^ 64 }
{
    write!(text, "open {leaves}")
}

fn put_standing(text: &mut String, standing: &Standing) -> Result<(), AllocError>
    ensures text { OnOk result (string_bytes text.new ≡ string_bytes text.old ++ standing_text standing.now) }
    ensures fits { OnOk result (StandingFits standing.now) }
{
    match standing {
        Standing::Inputs(inputs) => {
            text.push_str("inputs ")?;
            put_inputs(text, inputs)
        }
        Standing::Open { leaves } => put_open(text, *leaves),
    }
}

/// The line of a state, with its line feed.
pub(crate) fn state_line(
    alloc: Global,
    number: usize,
    line: &StateLine,
) -> Result<String, AllocError>
    ensures text { IfOk result (λ t. string_bytes t ≡ state_text number line.now) }
    ensures fits { OnOk result (StateFits line.now) }
{
    let node = line.node;
    let mut text = format!(in alloc; "state {number} node {node} trace ")?;
    put_trace(&mut text, &line.trace)?;
    put_outcome(&mut text, line.outcome)?;
    text.push_str(" ")?;
    put_standing(&mut text, &line.standing)?;
    text.push_str("\n")?;
    Ok(text)
}

/// Appends a trace and the word behind it.
fn put_trace(text: &mut String, trace: &Trace) -> Result<(), AllocError>
    ensures { OnOk result (string_bytes text.new ≡ string_bytes text.old ++ (text_of trace.now ++ codes " outcome ")) }
{
    text.push_str(&trace.text()?)?;
    text.push_str(" outcome ")
}

/// Appends a comma and a number for each of these.
fn put_more_numbers(text: &mut String, numbers: &[usize]) -> Result<(), AllocError>
    ensures text { OnOk result (string_bytes text.new ≡ string_bytes text.old ++ flat_map behind_comma numbers.now) }
    ensures fits { OnOk result (AllByRecursion (λ (i : ℕ). i < 2 ^ 64) numbers.now) }
{
    for number in numbers {
        write!(text, ",{number}")?;
    }
    Ok(())
}

fn put_column(text: &mut String, column: &[usize]) -> Result<(), AllocError>
    ensures text { OnOk result (string_bytes text.new ≡ string_bytes text.old ++ column_text column.now) }
    ensures fits { OnOk result (AllByRecursion (λ (i : ℕ). i < 2 ^ 64) column.now) }
{
    match column.split_first() {
        None => Ok(()),
        Some((first, others)) => {
            write!(text, "{first}")?;
            put_more_numbers(text, others)
        }
    }
}

fn put_columns(text: &mut String, columns: &[Vec<usize>]) -> Result<(), AllocError>
    ensures text { OnOk result (string_bytes text.new ≡ string_bytes text.old ++ flat_map column_word (lists_of columns.now)) }
    ensures fits { OnOk result (ColumnsFit (lists_of columns.now)) }
{
    for column in columns {
        text.push_str(" ")?;
        put_column(text, column)?;
    }
    Ok(())
}

/// The line of a dstate, with its line feed.
pub(crate) fn dstate_line(
    alloc: Global,
    number: usize,
    columns: &Columns,
) -> Result<String, AllocError>
    ensures text { IfOk result (λ t. string_bytes t ≡ dstate_text number columns.now) }
    ensures fits { OnOk result (ColumnsFit columns.now) }
{
    let mut text = format!(in alloc; "dstate {number} columns")?;
    put_columns(&mut text, &columns.lists)?;
    text.push_str("\n")?;
    Ok(text)
}

/// Appends a blank and a number for each of these.
fn put_numbers(text: &mut String, numbers: &[usize]) -> Result<(), AllocError>
    ensures text { OnOk result (string_bytes text.new ≡ string_bytes text.old ++ flat_map behind_blank numbers.now) }
    ensures fits { OnOk result (AllByRecursion (λ (i : ℕ). i < 2 ^ 64) numbers.now) }
{
    for number in numbers {
        write!(text, " {number}")?;
    }
    Ok(())
}

/// Appends where a failed state is reached, and on which inputs.
fn put_place(
    text: &mut String,
    dstate: usize,
    pick: &[usize],
    inputs: &Valuation,
) -> Result<(), AllocError>
    ensures text { OnOk result (string_bytes text.new ≡ string_bytes text.old ++ reach_text (At dstate pick.now inputs.now)) }
    ensures fits { OnOk result (ReachFits (At dstate pick.now inputs.now)) }
{
    write!(text, "reached dstate {dstate} pick")?;
    put_numbers(text, pick)?;
    text.push_str(" inputs ")?;
    put_inputs(text, inputs)
}

fn put_reach(text: &mut String, reach: &Reached) -> Result<(), AllocError>
    ensures text { OnOk result (string_bytes text.new ≡ string_bytes text.old ++ reach_text (reach_of reach.now)) }
    ensures fits { OnOk result (ReachFits (reach_of reach.now)) }
{
    match reach {
        Reached::At {
            dstate,
            pick,
            inputs,
        } => put_place(text, *dstate, pick, inputs),
        Reached::Open => text.push_str("open"),
        Reached::Nowhere => text.push_str("nowhere"),
    }
}

/// The line of a failed state, with its line feed.
pub(crate) fn failure_line(alloc: Global, failure: &FailureLine) -> Result<String, AllocError>
    ensures text { IfOk result (λ t. string_bytes t ≡ failure_text failure.now) }
    ensures fits { OnOk result (FailureFits failure.now) }
{
    let state = failure.state;
    let mut text = format!(in alloc; "failure {state} ")?;
    put_reach(&mut text, &failure.reach)?;
    text.push_str("\n")?;
    Ok(text)
}

/// Appends the lines of states.
fn put_states(text: &mut String, states: &[StateLine]) -> Result<(), AllocError>
    ensures text { OnOk result (string_bytes text.new ≡ string_bytes text.old ++ numbered_from state_text 0 states.now) }
    ensures fits { OnOk result (AllByRecursion StateFits states.now) }
{
    let alloc = *text.allocator();
    for (number, line) in states.iter().enumerate() {
        text.push_str(&state_line(alloc, number, line)?)?;
    }
    Ok(())
}

/// Appends the lines of dstates.
fn put_dstates(text: &mut String, dstates: &[Columns]) -> Result<(), AllocError>
    ensures text { OnOk result (string_bytes text.new ≡ string_bytes text.old ++ numbered_from dstate_text 0 dstates.now) }
    ensures fits { OnOk result (AllByRecursion ColumnsFit dstates.now) }
{
    let alloc = *text.allocator();
    for (number, columns) in dstates.iter().enumerate() {
        text.push_str(&dstate_line(alloc, number, columns)?)?;
    }
    Ok(())
}

/// Appends the lines of failures.
fn put_failures(text: &mut String, failures: &[FailureLine]) -> Result<(), AllocError>
    ensures text { OnOk result (string_bytes text.new ≡ string_bytes text.old ++ flat_map failure_text failures.now) }
    ensures fits { OnOk result (AllByRecursion FailureFits failures.now) }
{
    let alloc = *text.allocator();
    for failure in failures {
        text.push_str(&failure_line(alloc, failure)?)?;
    }
    Ok(())
}

/// The last line, with its line feed.
pub(crate) fn end_line(report: &Report) -> Result<String, AllocError>
    ensures { IfOk result (λ t. string_bytes t ≡ end_text report.now) }
{
    let states = report.states.len();
    let dstates = report.dstates.len();
    let reached = reached_count(&report.failures);
    let undecided = undecided_count(report);
    format!(in *report.states.allocator();
        "end states {states} dstates {dstates} reached {reached} open {undecided}\n"
    )
}

/// Appends the last line.
fn put_end(text: &mut String, report: &Report) -> Result<(), AllocError>
    ensures { OnOk result (string_bytes text.new ≡ string_bytes text.old ++ end_text report.now) }
{
    text.push_str(&end_line(report)?)
}

fn is_reached(reach: &Reached) -> bool
    ensures { result ≡ is_at (reach_of reach.now) }
{
    matches!(reach, Reached::At { .. })
}

fn is_undecided_failure(reach: &Reached) -> bool
    ensures { result ≡ is_undecided (reach_of reach.now) }
{
    matches!(reach, Reached::Open)
}

fn is_undecided_state(standing: &Standing) -> bool
    ensures { result ≡ is_open standing.now }
{
    matches!(standing, Standing::Open { .. })
}

/// How many failures are reached.
pub(crate) fn reached_count(failures: &[FailureLine]) -> usize
    ensures count { result ≡ count_by (λ f. is_at f.reach) failures.now }
    ensures most { result ≤ length failures.now }
{
    let mut count = 0;
    for failure in failures {
        if is_reached(&failure.reach) {
            count += 1;
        }
    }
    count
}

/// How many states and failures were not decided.
pub(crate) fn undecided_count(report: &Report) -> usize
    ensures { result ≡ open_in report.now }
{
    undecided_states(&report.states) + undecided_failures(&report.failures)
}

/// How many failures were not decided.
fn undecided_failures(failures: &[FailureLine]) -> usize
    ensures count { result ≡ count_by (λ f. is_undecided f.reach) failures.now }
    ensures most { result ≤ length failures.now }
{
    let mut count = 0;
    for failure in failures {
        if is_undecided_failure(&failure.reach) {
            count += 1;
        }
    }
    count
}

/// How many states have an own condition that was not decided.
fn undecided_states(states: &[StateLine]) -> usize
    ensures count { result ≡ count_by (λ line. is_open line.standing) states.now }
    ensures most { result ≤ length states.now }
{
    let mut count = 0;
    for line in states {
        if is_undecided_state(&line.standing) {
            count += 1;
        }
    }
    count
}
