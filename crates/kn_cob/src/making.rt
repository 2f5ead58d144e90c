//! The report of what an exploration gives.

ghost use Rattle.std.specs.Prelude.{◌≡◌, ◌+◌, ◌<◌, ◌≤◌, ◌^◌, ◌++◌, List, [], length, map, IfOk, OnOk};
ghost use Rattle.kn_cond.specs.Conditions.{that};
ghost use Rattle.kn_model.specs.Reports.{Cob, FailureLine as Line, Gives, singles};
ghost use Rattle.kn_report.specs.Views.{reach_of};
ghost use Rattle.kn_solve.specs.Verdicts.{IsJudged};
ghost use Rattle.kn_machine.specs.Views.{outcome_of};
ghost use Rattle.kn_cob.specs.Runs.{AreScenarios};
ghost use Rattle.kn_cob.specs.Reports.{line_of, lines_from, numbers, is_failed, failed_from, joint_of, reach_by, reached_at, AreLong, AreFailuresOf, IsReportOf};

use crate::node::node_count;
use crate::run::{CobRun, Scenario};
use kn_cond::{Cond, Standing};
use kn_node::{Config, Outcome};
use kn_plan::Net;
use kn_report::{Columns, FailureLine, Mapping, Reached, Report, StateLine};
use kn_solve::{Formula, Judged, Plain, ask_more};
use kn_step::comes_later;
use kn_term::Valuation;
use std::alloc::{AllocError, Global};

/// Where a scenario stands in a report: its number, the number of its first state, and how many states it has, one for each
/// node.
#[derive(Clone, Copy, Debug)]
struct Place {
    dstate: usize,
    first: usize,
    nodes: usize,
}

/// The report of an exploration: dstate d is scenario d, its states are numbered on, and a failed state is reached by this
/// scenario on the least inputs that meet the own conditions of all its nodes, nowhere where none do, or open where that
/// was not decided. Err is want of memory.
pub fn report_of(alloc: Global, net: &Net, run: &CobRun) -> Result<Report, AllocError>
    requires scenarios { AreScenarios net.now.network run.now }
    ensures given { IfOk result (λ r. Gives r net.now.network) }
    ensures mapping { IfOk result (λ r. r.mapping ≡ Cob) }
    ensures within { IfOk result (λ r. length r.dstates ≤ net.now.network.limits.dstates) }
{
    comes_later(net);
    report_from(alloc, net, &run.scenarios)
}

/// The report of scenarios, each of as many nodes as the network has.
pub(crate) fn report_from(
    alloc: Global,
    net: &Net,
    scenarios: &[Scenario],
) -> Result<Report, AllocError>
    requires { AreLong (length net.now.network.nodes) scenarios.now }
    ensures { IfOk result (IsReportOf net.now.network scenarios.now) }
{
    let nodes = node_count(net);
    let mut states = Vec::new(alloc);
    let mut dstates = Vec::new(alloc);
    let mut failures = Vec::new(alloc);
    for (dstate, scenario) in scenarios.iter().enumerate() {
        let first = states.len();
        let place = Place {
            dstate,
            first,
            nodes: nodes as usize,
        };
        put_lines(scenario, &mut states)?;
        dstates.push(columns_from(alloc, place.nodes, first)?)?;
        put_failures(alloc, net, scenario, place, &mut failures)?;
    }
    Ok(Report {
        mapping: Mapping::Cob,
        ticks: net.limits.ticks,
        nodes,
        states,
        dstates,
        failures,
    })
}

/// The line of a node's state.
fn line_of(node: u32, config: &Config) -> Result<StateLine, AllocError>
    ensures { IfOk result (λ l. l ≡ line_of node config.now) }
{
    Ok(StateLine {
        node,
        trace: config.trace.copy()?,
        outcome: config.machine.outcome,
        standing: config.standing.copy()?,
    })
}

/// Appends the lines of a scenario's states. Err is want of memory.
fn put_lines(scenario: &Scenario, lines: &mut Vec<StateLine>) -> Result<(), AllocError>
    requires { length scenario.now < 2 ^ 32 }
    ensures { OnOk result (lines.new.items ≡ lines.old.items ++ lines_from 0 scenario.now) }
{
    for node in 0..scenario.len() {
        lines.push(line_of(node as u32, scenario.config(node))?)?;
    }
    Ok(())
}

/// So many numbers that follow one another. Err is want of memory.
fn numbers_from(alloc: Global, count: usize, first: usize) -> Result<Vec<usize>, AllocError>
    requires { first + count < 2 ^ 64 }
    ensures { IfOk result (λ v. v.items ≡ numbers count first) }
{
    let mut states = Vec::new(alloc);
    for place in 0..count {
        states.push(first + place)?;
    }
    Ok(states)
}

/// So many columns of one number each, that follow one another. Err is want of memory.
fn columns_from(alloc: Global, count: usize, first: usize) -> Result<Columns, AllocError>
    requires { first + count < 2 ^ 64 }
    ensures { IfOk result (λ c. c ≡ singles count first) }
{
    let mut lists = Vec::new(alloc);
    for place in 0..count {
        lists.push(numbers_from(alloc, 1, first + place)?)?;
    }
    Ok(Columns { lists })
}

/// Whether a node failed.
fn has_failed(config: &Config) -> bool
    ensures { result ≡ is_failed (outcome_of config.now.machine.outcome) }
{
    matches!(config.machine.outcome, Outcome::Failed { .. })
}

/// The numbers of a scenario's failed states, which are numbered from `first` on. Err is want of memory.
fn failed_states(alloc: Global, scenario: &Scenario, first: usize) -> Result<Vec<usize>, AllocError>
    requires { first + length scenario.now < 2 ^ 64 }
    ensures { IfOk result (λ v. v.items ≡ failed_from first (lines_from 0 scenario.now)) }
{
    let mut failed = Vec::new(alloc);
    for node in 0..scenario.len() {
        if has_failed(scenario.config(node)) {
            failed.push(first + node)?;
        }
    }
    Ok(failed)
}

/// The own conditions of a scenario's nodes, joined. Err is want of memory.
fn joint_of(alloc: Global, scenario: &Scenario) -> Result<Formula, AllocError>
    ensures { IfOk result (λ f. f ≡ record { condition = joint_of scenario.now; columns = [] }) }
{
    let mut joint = Formula::new(alloc);
    for node in 0..scenario.len() {
        let config = scenario.config(node);
        config.stands();
        joint.add(&config.terms, &config.cond)?;
    }
    Ok(joint)
}

/// What is known of the inputs that meet the own conditions of all nodes of a scenario, asked literal by literal. Err is
/// want of memory.
fn judged(alloc: Global, net: &Net, scenario: &Scenario) -> Result<Judged, AllocError>
    ensures { IfOk result (IsJudged net.now.network.limits.conflicts (that (joint_of scenario.now))) }
{
    net.bounds();
    let joint = joint_of(alloc, scenario)?;
    let (terms, all) = joint.condition();
    let none = Cond::new(alloc);
    let nothing = Standing::Inputs(Valuation::new(alloc));
    ask_more(
        alloc,
        &mut Plain,
        terms,
        &none,
        &nothing,
        all,
        net.limits.conflicts,
    )
}

/// Where the failed states of a scenario are reached, by the answer to what its nodes ask together. Err is want of memory.
fn reach_by(alloc: Global, answer: &Judged, place: Place) -> Result<Reached, AllocError>
    requires { place.first + place.nodes < 2 ^ 64 }
    ensures { IfOk result (λ x. reach_of x ≡ reach_by place.dstate (numbers place.nodes place.first) answer.now) }
{
    match answer {
        Judged::Met(inputs) => Ok(Reached::At {
            dstate: place.dstate,
            pick: numbers_from(alloc, place.nodes, place.first)?,
            inputs: inputs.copy()?,
        }),
        Judged::Never => Ok(Reached::Nowhere),
        Judged::Undecided { .. } => Ok(Reached::Open),
    }
}

/// Appends a failure line for each of some failed states of a scenario. Err is want of memory.
fn put_reached(
    alloc: Global,
    failed: &[usize],
    answer: &Judged,
    place: Place,
    failures: &mut Vec<FailureLine>,
) -> Result<(), AllocError>
    requires { place.first + place.nodes < 2 ^ 64 }
    ensures { OnOk result (failures.new.items ≡ failures.old.items ++ map (reached_at (reach_by place.dstate (numbers place.nodes place.first) answer.now)) failed.now) }
{
    for state in failed {
        failures.push(FailureLine {
            state: *state,
            reach: reach_by(alloc, answer, place)?,
        })?;
    }
    Ok(())
}

/// Appends the failure lines of a scenario. What its nodes ask together is asked once, if a node failed. Err is want of
/// memory.
fn put_failures(
    alloc: Global,
    net: &Net,
    scenario: &Scenario,
    place: Place,
    failures: &mut Vec<FailureLine>,
) -> Result<(), AllocError>
    requires nodes { length scenario.now ≡ place.nodes }
    requires room { place.first + place.nodes < 2 ^ 64 }
    ensures { OnOk result ((ws : List Line) × (failures.new.items ≡ failures.old.items ++ ws) × AreFailuresOf net.now.network.limits.conflicts place.dstate place.first scenario.now ws) }
{
    let failed = failed_states(alloc, scenario, place.first)?;
    if failed.is_empty() {
        return Ok(());
    }
    let answer = judged(alloc, net, scenario)?;
    put_reached(alloc, &failed, &answer, place, failures)
}
