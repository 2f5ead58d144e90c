//! The network that a file without a fault gives.

ghost use Rattle.std.specs.Prelude.{◌≡◌, ◌≤◌, nat_lt, if◌then◌else◌, codes, map, min, IfOk, OnOk};
ghost use Rattle.std.specs.List.{AllByRecursion};
ghost use Rattle.toml.specs.Data.{get_member};
ghost use Rattle.toml.specs.View.{table_view};
ghost use Rattle.kn_term.specs.Valuations.{AreEntries, with_word};
ghost use Rattle.kn_plan.specs.Nets.{Plan};
ghost use Rattle.kn_netfile.specs.Keys.{tick_of};
ghost use Rattle.kn_netfile.specs.Tables.{reboots_at, plan_at, plans_of, link_at, links_of, input_at, inputs_of, limits_at, node_count};

use crate::keys::{look, number_of, text_at};
use crate::links::node_or_first;
use crate::names::Names;
use crate::nodes::{numbers_in, tick_of};
use kn_plan::{Limits, Link, NodePlan};
use kn_term::Valuation;
use std::alloc::{AllocError, Global};
use toml::Table;

/// Numbers as ticks, of which 4,095 is the last.
fn ticks_of(alloc: Global, numbers: &[i64]) -> Result<Vec<u32>, AllocError>
    ensures { IfOk result (λ v. v.items ≡ map (λ n. min (tick_of n) 4095) numbers.now) }
{
    let mut ticks = Vec::new(alloc);
    for number in numbers {
        ticks.push(tick_of(*number).min(4095) as u32)?;
    }
    Ok(ticks)
}

/// The ticks at which a node may reboot.
fn reboots_of(alloc: Global, table: &Table) -> Result<Vec<u32>, AllocError>
    requires { AllByRecursion (λ t. t ≤ 4095) (reboots_at (get_member (codes "reboot") (table_view table.now))) }
    ensures { IfOk result (λ v. v.items ≡ reboots_at (get_member (codes "reboot") (table_view table.now))) }
{
    let Some(value) = look(table, "reboot") else {
        return Ok(Vec::new(alloc));
    };
    match numbers_in(alloc, value)? {
        None => Ok(Vec::new(alloc)),
        Some(numbers) => ticks_of(alloc, &numbers),
    }
}

/// The plan of a node, where the programs have these names.
fn plan_of(alloc: Global, names: &Names, table: &Table) -> Result<NodePlan, AllocError>
    requires { AllByRecursion (λ t. t ≤ 4095) (plan_at names.now (table_view table.now)).reboot }
    ensures { IfOk result (λ p. p ≡ plan_at names.now (table_view table.now)) }
{
    let reboot = reboots_of(alloc, table)?;
    let program = names.place(text_at(table, "program")).unwrap_or(0);
    Ok(NodePlan {
        program,
        loss: number_of(table, "loss", 0, 15, 0) as u8,
        duplicate: number_of(table, "duplicate", 0, 15, 0) as u8,
        reboot,
    })
}

/// The plans of the nodes, where the programs have these names.
pub(crate) fn plans_of(
    alloc: Global,
    names: &Names,
    tables: &[&Table],
) -> Result<Vec<NodePlan>, AllocError>
    requires { AllByRecursion (λ (p : Plan). AllByRecursion (λ t. t ≤ 4095) p.reboot) (plans_of names.now (map (λ t. table_view t.now) tables.now)) }
    ensures { IfOk result (λ v. v.items ≡ plans_of names.now (map (λ t. table_view t.now) tables.now)) }
{
    let mut plans = Vec::new(alloc);
    for table in tables {
        plans.push(plan_of(alloc, names, table)?)?;
    }
    Ok(plans)
}

/// A link between some of so many nodes.
fn link_of(table: &Table, nodes: usize) -> Link
    requires { nodes ≤ 64 }
    ensures { result ≡ link_at nodes (table_view table.now) }
{
    Link {
        from: node_or_first(table, "from", nodes) as u32,
        to: node_or_first(table, "to", nodes) as u32,
        delay: number_of(table, "delay", 1, 65535, 1) as u32,
    }
}

/// The links between some of so many nodes.
pub(crate) fn links_of(
    alloc: Global,
    nodes: usize,
    tables: &[&Table],
) -> Result<Vec<Link>, AllocError>
    requires { nodes ≤ 64 }
    ensures { IfOk result (λ v. v.items ≡ links_of nodes (map (λ t. table_view t.now) tables.now)) }
{
    let mut links = Vec::new(alloc);
    for table in tables {
        links.push(link_of(table, nodes))?;
    }
    Ok(links)
}

/// Gives the input of a table its word, unless that is 0.
fn add_input(inputs: &mut Valuation, nodes: usize, table: &Table) -> Result<(), AllocError>
    requires { nodes ≤ 64 }
    ensures { OnOk result (inputs.new ≡ (if nat_lt 0 (input_at nodes (table_view table.now)).word then with_word (input_at nodes (table_view table.now)).node (input_at nodes (table_view table.now)).index (input_at nodes (table_view table.now)).word inputs.old else inputs.old)) }
{
    let node = node_or_first(table, "node", nodes) as u32;
    let index = number_of(table, "index", 0, 65535, 0) as u32;
    let word = number_of(table, "value", 0, 65535, 0) as u16;
    if word == 0 {
        return Ok(());
    }
    inputs.set(node, index, word)
}

/// The inputs of some of so many nodes whose words are not 0.
pub(crate) fn inputs_of(
    alloc: Global,
    nodes: usize,
    tables: &[&Table],
) -> Result<Valuation, AllocError>
    requires nodes { nodes ≤ 64 }
    requires order { AreEntries (inputs_of nodes (map (λ t. table_view t.now) tables.now)) }
    ensures { IfOk result (λ a. a ≡ inputs_of nodes (map (λ t. table_view t.now) tables.now)) }
{
    let mut inputs = Valuation::new(alloc);
    for table in tables {
        add_input(&mut inputs, nodes, table)?;
    }
    Ok(inputs)
}

/// The limits, where there are so many nodes.
pub(crate) fn limits_of(table: &Table, nodes: usize) -> Limits
    requires { nodes ≡ node_count (table_view table.now) }
    ensures { result ≡ limits_at (table_view table.now) }
{
    let fewest = usize::max(1, nodes) as u64;
    Limits {
        ticks: number_of(table, "ticks", 0, 4096, 0) as u32,
        fuel: number_of(table, "fuel", 1, 4096, 512) as u32,
        conflicts: number_of(table, "conflicts", 1, 1_048_576, 65536),
        states: number_of(table, "states", fewest, 16384, 4096) as usize,
        dstates: number_of(table, "dstates", 1, 16384, 4096) as usize,
    }
}
