//! The outermost table of a file.

ghost use Rattle.std.specs.Prelude.{◌≡◌, codes, map, true, IfOk};
ghost use Rattle.toml.specs.Data.{get_member};
ghost use Rattle.toml.specs.View.{table_view};
ghost use Rattle.kn_netfile.specs.Faults.{lower, located, top, wrong_version};
ghost use Rattle.kn_netfile.specs.Keys.{number_at, number_fault, unknown_fault};
ghost use Rattle.kn_netfile.specs.Tables.{elements, limit_fault, top_fault, top_keys, limits_fault};

use crate::arrays::tables_at;
use crate::keys::{OUT_OF_RANGE, WRONG_VERSION, number_at, number_fault, unknown_fault};
use crate::refusal::{Refusal, at_top, lower};
use std::alloc::{AllocError, Global};
use toml::Table;

/// The tables of the arrays of a file.
#[derive(Drop)]
pub(crate) struct Arrays<'a> {
    pub(crate) programs: Vec<&'a Table>,
    pub(crate) nodes: Vec<&'a Table>,
    pub(crate) links: Vec<&'a Table>,
    pub(crate) inputs: Vec<&'a Table>,
}

/// The tables of the arrays of a file, and what is wrong at the keys of its outermost table.
#[derive(Drop)]
pub(crate) struct Document<'a> {
    pub(crate) fault: Option<Refusal>,
    pub(crate) arrays: Arrays<'a>,
}

/// What is wrong at a limit.
fn limit_fault(
    alloc: Global,
    table: &Table,
    is_needed: bool,
    key: &str,
    low: u64,
    high: u64,
) -> Result<Option<Refusal>, AllocError>
    ensures { IfOk result (λ f. f ≡ limit_fault is_needed key.now low high (table_view table.now)) }
{
    let number = number_fault(is_needed, OUT_OF_RANGE, number_at(table, key, low, high));
    at_top(alloc, key, number)
}

/// What is wrong with the keys or the version.
fn version_fault(alloc: Global, table: &Table) -> Result<Option<Refusal>, AllocError>
    ensures { IfOk result (λ f. f ≡ lower (unknown_fault top_keys top (table_view table.now)) (number_fault true wrong_version (codes "version") (number_at 1 1 (get_member (codes "version") (table_view table.now))))) }
{
    let keys = [
        "version",
        "ticks",
        "fuel",
        "conflicts",
        "states",
        "dstates",
        "program",
        "node",
        "link",
        "input",
    ];
    let unknown = at_top(alloc, "top", unknown_fault(&keys, table))?;
    let version = number_fault(true, WRONG_VERSION, number_at(table, "version", 1, 1));
    Ok(lower(unknown, at_top(alloc, "version", version)?))
}

/// What is wrong with the limits of so many nodes.
fn limits_fault(alloc: Global, table: &Table, nodes: usize) -> Result<Option<Refusal>, AllocError>
    ensures { IfOk result (λ f. f ≡ limits_fault nodes (table_view table.now)) }
{
    let ticks = limit_fault(alloc, table, true, "ticks", 0, 4096)?;
    let fuel = limit_fault(alloc, table, false, "fuel", 1, 4096)?;
    let conflicts = limit_fault(alloc, table, false, "conflicts", 1, 1_048_576)?;
    let fewest = usize::max(1, nodes) as u64;
    let states = limit_fault(alloc, table, false, "states", fewest, 16384)?;
    let dstates = limit_fault(alloc, table, false, "dstates", 1, 16384)?;
    Ok(lower(ticks, lower(fuel, lower(conflicts, lower(states, dstates)))))
}

/// What is wrong with the arrays, where these are the numbers of their faults.
fn arrays_fault(
    alloc: Global,
    program: Option<u8>,
    node: Option<u8>,
    link: Option<u8>,
    input: Option<u8>,
) -> Result<Option<Refusal>, AllocError>
    ensures { IfOk result (λ f. f ≡ lower (located (codes "program") program) (lower (located (codes "node") node) (lower (located (codes "link") link) (located (codes "input") input)))) }
{
    let program = at_top(alloc, "program", program)?;
    let node = at_top(alloc, "node", node)?;
    let link = at_top(alloc, "link", link)?;
    let input = at_top(alloc, "input", input)?;
    Ok(lower(program, lower(node, lower(link, input))))
}

/// The tables of the arrays of a file, and what is wrong at the keys of its outermost table.
pub(crate) fn document_of<'a>(alloc: Global, table: &'a Table) -> Result<Document<'a>, AllocError>
    ensures fault { IfOk result (λ d. d.fault ≡ top_fault (table_view table.now)) }
    ensures programs { IfOk result (λ d. map (λ t. table_view t.now) d.arrays.programs.items ≡ elements (codes "program") (table_view table.now)) }
    ensures nodes { IfOk result (λ d. map (λ t. table_view t.now) d.arrays.nodes.items ≡ elements (codes "node") (table_view table.now)) }
    ensures links { IfOk result (λ d. map (λ t. table_view t.now) d.arrays.links.items ≡ elements (codes "link") (table_view table.now)) }
    ensures inputs { IfOk result (λ d. map (λ t. table_view t.now) d.arrays.inputs.items ≡ elements (codes "input") (table_view table.now)) }
{
    let programs = tables_at(alloc, table, "program", 1, 64)?;
    let nodes = tables_at(alloc, table, "node", 1, 64)?;
    let links = tables_at(alloc, table, "link", 0, 1024)?;
    let inputs = tables_at(alloc, table, "input", 0, 65536)?;
    let version = version_fault(alloc, table)?;
    let limits = limits_fault(alloc, table, nodes.tables.len())?;
    let arrays = arrays_fault(
        alloc,
        programs.fault,
        nodes.fault,
        links.fault,
        inputs.fault,
    )?;
    Ok(Document {
        fault: lower(version, lower(limits, arrays)),
        arrays: Arrays {
            programs: programs.tables,
            nodes: nodes.tables,
            links: links.tables,
            inputs: inputs.tables,
        },
    })
}
