//! Reading a network file.

ghost use Rattle.std.specs.Prelude.{◌≡◌, [], codes, map, length, None, Err, IfOk};
ghost use Rattle.toml.specs.View.{table_view};
ghost use Rattle.kn_plan.specs.Files.{IsFile};
ghost use Rattle.kn_netfile.specs.Tables.{elements, file_at, names_of, programs_of, nodes_fault, links_fault, inputs_fault};
ghost use Rattle.kn_netfile.specs.Faults.{lower, everywhere};
ghost use Rattle.kn_netfile.specs.Reading.{file_of, file_of_tables, Answers, IsFaultOf};

use crate::building::{inputs_of, limits_of, links_of, plans_of};
use crate::inputs::inputs_fault;
use crate::links::links_fault;
use crate::names::Names;
use crate::nodes::nodes_fault;
use crate::programs::{Programs, programs_of};
use crate::refusal::{Refusal, lower};
use crate::top::{Arrays, Document, document_of};
use kn_code::Program;
use kn_plan::{Name, Net};
use std::alloc::{AllocError, Global};
use thiserror::Error;
use toml::Table;

/// The most bytes of a file.
const MOST_BYTES: usize = 1_048_576;

/// The file is too long.
const TOO_LONG: u8 = 1;

/// The bytes are no TOML document.
const NO_DOCUMENT: u8 = 2;

/// Why no network is read.
#[derive(Debug, Drop, Error)]
pub enum FileFault {
    /// The file is refused: the number of its fault, 1 to 12, and where.
    #[error("the file is refused")]
    Refused { number: u8, place: Name },
    /// Want of memory.
    #[error("out of memory")]
    Memory(AllocError),
}

/// The network that a file gives. A file is a TOML document of at most 1,048,576 bytes with the tables that
/// docs/FORMATS.md lists; keys that are absent have their defaults.
///
/// - `Refused`: the lowest number of a fault of the file, and of the faults of this number the first place, where the
///   outermost table comes first, then the elements of `program`, `node`, `link` and `input`, and in each table the keys
///   in the order of docs/FORMATS.md.
/// - `Memory`: want of memory.
pub fn read(alloc: Global, bytes: &[u8]) -> Result<Net, FileFault>
    // What the file gives or its fault is answered, unless memory runs out.
    ensures { Answers (file_of bytes.now) result }
{
    if MOST_BYTES < bytes.len() {
        return Err(refused(alloc, TOO_LONG));
    }
    match toml::table_from_slice(alloc, bytes) {
        Ok(table) => net_of_table(alloc, &table),
        Err(error) => {
            if error.is_memory() {
                return Err(FileFault::Memory(AllocError));
            }
            Err(refused(alloc, NO_DOCUMENT))
        }
    }
}

/// The fault of a file as a whole.
fn refused(alloc: Global, number: u8) -> FileFault
    ensures { IsFaultOf (Err (record { number = number; place = everywhere })) result }
{
    match Vec::from_array(alloc, [b'-']) {
        Ok(bytes) => FileFault::Refused {
            number,
            place: Name { bytes },
        },
        Err(_) => FileFault::Memory(AllocError),
    }
}

/// The network of a file's outermost table.
fn net_of_table(alloc: Global, table: &Table) -> Result<Net, FileFault>
    ensures { Answers (file_of_tables (table_view table.now)) result }
{
    match found_in(alloc, table) {
        Ok(Ok(net)) => Ok(net),
        Ok(Err(refusal)) => Err(FileFault::Refused {
            number: refusal.number,
            place: refusal.place,
        }),
        Err(e) => Err(FileFault::Memory(e)),
    }
}

/// The network of a file's outermost table, or its fault. Only want of memory is an outer error.
fn found_in(alloc: Global, table: &Table) -> Result<Result<Net, Refusal>, AllocError>
    ensures { IfOk result (λ r. r ≡ file_of_tables (table_view table.now)) }
{
    let Document { fault: top, arrays } = document_of(alloc, table)?;
    let Programs {
        fault,
        programs,
        names,
    } = programs_of(alloc, &arrays.programs)?;
    let elements = elements_fault(alloc, &names, &arrays)?;
    match lower(top, lower(fault, elements)) {
        Some(refusal) => Ok(Err(refusal)),
        None => Ok(Ok(net_of(alloc, table, &arrays, programs, names)?)),
    }
}

/// What is wrong with the nodes, links and inputs, where the programs have these names.
fn elements_fault(
    alloc: Global,
    names: &Names,
    arrays: &Arrays,
) -> Result<Option<Refusal>, AllocError>
    ensures { IfOk result (λ f. f ≡ lower (nodes_fault names.now 0 (map (λ t. table_view t.now) arrays.now.nodes.items)) (lower (links_fault (length arrays.now.nodes.items) 0 [] (map (λ t. table_view t.now) arrays.now.links.items)) (inputs_fault (length arrays.now.nodes.items) 0 None (map (λ t. table_view t.now) arrays.now.inputs.items)))) }
{
    let count = arrays.nodes.len();
    let nodes = nodes_fault(alloc, names, &arrays.nodes)?;
    let links = links_fault(alloc, count, &arrays.links)?;
    let inputs = inputs_fault(alloc, count, &arrays.inputs)?;
    Ok(lower(nodes, lower(links, inputs)))
}

/// The network of an outermost table without a fault.
fn net_of(
    alloc: Global,
    table: &Table,
    arrays: &Arrays,
    programs: Vec<Program>,
    names: Names,
) -> Result<Net, AllocError>
    requires valid { IsFile (file_at (table_view table.now)) }
    requires programs { programs.items ≡ programs_of (elements (codes "program") (table_view table.now)) }
    requires names { names ≡ names_of (elements (codes "program") (table_view table.now)) }
    requires nodes { map (λ t. table_view t.now) arrays.now.nodes.items ≡ elements (codes "node") (table_view table.now) }
    requires links { map (λ t. table_view t.now) arrays.now.links.items ≡ elements (codes "link") (table_view table.now) }
    requires inputs { map (λ t. table_view t.now) arrays.now.inputs.items ≡ elements (codes "input") (table_view table.now) }
    ensures { IfOk result (λ n. n ≡ file_at (table_view table.now)) }
{
    let count = arrays.nodes.len();
    let nodes = plans_of(alloc, &names, &arrays.nodes)?;
    let links = links_of(alloc, count, &arrays.links)?;
    let inputs = inputs_of(alloc, count, &arrays.inputs)?;
    Ok(Net {
        programs,
        nodes,
        links,
        limits: limits_of(table, count),
        names: names.into_list(),
        inputs,
    })
}
