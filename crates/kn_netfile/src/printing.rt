//! Printing a network.

ghost use Rattle.std.specs.Prelude.{◌≡◌, ◌<◌, [], ◌++◌, codes, length, slice_index_or, IfOk, OnOk, string_bytes, flat_map, zip};
ghost use Rattle.std.specs.List.{AllByRecursion};
ghost use Rattle.kn_plan.specs.Valid.{IsPlan};
ghost use Rattle.kn_plan.specs.Files.{IsName};
ghost use Rattle.kn_netfile.specs.Printing.{line_text, number_line, quoted, header_text, more_numbers, numbers_text, limits_text, program_text, node_text, link_text, input_text, file_text};

use kn_code::{Program, encode};
use kn_plan::{Limits, Link, Name, Net, NodePlan};
use kn_term::Valuation;
use std::alloc::AllocError;
use std::str;

/// The version of the format.
const VERSION: u64 = 1;

/// A name as text.
fn text_of(name: &Name) -> &str
    requires { IsName name.now }
    ensures { result.now ≡ name.now }
{
    match str::from_utf8(&name.bytes) {
        Ok(text) => text,
        Err(_) => unreachable!(),
    }
}

/// Appends an empty line and the header of an element of an array of tables.
fn put_header(text: &mut String, key: &str) -> Result<(), AllocError>
    ensures { OnOk result (string_bytes text.new ≡ string_bytes text.old ++ header_text key.now) }
{
    write!(text, "\n[[{key}]]\n")
}

/// Appends the line of a key whose value is a number.
fn put_number(text: &mut String, key: &str, number: u64) -> Result<(), AllocError>
    ensures { OnOk result (string_bytes text.new ≡ string_bytes text.old ++ number_line key.now number) }
{
    write!(text, "{key} = {number}\n")
}

/// Appends the line of a key whose value is a text that needs no escape.
fn put_text(text: &mut String, key: &str, value: &str) -> Result<(), AllocError>
    ensures { OnOk result (string_bytes text.new ≡ string_bytes text.old ++ line_text key.now (quoted value.now)) }
{
    write!(text, "{key} = \"{value}\"\n")
}

/// Appends the version and all limits.
fn put_limits(text: &mut String, limits: Limits) -> Result<(), AllocError>
    ensures { OnOk result (string_bytes text.new ≡ string_bytes text.old ++ limits_text limits) }
{
    put_number(text, "version", VERSION)?;
    put_number(text, "ticks", limits.ticks as u64)?;
    put_number(text, "fuel", limits.fuel as u64)?;
    put_number(text, "conflicts", limits.conflicts)?;
    put_number(text, "states", limits.states as u64)?;
    put_number(text, "dstates", limits.dstates as u64)
}

/// Appends a program with its name.
#[tactic(auto, unfolding(crate::specs::Printing::program_text))]
fn put_program(text: &mut String, name: &Name, program: &Program) -> Result<(), AllocError>
    requires { IsName name.now }
    ensures { OnOk result (string_bytes text.new ≡ string_bytes text.old ++ program_text (name.now, program.now)) }
{
    let alloc = *text.allocator();
    let code = hex::encode(alloc, encode(alloc, program)?)?;
    put_header(text, "program")?;
    put_text(text, "name", text_of(name))?;
    put_text(text, "code", &code)
}

/// Appends the numbers behind the first one, and the end of the list.
fn put_more(text: &mut String, numbers: &[u32]) -> Result<(), AllocError>
    ensures { OnOk result (string_bytes text.new ≡ string_bytes text.old ++ more_numbers numbers.now) }
{
    for number in numbers {
        write!(text, ", {number}")?;
    }
    text.push_str("]")
}

/// Appends a list of numbers.
fn put_numbers(text: &mut String, numbers: &[u32]) -> Result<(), AllocError>
    ensures { OnOk result (string_bytes text.new ≡ string_bytes text.old ++ numbers_text numbers.now) }
{
    match numbers {
        [] => text.push_str("[]"),
        [first, others @ ..] => {
            write!(text, "[{first}")?;
            put_more(text, others)
        }
    }
}

/// The name of a node's program, as text.
fn program_name<'a>(names: &'a [Name], plan: &NodePlan) -> &'a str
    requires names { AllByRecursion IsName names.now }
    requires program { plan.now.program < length names.now }
    ensures { result.now ≡ slice_index_or names.now plan.now.program [] }
{
    text_of(&names[plan.program])
}

/// Appends the line of the ticks at which a node may reboot.
fn put_reboots(text: &mut String, ticks: &[u32]) -> Result<(), AllocError>
    ensures { OnOk result (string_bytes text.new ≡ string_bytes text.old ++ line_text (codes "reboot") (numbers_text ticks.now)) }
{
    text.push_str("reboot = ")?;
    put_numbers(text, ticks)?;
    text.push_str("\n")
}

/// Appends a node, whose program's name is among the names.
fn put_node(text: &mut String, names: &[Name], plan: &NodePlan) -> Result<(), AllocError>
    requires names { AllByRecursion IsName names.now }
    requires program { plan.now.program < length names.now }
    ensures { OnOk result (string_bytes text.new ≡ string_bytes text.old ++ node_text names.now plan.now) }
{
    put_header(text, "node")?;
    put_text(text, "program", program_name(names, plan))?;
    put_number(text, "loss", plan.loss as u64)?;
    put_number(text, "duplicate", plan.duplicate as u64)?;
    put_reboots(text, &plan.reboot)
}

/// Appends a link.
fn put_link(text: &mut String, link: Link) -> Result<(), AllocError>
    ensures { OnOk result (string_bytes text.new ≡ string_bytes text.old ++ link_text link) }
{
    put_header(text, "link")?;
    put_number(text, "from", link.from as u64)?;
    put_number(text, "to", link.to as u64)?;
    put_number(text, "delay", link.delay as u64)
}

/// Appends all links.
fn put_links(text: &mut String, links: &[Link]) -> Result<(), AllocError>
    ensures { OnOk result (string_bytes text.new ≡ string_bytes text.old ++ flat_map link_text links.now) }
{
    for link in links {
        put_link(text, *link)?;
    }
    Ok(())
}

/// Appends an input.
fn put_input(text: &mut String, node: u32, index: u32, value: u16) -> Result<(), AllocError>
    ensures { OnOk result (string_bytes text.new ≡ string_bytes text.old ++ input_text (record { node = node; index = index; word = value })) }
{
    put_header(text, "input")?;
    put_number(text, "node", node as u64)?;
    put_number(text, "index", index as u64)?;
    put_number(text, "value", value as u64)
}

/// Appends programs, each with the name at its place.
fn put_programs(text: &mut String, names: &[Name], programs: &[Program]) -> Result<(), AllocError>
    requires { AllByRecursion IsName names.now }
    ensures { OnOk result (string_bytes text.new ≡ string_bytes text.old ++ flat_map program_text (zip names.now programs.now)) }
{
    for (name, program) in names.iter().zip(programs) {
        put_program(text, name, program)?;
    }
    Ok(())
}

/// Appends nodes.
fn put_nodes(text: &mut String, names: &[Name], plans: &[NodePlan]) -> Result<(), AllocError>
    requires names { AllByRecursion IsName names.now }
    requires plans { AllByRecursion (IsPlan (length names.now)) plans.now }
    ensures { OnOk result (string_bytes text.new ≡ string_bytes text.old ++ flat_map (node_text names.now) plans.now) }
{
    for plan in plans {
        put_node(text, names, plan)?;
    }
    Ok(())
}

/// Appends inputs.
fn put_inputs(text: &mut String, inputs: &Valuation) -> Result<(), AllocError>
    ensures { OnOk result (string_bytes text.new ≡ string_bytes text.old ++ flat_map input_text inputs.now) }
{
    let mut place = 0;
    while let Some((node, index, value)) = inputs.at(place) {
        put_input(text, node, index, value)?;
        place += 1;
    }
    Ok(())
}

/// The text of a network, with all limits and all keys, and each program by its bytecode in lower case. Where it is at
/// most 1,048,576 bytes, `read` reads it as that network. Only want of memory is an error.
pub fn print(net: &Net) -> Result<String, AllocError>
    ensures { IfOk result (λ s. string_bytes s ≡ file_text net.now) }
{
    net.bounds();
    let mut text = String::new(*net.links.allocator());
    put_limits(&mut text, net.limits)?;
    put_programs(&mut text, &net.names, &net.programs)?;
    put_nodes(&mut text, &net.names, &net.nodes)?;
    put_links(&mut text, &net.links)?;
    put_inputs(&mut text, &net.inputs)?;
    Ok(text)
}
