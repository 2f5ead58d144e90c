//! A handler.

ghost use Rattle.std.specs.Prelude.{◌≡◌, ◌<◌, length, IfOk, OnOk};
ghost use Rattle.kn_model.specs.Terms.{words};
ghost use Rattle.kn_model.specs.Paths.{runs, ways};
ghost use Rattle.kn_conc.specs.Ways.{IsPlace, here_of, way_of};
ghost use Rattle.kn_conc.specs.Runs.{IsOnly, IsTurn};

use crate::rows::{Step, execute};
use crate::spot::{Spot, program_of};
use crate::way::Way;
use kn_node::FailKind;
use kn_plan::Net;
use kn_term::Valuation;
use std::alloc::AllocError;

/// Runs the handler of a number, of boot, recv and timer 0 to timer 7; one that is absent runs no instruction. Err is want
/// of memory.
pub fn run_handler(
    net: &Net,
    spot: &Spot,
    inputs: &Valuation,
    handler: u8,
    way: &mut Way,
) -> Result<(), AllocError>
    requires node { spot.now.node < length net.now.network.nodes }
    requires place { IsPlace spot.now }
    ensures way { OnOk result (IsOnly inputs.now (runs (words inputs.now) (here_of net.now.network spot.now) handler (way_of way.old)) (way_of way.new)) }
    ensures node { way.new.node.node ≡ way.old.node.node }
    ensures trace { way.new.node.state.trace ≡ way.old.node.state.trace }
{
    if let Some(entry) = program_of(net, spot.node).handler(handler) {
        way.jump(entry);
        run(net, spot, inputs, way)?;
    }
    Ok(())
}

/// Runs a way up to its end; one that would execute more instructions than the network's fuel fails. Err is want of
/// memory.
fn run(net: &Net, spot: &Spot, inputs: &Valuation, way: &mut Way) -> Result<(), AllocError>
    requires node { spot.now.node < length net.now.network.nodes }
    requires place { IsPlace spot.now }
    ensures way { OnOk result (IsOnly inputs.now (ways (words inputs.now) (here_of net.now.network spot.now) net.now.network.limits.fuel (way_of way.old)) (way_of way.new)) }
    ensures node { way.new.node.node ≡ way.old.node.node }
    ensures trace { way.new.node.state.trace ≡ way.old.node.state.trace }
{
    for done in 0..net.limits.fuel {
        match take_turn(net, spot, inputs, way)? {
            Step::Goes => {}
            Step::Stops => return Ok(()),
        }
    }
    if way.node.is_running() {
        way.fail(spot.tick, FailKind::Fuel);
    }
    Ok(())
}

/// What comes of the next instruction of a way. Err is want of memory.
fn take_turn(net: &Net, spot: &Spot, inputs: &Valuation, way: &mut Way) -> Result<Step, AllocError>
    requires node { spot.now.node < length net.now.network.nodes }
    requires place { IsPlace spot.now }
    ensures turn { IfOk result (IsTurn inputs.now (here_of net.now.network spot.now) (way_of way.old) (way_of way.new)) }
    ensures node { way.new.node.node ≡ way.old.node.node }
    ensures trace { way.new.node.state.trace ≡ way.old.node.state.trace }
{
    if !way.node.is_running() {
        return Ok(Step::Stops);
    }
    let Some(instr) = program_of(net, spot.node).instr(way.pc) else {
        return Ok(Step::Stops);
    };
    execute(net, spot, inputs, instr, way)
}
