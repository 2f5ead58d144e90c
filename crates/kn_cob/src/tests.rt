//! Copying on branch on a small network: two nodes that take an input of one bit and branch on it.

ghost use Rattle.std.specs.Prelude.{◌≡◌, ◌<◌, ◌∷◌, [], IfOk};
ghost use Rattle.kn_cob.specs.Runs.{AreScenarios};

use super::*;
use kn_code::{Program, decode};
use kn_plan::{Limits, Name, Net, NodePlan};
use kn_report::text;
use kn_step::Steps;
use kn_term::Valuation;
use std::alloc::{AllocError, Global};
use std::marker::Brand;
use std::sync::ledger::{Blank, Ledger};
use std::test::Fail;

const REPORT: &str = "report 1 mapping cob ticks 1 nodes 2
state 0 node 0 trace 0 outcome running inputs 0.0=1
state 1 node 1 trace 0 outcome running inputs 1.0=1
state 2 node 0 trace 0 outcome running inputs 0.0=1
state 3 node 1 trace 1 outcome running inputs -
state 4 node 0 trace 1 outcome running inputs -
state 5 node 1 trace 0 outcome running inputs 1.0=1
state 6 node 0 trace 1 outcome running inputs -
state 7 node 1 trace 1 outcome running inputs -
dstate 0 columns 0 1
dstate 1 columns 2 3
dstate 2 columns 4 5
dstate 3 columns 6 7
end states 8 dstates 4 reached 0 open 0
";

/// The program `boot: input r0, 1`, `brz r0, 2`, `ret`.
fn half(alloc: Global) -> Result<Program, AllocError> {
    let mut bytes = Vec::from_array(alloc, [0, 3, 0, 0])?;
    for _handler in 1..10 {
        bytes.push(0xff)?;
        bytes.push(0xff)?;
    }
    for instr in [
        [0x0a, 0, 0, 0, 0, 1, 0, 0],
        [0x09, 0, 0, 0, 0, 2, 0, 0],
        [0x23, 0, 0, 0, 0, 0, 0, 0],
    ] {
        bytes.extend_from_slice(&instr)?;
    }
    decode(alloc, &bytes).map_err(|_| AllocError)
}

fn plan(alloc: Global) -> Result<NodePlan, AllocError>
    ensures { IfOk result (λ p. p ≡ record { program = 0; loss = 0; duplicate = 0; reboot = [] }) }
{
    Ok(NodePlan {
        program: 0,
        loss: 0,
        duplicate: 0,
        reboot: Vec::new(alloc),
    })
}

fn name(alloc: Global) -> Result<Name, AllocError>
    ensures { IfOk result (λ n. n ≡ 97 ∷ []) }
{
    Ok(Name {
        bytes: Vec::from_array(alloc, [b'a'])?,
    })
}

/// Two nodes with the program, for one tick.
fn two_nodes(alloc: Global) -> Result<Net, AllocError>
    ensures { IfOk result (λ n. n.network.nodes ≡ record { program = 0; loss = 0; duplicate = 0; reboot = [] } ∷ record { program = 0; loss = 0; duplicate = 0; reboot = [] } ∷ []) }
{
    Ok(Net {
        programs: Vec::from_array(alloc, [half(alloc)?])?,
        nodes: Vec::from_array(alloc, [plan(alloc)?, plan(alloc)?])?,
        links: Vec::new(alloc),
        limits: Limits {
            ticks: 1,
            fuel: 512,
            conflicts: 65536,
            states: 16,
            dstates: 16,
        },
        names: Vec::from_array(alloc, [name(alloc)?])?,
        inputs: Valuation::new(alloc),
    })
}

/// What is found of a network.
fn explored<L: Ledger>(net: &Net, blank: Blank) -> Result<CobRun, Stop>
    requires name { blank.name ≡ L.name }
    requires parts { blank.parts ≡ L.parts }
    requires some { 0 < L.parts }
    ensures { IfOk result (λ r. AreScenarios net.now.network r) }
{
    let mut steps: Steps<L> = Steps::new(blank);
    explore_cob(net, &mut steps)
}

/// The text of the network's report.
fn reported(alloc: Global) -> Result<String, AllocError> {
    let net = two_nodes(alloc)?;
    match explored::<Brand>(&net, Blank::new(1)) {
        Ok(run) => text(&report_of(alloc, &net, &run)?),
        Err(_) => Err(AllocError),
    }
}

fn is_shared<T: Send + Sync>() {}

#[test]
fn two_branches_are_four_scenarios(rt: HostRuntime) -> Result<(), Fail> {
    is_shared::<CobRun>();
    is_shared::<Stop>();
    assert_eq!(rt; reported(rt.alloc())?.as_str(), REPORT);
    Ok(())
}
