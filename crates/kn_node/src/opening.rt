//! A node's state at its start.

ghost use Rattle.std.specs.Prelude.{◌≡◌, ◌<◌, length, IfOk};
ghost use Rattle.kn_plan.specs.Nets.{plan_of};
ghost use Rattle.kn_node.specs.Opening.{IsOpened, at_start};

use crate::config::Config;
use crate::machine::{Machine, Outcome};
use kn_cond::{Cond, Standing};
use kn_packet::Queue;
use kn_plan::{Net, NodePlan};
use kn_term::{Ref, Terms, Valuation};
use kn_trace::Trace;
use std::alloc::{AllocError, Global};

/// The state of a node of the network before anything has run. Err is want of memory.
pub fn open_config(net: &Net, node: u32) -> Result<Config, AllocError>
    requires { node < length net.now.network.nodes }
    ensures { IfOk result (IsOpened (plan_of net.now.network node) node) }
{
    let alloc = *net.links.allocator();
    let mut terms = Terms::new(alloc);
    let zero = terms.konst(0)?;
    terms.freeze()?;
    let machine = open_machine(alloc, &net.nodes[node as usize], zero)?;
    Ok(Config {
        node,
        machine,
        terms,
        cond: Cond::new(alloc),
        trace: Trace::new(alloc),
        history: 0,
        standing: Standing::Inputs(Valuation::new(alloc)),
    })
}

/// The machine of a plan before anything has run, with this term in each register and word of memory.
fn open_machine(alloc: Global, plan: &NodePlan, zero: Ref) -> Result<Machine, AllocError>
    ensures { IfOk result (λ m. m ≡ at_start plan.now zero) }
{
    Ok(Machine {
        registers: Vec::from_slice(alloc, &[zero; 16])?,
        memory: Vec::from_slice(alloc, &[zero; 64])?,
        timers: Vec::from_slice(alloc, &[None; 8])?,
        queue: Queue::new(alloc),
        inputs: 0,
        sent: 0,
        losses: plan.loss,
        duplications: plan.duplicate,
        outcome: Outcome::Running,
        booted: false,
        reboots: Vec::from_slice(alloc, plan.reboot.as_slice())?,
    })
}
