//! A node at its start.

ghost use Rattle.std.specs.Prelude.{◌≡◌, ◌<◌, [], length, IfOk};
ghost use Rattle.kn_plan.specs.Nets.{plan_of};
ghost use Rattle.kn_model.specs.Terms.{words};
ghost use Rattle.kn_model.specs.Nodes.{state_of};

use crate::node::ConcNode;
use kn_node::Outcome;
use kn_plan::{Net, NodePlan};
use kn_trace::Trace;
use std::alloc::{AllocError, Global};

/// A node of the network before anything has run. Err is want of memory.
pub fn open_at(net: &Net, node: u32) -> Result<ConcNode, AllocError>
    requires { node < length net.now.network.nodes }
    ensures state { IfOk result (λ n. n.state ≡ state_of (words []) (plan_of net.now.network node).loss (plan_of net.now.network node).duplicate (plan_of net.now.network node).reboot) }
    ensures node { IfOk result (λ n. n.node ≡ node) }
{
    let alloc = *net.links.allocator();
    open(alloc, &net.nodes[node as usize], node)
}

/// A node of this plan before anything has run.
fn open(alloc: Global, plan: &NodePlan, node: u32) -> Result<ConcNode, AllocError>
    ensures state { IfOk result (λ n. n.state ≡ state_of (words []) plan.now.loss plan.now.duplicate plan.now.reboot) }
    ensures node { IfOk result (λ n. n.node ≡ node) }
{
    Ok(ConcNode {
        node,
        registers: Vec::from_slice(alloc, &[0; 16])?,
        memory: Vec::from_slice(alloc, &[0; 64])?,
        timers: Vec::from_slice(alloc, &[None; 8])?,
        queue: Vec::new(alloc),
        inputs: 0,
        sent: 0,
        losses: plan.loss,
        duplications: plan.duplicate,
        outcome: Outcome::Running,
        booted: false,
        reboots: Vec::from_slice(alloc, plan.reboot.as_slice())?,
        trace: Trace::new(alloc),
    })
}
