//! Copies of the whole network.

ghost use Rattle.std.specs.Prelude.{◌≡◌, ℕ, ◌<◌, ◌≤◌, [], filter, nat_eq, map, length, IfOk, IsTrue, MatchOption, slice_set};
ghost use Rattle.std.specs.List.{AllByRecursion};
ghost use Rattle.std.specs.Arc.{arc_value};
ghost use Rattle.kn_cob.specs.Copies.{node_in, sent_to, mailed, along};
ghost use Rattle.kn_cob.specs.Closing.{AreOpened, AreShut, IsStanding, IsShutOut, IsClosed, OnShut, configs_in};
ghost use Rattle.kn_cob.specs.Ticks.{IsIdle};

use crate::node::{NodeNow, is_sent_to};
use crate::run::Scenario;
use kn_node::{Config, quiet_until};
use kn_packet::Packet;
use kn_plan::Net;
use kn_step::Path;
use std::alloc::{AllocError, Global};
use std::marker::Model;
use std::sync::Arc;

/// A copy of the whole network: one node for each number. Copies share the nodes that no branch told apart.
#[derive(Debug, Drop)]
pub struct NetworkCopy {
    nodes: Vec<Arc<NodeNow, Global>>,
}

impl Model for NetworkCopy {
    ghost use Rattle.std.specs.Prelude.{List, map};
    ghost use Rattle.std.specs.Arc.{arc_value};
    ghost use Rattle.kn_cob.specs.Nodes.{NodeView};

    ghost Value = { List NodeView };

    ghost view = { λ c. map arc_value c.nodes.items };
}

/// The same nodes, shared. Err is want of memory.
#[tactic(auto, using(crate::proofs::Edits::edits))]
fn share(
    alloc: Global,
    nodes: &[Arc<NodeNow, Global>],
) -> Result<Vec<Arc<NodeNow, Global>>, AllocError>
    ensures { IfOk result (λ v. map arc_value v.items ≡ map arc_value nodes.now) }
{
    let mut copies = Vec::with_capacity(alloc, nodes.len())?;
    for node in nodes {
        copies.push(Arc::try_clone(node)?)?;
    }
    Ok(copies)
}

/// A node after it was sent those of some packets that are for it; it is shared where there are none.
fn mailed_node(
    alloc: Global,
    now: &Arc<NodeNow, Global>,
    node: u32,
    sends: &[Packet],
) -> Result<Arc<NodeNow, Global>, AllocError>
    ensures { IfOk result (λ x. arc_value x ≡ sent_to node sends.now (arc_value now.now)) }
{
    if !is_sent_to(sends, node) {
        let same = Arc::try_clone(now)?;
        return Ok(same);
    }
    let next = Arc::new(alloc, now.with_mail(node, sends)?)?;
    Ok(next)
}

/// A node after the tick; it is shared where it was sent nothing. None only where no inputs meet what it was sent.
fn closed_node(
    alloc: Global,
    net: &Net,
    now: &Arc<NodeNow, Global>,
) -> Result<Option<Arc<NodeNow, Global>>, AllocError>
    requires { IsStanding net.now.network (arc_value now.now) }
    ensures { IfOk result (λ o. MatchOption o (IsShutOut (arc_value now.now)) (λ z. IsClosed net.now.network (arc_value now.now) (arc_value z))) }
{
    if now.inbox.as_slice().is_empty() {
        let same = Arc::try_clone(now)?;
        return Ok(Some(same));
    }
    match now.close(alloc, net)? {
        Some(next) => Ok(Some(Arc::new(alloc, next)?)),
        None => Ok(None),
    }
}

impl NetworkCopy {
    /// All nodes at their start. Err is want of memory.
    pub fn opening(alloc: Global, net: &Net) -> Result<NetworkCopy, AllocError>
        ensures { IfOk result (AreOpened net.now.network) }
    {
        net.bounds();
        let mut nodes = Vec::new(alloc);
        for node in 0..net.nodes.len() as u32 {
            nodes.push(Arc::new(alloc, NodeNow::opening(alloc, net, node)?)?)?;
        }
        Ok(NetworkCopy { nodes })
    }

    /// A node, by its number.
    pub fn node(&self, node: u32) -> &NodeNow
        requires { node < length self.now }
        ensures { result.now ≡ node_in self.now node }
    {
        &self.nodes[node as usize]
    }

    /// A copy in which a node has another state. Err is want of memory.
    #[tactic(auto, using(crate::proofs::Edits::edits))]
    fn with_config(&self, node: u32, config: Config) -> Result<NetworkCopy, AllocError>
        requires { node < length self.now }
        ensures { IfOk result (λ c. c ≡ slice_set self.now node (record (node_in self.now node) { config = config })) }
    {
        let alloc = *self.nodes.allocator();
        let next = self.node(node).with_config(alloc, config)?;
        let mut nodes = share(alloc, &self.nodes)?;
        nodes[node as usize] = Arc::new(alloc, next)?;
        Ok(NetworkCopy { nodes })
    }

    /// A copy in which each node is sent those of some packets that are for it. Err is want of memory.
    fn with_mail(&self, sends: &[Packet]) -> Result<NetworkCopy, AllocError>
        requires { length self.now ≤ 64 }
        ensures { IfOk result (λ c. c ≡ mailed 0 sends.now self.now) }
    {
        let alloc = *self.nodes.allocator();
        let mut nodes = Vec::with_capacity(alloc, self.nodes.len())?;
        for (node, now) in self.nodes.iter().enumerate() {
            nodes.push(mailed_node(alloc, now, node as u32, sends)?)?;
        }
        Ok(NetworkCopy { nodes })
    }

    /// The copy for a path of a node's event: the node's state after it, and what it sent with those whom it is for. Err
    /// is want of memory.
    pub fn along(&self, node: u32, path: Path) -> Result<NetworkCopy, AllocError>
        requires node { node < length self.now }
        requires few { length self.now ≤ 64 }
        ensures { IfOk result (λ c. c ≡ along self.now node path) }
    {
        let Path { config, sends, .. } = path;
        let next = self.with_config(node, config)?;
        if sends.is_empty() {
            return Ok(next);
        }
        let sent = next.with_mail(&sends)?;
        Ok(sent)
    }

    /// Whether no node was sent anything in the tick.
    pub fn is_shut(&self) -> bool
        ensures { IsTrue result → AreShut self.now }
    {
        for now in &self.nodes {
            if !now.inbox.is_empty() {
                return false;
            }
        }
        true
    }

    /// A tick up to which nothing is due of any node after tick 0; the greatest number where nothing comes.
    pub fn quiet_until(&self) -> u32
        ensures { (tick : ℕ) → 0 < tick → tick < result → IsIdle tick self.now }
    {
        let mut until = u32::MAX;
        for now in &self.nodes {
            until = until.min(quiet_until(&now.config));
        }
        until
    }

    /// The copy after the tick: each node closes. None only where no inputs meet what a node was sent. Err is want of
    /// memory.
    pub fn shut(&self, net: &Net) -> Result<Option<NetworkCopy>, AllocError>
        requires { AllByRecursion (IsStanding net.now.network) self.now }
        ensures { IfOk result (OnShut net.now.network self.now) }
    {
        let alloc = *self.nodes.allocator();
        let mut nodes = Vec::with_capacity(alloc, self.nodes.len())?;
        for now in &self.nodes {
            match closed_node(alloc, net, now)? {
                Some(next) => nodes.push(next)?,
                None => return Ok(None),
            }
        }
        Ok(Some(NetworkCopy { nodes }))
    }

    /// The states of its nodes. Err is want of memory.
    pub fn scenario(&self) -> Result<Scenario, AllocError>
        ensures { IfOk result (λ s. s ≡ configs_in self.now) }
    {
        let mut nodes = Vec::with_capacity(*self.nodes.allocator(), self.nodes.len())?;
        for now in &self.nodes {
            nodes.push(Arc::try_clone(&now.config)?)?;
        }
        Ok(Scenario { nodes })
    }
}
