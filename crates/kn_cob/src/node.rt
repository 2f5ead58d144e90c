//! The nodes of a network in a tick.

ghost use Rattle.std.specs.Prelude.{◌≡◌, ◌++◌, ◌<◌, ◌≤◌, [], filter, length, nat_eq, false, Some, IfOk, OnOk};
ghost use Rattle.std.specs.Arc.{arc_value};
ghost use Rattle.kn_cond.specs.Conditions.{that, StandsFor};
ghost use Rattle.kn_plan.specs.Nets.{plan_of};
ghost use Rattle.kn_node.specs.Opening.{IsOpened};
ghost use Rattle.kn_machine.specs.Views.{own_of};
ghost use Rattle.kn_cob.specs.Copies.{sent_to};
ghost use Rattle.kn_cob.specs.Closing.{OnClosed};

use kn_node::{Config, open_config};
use kn_packet::Packet;
use kn_plan::Net;
use kn_step::{copy_packets, receive};
use std::alloc::{AllocError, Global};
use std::marker::Model;
use std::sync::Arc;

/// A node in a tick: its state, and the packets that it was sent in the tick, in the order in which they were sent. They
/// join the state when the tick is closed.
#[derive(Debug, Drop)]
pub struct NodeNow {
    pub config: Arc<Config, Global>,
    pub inbox: Vec<Packet>,
}

impl Model for NodeNow {
    ghost use Rattle.std.specs.Arc.{arc_value};
    ghost use Rattle.kn_cob.specs.Nodes.{NodeView};

    ghost Value = { NodeView };

    ghost view = { λ x. record { config = arc_value x.config; inbox = x.inbox.items } };
}

/// How many nodes a network has, 1 to 64.
pub fn node_count(net: &Net) -> u32
    ensures count { result ≡ length net.now.network.nodes }
    ensures most { result ≤ 64 }
{
    net.bounds();
    net.nodes.len() as u32
}

/// Packets that are for a node come behind those that it was sent. Err is want of memory.
fn add_for(node: u32, sends: &[Packet], inbox: &mut Vec<Packet>) -> Result<(), AllocError>
    ensures { OnOk result (inbox.new.items ≡ inbox.old.items ++ filter (λ p. nat_eq p.to node) sends.now) }
{
    for packet in sends {
        if packet.to == node {
            inbox.push(packet.copy()?)?;
        }
    }
    Ok(())
}

/// Whether some packet is for a node.
pub fn is_sent_to(sends: &[Packet], node: u32) -> bool
    ensures { result ≡ false → filter (λ p. nat_eq p.to node) sends.now ≡ [] }
{
    for packet in sends {
        if packet.to == node {
            return true;
        }
    }
    false
}

impl NodeNow {
    /// A node that has run nothing and was sent nothing. Err is want of memory.
    pub fn opening(alloc: Global, net: &Net, node: u32) -> Result<NodeNow, AllocError>
        requires { node < length net.now.network.nodes }
        ensures opened { IfOk result (λ x. IsOpened (plan_of net.now.network node) node x.config) }
        ensures empty { IfOk result (λ x. x.inbox ≡ []) }
    {
        Ok(NodeNow {
            config: Arc::new(alloc, open_config(net, node)?)?,
            inbox: Vec::new(alloc),
        })
    }

    /// The node with another state, and with what it was sent. Err is want of memory.
    pub fn with_config(&self, alloc: Global, config: Config) -> Result<NodeNow, AllocError>
        ensures { IfOk result (λ x. x ≡ record self.now { config = config }) }
    {
        Ok(NodeNow {
            config: Arc::new(alloc, config)?,
            inbox: copy_packets(alloc, &self.inbox)?,
        })
    }

    /// The node after it was sent those of some packets that are for it, by its number. Err is want of memory.
    pub fn with_mail(&self, node: u32, sends: &[Packet]) -> Result<NodeNow, AllocError>
        ensures { IfOk result (λ x. x ≡ sent_to node sends.now self.now) }
    {
        let mut inbox = copy_packets(*self.inbox.allocator(), &self.inbox)?;
        add_for(node, sends, &mut inbox)?;
        Ok(NodeNow {
            config: Arc::try_clone(&self.config)?,
            inbox,
        })
    }

    /// The node after the tick: what it was sent joins its state. None only where no inputs meet what this asks. Err is
    /// want of memory.
    pub fn close(&self, alloc: Global, net: &Net) -> Result<Option<NodeNow>, AllocError>
        requires { StandsFor net.now.network.limits.conflicts (that (own_of self.now.config)) self.now.config.standing }
        ensures { IfOk result (OnClosed net.now.network self.now) }
    {
        let Some(config) = receive(net, &self.config, &self.inbox)? else {
            return Ok(None);
        };
        Ok(Some(NodeNow {
            config: Arc::new(alloc, config)?,
            inbox: Vec::new(alloc),
        }))
    }
}
