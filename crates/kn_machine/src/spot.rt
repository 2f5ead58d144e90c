//! Where an event runs.

ghost use Rattle.std.specs.Prelude.{◌≡◌, ◌<◌, ◌≤◌, length, IfOk};
ghost use Rattle.kn_code.specs.Code.{IsValid};
ghost use Rattle.kn_model.specs.Terms.{terms};
ghost use Rattle.kn_model.specs.Nets.{links_of, code_of};
ghost use Rattle.kn_model.specs.Rows.{payload_of, sender_of, link_at};
ghost use Rattle.kn_machine.specs.Effects.{mail_of};

use kn_code::Program;
use kn_packet::Packet;
use kn_plan::{Link, Net};
use std::alloc::{AllocError, Global};

/// Where an event runs: the node, the number of its history, the tick, the node's links in the file's order, and the
/// packet, if it is of a packet.
#[derive(Drop)]
pub struct Spot {
    pub node: u32,
    pub history: usize,
    pub tick: u32,
    pub links: Vec<Link>,
    pub mail: Option<Packet>,
}

/// The links of a node, in the file's order.
pub fn links_of(alloc: Global, net: &Net, node: u32) -> Result<Vec<Link>, AllocError>
    ensures { IfOk result (λ v. v.items ≡ links_of net.now.network node) }
{
    let mut links = Vec::new(alloc);
    for link in &net.links {
        if link.from == node {
            links.push(*link)?;
        }
    }
    Ok(links)
}

impl Spot {
    /// How many words the event's packet has, at most 8; 0 where the event is of no packet.
    pub fn length(&self) -> u16
        ensures { result ≡ length (payload_of (mail_of self.now.mail)) }
    {
        match &self.mail {
            Some(mail) => mail.payload.len() as u16,
            None => 0,
        }
    }

    /// Who sent the event's packet; 65,535 where the event is of no packet.
    pub fn sender(&self) -> u32
        ensures { result ≡ sender_of (mail_of self.now.mail) }
    {
        match &self.mail {
            Some(mail) => mail.from,
            None => 65535,
        }
    }

    /// The link of a number, as a list of at most one.
    pub fn link(&self, number: u16) -> &[Link]
        ensures { result.now ≡ link_at terms self.now.links.items number }
    {
        let first = (number as usize).min(self.links.len());
        let last = (first + 1).min(self.links.len());
        &self.links[first..last]
    }
}

/// The program of a node of the network.
pub fn program_of(net: &Net, node: u32) -> &Program
    requires { node < length net.now.network.nodes }
    ensures value { result.now ≡ code_of net.now.network node }
    ensures valid { IsValid (code_of net.now.network node) }
{
    let plan = &net.nodes[node as usize];
    let program = &net.programs[plan.program];
    let _instrs = &program.instrs;
    program
}
